//! Where connections come from.

ghost use Rattle.std.specs.Prelude.{◌≡◌, Bool, true, IfSome};
ghost use Rattle.ovs_types.specs.Schema.{SchemaValue};
ghost use Rattle.ovs_links.specs.declared.link.Link.{Link};
ghost use Rattle.ovs_node_threads.specs.Lines.{AdmitsBytes, AdmitsCopies};

use ovs_follow::InputFault;
use ovs_session::Ended;
use ovs_types::TxnId;
use std::io::{Read, Write};

/// Connections with one peer, one after another.
pub trait Connector {
    /// What a connection is read from.
    type In: Read + Drop;

    /// What a connection is written to.
    type Out: Write + Drop;

    // The links that may come of its connections, where these are read with a schema.
    ghost admits: { SchemaValue → Link → Type 0 };

    // Whether a session over one of them goes on from a whole copy.
    ghost resyncs: { Self → Bool };

    /// Whether a session over one of them, where its peer doesn't know the id that it asks, goes on from a whole copy of the peer's database:
    /// by one link of the difference between it and the node's own.
    fn resyncs(&self) -> bool
        ensures value { result ≡ resyncs self.now };

    /// How many bytes a message may have that comes over one of them.
    fn most_bytes(&self) -> usize;

    /// Whether there is to be another connection; it may wait until there is.
    fn next(&mut self) -> bool;

    /// The connection, to be asked for what comes after this id; `None` where it can't be had now. Its bytes stand for links
    /// alone that may come of it; where it doesn't tell them any link may.
    fn open(&mut self, asked: TxnId) -> Option<(Self::In, Self::Out)>
        ensures lawful { IfSome result (λ connection. AdmitsBytes admits asked (Self.In.remaining connection.0)) }
        ensures copies { IfSome result (λ connection. resyncs self.old ≡ true → AdmitsCopies admits asked (Self.In.remaining connection.0)) };

    /// The session over the connection that was opened last was told a whole copy at this id, of which so many rows differ from the node's.
    fn told_copy(&self, _id: TxnId, _rows: usize) {}

    /// The session over the connection that was opened last has ended so; where the upstream said what was refused, and there was
    /// memory to look at it again, with the fault of that.
    fn lost(&mut self, _ended: Ended, _fault: Option<InputFault>) {}
}
