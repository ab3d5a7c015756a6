//! What was framed and is to be answered.
ghost use Rattle.std.specs.Prelude.{◌≡◌, [], Ok, Err, IfOk, IfSome, OnOk, OnErr};
ghost use Rattle.ovs_wire.specs.Framing.{IsNew, Feeds, Takes};
ghost use Rattle.ovs_session.specs.Moving.{answered_fault, fault_in, is_fault};

use crate::reserved::append_reserved;
use ovs_json::NoMemory;
use ovs_wire::{FrameError, Framer};
use std::alloc::Global;
use std::marker::Model;

/// The bytes of a message.
#[derive(Debug, Drop)]
pub(crate) struct MessageBytes {
    bytes: Vec<u8>,
}

impl Model for MessageBytes {
    ghost use Rattle.std.specs.Prelude.{ℕ, List};

    ghost Value = { List ℕ };

    ghost view = { λ m. m.bytes.items };
}

impl MessageBytes {
    /// The bytes.
    pub(crate) fn as_slice(&self) -> &[u8]
        ensures value { result.now ≡ self.now }
    {
        self.bytes.as_slice()
    }
}

// The fault of the stream that a feed answered, where it answered one.
fn answered_fault(fed: Result<(), FrameError>) -> Result<Option<FrameError>, NoMemory>
    ensures ok { IfOk result (λ fault. (fed ≡ Err FrameError.NoMemory → ⊥) × (fault ≡ answered_fault fed)) }
    ensures err { OnErr result (fed ≡ Err FrameError.NoMemory) }
{
    match fed {
        Ok(()) => Ok(None),
        Err(FrameError::NoMemory) => Err(NoMemory),
        Err(fault) => Ok(Some(fault)),
    }
}

/// A framer whose messages are taken out whole, or stay where memory runs out.
///
/// The room for a message is made before it is taken out, since a message that was taken can't be put back. How long it may
/// be is known from what was fed: a message that waits became whole with the last piece, and so is no longer than that and
/// the rest before it.
#[derive(Debug, Drop)]
pub(crate) struct Inbox {
    framer: Framer,
    fault: Option<FrameError>,
    // no message that waits is longer
    most: usize,
    // the rest of the stream is no longer
    rest: usize,
    // how long the last piece was, behind which no rest is left once a message was taken
    piece: usize,
}

impl Model for Inbox {
    ghost use Rattle.std.specs.Prelude.{◌≡◌};
    ghost use Rattle.ovs_wire.specs.Framing.{Framing};
    ghost use Rattle.ovs_session.specs.Moving.{fault_in};
    ghost use Rattle.ovs_session.specs.Room.{HasRoom};

    ghost Value = { Framing };

    ghost view = { λ i. i.framer };

    ghost invariant = { λ i. (i.fault ≡ fault_in i.framer.ending) × HasRoom i.framer i.most i.rest i.piece };
}

impl Inbox {
    /// Nothing has come yet. A message may have `most_bytes`.
    pub(crate) fn new(alloc: Global, most_bytes: usize) -> Inbox
        ensures is_new { IsNew most_bytes result }
    {
        Inbox {
            framer: Framer::with_limit(alloc, most_bytes),
            fault: None,
            most: 0,
            rest: 0,
            piece: 0,
        }
    }

    /// Whether the stream has a fault, behind which nothing more is framed.
    #[tactic(auto, using(crate::proofs::Framed::some_fault))]
    pub(crate) fn has_fault(&self) -> bool
        ensures value { result ≡ is_fault self.now.ending }
    {
        self.fault.is_some()
    }

    /// The fault that the stream has, if it has one; never `NoMemory`.
    pub(crate) fn fault(&self) -> Option<FrameError>
        ensures value { result ≡ fault_in self.now.ending }
    {
        self.fault
    }

    /// Takes the next piece of the stream, where no message waits. After `NoMemory` nothing of it was taken.
    pub(crate) fn feed(&mut self, piece: &[u8]) -> Result<(), NoMemory>
        requires none { self.old.waiting ≡ [] }
        ensures fed { OnOk result (Feeds self.old piece.now self.new) }
        ensures unchanged { OnErr result (self.new ≡ self.old) }
    {
        let most_bytes = self.framer.limit();
        self.fault = answered_fault(self.framer.feed(piece))?;
        self.most = self.rest.saturating_add(piece.len()).min(most_bytes);
        self.rest = self.most;
        self.piece = piece.len();
        Ok(())
    }

    /// Takes out the first message that waits, or none where none does. After `NoMemory` it waits on.
    pub(crate) fn take(&mut self, alloc: Global) -> Result<Option<MessageBytes>, NoMemory>
        ensures some { IfOk result (λ r. IfSome r (λ m. Takes self.old m self.new)) }
        ensures none { result ≡ Ok None → (self.new ≡ self.old) × (self.old.waiting ≡ []) }
        ensures err { OnErr result (self.new ≡ self.old) }
    {
        let mut bytes = Vec::with_capacity(alloc, self.most)?;
        let Some(message) = self.framer.next() else {
            self.most = 0;
            return Ok(None);
        };
        append_reserved(&mut bytes, message);
        self.rest = self.piece;
        Ok(Some(MessageBytes { bytes }))
    }
}
