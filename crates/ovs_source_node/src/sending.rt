//! The links of a source's desk go to a sink.

ghost use Rattle.std.specs.Prelude.{◌≡◌, false};
ghost use Rattle.ovs_links.specs.Sets.{IsOfTables};
ghost use Rattle.ovs_links.specs.declared.link.Link.{Link};
ghost use Rattle.ovs_source_node.specs.Sent.{HasSent};

use crate::shared_source::SharedSource;
use ovs_follow::LinkSink;
use ovs_session::Counts;
use ovs_views::NodeName;
use std::sync::Wait;
use std::sync::atomic::{AtomicU64, Ordering};

/// What is left once a desk's links were sent.
#[derive(Drop)]
pub struct SourceEnd<S: LinkSink, T: Drop> {
    /// Where they went.
    pub sink: S,
    /// The links that were taken out of the desk.
    pub taken: T,
    /// How many were sent, as `messages`, in a turn each.
    pub counts: Counts,
}

// Sends the next link of the desk; false where there is none.
fn send_next<K: NodeName, T, L: SharedSource<K, T>, S: LinkSink>(
    desk: &L,
    taken: &mut T,
    sink: &mut S,
    counts: &mut Counts,
) -> bool
    requires takes { (l : Link) → IsOfTables K.schema.description.tables l → S.takes l }
    requires sent { S.sent sink.old ≡ L.links taken.old }
    ensures sent { S.sent sink.new ≡ L.links taken.new }
    ensures given { L.gives (L.links taken.new) }
    ensures counted { HasSent (S.sent sink.old) (S.sent sink.new) counts.old.messages counts.new.messages }
    ensures none { result ≡ false → (sink.new ≡ sink.old) × (counts.new ≡ counts.old) }
{
    let Some(link) = desk.next_link(taken) else {
        return false;
    };
    sink.send(link, false);
    counts.turns = counts.turns.saturating_add(1);
    counts.messages = counts.messages.saturating_add(1);
    true
}

// Sends the links of the desk, until no other thread runs and no link is left.
fn send_all<K: NodeName, T, L: SharedSource<K, T>, S: LinkSink, R: Wait>(
    rt: &R,
    desk: &L,
    running: &AtomicU64,
    taken: &mut T,
    sink: &mut S,
    counts: &mut Counts,
)
    requires takes { (l : Link) → IsOfTables K.schema.description.tables l → S.takes l }
    requires sent { S.sent sink.old ≡ L.links taken.old }
    requires given { L.gives (L.links taken.old) }
    ensures sent { S.sent sink.new ≡ L.links taken.new }
    ensures given { L.gives (L.links taken.new) }
    ensures counted { HasSent (S.sent sink.old) (S.sent sink.new) counts.old.messages counts.new.messages }
{
    for _ in rt.forever() {
        // Who ends after this has asked before, so that no link comes later than it is looked for.
        let is_last = running.load(Ordering::SeqCst) <= 1;
        match send_next::<K, T, L, S>(desk, taken, sink, counts) {
            true => {}
            false if is_last => break,
            false => desk.wait(),
        }
    }
}

/// Sends the links of a source's desk to a sink, in the order in which the desk made them, from the first that wasn't taken out. It
/// waits at the desk while there is none, and ends once no other of the threads runs that are counted here with its own, and no link
/// is left: so the desk is to be woken after each of them has left, and after what may make a link.
pub fn follow_source<K: NodeName, T: Drop, L: SharedSource<K, T>, S: LinkSink, R: Wait>(
    rt: &R,
    desk: &L,
    running: &AtomicU64,
    taken: T,
    sink: S,
) -> SourceEnd<S, T>
    requires takes { (l : Link) → IsOfTables K.schema.description.tables l → S.takes l }
    requires sent { S.sent sink ≡ L.links taken }
    requires given { L.gives (L.links taken) }
    ensures sent { S.sent result.sink ≡ L.links result.taken }
    ensures given { L.gives (L.links result.taken) }
    ensures counted { HasSent (S.sent sink) (S.sent result.sink) 0 result.counts.messages }
{
    let (mut taken, mut sink) = (taken, sink);
    let mut counts = Counts {
        turns: 0,
        messages: 0,
        bytes_out: 0,
    };
    send_all::<K, T, L, S, R>(rt, desk, running, &mut taken, &mut sink, &mut counts);
    SourceEnd {
        sink,
        taken,
        counts,
    }
}
