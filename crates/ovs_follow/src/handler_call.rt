//! What a session with an upstream did with the handler.

ghost use Rattle.std.specs.Prelude.{◌≡◌, ◌++◌, ◌∷◌, []};
ghost use Rattle.ovs_follow.specs.declared.handler_call.HandlerCall.TheVariants as calls;

use ovs_desk::SourceMessage;
use ovs_sync::history::{EntryFrom, GhostList};
use ovs_types::TxnId;
use ovs_wire::Message;
use std::snapshot::Snapshot;

/// A call of the handler, with what it gave. No value of it is made: such calls stand in lists that only proofs see.
#[derive(Drop)]
pub enum HandlerCall {
    /// The next request was taken up, where there was one.
    TookUp(Option<Message>),
    /// The source said this, and might.
    Heard(SourceMessage),
    /// The source was found, by a session whose links join up from this id.
    Found(TxnId),
}

// How the calls are made of what they are about.
struct OfTaken;

impl EntryFrom<Option<Message>, HandlerCall> for OfTaken {
    ghost use Rattle.ovs_follow.specs.declared.handler_call.HandlerCall.TheVariants as calls;

    ghost entry = { λ message. calls.TookUp message };
}

struct OfHeard;

impl EntryFrom<Snapshot<SourceMessage>, HandlerCall> for OfHeard {
    ghost use Rattle.ovs_follow.specs.declared.handler_call.HandlerCall.TheVariants as calls;

    ghost entry = { λ message. calls.Heard message.value };
}

/// Puts behind the calls that this was taken up, and gives it.
pub fn note_taken(taken: Option<Message>, made: &mut GhostList<HandlerCall>) -> Option<Message>
    ensures same { result ≡ taken }
    ensures noted { made.new ≡ made.old ++ calls.TookUp taken ∷ [] }
{
    made.push_as::<Option<Message>, OfTaken>(&taken);
    taken
}

/// Puts behind the calls that this was heard.
pub fn note_heard(message: &Snapshot<SourceMessage>, made: &mut GhostList<HandlerCall>)
    ensures noted { made.new ≡ made.old ++ calls.Heard message.now.value ∷ [] }
{
    made.push_as::<Snapshot<SourceMessage>, OfHeard>(message);
}

/// Puts behind the calls that the source was found.
pub fn note_found(from: TxnId, made: &mut GhostList<HandlerCall>)
    ensures noted { made.new ≡ made.old ++ calls.Found from ∷ [] }
{
    made.push(&HandlerCall::Found(from));
}
