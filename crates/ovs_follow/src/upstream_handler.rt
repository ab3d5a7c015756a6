//! What stands between an upstream that is the source and the sessions that ask it.

ghost use Rattle.std.specs.Prelude.{◌≡◌, ◌++◌, ◌∷◌, [], ℕ, Option, None, Ok, IfOk, OnOk, OnErr};
ghost use Rattle.ovs_desk.specs.declared.source_message.SourceMessage.{SourceMessage};
ghost use Rattle.ovs_wire.specs.declared.message.Message.{Message};
ghost use Rattle.ovs_follow.specs.declared.handler_call.HandlerCall.TheVariants as calls;

use crate::handler_call::{HandlerCall, note_found, note_heard, note_taken};
use ovs_desk::{BadReply, SourceMessage};
use ovs_json::NoMemory;
use ovs_sync::history::GhostList;
use ovs_types::TxnId;
use ovs_wire::Message;
use std::snapshot::Snapshot;

/// What is passed on to the source, and what it says back. A session lends each call the list of those that it made, which only proofs
/// see, and the call puts itself behind them.
pub trait UpstreamHandler {
    // The next request was taken, where there was one.
    ghost takes: { Self → Option Message → Self → Type 0 };

    // The source said this.
    ghost hears: { Self → SourceMessage → Self → Type 0 };

    // The source may not say this.
    ghost refuses: { SourceMessage → Type 0 };

    // The source is found, by a session whose first link comes after this id.
    ghost finds: { Self → ℕ → Self → Type 0 };

    // The source is lost.
    ghost loses: { Self → Self → Type 0 };

    /// The next request that is to go up, which is then taken for sent; none where none is. After `NoMemory` none was taken.
    fn next_request(
        &mut self,
        made: &mut GhostList<HandlerCall>,
    ) -> Result<Option<Message>, NoMemory>
        ensures taken { IfOk result (λ m. takes self.old m self.new) }
        ensures noted { IfOk result (λ m. made.new ≡ made.old ++ calls.TookUp m ∷ []) }
        ensures none { OnErr result (made.new ≡ made.old) };

    /// Hears what the source says. `BadReply`: it is what it may not say, and nothing has changed.
    fn on_message(
        &mut self,
        message: SourceMessage,
        made: &mut GhostList<HandlerCall>,
    ) -> Result<(), BadReply>
        ensures heard { OnOk result (hears self.old message self.new) }
        ensures noted { OnOk result (made.new ≡ made.old ++ calls.Heard message ∷ []) }
        ensures refused { OnErr result (refuses message × (made.new ≡ made.old)) };

    /// The source can be asked from now on, by a session whose links join up from this id.
    fn on_connected(&mut self, from: TxnId, made: &mut GhostList<HandlerCall>)
        ensures found { finds self.old from self.new }
        ensures noted { made.new ≡ made.old ++ calls.Found from ∷ [] };

    /// The source can't be asked any more.
    fn on_disconnected(&mut self)
        ensures lost { loses self.old self.new };
}

/// That of an upstream that isn't the source: nothing is passed on, and what it says aside is let go.
#[derive(Debug, Clone, Copy, Drop)]
pub struct NoSource;

impl UpstreamHandler for NoSource {
    ghost takes = { λ _ m _. m ≡ None };

    ghost hears = { λ _ _ _. Unit {0} };

    ghost refuses = { λ _. ⊥ };

    ghost finds = { λ _ _ _. Unit {0} };

    ghost loses = { λ _ _. Unit {0} };

    fn next_request(
        &mut self,
        made: &mut GhostList<HandlerCall>,
    ) -> Result<Option<Message>, NoMemory>
        ensures none { result ≡ Ok None }
        ensures noted { IfOk result (λ m. made.new ≡ made.old ++ calls.TookUp m ∷ []) }
    {
        Ok(note_taken(None, made))
    }

    fn on_message(
        &mut self,
        message: SourceMessage,
        made: &mut GhostList<HandlerCall>,
    ) -> Result<(), BadReply>
        ensures never_refused { OnErr result ⊥ }
        ensures noted { OnOk result (made.new ≡ made.old ++ calls.Heard message ∷ []) }
    {
        note_heard(&Snapshot::of(&message), made);
        Ok(())
    }

    fn on_connected(&mut self, from: TxnId, made: &mut GhostList<HandlerCall>) {
        note_found(from, made);
    }

    fn on_disconnected(&mut self) {}
}
