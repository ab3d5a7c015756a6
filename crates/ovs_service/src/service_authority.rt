//! The authority as a service reaches it.
ghost use Rattle.std.specs.Prelude.{◌≡◌, ◌<◌, ◌++◌, ◌∷◌, [], ℕ, Bool, true, List, Option, Err, IfOk, IfSome, OnErr};
ghost use Rattle.ovs_authority.specs.declared.ask.Ask.{Ask};
ghost use Rattle.ovs_links.specs.declared.step.Step.{Step};
ghost use Rattle.ovs_wire.specs.declared.message.Message.{Message};
ghost use Rattle.ovs_service.specs.declared.session_token.AuthorityCall.TheVariants as calls;
ghost use Rattle.ovs_service.specs.Asking.{with_calls, most_unanswered, without_reply};
ghost use Rattle.ovs_service.specs.Replies.{RepliesTo, IsAnswer};

use crate::session_token::SessionToken;
use ovs_authority::Ask;
use ovs_json::NoMemory;
use ovs_views::{NodeName, View, ViewError, ViewSession};
use ovs_wire::Message;
use std::alloc::Global;

/// The authority that answers what only the source can answer, as a service reaches it: one call at a time, between which
/// others may call it too. So it is an `Authority` of which less is known: what a call may give, and that each call is noted in
/// the token of the session for which it was made.
pub trait ServiceAuthority<K: NodeName> {
    // What a session asks may be replied to so at once, or not.
    ghost replies: { ℕ → Ask → Option Message → Type 0 };

    // This may be collected for a session that was shown these steps, where answers are held back until what they stand for is
    // shown, or where they aren't.
    ghost owes: { Bool → ℕ → List Step → Message → Type 0 };

    // The numbers of the sessions that were ended by this value, in order.
    ghost ended: { Self → List ℕ };

    /// Asks for a session, and gives the reply where it is known at once. The call is noted in the session's token
    /// (`SessionToken::note_asked`).
    ///
    /// # Errors
    /// `NoMemory` alone; then nothing was asked, and nothing is noted.
    fn ask(
        &mut self,
        alloc: Global,
        token: &mut SessionToken,
        ask: &Ask,
    ) -> Result<Option<Message>, NoMemory>
        requires room { without_reply token.old.calls < most_unanswered }
        ensures replied { IfOk result (λ r. replies token.old.session_id ask.now r × RepliesTo ask.now.id r) }
        ensures asked { IfOk result (λ r. token.new ≡ with_calls token.old (calls.Asked ask.now r ∷ [])) }
        ensures unchanged { OnErr result (token.new ≡ token.old) }
        ensures none_ended { ended self.new ≡ ended self.old };

    /// Whether answers are held back until what they stand for is shown. They aren't any more from the first link on that the
    /// node refused, since what an answer stands for may never be shown then.
    fn holds_back(&self) -> bool;

    /// The next message for a session, where one is owed. Where answers are held back it is none while the first answer stands
    /// where the session wasn't shown the chain yet. The call is noted in the session's token, also where there is none
    /// (`SessionToken::note_collected`).
    ///
    /// # Errors
    /// `Gone` where the view is gone that knows what the session was shown, which matters where answers are held back alone, or
    /// `NoMemory`; then nothing was given, and nothing is noted.
    fn collect(
        &mut self,
        alloc: Global,
        token: &mut SessionToken,
        is_held_back: bool,
        view: &mut View<K>,
        session: &ViewSession<K>,
    ) -> Result<Option<Message>, ViewError>
        ensures given { IfOk result (λ r. IfSome r (λ m. owes is_held_back token.old.session_id session.now.last m × IsAnswer m)) }
        ensures collected { IfOk result (λ r. token.new ≡ with_calls token.old (calls.Collected is_held_back r ∷ [])) }
        ensures unchanged { OnErr result (token.new ≡ token.old) }
        ensures gone { result ≡ Err ViewError.Gone → is_held_back ≡ true }
        ensures never_epoch { result ≡ Err ViewError.Epoch → ⊥ }
        ensures view { view.new ≡ view.old }
        ensures none_ended { ended self.new ≡ ended self.old };

    /// Ends a session. No memory is taken.
    fn end_session(&mut self, token: &SessionToken)
        ensures ended { ended self.new ≡ ended self.old ++ token.now.session_id ∷ [] };
}
