//! An authority that is reached without a lock.
ghost use Rattle.std.specs.Prelude.{◌≡◌, ◌<◌, ◌++◌, ◌∷◌, [], Err, IfOk, IfSome, OnErr};
ghost use Rattle.ovs_authority.specs.Owing.{AsksTo, CollectsTo, IsSame, silent};
ghost use Rattle.ovs_reader.specs.Answers.{seen_verb};
ghost use Rattle.ovs_service.specs.declared.session_token.AuthorityCall.TheVariants as calls;
ghost use Rattle.ovs_service.specs.Asking.{with_calls, most_unanswered, without_reply};
ghost use Rattle.ovs_service.specs.Replies.{RepliesTo, IsAnswer, seen_ask};

use crate::service_authority::ServiceAuthority;
use crate::session_token::SessionToken;
use ovs_authority::{Ask, Authority, Verb};
use ovs_json::{NoMemory, SessionId};
use ovs_sync::history::GhostList;
use ovs_views::{NodeName, View, ViewError, ViewSession};
use ovs_wire::Message;
use std::alloc::Global;

// An equal copy.
#[tactic(auto, using(ovs_wire::proofs::Lists::copies_view))]
fn copy_verb(verb: &Verb) -> Result<Verb, NoMemory>
    ensures same { IfOk result (λ copy. seen_verb copy ≡ seen_verb verb.now) }
{
    match verb {
        Verb::Transact(operations) => Ok(Verb::Transact(operations.clone()?)),
        Verb::Lock(name) => Ok(Verb::Lock(name.copy()?)),
        Verb::Steal(name) => Ok(Verb::Steal(name.copy()?)),
        Verb::Unlock(name) => Ok(Verb::Unlock(name.copy()?)),
    }
}

/// An equal ask, for an authority that keeps what it is asked.
///
/// # Errors
/// `NoMemory` alone.
pub fn copy_ask(ask: &Ask) -> Result<Ask, NoMemory>
    ensures same { IfOk result (λ copy. seen_ask copy ≡ seen_ask ask.now) }
{
    let id = ask.id.copy()?;
    let verb = copy_verb(&ask.verb)?;
    Ok(Ask { id, verb })
}

/// An authority that nobody else calls.
pub struct Unshared<A: Authority> {
    authority: A,
    // The numbers of the sessions that were ended.
    ended: GhostList<SessionId>,
}

impl<A: Authority> Unshared<A> {
    /// This authority.
    pub fn new(authority: A) -> Unshared<A>
        ensures value { result.authority ≡ authority }
        ensures none_ended { result.ended ≡ [] }
    {
        Unshared {
            authority,
            ended: GhostList::new(),
        }
    }

    /// The authority.
    pub fn into_inner(self) -> A
        ensures value { result ≡ self.authority }
    {
        let Unshared {
            authority,
            ended: _,
        } = self;
        authority
    }
}

impl<K: NodeName, A: Authority> ServiceAuthority<K> for Unshared<A> {
    ghost replies = { λ _ ask reply. RepliesTo ask.id reply };

    ghost owes = { λ _ _ _ message. IsAnswer message };

    ghost ended = { λ unshared. unshared.ended };

    fn ask(
        &mut self,
        alloc: Global,
        token: &mut SessionToken,
        ask: &Ask,
    ) -> Result<Option<Message>, NoMemory>
        requires room { without_reply token.old.calls < most_unanswered }
        ensures replied { IfOk result (λ r. RepliesTo ask.now.id r × RepliesTo ask.now.id r) }
        ensures asked { IfOk result (λ r. token.new ≡ with_calls token.old (calls.Asked ask.now r ∷ [])) }
        ensures unchanged { OnErr result (token.new ≡ token.old) }
        ensures none_ended { self.new.ended ≡ self.old.ended }
        ensures once { IfOk result (λ r. AsksTo (A.owing self.old.authority token.old.session_id) ask.now.id r (A.owing self.new.authority token.old.session_id)) }
        ensures nothing { OnErr result (IsSame (A.owing self.old.authority) (A.owing self.new.authority)) }
    {
        let copy = copy_ask(ask)?;
        let reply = self.authority.ask(alloc, token.session_id(), copy)?;
        token.note_asked(ask, &reply);
        Ok(reply)
    }

    // What it gives it gives at once: an authority that nobody else calls says what stands behind its answers.
    fn holds_back(&self) -> bool {
        false
    }

    fn collect(
        &mut self,
        alloc: Global,
        token: &mut SessionToken,
        is_held_back: bool,
        _view: &mut View<K>,
        _session: &ViewSession<K>,
    ) -> Result<Option<Message>, ViewError>
        ensures given { IfOk result (λ r. IfSome r (λ m. IsAnswer m × IsAnswer m)) }
        ensures collected { IfOk result (λ r. token.new ≡ with_calls token.old (calls.Collected is_held_back r ∷ [])) }
        ensures unchanged { OnErr result (token.new ≡ token.old) }
        ensures never_gone { result ≡ Err ViewError.Gone → ⊥ }
        ensures never_epoch { result ≡ Err ViewError.Epoch → ⊥ }
        ensures view { _view.new ≡ _view.old }
        ensures none_ended { self.new.ended ≡ self.old.ended }
        ensures once { IfOk result (λ r. CollectsTo (A.owing self.old.authority token.old.session_id) r (A.owing self.new.authority token.old.session_id)) }
        ensures nothing { OnErr result (IsSame (A.owing self.old.authority) (A.owing self.new.authority)) }
    {
        let message = self.authority.collect(alloc, token.session_id())?;
        token.note_collected(is_held_back, &message);
        Ok(message)
    }

    fn end_session(&mut self, token: &SessionToken)
        ensures ended { self.new.ended ≡ self.old.ended ++ token.now.session_id ∷ [] }
        ensures silent { A.owing self.new.authority token.now.session_id ≡ silent }
    {
        let session_id = token.session_id();
        self.authority.end_session(session_id);
        self.ended.push(&session_id);
    }
}
