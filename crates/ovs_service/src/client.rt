//! What a node knows of one reader.
ghost use Rattle.std.specs.Prelude.{◌≡◌, ◌↔◌, ◌⊎◌, Bool, [], true, false, IsTrue, Err, IfOk, IfErr, OnOk, OnErr};
ghost use Rattle.ovs_links.specs.Absorbing.{folded_by};
ghost use Rattle.ovs_reader.specs.Session.{is_over};
ghost use Rattle.ovs_reader.specs.Turns.{seen_turn, turn, after_turn};
ghost use Rattle.ovs_reader.specs.Telling.{told_some, after_some};
ghost use Rattle.ovs_views.specs.Published.{GoesOn};
ghost use Rattle.ovs_service.specs.Asking.{HasNothingMore};
ghost use Rattle.ovs_service.specs.Calls.{most_told, shown_to, IsAllTold};
ghost use Rattle.ovs_service.specs.Client.{new_client, token_of, HasBegunAnew, Hears, IsTold, MayAsk, IsAnswered};
ghost use Rattle.ovs_service.specs.Deeds.{tasks, Does, Collects};

use crate::adding::{add, add_turn, make_room, several};
use crate::collecting::collect;
use crate::flushing::flush;
use crate::pending::Pending;
use crate::service_authority::ServiceAuthority;
use crate::session_token::SessionToken;
use ovs_reader::Turn;
use ovs_session::{Outbox, ServiceError};
use ovs_views::{NodeName, StepPrefix, View, ViewError, ViewSession};
use ovs_wire::Message;
use std::alloc::Global;
use std::collections::VecDeque;
use std::marker::Model;

/// Once so many notifications are told in a call, which a turn makes once, no further step of the chain is. So a reader that was
/// stalled while thousands of commits came is told of them piece by piece, the next once what is unsent is below its limit, and
/// what this takes of memory doesn't grow with what was missed.
const MOST_TOLD: usize = 256;

/// What a node knows of one reader: its session, with the prefix of what it was shown last; the token by which the authority
/// knows it; and what is to be done for it and isn't yet, since memory ran out.
#[derive(Drop)]
pub struct Client<K: NodeName> {
    session: ViewSession<K>,
    token: SessionToken,
    pending: VecDeque<Pending>,
}

impl<K: NodeName> Model for Client<K> {
    ghost use Rattle.std.specs.Prelude.{ℕ, List, refl};
    ghost use Rattle.std.specs.Coded.{code_by, coded×, coded_ℕ, coded_list};
    ghost use Rattle.ovs_links.specs.contracts.step.Step as step_row;
    ghost use Rattle.ovs_links.specs.declared.step.Step.{Step};
    ghost use Rattle.ovs_reader.specs.contracts.session.ReaderSession as session_row;
    ghost use Rattle.ovs_reader.specs.Session.{SessionValue};
    ghost use Rattle.ovs_service.specs.contracts.session_token.AuthorityCall as call_row;
    ghost use Rattle.ovs_service.specs.contracts.pending.Pending as due_row;
    ghost use Rattle.ovs_service.specs.declared.session_token.AuthorityCall.{AuthorityCall};
    ghost use Rattle.ovs_service.specs.declared.pending.Pending.{Pending};
    ghost use Rattle.ovs_service.specs.Client.{ClientValue};

    ghost Value = { ClientValue };

    ghost coded = { code_by (SessionValue × (List Step × (ℕ × (List AuthorityCall × List Pending))))
        (coded× session_row.the_row.coded (coded× (coded_list step_row.the_row.coded)
        (coded× coded_ℕ (coded× (coded_list call_row.the_row.coded) (coded_list due_row.the_row.coded)))))
        (λ c. (c.session.session, (c.session.last, (c.session_id, (c.calls, c.due)))))
        (λ p. record { session = record { session = p.0; last = p.1.0 }; session_id = p.1.1.0; calls = p.1.1.1.0; due = p.1.1.1.1 }) (λ _. refl) };

    ghost view = { λ c. record { session = c.session; session_id = c.token.session_id; calls = c.token.calls; due = c.pending.items } };
}

// A view refuses so.
fn refusal_of(error: ViewError) -> ServiceError
    ensures gone { error ≡ ViewError.Gone → result ≡ ServiceError.Gone }
    ensures epoch { (result ≡ ServiceError.Epoch) ↔ (error ≡ ViewError.Epoch) }
    ensures never_bad { result ≡ ServiceError.BadInput → ⊥ }
{
    match error {
        ViewError::Gone => ServiceError::Gone,
        ViewError::Epoch => ServiceError::Epoch,
        ViewError::NoMemory => ServiceError::NoMemory,
    }
}

// A session's answer to a message, from what a view shows.
fn answer_at<K: NodeName>(
    alloc: Global,
    view: &mut View<K>,
    session: &mut ViewSession<K>,
    message: Message,
) -> Result<Turn, ServiceError>
    ensures later { OnOk result (GoesOn K.schema session.old.last view.new) }
    ensures turn { IfOk result (λ t. seen_turn t ≡ turn session.old.session (folded_by K.schema view.new) message) }
    ensures after { OnOk result (session.new ≡ shown_to view.new (after_turn session.old.session (folded_by K.schema view.new) message)) }
    ensures lasts { OnOk result (is_over session.old.session.start (folded_by K.schema view.new) ≡ false) }
    ensures refused { IfErr result (λ e. (e ≡ ServiceError.Gone) ⊎ ((e ≡ ServiceError.Epoch) ↔ (is_over session.old.session.start (folded_by K.schema view.new) ≡ true))) }
    ensures unchanged { OnErr result (session.new ≡ session.old) }
    ensures never_bad { result ≡ Err ServiceError.BadInput → ⊥ }
{
    match view.message(alloc, session, message) {
        Ok(turn) => Ok(turn),
        Err(error) => Err(refusal_of(error)),
    }
}

// What a session's monitors tell in one call, from what a view shows.
fn pump_at<K: NodeName>(
    alloc: Global,
    view: &mut View<K>,
    session: &mut ViewSession<K>,
) -> Result<Vec<Message>, ServiceError>
    ensures later { OnOk result (GoesOn K.schema session.old.last view.new) }
    ensures told { IfOk result (λ ms. ms.items ≡ told_some most_told session.old.session.monitors (folded_by K.schema view.new).steps) }
    ensures after { OnOk result (session.new ≡ shown_to view.new (after_some most_told session.old.session (folded_by K.schema view.new))) }
    ensures lasts { OnOk result (is_over session.old.session.start (folded_by K.schema view.new) ≡ false) }
    ensures refused { IfErr result (λ e. (e ≡ ServiceError.Gone) ⊎ ((e ≡ ServiceError.Epoch) ↔ (is_over session.old.session.start (folded_by K.schema view.new) ≡ true))) }
    ensures unchanged { OnErr result (session.new ≡ session.old) }
    ensures never_bad { result ≡ Err ServiceError.BadInput → ⊥ }
{
    match view.pump(alloc, session, MOST_TOLD) {
        Ok(messages) => Ok(messages),
        Err(error) => Err(refusal_of(error)),
    }
}

impl<K: NodeName> Client<K> {
    /// A reader of which nothing was heard yet, and to which no more was shown than this prefix knows.
    pub(crate) fn new(alloc: Global, token: SessionToken, last: &StepPrefix<K>) -> Client<K>
        requires new { token.calls ≡ [] }
        ensures value { result ≡ new_client token.session_id last.now }
    {
        Client {
            session: ViewSession::new(alloc, last),
            token,
            pending: VecDeque::new(alloc),
        }
    }

    /// The token by which the authority knows it.
    pub fn token(&self) -> &SessionToken
        ensures value { result.now ≡ token_of self.now }
    {
        &self.token
    }

    /// Whether nothing is left to be done for it.
    pub fn is_settled(&self) -> bool
        ensures value { IsTrue result ↔ (self.now.due ≡ []) }
    {
        self.pending.is_empty()
    }

    /// Whether its next message may be heard: nothing is due, and fewer than 128 of its asks have no reply yet. So a reader that
    /// asks and doesn't read, or asks faster than the source answers, waits for itself.
    pub fn takes(&self) -> bool
        ensures value { IsTrue result ↔ MayAsk self.now }
    {
        self.pending.is_empty() && self.token.has_room()
    }

    /// Whether something that it asked for is still to come.
    pub fn awaits(&self) -> bool
        ensures answered { result ≡ false → IsAnswered self.now }
        ensures awaited { result ≡ true → IsAnswered self.now → ⊥ }
    {
        !(self.pending.is_empty() && self.token.is_answered())
    }

    /// Hears a message; what comes of it is due then.
    ///
    /// # Errors
    /// `Gone`; `Epoch` only where what is shown begins anew; `NoMemory`. Nothing is changed then.
    pub(crate) fn hear(
        &mut self,
        alloc: Global,
        view: &mut View<K>,
        message: Message,
    ) -> Result<(), ServiceError>
        ensures heard { OnOk result (Hears K.schema view.new message self.old self.new) }
        ensures unchanged { OnErr result (self.new ≡ self.old) }
        ensures never_bad { result ≡ Err ServiceError.BadInput → ⊥ }
        ensures epoch { result ≡ Err ServiceError.Epoch → HasBegunAnew K.schema view.new self.new }
    {
        make_room(&mut self.pending, 3)?;
        let turn = answer_at(alloc, view, &mut self.session, message)?;
        add_turn(&mut self.pending, turn);
        Ok(())
    }

    /// What its monitors tell in one call is due then. `true` only where nothing is left to be told.
    ///
    /// # Errors
    /// `Gone`; `Epoch` only where what is shown begins anew; `NoMemory`. Nothing is changed then.
    pub(crate) fn pump(&mut self, alloc: Global, view: &mut View<K>) -> Result<bool, ServiceError>
        ensures told { OnOk result (IsTold K.schema view.new self.old self.new) }
        ensures all { IfOk result (λ is_all. is_all ≡ true → IsAllTold self.new.session) }
        ensures unchanged { OnErr result (self.new ≡ self.old) }
        ensures never_bad { result ≡ Err ServiceError.BadInput → ⊥ }
        ensures epoch { result ≡ Err ServiceError.Epoch → HasBegunAnew K.schema view.new self.new }
    {
        make_room(&mut self.pending, 1)?;
        let messages = pump_at(alloc, view, &mut self.session)?;
        let is_all_told = messages.len() < MOST_TOLD;
        add(&mut self.pending, several(messages));
        Ok(is_all_told)
    }

    /// What the authority owes it is due then, as far as memory allows, where all that is new was told before: so an answer stands
    /// behind what its monitors tell of the steps that it was shown, and where answers are held back it stands on these. `true`
    /// only where nothing more is owed to it now.
    pub(crate) fn collect<D: ServiceAuthority<K>>(
        &mut self,
        alloc: Global,
        is_all_told: bool,
        view: &mut View<K>,
        desk: &mut D,
    ) -> bool
        ensures collected { (held : Bool) × Collects (λ session_id. D.owes held session_id self.old.session.last) held self.old.due (token_of self.old) self.new.due (token_of self.new)
            × (self.new.session ≡ self.old.session) }
        ensures nothing { result ≡ true → (is_all_told ≡ true) × HasNothingMore self.new.calls }
        ensures none { is_all_told ≡ false → self.new ≡ self.old }
        ensures view { view.new ≡ view.old }
        ensures none_ended { D.ended desk.new ≡ D.ended desk.old }
    {
        if !is_all_told {
            return false;
        }
        let is_held_back = desk.holds_back();
        collect(
            alloc,
            is_held_back,
            view,
            &self.session,
            &mut self.pending,
            &mut self.token,
            desk,
        )
    }

    /// Does what is due, in its order, until memory runs out. Whether something was done.
    pub(crate) fn flush<D: ServiceAuthority<K>>(
        &mut self,
        alloc: Global,
        desk: &mut D,
        out: &mut Outbox,
    ) -> bool
        ensures settled { Does D.replies (tasks self.old.due) (token_of self.old) out.old (tasks self.new.due) (token_of self.new) out.new }
        ensures same { self.new.session ≡ self.old.session }
        ensures unchanged { result ≡ false → (self.new ≡ self.old) × (out.new ≡ out.old) }
        ensures none { self.old.due ≡ [] → result ≡ false }
        ensures none_ended { D.ended desk.new ≡ D.ended desk.old }
    {
        flush(alloc, &mut self.pending, &mut self.token, desk, out)
    }
}
