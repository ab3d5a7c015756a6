//! All requests on their way.

ghost use Rattle.std.specs.Prelude.{◌≡◌, ◌==◌, ◌<◌, ◌≤◌, [], false, true, nat_lt, not, Some, None, filter, map, position, vec_len, vec_capacity, is_some, IfOk, IfNone, OnOk, OnErr, length, ◌+◌, ◌^◌};
ghost use Rattle.std.specs.List.{find, list_any};
ghost use Rattle.std.specs.List.Sorted.{IsNonDecreasingBy, IsPartitionPoint};
ghost use Rattle.slab.specs.Slab.{ContainsKey, HasRoomFor, SameValues, Updates, slab_len};
ghost use Rattle.ovs_desk.specs.declared.forwarded.Forwarded.{Forwarded};
ghost use Rattle.ovs_desk.specs.declared.forwarded.RequestFilter.{RequestFilter};
ghost use Rattle.ovs_desk.specs.ByAsker.{InOrder, without};
ghost use Rattle.ovs_desk.specs.Ledger.{place_of, passes, lost, with_pending, without_first, to_go, due_to, next_up, next_back, lost_to, next_standing, asker_of, refusal, IsKept, SamePlaces};
ghost use Rattle.ovs_desk.specs.Calls.{After, SendsTo};
ghost use Rattle.ovs_desk.specs.Calls as calls;

use crate::by_asker::{ByAsker, first_number, put, take_out};
use crate::error::{ForwardError, ForwardRefused, Unknown};
use crate::forwarded::{Forwarded, ForwardedState, RequestFilter};
use crate::standing::StandingAnswer;
use ovs_authority::Request;
use ovs_data::TxnId;
use ovs_json::{NoMemory, SessionId};
use ovs_wire::{Id, Message};
use slab::Slab;
use std::alloc::Global;
use std::marker::Model;

// So many requests at most wait to be answered and collected; the places in their numbers are below it.
const MOST_PENDING: usize = 4096;

const PLACES: u64 = 4096;

const MOST_SENT: u64 = 1 << 50;

/// Requests that were sent and aren't collected yet.
///
/// A request gets a number, under which it goes up and is answered; its asker gets the answer under its own id.
#[derive(Drop)]
pub struct Forwards {
    // In order of sending.
    pending: Vec<Forwarded>,
    // The places that their numbers have.
    places: Slab<()>,
    sent: u64,
    // None before this number waits to go up.
    waits_from: u64,
    // All of them by their askers, and those whose answers are due.
    by_asker: Vec<ByAsker>,
    due: Vec<ByAsker>,
}

impl Model for Forwards {
    ghost use Rattle.std.specs.Prelude.{ℕ, List, refl, vec_capacity};
    ghost use Rattle.std.specs.Coded.{code_by, coded×, coded_ℕ, coded_list};
    ghost use Rattle.slab.specs.Slab.{slab_len};
    ghost use Rattle.ovs_desk.specs.contracts.forwarded.Forwarded as pending_row;
    ghost use Rattle.ovs_desk.specs.declared.forwarded.Forwarded.{Forwarded};
    ghost use Rattle.ovs_desk.specs.Book.{IsBook, IsIndex};
    ghost use Rattle.ovs_desk.specs.Ledger.{Forwarding};

    ghost Value = { Forwarding };

    ghost coded = { code_by (ℕ × (List Forwarded × (ℕ × ℕ))) (coded× coded_ℕ (coded× (coded_list pending_row.the_row.coded) (coded× coded_ℕ coded_ℕ)))
        (λ f. (f.ledger.sent, (f.ledger.pending, (f.used, f.offered))))
        (λ p. record { ledger = record { sent = p.0; pending = p.1.0 }; used = p.1.1.0; offered = p.1.1.1 }) (λ _. refl) };

    ghost view = { λ f. record { ledger = record { sent = f.sent; pending = f.pending.items }; used = slab_len f.places; offered = f.places.vacant_key } };

    ghost invariant = { λ f. IsBook f.sent f.pending.items f.places × IsIndex f.sent f.pending.items f.waits_from f.by_asker.items f.due.items (vec_capacity f.due) };
}

// Where the numbers reach this one.
fn at_number(pending: &[Forwarded], number: u64) -> usize
    requires ascend { IsNonDecreasingBy (λ (e : Forwarded). e.number) pending.now }
    ensures bound { result ≤ length pending.now }
    ensures value { IsPartitionPoint (λ (e : Forwarded). nat_lt e.number number ≡ true) (λ (e : Forwarded). nat_lt e.number number ≡ false) pending.now result }
{
    pending.partition_point(|one| one.number < number)
}

// The first that waits to go up.
fn first_to_go(pending: &[Forwarded]) -> Option<usize>
    ensures value { result ≡ position (passes RequestFilter.ToGo) pending.now }
{
    pending
        .iter()
        .position(|one| one.passes(RequestFilter::ToGo))
}

// Room for one more.
fn make_room(pending: &mut Vec<Forwarded>, places: &mut Slab<()>) -> Result<(), NoMemory>
    ensures pending { pending.new.items ≡ pending.old.items }
    ensures vacant { places.new.vacant_key ≡ places.old.vacant_key }
    ensures places { SameValues places.old places.new }
    ensures len { slab_len places.new ≡ slab_len places.old }
    ensures room { OnOk result (vec_len pending.new < vec_capacity pending.new) }
    ensures place { OnOk result (HasRoomFor places.new 1) }
{
    pending.reserve(1)?;
    places.reserve(1)?;
    Ok(())
}

// Room for one more in both lists, in the second also for all that stand in the first.
fn make_list_room(all: &mut Vec<ByAsker>, due: &mut Vec<ByAsker>) -> Result<(), NoMemory>
    ensures all { all.new.items ≡ all.old.items }
    ensures due { due.new.items ≡ due.old.items }
    ensures capacity { vec_capacity due.old ≤ vec_capacity due.new }
    ensures room { OnOk result (vec_len all.new < vec_capacity all.new) }
    ensures room_due { OnOk result (vec_len all.new < vec_capacity due.new) }
{
    due.reserve(all.len() + 1)?;
    all.reserve(1)?;
    Ok(())
}

// The place of a number is free again.
fn free(places: &mut Slab<()>, number: u64)
    requires taken { ContainsKey places.old (place_of number) }
    ensures value { Updates places.old places.new (place_of number) None }
    ensures len { slab_len places.new + 1 ≡ slab_len places.old }
{
    let _ = places.remove((number % PLACES) as usize);
}

fn lose(pending: &mut [Forwarded])
    ensures value { pending.new ≡ map lost pending.old }
{
    for one in pending.iter_mut() {
        one.lose();
    }
}

// The second list becomes as the first.
fn copy(all: &[ByAsker], due: &mut Vec<ByAsker>)
    requires room { length all.now ≤ vec_capacity due.old }
    ensures items { due.new.items ≡ all.now }
    ensures capacity { vec_capacity due.new ≡ vec_capacity due.old }
{
    due.clear();
    for one in all {
        due.push_reserved(*one);
    }
}

// Takes one out of both lists.
fn strike(all: &mut Vec<ByAsker>, due: &mut Vec<ByAsker>, asker: SessionId, number: u64)
    requires all { InOrder all.old.items }
    requires due { InOrder due.old.items }
    ensures all { all.new.items ≡ without (record { asker = asker; number = number }) all.old.items }
    ensures due { due.new.items ≡ without (record { asker = asker; number = number }) due.old.items }
    ensures capacity { vec_capacity due.new ≡ vec_capacity due.old }
{
    let one = ByAsker { asker, number };
    take_out(all, &one);
    take_out(due, &one);
}

impl Forwards {
    /// No request.
    pub fn new(alloc: Global) -> Forwards
        ensures value { result ≡ record { ledger = record { sent = 0; pending = [] }; used = 0; offered = 0 } }
    {
        Forwards {
            pending: Vec::new(alloc),
            places: Slab::new(alloc),
            sent: 0,
            waits_from: 0,
            by_asker: Vec::new(alloc),
            due: Vec::new(alloc),
        }
    }

    // Why one more request isn't sent, want of memory aside.
    fn refusal(&self) -> Option<ForwardError>
        ensures value { result ≡ refusal self.now }
        ensures few { IfNone result (length self.now.ledger.pending < 4096) }
        ensures place { IfNone result (self.now.offered < 4096) }
        ensures number { IfNone result (self.now.ledger.sent < 2 ^ 50) }
    {
        if self.pending.len() < MOST_PENDING && self.places.vacant_key() < MOST_PENDING {
            if self.sent < MOST_SENT {
                None
            } else {
                Some(ForwardError::Spent)
            }
        } else {
            Some(ForwardError::Full)
        }
    }

    /// Sends a session's request, and answers its number: how many were sent before, times 4,096, and its place.
    ///
    /// # Errors
    /// `Full` where 4,096 requests weren't collected or no place below 4,096 is free, else `Spent` where 2^50 were sent,
    /// else `NoMemory`. Id and request are handed back then.
    pub fn send(
        &mut self,
        asker: SessionId,
        id: Id,
        request: Request,
    ) -> Result<u64, ForwardRefused>
        ensures value { SendsTo self.old asker id request result self.new }
        ensures kept { IsKept self.new }
    {
        if let Some(error) = self.refusal() {
            return Err(ForwardRefused { error, id, request });
        }
        if make_room(&mut self.pending, &mut self.places).is_err()
            || make_list_room(&mut self.by_asker, &mut self.due).is_err()
        {
            return Err(ForwardRefused {
                error: ForwardError::NoMemory,
                id,
                request,
            });
        }
        let place = self.places.vacant_key();
        let number = PLACES * self.sent + place as u64;
        self.places.insert_reserved(());
        put(&mut self.by_asker, ByAsker { asker, number });
        self.pending.push_reserved(Forwarded {
            asker,
            id,
            number,
            state: ForwardedState::Waiting(request),
        });
        self.sent += 1;
        Ok(number)
    }

    /// The next request to go up, under its number; `None` where none waits. Each is given once, in order of sending. No
    /// memory is taken.
    pub fn take_up(&mut self) -> Option<Message>
        ensures message { result ≡ next_up self.old.ledger }
        ensures after { After (calls.TakesUp (to_go self.old.ledger)) self.old.ledger self.new.ledger }
        ensures places { SamePlaces self.old self.new }
        ensures none { IfNone result (self.new ≡ self.old) }
    {
        let at = self.to_go_at()?;
        self.waits_from = self.pending[at].number;
        self.pending[at].take_up()
    }

    // The first request that waits to go up: none does before the one that went up last.
    fn to_go_at(&self) -> Option<usize>
        ensures value { result ≡ position (passes RequestFilter.ToGo) self.now.ledger.pending }
    {
        let from = at_number(&self.pending, self.waits_from);
        let more = first_to_go(&self.pending[from..])?;
        Some(from + more)
    }

    // The first answer that is due to a session.
    fn due_at(&self, session: SessionId) -> Option<usize>
        ensures value { result ≡ position (passes (RequestFilter.Due session)) self.now.ledger.pending }
    {
        let number = first_number(&self.due, session)?;
        Some(at_number(&self.pending, number))
    }

    // The first request of a session.
    fn first_of(&self, session: SessionId) -> Option<usize>
        ensures value { result ≡ position (passes (RequestFilter.Of session)) self.now.ledger.pending }
    {
        let number = first_number(&self.by_asker, session)?;
        Some(at_number(&self.pending, number))
    }

    // The open request of this number: the numbers ascend, so that it is looked up and not looked for.
    fn open_at(&self, number: u64) -> Option<usize>
        ensures value { result ≡ position (passes (RequestFilter.Open number)) self.now.ledger.pending }
    {
        let at = at_number(&self.pending, number);
        if self.pending.get(at)?.passes(RequestFilter::Open(number)) {
            Some(at)
        } else {
            None
        }
    }

    /// Answers the request of this number. No memory is taken.
    ///
    /// # Errors
    /// `Unknown` exactly where no request of this number waits for its answer; nothing is changed then.
    pub fn reply(&mut self, number: u64, answer: StandingAnswer) -> Result<(), Unknown>
        ensures known { OnOk result (list_any (passes (RequestFilter.Open number)) self.old.ledger.pending ≡ true) }
        ensures unknown { OnErr result (list_any (passes (RequestFilter.Open number)) self.old.ledger.pending ≡ false) }
        ensures after { After (calls.Replies number answer) self.old.ledger self.new.ledger }
        ensures places { SamePlaces self.old self.new }
    {
        let Some(at) = self.open_at(number) else {
            return Err(Unknown);
        };
        let asker = self.pending[at].asker;
        self.pending[at].answer(answer);
        put(&mut self.due, ByAsker { asker, number });
        Ok(())
    }

    /// The first answer that is due to a session, under its own id; `None` where none is. Each is given once.
    ///
    /// # Errors
    /// `NoMemory` alone; the answer is still due then.
    pub fn collect(
        &mut self,
        alloc: Global,
        session: SessionId,
    ) -> Result<Option<Message>, NoMemory>
        ensures message { IfOk result (λ m. m ≡ next_back session self.old.ledger) }
        ensures after { OnOk result (After (calls.Collects session (due_to session self.old.ledger)) self.old.ledger self.new.ledger) }
        // An answer that came is given without memory, and so is none.
        ensures memory { OnErr result (lost_to session self.old.ledger ≡ Some true) }
        ensures unchanged { OnErr result (self.new ≡ self.old) }
        ensures kept { IsKept self.new }
        ensures none { IfOk result (λ m. IfNone m (self.new ≡ self.old)) }
    {
        let Some(at) = self.due_at(session) else {
            return Ok(None);
        };
        self.pending[at].settle(alloc)?;
        let pending = self.pending.remove(at);
        free(&mut self.places, pending.number);
        strike(
            &mut self.by_asker,
            &mut self.due,
            pending.asker,
            pending.number,
        );
        Ok(pending.into_reply())
    }

    /// Where the answer stands that `collect` would give to a session; `None` where it would give none. No memory is taken.
    pub fn standing(&self, session: SessionId) -> Option<TxnId>
        ensures value { result ≡ next_standing session self.now.ledger }
    {
        let at = self.due_at(session)?;
        Some(self.pending[at].standing())
    }

    /// The session that asked under this number, where that request waits for its answer. No memory is taken.
    pub fn asker_of(&self, number: u64) -> Option<SessionId>
        ensures value { result ≡ asker_of number self.now.ledger }
    {
        let at = self.open_at(number)?;
        Some(self.pending[at].asker)
    }

    /// Answers each request that waits for its answer that the source was lost. No memory is taken.
    pub fn source_lost(&mut self)
        ensures after { After calls.LosesSource self.old.ledger self.new.ledger }
        ensures places { SamePlaces self.old self.new }
    {
        lose(&mut self.pending);
        self.waits_from = PLACES * self.sent;
        copy(&self.by_asker, &mut self.due);
    }

    /// Drops all requests of a session. No memory is taken.
    pub fn end_session(&mut self, session: SessionId)
        ensures after { After (calls.Ends session) self.old.ledger self.new.ledger }
        ensures kept { IsKept self.new }
    {
        while self.drop_first(session) {}
    }

    // Takes out the first request of a session, and its place is free.
    fn take_out(&mut self, session: SessionId) -> Option<Forwarded>
        ensures found { result ≡ find (passes (RequestFilter.Of session)) self.old.ledger.pending }
        ensures after { self.new.ledger ≡ with_pending self.old.ledger (without_first (passes (RequestFilter.Of session)) self.old.ledger.pending) }
        ensures kept { IsKept self.new }
    {
        let at = self.first_of(session)?;
        let pending = self.pending.remove(at);
        free(&mut self.places, pending.number);
        strike(
            &mut self.by_asker,
            &mut self.due,
            pending.asker,
            pending.number,
        );
        Some(pending)
    }

    // Drops the first request of a session, and says whether there was one.
    fn drop_first(&mut self, session: SessionId) -> bool
        ensures any { result ≡ is_some (find (passes (RequestFilter.Of session)) self.old.ledger.pending) }
        ensures after { self.new.ledger ≡ with_pending self.old.ledger (without_first (passes (RequestFilter.Of session)) self.old.ledger.pending) }
        ensures kept { IsKept self.new }
    {
        self.take_out(session).is_some()
    }
}
