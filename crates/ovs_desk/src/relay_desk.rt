//! A relay's desk.

ghost use Rattle.std.specs.Prelude.{◌≡◌, ◌≢◌, ◌<◌, ◌^◌, ◌&&◌, ℕ, List, [], true, false, nat_lt, is_some, map, filter, Option, Some, None, Ok, Err, IfOk, IfNone, OnOk, OnErr, option_map, slice_get};
ghost use Rattle.serde_json.specs.View.{view};
ghost use Rattle.ovs_authority.specs.Owing.{AsksTo, CollectsTo, LeavesOthers, silent};
ghost use Rattle.ovs_lock_desk.specs.RelayLock.{enters};
ghost use Rattle.ovs_lock_desk.specs.LockDesk.{IsDeskTable, first_due_up, is_sent_at, answers_to};
ghost use Rattle.ovs_desk.specs.Calls as calls;
ghost use Rattle.ovs_desk.specs.Ledger.{passes, lost_to, next_standing, asker_of};
ghost use Rattle.ovs_desk.specs.RelayDesk.{new_desk, owing_of, owner_of};
ghost use Rattle.ovs_desk.specs.Relaying.{ChangesRequests, locked_reply, immediate_reply, text_of, late_answer, IsRefusalOf, IsSendReply, AsksForLock, AsksByName, Asks, lock_takes_memory, takes_memory, Transacts, is_lock_next, TakesUp, TakesUpLock, TakesUpDue, method_of, given_so, lock_reply, Hears, HearsReply, HearsOfLock, LosesSource, FindsSource, CollectsSent, CollectsLate, CollectsNotice, CollectsOfLock, Collects, EndsSession};
ghost use Rattle.ovs_desk.specs.declared.forwarded.RequestFilter.{RequestFilter};

use crate::asserts::rewrite;
use crate::error::{BadReply, ForwardError, ForwardRefused};
use crate::forwards::Forwards;
use crate::source_message::SourceMessage;
use crate::standing::StandingAnswer;
use ovs_authority::{Ask, Authority, Response, Verb, lock_request, refused, replied};
use ovs_data::TxnId;
use ovs_json::{NoMemory, SessionId, Text, under_name};
use ovs_lock_desk::{DeskError, LockDesk, LockReply, LockVerb, StealOutcome};
use ovs_wire::{Id, Message};
use serde_json::{Map, Value};
use std::alloc::Global;
use std::marker::Model;

// The numbers of lock requests begin here, and so many go up at most.
const FIRST_LOCK: u64 = 1 << 62;

/// A relay's desk: an authority that passes on to the source what only the source can answer, transactions before lock
/// requests, and hands each answer to its asker.
#[derive(Drop)]
pub struct RelayDesk {
    database: Text,
    forwards: Forwards,
    locks: LockDesk,
    // So many lock requests went up.
    asked: u64,
}

impl Model for RelayDesk {
    ghost use Rattle.std.specs.Prelude.{ℕ, List, refl};
    ghost use Rattle.std.specs.Coded.{code_by, coded×, coded_ℕ, coded_list};
    ghost use Rattle.ovs_lock_desk.specs.LockDesk.{DeskValue};
    ghost use Rattle.ovs_lock_desk.specs.contracts.lock_desk.LockDesk as desk_row;
    ghost use Rattle.ovs_desk.specs.contracts.forwards.Forwards as forwards_row;
    ghost use Rattle.ovs_desk.specs.Ledger.{Forwarding};
    ghost use Rattle.ovs_desk.specs.RelayDesk.{RelayValue};

    ghost Value = { RelayValue };

    ghost coded = { code_by (List ℕ × (Forwarding × (DeskValue × ℕ)))
        (coded× (coded_list coded_ℕ) (coded× forwards_row.the_row.coded (coded× desk_row.the_row.coded coded_ℕ)))
        (λ d. (d.database, (d.forwards, (d.locks, d.asked))))
        (λ p. record { database = p.0; forwards = p.1.0; locks = p.1.1.0; asked = p.1.1.1 }) (λ _. refl) };

    ghost view = { λ d. record { database = d.database; forwards = d.forwards; locks = d.locks; asked = d.asked } };
}

// {"locked": BOOL}
fn locked_reply(alloc: Global, won: bool) -> Result<Response, NoMemory>
    ensures value { IfOk result (λ a. a ≡ locked_reply won) }
{
    Ok(replied(under_name(alloc, "locked", Value::Bool(won))?))
}

// The answer that is known at once.
fn immediate_reply(alloc: Global, verb: LockVerb) -> Result<Response, NoMemory>
    ensures value { IfOk result (λ a. a ≡ immediate_reply verb) }
    ensures memory { OnErr result (enters verb ≡ true) }
{
    match verb {
        LockVerb::Lock => locked_reply(alloc, false),
        LockVerb::Steal => locked_reply(alloc, true),
        LockVerb::Unlock => Ok(replied(Value::Object(Map::new(alloc)))),
    }
}

// Why the desk doesn't do what a session asks for a lock; want of memory is no answer.
fn refusal_text(error: DeskError) -> Option<&'static str>
    ensures value { option_map (λ text. text.now) result ≡ text_of error }
{
    match error {
        DeskError::BadLock => Some("bad lock"),
        DeskError::AlreadyAsked => Some("already asked"),
        DeskError::NeverAsked => Some("never asked"),
        DeskError::SourceLost => Some("source lost"),
        DeskError::StealPending => Some("steal pending"),
        DeskError::TooMany => Some("too many requests"),
        DeskError::NoMemory => None,
    }
}

fn refusal(alloc: Global, error: DeskError) -> Result<Response, NoMemory>
    ensures value { IfOk result (λ a. IsRefusalOf error a) }
{
    match refusal_text(error) {
        Some(text) => refused(alloc, text),
        None => Err(NoMemory),
    }
}

// What is answered to a steal whose answer came late.
fn late_answer(alloc: Global, outcome: Option<StealOutcome>) -> Result<Response, NoMemory>
    ensures value { IfOk result (λ a. a ≡ late_answer outcome) }
{
    match outcome {
        Some(StealOutcome::Won) => locked_reply(alloc, true),
        Some(StealOutcome::Refused) => refused(alloc, "too many requests"),
        Some(StealOutcome::SourceLost) | None => refused(alloc, "source lost"),
    }
}

// What is answered where this came of sending a transaction: nothing yet, or that it wasn't sent.
fn send_reply(alloc: Global, came: Result<u64, ForwardRefused>) -> Result<Option<Message>, NoMemory>
    ensures told { IfOk result (λ r. IsSendReply came r) }
    ensures unsent { OnErr result (OnOk came ⊥) }
{
    match came {
        Ok(_number) => Ok(None),
        Err(unsent) => told_of_unsent(alloc, unsent),
    }
}

// That a transaction wasn't sent; want of memory is no answer.
fn told_of_unsent(alloc: Global, unsent: ForwardRefused) -> Result<Option<Message>, NoMemory>
    ensures told { IfOk result (λ r. IsSendReply (Err unsent) r) }
{
    match unsent.error {
        ForwardError::Full | ForwardError::Spent => {
            let answer = refused(alloc, "too many requests")?;
            Ok(Some(answer.into_reply(unsent.id)))
        }
        ForwardError::NoMemory => Err(NoMemory),
    }
}

// The method of a lock request.
fn method_of(verb: LockVerb) -> &'static str
    ensures value { result.now ≡ method_of verb }
{
    match verb {
        LockVerb::Lock => "lock",
        LockVerb::Steal => "steal",
        LockVerb::Unlock => "unlock",
    }
}

// Whether the source gave the lock; where it didn't, the relay waits for it in the source's queue.
fn given_so(won: bool) -> LockReply
    ensures value { result ≡ given_so won }
{
    if won {
        LockReply::Given
    } else {
        LockReply::Waits
    }
}

// What the source answered to a Lock or Steal: `{"locked": BOOL}`, or an error, with which it refused, since it may allow a
// session only so many names.
fn lock_reply(answer: &Response) -> Option<LockReply>
    ensures value { result ≡ lock_reply answer.now }
{
    if !answer.error.as_value().is_null() {
        return Some(LockReply::Refused);
    }
    let won = answer.result.as_value().get("locked")?.as_bool()?;
    Some(given_so(won))
}

impl RelayDesk {
    /// A desk without a source, for the database of this name.
    pub fn new(alloc: Global, database: Text) -> RelayDesk
        ensures value { result ≡ new_desk database }
    {
        RelayDesk {
            database,
            forwards: Forwards::new(alloc),
            locks: LockDesk::new(alloc),
            asked: 0,
        }
    }

    /// The next request to go up, under its number: transactions before lock requests, and none while there is no source. A
    /// lock request has the number 2^62 and how many went up before it; after 2^62 of them none goes up.
    ///
    /// # Errors
    /// `NoMemory` alone; then nothing went up.
    pub fn take_up(&mut self, alloc: Global) -> Result<Option<Message>, NoMemory>
        ensures taken { IfOk result (λ m. TakesUp self.old m self.new) }
        // A transaction goes up without memory, and so does nothing.
        ensures memory { OnErr result (is_lock_next self.old ≡ true) }
        ensures unchanged { OnErr result (self.new ≡ self.old) }
    {
        if !self.locks.has_source() {
            return Ok(None);
        }
        match self.forwards.take_up() {
            Some(message) => Ok(Some(message)),
            None => self.take_up_lock(alloc),
        }
    }

    // The next lock request to go up.
    fn take_up_lock(&mut self, alloc: Global) -> Result<Option<Message>, NoMemory>
        ensures taken { IfOk result (λ m. TakesUpLock self.old m self.new) }
        ensures memory { OnErr result ((nat_lt self.old.asked (2 ^ 62) && is_some (first_due_up self.old.locks.locks)) ≡ true) }
        ensures unchanged { OnErr result (self.new ≡ self.old) }
    {
        if self.asked < FIRST_LOCK {
            self.take_up_due(alloc)
        } else {
            Ok(None)
        }
    }

    // What is due first goes up under the next number.
    fn take_up_due(&mut self, alloc: Global) -> Result<Option<Message>, NoMemory>
        requires below { self.old.asked < 2 ^ 62 }
        ensures taken { IfOk result (λ m. TakesUpDue (first_due_up self.old.locks.locks) self.old m self.new) }
        ensures memory { OnErr result (is_some (first_due_up self.old.locks.locks) ≡ true) }
        ensures unchanged { OnErr result (self.new ≡ self.old) }
    {
        let Some((name, verb)) = self.locks.due() else {
            return Ok(None);
        };
        let request = lock_request(alloc, method_of(verb), name)?;
        let number = FIRST_LOCK + self.asked;
        self.locks.sent(alloc, number)?;
        self.asked += 1;
        Ok(Some(request.into_message(Id::from_number(number))))
    }

    /// What the source says. An answer to a request that isn't open is ignored. No memory is needed.
    ///
    /// # Errors
    /// `BadReply` where a Lock or Steal that is open was answered by neither `{"locked": BOOL}` nor an error; nothing is
    /// changed then.
    pub fn heard(&mut self, message: SourceMessage) -> Result<(), BadReply>
        ensures heard { Hears message self.old result self.new }
    {
        match message {
            SourceMessage::ReplyFor { number, answer } => self.heard_reply(number, answer),
            SourceMessage::Locked(name) => {
                self.locks.granted(&name);
                Ok(())
            }
            SourceMessage::Stolen(name) => {
                self.locks.stolen(&name);
                Ok(())
            }
        }
    }

    // A request was answered.
    fn heard_reply(&mut self, number: u64, answer: StandingAnswer) -> Result<(), BadReply>
        ensures heard { HearsReply number answer self.old result self.new }
    {
        if number < FIRST_LOCK {
            self.heard_answer(number, answer);
            Ok(())
        } else {
            self.heard_of_lock(number, &answer.answer)
        }
    }

    // A transaction was answered. One that isn't open is ignored.
    fn heard_answer(&mut self, number: u64, answer: StandingAnswer)
        ensures heard { ChangesRequests (calls.Replies number answer) self.old self.new }
    {
        let _known = self.forwards.reply(number, answer);
    }

    // A lock request was answered.
    fn heard_of_lock(&mut self, number: u64, answer: &Response) -> Result<(), BadReply>
        ensures heard { HearsOfLock (is_sent_at number self.old.locks.locks) number answer.now self.old result self.new }
    {
        if !self.locks.is_sent(number) {
            return Ok(());
        }
        match lock_reply(answer) {
            Some(reply) => {
                self.locks.answered(number, reply);
                Ok(())
            }
            None => Err(BadReply),
        }
    }

    /// Where the answer stands that `collect` would give first to a session, of those that were passed on; `None` where it would
    /// give none of them. No memory is taken.
    pub fn standing(&self, session: SessionId) -> Option<TxnId>
        ensures value { result ≡ next_standing session self.now.forwards.ledger }
    {
        self.forwards.standing(session)
    }

    /// The session whose transaction went up under this number, where it waits for its answer. No memory is taken.
    pub fn asker_of(&self, number: u64) -> Option<SessionId>
        ensures value { result ≡ asker_of number self.now.forwards.ledger }
    {
        self.forwards.asker_of(number)
    }

    /// The source is lost: each request that waits for its answer is answered so, and no lock has an owner. Until there is a
    /// source again, transactions wait and nothing goes up. No memory is taken.
    pub fn lost_source(&mut self)
        ensures after { LosesSource self.old self.new }
    {
        self.forwards.source_lost();
        self.locks.lost_source();
    }

    /// There is a source again, which is to be asked for each lock that a session waits for. No memory is needed.
    pub fn found_source(&mut self)
        ensures after { FindsSource self.old self.new }
    {
        self.locks.found_source();
    }

    // A transaction is passed on. The answer is known at once only where it isn't.
    fn transact(
        &mut self,
        alloc: Global,
        session: SessionId,
        operations: Vec<Value>,
        id: Id,
    ) -> Result<Option<Message>, NoMemory>
        ensures asked { IfOk result (λ r. Transacts session (map view operations.items) id self.old r self.new) }
        ensures unchanged { OnErr result (self.new ≡ self.old) }
    {
        let operations = rewrite(alloc, operations, session, &self.locks)?;
        let request = Verb::Transact(operations).into_request(alloc, &self.database)?;
        let came = self.forwards.send(session, id, request);
        send_reply(alloc, came)
    }

    // A session asks for a lock, or leaves it. The answer is made before the desk changes.
    #[tactic(auto, using(crate::proofs::Memory::entered, crate::proofs::Memory::not_done))]
    fn ask_for_lock(
        &mut self,
        alloc: Global,
        session: SessionId,
        verb: LockVerb,
        name: &Text,
        id: &Id,
    ) -> Result<Option<Response>, NoMemory>
        ensures asked { IfOk result (λ a. AsksForLock session verb name.now id.now self.old a self.new) }
        ensures memory { OnErr result (lock_takes_memory session verb name.now self.old.locks ≡ true) }
        ensures unchanged { OnErr result (self.new ≡ self.old) }
    {
        let answer = immediate_reply(alloc, verb)?;
        match self.locks.ask(alloc, session, verb, name, id) {
            Ok(Some(_)) => Ok(Some(answer)),
            Ok(None) => Ok(None),
            Err(error) => Ok(Some(refusal(alloc, error)?)),
        }
    }

    // The same, with the answer as the reply to the request.
    fn ask_named(
        &mut self,
        alloc: Global,
        session: SessionId,
        verb: LockVerb,
        name: &Text,
        id: Id,
    ) -> Result<Option<Message>, NoMemory>
        ensures asked { IfOk result (λ r. AsksByName session verb name.now id self.old r self.new) }
        ensures memory { OnErr result (lock_takes_memory session verb name.now self.old.locks ≡ true) }
        ensures unchanged { OnErr result (self.new ≡ self.old) }
    {
        match self.ask_for_lock(alloc, session, verb, name, &id)? {
            Some(answer) => Ok(Some(answer.into_reply(id))),
            None => Ok(None),
        }
    }

    // The first answer to a session's request that was passed on.
    fn collect_sent(
        &mut self,
        alloc: Global,
        session: SessionId,
    ) -> Result<Option<Message>, NoMemory>
        ensures given { IfOk result (λ m. CollectsSent session self.old m self.new) }
        ensures memory { OnErr result (lost_to session self.old.forwards.ledger ≡ Some true) }
        ensures none { IfOk result (λ m. IfNone m (self.new ≡ self.old)) }
        ensures none_sent { IfOk result (λ m. IfNone m (filter (passes (RequestFilter.Due session)) self.new.forwards.ledger.pending ≡ [])) }
        ensures unchanged { OnErr result (self.new ≡ self.old) }
    {
        self.forwards.collect(alloc, session)
    }

    // The first late answer that a session is owed.
    fn collect_late(
        &mut self,
        alloc: Global,
        session: SessionId,
    ) -> Result<Option<Message>, NoMemory>
        ensures given { IfOk result (λ m. CollectsLate session self.old m self.new) }
        ensures none { IfOk result (λ m. IfNone m (self.new ≡ self.old)) }
        ensures table { IsDeskTable self.old.locks.locks }
        ensures unchanged { OnErr result (self.new ≡ self.old) }
    {
        let Some((name, late)) = self.locks.first_answer(session) else {
            return Ok(None);
        };
        let name = name.copy()?;
        let id = late.id.copy()?;
        let answer = late_answer(alloc, late.outcome)?;
        self.locks.answer_told(session, &name);
        Ok(Some(answer.into_reply(id)))
    }

    // The first notice that a session is owed.
    fn collect_notice(
        &mut self,
        alloc: Global,
        session: SessionId,
    ) -> Result<Option<Message>, NoMemory>
        ensures given { IfOk result (λ m. CollectsNotice session self.old m self.new) }
        ensures none { IfOk result (λ m. IfNone m (self.new ≡ self.old)) }
        ensures table { IsDeskTable self.old.locks.locks }
        ensures unchanged { OnErr result (self.new ≡ self.old) }
    {
        let Some(notice) = self.locks.first_notice(session)? else {
            return Ok(None);
        };
        let message = notice.to_message(alloc)?;
        self.locks.notice_told(session, notice.name());
        Ok(Some(message))
    }

    // The first answer or notice for a lock, where no other answer is owed.
    fn collect_of_lock(
        &mut self,
        alloc: Global,
        session: SessionId,
    ) -> Result<Option<Message>, NoMemory>
        requires none_sent { filter (passes (RequestFilter.Due session)) self.old.forwards.ledger.pending ≡ [] }
        ensures given { IfOk result (λ r. CollectsTo (owing_of self.old session) r (owing_of self.new session)) }
        ensures others { (other : ℕ) → other ≢ session → owing_of self.new other ≡ owing_of self.old other }
        ensures owners { (name : List ℕ) → owner_of self.new name ≡ owner_of self.old name }
        ensures does { IfOk result (λ m. CollectsOfLock (slice_get (answers_to session self.old.locks.locks) 0) session self.old m self.new) }
        ensures unchanged { OnErr result (self.new ≡ self.old) }
    {
        match self.collect_late(alloc, session)? {
            Some(message) => Ok(Some(message)),
            None => self.collect_notice(alloc, session),
        }
    }

    // A session ends.
    fn drop_session(&mut self, session: SessionId)
        ensures after { EndsSession session self.old self.new }
    {
        self.forwards.end_session(session);
        self.locks.end_session(session);
    }
}

impl Authority for RelayDesk {
    ghost owing = { λ d session. owing_of d session };

    ghost owner = { λ d name. owner_of d name };

    /// A transaction is passed on, and a lock asked for at the desk. `NoMemory` leaves the whole desk as it was.
    fn ask(
        &mut self,
        alloc: Global,
        session: SessionId,
        ask: Ask,
    ) -> Result<Option<Message>, NoMemory>
        ensures asked { IfOk result (λ r. AsksTo (owing_of self.old session) ask.id r (owing_of self.new session)) }
        ensures others { LeavesOthers session (owing_of self.old) (owing_of self.new) }
        ensures does { IfOk result (λ r. Asks session ask.id ask.verb self.old r self.new) }
        // An Unlock that isn't refused takes no memory.
        ensures memory { OnErr result (takes_memory session ask.verb self.old.locks ≡ true) }
        ensures whole { OnErr result (self.new ≡ self.old) }
    {
        let Ask { id, verb } = ask;
        match verb {
            Verb::Transact(operations) => self.transact(alloc, session, operations, id),
            Verb::Lock(name) => self.ask_named(alloc, session, LockVerb::Lock, &name, id),
            Verb::Steal(name) => self.ask_named(alloc, session, LockVerb::Steal, &name, id),
            Verb::Unlock(name) => self.ask_named(alloc, session, LockVerb::Unlock, &name, id),
        }
    }

    #[tactic(auto, using(crate::proofs::Memory::lost_came))]
    fn collect(&mut self, alloc: Global, session: SessionId) -> Result<Option<Message>, NoMemory>
        ensures given { IfOk result (λ r. CollectsTo (owing_of self.old session) r (owing_of self.new session)) }
        ensures others { (other : ℕ) → other ≢ session → owing_of self.new other ≡ owing_of self.old other }
        ensures owners { (name : List ℕ) → owner_of self.new name ≡ owner_of self.old name }
        ensures does { IfOk result (λ m. Collects session self.old m self.new) }
        // An answer of the source is given without memory.
        ensures memory { OnErr result (lost_to session self.old.forwards.ledger ≢ Some false) }
        ensures unchanged { OnErr result (self.new ≡ self.old) }
    {
        match self.collect_sent(alloc, session)? {
            Some(message) => Ok(Some(message)),
            None => self.collect_of_lock(alloc, session),
        }
    }

    fn end_session(&mut self, session: SessionId)
        ensures silent { owing_of self.new session ≡ silent }
        ensures owns_none { (name : List ℕ) → owner_of self.new name ≢ Some session }
        ensures others { LeavesOthers session (owing_of self.old) (owing_of self.new) }
        ensures after { EndsSession session self.old self.new }
    {
        self.drop_session(session);
    }
}
