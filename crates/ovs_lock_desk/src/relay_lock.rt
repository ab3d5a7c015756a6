//! One lock at a relay's desk.

ghost use Rattle.std.specs.Prelude.{◌≡◌, ◌++◌, true, false, OnOk, OnErr, IfOk, filter, map, slice_get, option_copied};
ghost use Rattle.ovs_locks.specs.Lock.{owed_for, stands};
ghost use Rattle.ovs_lock_desk.specs.LockState.{verb_due, is_sent, open_number};
ghost use Rattle.ovs_lock_desk.specs.PendingSteal.{open_session, is_due_late};
ghost use Rattle.ovs_lock_desk.specs.RelayLock.{no_relay_lock, locked, stolen_here, unlocked, held, answered, granted_at_source, stolen_at_source, forgotten_by, steal_failed, lost, found, ended, sent, desk_owner, is_desk_idle, concerns, asked_here, answer_here, answer_told, all_told, enters, step, refusal, AnswersBy};
ghost use Rattle.ovs_lock_desk.specs.LockDesk.{owes_here, told_of};
ghost use Rattle.ovs_lock_desk.specs.OwedMarks.{desk_mark};

use crate::desk_notice::DeskNotice;
use crate::error::DeskError;
use crate::lock_state::{LockEvent, LockReply, LockState, LockVerb, NextAsk};
use crate::pending_steal::{
    PendingSteal, StealOutcome, add_answers, drop_answer, drop_answers, drop_late, first_answer,
    is_any_due, is_any_of, is_any_open, is_any_own_open, open_session, settle,
};
use ovs_json::{NoMemory, SessionId, Text};
use ovs_locks::{Lock, LockNotice};
use ovs_wire::Id;
use std::alloc::Global;
use std::marker::Model;

/// One lock at a relay's desk: who asked for it here, the steals whose answer wasn't told, and how far the desk has come with
/// the source.
#[derive(Drop)]
pub struct RelayLock {
    lock: Lock,
    late: Vec<PendingSteal>,
    state: LockState,
}

impl Model for RelayLock {
    ghost use Rattle.std.specs.Prelude.{List, refl};
    ghost use Rattle.std.specs.Coded.{code_by, coded×, coded_list};
    ghost use Rattle.ovs_locks.specs.Lock.{LockValue};
    ghost use Rattle.ovs_lock_desk.specs.RelayLock.{RelayLockValue};
    ghost use Rattle.ovs_locks.specs.contracts.lock.Lock as lock_row;
    ghost use Rattle.ovs_lock_desk.specs.contracts.pending_steal.PendingSteal as late_row;
    ghost use Rattle.ovs_lock_desk.specs.contracts.lock_state.LockState as state_row;
    ghost use Rattle.ovs_lock_desk.specs.declared.lock_state.LockState.{LockState};
    ghost use Rattle.ovs_lock_desk.specs.declared.pending_steal.PendingSteal.{PendingSteal};

    ghost Value = { RelayLockValue };

    ghost coded = { code_by (LockValue × (List PendingSteal × LockState))
        (coded× lock_row.the_row.coded (coded× (coded_list late_row.the_row.coded) state_row.the_row.coded))
        (λ l. (l.lock, (l.late, l.state))) (λ p. record { lock = p.0; late = p.1.0; state = p.1.1 }) (λ _. refl) };

    ghost view = { λ l. record { lock = l.lock; late = l.late.items; state = l.state } };
}

impl RelayLock {
    /// A lock for which nobody asked.
    pub(crate) fn new(alloc: Global) -> RelayLock
        ensures value { result ≡ no_relay_lock }
    {
        RelayLock {
            lock: Lock::new(alloc),
            late: Vec::new(alloc),
            state: LockState::Idle(NextAsk::Nothing),
        }
    }

    /// The session that owns the lock: none before the source gave it.
    pub(crate) fn owner(&self) -> Option<SessionId>
        ensures value { result ≡ desk_owner self.now }
    {
        if self.state.is_held() {
            self.lock.owner()
        } else {
            None
        }
    }

    /// Whether nobody stands in it, nobody is owed an answer, and nothing is under way.
    pub(crate) fn is_idle(&self) -> bool
        ensures value { result ≡ is_desk_idle self.now }
    {
        self.lock.is_idle() && self.late.is_empty() && self.state.is_still()
    }

    /// Whether a session stands in one of the lists.
    pub(crate) fn stands(&self, session: SessionId) -> bool
        ensures value { result ≡ stands session self.now.lock }
    {
        self.lock.stands(session)
    }

    /// Whether a session stands in one of the lists, or a steal of its own wasn't told.
    pub(crate) fn concerns(&self, session: SessionId) -> bool
        ensures value { result ≡ concerns session self.now }
    {
        is_any_of(&self.late, session) || self.lock.stands(session)
    }

    /// The session whose steal isn't answered.
    pub(crate) fn open_session(&self) -> Option<SessionId>
        ensures value { result ≡ open_session self.now.late }
    {
        open_session(&self.late)
    }

    /// What is due upward first.
    pub(crate) fn due(&self) -> Option<LockVerb>
        ensures value { result ≡ verb_due self.now.state }
    {
        self.state.due()
    }

    /// Why a session's asking is refused, want of memory aside.
    pub(crate) fn refusal(
        &self,
        has_source: bool,
        verb: LockVerb,
        session: SessionId,
    ) -> Option<DeskError>
        ensures value { result ≡ refusal has_source verb session self.now }
    {
        match verb {
            LockVerb::Lock => {
                if self.lock.stands(session) {
                    return Some(DeskError::AlreadyAsked);
                }
                None
            }
            LockVerb::Steal => {
                if self.lock.stands(session) {
                    return Some(DeskError::AlreadyAsked);
                }
                if !has_source {
                    return Some(DeskError::SourceLost);
                }
                if is_any_open(&self.late) {
                    return Some(DeskError::StealPending);
                }
                None
            }
            LockVerb::Unlock => {
                if !self.lock.stands(session) {
                    return Some(DeskError::NeverAsked);
                }
                if is_any_own_open(&self.late, session) {
                    return Some(DeskError::StealPending);
                }
                None
            }
        }
    }

    // A session asks for the lock. Without a source nothing is due; all that is asked goes up once there is one.
    fn lock(&mut self, has_source: bool, session: SessionId) -> Result<(), NoMemory>
        ensures value { OnOk result (self.new ≡ locked has_source session self.old) }
        ensures unchanged { OnErr result (self.new ≡ self.old) }
    {
        self.lock.append(session)?;
        if has_source {
            self.state = self.state.locked();
        }
        Ok(())
    }

    // A session steals the lock: from its owner where the source gave it, else the source is asked. The answer's entry and the
    // session's place are made before anything changes.
    fn steal(&mut self, session: SessionId, id: &Id) -> Result<(), NoMemory>
        ensures value { OnOk result (self.new ≡ stolen_here session id.now self.old) }
        ensures unchanged { OnErr result (self.new ≡ self.old) }
    {
        if self.state.is_held() {
            return self.lock.steal(session);
        }
        self.late.reserve(1)?;
        let late = PendingSteal::new(session, id.copy()?);
        self.lock.put_first(session)?;
        self.late.push_reserved(late);
        self.state = self.state.stolen();
        Ok(())
    }

    // Takes a session out of the lists; the next one owns the lock only where the source gave it.
    fn leave(&mut self, session: SessionId)
        ensures value { self.new ≡ unlocked session self.old }
    {
        if self.state.is_held() {
            self.lock.leave(session);
        } else {
            self.lock.forget(session);
        }
        if self.lock.is_free() {
            self.state = self.state.given_up();
        }
    }

    /// A session asks. The answer is `None` where it comes later.
    #[tactic(auto, using(crate::proofs::Busy::busy))]
    pub(crate) fn ask(
        &mut self,
        has_source: bool,
        verb: LockVerb,
        session: SessionId,
        id: &Id,
    ) -> Result<Option<bool>, DeskError>
        ensures answer { AnswersBy (refusal has_source verb session self.old) verb self.old result }
        ensures after { OnOk result (self.new ≡ asked_here has_source session verb id.now self.old) }
        ensures busy { enters verb ≡ true → OnOk result (is_desk_idle self.new ≡ false) }
        ensures unchanged { OnErr result (self.new ≡ self.old) }
    {
        if let Some(refused) = self.refusal(has_source, verb, session) {
            return Err(refused);
        }
        let answer = self.answer(verb);
        match verb {
            LockVerb::Lock => self.lock(has_source, session)?,
            LockVerb::Steal => self.steal(session, id)?,
            LockVerb::Unlock => self.leave(session),
        }
        Ok(answer)
    }

    // The answer to what is asked, where it is known at once.
    fn answer(&self, verb: LockVerb) -> Option<bool>
        ensures value { result ≡ answer_here verb self.now }
    {
        match verb {
            LockVerb::Lock => Some(false),
            LockVerb::Steal => {
                if self.state.is_held() {
                    Some(true)
                } else {
                    None
                }
            }
            LockVerb::Unlock => Some(true),
        }
    }

    // The source gave the lock.
    fn hold(&mut self)
        ensures value { self.new ≡ held self.old }
    {
        if !is_any_open(&self.late) {
            self.lock.grant_first();
        }
        settle(&mut self.late, StealOutcome::Won);
        self.state = LockState::Held;
    }

    // What was due first went up under this number.
    fn note_sent(&mut self, number: u64)
        ensures value { self.new ≡ sent number self.old }
    {
        self.state = self.state.sent(number);
    }

    // The request of this number was answered; another number is that of a request given up since.
    fn note_answered(&mut self, number: u64, reply: LockReply)
        ensures value { self.new ≡ answered number reply self.old }
    {
        if !self.state.is_sent(number) {
            return;
        }
        match reply {
            LockReply::Given => self.hold(),
            LockReply::Waits => {
                self.state = LockState::Waiting;
            }
            LockReply::Refused => self.fail_steal(StealOutcome::Refused),
        }
    }

    // The source tells that the lock is held.
    fn note_granted(&mut self)
        ensures value { self.new ≡ granted_at_source self.old }
    {
        if let LockState::Waiting = self.state {
            self.hold();
        }
    }

    // The source tells that the lock was stolen.
    fn note_stolen(&mut self)
        ensures value { self.new ≡ stolen_at_source self.old }
    {
        if !self.state.is_held() {
            return;
        }
        self.lock.rob();
        self.state = LockState::Idle(if self.lock.is_free() {
            NextAsk::Unlock
        } else {
            NextAsk::UnlockLock
        });
    }

    // Takes the session out whose steal isn't answered.
    fn forget_open(&mut self)
        ensures value { self.new ≡ record { lock = forgotten_by (open_session self.old.late) self.old.lock; late = self.old.late; state = self.old.state } }
    {
        if let Some(session) = open_session(&self.late) {
            self.lock.forget(session);
        }
    }

    // The source has nothing of what was asked, and nothing is due. The steal that isn't answered comes to this, and its session
    // leaves; whoever else asked waits on.
    fn fail_steal(&mut self, outcome: StealOutcome)
        ensures value { self.new ≡ steal_failed outcome self.old }
    {
        self.forget_open();
        settle(&mut self.late, outcome);
        self.state = LockState::Idle(NextAsk::Nothing);
    }

    // The source is lost.
    fn note_lost(&mut self)
        ensures value { self.new ≡ lost self.old }
    {
        if self.state.is_held() {
            self.lock.rob();
        }
        self.fail_steal(StealOutcome::SourceLost);
    }

    // There is a source again.
    fn note_found(&mut self)
        ensures value { self.new ≡ found self.old }
    {
        if !self.lock.is_free() {
            self.state = LockState::Idle(NextAsk::Lock);
        }
    }

    // A session ends.
    fn end_session(&mut self, session: SessionId)
        ensures value { self.new ≡ ended session self.old }
    {
        if is_any_own_open(&self.late, session) {
            self.state = self.state.as_lock();
        }
        drop_late(&mut self.late, session);
        self.leave(session);
    }

    // A session was told the first answer that it is owed.
    fn note_answer_told(&mut self, session: SessionId)
        ensures value { self.new ≡ answer_told session self.old }
    {
        drop_answer(&mut self.late, session);
    }

    // A session was told all that it is owed.
    fn note_all_told(&mut self, session: SessionId)
        ensures value { self.new ≡ all_told session self.old }
    {
        drop_answers(&mut self.late, session);
        self.lock.note_told(session);
    }

    /// The first answer that a session is owed.
    pub(crate) fn first_answer(&self, session: SessionId) -> Option<&PendingSteal>
        ensures value { option_copied result ≡ slice_get (filter (is_due_late session) self.now.late) 0 }
    {
        first_answer(&self.late, session)
    }

    /// Adds the answers that a session is owed.
    pub(crate) fn add_answers(
        &self,
        session: SessionId,
        owed: &mut Vec<DeskNotice>,
    ) -> Result<(), NoMemory>
        ensures value { OnOk result (owed.new.items ≡ owed.old.items ++ map told_of (filter (is_due_late session) self.now.late)) }
    {
        add_answers(&self.late, session, owed)
    }

    /// Adds the notices that a session is owed for this lock, which has this name.
    pub(crate) fn add_notices(
        &self,
        session: SessionId,
        name: &Text,
        notices: &mut Vec<LockNotice>,
    ) -> Result<(), NoMemory>
        ensures value { OnOk result (notices.new.items ≡ notices.old.items ++ owed_for session name.now self.now.lock) }
    {
        self.lock.add_owed(session, name, notices)
    }

    /// Whether a session is owed an answer or a notice.
    pub(crate) fn owes(&self, session: SessionId) -> bool
        ensures value { result ≡ owes_here session self.now }
    {
        is_any_due(&self.late, session) || self.lock.owes(session)
    }

    /// Whether a session is owed anything; none where it has nothing to do with the lock.
    pub(crate) fn mark(&self, session: SessionId) -> Option<bool>
        ensures value { result ≡ desk_mark session self.now }
    {
        if self.concerns(session) {
            Some(self.owes(session))
        } else {
            None
        }
    }

    /// Whether the request of this number isn't answered.
    pub(crate) fn is_sent(&self, number: u64) -> bool
        ensures value { result ≡ is_sent number self.now.state }
    {
        self.state.is_sent(number)
    }

    /// The number of the request that isn't answered.
    pub(crate) fn open_number(&self) -> Option<u64>
        ensures value { result ≡ open_number self.now.state }
    {
        self.state.open_number()
    }

    /// The first notice of what a session is owed for this lock, which has this name.
    pub(crate) fn first_notice(
        &self,
        session: SessionId,
        name: &Text,
    ) -> Result<Option<LockNotice>, NoMemory>
        ensures value { IfOk result (λ notice. notice ≡ slice_get (owed_for session name.now self.now.lock) 0) }
    {
        self.lock.first_notice(session, name)
    }

    /// What an event makes of the lock.
    pub(crate) fn step(&mut self, event: LockEvent)
        ensures value { self.new ≡ step event self.old }
    {
        match event {
            LockEvent::Unlocked(session) => self.leave(session),
            LockEvent::Sent(number) => self.note_sent(number),
            LockEvent::Answered(number, reply) => self.note_answered(number, reply),
            LockEvent::Granted => self.note_granted(),
            LockEvent::Stolen => self.note_stolen(),
            LockEvent::Lost => self.note_lost(),
            LockEvent::Found => self.note_found(),
            LockEvent::Ended(session) => self.end_session(session),
            LockEvent::AnswerTold(session) => self.note_answer_told(session),
            LockEvent::NoticeTold(session) => self.lock.note_one_told(session),
            LockEvent::AllTold(session) => self.note_all_told(session),
        }
    }
}
