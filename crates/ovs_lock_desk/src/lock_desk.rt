//! The locks of a relay's desk, and whether there is a source.

ghost use Rattle.std.specs.Prelude.{◌≡◌, [], true, false, OnOk, OnErr, IfOk, slice_get, option_map, if◌then◌else◌};
ghost use Rattle.ovs_locks.specs.LockTable.{is_lock};
ghost use Rattle.ovs_lock_desk.specs.RelayLock.{step, enters, asked_here, desk_owner, AnswersBy, MayHappen};
ghost use Rattle.ovs_lock_desk.specs.LockDesk.{IsDeskTable, IsGone, is_full, relay_lock_at, ChangesAt, SendsFirst, refusal_at, stepped, first_due_up, answers_to, notices_to, owed_to, is_sent_at};

use crate::desk_notice::DeskNotice;
use crate::error::DeskError;
use crate::lock_state::{LockEvent, LockReply, LockVerb};
use crate::owed_marks::{Near, mark_near, mark_owners, remark};
use crate::pending_steal::PendingSteal;
use crate::upward_table::UpwardTable;
use ovs_json::{NoMemory, SessionId, Text};
use ovs_locks::{BySession, LockNotice, is_lock};
use ovs_wire::Id;
use std::alloc::Global;
use std::marker::Model;

// A session stands in the lists of so many locks at most.
const MOST_LOCKS: usize = 1024;

/// The locks that the sessions of a relay ask for. The relay is one session of its source, so it asks for each lock once, and
/// hands it on to its own sessions in the order in which they asked.
#[derive(Drop)]
pub struct LockDesk {
    has_source: bool,
    table: UpwardTable,
    // The names of the locks with which each session has to do, and for which of them it may be owed something.
    sessions: BySession,
}

impl Model for LockDesk {
    ghost use Rattle.std.specs.Prelude.{Bool, refl};
    ghost use Rattle.std.specs.Coded.{code_by, coded×, coded_bool};
    ghost use Rattle.ovs_lock_desk.specs.contracts.upward_table.UpwardTable as table_row;
    ghost use Rattle.ovs_lock_desk.specs.LockDesk.{RelayLocks, DeskValue, IsDeskTable, AreNamed, AreMarked};

    ghost Value = { DeskValue };

    ghost coded = { code_by (Bool × RelayLocks) (coded× coded_bool table_row.the_row.coded)
        (λ d. (d.has_source, d.locks)) (λ p. record { has_source = p.0; locks = p.1 }) (λ _. refl) };

    ghost view = { λ d. record { has_source = d.has_source; locks = d.table } };

    ghost invariant = { λ d. IsDeskTable d.table × AreNamed d.table d.sessions × AreMarked d.table d.sessions };
}

impl LockDesk {
    /// A desk without a source, at which no session asked.
    pub fn new(alloc: Global) -> LockDesk
        ensures value { result ≡ record { has_source = false; locks = [] } }
    {
        LockDesk {
            has_source: false,
            table: UpwardTable::new(alloc),
            sessions: BySession::new(alloc),
        }
    }

    /// Whether there is a source.
    pub fn has_source(&self) -> bool
        ensures value { result ≡ self.now.has_source }
    {
        self.has_source
    }

    /// A session asks for a lock, steals it or unlocks it. The answer is whether it owns the lock now, for an Unlock true; it
    /// is `None` where it comes later, by `notices`. A Lock is answered false, and `notices` tells when the session owns it.
    ///
    /// # Errors
    /// The first of these that holds; nothing is changed then.
    /// - `BadLock` for a Lock or Steal of a name that no lock may have.
    /// - `AlreadyAsked` for a Lock or Steal where the session stands in one of the lock's lists, `NeverAsked` for an Unlock
    ///   where it doesn't.
    /// - `SourceLost` for a Steal without a source.
    /// - `StealPending` for a Steal while another steal isn't answered, and for an Unlock while the session's own isn't.
    /// - `TooMany` for a Lock or Steal where the session stands in the lists of 1,024 locks.
    /// - `NoMemory`, which an Unlock doesn't answer.
    pub fn ask(
        &mut self,
        alloc: Global,
        session: SessionId,
        verb: LockVerb,
        name: &Text,
        id: &Id,
    ) -> Result<Option<bool>, DeskError>
        ensures answer { AnswersBy (refusal_at self.old.has_source verb session name.now self.old.locks) verb (relay_lock_at name.now self.old.locks) result }
        ensures after { OnOk result (ChangesAt name.now (asked_here self.old.has_source session verb id.now) self.old.locks self.new.locks) }
        ensures source { self.new.has_source ≡ self.old.has_source }
        ensures unchanged { OnErr result (self.new ≡ self.old) }
    {
        match verb {
            LockVerb::Unlock => self.unlock(session, name),
            LockVerb::Lock | LockVerb::Steal => {
                if !is_lock(name.as_str()) {
                    return Err(DeskError::BadLock);
                }
                self.enter(alloc, session, verb, name, id)
            }
        }
    }

    // A session asks for a lock, or steals it.
    fn enter(
        &mut self,
        alloc: Global,
        session: SessionId,
        verb: LockVerb,
        name: &Text,
        id: &Id,
    ) -> Result<Option<bool>, DeskError>
        requires enters { enters verb ≡ true }
        requires name { is_lock name.now ≡ true }
        ensures answer { AnswersBy (refusal_at self.old.has_source verb session name.now self.old.locks) verb (relay_lock_at name.now self.old.locks) result }
        ensures after { OnOk result (ChangesAt name.now (asked_here self.old.has_source session verb id.now) self.old.locks self.new.locks) }
        ensures source { self.new.has_source ≡ self.old.has_source }
        ensures unchanged { OnErr result (self.new ≡ self.old) }
    {
        let refused = self
            .table
            .locks()
            .refusal(self.has_source, verb, session, name);
        if let Some(refused) = refused {
            return Err(refused);
        }
        if self.is_full(session) {
            return Err(DeskError::TooMany);
        }
        let near = Near::of(self.table.locks(), name);
        self.sessions.enter(alloc, session, name)?;
        let answer = self
            .table
            .enter(alloc, self.has_source, verb, session, name, id);
        remark(self.table.locks(), &mut self.sessions, session, name);
        mark_near(self.table.locks(), &mut self.sessions, near, name);
        answer
    }

    // Whether a session stands in the lists of as many locks as it may.
    fn is_full(&self, session: SessionId) -> bool
        ensures value { result ≡ is_full session self.now.locks }
    {
        // It has the name of each lock in whose lists it stands.
        if self.sessions.count(session) < MOST_LOCKS {
            return false;
        }
        let Some(names) = self.sessions.names(session) else {
            return false;
        };
        let mut room = MOST_LOCKS;
        for (name, _mark) in names.iter() {
            if self.table.locks().stands(session, name) {
                room -= 1;
                if room == 0 {
                    return true;
                }
            }
        }
        false
    }

    // A session leaves the lists of a lock, with the notices that it was owed for it.
    fn unlock(&mut self, session: SessionId, name: &Text) -> Result<Option<bool>, DeskError>
        ensures answer { AnswersBy (refusal_at self.old.has_source LockVerb.Unlock session name.now self.old.locks) LockVerb.Unlock (relay_lock_at name.now self.old.locks) result }
        ensures after { OnOk result (ChangesAt name.now (step (LockEvent.Unlocked session)) self.old.locks self.new.locks) }
        ensures source { self.new.has_source ≡ self.old.has_source }
        ensures unchanged { OnErr result (self.new ≡ self.old) }
    {
        let refused = self
            .table
            .locks()
            .refusal(self.has_source, LockVerb::Unlock, session, name);
        if let Some(refused) = refused {
            return Err(refused);
        }
        self.at(name, LockEvent::Unlocked(session));
        remark(self.table.locks(), &mut self.sessions, session, name);
        Ok(Some(true))
    }

    // What an event makes of the lock of this name, and of the marks of those that may be owed something by it.
    fn at(&mut self, name: &Text, event: LockEvent)
        requires may { MayHappen event (relay_lock_at name.now self.old.locks) }
        ensures after { ChangesAt name.now (step event) self.old.locks self.new.locks }
        ensures source { self.new.has_source ≡ self.old.has_source }
    {
        let near = Near::of(self.table.locks(), name);
        self.table.at(name, event);
        mark_near(self.table.locks(), &mut self.sessions, near, name);
    }

    /// The session that owns a lock: the first of its queue, and only where the source gave the lock. No memory is taken.
    pub fn owner(&self, name: &Text) -> Option<SessionId>
        ensures value { result ≡ desk_owner (relay_lock_at name.now self.now.locks) }
    {
        self.table.locks().owner(name)
    }

    /// What is to be asked of the source next: of the least name that has something due, what is due first. No memory is taken.
    pub fn due(&self) -> Option<(&Text, LockVerb)>
        ensures value { option_map (λ d. (d.0.now, d.1)) result ≡ first_due_up self.now.locks }
        // The locks stand in the order of their names, and none that is idle is kept.
        ensures table { IsDeskTable self.now.locks }
    {
        self.table.due()
    }

    /// What `due` gives went up under this number, which no other request has. A Lock or Steal is then answered by `answered`,
    /// an Unlock not at all. Nothing changes where nothing is due.
    ///
    /// # Errors
    /// `NoMemory` alone; nothing is changed then.
    pub fn sent(&mut self, alloc: Global, number: u64) -> Result<(), NoMemory>
        ensures after { OnOk result (SendsFirst number self.old.locks self.new.locks) }
        ensures source { self.new.has_source ≡ self.old.has_source }
        ensures unchanged { OnErr result (self.new ≡ self.old) }
    {
        self.table.sent(alloc, number)
    }

    /// Whether a request of this number isn't answered. No memory is taken.
    pub fn is_sent(&self, number: u64) -> bool
        ensures value { result ≡ is_sent_at number self.now.locks }
    {
        self.table.is_sent(number)
    }

    /// The request of this number was answered so. With a refusal the steal that isn't answered is, and its session leaves the
    /// lists; the others wait until the lock is asked for anew: once another session asks for it, or there is a source again.
    /// Nothing changes where no request has this number, or it was given up since. No memory is taken.
    pub fn answered(&mut self, number: u64, reply: LockReply)
        ensures after { self.new ≡ record { has_source = self.old.has_source; locks = stepped (LockEvent.Answered number reply) self.old.locks } }
    {
        self.table.answered(number, reply, &mut self.sessions);
    }

    /// The source tells that this lock is held (`locked`, RFC 7047 section 4.1.9). Nothing changes where the desk doesn't wait
    /// for it. No memory is needed.
    pub fn granted(&mut self, name: &Text)
        ensures after { ChangesAt name.now (step LockEvent.Granted) self.old.locks self.new.locks }
        ensures source { self.new.has_source ≡ self.old.has_source }
    {
        self.at(name, LockEvent::Granted);
    }

    /// The source tells that this lock was stolen (`stolen`, RFC 7047 section 4.1.10). Nothing changes where it isn't held. No
    /// memory is needed.
    pub fn stolen(&mut self, name: &Text)
        ensures after { ChangesAt name.now (step LockEvent.Stolen) self.old.locks self.new.locks }
        ensures source { self.new.has_source ≡ self.old.has_source }
    {
        self.at(name, LockEvent::Stolen);
    }

    /// The source is lost, and with it each lock that it gave; each steal that isn't answered is answered so. Nothing is due
    /// until there is a source again. No memory is taken.
    pub fn lost_source(&mut self)
        ensures after { self.new ≡ record { has_source = false; locks = stepped LockEvent.Lost self.old.locks } }
    {
        self.has_source = false;
        self.table.locks().mark_losers(&mut self.sessions);
        self.table.lost();
    }

    /// There is a source again, which is to be asked for each lock that a session waits for. Nothing changes where there is
    /// one. No memory is needed.
    pub fn found_source(&mut self)
        ensures after { self.new ≡ record { has_source = true; locks = if self.old.has_source then self.old.locks else stepped LockEvent.Found self.old.locks } }
    {
        if !self.has_source {
            self.has_source = true;
            self.table.found();
        }
    }

    /// A session ends: it stands nowhere then, and is owed nothing. Locks that it owned have their next owner. No memory is
    /// needed.
    pub fn end_session(&mut self, session: SessionId)
        ensures after { self.new ≡ record { has_source = self.old.has_source; locks = stepped (LockEvent.Ended session) self.old.locks } }
        ensures gone { IsGone session self.new.locks }
    {
        self.table.ended(session, &self.sessions);
        if let Some(names) = self.sessions.take(session) {
            mark_owners(self.table.locks(), &mut self.sessions, &names);
        }
    }

    /// What a session is owed and wasn't told, in this order: the answers to its steals, and then what became of its locks,
    /// each by the names of the locks, ascending. The session is owed nothing then.
    ///
    /// # Errors
    /// `NoMemory` alone; the session is then owed what it was.
    pub fn notices(
        &mut self,
        alloc: Global,
        session: SessionId,
    ) -> Result<Vec<DeskNotice>, NoMemory>
        ensures told { IfOk result (λ notices. notices.items ≡ owed_to session self.old.locks) }
        ensures after { OnOk result (self.new ≡ record { has_source = self.old.has_source; locks = stepped (LockEvent.AllTold session) self.old.locks }) }
        ensures nothing { OnOk result (owed_to session self.new.locks ≡ []) }
        ensures unchanged { OnErr result (self.new ≡ self.old) }
    {
        let owed = self.table.locks().owed(alloc, session)?;
        self.table.all_told(session);
        self.sessions.note_told(session);
        Ok(owed)
    }

    /// The first answer that a session is owed, which it still is then, and the name of its lock. No memory is taken.
    pub fn first_answer(&self, session: SessionId) -> Option<(&Text, &PendingSteal)>
        ensures value { option_map (λ d. (d.0.now, d.1.now)) result ≡ slice_get (answers_to session self.now.locks) 0 }
        ensures table { IsDeskTable self.now.locks }
    {
        let Some(names) = self.sessions.owed(session) else {
            return None;
        };
        for (name, mark) in names.iter() {
            if *mark {
                if let Some(late) = self.table.locks().first_answer(session, name) {
                    return Some((name, late));
                }
            }
        }
        None
    }

    /// The session was told the first answer that it is owed for this lock. No memory is needed.
    pub fn answer_told(&mut self, session: SessionId, name: &Text)
        ensures after { ChangesAt name.now (step (LockEvent.AnswerTold session)) self.old.locks self.new.locks }
        ensures source { self.new.has_source ≡ self.old.has_source }
    {
        self.table.at(name, LockEvent::AnswerTold(session));
        remark(self.table.locks(), &mut self.sessions, session, name);
    }

    /// The first notice that a session is owed, which it still is then.
    ///
    /// # Errors
    /// `NoMemory` alone.
    pub fn first_notice(&self, session: SessionId) -> Result<Option<LockNotice>, NoMemory>
        ensures value { IfOk result (λ notice. notice ≡ slice_get (notices_to session self.now.locks) 0) }
        ensures table { IsDeskTable self.now.locks }
    {
        let Some(names) = self.sessions.owed(session) else {
            return Ok(None);
        };
        for (name, mark) in names.iter() {
            if *mark {
                let notice = self.table.locks().first_notice(session, name)?;
                if notice.is_some() {
                    return Ok(notice);
                }
            }
        }
        Ok(None)
    }

    /// The session was told the first notice that it is owed for this lock. No memory is needed.
    pub fn notice_told(&mut self, session: SessionId, name: &Text)
        ensures after { ChangesAt name.now (step (LockEvent.NoticeTold session)) self.old.locks self.new.locks }
        ensures source { self.new.has_source ≡ self.old.has_source }
    {
        self.table.at(name, LockEvent::NoticeTold(session));
        remark(self.table.locks(), &mut self.sessions, session, name);
    }
}
