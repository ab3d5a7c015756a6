//! The locks of a relay's desk, by name.

ghost use Rattle.std.specs.Prelude.{◌≡◌, ◌++◌, ℕ, [], true, false, OnOk, OnErr, IfOk, filter, slice_get, option_copied, option_map};
ghost use Rattle.ovs_locks.specs.Lock.{stands};
ghost use Rattle.ovs_lock_desk.specs.LockState.{is_sent, open_number, verb_due};
ghost use Rattle.ovs_lock_desk.specs.PendingSteal.{is_due_late, open_session};
ghost use Rattle.std.specs.BTreeMap.{IsOrdered, insert_entry, is_at};
ghost use Rattle.std.specs.Map.{remove_entry};
ghost use Rattle.std.specs.Cmp.Lexicographic.{slice_cmp};
ghost use Rattle.std.specs.Ordering.{nat_cmp};
ghost use Rattle.ovs_lock_desk.specs.RelayLock.{no_relay_lock, step, refusal, asked_here, is_desk_idle, enters, desk_owner, AnswersBy};
ghost use Rattle.ovs_lock_desk.specs.LockDesk.{IsDeskTable, relay_lock_at, ChangesAt, stepped, first_due_up, answers_told, owed_to, notices_to, notices_here, owes_here};
ghost use Rattle.ovs_lock_desk.specs.OwedMarks.{desk_mark, MarksLosers};
ghost use Rattle.ovs_lock_desk.specs.UpwardTable.{ListsDue};

use crate::desk_notice::DeskNotice;
use crate::due_names::DueNames;
use crate::error::DeskError;
use crate::lock_state::{LockEvent, LockVerb};
use crate::owed_marks::mark_any;
use crate::pending_steal::PendingSteal;
use crate::relay_lock::RelayLock;
use ovs_json::{NoMemory, SessionId, Text};
use ovs_locks::{BySession, LockNotice};
use ovs_wire::Id;
use std::alloc::Global;
use std::collections::BTreeMap;
use std::marker::Model;

/// The locks of a relay's desk, by name. A lock that is idle leaves.
#[derive(Drop)]
pub struct DeskTable {
    locks: BTreeMap<Text, RelayLock>,
}

impl Model for DeskTable {
    ghost use Rattle.std.specs.Prelude.{ℕ, List};
    ghost use Rattle.std.specs.BTreeMap.{IsOrdered};
    ghost use Rattle.std.specs.Ordering.{nat_cmp};
    ghost use Rattle.std.specs.Cmp.Lexicographic.{slice_cmp};
    ghost use Rattle.std.specs.Coded.{coded×, coded_ℕ, coded_list};
    ghost use Rattle.ovs_lock_desk.specs.contracts.relay_lock.RelayLock as lock_row;
    ghost use Rattle.ovs_lock_desk.specs.LockDesk.{RelayLocks, NoneIdle};

    ghost Value = { RelayLocks };

    ghost coded = { coded_list (coded× (coded_list coded_ℕ) lock_row.the_row.coded) };

    ghost view = { λ t. t.locks.entries };

    ghost invariant = { λ t. IsOrdered (slice_cmp nat_cmp) t.locks × NoneIdle t.locks.entries };
}

// Takes a lock out. A function of its own, since between a write and the taking out a lock may be idle.
fn take_out(locks: &mut BTreeMap<Text, RelayLock>, name: &Text)
    ensures entries { locks.new.entries ≡ remove_entry (is_at (slice_cmp nat_cmp name.now)) locks.old.entries }
    ensures ordered { IsOrdered (slice_cmp nat_cmp) locks.new }
{
    let _ = locks.remove(name);
}

impl DeskTable {
    /// Nobody asked for a lock.
    pub(crate) fn new(alloc: Global) -> DeskTable
        ensures value { result ≡ [] }
    {
        DeskTable {
            locks: BTreeMap::new(alloc),
        }
    }

    /// The session that owns a lock.
    pub(crate) fn owner(&self, name: &Text) -> Option<SessionId>
        ensures value { result ≡ desk_owner (relay_lock_at name.now self.now) }
    {
        match self.locks.get(name) {
            Some(lock) => lock.owner(),
            None => None,
        }
    }

    /// Why a session's asking for the lock of this name is refused.
    pub(crate) fn refusal(
        &self,
        has_source: bool,
        verb: LockVerb,
        session: SessionId,
        name: &Text,
    ) -> Option<DeskError>
        ensures value { result ≡ refusal has_source verb session (relay_lock_at name.now self.now) }
    {
        match self.locks.get(name) {
            Some(lock) => lock.refusal(has_source, verb, session),
            None => refusal_of_none(has_source, verb),
        }
    }

    /// Whether a session stands in the lists of the lock of this name.
    pub(crate) fn stands(&self, session: SessionId, name: &Text) -> bool
        ensures value { result ≡ stands session (relay_lock_at name.now self.now).lock }
    {
        match self.locks.get(name) {
            Some(lock) => lock.stands(session),
            None => false,
        }
    }

    /// The session whose steal of the lock of this name isn't answered.
    pub(crate) fn open_session(&self, name: &Text) -> Option<SessionId>
        ensures value { result ≡ open_session (relay_lock_at name.now self.now).late }
    {
        match self.locks.get(name) {
            Some(lock) => lock.open_session(),
            None => None,
        }
    }

    /// Whether a session is owed anything for the lock of this name; none where it has nothing to do with it.
    pub(crate) fn mark(&self, session: SessionId, name: &Text) -> Option<bool>
        ensures value { result ≡ desk_mark session (relay_lock_at name.now self.now) }
    {
        match self.locks.get(name) {
            Some(lock) => lock.mark(session),
            None => None,
        }
    }

    /// A session asks for the lock of this name, or steals it.
    pub(crate) fn enter(
        &mut self,
        alloc: Global,
        has_source: bool,
        verb: LockVerb,
        session: SessionId,
        name: &Text,
        id: &Id,
    ) -> Result<Option<bool>, DeskError>
        requires enters { enters verb ≡ true }
        ensures answer { AnswersBy (refusal has_source verb session (relay_lock_at name.now self.old)) verb (relay_lock_at name.now self.old) result }
        ensures after { OnOk result (ChangesAt name.now (asked_here has_source session verb id.now) self.old self.new) }
        ensures unchanged { OnErr result (self.new ≡ self.old) }
        ensures table { OnOk result (IsDeskTable self.new) }
    {
        if let Some(lock) = self.locks.get_mut(name) {
            return lock.ask(has_source, verb, session, id);
        }
        let mut lock = RelayLock::new(alloc);
        let answer = lock.ask(has_source, verb, session, id)?;
        match self.add(name, lock) {
            Ok(()) => Ok(answer),
            Err(NoMemory) => Err(DeskError::NoMemory),
        }
    }

    // Adds a lock that isn't there.
    fn add(&mut self, name: &Text, lock: RelayLock) -> Result<(), NoMemory>
        requires busy { is_desk_idle lock ≡ false }
        ensures value { OnOk result (self.new ≡ insert_entry (slice_cmp nat_cmp) self.old name.now lock) }
        ensures unchanged { OnErr result (self.new ≡ self.old) }
        ensures table { IsDeskTable self.new }
    {
        self.locks.insert(name.copy()?, lock)?;
        Ok(())
    }

    /// What an event makes of the lock of this name.
    pub(crate) fn at(&mut self, name: &Text, event: LockEvent)
        ensures after { ChangesAt name.now (step event) self.old self.new }
        ensures table { IsDeskTable self.new }
    {
        if let Some(lock) = self.locks.get_mut(name) {
            lock.step(event);
            if lock.is_idle() {
                take_out(&mut self.locks, name);
            }
        }
    }

    /// What an event makes of all locks.
    pub(crate) fn each(&mut self, event: LockEvent)
        ensures after { self.new ≡ stepped event self.old }
        ensures table { IsDeskTable self.new }
    {
        self.locks.retain(|_name, lock| {
            lock.step(event);
            !lock.is_idle()
        });
    }

    /// Marks, for each lock, those that are owed something once the source is lost: its owner, and the session whose steal
    /// isn't answered.
    pub(crate) fn mark_losers(&self, sessions: &mut BySession)
        ensures marks { MarksLosers self.now sessions.old sessions.new }
    {
        for (name, lock) in self.locks.iter() {
            mark_any(sessions, lock.owner(), name);
            mark_any(sessions, lock.open_session(), name);
        }
    }

    /// What is due upward first, of the least name that has something due.
    pub(crate) fn due(&self) -> Option<(&Text, LockVerb)>
        ensures value { option_map (λ d. (d.0.now, d.1)) result ≡ first_due_up self.now }
        ensures table { IsDeskTable self.now }
    {
        for (name, lock) in self.locks.iter() {
            if let Some(verb) = lock.due() {
                return Some((name, verb));
            }
        }
        None
    }

    /// What is due upward first for the lock of this name.
    pub(crate) fn verb_due(&self, name: &Text) -> Option<LockVerb>
        ensures value { result ≡ verb_due (relay_lock_at name.now self.now).state }
    {
        match self.locks.get(name) {
            Some(lock) => lock.due(),
            None => None,
        }
    }

    /// Lists anew for which locks something is due upward.
    pub(crate) fn list_due(&self, due: &mut DueNames)
        ensures listed { ListsDue self.now due.new }
    {
        due.clear();
        for (name, lock) in self.locks.iter() {
            if lock.due().is_some() {
                due.note(name, true);
            }
        }
    }

    /// Whether the request of this number for the lock of this name isn't answered.
    pub(crate) fn is_sent(&self, number: u64, name: &Text) -> bool
        ensures value { result ≡ is_sent number (relay_lock_at name.now self.now).state }
    {
        match self.locks.get(name) {
            Some(lock) => lock.is_sent(number),
            None => false,
        }
    }

    /// The number of the request for the lock of this name that isn't answered.
    pub(crate) fn open_number(&self, name: &Text) -> Option<u64>
        ensures value { result ≡ open_number (relay_lock_at name.now self.now).state }
    {
        match self.locks.get(name) {
            Some(lock) => lock.open_number(),
            None => None,
        }
    }

    /// Whether a session is owed an answer or a notice for the lock of this name.
    pub(crate) fn owes(&self, session: SessionId, name: &Text) -> bool
        ensures value { result ≡ owes_here session (relay_lock_at name.now self.now) }
    {
        match self.locks.get(name) {
            Some(lock) => lock.owes(session),
            None => false,
        }
    }

    /// The first answer that a session is owed for the lock of this name.
    pub(crate) fn first_answer(&self, session: SessionId, name: &Text) -> Option<&PendingSteal>
        ensures value { option_copied result ≡ slice_get (filter (is_due_late session) (relay_lock_at name.now self.now).late) 0 }
    {
        match self.locks.get(name) {
            Some(lock) => lock.first_answer(session),
            None => None,
        }
    }

    /// The first notice that a session is owed for the lock of this name.
    pub(crate) fn first_notice(
        &self,
        session: SessionId,
        name: &Text,
    ) -> Result<Option<LockNotice>, NoMemory>
        ensures value { IfOk result (λ notice. notice ≡ slice_get (notices_here session name.now (relay_lock_at name.now self.now)) 0) }
    {
        match self.locks.get(name) {
            Some(lock) => lock.first_notice(session, name),
            None => Ok(None),
        }
    }
}

impl DeskTable {
    // Adds the answers that a session is owed.
    fn add_answers(&self, session: SessionId, owed: &mut Vec<DeskNotice>) -> Result<(), NoMemory>
        ensures value { OnOk result (owed.new.items ≡ owed.old.items ++ answers_told session self.now) }
    {
        for (_name, lock) in self.locks.iter() {
            lock.add_answers(session, owed)?;
        }
        Ok(())
    }

    // The notices that a session is owed.
    fn notices(&self, alloc: Global, session: SessionId) -> Result<Vec<LockNotice>, NoMemory>
        ensures value { IfOk result (λ notices. notices.items ≡ notices_to session self.now) }
    {
        let mut notices = Vec::new(alloc);
        for (name, lock) in self.locks.iter() {
            lock.add_notices(session, name, &mut notices)?;
        }
        Ok(notices)
    }

    /// All that a session is owed: the answers, and then the notices.
    pub(crate) fn owed(
        &self,
        alloc: Global,
        session: SessionId,
    ) -> Result<Vec<DeskNotice>, NoMemory>
        ensures value { IfOk result (λ owed. owed.items ≡ owed_to session self.now) }
    {
        let mut owed = Vec::new(alloc);
        self.add_answers(session, &mut owed)?;
        let notices = self.notices(alloc, session)?;
        let mut told: Vec<DeskNotice> = notices
            .into_iter()
            .map(|notice| DeskNotice::Lock(notice))
            .collect(alloc)?;
        owed.append(&mut told)?;
        Ok(owed)
    }
}

// Why a session's asking for a lock that isn't there is refused.
fn refusal_of_none(has_source: bool, verb: LockVerb) -> Option<DeskError>
    ensures value { (session : ℕ) → result ≡ refusal has_source verb session no_relay_lock }
{
    match verb {
        LockVerb::Lock => None,
        LockVerb::Steal => {
            if has_source {
                None
            } else {
                Some(DeskError::SourceLost)
            }
        }
        LockVerb::Unlock => Some(DeskError::NeverAsked),
    }
}
