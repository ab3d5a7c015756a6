//! Locks by name.

ghost use Rattle.std.specs.Prelude.{◌≡◌, [], false, OnOk, OnErr, IfOk, slice_get};
ghost use Rattle.std.specs.BTreeMap.{IsOrdered, Updates, is_at};
ghost use Rattle.std.specs.Map.{remove_entry};
ghost use Rattle.std.specs.Cmp.Lexicographic.{slice_cmp};
ghost use Rattle.std.specs.Ordering.{nat_cmp};
ghost use Rattle.ovs_locks.specs.Lock.{AsksAs, owner, stands, is_idle, mark, asked, without, after_telling, after_one, owed_for};
ghost use Rattle.ovs_locks.specs.LockTable.{AscendByName, lock_at, Becomes, AllBecome, owed_to, NoneIdle, ChangesAt};

use crate::error::LockError;
use crate::lock::Lock;
use crate::notice::LockNotice;
use crate::waiter::Asking;
use ovs_json::{NoMemory, SessionId, Text};
use std::alloc::Global;
use std::collections::BTreeMap;
use std::marker::Model;

/// The locks of a server, by name. A name in which no session stands leaves.
#[derive(Drop)]
pub struct LockMap {
    locks: BTreeMap<Text, Lock>,
}

impl Model for LockMap {
    ghost use Rattle.std.specs.Prelude.{ℕ, List};
    ghost use Rattle.std.specs.BTreeMap.{IsOrdered};
    ghost use Rattle.std.specs.Ordering.{nat_cmp};
    ghost use Rattle.std.specs.Cmp.Lexicographic.{slice_cmp};
    ghost use Rattle.std.specs.Coded.{coded×, coded_ℕ, coded_list};
    ghost use Rattle.ovs_locks.specs.contracts.lock.Lock as lock_row;
    ghost use Rattle.ovs_locks.specs.LockTable.{Locks, NoneIdle};

    ghost Value = { Locks };

    ghost coded = { coded_list (coded× (coded_list coded_ℕ) lock_row.the_row.coded) };

    ghost view = { λ t. t.locks.entries };

    ghost invariant = { λ t. IsOrdered (slice_cmp nat_cmp) t.locks × NoneIdle t.locks.entries };
}

// Takes a lock out. A function of its own, since between a write and the taking out a lock may be idle.
fn take_out(locks: &mut BTreeMap<Text, Lock>, name: &Text)
    ensures entries { locks.new.entries ≡ remove_entry (is_at (slice_cmp nat_cmp name.now)) locks.old.entries }
    ensures updates { Updates (slice_cmp nat_cmp) locks.old locks.new name.now None }
    ensures ordered { IsOrdered (slice_cmp nat_cmp) locks.new }
{
    let _ = locks.remove(name);
}

impl LockMap {
    /// No session has asked for a lock.
    pub(crate) fn new(alloc: Global) -> LockMap
        ensures value { result ≡ [] }
    {
        LockMap {
            locks: BTreeMap::new(alloc),
        }
    }

    /// A session asks for a lock.
    pub(crate) fn ask(
        &mut self,
        alloc: Global,
        session: SessionId,
        name: &Text,
        how: Asking,
    ) -> Result<bool, LockError>
        ensures answer { AsksAs how session (lock_at name.now self.old) result }
        ensures after { OnOk result (Becomes self.old name.now (asked how session (lock_at name.now self.old)) self.new) }
        ensures unchanged { OnErr result (self.new ≡ self.old) }
        ensures ascending { OnOk result (AscendByName self.new) }
        ensures none_idle { NoneIdle self.new }
    {
        if let Some(lock) = self.locks.get_mut(name) {
            return lock.ask(session, how);
        }
        let mut lock = Lock::new(alloc);
        let answer = lock.ask(session, how)?;
        match self.put(name, lock) {
            Ok(()) => Ok(answer),
            Err(NoMemory) => Err(LockError::NoMemory),
        }
    }

    // Adds a lock that isn't there.
    fn put(&mut self, name: &Text, lock: Lock) -> Result<(), NoMemory>
        requires busy { is_idle lock ≡ false }
        ensures value { OnOk result (Becomes self.old name.now lock self.new) }
        ensures unchanged { OnErr result (self.new ≡ self.old) }
        ensures ascending { AscendByName self.new }
        ensures none_idle { NoneIdle self.new }
    {
        self.locks.insert(name.copy()?, lock)?;
        Ok(())
    }

    /// The session that owns a lock, if one does.
    pub(crate) fn owner(&self, name: &Text) -> Option<SessionId>
        ensures value { result ≡ owner (lock_at name.now self.now) }
    {
        match self.locks.get(name) {
            Some(lock) => lock.owner(),
            None => None,
        }
    }

    /// Whether a session stands in one of the lists of a lock.
    pub(crate) fn stands(&self, session: SessionId, name: &Text) -> bool
        ensures value { result ≡ stands session (lock_at name.now self.now) }
        ensures by_name { AscendByName self.now }
        ensures none_idle { NoneIdle self.now }
    {
        match self.locks.get(name) {
            Some(lock) => lock.stands(session),
            None => false,
        }
    }

    /// Whether a session is owed anything for a lock; `None` where it stands in neither list.
    pub(crate) fn mark(&self, session: SessionId, name: &Text) -> Option<bool>
        ensures value { result ≡ mark session (lock_at name.now self.now) }
    {
        let lock = self.locks.get(name)?;
        if lock.stands(session) {
            Some(lock.owes(session))
        } else {
            None
        }
    }

    /// Takes a session out of both lists of a lock. If it was the owner, the next one is, and is owed the notice of it.
    pub(crate) fn leave(&mut self, session: SessionId, name: &Text)
        ensures after { Becomes self.old name.now (without session (lock_at name.now self.old)) self.new }
        ensures ascending { AscendByName self.new }
        ensures none_idle { NoneIdle self.new }
    {
        if let Some(lock) = self.locks.get_mut(name) {
            lock.leave(session);
            if lock.is_idle() {
                take_out(&mut self.locks, name);
            }
        }
    }

    /// Notes that a session was told all that it was owed.
    pub(crate) fn note_told(&mut self, session: SessionId)
        ensures after { AllBecome self.old (after_telling session) self.new }
        ensures nothing { owed_to session self.new ≡ [] }
        ensures by_name { AscendByName self.old }
        ensures ascending { AscendByName self.new }
        ensures none_idle { NoneIdle self.new }
    {
        self.locks.retain(|_name, lock| {
            lock.note_told(session);
            true
        });
    }

    /// What a session is owed.
    pub(crate) fn owed(
        &self,
        alloc: Global,
        session: SessionId,
    ) -> Result<Vec<LockNotice>, NoMemory>
        ensures value { IfOk result (λ notices. notices.items ≡ owed_to session self.now) }
        ensures by_name { AscendByName self.now }
    {
        let mut notices = Vec::new(alloc);
        for (name, lock) in self.locks.iter() {
            lock.add_owed(session, name, &mut notices)?;
        }
        Ok(notices)
    }

    /// The first notice of what a session is owed for a lock.
    pub(crate) fn first_notice(
        &self,
        session: SessionId,
        name: &Text,
    ) -> Result<Option<LockNotice>, NoMemory>
        ensures value { IfOk result (λ notice. notice ≡ slice_get (owed_for session name.now (lock_at name.now self.now)) 0) }
    {
        match self.locks.get(name) {
            Some(lock) => lock.first_notice(session, name),
            None => Ok(None),
        }
    }

    /// Notes that a session was told the first notice that it was owed for a lock.
    pub(crate) fn note_one_told(&mut self, session: SessionId, name: &Text)
        ensures after { ChangesAt name.now (after_one session) self.old self.new }
        ensures becomes { Becomes self.old name.now (after_one session (lock_at name.now self.old)) self.new }
        ensures ascending { AscendByName self.new }
        ensures none_idle { NoneIdle self.new }
    {
        if let Some(lock) = self.locks.get_mut(name) {
            lock.note_one_told(session);
        }
    }
}
