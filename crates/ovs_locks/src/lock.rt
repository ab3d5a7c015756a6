//! One lock.

ghost use Rattle.std.specs.Prelude.{◌≡◌, ◌≤◌, false, ◌++◌, OnOk, OnErr, IfOk, slice_get, vec_len, vec_capacity};
ghost use Rattle.ovs_locks.specs.Lock.{no_lock, is_in, stands, owner, is_first, is_free, appended, stolen_by, put_first, asked, AsksAs, without, forgotten, granted_first, robbed_first, after_telling, owed_for, owed_in, is_owed, heard, dropped, granted, notices_of, is_idle, is_due, first_due, heard_first, after_one};

use crate::error::LockError;
use crate::notice::LockNotice;
use crate::waiter::{Asking, PendingNotice, Waiter};
use ovs_json::{NoMemory, SessionId, Text};
use std::alloc::Global;
use std::marker::Model;

/// The sessions that asked for one lock: a queue, the first of which owns it, and those from whom it was stolen. A session
/// stands in one of them from the time that it asks until it leaves, with what it is owed and wasn't told. Each call that puts
/// a session into the queue makes room for it in both lists, so that no other takes memory.
#[derive(Drop)]
pub struct Lock {
    queue: Vec<Waiter>,
    stolen: Vec<Waiter>,
}

impl Model for Lock {
    ghost use Rattle.std.specs.Prelude.{List, ◌≤◌, ◌+◌, vec_len, vec_capacity, refl};
    ghost use Rattle.std.specs.Coded.{code_by, coded×, coded_list};
    ghost use Rattle.ovs_locks.specs.contracts.waiter.Waiter as asker_row;
    ghost use Rattle.ovs_locks.specs.declared.waiter.Waiter.{Waiter};
    ghost use Rattle.ovs_locks.specs.Lock.{LockValue};

    ghost Value = { LockValue };

    ghost coded = { code_by (List Waiter × List Waiter)
        (coded× (coded_list asker_row.the_row.coded) (coded_list asker_row.the_row.coded))
        (λ l. (l.queue, l.stolen)) (λ p. record { queue = p.0; stolen = p.1 }) (λ _. refl) };

    ghost view = { λ l. record { queue = l.queue.items; stolen = l.stolen.items } };

    // The stolen ones have room for the whole queue, so that a lock can be taken away without memory.
    ghost invariant = { λ l. vec_len l.queue + vec_len l.stolen ≤ vec_capacity l.stolen };
}

fn is_in(waiters: &[Waiter], session: SessionId) -> bool
    ensures value { result ≡ is_in session waiters.now }
{
    waiters.iter().any(|waiter| waiter.session == session)
}

fn is_first(waiters: &[Waiter], session: SessionId) -> bool
    ensures value { result ≡ is_first session waiters.now }
{
    match waiters {
        [first, ..] => first.session == session,
        [] => false,
    }
}

// Takes a session out of a list.
fn drop_session(waiters: &mut Vec<Waiter>, session: SessionId)
    ensures value { waiters.new.items ≡ dropped session waiters.old.items }
    ensures bound { vec_len waiters.new ≤ vec_len waiters.old }
    ensures capacity { vec_capacity waiters.new ≡ vec_capacity waiters.old }
{
    waiters.retain(|waiter| waiter.session != session);
}

// The first of the queue is owed that it owns the lock, if it does only now.
fn grant(queue: &mut [Waiter], now: bool)
    ensures value { queue.new ≡ granted now queue.old }
{
    match queue {
        [first, ..] => {
            if now {
                first.owed = PendingNotice::Locked;
            }
        }
        [] => {}
    }
}

// The session is owed nothing more.
fn hear(waiters: &mut [Waiter], session: SessionId)
    ensures value { waiters.new ≡ heard session waiters.old }
{
    for waiter in waiters.iter_mut() {
        *waiter = waiter.told(session);
    }
}

// Adds what the session is owed.
fn add_notices(waiter: Waiter, name: &Text, notices: &mut Vec<LockNotice>) -> Result<(), NoMemory>
    ensures value { OnOk result (notices.new.items ≡ notices.old.items ++ notices_of name.now waiter.owed) }
{
    match waiter.owed {
        PendingNotice::Nothing => {}
        PendingNotice::Locked => notices.push(LockNotice::Locked(name.copy()?))?,
        PendingNotice::Stolen => notices.push(LockNotice::Stolen(name.copy()?))?,
        PendingNotice::LockedAndStolen => {
            notices.push(LockNotice::Locked(name.copy()?))?;
            notices.push(LockNotice::Stolen(name.copy()?))?;
        }
    }
    Ok(())
}

fn add_owed(
    waiters: &[Waiter],
    session: SessionId,
    name: &Text,
    notices: &mut Vec<LockNotice>,
) -> Result<(), NoMemory>
    ensures value { OnOk result (notices.new.items ≡ notices.old.items ++ owed_in session name.now waiters.now) }
{
    for waiter in waiters {
        if waiter.session == session {
            add_notices(*waiter, name, notices)?;
        }
    }
    Ok(())
}

// What the session is owed where it is first owed something.
fn first_due(waiters: &[Waiter], session: SessionId) -> PendingNotice
    ensures value { result ≡ first_due session waiters.now }
{
    for waiter in waiters {
        if waiter.awaits(session) {
            return waiter.owed;
        }
    }
    PendingNotice::Nothing
}

// The session is told the first notice that it is owed here. The answer is whether it was owed one.
fn hear_first(waiters: &mut [Waiter], session: SessionId) -> bool
    ensures value { waiters.new ≡ heard_first session waiters.old }
    ensures answer { result ≡ is_due (first_due session waiters.old) }
{
    for waiter in waiters.iter_mut() {
        if waiter.awaits(session) {
            *waiter = waiter.told_first();
            return true;
        }
    }
    false
}

// The first notice of what is owed.
fn first_of(owed: PendingNotice, name: &Text) -> Result<Option<LockNotice>, NoMemory>
    ensures value { IfOk result (λ notice. notice ≡ slice_get (notices_of name.now owed) 0) }
{
    match owed {
        PendingNotice::Nothing => Ok(None),
        PendingNotice::Locked | PendingNotice::LockedAndStolen => Ok(Some(LockNotice::Locked(
            name.copy()?,
        ))),
        PendingNotice::Stolen => Ok(Some(LockNotice::Stolen(name.copy()?))),
    }
}

impl Lock {
    /// A lock for which nobody asked.
    pub fn new(alloc: Global) -> Lock
        ensures value { result ≡ no_lock }
    {
        Lock {
            queue: Vec::new(alloc),
            stolen: Vec::new(alloc),
        }
    }

    /// Whether a session stands in one of the lists.
    pub fn stands(&self, session: SessionId) -> bool
        ensures value { result ≡ stands session self.now }
    {
        is_in(&self.queue, session) || is_in(&self.stolen, session)
    }

    /// The session that owns the lock.
    pub fn owner(&self) -> Option<SessionId>
        ensures value { result ≡ owner self.now }
    {
        match self.queue.as_slice() {
            [first, ..] => Some(first.session),
            [] => None,
        }
    }

    /// Whether no session stands in the lists.
    pub fn is_idle(&self) -> bool
        ensures value { result ≡ is_idle self.now }
    {
        self.queue.is_empty() && self.stolen.is_empty()
    }

    /// Whether nobody stands in the queue, so that the lock has no owner.
    pub fn is_free(&self) -> bool
        ensures value { result ≡ is_free self.now.queue }
    {
        self.queue.is_empty()
    }

    /// Puts a session last in the queue.
    ///
    /// # Errors
    /// `NoMemory` alone; the lock is then as it was.
    pub fn append(&mut self, session: SessionId) -> Result<(), NoMemory>
        ensures value { OnOk result (self.new ≡ appended session self.old) }
        ensures unchanged { OnErr result (self.new ≡ self.old) }
    {
        self.stolen.reserve(self.queue.len() + 1)?;
        self.queue.push(Waiter::new(session))?;
        Ok(())
    }

    /// Puts a session first, in the place of the owner, from whom the lock is stolen.
    ///
    /// # Errors
    /// `NoMemory` alone; the lock is then as it was.
    pub fn steal(&mut self, session: SessionId) -> Result<(), NoMemory>
        ensures value { OnOk result (self.new ≡ stolen_by session self.old) }
        ensures unchanged { OnErr result (self.new ≡ self.old) }
    {
        self.stolen.reserve(self.queue.len() + 1)?;
        if self.queue.is_empty() {
            self.queue.push(Waiter::new(session))?;
            return Ok(());
        }
        let owner = self.queue[0];
        self.queue[0] = Waiter::new(session);
        self.stolen.push_reserved(owner.robbed());
        Ok(())
    }

    /// Puts a session first in the queue. The lock is stolen from nobody.
    ///
    /// # Errors
    /// `NoMemory` alone; the lock is then as it was.
    pub fn put_first(&mut self, session: SessionId) -> Result<(), NoMemory>
        ensures value { OnOk result (self.new ≡ put_first session self.old) }
        ensures unchanged { OnErr result (self.new ≡ self.old) }
    {
        self.stolen.reserve(self.queue.len() + 1)?;
        self.queue.insert(0, Waiter::new(session))?;
        Ok(())
    }

    /// A session asks for the lock. Answers whether it owns it now.
    #[tactic(auto, using(crate::proofs::Idle::busy))]
    pub(crate) fn ask(&mut self, session: SessionId, how: Asking) -> Result<bool, LockError>
        ensures answer { AsksAs how session self.old result }
        ensures after { OnOk result (self.new ≡ asked how session self.old) }
        ensures busy { OnOk result (is_idle self.new ≡ false) }
        ensures unchanged { OnErr result (self.new ≡ self.old) }
    {
        if self.stands(session) {
            return Err(LockError::AlreadyAsked);
        }
        match how {
            Asking::Lock => {
                let is_free = self.queue.is_empty();
                self.append(session)?;
                Ok(is_free)
            }
            Asking::Steal => {
                self.steal(session)?;
                Ok(true)
            }
        }
    }

    /// Takes a session out of both lists. If it was the owner, the next one is, and is owed the notice of it. No memory is
    /// taken.
    pub fn leave(&mut self, session: SessionId)
        ensures value { self.new ≡ without session self.old }
    {
        let was_owner = is_first(&self.queue, session);
        self.forget(session);
        grant(&mut self.queue, was_owner);
    }

    /// Takes a session out of both lists. Nobody is told that it owns the lock for that. No memory is taken.
    pub fn forget(&mut self, session: SessionId)
        ensures value { self.new ≡ forgotten session self.old }
    {
        drop_session(&mut self.queue, session);
        drop_session(&mut self.stolen, session);
    }

    /// The first of the queue is owed the notice that it owns the lock. No memory is taken.
    pub fn grant_first(&mut self)
        ensures value { self.new ≡ granted_first self.old }
    {
        grant(&mut self.queue, true);
    }

    /// The lock is stolen from the first of the queue, and no session here has it for that. No memory is taken.
    pub fn rob(&mut self)
        ensures value { self.new ≡ robbed_first self.old }
    {
        if self.queue.is_empty() {
            return;
        }
        let first = self.queue.remove(0);
        self.stolen.push_reserved(first.robbed());
    }

    /// Notes that a session was told what it was owed.
    pub fn note_told(&mut self, session: SessionId)
        ensures value { self.new ≡ after_telling session self.old }
    {
        hear(&mut self.queue, session);
        hear(&mut self.stolen, session);
    }

    /// Whether a session is owed a notice for this lock.
    pub fn owes(&self, session: SessionId) -> bool
        ensures value { result ≡ is_owed session self.now }
    {
        first_due(&self.queue, session).is_due() || first_due(&self.stolen, session).is_due()
    }

    /// Adds what a session is owed for this lock, which has this name.
    ///
    /// # Errors
    /// `NoMemory` alone; some notices may be added then.
    pub fn add_owed(
        &self,
        session: SessionId,
        name: &Text,
        notices: &mut Vec<LockNotice>,
    ) -> Result<(), NoMemory>
        ensures value { OnOk result (notices.new.items ≡ notices.old.items ++ owed_for session name.now self.now) }
    {
        add_owed(&self.queue, session, name, notices)?;
        add_owed(&self.stolen, session, name, notices)
    }

    /// The first notice of what a session is owed for this lock, which has this name; `None` where it is owed nothing.
    ///
    /// # Errors
    /// `NoMemory` alone.
    pub fn first_notice(
        &self,
        session: SessionId,
        name: &Text,
    ) -> Result<Option<LockNotice>, NoMemory>
        ensures value { IfOk result (λ notice. notice ≡ slice_get (owed_for session name.now self.now) 0) }
    {
        let due = first_due(&self.queue, session);
        if due.is_due() {
            first_of(due, name)
        } else {
            first_of(first_due(&self.stolen, session), name)
        }
    }

    /// Notes that a session was told the first notice that it was owed.
    pub fn note_one_told(&mut self, session: SessionId)
        ensures value { self.new ≡ after_one session self.old }
    {
        if !hear_first(&mut self.queue, session) {
            let _ = hear_first(&mut self.stolen, session);
        }
    }
}
