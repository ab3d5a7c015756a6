//! The locks of a server, by name, and the names that each session asked for.

ghost use Rattle.std.specs.Prelude.{◌≡◌, ◌≢◌, ℕ, List, [], true, false, OnOk, OnErr, IfOk, drop, is_some, slice_get, length, ◌<◌};
ghost use Rattle.ovs_locks.specs.BySession.{Notes, Remarks, RemarksAny, mark_at, names_at};
ghost use Rattle.ovs_locks.specs.Lock.{owner, stands, mark, wins, asked, without, after_telling, after_one};
ghost use Rattle.ovs_locks.specs.LockTable.{AscendByName, is_lock, LeavesFrom, Leaves, lock_at, locks_of, Becomes, AllBecome, AnswersAs, owed_to, KeepsSessions, NoneIdle, ChangesAt};

use crate::by_session::BySession;
use crate::error::{LockError, NeverAsked};
use crate::lock_map::LockMap;
use crate::notice::LockNotice;
use crate::waiter::Asking;
use ovs_data::is_id;
use ovs_json::{NoMemory, SessionId, Text};
use std::alloc::Global;
use std::collections::BTreeMap;
use std::marker::Model;

// A session stands in the lists of so many locks at most.
const MOST_LOCKS: usize = 1024;

/// The locks of a server, by name: for each the sessions that asked for it, in two lists. The first of the queue owns the
/// lock; those from whom it was stolen stand in the other until they unlock it (RFC 7047 section 4.1.8). A name in which no
/// session stands leaves the table.
#[derive(Drop)]
pub struct LockTable {
    locks: LockMap,
    // The names of the locks in whose lists each session stands, and for which of them it is owed a notice.
    sessions: BySession,
}

impl Model for LockTable {
    ghost use Rattle.std.specs.Prelude.{ℕ, List};
    ghost use Rattle.std.specs.Coded.{coded×, coded_ℕ, coded_list};
    ghost use Rattle.ovs_locks.specs.contracts.lock.Lock as lock_row;
    ghost use Rattle.ovs_locks.specs.BySession.{IsListed};
    ghost use Rattle.ovs_locks.specs.Lock.{mark, no_lock};
    ghost use Rattle.ovs_locks.specs.LockTable.{Locks, AscendByName, NoneIdle};

    ghost Value = { Locks };

    ghost coded = { coded_list (coded× (coded_list coded_ℕ) lock_row.the_row.coded) };

    ghost view = { λ t. t.locks };

    ghost invariant = { λ t. AscendByName t.locks × NoneIdle t.locks × IsListed mark no_lock t.locks t.sessions };
}

/// Whether a lock may have this name: an `<id>` (RFC 7047 section 3.1), and not `_none`, which no session holds.
pub fn is_lock(name: &str) -> bool
    ensures value { result ≡ is_lock name.now }
{
    is_id(name) && name != "_none"
}

// Writes what a session is owed for this lock now, or takes the name out where it stands in it no more.
fn remark(locks: &LockMap, sessions: &mut BySession, session: SessionId, name: &Text)
    ensures marks { Remarks (λ x. mark x (lock_at name.now locks.now)) session name.now sessions.old sessions.new }
{
    let mark = locks.mark(session, name);
    sessions.note(session, name, mark);
}

fn remark_any(locks: &LockMap, sessions: &mut BySession, session: Option<SessionId>, name: &Text)
    ensures marks { RemarksAny (λ x. mark x (lock_at name.now locks.now)) session name.now sessions.old sessions.new }
{
    if let Some(session) = session {
        remark(locks, sessions, session, name);
    }
}

// Takes a session out of the lists of these locks, and marks their next owners.
fn leave_all(
    locks: &mut LockMap,
    sessions: &mut BySession,
    session: SessionId,
    names: &BTreeMap<Text, bool>,
)
    requires listed { LeavesFrom session names.now.entries locks.old sessions.old }
    requires ordered { AscendByName locks.old }
    requires busy { NoneIdle locks.old }
    ensures left { Leaves session locks.old locks.new sessions.new }
    ensures ascending { AscendByName locks.new }
    ensures none_idle { NoneIdle locks.new }
{
    for (name, _owed) in names.iter() {
        locks.leave(session, name);
        let next = locks.owner(name);
        remark_any(locks, sessions, next, name);
    }
}

impl LockTable {
    /// A table in which no session has asked for a lock.
    pub fn new(alloc: Global) -> LockTable
        ensures value { result ≡ [] }
    {
        LockTable {
            locks: LockMap::new(alloc),
            sessions: BySession::new(alloc),
        }
    }

    // A session asks for a lock.
    fn ask(
        &mut self,
        alloc: Global,
        session: SessionId,
        name: &Text,
        how: Asking,
    ) -> Result<bool, LockError>
        ensures answer { AnswersAs how session name.now self.old result }
        ensures after { OnOk result (Becomes self.old name.now (asked how session (lock_at name.now self.old)) self.new) }
        ensures unchanged { OnErr result (self.new ≡ self.old) }
        ensures ascending { OnOk result (AscendByName self.new) }
    {
        if !is_lock(name.as_str()) {
            return Err(LockError::BadLock);
        }
        if self.locks.stands(session, name) {
            return Err(LockError::AlreadyAsked);
        }
        if self.count(session) >= MOST_LOCKS {
            return Err(LockError::TooMany);
        }
        match self.enter(alloc, session, name, how) {
            Ok(answer) => Ok(answer),
            Err(NoMemory) => Err(LockError::NoMemory),
        }
    }

    // In the lists of how many locks a session stands.
    fn count(&self, session: SessionId) -> usize
        ensures value { result ≡ length (locks_of session self.now) }
    {
        self.sessions.count(session)
    }

    // A session that stands in neither list of the lock comes to stand in one.
    fn enter(
        &mut self,
        alloc: Global,
        session: SessionId,
        name: &Text,
        how: Asking,
    ) -> Result<bool, NoMemory>
        requires apart { stands session (lock_at name.now self.old) ≡ false }
        ensures answer { IfOk result (λ won. won ≡ wins how (lock_at name.now self.old)) }
        ensures after { OnOk result (Becomes self.old name.now (asked how session (lock_at name.now self.old)) self.new) }
        ensures unchanged { OnErr result (self.new ≡ self.old) }
        ensures ascending { OnOk result (AscendByName self.new) }
    {
        let robbed = self.locks.owner(name);
        self.sessions.enter(alloc, session, name)?;
        match self.locks.ask(alloc, session, name, how) {
            Ok(answer) => {
                remark_any(&self.locks, &mut self.sessions, robbed, name);
                Ok(answer)
            }
            Err(_) => {
                self.sessions.note(session, name, None);
                Err(NoMemory)
            }
        }
    }

    /// Asks for a lock after those that asked before. The answer is whether the session owns it now.
    ///
    /// # Errors
    /// `BadLock` where no lock has such a name, else `AlreadyAsked` where the session stands in one of its lists, else
    /// `TooMany` where it stands in the lists of 1,024 others, else `NoMemory`. The table is then as it was.
    pub fn lock(
        &mut self,
        alloc: Global,
        session: SessionId,
        name: &Text,
    ) -> Result<bool, LockError>
        ensures answer { AnswersAs Asking.Lock session name.now self.old result }
        ensures after { OnOk result (Becomes self.old name.now (asked Asking.Lock session (lock_at name.now self.old)) self.new) }
        ensures unchanged { OnErr result (self.new ≡ self.old) }
        ensures ascending { OnOk result (AscendByName self.new) }
    {
        self.ask(alloc, session, name, Asking::Lock)
    }

    /// Asks for a lock in the place of its owner, who is owed the notice that it was stolen. The answer is true.
    ///
    /// # Errors
    /// As those of `lock`.
    pub fn steal(
        &mut self,
        alloc: Global,
        session: SessionId,
        name: &Text,
    ) -> Result<bool, LockError>
        ensures answer { AnswersAs Asking.Steal session name.now self.old result }
        ensures after { OnOk result (Becomes self.old name.now (asked Asking.Steal session (lock_at name.now self.old)) self.new) }
        ensures unchanged { OnErr result (self.new ≡ self.old) }
        ensures ascending { OnOk result (AscendByName self.new) }
    {
        self.ask(alloc, session, name, Asking::Steal)
    }

    /// The session that owns a lock, if one does.
    pub fn owner(&self, name: &Text) -> Option<SessionId>
        ensures value { result ≡ owner (lock_at name.now self.now) }
    {
        self.locks.owner(name)
    }

    /// Takes a session out of the lists of a lock, with what it was owed for it. If it was the owner, the next one is, and is
    /// owed the notice of it.
    ///
    /// # Errors
    /// `NeverAsked` where it stands in neither list; the table is then as it was.
    pub fn unlock(&mut self, session: SessionId, name: &Text) -> Result<(), NeverAsked>
        ensures ok { OnOk result (stands session (lock_at name.now self.old) ≡ true) }
        ensures after { OnOk result (Becomes self.old name.now (without session (lock_at name.now self.old)) self.new) }
        ensures never { OnErr result (stands session (lock_at name.now self.old) ≡ false) }
        ensures unchanged { OnErr result (self.new ≡ self.old) }
        ensures ascending { OnOk result (AscendByName self.new) }
        // Where the last session left, the name is gone.
        ensures none_idle { OnOk result (NoneIdle self.new) }
    {
        if !self.locks.stands(session, name) {
            return Err(NeverAsked);
        }
        self.leave(session, name);
        Ok(())
    }

    // Takes a session out of both lists of a lock.
    fn leave(&mut self, session: SessionId, name: &Text)
        ensures after { Becomes self.old name.now (without session (lock_at name.now self.old)) self.new }
        ensures ascending { AscendByName self.new }
        ensures none_idle { NoneIdle self.new }
    {
        self.locks.leave(session, name);
        remark(&self.locks, &mut self.sessions, session, name);
        let next = self.locks.owner(name);
        remark_any(&self.locks, &mut self.sessions, next, name);
    }

    /// Takes a session out of all lists, with what it was owed; locks that it owned have their next owner.
    pub fn end_session(&mut self, session: SessionId)
        ensures after { AllBecome self.old (without session) self.new }
        ensures gone { (name : List ℕ) → stands session (lock_at name self.new) ≡ false }
        ensures nothing { owed_to session self.new ≡ [] }
        ensures ascending { AscendByName self.new }
        ensures none_idle { NoneIdle self.new }
    {
        let Some(names) = self.sessions.take(session) else {
            return;
        };
        leave_all(&mut self.locks, &mut self.sessions, session, &names);
    }

    /// What a session is owed and wasn't told, by the names of the locks, ascending; of one lock that it had it before that
    /// it was stolen. The session is owed nothing then.
    ///
    /// # Errors
    /// `NoMemory` alone; the session is then owed what it was.
    pub fn notices(
        &mut self,
        alloc: Global,
        session: SessionId,
    ) -> Result<Vec<LockNotice>, NoMemory>
        ensures told { IfOk result (λ notices. notices.items ≡ owed_to session self.old) }
        // The locks stand in the order of their names.
        ensures by_name { AscendByName self.old }
        ensures ascending { OnOk result (AscendByName self.new) }
        ensures after { OnOk result (AllBecome self.old (after_telling session) self.new) }
        ensures nothing { OnOk result (owed_to session self.new ≡ []) }
        ensures unchanged { OnErr result (self.new ≡ self.old) }
    {
        let notices = self.locks.owed(alloc, session)?;
        self.locks.note_told(session);
        self.sessions.note_told(session);
        Ok(notices)
    }

    /// The first notice of what a session is owed, which it still is then; `None` where it is owed nothing.
    ///
    /// # Errors
    /// `NoMemory` alone.
    pub fn first_notice(&self, session: SessionId) -> Result<Option<LockNotice>, NoMemory>
        ensures value { IfOk result (λ notice. notice ≡ slice_get (owed_to session self.now) 0) }
        ensures by_name { AscendByName self.now }
        ensures none_idle { NoneIdle self.now }
    {
        let Some(names) = self.sessions.owed(session) else {
            return Ok(None);
        };
        for (name, owed) in names.iter() {
            if *owed {
                let notice = self.locks.first_notice(session, name)?;
                if notice.is_some() {
                    return Ok(notice);
                }
            }
        }
        Ok(None)
    }

    // Notes that a session was told the first notice that it was owed for a lock.
    fn note_one_told(&mut self, session: SessionId, name: &Text)
        ensures after { ChangesAt name.now (after_one session) self.old self.new }
        ensures ascending { AscendByName self.new }
    {
        self.locks.note_one_told(session, name);
        remark(&self.locks, &mut self.sessions, session, name);
    }

    /// The first of what `notices` would give, which the session is owed no more then; `None` where it is owed nothing
    /// (RFC 7047 sections 4.1.9 and 4.1.10). The session is owed the rest, each other session what it was, and no lock
    /// changes its owner or who stands in its lists.
    ///
    /// # Errors
    /// `NoMemory` alone; the session is then owed what it was.
    pub fn next_notice(&mut self, session: SessionId) -> Result<Option<LockNotice>, NoMemory>
        ensures told { IfOk result (λ notice. notice ≡ slice_get (owed_to session self.old) 0) }
        ensures by_name { AscendByName self.old }
        ensures ascending { OnOk result (AscendByName self.new) }
        ensures rest { OnOk result (owed_to session self.new ≡ drop 1 (owed_to session self.old)) }
        ensures others { OnOk result ((other : ℕ) → other ≢ session → owed_to other self.new ≡ owed_to other self.old) }
        ensures stands { OnOk result (KeepsSessions self.old self.new) }
        ensures unchanged { OnErr result (self.new ≡ self.old) }
    {
        let Some(notice) = self.first_notice(session)? else {
            return Ok(None);
        };
        self.note_one_told(session, notice.name());
        Ok(Some(notice))
    }
}
