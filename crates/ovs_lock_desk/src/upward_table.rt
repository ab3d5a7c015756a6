//! The locks of a relay's desk, with what is due upward for them and what went up.

ghost use Rattle.std.specs.Prelude.{◌≡◌, [], true, OnOk, OnErr, option_map};
ghost use Rattle.ovs_lock_desk.specs.LockState.{verb_due};
ghost use Rattle.ovs_lock_desk.specs.RelayLock.{step, refusal, asked_here, enters, AnswersBy, MayHappen};
ghost use Rattle.ovs_lock_desk.specs.LockDesk.{IsDeskTable, AreNamed, AreMarked, relay_lock_at, ChangesAt, stepped, SendsFirst, first_due_up, is_sent_at};
ghost use Rattle.ovs_lock_desk.specs.UpwardTable.{AreRequested, AreOpen, AreStolenByOne, OthersOpen, ListsDue, ListsOtherDue};

use crate::desk_table::DeskTable;
use crate::due_names::DueNames;
use crate::error::DeskError;
use crate::lock_state::{LockEvent, LockReply, LockVerb};
use crate::open_requests::OpenRequests;
use crate::owed_marks::at_each;
use ovs_json::{NoMemory, SessionId, Text};
use ovs_locks::BySession;
use ovs_wire::Id;
use std::alloc::Global;
use std::marker::Model;

/// The locks of a relay's desk, by name, with the names of those for which something is due upward, and of those that were
/// asked for under each number.
#[derive(Drop)]
pub(crate) struct UpwardTable {
    table: DeskTable,
    requests: OpenRequests,
    due: DueNames,
}

impl Model for UpwardTable {
    ghost use Rattle.ovs_lock_desk.specs.contracts.desk_table.DeskTable as table_row;
    ghost use Rattle.ovs_lock_desk.specs.LockDesk.{RelayLocks};
    ghost use Rattle.ovs_lock_desk.specs.UpwardTable.{IsUpwardTable};

    ghost Value = { RelayLocks };

    ghost coded = { table_row.the_row.coded };

    ghost view = { λ t. t.table };

    ghost invariant = { λ t. IsUpwardTable t.table t.requests t.due };
}

// Whether something is due for the lock of this name, which may have changed.
fn note_due(table: &DeskTable, due: &mut DueNames, name: &Text)
    requires others { ListsOtherDue name.now table.now due.old }
    ensures listed { ListsDue table.now due.new }
{
    due.note(name, table.verb_due(name).is_some());
}

// The request of this number for the lock of this name isn't open any more, if it was answered or given up.
fn note_open(table: &DeskTable, requests: &mut OpenRequests, number: Option<u64>, name: &Text)
    requires requested { AreRequested table.now requests.old }
    requires others { OthersOpen number name.now table.now requests.old }
    ensures requested { AreRequested table.now requests.new }
    ensures only_open { AreOpen table.now requests.new }
{
    if let Some(number) = number {
        if !table.is_sent(number, name) {
            requests.close(number, name);
        }
    }
}

impl UpwardTable {
    /// Nobody asked for a lock.
    pub(crate) fn new(alloc: Global) -> UpwardTable
        ensures value { result ≡ [] }
    {
        UpwardTable {
            table: DeskTable::new(alloc),
            requests: OpenRequests::new(),
            due: DueNames::new(alloc),
        }
    }

    /// The locks.
    pub(crate) fn locks(&self) -> &DeskTable
        ensures value { result.now ≡ self.now }
        ensures table { IsDeskTable self.now }
        ensures by_one { AreStolenByOne self.now }
    {
        &self.table
    }

    /// A session asks for the lock of this name, or steals it.
    pub(crate) fn enter(
        &mut self,
        alloc: Global,
        has_source: bool,
        verb: LockVerb,
        session: SessionId,
        name: &Text,
        id: &Id,
    ) -> Result<Option<bool>, DeskError>
        requires enters { enters verb ≡ true }
        ensures answer { AnswersBy (refusal has_source verb session (relay_lock_at name.now self.old)) verb (relay_lock_at name.now self.old) result }
        ensures after { OnOk result (ChangesAt name.now (asked_here has_source session verb id.now) self.old self.new) }
        ensures unchanged { OnErr result (self.new ≡ self.old) }
        ensures table { OnOk result (IsDeskTable self.new) }
    {
        let number = self.table.open_number(name);
        let answer = self
            .table
            .enter(alloc, has_source, verb, session, name, id)?;
        note_open(&self.table, &mut self.requests, number, name);
        note_due(&self.table, &mut self.due, name);
        Ok(answer)
    }

    /// What an event makes of the lock of this name, but that something went up for it.
    pub(crate) fn at(&mut self, name: &Text, event: LockEvent)
        requires may { MayHappen event (relay_lock_at name.now self.old) }
        ensures after { ChangesAt name.now (step event) self.old self.new }
        ensures table { IsDeskTable self.new }
    {
        let number = self.table.open_number(name);
        self.table.at(name, event);
        note_open(&self.table, &mut self.requests, number, name);
        note_due(&self.table, &mut self.due, name);
    }

    /// A session ends. The locks with which it has to do are among those of its names.
    pub(crate) fn ended(&mut self, session: SessionId, sessions: &BySession)
        requires named { AreNamed self.old sessions.now }
        ensures after { self.new ≡ stepped (LockEvent.Ended session) self.old }
        ensures table { IsDeskTable self.new }
    {
        // What holds of every table holds of this one before its locks change.
        let _ = &self.table;
        let Some(names) = sessions.names(session) else {
            return;
        };
        for (name, _mark) in names.iter() {
            self.at(name, LockEvent::Ended(session));
        }
    }

    /// A session is told all that it is owed.
    pub(crate) fn all_told(&mut self, session: SessionId)
        ensures after { self.new ≡ stepped (LockEvent.AllTold session) self.old }
        ensures table { IsDeskTable self.new }
    {
        self.table.each(LockEvent::AllTold(session));
    }

    /// The source is lost: nothing is due then, and no request is open.
    pub(crate) fn lost(&mut self)
        ensures after { self.new ≡ stepped LockEvent.Lost self.old }
        ensures table { IsDeskTable self.new }
    {
        self.table.each(LockEvent::Lost);
        self.requests.clear();
        self.due.clear();
    }

    /// There is a source again, of which nothing was asked yet.
    pub(crate) fn found(&mut self)
        ensures after { self.new ≡ stepped LockEvent.Found self.old }
        ensures table { IsDeskTable self.new }
    {
        self.table.each(LockEvent::Found);
        self.requests.clear();
        self.table.list_due(&mut self.due);
    }

    /// What is due upward first, of the least name that has something due.
    pub(crate) fn due(&self) -> Option<(&Text, LockVerb)>
        ensures value { option_map (λ d. (d.0.now, d.1)) result ≡ first_due_up self.now }
        ensures table { IsDeskTable self.now }
    {
        if !self.due.is_whole() {
            return self.table.due();
        }
        for name in self.due.names().iter() {
            if let Some(verb) = self.table.verb_due(name) {
                return Some((name, verb));
            }
        }
        None
    }

    /// What is due first, of the least name that has something due, went up under this number.
    ///
    /// # Errors
    /// `NoMemory` alone; nothing is changed then.
    pub(crate) fn sent(&mut self, alloc: Global, number: u64) -> Result<(), NoMemory>
        ensures after { OnOk result (SendsFirst number self.old self.new) }
        ensures table { IsDeskTable self.new }
        ensures unchanged { OnErr result (self.new ≡ self.old) }
    {
        if !self.due.is_whole() {
            self.table.list_due(&mut self.due);
        }
        let Some((name, verb)) = self.due() else {
            return Ok(());
        };
        let name = name.copy()?;
        self.send(alloc, number, &name, verb)
    }

    // This, which is due first for the lock of this name, goes up under this number.
    fn send(
        &mut self,
        alloc: Global,
        number: u64,
        name: &Text,
        verb: LockVerb,
    ) -> Result<(), NoMemory>
        requires due { verb_due (relay_lock_at name.now self.old).state ≡ Some verb }
        ensures after { OnOk result (ChangesAt name.now (step (LockEvent.Sent number)) self.old self.new) }
        ensures table { IsDeskTable self.new }
        ensures unchanged { OnErr result (self.new ≡ self.old) }
    {
        self.requests.note_sent(alloc, number, name, verb)?;
        self.table.at(name, LockEvent::Sent(number));
        note_due(&self.table, &mut self.due, name);
        Ok(())
    }

    /// Whether a request of this number isn't answered.
    pub(crate) fn is_sent(&self, number: u64) -> bool
        ensures value { result ≡ is_sent_at number self.now }
    {
        let Some(names) = self.requests.names(number) else {
            return false;
        };
        for (name, _mark) in names.iter() {
            if self.table.is_sent(number, name) {
                return true;
            }
        }
        false
    }

    /// The request of this number was answered so. The marks of the sessions follow.
    pub(crate) fn answered(&mut self, number: u64, reply: LockReply, sessions: &mut BySession)
        requires named { AreNamed self.old sessions.old }
        requires marked { AreMarked self.old sessions.old }
        ensures after { self.new ≡ stepped (LockEvent.Answered number reply) self.old }
        ensures table { IsDeskTable self.new }
        ensures named { AreNamed self.new sessions.new }
        ensures marked { AreMarked self.new sessions.new }
    {
        let Some(names) = self.requests.take(number) else {
            return;
        };
        let event = LockEvent::Answered(number, reply);
        at_each(&mut self.table, sessions, &names, event);
    }
}
