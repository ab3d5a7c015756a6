//! For which locks each session may be owed something: the marks of its names.

ghost use Rattle.std.specs.Prelude.{◌≡◌, ℕ, List, Some, None, true};
ghost use Rattle.ovs_locks.specs.BySession.{Remarks, RemarksAny, mark_in};
ghost use Rattle.ovs_lock_desk.specs.RelayLock.{step};
ghost use Rattle.ovs_lock_desk.specs.LockDesk.{IsDeskTable, AreNamed, AreMarked, relay_lock_at, stepped};
ghost use Rattle.ovs_lock_desk.specs.OwedMarks.{desk_mark, if_owed, near_of, AreOthersMarked, AreMarkedButOwners};
ghost use Rattle.ovs_lock_desk.specs.UpwardTable.{AreStolenByOne};

use crate::desk_table::DeskTable;
use crate::lock_state::LockEvent;
use ovs_json::{SessionId, Text};
use ovs_locks::BySession;
use std::collections::BTreeMap;

/// Who may be owed something by what happens to a lock: its owner, who may be robbed, and the session whose steal isn't
/// answered. Beside these only the next owner may.
#[derive(Clone, Copy)]
pub(crate) struct Near {
    owner: Option<SessionId>,
    stealer: Option<SessionId>,
}

impl Near {
    /// Those of the lock of this name.
    pub(crate) fn of(table: &DeskTable, name: &Text) -> Near
        ensures value { result ≡ near_of (relay_lock_at name.now table.now) }
    {
        Near {
            owner: table.owner(name),
            stealer: table.open_session(name),
        }
    }
}

/// Writes what a session is owed for this lock now, or takes the name out where it has nothing to do with the lock.
pub(crate) fn remark(table: &DeskTable, sessions: &mut BySession, session: SessionId, name: &Text)
    ensures marks { Remarks (λ x. desk_mark x (relay_lock_at name.now table.now)) session name.now sessions.old sessions.new }
{
    let mark = table.mark(session, name);
    sessions.note(session, name, mark);
}

/// Marks that a session may be owed something for the lock of this name, if it has the name.
pub(crate) fn mark_any(sessions: &mut BySession, session: Option<SessionId>, name: &Text)
    ensures marks { RemarksAny (λ x. Some true) session name.now sessions.old sessions.new }
{
    if let Some(session) = session {
        sessions.note(session, name, Some(true));
    }
}

// Marks a session that is owed something for this lock. Where it is owed nothing nothing is written, since that would go over
// all its names.
fn mark_owed(table: &DeskTable, sessions: &mut BySession, session: Option<SessionId>, name: &Text)
    ensures marks { RemarksAny (λ x. Some true) (if_owed session (relay_lock_at name.now table.now)) name.now sessions.old sessions.new }
{
    let owed = session.filter(|session| table.owes(*session, name));
    mark_any(sessions, owed, name);
}

/// Marks those of the sessions near to this lock before it changed, and its owner, that are owed something for it.
pub(crate) fn mark_near(table: &DeskTable, sessions: &mut BySession, near: Near, name: &Text)
    requires named { AreNamed table.now sessions.old }
    requires marked { AreOthersMarked near name.now table.now sessions.old }
    ensures named { AreNamed table.now sessions.new }
    ensures marked { AreMarked table.now sessions.new }
{
    mark_owed(table, sessions, near.owner, name);
    mark_owed(table, sessions, near.stealer, name);
    let next = table.owner(name);
    mark_owed(table, sessions, next, name);
}

/// Marks the owners of the locks of these names, where they are owed something for them.
pub(crate) fn mark_owners(table: &DeskTable, sessions: &mut BySession, names: &BTreeMap<Text, bool>)
    requires named { AreNamed table.now sessions.old }
    requires marked { AreMarkedButOwners names.now.entries table.now sessions.old }
    ensures named { AreNamed table.now sessions.new }
    ensures marked { AreMarked table.now sessions.new }
{
    for (name, _mark) in names.iter() {
        let owner = table.owner(name);
        mark_owed(table, sessions, owner, name);
    }
}

/// What an event makes of the locks of these names, where it makes nothing of any other, and of the marks.
pub(crate) fn at_each(
    table: &mut DeskTable,
    sessions: &mut BySession,
    names: &BTreeMap<Text, bool>,
    event: LockEvent,
)
    requires others { (name : List ℕ) → mark_in name names.now.entries ≡ None → step event (relay_lock_at name table.old) ≡ relay_lock_at name table.old }
    requires table { IsDeskTable table.old }
    requires by_one { AreStolenByOne table.old }
    requires named { AreNamed table.old sessions.old }
    requires marked { AreMarked table.old sessions.old }
    ensures after { table.new ≡ stepped event table.old }
    ensures table { IsDeskTable table.new }
    ensures named { AreNamed table.new sessions.new }
    ensures marked { AreMarked table.new sessions.new }
{
    for (name, _mark) in names.iter() {
        let near = Near::of(table, name);
        table.at(name, event);
        mark_near(table, sessions, near, name);
    }
}
