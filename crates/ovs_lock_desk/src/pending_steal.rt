//! Steals that are answered later than they are asked for.

ghost use Rattle.std.specs.Prelude.{◌≡◌, ◌++◌, OnOk, IfOk, map, filter, slice_get, option_copied};
ghost use Rattle.std.specs.List.{list_any};
ghost use Rattle.ovs_lock_desk.specs.PendingSteal.{is_open, is_won, is_of, is_own_open, late_of, open_session, is_due_late, without_one, without_due, settled_one, settled, without_late};
ghost use Rattle.ovs_lock_desk.specs.LockDesk.{told_of};

use crate::desk_notice::DeskNotice;
use ovs_json::{NoMemory, SessionId};
use ovs_wire::Id;

/// What became of a steal.
#[derive(Clone, Copy, Debug, PartialEq, Eq)]
pub enum StealOutcome {
    /// The source gave the lock.
    Won,
    /// The source was lost first.
    SourceLost,
    /// The source refused it.
    Refused,
}

/// A steal whose answer wasn't told. It enters the desk's list when it is asked for, so that its answer takes no memory.
#[derive(Debug, Drop)]
pub struct PendingSteal {
    /// The session that asked.
    pub session: SessionId,
    /// The id of its request.
    pub id: Id,
    /// What became of it, where that is known.
    pub outcome: Option<StealOutcome>,
}

impl PendingSteal {
    /// A steal that was asked for now.
    pub(crate) fn new(session: SessionId, id: Id) -> PendingSteal
        ensures value { result ≡ late_of session id }
    {
        PendingSteal {
            session,
            id,
            outcome: None,
        }
    }

    // Whether the answer isn't known yet.
    fn is_open(&self) -> bool
        ensures value { result ≡ is_open self.now }
    {
        self.outcome.is_none()
    }

    // Whether the source gave the lock for it.
    fn is_won(&self) -> bool
        ensures value { result ≡ is_won self.now.outcome }
    {
        match self.outcome {
            Some(StealOutcome::Won) => true,
            Some(StealOutcome::SourceLost | StealOutcome::Refused) | None => false,
        }
    }

    // The same, of a steal of this session.
    fn is_own_open(&self, session: SessionId) -> bool
        ensures value { result ≡ is_own_open session self.now }
    {
        self.is_open() && self.session == session
    }

    // Whether the answer is known, and owed to this session.
    fn is_due(&self, session: SessionId) -> bool
        ensures value { result ≡ is_due_late session self.now }
    {
        !self.is_open() && self.session == session
    }

    // How its answer is told.
    fn told(&self) -> Result<DeskNotice, NoMemory>
        ensures value { IfOk result (λ notice. notice ≡ told_of self.now) }
    {
        Ok(DeskNotice::Answered {
            id: self.id.copy()?,
            stole: self.is_won(),
        })
    }

    // Answers it, unless it is answered.
    fn settle(&mut self, outcome: StealOutcome)
        ensures value { self.new ≡ settled_one outcome self.old }
    {
        if self.is_open() {
            self.outcome = Some(outcome);
        }
    }
}

/// Whether the answer of some steal isn't known yet.
pub(crate) fn is_any_open(late: &[PendingSteal]) -> bool
    ensures value { result ≡ list_any is_open late.now }
{
    late.iter().any(|one| one.is_open())
}

/// Whether one of them is of this session.
pub(crate) fn is_any_of(late: &[PendingSteal], session: SessionId) -> bool
    ensures value { result ≡ list_any (is_of session) late.now }
{
    late.iter().any(|one| one.session == session)
}

/// Whether the answer of a steal of this session isn't known yet.
pub(crate) fn is_any_own_open(late: &[PendingSteal], session: SessionId) -> bool
    ensures value { result ≡ list_any (is_own_open session) late.now }
{
    late.iter().any(|one| one.is_own_open(session))
}

/// The session of the first steal that isn't answered.
pub(crate) fn open_session(late: &[PendingSteal]) -> Option<SessionId>
    ensures value { result ≡ open_session late.now }
{
    for one in late {
        if one.is_open() {
            return Some(one.session);
        }
    }
    None
}

/// Answers each steal that isn't answered.
pub(crate) fn settle(late: &mut [PendingSteal], outcome: StealOutcome)
    ensures value { late.new ≡ settled outcome late.old }
{
    for one in late.iter_mut() {
        one.settle(outcome);
    }
}

/// Drops the steals of a session, answered or not.
pub(crate) fn drop_late(late: &mut Vec<PendingSteal>, session: SessionId)
    ensures value { late.new.items ≡ without_late session late.old.items }
{
    late.retain(|one| one.session != session);
}

/// The first answer that a session is owed.
pub(crate) fn first_answer(late: &[PendingSteal], session: SessionId) -> Option<&PendingSteal>
    ensures value { option_copied result ≡ slice_get (filter (is_due_late session) late.now) 0 }
{
    for one in late {
        if one.is_due(session) {
            return Some(one);
        }
    }
    None
}

/// Adds the answers that a session is owed.
pub(crate) fn add_answers(
    late: &[PendingSteal],
    session: SessionId,
    owed: &mut Vec<DeskNotice>,
) -> Result<(), NoMemory>
    ensures value { OnOk result (owed.new.items ≡ owed.old.items ++ map told_of (filter (is_due_late session) late.now)) }
{
    for one in late {
        if one.is_due(session) {
            owed.push(one.told()?)?;
        }
    }
    Ok(())
}

/// Drops the first answer that a session is owed.
pub(crate) fn drop_answer(late: &mut Vec<PendingSteal>, session: SessionId)
    ensures value { late.new.items ≡ without_one (is_due_late session) late.old.items }
{
    for at in 0..late.len() {
        if late[at].is_due(session) {
            let _ = late.remove(at);
            return;
        }
    }
}

/// Drops the answers that a session is owed.
pub(crate) fn drop_answers(late: &mut Vec<PendingSteal>, session: SessionId)
    ensures value { late.new.items ≡ without_due session late.old.items }
{
    late.retain(|one| !one.is_due(session));
}

/// Whether a session is owed an answer.
pub(crate) fn is_any_due(late: &[PendingSteal], session: SessionId) -> bool
    ensures value { result ≡ list_any (is_due_late session) late.now }
{
    late.iter().any(|one| one.is_due(session))
}
