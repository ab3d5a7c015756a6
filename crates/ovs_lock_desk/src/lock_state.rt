//! How far a relay's desk has come with its source for one lock.

ghost use Rattle.std.specs.Prelude.{◌≡◌};
ghost use Rattle.ovs_lock_desk.specs.LockState.{is_held, is_sent, is_still, lock_due, steal_due, no_lock_due, as_lock_due, state_locked, state_stolen, state_given_up, state_as_lock, first_verb, verb_due, open_number, due_sent, state_sent};

use ovs_json::SessionId;

/// What a session asks a desk, and a desk its source (RFC 7047 section 4.1.8).
#[derive(Clone, Copy, Debug, PartialEq, Eq)]
pub enum LockVerb {
    /// The lock, after those that asked before.
    Lock,
    /// The lock, in the place of its owner.
    Steal,
    /// To leave its lists.
    Unlock,
}

/// What a source answers to a Lock or Steal.
#[derive(Clone, Copy, Debug, PartialEq, Eq)]
pub enum LockReply {
    /// It gave the lock.
    Given,
    /// Another has the lock, and the desk waits for it in the source's queue.
    Waits,
    /// It refused what was asked, as where it allows one session no more locks.
    Refused,
}

/// What happens to a lock at a desk, but that a session asks for it.
#[derive(Clone, Copy, Debug, PartialEq, Eq)]
pub enum LockEvent {
    /// This session leaves its lists.
    Unlocked(SessionId),
    /// What was due first went up under this number.
    Sent(u64),
    /// The request of this number was answered so.
    Answered(u64, LockReply),
    /// The source tells that the lock is held.
    Granted,
    /// The source tells that the lock was stolen.
    Stolen,
    /// The source is lost.
    Lost,
    /// There is a source again.
    Found,
    /// This session ends.
    Ended(SessionId),
    /// This session is told the first answer that it is owed.
    AnswerTold(SessionId),
    /// This session is told the first notice that it is owed.
    NoticeTold(SessionId),
    /// This session is told all answers and notices that it is owed.
    AllTold(SessionId),
}

/// What a desk has to ask its source for one lock, and hasn't yet.
#[derive(Clone, Copy, Debug, PartialEq, Eq)]
pub enum NextAsk {
    /// Nothing.
    Nothing,
    /// To ask for the lock.
    Lock,
    /// To steal it.
    Steal,
    /// To leave it.
    Unlock,
    /// To leave it, and then to ask for it.
    UnlockLock,
    /// To leave it, and then to steal it.
    UnlockSteal,
}

/// How far a desk has come with its source for one lock. Something can be due in `Idle` alone.
#[derive(Clone, Copy, Debug, PartialEq, Eq)]
pub enum LockState {
    /// No request is under way; this is due.
    Idle(NextAsk),
    /// The source was asked under this number, and hasn't answered.
    Sent(u64),
    /// The source answered that another has the lock.
    Waiting,
    /// The source gave the lock.
    Held,
}

impl NextAsk {
    // A session asks for the lock.
    fn with_lock(self) -> NextAsk
        ensures value { result ≡ lock_due self }
    {
        match self {
            NextAsk::Nothing | NextAsk::Lock => NextAsk::Lock,
            NextAsk::Steal => NextAsk::Steal,
            NextAsk::Unlock | NextAsk::UnlockLock => NextAsk::UnlockLock,
            NextAsk::UnlockSteal => NextAsk::UnlockSteal,
        }
    }

    // A session steals the lock.
    fn with_steal(self) -> NextAsk
        ensures value { result ≡ steal_due self }
    {
        match self {
            NextAsk::Nothing | NextAsk::Lock | NextAsk::Steal => NextAsk::Steal,
            NextAsk::Unlock | NextAsk::UnlockLock | NextAsk::UnlockSteal => NextAsk::UnlockSteal,
        }
    }

    // Nobody asks for the lock any more.
    fn without_lock(self) -> NextAsk
        ensures value { result ≡ no_lock_due self }
    {
        match self {
            NextAsk::Nothing | NextAsk::Lock => NextAsk::Nothing,
            NextAsk::Steal => NextAsk::Steal,
            NextAsk::Unlock | NextAsk::UnlockLock => NextAsk::Unlock,
            NextAsk::UnlockSteal => NextAsk::UnlockSteal,
        }
    }

    // The session that would steal the lock is gone.
    fn as_lock(self) -> NextAsk
        ensures value { result ≡ as_lock_due self }
    {
        match self {
            NextAsk::Nothing => NextAsk::Nothing,
            NextAsk::Lock | NextAsk::Steal => NextAsk::Lock,
            NextAsk::Unlock => NextAsk::Unlock,
            NextAsk::UnlockLock | NextAsk::UnlockSteal => NextAsk::UnlockLock,
        }
    }

    // What is asked first.
    fn first(self) -> Option<LockVerb>
        ensures value { result ≡ first_verb self }
    {
        match self {
            NextAsk::Nothing => None,
            NextAsk::Lock => Some(LockVerb::Lock),
            NextAsk::Steal => Some(LockVerb::Steal),
            NextAsk::Unlock | NextAsk::UnlockLock | NextAsk::UnlockSteal => Some(LockVerb::Unlock),
        }
    }

    // What is asked first went up under this number. No answer to an Unlock is waited for.
    fn sent(self, number: u64) -> LockState
        ensures value { result ≡ due_sent number self }
    {
        match self {
            NextAsk::Nothing | NextAsk::Unlock => LockState::Idle(NextAsk::Nothing),
            NextAsk::Lock | NextAsk::Steal => LockState::Sent(number),
            NextAsk::UnlockLock => LockState::Idle(NextAsk::Lock),
            NextAsk::UnlockSteal => LockState::Idle(NextAsk::Steal),
        }
    }
}

impl LockState {
    /// Whether the source gave the lock, so that the desk may name an owner.
    pub(crate) fn is_held(self) -> bool
        ensures value { result ≡ is_held self }
    {
        matches!(self, LockState::Held)
    }

    /// Whether the request of this number isn't answered.
    pub(crate) fn is_sent(self, number: u64) -> bool
        ensures value { result ≡ is_sent number self }
    {
        match self {
            LockState::Sent(sent) => sent == number,
            _ => false,
        }
    }

    /// The number of the request that isn't answered.
    pub(crate) fn open_number(self) -> Option<u64>
        ensures value { result ≡ open_number self }
    {
        match self {
            LockState::Sent(number) => Some(number),
            _ => None,
        }
    }

    /// Whether nothing is due or under way.
    pub(crate) fn is_still(self) -> bool
        ensures value { result ≡ is_still self }
    {
        matches!(self, LockState::Idle(NextAsk::Nothing))
    }

    /// A session asks for the lock. A request that is under way, or a lock that is held, serves it too.
    pub(crate) fn locked(self) -> LockState
        ensures value { result ≡ state_locked self }
    {
        match self {
            LockState::Idle(due) => LockState::Idle(due.with_lock()),
            _ => self,
        }
    }

    /// A session steals the lock. Where a request went up, the source has the desk in its lists, and an Unlock goes first.
    pub(crate) fn stolen(self) -> LockState
        ensures value { result ≡ state_stolen self }
    {
        match self {
            LockState::Idle(due) => LockState::Idle(due.with_steal()),
            LockState::Sent(_) | LockState::Waiting => LockState::Idle(NextAsk::UnlockSteal),
            LockState::Held => LockState::Held,
        }
    }

    /// Nobody asks for the lock any more. Where a request went up, the desk leaves the source's lists.
    pub(crate) fn given_up(self) -> LockState
        ensures value { result ≡ state_given_up self }
    {
        match self {
            LockState::Idle(due) => LockState::Idle(due.without_lock()),
            LockState::Sent(_) | LockState::Waiting | LockState::Held => LockState::Idle(
                NextAsk::Unlock,
            ),
        }
    }

    /// The session that would steal the lock is gone; others that asked before it still wait.
    pub(crate) fn as_lock(self) -> LockState
        ensures value { result ≡ state_as_lock self }
    {
        match self {
            LockState::Idle(due) => LockState::Idle(due.as_lock()),
            _ => self,
        }
    }

    /// What is due upward first.
    pub(crate) fn due(self) -> Option<LockVerb>
        ensures value { result ≡ verb_due self }
    {
        match self {
            LockState::Idle(due) => due.first(),
            _ => None,
        }
    }

    /// What was due first went up under this number.
    pub(crate) fn sent(self, number: u64) -> LockState
        ensures value { result ≡ state_sent number self }
    {
        match self {
            LockState::Idle(due) => due.sent(number),
            _ => self,
        }
    }
}
