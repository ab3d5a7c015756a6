//! Sessions that asked for a lock.

ghost use Rattle.std.specs.Prelude.{◌≡◌};
ghost use Rattle.ovs_locks.specs.Lock.{after_theft, waiter, told_one, is_due, after_first, awaits, told_first};

use ovs_json::SessionId;

/// What a session is owed for a lock: it happened, and the session wasn't told yet.
#[derive(Clone, Copy, Debug, PartialEq, Eq)]
pub enum PendingNotice {
    /// The session knows all.
    Nothing,
    /// That it owns the lock.
    Locked,
    /// That the lock was stolen from it.
    Stolen,
    /// That it owned the lock, and that the lock was stolen from it.
    LockedAndStolen,
}

impl PendingNotice {
    // The same, and that the lock was stolen.
    fn after_theft(self) -> PendingNotice
        ensures value { result ≡ after_theft self }
    {
        match self {
            PendingNotice::Nothing | PendingNotice::Stolen => PendingNotice::Stolen,
            PendingNotice::Locked | PendingNotice::LockedAndStolen =>
                PendingNotice::LockedAndStolen,
        }
    }

    /// Whether anything is owed.
    pub(crate) fn is_due(self) -> bool
        ensures value { result ≡ is_due self }
    {
        !matches!(self, PendingNotice::Nothing)
    }

    // The rest, once the first notice is told.
    fn after_first(self) -> PendingNotice
        ensures value { result ≡ after_first self }
    {
        match self {
            PendingNotice::Nothing | PendingNotice::Locked | PendingNotice::Stolen =>
                PendingNotice::Nothing,
            PendingNotice::LockedAndStolen => PendingNotice::Stolen,
        }
    }
}

/// A session that asked for a lock.
#[derive(Clone, Copy, Debug, PartialEq, Eq)]
pub struct Waiter {
    pub session: SessionId,
    pub owed: PendingNotice,
}

impl Waiter {
    /// A session that is owed nothing.
    pub(crate) fn new(session: SessionId) -> Waiter
        ensures value { result ≡ waiter session }
    {
        Waiter {
            session,
            owed: PendingNotice::Nothing,
        }
    }

    /// The owner from whom the lock is stolen.
    pub(crate) fn robbed(self) -> Waiter
        ensures value { result ≡ record { session = self.session; owed = after_theft self.owed } }
    {
        Waiter {
            session: self.session,
            owed: self.owed.after_theft(),
        }
    }

    /// The same, owed nothing where it is this session.
    pub(crate) fn told(self, session: SessionId) -> Waiter
        ensures value { result ≡ told_one session self }
    {
        if self.session == session {
            Waiter::new(session)
        } else {
            self
        }
    }

    /// Whether it is this session, and is owed something.
    pub(crate) fn awaits(self, session: SessionId) -> bool
        ensures value { result ≡ awaits session self }
    {
        self.session == session && self.owed.is_due()
    }

    /// The same, told the first notice that it is owed.
    pub(crate) fn told_first(self) -> Waiter
        ensures value { result ≡ told_first self }
    {
        Waiter {
            session: self.session,
            owed: self.owed.after_first(),
        }
    }
}

/// How a session asks for a lock.
#[derive(Clone, Copy, Debug, PartialEq, Eq)]
pub enum Asking {
    /// After those that asked before.
    Lock,
    /// In the place of the owner.
    Steal,
}
