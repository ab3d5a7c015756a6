//! What a desk tells a session.

use ovs_locks::LockNotice;
use ovs_wire::Id;

/// What a desk owes a session for a lock that it asked for.
#[derive(Debug, Drop)]
pub enum DeskNotice {
    /// The answer to a steal that wasn't answered when it was asked for.
    Answered {
        /// The id of the session's request.
        id: Id,
        /// Whether the session owns the lock; if not, the source refused it or was lost first.
        stole: bool,
    },
    /// What became of the lock since.
    Lock(LockNotice),
}
