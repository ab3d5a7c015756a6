//! Why a desk refuses what a session asks.

use ovs_json::NoMemory;
use thiserror::Error;

/// Why a desk doesn't do what a session asks.
#[derive(Clone, Copy, Debug, PartialEq, Eq, Error)]
pub enum DeskError {
    /// The name is no `<id>` (RFC 7047 section 3.1), or is `_none`, which no session holds.
    #[error("bad lock")]
    BadLock,
    /// The session asked for the lock already, and hasn't unlocked it since.
    #[error("already asked")]
    AlreadyAsked,
    /// The session didn't ask for the lock, or has unlocked it since.
    #[error("never asked")]
    NeverAsked,
    /// There is no source that could give the lock.
    #[error("source lost")]
    SourceLost,
    /// A steal of the lock isn't answered yet.
    #[error("steal pending")]
    StealPending,
    /// The session stands in the lists of 1,024 locks.
    #[error("too many requests")]
    TooMany,
    /// Memory ran out.
    #[error("out of memory")]
    NoMemory,
}

impl From<NoMemory> for DeskError {
    ghost use Rattle.std.specs.Prelude.{◌≡◌};
    ghost use Rattle.ovs_lock_desk.specs.declared.error.DeskError.TheVariants as faults;

    ghost from_gives = { λ _ e. e ≡ faults.NoMemory };

    fn from(_e: NoMemory) -> DeskError {
        DeskError::NoMemory
    }
}
