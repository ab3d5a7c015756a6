//! Why a call is refused.

use ovs_json::NoMemory;
use thiserror::Error;

/// Why a lock wasn't asked for.
#[derive(Clone, Copy, Debug, PartialEq, Eq, Error)]
pub enum LockError {
    /// The name is no `<id>` (RFC 7047 section 3.1), or is `_none`, which no session holds.
    #[error("bad lock")]
    BadLock,
    /// The session asked for the lock already, and hasn't unlocked it since.
    #[error("already asked")]
    AlreadyAsked,
    /// The session stands in the lists of 1,024 locks.
    #[error("too many requests")]
    TooMany,
    /// Memory ran out.
    #[error("out of memory")]
    NoMemory,
}

impl From<NoMemory> for LockError {
    ghost use Rattle.std.specs.Prelude.{◌≡◌};
    ghost use Rattle.ovs_locks.specs.declared.error.LockError.TheVariants as faults;

    ghost from_gives = { λ _ e. e ≡ faults.NoMemory };

    fn from(_e: NoMemory) -> LockError {
        LockError::NoMemory
    }
}

/// The session didn't ask for the lock, or has unlocked it since.
#[derive(Clone, Copy, Debug, PartialEq, Eq, Error)]
#[error("never asked")]
pub struct NeverAsked;
