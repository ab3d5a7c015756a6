//! Why no new epoch begins.

use ovs_types::NoMemory;
use thiserror::Error;

/// Why no new epoch begins. The source is then as it was.
#[derive(Clone, Copy, Debug, PartialEq, Eq, Error)]
pub enum TrimError {
    /// The id is a start id, or that of a held link.
    #[error("the id is taken")]
    IdTaken,
    /// The epoch is the last that there can be, that of the start id 2^64 - 1.
    #[error("no epoch is left")]
    EpochsSpent,
    /// The store has no room for another link.
    #[error("the store is full")]
    Full,
    /// Memory ran out.
    #[error("out of memory")]
    NoMemory,
}

impl From<NoMemory> for TrimError {
    ghost use Rattle.std.specs.Prelude.{◌≡◌};
    ghost use Rattle.ovs_source.specs.declared.trim_error.TrimError.TheVariants as errors;

    ghost from_gives = { λ _ e. e ≡ errors.NoMemory };

    fn from(_e: NoMemory) -> TrimError {
        TrimError::NoMemory
    }
}
