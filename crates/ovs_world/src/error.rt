//! Why an event is refused.

ghost use Rattle.std.specs.Prelude.{◌≡◌};
ghost use Rattle.ovs_world.specs.Refusals.{world_word};

use ovs_source::{SourceError, TrimError};
use ovs_types::NoMemory;
use ovs_wire::FrameError;
use thiserror::Error;

/// Why an event is refused.
#[derive(Clone, Copy, Debug, PartialEq, Eq, Error)]
pub enum WorldError {
    /// A world has one to nine relays.
    #[error("not one to nine relays")]
    BadCount,
    /// There is no node of this number; or a relay is wanted, and it is the source's; or another node is wanted.
    #[error("no such node")]
    NoSuchNode,
    /// There was no session of this number, or it was cut, or its node's chain began anew and nothing is in flight.
    #[error("no such session")]
    NoSession,
    /// The id is a start id, or that of a link of the source.
    #[error("the id is taken")]
    IdTaken,
    /// Fewer row ids are left than the operations insert rows.
    #[error("too few row ids are left")]
    RowIdsSpent,
    /// There is no epoch after the source's.
    #[error("no epoch is left")]
    EpochsSpent,
    /// A store has no room for another link.
    #[error("the store is full")]
    Full,
    /// An operation may change the database.
    #[error("an operation that doesn't only read")]
    NotReadOnly,
    /// A message between two nodes is above the limits.
    #[error("a message that is too large")]
    TooLarge,
    /// Memory ran out.
    #[error("out of memory")]
    NoMemory,
}

impl WorldError {
    /// The word for it.
    pub fn word(self) -> &'static str
        ensures text { result.now ≡ world_word self }
    {
        match self {
            WorldError::BadCount => "bad-count",
            WorldError::NoSuchNode => "no-such-node",
            WorldError::NoSession => "no-session",
            WorldError::IdTaken => "id-taken",
            WorldError::RowIdsSpent => "row-ids-spent",
            WorldError::EpochsSpent => "epochs-spent",
            WorldError::Full => "full",
            WorldError::NotReadOnly => "not-read-only",
            WorldError::TooLarge => "too-large",
            WorldError::NoMemory => "no-memory",
        }
    }
}

impl From<NoMemory> for WorldError {
    ghost use Rattle.std.specs.Prelude.{◌≡◌};
    ghost use Rattle.ovs_world.specs.declared.error.WorldError.TheVariants as errors;

    ghost from_gives = { λ _ e. e ≡ errors.NoMemory };

    fn from(_e: NoMemory) -> WorldError {
        WorldError::NoMemory
    }
}

impl From<FrameError> for WorldError {
    ghost use Rattle.std.specs.Prelude.{◌≡◌};
    ghost use Rattle.ovs_world.specs.Refusals.{refusal_of};

    ghost from_gives = { λ fault e. e ≡ refusal_of fault };

    fn from(fault: FrameError) -> WorldError {
        match fault {
            FrameError::NoMemory => WorldError::NoMemory,
            FrameError::NotObject | FrameError::TooDeep | FrameError::TooLong => {
                WorldError::TooLarge
            }
        }
    }
}

impl From<SourceError> for WorldError {
    ghost use Rattle.std.specs.Prelude.{◌≡◌};
    ghost use Rattle.ovs_world.specs.Refusals.{refusal_of_source};

    ghost from_gives = { λ error e. e ≡ refusal_of_source error };

    fn from(error: SourceError) -> WorldError {
        match error {
            SourceError::IdTaken => WorldError::IdTaken,
            SourceError::RowIdsSpent => WorldError::RowIdsSpent,
            SourceError::Full => WorldError::Full,
            SourceError::NoMemory => WorldError::NoMemory,
        }
    }
}

impl From<TrimError> for WorldError {
    ghost use Rattle.std.specs.Prelude.{◌≡◌};
    ghost use Rattle.ovs_world.specs.Refusals.{refusal_of_trim};

    ghost from_gives = { λ error e. e ≡ refusal_of_trim error };

    fn from(error: TrimError) -> WorldError {
        match error {
            TrimError::IdTaken => WorldError::IdTaken,
            TrimError::EpochsSpent => WorldError::EpochsSpent,
            TrimError::Full => WorldError::Full,
            TrimError::NoMemory => WorldError::NoMemory,
        }
    }
}
