//! What the calls of this crate refuse.

ghost use Rattle.std.specs.Prelude.{◌≡◌};
ghost use Rattle.ovs_data.specs.Faults.{datum_word};

use ovs_json::NoMemory;
use std::alloc::{AllocError, AllocFailed};
use thiserror::Error;

/// A text that is no id: not 36 characters in the form of RFC 7047 section 5.1, as
/// `550e8400-e29b-41d4-a716-446655440000`.
#[derive(Clone, Copy, Debug, PartialEq, Eq, Error)]
#[error("not a UUID of 36 characters")]
pub struct BadId;

/// Why a JSON value is no datum of a column. The faults stand in the order in which they are looked
/// for; `WrongKind` and `NotInteger` are found together, from left to right.
#[derive(Clone, Copy, Debug, PartialEq, Eq, Error)]
pub enum DatumError {
    /// A list that begins with "set" or "map" and isn't the form of the column's sets or maps, or
    /// anything but a map for a column of maps.
    #[error("not the shape of this column")]
    WrongShape,
    /// A value, an element, a key or a pair's value that isn't an atom of the column's kind.
    #[error("not an atom of this kind")]
    WrongKind,
    /// A number that isn't an integer of 64 bits, where an integer belongs.
    #[error("not an integer of 64 bits")]
    NotInteger,
    /// An element or a key that stands twice.
    #[error("an element or a key stands twice")]
    Duplicate,
    /// More or fewer elements than a column of one element admits.
    #[error("too few or too many elements")]
    WrongCount,
    /// A name that stands for no id, told where names are read alone; found together with `WrongKind`.
    #[error("no such name")]
    UnknownName,
    /// Memory ran out, at any time: whether the value has a fault is not said.
    #[error("out of memory")]
    NoMemory,
}

impl DatumError {
    /// The word for it.
    pub fn word(self) -> &'static str
        ensures text { result.now ≡ datum_word self }
    {
        match self {
            DatumError::WrongShape => "wrong-shape",
            DatumError::WrongKind => "wrong-kind",
            DatumError::NotInteger => "not-integer",
            DatumError::Duplicate => "duplicate",
            DatumError::WrongCount => "wrong-count",
            DatumError::UnknownName => "unknown-name",
            DatumError::NoMemory => "no-memory",
        }
    }
}

impl From<AllocError> for DatumError {
    ghost use Rattle.std.specs.Prelude.{◌≡◌};
    ghost use Rattle.ovs_data.specs.declared.error.DatumError.TheVariants as faults;

    ghost from_gives = { λ _ e. e ≡ faults.NoMemory };

    fn from(_e: AllocError) -> DatumError {
        DatumError::NoMemory
    }
}

impl<T: Drop> From<AllocFailed<T>> for DatumError {
    ghost use Rattle.std.specs.Prelude.{◌≡◌};
    ghost use Rattle.ovs_data.specs.declared.error.DatumError.TheVariants as faults;

    ghost from_gives = { λ _ e. e ≡ faults.NoMemory };

    fn from(_e: AllocFailed<T>) -> DatumError {
        DatumError::NoMemory
    }
}

impl From<NoMemory> for DatumError {
    ghost use Rattle.std.specs.Prelude.{◌≡◌};
    ghost use Rattle.ovs_data.specs.declared.error.DatumError.TheVariants as faults;

    ghost from_gives = { λ _ e. e ≡ faults.NoMemory };

    fn from(_e: NoMemory) -> DatumError {
        DatumError::NoMemory
    }
}
