//! Why a JSON value is no schema.

ghost use Rattle.std.specs.Prelude.{◌≡◌};
ghost use Rattle.ovs_types.specs.SchemaFaults.{rank, schema_word};

use ovs_json::{NoMemory, Ranked};
use std::alloc::AllocError;
use thiserror::Error;

/// Why a JSON value is no schema (RFC 7047 section 3.2). Where it has several faults, wherever they
/// stand in the value, the answer is the one that is first in this order.
#[derive(Clone, Copy, Debug, PartialEq, Eq, Error)]
pub enum SchemaError {
    /// A part that has to be there is absent, or a part other than "min" and "max" is not of the JSON
    /// type or not the word that it has to be.
    #[error("not of a schema's shape")]
    BadShape,
    /// The name of the database is no `<id>`, or that of a table or a column is none or begins with `_`.
    #[error("a name is no id, or is reserved")]
    BadId,
    /// A column holds the atomic type "real".
    #[error("a column of reals")]
    Real,
    /// A "min" other than 0 and 1, or a "max" other than "unlimited" and the integers from 1 to
    /// 2^64 - 1, of whatever JSON type.
    #[error("bounds that are not offered")]
    BadBounds,
    /// Memory ran out; nothing is said of the value.
    #[error("out of memory")]
    NoMemory,
}

impl SchemaError {
    /// The word for it.
    pub fn word(self) -> &'static str
        ensures text { result.now ≡ schema_word self }
    {
        match self {
            SchemaError::BadShape => "bad-shape",
            SchemaError::BadId => "bad-id",
            SchemaError::Real => "real",
            SchemaError::BadBounds => "bad-bounds",
            SchemaError::NoMemory => "no-memory",
        }
    }
}

impl Ranked for SchemaError {
    ghost rank = { rank };

    fn rank(&self) -> u8 {
        match self {
            SchemaError::BadShape => 0,
            SchemaError::BadId => 1,
            SchemaError::Real => 2,
            SchemaError::BadBounds => 3,
            SchemaError::NoMemory => 4,
        }
    }
}

impl From<NoMemory> for SchemaError {
    ghost use Rattle.std.specs.Prelude.{◌≡◌};
    ghost use Rattle.ovs_types.specs.declared.schema.error.SchemaError.TheVariants as faults;

    ghost from_gives = { λ _ e. e ≡ faults.NoMemory };

    fn from(_e: NoMemory) -> SchemaError {
        SchemaError::NoMemory
    }
}

impl From<AllocError> for SchemaError {
    ghost use Rattle.std.specs.Prelude.{◌≡◌};
    ghost use Rattle.ovs_types.specs.declared.schema.error.SchemaError.TheVariants as faults;

    ghost from_gives = { λ _ e. e ≡ faults.NoMemory };

    fn from(_e: AllocError) -> SchemaError {
        SchemaError::NoMemory
    }
}
