//! The ids of rows: numbers of 128 bits.

ghost use Rattle.std.specs.Prelude.{◌≡◌, ℕ, IfOk, Some, string_bytes};
ghost use Rattle.std.specs.Result.{result_ok};
ghost use Rattle.ovs_data.specs.Id.{read_id, id_text};

use crate::error::BadId;
use crate::hyphenated::{number_text, read_number, write_number};
use ovs_json::NoMemory;
use std::alloc::Global;
use std::marker::Model;

/// The id of a row, which stands in the row's `_uuid` and in references to it.
#[derive(Clone, Copy, Debug, PartialEq, Eq, PartialOrd, Ord, Hash)]
pub struct RowId {
    value: u128,
}

impl Model for RowId {
    ghost Value = { ℕ };

    ghost view = { λ id. id.value };

    ghost inverse = { λ n. record { value = n } };
}

/// The id of this number.
impl From<u128> for RowId {
    ghost from_gives = { λ value id. id ≡ value };

    fn from(value: u128) -> RowId {
        RowId { value }
    }
}

/// Its number.
impl From<RowId> for u128 {
    ghost from_gives = { λ id value. value ≡ id };

    fn from(id: RowId) -> u128 {
        id.value
    }
}

impl RowId {
    /// Reads 36 characters with hexadecimal digits in either case (RFC 7047 section 5.1).
    ///
    /// # Errors
    /// `BadId` for every other text.
    pub fn read(text: &str) -> Result<RowId, BadId>
        ensures value { result_ok result ≡ read_id text.now }
    {
        Ok(RowId::from(read_number(text)?))
    }

    /// The 36 characters, in lower case.
    pub fn write(&self) -> [u8; 36]
        ensures text { result ≡ id_text self.now }
        ensures again { read_id result ≡ Some self.now }
    {
        write_number(self.value)
    }

    /// The 36 characters as a string.
    ///
    /// # Errors
    /// `NoMemory` alone.
    pub fn to_text(&self, alloc: Global) -> Result<String, NoMemory>
        ensures text { IfOk result (λ t. string_bytes t ≡ id_text self.now) }
        ensures again { IfOk result (λ t. read_id (string_bytes t) ≡ Some self.now) }
    {
        number_text(alloc, self.value)
    }
}
