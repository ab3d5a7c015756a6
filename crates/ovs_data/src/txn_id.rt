//! The ids of commits: numbers of 128 bits.

ghost use Rattle.std.specs.Prelude.{◌≡◌, ◌↔◌, ◌<◌, ◌^◌, ℕ, IsTrue, IfOk, Some, string_bytes};
ghost use Rattle.std.specs.Result.{result_ok};
ghost use Rattle.ovs_data.specs.Id.{read_id, id_text};

use crate::error::BadId;
use crate::hyphenated::{number_text, read_number, write_number};
use ovs_json::NoMemory;
use std::alloc::Global;
use std::marker::Model;

/// The id of a commit. The ids below 2^64 are start ids, which no commit has: a chain begins there,
/// the first of them at [`TxnId::zero`].
#[derive(Clone, Copy, Debug, PartialEq, Eq, PartialOrd, Ord, Hash)]
pub struct TxnId {
    value: u128,
}

impl Model for TxnId {
    ghost Value = { ℕ };

    ghost view = { λ id. id.value };

    ghost inverse = { λ n. record { value = n } };
}

/// The id of this number.
impl From<u128> for TxnId {
    ghost from_gives = { λ value id. id ≡ value };

    fn from(value: u128) -> TxnId {
        TxnId { value }
    }
}

/// Its number.
impl From<TxnId> for u128 {
    ghost from_gives = { λ id value. value ≡ id };

    fn from(id: TxnId) -> u128 {
        id.value
    }
}

impl TxnId {
    /// The id of zeros, the first of the start ids.
    pub fn zero() -> TxnId
        ensures zero { result ≡ 0 }
    {
        TxnId { value: 0 }
    }

    /// Reads 36 characters with hexadecimal digits in either case (RFC 7047 section 5.1).
    ///
    /// # Errors
    /// `BadId` for every other text.
    pub fn read(text: &str) -> Result<TxnId, BadId>
        ensures value { result_ok result ≡ read_id text.now }
    {
        Ok(TxnId::from(read_number(text)?))
    }

    /// The 36 characters, in lower case.
    pub fn write(&self) -> [u8; 36]
        ensures text { result ≡ id_text self.now }
        ensures again { read_id result ≡ Some self.now }
    {
        write_number(self.value)
    }

    /// The 36 characters as a string.
    ///
    /// # Errors
    /// `NoMemory` alone.
    pub fn to_text(&self, alloc: Global) -> Result<String, NoMemory>
        ensures text { IfOk result (λ t. string_bytes t ≡ id_text self.now) }
        ensures again { IfOk result (λ t. read_id (string_bytes t) ≡ Some self.now) }
    {
        number_text(alloc, self.value)
    }

    /// Whether it is below 2^64, and so the id of no commit.
    pub fn is_start(&self) -> bool
        ensures start { IsTrue result ↔ (self.now < 2 ^ 64) }
    {
        self.value < 1 << 64
    }
}
