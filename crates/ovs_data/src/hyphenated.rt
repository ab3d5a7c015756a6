//! The text of 36 characters that stands for a number of 128 bits.

ghost use Rattle.std.specs.Prelude.{◌≡◌, IfOk, Some, string_bytes};
ghost use Rattle.std.specs.Result.{result_ok};
ghost use Rattle.ovs_data.specs.Id.{read_id, id_text};

use crate::error::BadId;
use ovs_json::NoMemory;
use std::alloc::Global;
use uuid::Uuid;

/// The number that a text stands for, its digits in either case.
pub(crate) fn read_number(text: &str) -> Result<u128, BadId>
    ensures value { result_ok result ≡ read_id text.now }
{
    if text.len() != 36 {
        return Err(BadId);
    }
    match Uuid::try_parse(text) {
        Ok(uuid) => Ok(uuid.as_u128()),
        Err(_) => Err(BadId),
    }
}

// Writes the text of a number, in lower case.
fn encode(value: u128, buffer: &mut [u8; 36]) -> &str
    ensures text { result.now ≡ id_text value }
{
    Uuid::from_u128(value).hyphenated().encode_lower(buffer)
}

/// The text of a number, in lower case.
pub(crate) fn write_number(value: u128) -> [u8; 36]
    ensures text { result ≡ id_text value }
    ensures again { read_id result ≡ Some value }
{
    let mut buffer = [0u8; 36];
    let text = encode(value, &mut buffer);
    let mut bytes = [0u8; 36];
    bytes.copy_from_slice(text.as_bytes());
    bytes
}

/// The same as a string.
pub(crate) fn number_text(alloc: Global, value: u128) -> Result<String, NoMemory>
    ensures text { IfOk result (λ t. string_bytes t ≡ id_text value) }
    ensures again { IfOk result (λ t. read_id (string_bytes t) ≡ Some value) }
{
    let mut buffer = [0u8; 36];
    let text = encode(value, &mut buffer);
    Ok(String::from_str(alloc, text)?)
}
