//! Ids of commits: a letter stands for the id that is written with it, and `0` for the start.

ghost use Rattle.std.specs.Prelude.{◌≡◌, IfOk, codes};

use crate::line_error::LineError;
use ovs_types::TxnId;

// The letters, and the ids that they stand for.
const LETTERS: [(&str, &str); 4] = [
    ("a", "aaaaaaaa-aaaa-4aaa-8aaa-aaaaaaaaaaaa"),
    ("b", "bbbbbbbb-bbbb-4bbb-8bbb-bbbbbbbbbbbb"),
    ("c", "cccccccc-cccc-4ccc-8ccc-cccccccccccc"),
    ("d", "dddddddd-dddd-4ddd-8ddd-dddddddddddd"),
];

/// The id that a letter stands for, or that is written here.
pub fn commit(text: &str) -> Result<TxnId, LineError>
    ensures start { text.now ≡ codes "0" → IfOk result (λ id. id ≡ 0) }
{
    if text == "0" {
        return Ok(TxnId::zero());
    }
    let id = match LETTERS.iter().find(|pair| pair.0 == text) {
        Some((_, id)) => *id,
        None => text,
    };
    TxnId::read(id).map_err(|_| LineError::Malformed)
}

/// The letter of an id, `0` for the start and `?` where it has none.
pub fn letter(id: TxnId) -> &'static str {
    if id == TxnId::zero() {
        return "0";
    }
    for (letter, _) in &LETTERS {
        if commit(letter) == Ok(id) {
            return letter;
        }
    }
    "?"
}

/// The number of a letter's commit, from 1 on.
pub fn number_of(letter: &str) -> Result<u64, LineError> {
    match LETTERS.iter().position(|pair| pair.0 == letter) {
        Some(place) => Ok(place as u64 + 1),
        None => Err(LineError::Malformed),
    }
}

/// The number of the last commit whose id stands in a text, 0 where none does.
pub fn last_number_in(text: &str) -> u64 {
    let mut last = 0;
    for (place, (_, id)) in LETTERS.iter().enumerate() {
        if text.contains(*id) {
            last = place as u64 + 1;
        }
    }
    last
}
