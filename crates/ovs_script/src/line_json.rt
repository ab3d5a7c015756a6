//! The JSON of a line.

ghost use Rattle.std.specs.Prelude.{◌≡◌, IfOk, option_map};
ghost use Rattle.serde_json.specs.View.{view};
ghost use Rattle.ovs_json.specs.Results.{result_map};
ghost use Rattle.ovs_script.specs.LineJson.{line_word, json_of_line};

use ovs_json::{NoMemory, read_json};
use serde_json::Value;
use std::alloc::Global;

/// Why a line has no JSON, in the order of checking.
#[derive(Debug, Clone, Copy, PartialEq, Eq)]
pub enum LineFault {
    /// More than 16,777,216 bytes.
    TooLong,
    /// No JSON of UTF-8, or nested too deeply.
    BadJson,
}

impl LineFault {
    /// The word for it: `too-long` or `bad-json`.
    pub fn word(self) -> &'static str
        ensures text { result.now ≡ line_word self }
    {
        match self {
            LineFault::TooLong => "too-long",
            LineFault::BadJson => "bad-json",
        }
    }
}

/// The JSON value of a line, or why it has none. A line comes without its LF, and `None` is one above the limit.
///
/// # Errors
/// `NoMemory` alone.
pub fn json_of_line(
    alloc: Global,
    line: Option<&[u8]>,
) -> Result<Result<Value, LineFault>, NoMemory>
    ensures value { IfOk result (λ json. result_map view json ≡ json_of_line (option_map (λ l. l.now) line.entry)) }
{
    let Some(line) = line else {
        return Ok(Err(LineFault::TooLong));
    };
    match read_json(alloc, line)? {
        None => Ok(Err(LineFault::BadJson)),
        Some(value) => Ok(Ok(value)),
    }
}
