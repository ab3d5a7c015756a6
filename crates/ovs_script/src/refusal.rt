//! How refused lines are told, and why a script's first line gives no schema.

ghost use Rattle.std.specs.Prelude.{◌≡◌, IfOk, string_bytes};
ghost use Rattle.ovs_script.specs.Refusal.{refused_line, schema_word, schema_line};

use crate::line_json::LineFault;
use ovs_json::NoMemory;
use ovs_types::SchemaError;
use std::alloc::{AllocError, Global};

/// The line that tells that a line is refused: its number, `refused`, the word for the cause and an LF.
///
/// # Errors
/// `NoMemory` alone.
pub fn refused_line(alloc: Global, number: u64, word: &str) -> Result<String, NoMemory>
    ensures text { IfOk result (λ line. string_bytes line ≡ refused_line number word.now) }
{
    Ok(format!(in alloc; "{number} refused {word}\n")?)
}

/// Why a line with a schema is refused, in the order of checking.
#[derive(Debug, Clone, Copy, PartialEq, Eq)]
pub enum SchemaRefusal {
    /// It has no JSON. So is an input without any line told, by `BadJson`.
    BadLine(LineFault),
    /// No schema, for this fault, which is never want of memory.
    BadSchema(SchemaError),
}

impl SchemaRefusal {
    /// The word for it: that of the line's fault, or of the schema's.
    pub fn word(self) -> &'static str
        ensures text { result.now ≡ schema_word self }
    {
        match self {
            SchemaRefusal::BadLine(fault) => fault.word(),
            SchemaRefusal::BadSchema(fault) => fault.word(),
        }
    }

    /// The line that is all there is of a refused schema: `schema refused`, the word and an LF.
    ///
    /// # Errors
    /// `AllocError` alone.
    pub fn line(self, alloc: Global) -> Result<String, AllocError>
        ensures text { IfOk result (λ line. string_bytes line ≡ schema_line self) }
    {
        let word = self.word();
        format!(in alloc; "schema refused {word}\n")
    }
}
