//! What a script's first line says: a schema.

ghost use Rattle.std.specs.Prelude.{◌≡◌, ◌≢◌, IfOk, OnOk, option_map};
ghost use Rattle.serde_json.specs.View.{view};
ghost use Rattle.ovs_script.specs.FirstLine.{schema_of_json, schema_of_line};

use crate::line_json::json_of_line;
use crate::refusal::SchemaRefusal;
use ovs_json::NoMemory;
use ovs_types::{Schema, SchemaError};
use serde_json::Value;
use std::alloc::Global;

// A fault of a schema as a refusal, but for want of memory.
fn schema_refusal(fault: SchemaError) -> Result<SchemaRefusal, NoMemory>
    ensures value { IfOk result (λ refusal. refusal ≡ SchemaRefusal.BadSchema fault) }
    ensures fault { OnOk result (fault ≢ SchemaError.NoMemory) }
{
    match fault {
        SchemaError::NoMemory => Err(NoMemory),
        _ => Ok(SchemaRefusal::BadSchema(fault)),
    }
}

fn schema_of_json(alloc: Global, value: &Value) -> Result<Result<Schema, SchemaRefusal>, NoMemory>
    ensures value { IfOk result (λ schema. schema ≡ schema_of_json (view value.now)) }
{
    match Schema::read(alloc, value) {
        Ok(schema) => Ok(Ok(schema)),
        Err(fault) => Ok(Err(schema_refusal(fault)?)),
    }
}

/// The schema that a line gives, or why it is refused: the first cause in the order of `SchemaRefusal`. A line comes without
/// its LF, and `None` is one above the limit.
///
/// # Errors
/// `NoMemory` alone.
pub fn schema_of_line(
    alloc: Global,
    line: Option<&[u8]>,
) -> Result<Result<Schema, SchemaRefusal>, NoMemory>
    ensures value { IfOk result (λ schema. schema ≡ schema_of_line (option_map (λ l. l.now) line.entry)) }
{
    match json_of_line(alloc, line)? {
        Ok(value) => schema_of_json(alloc, &value),
        Err(fault) => Ok(Err(SchemaRefusal::BadLine(fault))),
    }
}
