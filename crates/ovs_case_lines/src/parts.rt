//! The parts of a case.

ghost use Rattle.std.specs.Prelude.{◌≡◌, Some, IfOk, option_and_then};
ghost use Rattle.serde_json.specs.Find.{as_array, as_number, as_str, as_u64};
ghost use Rattle.serde_json.specs.View.{view, items_view};
ghost use Rattle.ovs_json.specs.Parts.{json_of};

use crate::commits::commit;
use crate::line_error::LineError;
use ovs_types::{Schema, TxnId};
use serde_json::Value;
use std::alloc::Global;

/// The value of a JSON text.
pub fn read_json(alloc: Global, text: &str) -> Result<Value, LineError>
    ensures value { IfOk result (λ json. json_of text.now ≡ Some (view json)) }
{
    ovs_json::read_json(alloc, text.as_bytes())?.ok_or(LineError::Malformed)
}

/// The text that stands here.
pub fn text_in(json: &Value) -> Result<&str, LineError>
    ensures value { IfOk result (λ text. as_str (view json.now) ≡ Some text.now) }
{
    json.as_str().ok_or(LineError::Malformed)
}

/// The list that stands here.
pub fn list_in(json: &Value) -> Result<&[Value], LineError>
    ensures value { IfOk result (λ items. as_array (view json.now) ≡ Some (items_view items.now)) }
{
    match json.as_array() {
        Some(items) => Ok(items.as_slice()),
        None => Err(LineError::Malformed),
    }
}

/// The number that stands here.
pub fn count_in(json: &Value) -> Result<u64, LineError>
    ensures value { IfOk result (λ n. option_and_then as_u64 (as_number (view json.now)) ≡ Some n) }
{
    json.as_u64().ok_or(LineError::Malformed)
}

/// The id of a commit that stands here, as `commit` reads it.
pub fn commit_in(json: &Value) -> Result<TxnId, LineError> {
    commit(text_in(json)?)
}

/// The schema that stands here.
pub fn read_schema(alloc: Global, json: &Value) -> Result<Box<Schema>, LineError> {
    match Schema::read(alloc, json) {
        Ok(schema) => Ok(Box::new(alloc, schema)?),
        Err(_) => Err(LineError::Malformed),
    }
}
