//! What a link's line says.

ghost use Rattle.std.specs.Prelude.{◌≡◌, IfOk, option_map};
ghost use Rattle.serde_json.specs.View.{view};
ghost use Rattle.ovs_rows.specs.ChangeReading.{read_change};
ghost use Rattle.ovs_rows.specs.Change.{IsChangeOf};
ghost use Rattle.ovs_fold_script.specs.Reading.{parts_of, change_or_refusal, link_between, link_of_parts, link_of_json, link_of_line};

use crate::words::LineRefusal;
use ovs_json::three_items;
use ovs_links::Link;
use ovs_rows::Change;
use ovs_script::json_of_line;
use ovs_types::{NoMemory, Schema, TxnId};
use serde_json::Value;
use std::alloc::Global;

// The texts of two ids, and a change's JSON.
fn parts_of(value: &Value) -> Option<(&str, &str, &Value)>
    ensures value { option_map (λ p. (p.0.now, p.1.now, view p.2.now)) result ≡ parts_of (view value.now) }
{
    let (prev, id, change) = three_items(value)?;
    let prev = prev.as_str()?;
    let id = id.as_str()?;
    let _ = change.as_object()?;
    Some((prev, id, change))
}

fn change_of(
    alloc: Global,
    value: &Value,
    schema: &Schema,
) -> Result<Result<Change, LineRefusal>, NoMemory>
    ensures value { IfOk result (λ change. change ≡ change_or_refusal (read_change schema.now.description.tables (view value.now))) }
    ensures tables { IfOk result (λ change. IfOk change (IsChangeOf schema.now.description.tables)) }
{
    match Change::read(alloc, value, schema) {
        Ok(change) => Ok(Ok(change)),
        Err(fault) => Ok(Err(LineRefusal::BadChange(fault.of_value()?))),
    }
}

fn link_between(prev: TxnId, id: TxnId, change: Change) -> Result<Link, LineRefusal>
    ensures value { result ≡ link_between prev id change }
{
    match Link::new(prev, id, change) {
        Ok(link) => Ok(link),
        Err(_) => Err(LineRefusal::BadId),
    }
}

fn link_of_parts(
    alloc: Global,
    prev: &str,
    id: &str,
    change: &Value,
    schema: &Schema,
) -> Result<Result<Link, LineRefusal>, NoMemory>
    ensures value { IfOk result (λ link. link ≡ link_of_parts schema.now.description.tables (prev.now, id.now, view change.now)) }
    ensures tables { IfOk result (λ link. IfOk link (λ l. IsChangeOf schema.now.description.tables l.change)) }
{
    let Ok(prev) = TxnId::read(prev) else {
        return Ok(Err(LineRefusal::BadId));
    };
    let Ok(id) = TxnId::read(id) else {
        return Ok(Err(LineRefusal::BadId));
    };
    match change_of(alloc, change, schema)? {
        Ok(change) => Ok(link_between(prev, id, change)),
        Err(refusal) => Ok(Err(refusal)),
    }
}

fn link_of_json(
    alloc: Global,
    value: &Value,
    schema: &Schema,
) -> Result<Result<Link, LineRefusal>, NoMemory>
    ensures value { IfOk result (λ link. link ≡ link_of_json schema.now.description.tables (view value.now)) }
    ensures tables { IfOk result (λ link. IfOk link (λ l. IsChangeOf schema.now.description.tables l.change)) }
{
    match parts_of(value) {
        None => Ok(Err(LineRefusal::BadShape)),
        Some((prev, id, change)) => link_of_parts(alloc, prev, id, change, schema),
    }
}

/// The link that a line gives, or why it is refused before it is taken. `None` is a line above the limit.
pub(crate) fn link_of_line(
    alloc: Global,
    line: Option<&[u8]>,
    schema: &Schema,
) -> Result<Result<Link, LineRefusal>, NoMemory>
    ensures value { IfOk result (λ link. link ≡ link_of_line schema.now.description.tables (option_map (λ l. l.now) line.entry)) }
    ensures tables { IfOk result (λ link. IfOk link (λ l. IsChangeOf schema.now.description.tables l.change)) }
{
    match json_of_line(alloc, line)? {
        Ok(value) => link_of_json(alloc, &value, schema),
        Err(fault) => Ok(Err(LineRefusal::BadLine(fault))),
    }
}
