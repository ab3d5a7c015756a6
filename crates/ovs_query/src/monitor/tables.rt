//! Rows and tables of updates, each under its name.

ghost use Rattle.std.specs.Prelude.{◌≡◌, ◌<◌, ◌^◌, OnOk, IfSome, Some, option_map};
ghost use Rattle.serde_json.specs.View.{view, members_view};
ghost use Rattle.ovs_types.specs.Id.{id_text, read_id};
ghost use Rattle.ovs_rows.specs.ChangeWriting.{with_some};
ghost use Rattle.ovs_query.specs.Telling.{some_object};

use ovs_json::put;
use ovs_types::{NoMemory, RowId, Text};
use serde_json::{Map, Value};
use std::alloc::Global;

/// Puts what is written of a row under its id, if anything is.
pub(crate) fn put_row(
    alloc: Global,
    members: &mut Map<String, Value>,
    id: RowId,
    row: Option<Value>,
) -> Result<(), NoMemory>
    ensures value { OnOk result (members_view members.new.entries ≡ with_some (members_view members.old.entries) (option_map (λ d. (id_text id, d)) (option_map view row))) }
    ensures spelled { OnOk result (IfSome row (λ _. (id < 2 ^ 128) × (read_id (id_text id) ≡ Some id))) }
{
    match row {
        Some(row) => {
            let name = id.to_text(alloc)?;
            put(alloc, members, name.as_str(), row)
        }
        None => Ok(()),
    }
}

/// Puts the rows of a table under its name, if something is written of any.
pub(crate) fn put_table(
    alloc: Global,
    members: &mut Map<String, Value>,
    name: &Text,
    rows: Map<String, Value>,
) -> Result<(), NoMemory>
    ensures value { OnOk result (members_view members.new.entries ≡ with_some (members_view members.old.entries) (option_map (λ d. (name.now, d)) (some_object (members_view rows.entries)))) }
{
    if rows.is_empty() {
        Ok(())
    } else {
        put(alloc, members, name.as_str(), Value::Object(rows))
    }
}
