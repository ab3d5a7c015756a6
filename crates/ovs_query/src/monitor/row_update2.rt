//! What is told of one row in the notation of `update2` and `update3` (ovsdb-server(7)).

ghost use Rattle.std.specs.Prelude.{◌≡◌, IfOk, OnOk, IfSome, Some, option_map};
ghost use Rattle.std.specs.Option.{option_copied};
ghost use Rattle.serde_json.specs.View.{view};
ghost use Rattle.ovs_rows.specs.ChangeWriting.{beside_default, as_edited, insert_json, modify_json, action_json, AreSpelled, IsSpelledAction};
ghost use Rattle.ovs_rows.specs.DatabaseDifference.{edits_between};
ghost use Rattle.ovs_rows.specs.Row.{AreDataOf};
ghost use Rattle.ovs_query.specs.Projected.{shown_data, shown_columns};
ghost use Rattle.ovs_query.specs.Telling.{AreShown};
ghost use Rattle.ovs_query.specs.Updates.{update_between, action_told};

use crate::monitor::Watched;
use crate::projected::{Projected, shown_datum};
use ovs_json::under_name;
use ovs_rows::{Row, beside_default, edit_between, has_edit, put_cell};
use ovs_types::{Datum, NoMemory, RowId};
use serde_json::{Map, Value};
use std::alloc::Global;

/// The shown columns of a row that aren't at their default.
pub(crate) fn insert_json(
    alloc: Global,
    shown: &[Projected],
    id: RowId,
    row: &Row,
) -> Result<Value, NoMemory>
    ensures value { IfOk result (λ v. view v ≡ insert_json (shown_columns shown.now) (shown_data shown.now id row.now)) }
    ensures spelled { OnOk result (AreSpelled beside_default (shown_columns shown.now) (shown_data shown.now id row.now)) }
{
    let mut members = Map::new(alloc);
    for part in shown {
        let held = shown_datum(alloc, part.field, id, row)?;
        let cell = beside_default(alloc, &part.named, held.as_datum())?;
        put_cell(alloc, &mut members, &part.named, cell)?;
    }
    Ok(Value::Object(members))
}

// The edits of the shown columns that lead from one row to another.
fn edits_between(
    alloc: Global,
    shown: &[Projected],
    id: RowId,
    old: &Row,
    new: &Row,
) -> Result<Vec<Option<Datum>>, NoMemory>
    requires old { AreDataOf (shown_columns shown.now) (shown_data shown.now id old.now) }
    requires new { AreDataOf (shown_columns shown.now) (shown_data shown.now id new.now) }
    ensures value { IfOk result (λ v. v.items ≡ edits_between (shown_columns shown.now) (shown_data shown.now id old.now) (shown_data shown.now id new.now)) }
{
    let mut edits = Vec::with_capacity(alloc, shown.len())?;
    for part in shown {
        let before = shown_datum(alloc, part.field, id, old)?;
        let after = shown_datum(alloc, part.field, id, new)?;
        edits.push(edit_between(&part.named.column, before.as_datum(), after.as_datum())?)?;
    }
    Ok(edits)
}

// The columns of which something is written, each under its name.
fn modify_json(
    alloc: Global,
    shown: &[Projected],
    edits: &[Option<Datum>],
) -> Result<Value, NoMemory>
    ensures value { IfOk result (λ v. view v ≡ modify_json (shown_columns shown.now) edits.now) }
    ensures spelled { OnOk result (AreSpelled as_edited (shown_columns shown.now) edits.now) }
{
    let mut members = Map::new(alloc);
    for (part, edit) in shown.iter().zip(edits) {
        put_cell(alloc, &mut members, &part.named, edit.as_ref())?;
    }
    Ok(Value::Object(members))
}

// What is told of a row whose data are others, or nothing where they are the same.
fn changed_json(
    alloc: Global,
    shown: &[Projected],
    id: RowId,
    old: &Row,
    new: &Row,
) -> Result<Option<Value>, NoMemory>
    requires old { AreDataOf (shown_columns shown.now) (shown_data shown.now id old.now) }
    requires new { AreDataOf (shown_columns shown.now) (shown_data shown.now id new.now) }
    ensures value { IfOk result (λ o. option_map view o ≡ option_map (action_json (shown_columns shown.now)) (update_between (shown_columns shown.now) (Some (shown_data shown.now id old.now)) (Some (shown_data shown.now id new.now)))) }
    ensures spelled { OnOk result (IfSome (update_between (shown_columns shown.now) (Some (shown_data shown.now id old.now)) (Some (shown_data shown.now id new.now))) (IsSpelledAction (shown_columns shown.now))) }
{
    let edits = edits_between(alloc, shown, id, old, new)?;
    if has_edit(&edits) {
        let row = modify_json(alloc, shown, &edits)?;
        Ok(Some(under_name(alloc, "modify", row)?))
    } else {
        Ok(None)
    }
}

/// What is told of a row, if anything.
pub(crate) fn row_update2(
    alloc: Global,
    watched: &Watched,
    id: RowId,
    before: Option<&Row>,
    after: Option<&Row>,
) -> Result<Option<Value>, NoMemory>
    requires old { AreShown watched.now id (option_copied before) }
    requires new { AreShown watched.now id (option_copied after) }
    ensures value { IfOk result (λ o. option_map view o ≡ option_map (action_json (shown_columns watched.now.shown)) (action_told (Some watched.now) id (option_copied before.entry) (option_copied after.entry))) }
    ensures spelled { OnOk result (IfSome (action_told (Some watched.now) id (option_copied before.entry) (option_copied after.entry)) (IsSpelledAction (shown_columns watched.now.shown))) }
{
    let shown = watched.shown.as_slice();
    match (watched.presented(id, before), watched.presented(id, after)) {
        (None, None) => Ok(None),
        (None, Some(new)) => {
            if watched.kinds.insert {
                let row = insert_json(alloc, shown, id, new)?;
                Ok(Some(under_name(alloc, "insert", row)?))
            } else {
                Ok(None)
            }
        }
        (Some(_), None) => {
            if watched.kinds.delete {
                Ok(Some(under_name(alloc, "delete", Value::Null)?))
            } else {
                Ok(None)
            }
        }
        (Some(old), Some(new)) => {
            if watched.kinds.modify {
                changed_json(alloc, shown, id, old, new)
            } else {
                Ok(None)
            }
        }
    }
}
