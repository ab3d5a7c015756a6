//! What is told of one row in the notation of `update` (RFC 7047 section 4.1.6).

ghost use Rattle.std.specs.Prelude.{◌≡◌, ◌∷◌, [], IfOk, Some, codes, option_map, is_some};
ghost use Rattle.std.specs.List.{list_any};
ghost use Rattle.std.specs.Option.{option_copied};
ghost use Rattle.serde_json.specs.View.{view};
ghost use Rattle.ovs_rows.specs.ChangeWriting.{modify_json};
ghost use Rattle.ovs_rows.specs.Writing.{object_of};
ghost use Rattle.ovs_query.specs.RowUpdates.{previous_datum, previous, row_update_between};
ghost use Rattle.ovs_query.specs.Projected.{shown_data, shown_columns};
ghost use Rattle.ovs_query.specs.UpdateWriting.{whole_json, row_update_json};
ghost use Rattle.ovs_query.specs.Updates.{row_update_told};

use crate::monitor::Watched;
use crate::projected::{Projected, shown_datum, shown_json};
use ovs_json::{put, under_name};
use ovs_rows::{Row, put_cell};
use ovs_types::{Datum, NoMemory, RowId};
use serde_json::{Map, Value};
use std::alloc::Global;

/// All that is shown of a row.
pub(crate) fn whole_json(
    alloc: Global,
    shown: &[Projected],
    id: RowId,
    row: &Row,
) -> Result<Value, NoMemory>
    ensures value { IfOk result (λ v. view v ≡ whole_json (shown_columns shown.now) (shown_data shown.now id row.now)) }
{
    shown_json(alloc, shown, id, row)
}

// The datum, where the new one is another.
fn previous_datum<'a>(old: &'a Datum, new: &'a Datum) -> Option<&'a Datum>
    ensures value { option_map (λ d. d.now) result ≡ previous_datum old.now new.now }
{
    if old == new { None } else { Some(old) }
}

// Whether shown columns changed, and their previous data, each under its name. No other datum is copied.
fn previous_json(
    alloc: Global,
    shown: &[Projected],
    id: RowId,
    old: &Row,
    new: &Row,
) -> Result<(bool, Value), NoMemory>
    ensures changed { IfOk result (λ r. r.0 ≡ list_any is_some (previous (shown_data shown.now id old.now) (shown_data shown.now id new.now))) }
    ensures value { IfOk result (λ r. view r.1 ≡ modify_json (shown_columns shown.now) (previous (shown_data shown.now id old.now) (shown_data shown.now id new.now))) }
{
    let mut members = Map::new(alloc);
    let mut changed = false;
    for part in shown {
        let before = shown_datum(alloc, part.field, id, old)?;
        let after = shown_datum(alloc, part.field, id, new)?;
        let cell = previous_datum(before.as_datum(), after.as_datum());
        changed = changed || cell.is_some();
        put_cell(alloc, &mut members, &part.named, cell)?;
    }
    Ok((changed, Value::Object(members)))
}

fn new_and_old(alloc: Global, new: Value, old: Value) -> Result<Value, NoMemory>
    ensures value { IfOk result (λ v. view v ≡ object_of ((codes "new", view new) ∷ (codes "old", view old) ∷ [])) }
{
    let mut members = Map::new(alloc);
    put(alloc, &mut members, "new", new)?;
    put(alloc, &mut members, "old", old)?;
    Ok(Value::Object(members))
}

// What is told of a row whose data are others, or nothing where they are the same.
fn changed_json(
    alloc: Global,
    shown: &[Projected],
    id: RowId,
    old: &Row,
    new: &Row,
) -> Result<Option<Value>, NoMemory>
    ensures value { IfOk result (λ o. option_map view o ≡ option_map (row_update_json (shown_columns shown.now)) (row_update_between (Some (shown_data shown.now id old.now)) (Some (shown_data shown.now id new.now)))) }
{
    let (changed, previous) = previous_json(alloc, shown, id, old, new)?;
    if changed {
        let row = whole_json(alloc, shown, id, new)?;
        Ok(Some(new_and_old(alloc, row, previous)?))
    } else {
        Ok(None)
    }
}

/// What is told of a row, if anything.
pub(crate) fn row_update1(
    alloc: Global,
    watched: &Watched,
    id: RowId,
    before: Option<&Row>,
    after: Option<&Row>,
) -> Result<Option<Value>, NoMemory>
    ensures value { IfOk result (λ o. option_map view o ≡ option_map (row_update_json (shown_columns watched.now.shown)) (row_update_told (Some watched.now) id (option_copied before.entry) (option_copied after.entry))) }
{
    let shown = watched.shown.as_slice();
    match (watched.presented(id, before), watched.presented(id, after)) {
        (None, None) => Ok(None),
        (None, Some(new)) => {
            if watched.kinds.insert {
                let row = whole_json(alloc, shown, id, new)?;
                Ok(Some(under_name(alloc, "new", row)?))
            } else {
                Ok(None)
            }
        }
        (Some(old), None) => {
            if watched.kinds.delete {
                let row = whole_json(alloc, shown, id, old)?;
                Ok(Some(under_name(alloc, "old", row)?))
            } else {
                Ok(None)
            }
        }
        (Some(old), Some(new)) => {
            if watched.kinds.modify {
                changed_json(alloc, shown, id, old, new)
            } else {
                Ok(None)
            }
        }
    }
}
