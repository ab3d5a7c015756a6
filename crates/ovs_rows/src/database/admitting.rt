//! Which of the rows that a change told may stand in the tables of a database.

ghost use Rattle.std.specs.Prelude.{◌≡◌, ◌↔◌, ◌++◌, ◌∷◌, [], IfOk, IsTrue, map, slice_get};
ghost use Rattle.std.specs.Option.{option_copied};
ghost use Rattle.ovs_rows.specs.Row.{IsRowAt};
ghost use Rattle.ovs_rows.specs.Applied.{seen};
ghost use Rattle.ovs_rows.specs.Admitting.{admit_all, table_admits, admitted_at, admitted};

use crate::applied::Touched;
use crate::database::overlay::row_of;
use crate::row::Row;
use crate::row_key::RowKey;
use ovs_types::{Datum, NamedColumn, NoMemory, Table};
use std::alloc::Global;

// Whether there is one datum of each column.
fn admit_all(columns: &[NamedColumn], cells: &[Datum]) -> bool
    ensures value { result ≡ admit_all columns.now cells.now }
{
    if columns.len() != cells.len() {
        return false;
    }
    for (named, datum) in columns.iter().zip(cells) {
        if !named.column.admits(datum) {
            return false;
        }
    }
    true
}

fn table_admits(table: Option<&Table>, row: Option<&Row>) -> bool
    ensures value { result ≡ table_admits (option_copied table.entry) (option_copied row.entry) }
{
    match (table, row) {
        (_, None) => true,
        (None, Some(_)) => false,
        (Some(table), Some(row)) => admit_all(table.columns.as_slice(), row.columns.as_slice()),
    }
}

fn table_at(tables: &[Table], number: usize) -> Option<&Table>
    ensures value { option_copied result ≡ slice_get tables.now number }
{
    tables.get(number)
}

/// Whether the row, or none, may stand at the place.
pub(crate) fn admitted_at(tables: &[Table], place: RowKey, row: Option<&Row>) -> bool
    ensures value { result ≡ admitted_at tables.now place (option_copied row.entry) }
    ensures decides { IsTrue result ↔ IsRowAt tables.now place (option_copied row.entry) }
{
    table_admits(table_at(tables, place.table), row)
}

fn is_admitted(tables: &[Table], touched: &Touched) -> bool
    ensures value { result ≡ admitted_at tables.now touched.now.place touched.now.after }
{
    admitted_at(tables, touched.place, row_of(&touched.after))
}

// The rows so far, and this one if it may stand where it is put.
fn with_admitted(
    tables: &[Table],
    mut rows: Vec<Touched>,
    row: &Touched,
) -> Result<Vec<Touched>, NoMemory>
    ensures value { IfOk result (λ v. map seen v.items ≡ map seen rows.items ++ admitted tables.now (seen row.now ∷ [])) }
{
    if !is_admitted(tables, row) {
        return Ok(rows);
    }
    rows.push(row.clone()?)?;
    Ok(rows)
}

/// The rows that may stand where they are put. They are shared, not copied.
pub(crate) fn admitted(
    alloc: Global,
    tables: &[Table],
    touched: &[Touched],
) -> Result<Vec<Touched>, NoMemory>
    ensures value { IfOk result (λ v. map seen v.items ≡ admitted tables.now (map seen touched.now)) }
{
    let mut rows = Vec::with_capacity(alloc, touched.len())?;
    for row in touched {
        rows = with_admitted(tables, rows, row)?;
    }
    Ok(rows)
}
