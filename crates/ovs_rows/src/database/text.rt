//! Databases as JSON text, which is written row by row, so that no JSON value of the whole is made.

ghost use Rattle.std.specs.Prelude.{◌≡◌, ◌<◌, ◌+◌, ◌^◌, ◌++◌, IfOk, OnOk, string_bytes};
ghost use Rattle.serde_json.specs.Data.{string};
ghost use Rattle.serde_json.specs.Written.{comma_if, compact_text};
ghost use Rattle.ovs_types.specs.Id.{id_text};
ghost use Rattle.ovs_types.specs.Names.{IsAscendingBy};
ghost use Rattle.ovs_rows.specs.Writing.{row_json, table_json, tables_json, database_json};
ghost use Rattle.ovs_rows.specs.ObjectText.{name_text, member_text};

use crate::database::Database;
use crate::database::row_map::RowMap;
use crate::database::writing::row_json;
use crate::row::Row;
use crate::row_key::RowKey;
use ovs_json::text_json;
use ovs_types::{NamedColumn, NoMemory, RowId, Table};
use std::alloc::Global;

// What stands before a member's name.
fn comma_if(later: bool) -> &'static str
    ensures text { result.now ≡ comma_if later }
{
    if later { "," } else { "" }
}

// A text between quotation marks, with its escapes.
fn quoted_text(alloc: Global, text: &str) -> Result<String, NoMemory>
    ensures text { IfOk result (λ t. string_bytes t ≡ compact_text (string text.now)) }
{
    let value = text_json(alloc, text)?;
    Ok(value.to_string(alloc)?)
}

fn row_text(alloc: Global, columns: &[NamedColumn], row: &Row) -> Result<String, NoMemory>
    ensures text { IfOk result (λ t. string_bytes t ≡ compact_text (row_json columns.now row.now)) }
{
    let value = row_json(alloc, columns, row)?;
    Ok(value.to_string(alloc)?)
}

// Puts a member's name and its colon behind an object's text, and before them a comma where a member stands already.
fn push_name(alloc: Global, text: &mut String, later: bool, name: &str) -> Result<(), NoMemory>
    ensures text { OnOk result (string_bytes text.new ≡ string_bytes text.old ++ name_text later name.now) }
{
    let name = quoted_text(alloc, name)?;
    text.push_str(comma_if(later))?;
    text.push_str(name.as_str())?;
    text.push_str(":")?;
    Ok(())
}

// Puts the row with this id behind its table's text.
fn push_row(
    alloc: Global,
    text: &mut String,
    later: bool,
    columns: &[NamedColumn],
    id: u128,
    row: &Row,
) -> Result<(), NoMemory>
    ensures text { OnOk result (string_bytes text.new ≡ string_bytes text.old ++ member_text later (id_text id, row_json columns.now row.now)) }
    ensures fits { id < 2 ^ 128 }
{
    let name = RowId::from(id).to_text(alloc)?;
    let row = row_text(alloc, columns, row)?;
    push_name(alloc, text, later, name.as_str())?;
    text.push_str(row.as_str())?;
    Ok(())
}

// Puts a table behind the text. Its rows stand between its first place and the next table's.
fn push_table(
    alloc: Global,
    text: &mut String,
    rows: &RowMap,
    number: usize,
    table: &Table,
) -> Result<(), NoMemory>
    requires { number + 1 < 2 ^ 64 }
    ensures text { OnOk result (string_bytes text.new ≡ string_bytes text.old ++ compact_text (table_json rows.now (number, table.now))) }
{
    let places = RowKey::first(number)..RowKey::first(number + 1);
    let mut later = false;
    text.push_str("{")?;
    for (place, row) in rows.as_map().range(places) {
        let id = u128::from(place.id);
        push_row(alloc, text, later, table.columns.as_slice(), id, row.row())?;
        later = true;
    }
    text.push_str("}")?;
    Ok(())
}

// Puts all tables behind the text.
fn push_tables(
    alloc: Global,
    text: &mut String,
    tables: &[Table],
    rows: &RowMap,
) -> Result<(), NoMemory>
    requires ascending { IsAscendingBy (λ t. t.name) tables.now }
    ensures text { OnOk result (string_bytes text.new ≡ string_bytes text.old ++ compact_text (tables_json tables.now rows.now)) }
{
    let mut later = false;
    text.push_str("{")?;
    for (number, table) in tables.iter().enumerate() {
        push_name(alloc, text, later, table.name.as_str())?;
        push_table(alloc, text, rows, number, table)?;
        later = true;
    }
    text.push_str("}")?;
    Ok(())
}

impl Database {
    /// The text, and behind it the database as compact JSON text, which is that of `to_json`. It is written row by row:
    /// no JSON value of the whole is made.
    ///
    /// # Errors
    /// `NoMemory` alone.
    pub fn json_behind(&self, alloc: Global, text: String) -> Result<String, NoMemory>
        ensures text { IfOk result (λ t. string_bytes t ≡ string_bytes text ++ compact_text (database_json self.now)) }
    {
        let mut text = text;
        push_tables(alloc, &mut text, self.schema().tables(), self.rows())?;
        Ok(text)
    }
}
