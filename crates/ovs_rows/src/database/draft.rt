//! A database with changes laid over it.

ghost use Rattle.std.specs.Prelude.{◌≡◌, ◌<◌, ◌≤◌, ◌∷◌, [], Some, IfOk, IfSome, MatchOption, OnOk, OnErr};
ghost use Rattle.std.specs.FinMap.{get, empty, len as map_len};
ghost use Rattle.std.specs.Option.{option_copied};
ghost use Rattle.ovs_rows.specs.Row.{AreDataOf, AreRowsOf, IsRowAt, columns_at};
ghost use Rattle.ovs_rows.specs.After.{put_at};
ghost use Rattle.ovs_rows.specs.Scanning.{rows_past, IsPastLast, IsNext, NoneBelow};
ghost use Rattle.ovs_rows.specs.Draft.{overlaid};
ghost use Rattle.ovs_rows.specs.DatabaseDifference.{action_between, database_difference, Leads};

use crate::change::{Action, Actions, Change};
use crate::database::Database;
use crate::database::applying::columns_at;
use crate::database::differing::{arrival, fate, with_action};
use crate::database::overlay::{Overlay, row_of};
use crate::row::Row;
use crate::row_key::RowKey;
use crate::shared_row::SharedRow;
use ovs_types::{NamedColumn, NoMemory, RowId, Schema};
use std::alloc::Global;
use std::marker::Model;

/// A database as it is to become. What isn't changed stands in the database alone, so that a draft takes no more time and
/// memory than its changes.
#[derive(Drop)]
pub struct Draft<'a> {
    base: &'a Database,
    changed: Overlay,
}

impl<'a> Model for Draft<'a> {
    ghost use Rattle.std.specs.Prelude.{refl};
    ghost use Rattle.std.specs.Coded.{code_by, coded×};
    ghost use Rattle.ovs_rows.specs.contracts.database.Database as database_row;
    ghost use Rattle.ovs_rows.specs.contracts.database.row_map.RowMap as rows_row;
    ghost use Rattle.ovs_rows.specs.Row.{Rows, AreRowsOf};
    ghost use Rattle.ovs_rows.specs.Database.{DatabaseValue};
    ghost use Rattle.ovs_rows.specs.Draft.{DraftValue, overlaid};

    ghost Value = { DraftValue };

    ghost coded = { code_by (DatabaseValue × Rows) (coded× database_row.the_row.coded rows_row.the_row.coded) (λ d. (d.before, d.rows)) (λ p. record { before = p.0; rows = p.1 }) (λ _. refl) };

    ghost view = { λ d. record { before = d.base.now; rows = overlaid d.base.now.rows d.changed } };

    ghost invariant = { λ d. AreRowsOf d.base.now.schema.description.tables (overlaid d.base.now.rows d.changed) };
}

// What becomes of a row between two databases.
fn action_between(
    alloc: Global,
    columns: &[NamedColumn],
    old: Option<&Row>,
    new: Option<&Row>,
) -> Result<Option<Action>, NoMemory>
    requires old { IfSome (option_copied old) (λ row. AreDataOf columns.now row.columns) }
    requires new { IfSome (option_copied new) (λ row. AreDataOf columns.now row.columns) }
    ensures value { IfOk result (λ a. a ≡ action_between columns.now (option_copied old.entry) (option_copied new.entry)) }
{
    match (old, new) {
        (Some(old), new) => fate(alloc, columns, old, new),
        (None, Some(new)) => arrival(None, new),
        (None, None) => Ok(None),
    }
}

// The actions between a database and the same with changes laid over it.
fn actions(alloc: Global, base: &Database, changed: &Overlay) -> Result<Actions, NoMemory>
    requires rows { AreRowsOf base.now.schema.description.tables (overlaid base.now.rows changed.now) }
    ensures value { IfOk result (λ a. a ≡ database_difference base.now.schema.description.tables base.now.rows (overlaid base.now.rows changed.now)) }
{
    let tables = base.schema().tables();
    let mut actions = Actions::new(alloc);
    for (place, put) in changed.as_map().iter() {
        let columns = columns_at(tables, place.table);
        let action = action_between(alloc, columns, base.row(*place), row_of(put))?;
        actions = with_action(actions, *place, action)?;
    }
    Ok(actions)
}

// The row of a table with the least id past another, where that comes before a third.
fn row_before(
    base: &Database,
    table: usize,
    after: Option<RowId>,
    id: RowId,
) -> Option<(RowId, &Row)>
    ensures value { MatchOption result (NoneBelow table after base.now.rows id) (λ r. IsNext table after base.now.rows r.0 r.1.now × (r.0 < id)) }
{
    match base.next_row(table, after) {
        Some((first, row)) if first < id => Some((first, row)),
        _ => None,
    }
}

impl<'a> Draft<'a> {
    /// The database as it is. No memory is taken.
    pub fn new(alloc: Global, base: &'a Database) -> Draft<'a>
        ensures value { result ≡ record { before = base.now; rows = base.now.rows } }
    {
        let _rows = base.rows();
        Draft {
            base,
            changed: Overlay::new(alloc),
        }
    }

    /// The database that is to change.
    pub fn base(&self) -> &Database
        ensures value { result.now ≡ self.now.before }
    {
        self.base
    }

    /// The schema, in whose tables all rows stand.
    pub fn schema(&self) -> &Schema
        ensures value { result.now ≡ self.now.before.schema }
        ensures rows { AreRowsOf self.now.before.schema.description.tables self.now.rows }
    {
        self.base.schema()
    }

    /// The row at a place, or `None` where none is to stand.
    pub fn row(&self, place: RowKey) -> Option<&Row>
        ensures value { option_copied result ≡ get self.now.rows place }
    {
        let base = &*self.base;
        let RowKey { table, id } = place;
        match self.changed.get(RowKey { table, id }) {
            Some(put) => row_of(put),
            None => base.row(RowKey { table, id }),
        }
    }

    /// Puts a row at a place, in the stead of the one there, or takes away the one there. The row has to have a datum of each
    /// column of its table.
    ///
    /// # Errors
    /// `NoMemory` alone; the draft is then as it was.
    pub fn set_row(&mut self, place: RowKey, row: Option<SharedRow>) -> Result<(), NoMemory>
        requires of_table { IsRowAt self.old.before.schema.description.tables place row }
        ensures value { OnOk result (self.new ≡ record { before = self.old.before; rows = put_at self.old.rows place row }) }
        ensures unchanged { OnErr result (self.new ≡ self.old) }
    {
        self.changed.put(place, row)
    }

    /// The row of the table of this number with the least id above another, or of all, and its id; `None` where there is
    /// none. No memory is taken.
    pub fn next_row(&self, table: usize, after: Option<RowId>) -> Option<(RowId, &Row)>
        ensures least { MatchOption result (IsPastLast table after self.now.rows) (λ r. IsNext table after self.now.rows r.0 r.1.now) }
        // The rows that are left are this one, and those after it.
        ensures rest { MatchOption result (rows_past table after self.now.rows ≡ []) (λ r. rows_past table after self.now.rows ≡ (record { table = table; id = r.0 }, r.1.now) ∷ rows_past table (Some r.0) self.now.rows) }
    {
        let base = &*self.base;
        let mut last = after;
        while let Some(id) = self.changed.next_id(table, again(&last)) {
            let before = row_before(base, table, again(&last), id);
            if before.is_some() {
                return before;
            }
            if let Some(row) = self.changed.row(RowKey { table, id }) {
                return Some((id, row));
            }
            last = Some(id);
        }
        base.next_row(table, again(&last))
    }

    /// At least as many as it has rows, in all tables. Nothing is counted.
    pub fn len_bound(&self) -> usize
        ensures most { map_len self.now.rows ≤ result }
    {
        self.base.rows().as_map().len() + self.changed.as_map().len()
    }

    /// The change that leads from the database to the draft. It looks at nothing but what was changed; a row that is as it
    /// was is no change.
    ///
    /// # Errors
    /// `NoMemory` alone.
    pub fn change(&self, alloc: Global) -> Result<Change, NoMemory>
        ensures value { IfOk result (λ c. c ≡ database_difference self.now.before.schema.description.tables self.now.before.rows self.now.rows) }
        ensures leads { IfOk result (Leads self.now.before.schema.description.tables self.now.before.rows self.now.rows) }
    {
        let _rows = self.base.rows();
        let actions = actions(alloc, self.base, &self.changed)?;
        Change::new(alloc, actions)
    }
}

// The same id.
fn again(id: &Option<RowId>) -> Option<RowId>
    ensures value { result ≡ id.now }
{
    *id
}
