//! Selects (RFC 7047 section 5.2.2).

ghost use Rattle.std.specs.Prelude.{◌≡◌, ◌∷◌, ◌++◌, [], map, IfOk, OnOk};
ghost use Rattle.serde_json.specs.View.{view, items_view, items_of};
ghost use Rattle.std.specs.Option.{option_copied};
ghost use Rattle.ovs_rows.specs.Writing.{rows_in};
ghost use Rattle.ovs_query.specs.Conditions.{AdmitOnly};
ghost use Rattle.ovs_query.specs.RowWriting.{row_matching, rows_json, select_json};

use crate::conditions::Conditions;
use crate::projected::{ShownColumns, shown_json};
use ovs_json::under_name;
use ovs_rows::{Database, Draft, Row, RowKey};
use ovs_types::{NoMemory, RowId};
use serde_json::Value;
use std::alloc::Global;

/// A select: a table, conditions on its rows, and what is shown of those of which all hold.
#[derive(Drop)]
pub struct Select {
    pub(crate) table: usize,
    pub(crate) conditions: Conditions,
    pub(crate) shown: ShownColumns,
}

impl Select {
    // The row of this id, if it is there and matches. No other row is looked at.
    fn matching_row<'a>(&self, draft: &'a Draft, id: RowId) -> Option<&'a Row>
        ensures value { option_copied result ≡ row_matching self.now id draft.now.rows }
    {
        let place = RowKey {
            table: self.table,
            id,
        };
        let row = draft.row(place)?;
        if self.conditions.matches(id, row) {
            Some(row)
        } else {
            None
        }
    }

    // The rows that match, where no row but that of this id can.
    fn row_json(&self, alloc: Global, draft: &Draft, id: RowId) -> Result<Vec<Value>, NoMemory>
        requires alone { AdmitOnly id self.now.conditions }
        ensures value { IfOk result (λ v. items_view v.items ≡ items_of (rows_json self.now (rows_in self.now.table draft.now.rows))) }
    {
        let mut found = Vec::new(alloc);
        match self.matching_row(draft, id) {
            Some(row) => {
                found.push(shown_json(alloc, self.shown.as_slice(), id, row)?)?;
                Ok(found)
            }
            None => Ok(found),
        }
    }

    // Adds the row as an object, if it matches.
    fn add_matching(
        &self,
        alloc: Global,
        found: &mut Vec<Value>,
        id: RowId,
        row: &Row,
    ) -> Result<(), NoMemory>
        ensures added { OnOk result (map view found.new.items ≡ map view found.old.items ++ rows_json self.now ((record { table = self.now.table; id = id }, row.now) ∷ [])) }
    {
        if self.conditions.matches(id, row) {
            found.push(shown_json(alloc, self.shown.as_slice(), id, row)?)?;
        }
        Ok(())
    }

    // The rows of a draft that match, each as an object.
    fn rows_of_draft(&self, alloc: Global, draft: &Draft) -> Result<Vec<Value>, NoMemory>
        ensures value { IfOk result (λ v. items_view v.items ≡ items_of (rows_json self.now (rows_in self.now.table draft.now.rows))) }
    {
        let mut found = Vec::new(alloc);
        let mut last = None;
        while let Some((id, row)) = draft.next_row(self.table, last) {
            self.add_matching(alloc, &mut found, id, row)?;
            last = Some(id);
        }
        Ok(found)
    }

    // The rows of a database that match, each as an object.
    fn rows_of(&self, alloc: Global, database: &Database) -> Result<Vec<Value>, NoMemory>
        ensures value { IfOk result (λ v. items_view v.items ≡ items_of (rows_json self.now (rows_in self.now.table database.now.rows))) }
    {
        let mut found = Vec::new(alloc);
        for (place, row) in database.rows_of(self.table) {
            self.add_matching(alloc, &mut found, place.id, row.row())?;
        }
        Ok(found)
    }

    /// The rows of the database as it is to become of which all conditions hold, ascending by id: `{"rows": [..]}`.
    ///
    /// # Errors
    /// `NoMemory` alone.
    pub fn run_draft(&self, alloc: Global, draft: &Draft) -> Result<Value, NoMemory>
        ensures value { IfOk result (λ v. view v ≡ select_json self.now draft.now.rows) }
    {
        let rows = match self.conditions.row_id() {
            Some(id) => self.row_json(alloc, draft, id)?,
            None => self.rows_of_draft(alloc, draft)?,
        };
        under_name(alloc, "rows", Value::Array(rows))
    }

    /// The rows of the database of which all conditions hold, ascending by id: `{"rows": [..]}`.
    ///
    /// # Errors
    /// `NoMemory` alone.
    pub fn run(&self, alloc: Global, database: &Database) -> Result<Value, NoMemory>
        ensures value { IfOk result (λ v. view v ≡ select_json self.now database.now.rows) }
    {
        let rows = match self.conditions.row_id() {
            Some(id) => self.row_json(alloc, &Draft::new(alloc, database), id)?,
            None => self.rows_of(alloc, database)?,
        };
        under_name(alloc, "rows", Value::Array(rows))
    }
}
