//! Schemas (RFC 7047 section 3.2): a database's tables and columns.

ghost use Rattle.std.specs.Prelude.{◌≡◌, ◌≢◌, ◌<◌, ℕ, None, Some, Ok, false, IsTrue, ◌↔◌, IfOk, IfSome, IfNone, option_map, length, slice_get};
ghost use Rattle.serde_json.specs.View.{view};
ghost use Rattle.ovs_types.specs.Finding.{column_named, table_named, columns_of, column_of};
ghost use Rattle.ovs_types.specs.Names.{is_name, IsAscendingBy, AreNames};
ghost use Rattle.ovs_types.specs.SchemaReading.{read_description};

pub(crate) mod error;
mod parts;
mod reading;
mod reading_column;

use ovs_data::Column;
use ovs_json::{NoMemory, Text};
use serde_json::Value;
use std::alloc::Global;
use std::marker::Model;

/// A column and its name.
#[derive(Drop)]
pub struct NamedColumn {
    /// Its name; in `NamedColumns` an `<id>` that isn't reserved.
    pub name: Text,
    /// What the column holds.
    pub column: Column,
}

/// The columns of a table, ascending by the bytes of their names. Contracts see the list.
#[derive(Drop)]
pub struct NamedColumns {
    columns: Vec<NamedColumn>,
}

impl Model for NamedColumns {
    ghost use Rattle.std.specs.Prelude.{List};
    ghost use Rattle.ovs_types.specs.Names.{IsAscendingBy, AreNames};
    ghost use Rattle.ovs_types.specs.declared.schema.NamedColumn.{NamedColumn};

    ghost Value = { List NamedColumn };

    ghost view = { λ c. c.columns.items };

    ghost invariant = { λ c. IsAscendingBy (λ x. x.name) c.columns.items × AreNames (λ x. x.name) c.columns.items };
}

impl NamedColumns {
    pub(crate) fn new(columns: Vec<NamedColumn>) -> NamedColumns
        requires ascending { IsAscendingBy (λ x. x.name) columns.items }
        requires names { AreNames (λ x. x.name) columns.items }
        ensures value { result ≡ columns.items }
    {
        NamedColumns { columns }
    }

    /// The columns, ascending by name.
    pub fn as_slice(&self) -> &[NamedColumn]
        ensures all { result.now ≡ self.now }
        ensures ascending { IsAscendingBy (λ x. x.name) self.now }
        ensures names { AreNames (λ x. x.name) self.now }
    {
        &self.columns
    }

    /// The number of the column of a name in the order of the names, and what the column holds, if there is one.
    pub fn find(&self, name: &str) -> Option<(usize, Column)>
        ensures found { result ≡ column_named self.now name.now }
        ensures within { IfSome result (λ p. p.0 < length self.now) }
        // The column at that number has the name and holds that.
        ensures there { IfSome result (λ p. slice_get self.now p.0 ≡ Some (record { name = name.now; column = p.1 })) }
        // Where none is found no column has the name.
        ensures absent { IfNone result
            ((number : ℕ) → (c : _) → slice_get self.now number ≡ Some c → c.name ≢ name.now) }
        // No column has a reserved name, as `_uuid` and `_version` are.
        ensures reserved { is_name name.now ≡ false → result ≡ None }
    {
        let columns = self.as_slice();
        let number = columns
            .binary_search_by(|column| column.name.as_str().cmp(name))
            .ok()?;
        Some((number, columns[number].column))
    }
}

/// A table's name and its columns.
#[derive(Drop)]
pub struct Table {
    /// Its name; in `Tables` an `<id>` that isn't reserved.
    pub name: Text,
    /// Its columns, without `_uuid` and `_version`.
    pub columns: NamedColumns,
}

/// The tables of a database, ascending by the bytes of their names. Contracts see the list.
#[derive(Drop)]
pub struct Tables {
    tables: Vec<Table>,
}

impl Model for Tables {
    ghost use Rattle.std.specs.Prelude.{List};
    ghost use Rattle.ovs_types.specs.Names.{IsAscendingBy, AreNames};
    ghost use Rattle.ovs_types.specs.declared.schema.Table.{Table};

    ghost Value = { List Table };

    ghost view = { λ t. t.tables.items };

    ghost invariant = { λ t. IsAscendingBy (λ x. x.name) t.tables.items × AreNames (λ x. x.name) t.tables.items };
}

impl Tables {
    pub(crate) fn new(tables: Vec<Table>) -> Tables
        requires ascending { IsAscendingBy (λ x. x.name) tables.items }
        requires names { AreNames (λ x. x.name) tables.items }
        ensures value { result ≡ tables.items }
    {
        Tables { tables }
    }

    /// The tables, ascending by name.
    pub fn as_slice(&self) -> &[Table]
        ensures all { result.now ≡ self.now }
        ensures ascending { IsAscendingBy (λ x. x.name) self.now }
        ensures names { AreNames (λ x. x.name) self.now }
    {
        &self.tables
    }

    /// The number of the table of a name in the order of the names, and the table, if there is one.
    pub fn find(&self, name: &str) -> Option<(usize, &Table)>
        ensures found { option_map (λ p. (p.0, p.1.now)) result ≡ table_named self.now name.now }
        ensures within { IfSome result (λ p. p.0 < length self.now) }
        // The table at that number has the name.
        ensures there { IfSome result (λ p. (slice_get self.now p.0 ≡ Some p.1.now) × (p.1.now.name ≡ name.now)) }
        // Where none is found no table has the name.
        ensures absent { IfNone result
            ((number : ℕ) → (t : _) → slice_get self.now number ≡ Some t → t.name ≢ name.now) }
        // No table has a reserved name.
        ensures reserved { is_name name.now ≡ false → result ≡ None }
    {
        let tables = self.as_slice();
        let number = tables
            .binary_search_by(|table| table.name.as_str().cmp(name))
            .ok()?;
        Some((number, &tables[number]))
    }
}

/// What a schema says: the database's name and its tables.
#[derive(Drop)]
pub struct Description {
    /// The database's name.
    pub name: Text,
    /// The tables.
    pub tables: Tables,
}

/// A schema, and the JSON that it was read from. Contracts see the two as `description` and `json`.
#[derive(Drop)]
pub struct Schema {
    pub(crate) description: Description,
    pub(crate) json: Value,
}

impl Model for Schema {
    ghost use Rattle.std.specs.Coded.{codes};
    ghost use Rattle.serde_json.specs.View.{view as data_of};
    ghost use Rattle.ovs_json.specs.JsonCode.{json_code};
    ghost use Rattle.std.specs.Prelude.{◌≡◌, Ok};
    ghost use Rattle.ovs_types.specs.Schema.{SchemaValue};
    ghost use Rattle.ovs_types.specs.SchemaReading.{read_description};

    ghost Value = { SchemaValue };

    ghost coded = { Prim.hlevel (codes, json_code) };

    ghost view = { λ s. record { description = s.description; json = data_of s.json } };

    ghost invariant = { λ s. read_description (data_of s.json) ≡ Ok s.description };
}

impl Schema {
    /// The database's name.
    pub fn name(&self) -> &str
        ensures name { result.now ≡ self.now.description.name }
    {
        self.description.name.as_str()
    }

    /// The tables, ascending by name.
    pub fn tables(&self) -> &[Table]
        ensures all { result.now ≡ self.now.description.tables }
        ensures ascending { IsAscendingBy (λ x. x.name) self.now.description.tables }
        ensures names { AreNames (λ x. x.name) self.now.description.tables }
    {
        self.description.tables.as_slice()
    }

    /// The table of a name and its number in the order of the names, if there is one.
    pub fn table(&self, name: &str) -> Option<(usize, &Table)>
        ensures found { option_map (λ p. (p.0, p.1.now)) result ≡ table_named self.now.description.tables name.now }
        // No table has a reserved name.
        ensures reserved { is_name name.now ≡ false → result ≡ None }
    {
        self.description.tables.find(name)
    }

    /// The columns of a table, ascending by name, if there is such a table. The implicit columns
    /// `_uuid` and `_version` (RFC 7047 section 3.2) aren't among them.
    pub fn columns(&self, table: &str) -> Option<&[NamedColumn]>
        ensures all { option_map (λ c. c.now) result ≡ columns_of self.now.description table.now }
        ensures ascending { IfSome result (λ c. IsAscendingBy (λ x. x.name) c.now) }
        ensures names { IfSome result (λ c. AreNames (λ x. x.name) c.now) }
        // No table has a reserved name.
        ensures reserved { is_name table.now ≡ false → result ≡ None }
    {
        let (_, found) = self.table(table)?;
        Some(found.columns.as_slice())
    }

    /// What a column of a table holds, if there are such a table and such a column. The implicit
    /// columns `_uuid` and `_version` are none.
    pub fn column(&self, table: &str, name: &str) -> Option<Column>
        ensures found { result ≡ column_of self.now.description table.now name.now }
        // No column has a reserved name, as `_uuid` and `_version` are.
        ensures reserved { is_name name.now ≡ false → result ≡ None }
    {
        let (_, table) = self.table(table)?;
        let (_, column) = table.columns.find(name)?;
        Some(column)
    }

    /// The JSON value that the schema was read from.
    ///
    /// # Errors
    /// `NoMemory` alone.
    pub fn to_json(&self) -> Result<Value, NoMemory>
        ensures json { IfOk result (λ value. view value ≡ self.now.json) }
        // It says what the schema says.
        ensures reads_back { read_description self.now.json ≡ Ok self.now.description }
    {
        Ok(self.json.clone()?)
    }

    /// Whether the two schemas say the same: name, tables, columns, kinds and bounds, however their JSON is spelled.
    pub fn same(&self, other: &Schema) -> bool
        ensures same { IsTrue result ↔ (self.now.description ≡ other.now.description) }
    {
        self.description.same(&other.description)
    }

    /// An equal schema.
    ///
    /// # Errors
    /// `NoMemory` alone.
    pub fn copy(&self, alloc: Global) -> Result<Schema, NoMemory>
        ensures equal { IfOk result (λ schema. schema ≡ self.now) }
        // Its JSON says what it says.
        ensures reads_back { read_description self.now.json ≡ Ok self.now.description }
    {
        Ok(Schema {
            description: self.description.copy(alloc)?,
            json: self.json.clone()?,
        })
    }
}
