//! The parts of a schema, compared and copied.

ghost use Rattle.std.specs.Prelude.{◌≡◌, IsTrue, ◌↔◌, IfOk};

use crate::schema::{Description, NamedColumn, NamedColumns, Table, Tables};
use ovs_json::NoMemory;
use std::alloc::Global;

/// A column or a table of a schema, under its name.
pub(crate) trait SchemaPart: Drop {
    /// Whether the two are the same.
    fn same(&self, other: &Self) -> bool
        ensures same { IsTrue result ↔ (self.now ≡ other.now) };

    /// An equal part.
    fn copy(&self, alloc: Global) -> Result<Self, NoMemory>
        ensures equal { IfOk result (λ part. part ≡ self.now) };
}

/// Whether two lists have the same parts, in the same order.
fn same_parts<P: SchemaPart>(left: &[P], right: &[P]) -> bool
    ensures same { IsTrue result ↔ (left.now ≡ right.now) }
{
    let mut left = left;
    let mut right = right;
    while let [part, left_rest @ ..] = left {
        let [other, right_rest @ ..] = right else {
            return false;
        };
        if !part.same(other) {
            return false;
        }
        left = left_rest;
        right = right_rest;
    }
    right.is_empty()
}

/// Equal parts, in the same order.
fn copies<P: SchemaPart>(alloc: Global, parts: &[P]) -> Result<Vec<P>, NoMemory>
    ensures equal { IfOk result (λ copies. copies.items ≡ parts.now) }
{
    let mut copies = Vec::with_capacity(alloc, parts.len())?;
    for part in parts {
        copies.push(part.copy(alloc)?)?;
    }
    Ok(copies)
}

impl SchemaPart for NamedColumn {
    fn same(&self, other: &NamedColumn) -> bool {
        self.name == other.name && self.column == other.column
    }

    fn copy(&self, _alloc: Global) -> Result<NamedColumn, NoMemory> {
        Ok(NamedColumn {
            name: self.name.copy()?,
            column: self.column,
        })
    }
}

impl NamedColumns {
    /// Whether the two have the same columns.
    fn same(&self, other: &NamedColumns) -> bool
        ensures same { IsTrue result ↔ (self.now ≡ other.now) }
    {
        same_parts(self.as_slice(), other.as_slice())
    }

    /// Equal columns.
    fn copy(&self, alloc: Global) -> Result<NamedColumns, NoMemory>
        ensures equal { IfOk result (λ columns. columns ≡ self.now) }
    {
        Ok(NamedColumns::new(copies(alloc, self.as_slice())?))
    }
}

impl SchemaPart for Table {
    fn same(&self, other: &Table) -> bool {
        self.name == other.name && self.columns.same(&other.columns)
    }

    fn copy(&self, alloc: Global) -> Result<Table, NoMemory> {
        Ok(Table {
            name: self.name.copy()?,
            columns: self.columns.copy(alloc)?,
        })
    }
}

impl Tables {
    /// Whether the two have the same tables.
    fn same(&self, other: &Tables) -> bool
        ensures same { IsTrue result ↔ (self.now ≡ other.now) }
    {
        same_parts(self.as_slice(), other.as_slice())
    }

    /// Equal tables.
    fn copy(&self, alloc: Global) -> Result<Tables, NoMemory>
        ensures equal { IfOk result (λ tables. tables ≡ self.now) }
    {
        Ok(Tables::new(copies(alloc, self.as_slice())?))
    }
}

impl Description {
    /// Whether the two say the same.
    pub(crate) fn same(&self, other: &Description) -> bool
        ensures same { IsTrue result ↔ (self.now ≡ other.now) }
    {
        self.name == other.name && self.tables.same(&other.tables)
    }

    /// An equal description.
    pub(crate) fn copy(&self, alloc: Global) -> Result<Description, NoMemory>
        ensures equal { IfOk result (λ description. description ≡ self.now) }
    {
        Ok(Description {
            name: self.name.copy()?,
            tables: self.tables.copy(alloc)?,
        })
    }
}
