//! Conditions out of JSON (RFC 7047 section 5.1).

ghost use Rattle.std.specs.Prelude.{◌≡◌, IfOk};
ghost use Rattle.serde_json.specs.Data.{Data};
ghost use Rattle.serde_json.specs.View.{view, items_view};
ghost use Rattle.ovs_data.specs.declared.column.Column as declared_column;
ghost use Rattle.ovs_data.specs.declared.datum.Datum as declared_datum;
ghost use Rattle.ovs_query.specs.Faults.{Read};
ghost use Rattle.ovs_query.specs.ConditionReading.{test_named, is_integer, has_order, column_for, plain, named, read_condition, read_conditions};

use crate::conditions::{Condition, Conditions, Test};
use crate::error::QueryError;
use crate::reading::fields::field_named;
use ovs_json::{three_items, with_one};
use ovs_types::{AtomKind, Column, Datum, DatumError, NamedColumns, NamedIds, NoMemory};
use serde_json::Value;
use std::alloc::Global;

/// How the values of conditions are read.
pub(crate) trait ValueReader {
    /// The datum of a column that a value stands for, or its fault.
    ghost datum: { Self → declared_column.Column → Data → Read declared_datum.Datum };

    /// The datum of a column that a value stands for, or its fault.
    fn read(
        &self,
        alloc: Global,
        column: &Column,
        value: &Value,
    ) -> Result<Result<Datum, QueryError>, NoMemory>
        ensures exact { IfOk result (λ r. r ≡ datum self.now column.now (view value.now)) };
}

/// Data as they are written, with no names for ids.
pub(crate) struct PlainValues;

impl ValueReader for PlainValues {
    ghost datum = { λ s. plain };

    fn read(
        &self,
        alloc: Global,
        column: &Column,
        value: &Value,
    ) -> Result<Result<Datum, QueryError>, NoMemory> {
        match Datum::read(alloc, value, column) {
            Ok(datum) => Ok(Ok(datum)),
            Err(DatumError::NoMemory) => Err(NoMemory),
            Err(_) => Ok(Err(QueryError::BadCondition)),
        }
    }
}

impl ValueReader for NamedIds {
    ghost datum = { named };

    fn read(
        &self,
        alloc: Global,
        column: &Column,
        value: &Value,
    ) -> Result<Result<Datum, QueryError>, NoMemory> {
        match Datum::read_named(alloc, value, column, self) {
            Ok(datum) => Ok(Ok(datum)),
            Err(DatumError::NoMemory) => Err(NoMemory),
            Err(DatumError::UnknownName) => Ok(Err(QueryError::UnknownName)),
            Err(_) => Ok(Err(QueryError::BadCondition)),
        }
    }
}

fn test_named(name: &str) -> Option<Test>
    ensures value { result ≡ test_named name.now }
{
    if name == "<" {
        Some(Test::Less)
    } else if name == "<=" {
        Some(Test::AtMost)
    } else if name == ">=" {
        Some(Test::AtLeast)
    } else if name == ">" {
        Some(Test::More)
    } else if name == "==" {
        Some(Test::Equal)
    } else if name == "!=" {
        Some(Test::Unequal)
    } else if name == "includes" {
        Some(Test::Includes)
    } else if name == "excludes" {
        Some(Test::Excludes)
    } else {
        None
    }
}

fn is_integer(kind: AtomKind) -> bool
    ensures value { result ≡ is_integer kind }
{
    match kind {
        AtomKind::Integer => true,
        AtomKind::Boolean => false,
        AtomKind::String => false,
        AtomKind::Uuid => false,
    }
}

// Whether it is a column of one integer, or of a set of at most one.
fn has_order(column: &Column) -> bool
    ensures value { result ≡ has_order column.now }
{
    is_integer(column.key) && column.value.is_none() && column.is_single()
}

// Of which column the value of a condition has to be a datum.
fn column_for(test: Test, column: &Column) -> Option<Column>
    ensures value { result ≡ column_for test column.now }
{
    match test {
        Test::Less | Test::AtMost | Test::AtLeast | Test::More => {
            if has_order(column) {
                Some(Column {
                    key: AtomKind::Integer,
                    value: None,
                    may_be_empty: false,
                    most: Some(1),
                })
            } else {
                None
            }
        }
        Test::Equal | Test::Unequal => Some(*column),
        Test::Includes | Test::Excludes => Some(column.loose()),
    }
}

/// A condition on the rows of a table with these columns.
pub(crate) fn read_condition<R: ValueReader>(
    alloc: Global,
    reader: &R,
    columns: &NamedColumns,
    value: &Value,
) -> Result<Result<Condition, QueryError>, NoMemory>
    ensures exact { IfOk result (λ r. r ≡ read_condition (R.datum reader.now) columns.now (view value.now)) }
{
    let Some((name, function, value)) = three_items(value) else {
        return Ok(Err(QueryError::BadCondition));
    };
    let Some(name) = name.as_str() else {
        return Ok(Err(QueryError::BadCondition));
    };
    let Some((field, column)) = field_named(columns, name) else {
        return Ok(Err(QueryError::UnknownColumn));
    };
    let Some(test) = function.as_str().and_then(test_named) else {
        return Ok(Err(QueryError::BadCondition));
    };
    let Some(column) = column_for(test, &column) else {
        return Ok(Err(QueryError::BadCondition));
    };
    match reader.read(alloc, &column, value)? {
        Ok(value) => Ok(Ok(Condition { field, test, value })),
        Err(fault) => Ok(Err(fault)),
    }
}

/// Conditions on the rows of a table with these columns.
pub(crate) fn read_conditions<R: ValueReader>(
    alloc: Global,
    reader: &R,
    columns: &NamedColumns,
    values: &[Value],
) -> Result<Result<Conditions, QueryError>, NoMemory>
    ensures exact { IfOk result (λ r. r ≡ read_conditions (R.datum reader.now) columns.now (items_view values.now)) }
{
    let mut so_far = Ok(Vec::new(alloc));
    for value in values {
        so_far = with_one(so_far, read_condition(alloc, reader, columns, value)?)?;
    }
    match so_far {
        Ok(items) => Ok(Ok(Conditions::new(items))),
        Err(fault) => Ok(Err(fault)),
    }
}
