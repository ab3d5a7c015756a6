//! Mutators and the columns that their values have to be data of (RFC 7047 section 5.1).

ghost use Rattle.std.specs.Prelude.{◌≡◌};
ghost use Rattle.serde_json.specs.Find.{as_str};
ghost use Rattle.serde_json.specs.View.{view};
ghost use Rattle.ovs_query.specs.ConditionReading.{is_integer};
ghost use Rattle.ovs_operations.specs.Reading.{is_scalar, read_mutator, summed_column, deleted_column, value_column, read_column};

use crate::operation::Mutator;
use crate::operation_error::OperationError;
use ovs_json::begins_with;
use ovs_types::{AtomKind, Column, NamedColumns};
use serde_json::Value;

// Whether a column holds exactly one element.
fn is_scalar(column: &Column) -> bool
    ensures value { result ≡ is_scalar column.now }
{
    column.value.is_none() && column.is_single() && !column.may_be_empty
}

fn is_integer(kind: AtomKind) -> bool
    ensures value { result ≡ is_integer kind }
{
    match kind {
        AtomKind::Integer => true,
        AtomKind::Boolean | AtomKind::String | AtomKind::Uuid => false,
    }
}

/// The mutator of a name.
pub(crate) fn read_mutator(value: &Value) -> Result<Mutator, OperationError>
    ensures exact { result ≡ read_mutator (as_str (view value.now)) }
{
    let Some(name) = value.as_str() else {
        return Err(OperationError::BadOperation);
    };
    if name == "+=" {
        Ok(Mutator::Add)
    } else if name == "-=" {
        Ok(Mutator::Subtract)
    } else if name == "insert" {
        Ok(Mutator::Insert)
    } else if name == "delete" {
        Ok(Mutator::Delete)
    } else if name == "*=" || name == "/=" || name == "%=" {
        Err(OperationError::NotSupported)
    } else {
        Err(OperationError::BadOperation)
    }
}

fn summed_column(column: &Column) -> Result<Column, OperationError>
    ensures exact { result ≡ summed_column column.now }
{
    if is_integer(column.key) && column.value.is_none() {
        if is_scalar(column) {
            Ok(*column)
        } else {
            Err(OperationError::NotSupported)
        }
    } else {
        Err(OperationError::BadOperation)
    }
}

// What is deleted from a map is a map, or else a set of keys.
fn deleted_column(column: &Column, value: &Value) -> Column
    ensures value { result ≡ deleted_column column.now (view value.now) }
{
    if column.value.is_some() && !begins_with("map", value) {
        column.keys()
    } else {
        column.loose()
    }
}

/// Of which column the value of a mutator on this one has to be a datum.
pub(crate) fn value_column(
    mutator: Mutator,
    column: &Column,
    value: &Value,
) -> Result<Column, OperationError>
    ensures exact { result ≡ value_column mutator column.now (view value.now) }
{
    match mutator {
        Mutator::Set => Ok(*column),
        Mutator::Add | Mutator::Subtract => summed_column(column),
        Mutator::Insert => {
            if is_scalar(column) {
                Err(OperationError::BadOperation)
            } else {
                Ok(column.loose())
            }
        }
        Mutator::Delete => {
            if is_scalar(column) {
                Err(OperationError::BadOperation)
            } else {
                Ok(deleted_column(column, value))
            }
        }
    }
}

/// The column of a name, with its number.
pub(crate) fn read_column(
    columns: &NamedColumns,
    value: &Value,
) -> Result<(usize, Column), OperationError>
    ensures exact { result ≡ read_column columns.now (view value.now) }
{
    let name = value.as_str().ok_or(OperationError::BadOperation)?;
    columns.find(name).ok_or(OperationError::UnknownColumn)
}
