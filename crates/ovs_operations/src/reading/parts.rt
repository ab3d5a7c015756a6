//! Parts of operations: values, conditions, the table, the name of a row.

ghost use Rattle.std.specs.Prelude.{◌≡◌, IfOk, option_map};
ghost use Rattle.serde_json.specs.View.{view};
ghost use Rattle.ovs_types.specs.NamedReading.{read_named};
ghost use Rattle.ovs_operations.specs.OperationError.{in_value, query_fault};
ghost use Rattle.ovs_operations.specs.Reading.{read_conditions, read_table, read_own_name};
ghost use Rattle.ovs_json.specs.Results.{result_map};

use crate::operation_error::OperationError;
use ovs_query::{Conditions, QueryError};
use ovs_types::{Column, Datum, DatumError, NamedIds, NoMemory, RowId, Schema, Table, Text, is_id};
use serde_json::Value;
use std::alloc::Global;

/// A value of a column.
pub(crate) fn read_value(
    alloc: Global,
    names: &NamedIds,
    column: &Column,
    value: &Value,
) -> Result<Result<Datum, OperationError>, NoMemory>
    ensures exact { IfOk result (λ r. r ≡ in_value (read_named names.now column.now (view value.now))) }
{
    match Datum::read_named(alloc, value, column, names) {
        Ok(datum) => Ok(Ok(datum)),
        Err(DatumError::NoMemory) => Err(NoMemory),
        Err(DatumError::UnknownName) => Ok(Err(OperationError::UnknownName)),
        Err(DatumError::WrongCount) => Ok(Err(OperationError::Constraint)),
        Err(_) => Ok(Err(OperationError::BadValue)),
    }
}

/// A query's fault as the operation's.
pub(crate) fn query_fault(error: QueryError) -> OperationError
    ensures value { result ≡ query_fault error }
{
    match error {
        QueryError::UnknownTable => OperationError::UnknownTable,
        QueryError::UnknownColumn => OperationError::UnknownColumn,
        QueryError::BadCondition => OperationError::BadCondition,
        QueryError::UnknownName => OperationError::UnknownName,
        QueryError::ManyRequests
        | QueryError::BadSelect
        | QueryError::BadOperation
        | QueryError::NoMemory => OperationError::BadOperation,
    }
}

/// "where", which has to be there.
pub(crate) fn read_conditions(
    alloc: Global,
    names: &NamedIds,
    table: &Table,
    value: Option<&Value>,
) -> Result<Result<Conditions, OperationError>, NoMemory>
    ensures exact { IfOk result (λ r. r ≡ read_conditions names.now table.now.columns (option_map (λ v. view v.now) value.entry)) }
{
    let Some(value) = value else {
        return Ok(Err(OperationError::BadOperation));
    };
    match Conditions::read_named(alloc, value, table, names) {
        Ok(conditions) => Ok(Ok(conditions)),
        Err(QueryError::NoMemory) => Err(NoMemory),
        Err(error) => Ok(Err(query_fault(error))),
    }
}

/// "table", with its number.
pub(crate) fn read_table<'a>(
    schema: &'a Schema,
    operation: &Value,
) -> Result<(usize, &'a Table), OperationError>
    ensures exact { result_map (λ p. (p.0, p.1.now)) result ≡ read_table schema.now.description.tables (view operation.now) }
{
    let name = operation
        .get("table")
        .and_then(Value::as_str)
        .ok_or(OperationError::BadOperation)?;
    schema.table(name).ok_or(OperationError::UnknownTable)
}

/// "uuid-name": a name that no earlier row has, so that it stands for this one.
pub(crate) fn read_own_name(
    alloc: Global,
    names: &NamedIds,
    id: RowId,
    value: Option<&Value>,
) -> Result<Result<(), OperationError>, NoMemory>
    ensures exact { IfOk result (λ r. r ≡ read_own_name names.now id (option_map (λ v. view v.now) value.entry)) }
{
    let Some(value) = value else {
        return Ok(Ok(()));
    };
    let Some(name) = value.as_str() else {
        return Ok(Err(OperationError::BadOperation));
    };
    if !is_id(name) {
        return Ok(Err(OperationError::BadOperation));
    }
    let name = Text::new(alloc, name)?;
    if names.get(&name) == Some(id) {
        Ok(Ok(()))
    } else {
        Ok(Err(OperationError::DuplicateName))
    }
}
