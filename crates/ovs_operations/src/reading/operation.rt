//! One operation.

ghost use Rattle.std.specs.Prelude.{◌≡◌, IfOk};
ghost use Rattle.serde_json.specs.View.{view};
ghost use Rattle.ovs_json.specs.Results.{result_map};
ghost use Rattle.ovs_query.specs.ConditionReading.{named};
ghost use Rattle.ovs_query.specs.SelectReading.{read_select};
ghost use Rattle.ovs_operations.specs.OperationError.{in_query};
ghost use Rattle.ovs_operations.specs.Operation.{IsOperationOf};
ghost use Rattle.ovs_operations.specs.Owning.{owns};
ghost use Rattle.ovs_operations.specs.Reading.{read_inserted, read_insert, altered_by, read_altered, read_alteration, read_comment, read_commit, read_assert, read_named_operation, read_operation};
ghost use Rattle.ovs_operations.specs.declared.operation.Operation.TheVariants as does;

use crate::operation::{Alteration, Altering, Operation};
use crate::operation_error::OperationError;
use crate::reading::mutations::{read_mutations, read_row};
use crate::reading::parts::{query_fault, read_conditions, read_own_name, read_table};
use crate::transaction_context::TransactionContext;
use ovs_json::{SessionId, both};
use ovs_locks::LockTable;
use ovs_query::{QueryError, Select};
use ovs_rows::RowKey;
use ovs_types::{NamedIds, NoMemory, RowId, Schema, Table, Text};
use serde_json::Value;
use std::alloc::Global;

fn read_inserted(
    alloc: Global,
    names: &NamedIds,
    schema: &Schema,
    id: RowId,
    operation: &Value,
) -> Result<Result<Operation, OperationError>, NoMemory>
    ensures exact { IfOk result (λ r. r ≡ read_inserted names.now schema.now.description.tables id (view operation.now)) }
{
    let (table, columns) = match read_table(schema, operation) {
        Ok((number, table)) => (number, &table.columns),
        Err(fault) => return Ok(Err(fault)),
    };
    match read_row(alloc, names, columns, operation.get("row"))? {
        Ok(mutations) => Ok(Ok(Operation::Insert {
            place: RowKey { table, id },
            mutations,
        })),
        Err(fault) => Ok(Err(fault)),
    }
}

// The name needs no table.
fn read_insert(
    alloc: Global,
    names: &NamedIds,
    schema: &Schema,
    id: RowId,
    operation: &Value,
) -> Result<Result<Operation, OperationError>, NoMemory>
    ensures exact { IfOk result (λ r. r ≡ read_insert names.now schema.now.description.tables id (view operation.now)) }
{
    let inserted = read_inserted(alloc, names, schema, id, operation)?;
    let named = read_own_name(alloc, names, id, operation.get("uuid-name"))?;
    match both(inserted, named) {
        Ok((operation, _)) => Ok(Ok(operation)),
        Err(fault) => Ok(Err(fault)),
    }
}

// What becomes of the rows that match.
fn read_altered(
    alloc: Global,
    names: &NamedIds,
    altering: Altering,
    table: &Table,
    operation: &Value,
) -> Result<Result<Alteration, OperationError>, NoMemory>
    ensures exact { IfOk result (λ r. r ≡ read_altered names.now altering table.now.columns (view operation.now)) }
{
    let columns = &table.columns;
    let mutations = match altering {
        Altering::Update => read_row(alloc, names, columns, operation.get("row"))?,
        Altering::Mutate => read_mutations(alloc, names, columns, operation.get("mutations"))?,
        Altering::Delete => return Ok(Ok(Alteration::Delete)),
    };
    match mutations {
        Ok(mutations) => Ok(Ok(Alteration::Write(mutations))),
        Err(fault) => Ok(Err(fault)),
    }
}

// Conditions on the rows of a table, and what becomes of those that match.
fn altered(
    alloc: Global,
    names: &NamedIds,
    number: usize,
    table: &Table,
    alteration: Result<Alteration, OperationError>,
    operation: &Value,
) -> Result<Result<Operation, OperationError>, NoMemory>
    ensures exact { IfOk result (λ r. r ≡ altered_by names.now (number, table.now) alteration (view operation.now)) }
{
    let conditions = read_conditions(alloc, names, table, operation.get("where"))?;
    match both(conditions, alteration) {
        Ok((conditions, alteration)) => Ok(Ok(Operation::Alter {
            table: number,
            conditions,
            alteration,
        })),
        Err(fault) => Ok(Err(fault)),
    }
}

fn read_alteration(
    alloc: Global,
    names: &NamedIds,
    schema: &Schema,
    altering: Altering,
    operation: &Value,
) -> Result<Result<Operation, OperationError>, NoMemory>
    ensures exact { IfOk result (λ r. r ≡ read_alteration names.now schema.now.description.tables (read_altered names.now altering) (view operation.now)) }
{
    match read_table(schema, operation) {
        Ok((number, table)) => {
            let alteration = read_altered(alloc, names, altering, table, operation)?;
            altered(alloc, names, number, table, alteration, operation)
        }
        Err(fault) => Ok(Err(fault)),
    }
}

fn read_selected(
    alloc: Global,
    names: &NamedIds,
    schema: &Schema,
    operation: &Value,
) -> Result<Result<Operation, OperationError>, NoMemory>
    ensures exact { IfOk result (λ r. r ≡ result_map does.Select (in_query (read_select (named names.now) schema.now.description.tables (view operation.now)))) }
{
    match Select::read_named(alloc, operation, schema, names) {
        Ok(select) => Ok(Ok(Operation::Select(select))),
        Err(QueryError::NoMemory) => Err(NoMemory),
        Err(error) => Ok(Err(query_fault(error))),
    }
}

// "comment" has a text.
fn read_comment(operation: &Value) -> Result<Operation, OperationError>
    ensures exact { result ≡ read_comment (view operation.now) }
{
    match operation.get("comment").and_then(Value::as_str) {
        Some(_) => Ok(Operation::Nothing),
        None => Err(OperationError::BadOperation),
    }
}

// A commit is never durable.
fn read_commit(operation: &Value) -> Result<Operation, OperationError>
    ensures exact { result ≡ read_commit (view operation.now) }
{
    match operation.get("durable").and_then(Value::as_bool) {
        Some(true) => Err(OperationError::NotSupported),
        Some(false) => Ok(Operation::Nothing),
        None => Err(OperationError::BadOperation),
    }
}

// "lock" names a lock that the session owns.
fn read_assert(
    alloc: Global,
    locks: &LockTable,
    session: SessionId,
    operation: &Value,
) -> Result<Result<Operation, OperationError>, NoMemory>
    ensures exact { IfOk result (λ r. r ≡ read_assert (owns session locks.now) (view operation.now)) }
{
    let Some(name) = operation.get("lock").and_then(Value::as_str) else {
        return Ok(Err(OperationError::BadOperation));
    };
    let name = Text::new(alloc, name)?;
    if locks.owner(&name) == Some(session) {
        Ok(Ok(Operation::Nothing))
    } else {
        Ok(Err(OperationError::NotOwner))
    }
}

// An operation of this name.
fn read_named_operation(
    alloc: Global,
    context: &TransactionContext<'_>,
    schema: &Schema,
    id: Option<RowId>,
    name: &str,
    operation: &Value,
) -> Result<Result<Operation, OperationError>, NoMemory>
    ensures exact { IfOk result (λ r. r ≡ read_named_operation context.now.names.now schema.now.description.tables (owns context.now.session context.now.locks.now) id name.now (view operation.now)) }
{
    let names = context.names;
    if name == "insert" {
        match id {
            Some(id) => read_insert(alloc, names, schema, id, operation),
            None => Ok(Err(OperationError::BadOperation)),
        }
    } else if name == "update" {
        read_alteration(alloc, names, schema, Altering::Update, operation)
    } else if name == "mutate" {
        read_alteration(alloc, names, schema, Altering::Mutate, operation)
    } else if name == "delete" {
        read_alteration(alloc, names, schema, Altering::Delete, operation)
    } else if name == "select" {
        read_selected(alloc, names, schema, operation)
    } else if name == "comment" {
        Ok(read_comment(operation))
    } else if name == "commit" {
        Ok(read_commit(operation))
    } else if name == "abort" {
        Ok(Err(OperationError::Aborted))
    } else if name == "wait" {
        Ok(Err(OperationError::NotSupported))
    } else if name == "assert" {
        read_assert(alloc, context.locks, context.session, operation)
    } else {
        Ok(Err(OperationError::BadOperation))
    }
}

fn operation_of(
    alloc: Global,
    context: &TransactionContext<'_>,
    schema: &Schema,
    id: Option<RowId>,
    operation: &Value,
) -> Result<Result<Operation, OperationError>, NoMemory>
    ensures exact { IfOk result (λ r. r ≡ read_operation context.now.names.now schema.now.description.tables (owns context.now.session context.now.locks.now) id (view operation.now)) }
{
    match operation.get("op").and_then(Value::as_str) {
        Some(name) => read_named_operation(alloc, context, schema, id, name, operation),
        None => Ok(Err(OperationError::BadOperation)),
    }
}

/// The operation that a value stands for, or the first of its faults.
pub(crate) fn read_operation(
    alloc: Global,
    context: &TransactionContext<'_>,
    schema: &Schema,
    id: Option<RowId>,
    operation: &Value,
) -> Result<Result<Operation, OperationError>, NoMemory>
    ensures exact { IfOk result (λ r. r ≡ read_operation context.now.names.now schema.now.description.tables (owns context.now.session context.now.locks.now) id (view operation.now)) }
    ensures of_tables { IfOk result (λ r. IfOk r (IsOperationOf schema.now.description.tables)) }
{
    operation_of(alloc, context, schema, id, operation)
}
