//! The mutations of rows out of JSON: "row" and "mutations".

ghost use Rattle.std.specs.Prelude.{◌≡◌, IfOk, Ok, [], option_map};
ghost use Rattle.serde_json.specs.View.{view, items_view, members_view};
ghost use Rattle.ovs_operations.specs.Reading.{read_items, read_members, read_mutation_of, read_mutation, read_mutations, read_cell, read_row};

use crate::operation::{Mutation, Mutations, Mutator};
use crate::operation_error::OperationError;
use crate::reading::mutators::{read_column, read_mutator, value_column};
use crate::reading::parts::read_value;
use ovs_json::{both, three_items, with_one};
use ovs_types::{Column, NamedColumns, NamedIds, NoMemory};
use serde_json::{Map, Value};
use std::alloc::Global;

// A mutator of this column, with its value.
fn read_mutation_of(
    alloc: Global,
    names: &NamedIds,
    column: (usize, Column),
    mutator: Mutator,
    value: &Value,
) -> Result<Result<Mutation, OperationError>, NoMemory>
    ensures exact { IfOk result (λ r. r ≡ read_mutation_of names.now column mutator (view value.now)) }
{
    let (number, column) = column;
    let wanted = match value_column(mutator, &column, value) {
        Ok(wanted) => wanted,
        Err(fault) => return Ok(Err(fault)),
    };
    match read_value(alloc, names, &wanted, value)? {
        Ok(value) => Ok(Ok(Mutation {
            column: number,
            mutator,
            value,
        })),
        Err(fault) => Ok(Err(fault)),
    }
}

// [column, mutator, value]
fn read_mutation(
    alloc: Global,
    names: &NamedIds,
    columns: &NamedColumns,
    value: &Value,
) -> Result<Result<Mutation, OperationError>, NoMemory>
    ensures exact { IfOk result (λ r. r ≡ read_mutation names.now columns.now (view value.now)) }
{
    let Some((column, mutator, value)) = three_items(value) else {
        return Ok(Err(OperationError::BadOperation));
    };
    match both(read_column(columns, column), read_mutator(mutator)) {
        Ok((column, mutator)) => read_mutation_of(alloc, names, column, mutator, value),
        Err(fault) => Ok(Err(fault)),
    }
}

fn read_each_mutation(
    alloc: Global,
    names: &NamedIds,
    columns: &NamedColumns,
    values: &[Value],
) -> Result<Result<Mutations, OperationError>, NoMemory>
    ensures exact { IfOk result (λ r. r ≡ read_items (read_mutation names.now columns.now) (Ok []) (items_view values.now)) }
{
    let mut so_far = Ok(Vec::new(alloc));
    for value in values {
        so_far = with_one(so_far, read_mutation(alloc, names, columns, value)?)?;
    }
    match so_far {
        Ok(items) => Ok(Ok(Mutations::new(items))),
        Err(fault) => Ok(Err(fault)),
    }
}

/// "mutations", which have to be there.
pub(crate) fn read_mutations(
    alloc: Global,
    names: &NamedIds,
    columns: &NamedColumns,
    value: Option<&Value>,
) -> Result<Result<Mutations, OperationError>, NoMemory>
    ensures exact { IfOk result (λ r. r ≡ read_mutations names.now columns.now (option_map (λ v. view v.now) value.entry)) }
{
    match value.and_then(Value::as_array) {
        Some(values) => read_each_mutation(alloc, names, columns, values),
        None => Ok(Err(OperationError::BadOperation)),
    }
}

// A column that is set, under its name.
fn read_cell(
    alloc: Global,
    names: &NamedIds,
    columns: &NamedColumns,
    name: &str,
    value: &Value,
) -> Result<Result<Mutation, OperationError>, NoMemory>
    ensures exact { IfOk result (λ r. r ≡ read_cell names.now columns.now name.now (view value.now)) }
{
    match columns.find(name) {
        Some(column) => read_mutation_of(alloc, names, column, Mutator::Set, value),
        None => Ok(Err(OperationError::UnknownColumn)),
    }
}

fn read_each_cell(
    alloc: Global,
    names: &NamedIds,
    columns: &NamedColumns,
    members: &Map<String, Value>,
) -> Result<Result<Mutations, OperationError>, NoMemory>
    ensures exact { IfOk result (λ r. r ≡ read_members (read_cell names.now columns.now) (Ok []) (members_view members.now.entries)) }
{
    let mut so_far = Ok(Vec::new(alloc));
    for (name, value) in members.iter() {
        so_far = with_one(
            so_far,
            read_cell(alloc, names, columns, name.as_str(), value)?,
        )?;
    }
    match so_far {
        Ok(items) => Ok(Ok(Mutations::new(items))),
        Err(fault) => Ok(Err(fault)),
    }
}

/// "row", which has to be there.
pub(crate) fn read_row(
    alloc: Global,
    names: &NamedIds,
    columns: &NamedColumns,
    value: Option<&Value>,
) -> Result<Result<Mutations, OperationError>, NoMemory>
    ensures exact { IfOk result (λ r. r ≡ read_row names.now columns.now (option_map (λ v. view v.now) value.entry)) }
{
    match value.and_then(Value::as_object) {
        Some(members) => read_each_cell(alloc, names, columns, members),
        None => Ok(Err(OperationError::BadOperation)),
    }
}
