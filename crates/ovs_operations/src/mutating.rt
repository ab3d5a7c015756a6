//! What mutations make of the data of a row (RFC 7047 section 5.1).

ghost use Rattle.std.specs.Prelude.{◌≡◌, ◌+ℤ◌, ◌-ℤ◌, IfOk};
ghost use Rattle.ovs_json.specs.Results.{result_map};
ghost use Rattle.ovs_data.specs.Column.{may_count};
ghost use Rattle.ovs_types.specs.Datum.{IsDatumOf};
ghost use Rattle.ovs_rows.specs.Row.{AreDataOf};
ghost use Rattle.ovs_operations.specs.Operation.{IsValueOf, IsMutationOf, AreMutationsOf};
ghost use Rattle.ovs_operations.specs.Mutating.{in_range, integer_in, one_integer, computed, counted, mutated, write_one, write_all, default_row};

use crate::operation::{Mutation, Mutator};
use crate::operation_error::OperationError;
use ovs_json::NoMemory;
use ovs_rows::Columns;
use ovs_types::{Atom, Column, Datum, NamedColumn};
use std::alloc::Global;

// ---- sums

// The one integer that a datum is.
fn integer_in(datum: &Datum) -> Result<i64, OperationError>
    ensures value { result ≡ integer_in datum.now }
{
    match datum.atoms() {
        [Atom::Integer(number)] => Ok(*number),
        _ => Err(OperationError::BadOperation),
    }
}

fn added(left: i64, right: i64) -> Result<i64, OperationError>
    ensures value { result ≡ in_range (left +ℤ right) }
{
    left.checked_add(right).ok_or(OperationError::RangeError)
}

fn subtracted(left: i64, right: i64) -> Result<i64, OperationError>
    ensures value { result ≡ in_range (left -ℤ right) }
{
    left.checked_sub(right).ok_or(OperationError::RangeError)
}

fn sum(old: &Datum, value: &Datum) -> Result<i64, OperationError>
    ensures value { result ≡ computed ◌+ℤ◌ old.now value.now }
{
    added(integer_in(old)?, integer_in(value)?)
}

fn difference(old: &Datum, value: &Datum) -> Result<i64, OperationError>
    ensures value { result ≡ computed ◌-ℤ◌ old.now value.now }
{
    subtracted(integer_in(old)?, integer_in(value)?)
}

// The datum of one integer, if there is one.
fn one_integer(
    alloc: Global,
    number: Result<i64, OperationError>,
) -> Result<Result<Datum, OperationError>, NoMemory>
    ensures exact { IfOk result (λ r. r ≡ result_map one_integer number) }
{
    match number {
        Ok(number) => {
            let mut atoms = Vec::with_capacity(alloc, 1)?;
            atoms.push(Atom::Integer(number))?;
            Ok(Ok(Datum::of_atoms(atoms)))
        }
        Err(fault) => Ok(Err(fault)),
    }
}

// ---- one datum

// Whether the column admits as many elements or pairs.
fn may_count(column: &Column, count: usize) -> bool
    ensures value { result ≡ may_count column.now count }
{
    !column.is_single() || count == 1 || (column.may_be_empty && count == 0)
}

fn counted(column: &Column, datum: Datum) -> Result<Datum, OperationError>
    ensures exact { result ≡ counted column.now datum }
{
    if may_count(column, datum.len()) {
        Ok(datum)
    } else {
        Err(OperationError::Constraint)
    }
}

// What a mutator makes of the datum of a column.
fn mutated(
    alloc: Global,
    column: &Column,
    mutator: Mutator,
    old: &Datum,
    value: &Datum,
) -> Result<Result<Datum, OperationError>, NoMemory>
    requires old { IsDatumOf column.now old.now }
    requires value { IsValueOf column.now mutator value.now }
    ensures exact { IfOk result (λ r. r ≡ mutated column.now mutator old.now value.now) }
{
    match mutator {
        Mutator::Set => Ok(Ok(value.copy()?)),
        Mutator::Add => one_integer(alloc, sum(old, value)),
        Mutator::Subtract => one_integer(alloc, difference(old, value)),
        Mutator::Insert => Ok(counted(column, old.inserted(value)?)),
        Mutator::Delete => Ok(counted(column, old.deleted(value)?)),
    }
}

// ---- the data of a row

// What a mutation makes of them.
fn write_one(
    alloc: Global,
    columns: &[NamedColumn],
    row: Columns,
    mutation: &Mutation,
) -> Result<Result<Columns, OperationError>, NoMemory>
    requires row { AreDataOf columns.now row }
    requires mutation { IsMutationOf columns.now mutation.now }
    ensures exact { IfOk result (λ r. r ≡ write_one columns.now row mutation.now) }
    ensures kept { IfOk result (λ r. IfOk r (AreDataOf columns.now)) }
{
    let Some(named) = columns.get(mutation.column) else {
        return Ok(Err(OperationError::BadOperation));
    };
    let Some(old) = row.as_slice().get(mutation.column) else {
        return Ok(Err(OperationError::BadOperation));
    };
    match mutated(alloc, &named.column, mutation.mutator, old, &mutation.value)? {
        Ok(new) => Ok(Ok(row.with(mutation.column, new))),
        Err(fault) => Ok(Err(fault)),
    }
}

/// What mutations make of the data of a row, one after the other. The first fault decides: `RangeError` where a sum or a
/// difference doesn't fit 64 bits, `Constraint` where a column of one element would have more or none.
///
/// # Errors
/// `NoMemory` alone.
pub(crate) fn write_all(
    alloc: Global,
    columns: &[NamedColumn],
    row: Columns,
    mutations: &[Mutation],
) -> Result<Result<Columns, OperationError>, NoMemory>
    requires row { AreDataOf columns.now row }
    requires mutations { AreMutationsOf columns.now mutations.now }
    ensures exact { IfOk result (λ r. r ≡ write_all columns.now row mutations.now) }
    ensures kept { IfOk result (λ r. IfOk r (AreDataOf columns.now)) }
{
    let mut row = row;
    let mut left = mutations;
    while let [mutation, rest @ ..] = left {
        match write_one(alloc, columns, row, mutation)? {
            Ok(new) => row = new,
            Err(fault) => return Ok(Err(fault)),
        }
        left = rest;
    }
    Ok(Ok(row))
}

/// The data of a row of which none is given: the default of each column (RFC 7047 section 5.2.1).
///
/// # Errors
/// `NoMemory` alone.
pub(crate) fn default_row(alloc: Global, columns: &[NamedColumn]) -> Result<Columns, NoMemory>
    ensures exact { IfOk result (λ d. d ≡ default_row columns.now) }
    ensures kept { IfOk result (AreDataOf columns.now) }
{
    let mut data = Vec::with_capacity(alloc, columns.len())?;
    for named in columns {
        data.push(named.column.default_datum(alloc)?)?;
    }
    Ok(Columns::new(data))
}
