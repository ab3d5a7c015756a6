//! Carrying out an operation that was read (RFC 7047 section 5.2).

ghost use Rattle.std.specs.Prelude.{◌≡◌, IfOk, IfErr, Ok, Err};
ghost use Rattle.serde_json.specs.View.{view};
ghost use Rattle.ovs_rows.specs.Row.{AreDataOf, columns_at};
ghost use Rattle.ovs_rows.specs.DatabaseDifference.{IsCommit};
ghost use Rattle.ovs_operations.specs.Operation.{AreMutationsOf, IsOperationOf};
ghost use Rattle.ovs_operations.specs.Carrying.{inserted_json, count_json, inserted_row, carried_out};

use crate::altering::{alter, columns_at, row_or_none};
use crate::mutating::{default_row, write_all};
use crate::operation::{Alteration, Mutation, Operation};
use crate::operation_error::OperationError;
use ovs_json::{NoMemory, under_name};
use ovs_query::Conditions;
use ovs_rows::{Columns, Draft, RowKey};
use ovs_types::{Atom, RowId, Table, TxnId};
use serde_json::{Map, Value};
use std::alloc::Global;

// {"uuid": ["uuid", ..]}
fn inserted_json(alloc: Global, id: RowId) -> Result<Value, NoMemory>
    ensures value { IfOk result (λ v. view v ≡ inserted_json id) }
{
    under_name(alloc, "uuid", Atom::Uuid(id).to_json(alloc)?)
}

// {"count": ..}
fn count_json(alloc: Global, count: usize) -> Result<Value, NoMemory>
    ensures value { IfOk result (λ v. view v ≡ count_json count) }
{
    under_name(alloc, "count", Value::from(count))
}

// The data of a row that is inserted: the defaults of its columns, and what the mutations make of them.
fn inserted_row(
    alloc: Global,
    tables: &[Table],
    place: RowKey,
    mutations: &[Mutation],
) -> Result<Result<Columns, OperationError>, NoMemory>
    requires mutations { AreMutationsOf (columns_at tables.now place.table) mutations.now }
    ensures exact { IfOk result (λ r. r ≡ inserted_row tables.now place mutations.now) }
    ensures kept { IfOk result (λ r. IfOk r (AreDataOf (columns_at tables.now place.table))) }
{
    let columns = columns_at(tables, place.table);
    write_all(alloc, columns, default_row(alloc, columns)?, mutations)
}

fn insert(
    alloc: Global,
    work: &mut Draft<'_>,
    commit: TxnId,
    place: RowKey,
    mutations: &[Mutation],
) -> Result<Result<Value, OperationError>, NoMemory>
    requires operation { IsOperationOf work.old.before.schema.description.tables (Operation.Insert place mutations.now) }
    ensures done { IfOk result (λ r. IfOk r (λ v.
        carried_out work.old.before.schema.description.tables commit work.old.before.rows (Operation.Insert place mutations.now) work.old.rows
        ≡ Ok (record { rows = work.new.rows; answer = view v }))) }
    ensures fault { IfOk result (λ r. IfErr r (λ e.
        carried_out work.old.before.schema.description.tables commit work.old.before.rows (Operation.Insert place mutations.now) work.old.rows ≡ Err e)) }
    ensures before { work.new.before ≡ work.old.before }
    ensures commit { IsCommit work.old.before.schema.description.tables work.old.before.rows work.old.rows commit
        → IfOk result (λ r. IfOk r (λ v. IsCommit work.old.before.schema.description.tables work.old.before.rows work.new.rows commit)) }
{
    match inserted_row(alloc, work.schema().tables(), place, mutations)? {
        Ok(columns) => {
            let before = work.base().row(place);
            let row = row_or_none(alloc, commit, before, Some(columns))?;
            work.set_row(place, row)?;
            Ok(Ok(inserted_json(alloc, place.id)?))
        }
        Err(fault) => Ok(Err(fault)),
    }
}

fn alter_counted(
    alloc: Global,
    work: &mut Draft<'_>,
    commit: TxnId,
    table: usize,
    conditions: &Conditions,
    alteration: &Alteration,
) -> Result<Result<Value, OperationError>, NoMemory>
    requires operation { IsOperationOf work.old.before.schema.description.tables (Operation.Alter table conditions.now alteration.now) }
    ensures done { IfOk result (λ r. IfOk r (λ v.
        carried_out work.old.before.schema.description.tables commit work.old.before.rows (Operation.Alter table conditions.now alteration.now) work.old.rows
        ≡ Ok (record { rows = work.new.rows; answer = view v }))) }
    ensures fault { IfOk result (λ r. IfErr r (λ e.
        carried_out work.old.before.schema.description.tables commit work.old.before.rows (Operation.Alter table conditions.now alteration.now) work.old.rows ≡ Err e)) }
    ensures before { work.new.before ≡ work.old.before }
    ensures commit { IsCommit work.old.before.schema.description.tables work.old.before.rows work.old.rows commit
        → IfOk result (λ r. IfOk r (λ v. IsCommit work.old.before.schema.description.tables work.old.before.rows work.new.rows commit)) }
{
    match alter(alloc, work, commit, table, conditions, alteration)? {
        Ok(count) => Ok(Ok(count_json(alloc, count)?)),
        Err(fault) => Ok(Err(fault)),
    }
}

/// Carries out an operation on the rows that those before it left, in a transaction that began with the draft's base. Answers
/// the member of the result that stands for it, or its fault (RFC 7047 section 5.2):
///
/// - `RangeError`: a sum or a difference that doesn't fit 64 bits.
/// - `Constraint`: a column of one element would have more or none.
///
/// Where a fault is the answer, or memory runs out, the rows may be altered in part.
///
/// # Errors
/// `NoMemory` alone.
pub(crate) fn carried_out(
    alloc: Global,
    work: &mut Draft<'_>,
    commit: TxnId,
    operation: &Operation,
) -> Result<Result<Value, OperationError>, NoMemory>
    requires operation { IsOperationOf work.old.before.schema.description.tables operation.now }
    ensures done { IfOk result (λ r. IfOk r (λ v.
        carried_out work.old.before.schema.description.tables commit work.old.before.rows operation.now work.old.rows
        ≡ Ok (record { rows = work.new.rows; answer = view v }))) }
    ensures fault { IfOk result (λ r. IfErr r (λ e.
        carried_out work.old.before.schema.description.tables commit work.old.before.rows operation.now work.old.rows ≡ Err e)) }
    ensures before { work.new.before ≡ work.old.before }
    // Versions stay those of a commit with this id.
    ensures commit { IsCommit work.old.before.schema.description.tables work.old.before.rows work.old.rows commit
        → IfOk result (λ r. IfOk r (λ v. IsCommit work.old.before.schema.description.tables work.old.before.rows work.new.rows commit)) }
{
    match operation {
        Operation::Insert { place, mutations } => {
            insert(alloc, work, commit, *place, mutations.as_slice())
        }
        Operation::Alter {
            table,
            conditions,
            alteration,
        } => alter_counted(alloc, work, commit, *table, conditions, alteration),
        Operation::Select(select) => Ok(Ok(select.run_draft(alloc, work)?)),
        Operation::Nothing => Ok(Ok(Value::Object(Map::new(alloc)))),
    }
}
