//! What an operation makes of the rows that match (RFC 7047 sections 5.2.3 to 5.2.5).

ghost use Rattle.std.specs.Prelude.{◌≡◌, ◌≤◌, ◌+◌, ℕ, IfOk, IfErr, IfSome, Ok, Err, option_map};
ghost use Rattle.std.specs.Option.{option_copied};
ghost use Rattle.ovs_rows.specs.Row.{AreDataOf, columns_at};
ghost use Rattle.ovs_operations.specs.Altering.{IsAlterationOf, AreOfCommit, row_of, altered, columns_in, row_altered, rows_altered};

use crate::mutating::write_all;
use crate::operation::Alteration;
use crate::operation_error::OperationError;
use ovs_json::NoMemory;
use ovs_query::Conditions;
use ovs_rows::{Columns, Draft, Row, RowKey, SharedRow};
use ovs_types::{NamedColumn, RowId, Table, TxnId};
use std::alloc::Global;

/// The columns of the table of this number, and none past the last.
pub(crate) fn columns_at(tables: &[Table], number: usize) -> &[NamedColumn]
    ensures value { result.now ≡ columns_at tables.now number }
{
    match tables.get(number) {
        Some(table) => table.columns.as_slice(),
        None => &[],
    }
}

// The row of these columns: it keeps the version that it had before the transaction where its columns are those from then, and
// else has the commit's id. So a row that is changed and changed back isn't changed.
fn row_of(commit: TxnId, before: Option<&Row>, columns: Columns) -> Row
    ensures value { result ≡ row_of commit (option_copied before.entry) columns }
{
    let version = match before {
        Some(old) => {
            if columns.same(&old.columns) {
                old.version
            } else {
                commit
            }
        }
        None => commit,
    };
    Row { version, columns }
}

/// The row to be put where these columns are to stand, or none where none are.
///
/// # Errors
/// `NoMemory` alone.
pub(crate) fn row_or_none(
    alloc: Global,
    commit: TxnId,
    before: Option<&Row>,
    columns: Option<Columns>,
) -> Result<Option<SharedRow>, NoMemory>
    ensures value { IfOk result (λ row. row ≡ option_map (row_of commit (option_copied before.entry)) columns) }
{
    match columns {
        Some(columns) => Ok(Some(SharedRow::new(alloc, row_of(commit, before, columns))?)),
        None => Ok(None),
    }
}

// What becomes of the data of a row that matches: others, or none where the row goes.
fn altered(
    alloc: Global,
    columns: &[NamedColumn],
    alteration: &Alteration,
    old: &Columns,
) -> Result<Result<Option<Columns>, OperationError>, NoMemory>
    requires row { AreDataOf columns.now old.now }
    requires alteration { IsAlterationOf columns.now alteration.now }
    ensures exact { IfOk result (λ r. r ≡ altered columns.now alteration.now old.now) }
    ensures kept { IfOk result (λ r. IfOk r (λ o. IfSome o (AreDataOf columns.now))) }
{
    match alteration {
        Alteration::Write(mutations) => {
            match write_all(alloc, columns, old.copy()?, mutations.as_slice())? {
                Ok(new) => Ok(Ok(Some(new))),
                Err(fault) => Ok(Err(fault)),
            }
        }
        Alteration::Delete => Ok(Ok(None)),
    }
}

// Alters the row of this id, if it is there and matches. Answers how many have matched: one or none.
fn alter_row(
    alloc: Global,
    work: &mut Draft<'_>,
    commit: TxnId,
    table: usize,
    id: RowId,
    conditions: &Conditions,
    alteration: &Alteration,
) -> Result<Result<usize, OperationError>, NoMemory>
    requires alteration { IsAlterationOf (columns_in work.old table) alteration.now }
    ensures done { IfOk result (λ r. IfOk r (λ n. (count : ℕ) →
        row_altered commit work.old (record { table = table; id = id }) conditions.now alteration.now count
        ≡ Ok (record { rows = work.new.rows; count = count + n }))) }
    ensures fault { IfOk result (λ r. IfErr r (λ e. (count : ℕ) →
        row_altered commit work.old (record { table = table; id = id }) conditions.now alteration.now count ≡ Err e)) }
    ensures most { IfOk result (λ r. IfOk r (λ n. n ≤ 1)) }
    ensures before { work.new.before ≡ work.old.before }
    ensures commit { AreOfCommit commit work.old work.old.rows → IfOk result (λ r. IfOk r (λ n. AreOfCommit commit work.old work.new.rows)) }
{
    let schema = work.schema();
    let Some(row) = work.row(RowKey { table, id }) else {
        return Ok(Ok(0));
    };
    if !conditions.matches(id, row) {
        return Ok(Ok(0));
    }
    let columns = columns_at(schema.tables(), table);
    match altered(alloc, columns, alteration, &row.columns)? {
        Ok(columns) => {
            let before = work.base().row(RowKey { table, id });
            let row = row_or_none(alloc, commit, before, columns)?;
            work.set_row(RowKey { table, id }, row)?;
            Ok(Ok(1))
        }
        Err(fault) => Ok(Err(fault)),
    }
}

// Alters the rows of the table one after the other.
fn alter_rows(
    alloc: Global,
    work: &mut Draft<'_>,
    commit: TxnId,
    table: usize,
    conditions: &Conditions,
    alteration: &Alteration,
) -> Result<Result<usize, OperationError>, NoMemory>
    requires alteration { IsAlterationOf (columns_in work.old table) alteration.now }
    ensures done { IfOk result (λ r. IfOk r (λ count.
        rows_altered commit work.old table conditions.now alteration.now ≡ Ok (record { rows = work.new.rows; count = count }))) }
    ensures fault { IfOk result (λ r. IfErr r (λ e.
        rows_altered commit work.old table conditions.now alteration.now ≡ Err e)) }
    ensures before { work.new.before ≡ work.old.before }
    ensures commit { AreOfCommit commit work.old work.old.rows → IfOk result (λ r. IfOk r (λ count. AreOfCommit commit work.old work.new.rows)) }
{
    let most = work.len_bound();
    let mut count = 0;
    let mut last = None;
    while let Some((id, _row)) = work.next_row(table, last) {
        match alter_row(alloc, work, commit, table, id, conditions, alteration)? {
            Ok(n) => count += n,
            Err(fault) => return Ok(Err(fault)),
        }
        last = Some(id);
    }
    prove!(count <= most);
    Ok(Ok(count))
}

/// Alters the rows of the table of this number of which all conditions hold, ascending by id, up to the first fault. Answers how
/// many have matched. Where a fault is the answer, or memory runs out, some may be altered.
///
/// # Errors
/// `NoMemory` alone.
pub(crate) fn alter(
    alloc: Global,
    work: &mut Draft<'_>,
    commit: TxnId,
    table: usize,
    conditions: &Conditions,
    alteration: &Alteration,
) -> Result<Result<usize, OperationError>, NoMemory>
    requires alteration { IsAlterationOf (columns_in work.old table) alteration.now }
    ensures done { IfOk result (λ r. IfOk r (λ count.
        rows_altered commit work.old table conditions.now alteration.now ≡ Ok (record { rows = work.new.rows; count = count }))) }
    ensures fault { IfOk result (λ r. IfErr r (λ e.
        rows_altered commit work.old table conditions.now alteration.now ≡ Err e)) }
    ensures before { work.new.before ≡ work.old.before }
    ensures commit { AreOfCommit commit work.old work.old.rows → IfOk result (λ r. IfOk r (λ count. AreOfCommit commit work.old work.new.rows)) }
{
    match conditions.row_id() {
        Some(id) => alter_row(alloc, work, commit, table, id, conditions, alteration),
        None => alter_rows(alloc, work, commit, table, conditions, alteration),
    }
}
