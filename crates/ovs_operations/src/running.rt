//! All operations of a transaction, one after the other (RFC 7047 section 4.1.3).

ghost use Rattle.std.specs.Prelude.{◌≡◌, ◌++◌, Some, None, Ok, Err, true, IfOk, IfErr, OnOk, map, if◌then◌else◌};
ghost use Rattle.serde_json.specs.Data.{null};
ghost use Rattle.serde_json.specs.View.{view};
ghost use Rattle.ovs_rows.specs.DatabaseDifference.{database_difference};
ghost use Rattle.ovs_operations.specs.Effect.{outcome_of, first_given, later_given, effect};
ghost use Rattle.ovs_operations.specs.Given.{context_of, MayCommit, ComesTo};

use crate::carrying::carried_out;
use crate::operation_error::OperationError;
use crate::reading::operation::read_operation;
use crate::transaction_context::TransactionContext;
use ovs_json::error_json;
use ovs_rows::{Change, Draft};
use ovs_types::{NoMemory, RowId, Schema};
use serde_json::Value;
use std::alloc::Global;

// Reads an operation, which is given an id if it inserts a row, and carries it out.
fn outcome_of(
    alloc: Global,
    context: &TransactionContext<'_>,
    schema: &Schema,
    id: Option<RowId>,
    operation: &Value,
    work: &mut Draft<'_>,
) -> Result<Result<Value, OperationError>, NoMemory>
    requires schema { schema.now ≡ context.now.before.now.schema }
    requires before { work.old.before ≡ context.now.before.now }
    ensures done { IfOk result (λ r. IfOk r (λ v. outcome_of (context_of context.now) id (view operation.now) work.old.rows ≡ Ok (record { rows = work.new.rows; answer = view v }))) }
    ensures fault { IfOk result (λ r. IfErr r (λ e. outcome_of (context_of context.now) id (view operation.now) work.old.rows ≡ Err e)) }
    ensures before { work.new.before ≡ work.old.before }
    ensures commit { MayCommit context.now work.old.rows → IfOk result (λ r. IfOk r (λ v. MayCommit context.now work.new.rows)) }
{
    match read_operation(alloc, context, schema, id, operation)? {
        Ok(operation) => carried_out(alloc, work, context.commit, &operation),
        Err(fault) => Ok(Err(fault)),
    }
}

fn add_nulls(answers: &mut Vec<Value>, operations: &[Value]) -> Result<(), NoMemory>
    ensures value { OnOk result (map view answers.new.items ≡ map view answers.old.items ++ map (λ d. null) (map view operations.now)) }
{
    let mut left = operations;
    while let [_, rest @ ..] = left {
        answers.push(Value::Null)?;
        left = rest;
    }
    Ok(())
}

// The id that the first operation is given, and those of the later ones.
fn next_given(ids: &[Option<RowId>]) -> (Option<RowId>, &[Option<RowId>])
    ensures first { result.0 ≡ first_given ids.now }
    ensures later { result.1.now ≡ later_given ids.now }
{
    match ids {
        [id, later @ ..] => (*id, later),
        [] => (None, ids),
    }
}

// All operations, up to the first that fails. Answers whether none did.
fn run_all(
    alloc: Global,
    context: &TransactionContext<'_>,
    schema: &Schema,
    row_ids: &[Option<RowId>],
    operations: &[Value],
    work: &mut Draft<'_>,
    answers: &mut Vec<Value>,
) -> Result<bool, NoMemory>
    requires schema { schema.now ≡ context.now.before.now.schema }
    requires before { work.old.before ≡ context.now.before.now }
    ensures answers { OnOk result (map view answers.new.items ≡ map view answers.old.items ++ (effect (context_of context.now) (map view operations.now) row_ids.now work.old.rows).answers) }
    ensures rows { IfOk result (λ fine. (effect (context_of context.now) (map view operations.now) row_ids.now work.old.rows).rows ≡ (if fine then Some work.new.rows else None)) }
    ensures before { work.new.before ≡ work.old.before }
    ensures commit { MayCommit context.now work.old.rows → IfOk result (λ fine. fine ≡ true → MayCommit context.now work.new.rows) }
{
    let mut left = operations;
    let mut ids = row_ids;
    while let [operation, rest @ ..] = left {
        let (id, later) = next_given(ids);
        match outcome_of(alloc, context, schema, id, operation, work)? {
            Ok(answer) => answers.push(answer)?,
            Err(fault) => {
                answers.push(error_json(alloc, fault.text())?)?;
                add_nulls(answers, rest)?;
                return Ok(false);
            }
        }
        left = rest;
        ids = later;
    }
    Ok(true)
}

// The change to the draft, where it is asked for.
fn change_where(alloc: Global, asked: bool, work: &Draft<'_>) -> Result<Option<Change>, NoMemory>
    ensures value { IfOk result (λ change. change ≡ (if asked then Some (database_difference work.now.before.schema.description.tables work.now.before.rows work.now.rows) else None)) }
{
    if asked {
        Ok(Some(work.change(alloc)?))
    } else {
        Ok(None)
    }
}

/// What the operations of a transaction came to.
#[derive(Drop)]
pub struct RunResult {
    /// A result for each operation: its own up to the first that failed, `{"error": TEXT}` for that one, and null for those after it.
    pub answers: Vec<Value>,
    /// The change that leads from the database before the operations to the one after them, where none failed.
    pub change: Option<Change>,
}

/// Carries the operations of a transaction out, one after the other, up to the first that fails. Those that insert rows are
/// given ids. They work in a draft of the database before the transaction, which isn't changed itself.
///
/// # Errors
/// `NoMemory` alone.
pub fn run(
    alloc: Global,
    context: &TransactionContext<'_>,
    row_ids: &[Option<RowId>],
    operations: &[Value],
) -> Result<RunResult, NoMemory>
    ensures answers { IfOk result (λ c. map view c.answers.items ≡ (effect (context_of context.now) (map view operations.now) row_ids.now context.now.before.now.rows).answers) }
    // The rows after the operations may be committed, and the change leads to them.
    ensures change { IfOk result (λ c. ComesTo (context_of context.now) (effect (context_of context.now) (map view operations.now) row_ids.now context.now.before.now.rows).rows c.change) }
{
    let mut work = Draft::new(alloc, context.before);
    let mut answers = Vec::with_capacity(alloc, operations.len())?;
    let schema = context.before.schema();
    let fine = run_all(
        alloc,
        context,
        schema,
        row_ids,
        operations,
        &mut work,
        &mut answers,
    )?;
    let change = change_where(alloc, fine, &work)?;
    Ok(RunResult { answers, change })
}
