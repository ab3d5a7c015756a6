//! Transactions that only read (RFC 7047 section 4.1.3).

ghost use Rattle.std.specs.Prelude.{◌≡◌, IfOk, List, map, true, false};
ghost use Rattle.std.specs.List.{list_all};
ghost use Rattle.serde_json.specs.View.{view, items_view, items_of};
ghost use Rattle.serde_json.specs.Data.{Data, array};
ghost use Rattle.ovs_query.specs.Answer.{is_operation, only_reads, comment_result, select_result, result_of, results, seen, AreResults};

use crate::error::QueryError;
use crate::reading::conditions::PlainValues;
use crate::reading::select::read_select;
use ovs_json::{error_json, is_word};
use ovs_rows::Database;
use ovs_types::NoMemory;
use serde_json::{Map, Value};
use std::alloc::Global;

fn is_operation(word: &str, operation: &Value) -> bool
    ensures value { result ≡ is_operation word.now (view operation.now) }
{
    match operation.get("op") {
        Some(name) => is_word(word, name),
        None => false,
    }
}

fn only_reads(operation: &Value) -> bool
    ensures value { result ≡ only_reads (view operation.now) }
{
    is_operation("select", operation) || is_operation("comment", operation)
}

/// Whether each operation is a "select" or a "comment", so that the transaction changes nothing. No memory is taken.
pub fn read_only(operations: &[Value]) -> bool
    ensures value { result ≡ list_all (λ v. only_reads (view v)) operations.now }
{
    operations.iter().all(only_reads)
}

// A comment needs a text, and does nothing.
fn comment_result(alloc: Global, operation: &Value) -> Result<Value, QueryError>
    ensures value { seen result ≡ comment_result (view operation.now) }
{
    match operation.get("comment").and_then(Value::as_str) {
        Some(_) => Ok(Value::Object(Map::new(alloc))),
        None => Err(QueryError::BadOperation),
    }
}

fn select_result(
    alloc: Global,
    database: &Database,
    operation: &Value,
) -> Result<Result<Value, QueryError>, NoMemory>
    ensures value { IfOk result (λ r. seen r ≡ select_result database.now.schema.description.tables database.now.rows (view operation.now)) }
{
    match read_select(alloc, &PlainValues, operation, database.schema())? {
        Ok(select) => Ok(Ok(select.run(alloc, database)?)),
        Err(fault) => Ok(Err(fault)),
    }
}

// What one operation gives, or its fault.
fn result_of(
    alloc: Global,
    database: &Database,
    operation: &Value,
) -> Result<Result<Value, QueryError>, NoMemory>
    ensures value { IfOk result (λ r. seen r ≡ result_of database.now.schema.description.tables database.now.rows (view operation.now)) }
{
    if is_operation("comment", operation) {
        Ok(comment_result(alloc, operation))
    } else {
        select_result(alloc, database, operation)
    }
}

// A result for each operation, null for those after the first that fails.
fn results_of(
    alloc: Global,
    database: &Database,
    operations: &[Value],
) -> Result<Vec<Value>, NoMemory>
    ensures value { IfOk result (λ v. map view v.items ≡ results database.now.schema.description.tables database.now.rows false (items_view operations.now)) }
{
    let mut answers = Vec::with_capacity(alloc, operations.len())?;
    let mut failed = false;
    for operation in operations {
        if failed {
            answers.push(Value::Null)?;
        } else {
            match result_of(alloc, database, operation)? {
                Ok(value) => answers.push(value)?,
                Err(fault) => {
                    answers.push(error_json(alloc, fault.text())?)?;
                    failed = true;
                }
            }
        }
    }
    Ok(answers)
}

/// The results of the operations, all of them from one database: a select's rows, `{}` for a comment, and for the first that
/// fails `{"error": TEXT}` and null for those after it.
///
/// # Errors
/// `NoMemory` alone.
pub fn transact_read(
    alloc: Global,
    database: &Database,
    operations: &[Value],
) -> Result<Value, NoMemory>
    requires read_only { list_all (λ v. only_reads (view v)) operations.now ≡ true }
    ensures value { IfOk result (λ v. view v ≡ array (items_of (results database.now.schema.description.tables database.now.rows false (items_view operations.now)))) }
    // One result for each operation: its own up to the first that fails, and null after it.
    ensures each { IfOk result (λ v. (answers : List Data) × (view v ≡ array (items_of answers)) × AreResults database.now.schema.description.tables database.now.rows (map view operations.now) answers) }
{
    Ok(Value::Array(results_of(alloc, database, operations)?))
}
