//! What a monitor asks of one table, out of JSON (RFC 7047 section 4.1.5; ovsdb-server(7)).

ghost use Rattle.std.specs.Prelude.{◌≡◌, IfOk, option_map, slice_get};
ghost use Rattle.serde_json.specs.View.{view, items_view};
ghost use Rattle.ovs_json.specs.FirstFault.{items_of};
ghost use Rattle.ovs_query.specs.declared.error.QueryError.TheVariants as faults;
ghost use Rattle.ovs_query.specs.ConditionReading.{all_but_id, read_columns};
ghost use Rattle.ovs_query.specs.MonitorReading.{read_kind, read_each_kind, all_kinds, read_kinds, read_clause, read_each_clause, read_clauses, where_in, read_parts, read_request, read_each_request, at_most_one, read_array, read_requests};

use crate::clauses::{Clause, Clauses};
use crate::error::QueryError;
use crate::monitor::{Kinds, Notation, Watched};
use crate::projected::ShownColumns;
use crate::reading::columns::{all_but_id, read_listed};
use crate::reading::conditions::{PlainValues, read_condition};
use ovs_json::{both, with_one};
use ovs_types::{NamedColumns, NoMemory, Table};
use serde_json::Value;
use std::alloc::Global;

// ---- kinds of updates

// Whether a kind is asked for: so it is unless the opposite is said.
fn read_kind(value: Option<&Value>) -> Result<bool, QueryError>
    ensures exact { result ≡ read_kind (option_map (λ v. view v.now) value.entry) }
{
    match value {
        Some(value) => match value.as_bool() {
            Some(asked) => Ok(asked),
            None => Err(QueryError::BadSelect),
        },
        None => Ok(true),
    }
}

// The kinds that an object names.
fn read_each_kind(value: &Value) -> Result<Kinds, QueryError>
    ensures exact { result ≡ read_each_kind (view value.now) }
{
    Ok(Kinds {
        initial: read_kind(value.get("initial"))?,
        insert: read_kind(value.get("insert"))?,
        delete: read_kind(value.get("delete"))?,
        modify: read_kind(value.get("modify"))?,
    })
}

fn all_kinds() -> Kinds
    ensures value { result ≡ all_kinds }
{
    Kinds {
        initial: true,
        insert: true,
        delete: true,
        modify: true,
    }
}

// "select", by default all kinds.
fn read_kinds(value: Option<&Value>) -> Result<Kinds, QueryError>
    ensures exact { result ≡ read_kinds (option_map (λ v. view v.now) value.entry) }
{
    match value {
        Some(value) => match value.as_object() {
            Some(_) => read_each_kind(value),
            None => Err(QueryError::BadSelect),
        },
        None => Ok(all_kinds()),
    }
}

// ---- clauses

// A constant, or else a condition.
fn read_clause(
    alloc: Global,
    columns: &NamedColumns,
    value: &Value,
) -> Result<Result<Clause, QueryError>, NoMemory>
    ensures exact { IfOk result (λ r. r ≡ read_clause columns.now (view value.now)) }
{
    match value.as_bool() {
        Some(truth) => Ok(Ok(Clause::Always(truth))),
        None => match read_condition(alloc, &PlainValues, columns, value)? {
            Ok(condition) => Ok(Ok(Clause::Where(condition))),
            Err(fault) => Ok(Err(fault)),
        },
    }
}

fn read_each_clause(
    alloc: Global,
    columns: &NamedColumns,
    values: &[Value],
) -> Result<Result<Clauses, QueryError>, NoMemory>
    ensures exact { IfOk result (λ r. r ≡ read_each_clause columns.now (items_view values.now)) }
{
    let mut so_far = Ok(Vec::new(alloc));
    for value in values {
        so_far = with_one(so_far, read_clause(alloc, columns, value)?)?;
    }
    match so_far {
        Ok(items) => Ok(Ok(Clauses::new(items))),
        Err(fault) => Ok(Err(fault)),
    }
}

// "where", by default no clauses.
fn read_clauses(
    alloc: Global,
    columns: &NamedColumns,
    value: Option<&Value>,
) -> Result<Result<Clauses, QueryError>, NoMemory>
    ensures exact { IfOk result (λ r. r ≡ read_clauses columns.now (option_map (λ v. view v.now) value.entry)) }
{
    match value {
        Some(value) => match value.as_array() {
            Some(values) => read_each_clause(alloc, columns, values),
            None => Ok(Err(QueryError::BadCondition)),
        },
        None => Ok(Ok(Clauses::new(Vec::new(alloc)))),
    }
}

// The "where" of a request, which isn't looked at in the notation of whole rows.
fn where_in(notation: Notation, value: &Value) -> Option<&Value>
    ensures value { option_map (λ v. view v.now) result ≡ where_in notation (view value.now) }
{
    match notation {
        Notation::Update => None,
        Notation::Update2 | Notation::Update3 => value.get("where"),
    }
}

// ---- requests

// "columns", by default all but `_uuid`.
fn read_columns(
    alloc: Global,
    columns: &NamedColumns,
    value: Option<&Value>,
) -> Result<Result<ShownColumns, QueryError>, NoMemory>
    ensures exact { IfOk result (λ r. r ≡ read_columns faults.BadSelect (all_but_id columns.now) columns.now (option_map (λ v. view v.now) value.entry)) }
{
    match value {
        Some(value) => read_listed(alloc, QueryError::BadSelect, columns, value),
        None => Ok(Ok(all_but_id(alloc, columns.as_slice())?)),
    }
}

// The parts of a request, all of which are looked at.
fn read_parts(
    alloc: Global,
    notation: Notation,
    columns: &NamedColumns,
    value: &Value,
) -> Result<Result<((ShownColumns, Clauses), Kinds), QueryError>, NoMemory>
    ensures exact { IfOk result (λ r. r ≡ read_parts notation columns.now (view value.now)) }
{
    let shown = read_columns(alloc, columns, value.get("columns"))?;
    let clauses = read_clauses(alloc, columns, where_in(notation, value))?;
    let kinds = read_kinds(value.get("select"));
    Ok(both(both(shown, clauses), kinds))
}

// A request of a table.
fn read_request(
    alloc: Global,
    notation: Notation,
    table: &Table,
    value: &Value,
) -> Result<Result<Watched, QueryError>, NoMemory>
    ensures exact { IfOk result (λ r. r ≡ read_request notation table.now (view value.now)) }
{
    let Some(_) = value.as_object() else {
        return Ok(Err(QueryError::BadSelect));
    };
    match read_parts(alloc, notation, &table.columns, value)? {
        Ok(((shown, clauses), kinds)) => Ok(Ok(Watched {
            name: table.name.copy()?,
            shown,
            clauses,
            kinds,
        })),
        Err(fault) => Ok(Err(fault)),
    }
}

// The requests of an array, all of which are looked at.
fn read_each_request(
    alloc: Global,
    notation: Notation,
    table: &Table,
    values: &[Value],
) -> Result<Result<Vec<Watched>, QueryError>, NoMemory>
    ensures exact { IfOk result (λ r. items_of r ≡ read_each_request notation table.now (items_view values.now)) }
{
    let mut so_far = Ok(Vec::new(alloc));
    for value in values {
        so_far = with_one(so_far, read_request(alloc, notation, table, value)?)?;
    }
    Ok(so_far)
}

// An array has one request at most.
fn at_most_one(values: &[Value]) -> Result<(), QueryError>
    ensures exact { result ≡ at_most_one (items_view values.now) }
{
    match values {
        [] => Ok(()),
        [_] => Ok(()),
        _ => Err(QueryError::ManyRequests),
    }
}

fn first(watched: Vec<Watched>) -> Option<Watched>
    ensures value { result ≡ slice_get watched.items 0 }
{
    watched.into_iter().next()
}

// The request of an array, if it has one. All are looked at for faults.
fn read_array(
    alloc: Global,
    notation: Notation,
    table: &Table,
    values: &[Value],
) -> Result<Result<Option<Watched>, QueryError>, NoMemory>
    ensures exact { IfOk result (λ r. r ≡ read_array notation table.now (items_view values.now)) }
{
    let each = read_each_request(alloc, notation, table, values)?;
    match both(each, at_most_one(values)) {
        Ok((watched, _)) => Ok(Ok(first(watched))),
        Err(fault) => Ok(Err(fault)),
    }
}

/// What is asked of a table, if anything is: by a request that stands alone or in an array.
pub(crate) fn read_requests(
    alloc: Global,
    notation: Notation,
    table: &Table,
    value: &Value,
) -> Result<Result<Option<Watched>, QueryError>, NoMemory>
    ensures exact { IfOk result (λ r. r ≡ read_requests notation table.now (view value.now)) }
{
    match value {
        Value::Array(values) => read_array(alloc, notation, table, values),
        _ => match read_request(alloc, notation, table, value)? {
            Ok(watched) => Ok(Ok(Some(watched))),
            Err(fault) => Ok(Err(fault)),
        },
    }
}
