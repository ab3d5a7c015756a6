//! The columns that a query shows.

ghost use Rattle.std.specs.Prelude.{◌≡◌, ◌++◌, IfOk};
ghost use Rattle.serde_json.specs.View.{view, items_view};
ghost use Rattle.ovs_query.specs.ConditionReading.{read_shown, read_each_shown, read_listed, numbered_from, all_but_id, all_shown};

use crate::error::QueryError;
use crate::projected::{Field, Projected, ShownColumns};
use crate::reading::fields::{field_named, id_column, shown_field};
use ovs_json::with_one;
use ovs_types::{NamedColumn, NamedColumns, NoMemory};
use serde_json::Value;
use std::alloc::Global;

// These, and all columns after them.
fn with_all(
    alloc: Global,
    mut items: Vec<Projected>,
    columns: &[NamedColumn],
) -> Result<ShownColumns, NoMemory>
    ensures value { IfOk result (λ s. s ≡ items.items ++ numbered_from 0 columns.now) }
{
    for (number, named) in columns.iter().enumerate() {
        let name = named.name.as_str();
        items.push(shown_field(alloc, name, Field::Column(number), named.column)?)?;
    }
    Ok(ShownColumns::new(items))
}

/// The version and all columns.
pub(crate) fn all_but_id(alloc: Global, columns: &[NamedColumn]) -> Result<ShownColumns, NoMemory>
    ensures value { IfOk result (λ s. s ≡ all_but_id columns.now) }
{
    let mut items = Vec::new(alloc);
    items.push(shown_field(alloc, "_version", Field::Version, id_column())?)?;
    with_all(alloc, items, columns)
}

/// The id, the version and all columns.
pub(crate) fn all_shown(alloc: Global, columns: &[NamedColumn]) -> Result<ShownColumns, NoMemory>
    ensures value { IfOk result (λ s. s ≡ all_shown columns.now) }
{
    let mut items = Vec::new(alloc);
    items.push(shown_field(alloc, "_uuid", Field::Id, id_column())?)?;
    items.push(shown_field(alloc, "_version", Field::Version, id_column())?)?;
    with_all(alloc, items, columns)
}

// A column by its name; what is no text has the fault.
fn read_shown(
    alloc: Global,
    fault: QueryError,
    columns: &NamedColumns,
    value: &Value,
) -> Result<Result<Projected, QueryError>, NoMemory>
    ensures exact { IfOk result (λ r. r ≡ read_shown fault columns.now (view value.now)) }
{
    let Some(name) = value.as_str() else {
        return Ok(Err(fault));
    };
    match field_named(columns, name) {
        Some((field, column)) => Ok(Ok(shown_field(alloc, name, field, column)?)),
        None => Ok(Err(QueryError::UnknownColumn)),
    }
}

fn read_each_shown(
    alloc: Global,
    fault: QueryError,
    columns: &NamedColumns,
    values: &[Value],
) -> Result<Result<ShownColumns, QueryError>, NoMemory>
    ensures exact { IfOk result (λ r. r ≡ read_each_shown fault columns.now (items_view values.now)) }
{
    let mut so_far = Ok(Vec::new(alloc));
    for value in values {
        so_far = with_one(so_far, read_shown(alloc, fault, columns, value)?)?;
    }
    match so_far {
        Ok(items) => Ok(Ok(ShownColumns::new(items))),
        Err(fault) => Ok(Err(fault)),
    }
}

/// A list of columns by their names; where it is none, or a name is no text, it has the fault.
pub(crate) fn read_listed(
    alloc: Global,
    fault: QueryError,
    columns: &NamedColumns,
    value: &Value,
) -> Result<Result<ShownColumns, QueryError>, NoMemory>
    ensures exact { IfOk result (λ r. r ≡ read_listed fault columns.now (view value.now)) }
{
    match value.as_array() {
        Some(values) => read_each_shown(alloc, fault, columns, values),
        None => Ok(Err(fault)),
    }
}
