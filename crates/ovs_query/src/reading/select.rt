//! Selects out of JSON (RFC 7047 section 5.2.2).

ghost use Rattle.std.specs.Prelude.{◌≡◌, ◌≢◌, IfOk, Some, Ok, Err, option_map, codes};
ghost use Rattle.serde_json.specs.View.{view};
ghost use Rattle.serde_json.specs.Find.{get};
ghost use Rattle.ovs_json.specs.FirstFault.{IsWorst};
ghost use Rattle.ovs_json.specs.Gives.{Gives};
ghost use Rattle.ovs_types.specs.NamedReading.{SpellsNamed};
ghost use Rattle.ovs_types.specs.Spelling.{Spells};
ghost use Rattle.ovs_query.specs.declared.error.QueryError.TheVariants as faults;
ghost use Rattle.ovs_query.specs.Faults.{rank};
ghost use Rattle.ovs_query.specs.ConditionReading.{plain, named, all_shown, read_columns};
ghost use Rattle.ovs_query.specs.SelectReading.{read_where, read_select};
ghost use Rattle.ovs_query.specs.SelectSpelling.{SpellsConditions, SpellsSelect, IsSelectOf};
ghost use Rattle.ovs_query.specs.QueryFaults.{InPlain, InNamed, InConditions, InSelect};

use crate::conditions::Conditions;
use crate::error::QueryError;
use crate::projected::ShownColumns;
use crate::reading::columns::{all_shown, read_listed};
use crate::reading::conditions::{PlainValues, ValueReader, read_conditions};
use crate::select::Select;
use ovs_json::both;
use ovs_types::{NamedColumns, NamedIds, NoMemory, Schema, Table};
use serde_json::Value;
use std::alloc::Global;

// "where", which has to be there.
fn read_where<R: ValueReader>(
    alloc: Global,
    reader: &R,
    columns: &NamedColumns,
    value: Option<&Value>,
) -> Result<Result<Conditions, QueryError>, NoMemory>
    ensures exact { IfOk result (λ r. r ≡ read_where (R.datum reader.now) columns.now (option_map (λ v. view v.now) value.entry)) }
{
    match value {
        Some(value) => match value.as_array() {
            Some(values) => read_conditions(alloc, reader, columns, values),
            None => Ok(Err(QueryError::BadCondition)),
        },
        None => Ok(Err(QueryError::BadOperation)),
    }
}

// "columns", by default all.
fn read_columns(
    alloc: Global,
    columns: &NamedColumns,
    value: Option<&Value>,
) -> Result<Result<ShownColumns, QueryError>, NoMemory>
    ensures exact { IfOk result (λ r. r ≡ read_columns faults.BadOperation (all_shown columns.now) columns.now (option_map (λ v. view v.now) value.entry)) }
{
    match value {
        Some(value) => read_listed(alloc, QueryError::BadOperation, columns, value),
        None => Ok(Ok(all_shown(alloc, columns.as_slice())?)),
    }
}

/// What a select is read as: a select, or the first of its faults.
pub(crate) fn read_select<R: ValueReader>(
    alloc: Global,
    reader: &R,
    value: &Value,
    schema: &Schema,
) -> Result<Result<Select, QueryError>, NoMemory>
    ensures exact { IfOk result (λ r. r ≡ read_select (R.datum reader.now) schema.now.description.tables (view value.now)) }
{
    let Some(name) = value.get("table").and_then(Value::as_str) else {
        return Ok(Err(QueryError::BadOperation));
    };
    let Some((number, table)) = schema.table(name) else {
        return Ok(Err(QueryError::UnknownTable));
    };
    let conditions = read_where(alloc, reader, &table.columns, value.get("where"))?;
    let shown = read_columns(alloc, &table.columns, value.get("columns"))?;
    match both(conditions, shown) {
        Ok((conditions, shown)) => Ok(Ok(Select {
            table: number,
            conditions,
            shown,
        })),
        Err(fault) => Ok(Err(fault)),
    }
}

fn named_conditions(
    alloc: Global,
    value: &Value,
    table: &Table,
    names: &NamedIds,
) -> Result<Conditions, QueryError>
    ensures exact { Gives faults.NoMemory (λ c. c) result (read_where (named names.now) table.now.columns (Some (view value.now))) }
{
    read_where(alloc, names, &table.columns, Some(value))?
}

impl Conditions {
    /// The conditions on rows of a table that a list stands for, in which names may stand for ids.
    ///
    /// # Errors
    /// The first of `UnknownColumn`, `BadCondition` and `UnknownName` that a part of it has; or `NoMemory`.
    pub fn read_named(
        alloc: Global,
        value: &Value,
        table: &Table,
        names: &NamedIds,
    ) -> Result<Conditions, QueryError>
        // What is read is spelled so.
        ensures found { IfOk result (SpellsConditions (SpellsNamed names.now) table.now.columns (view value.now)) }
        // What is spelled so is read, unless memory runs out.
        ensures only { (x : _) → SpellsConditions (SpellsNamed names.now) table.now.columns (view value.now) x → Gives faults.NoMemory (λ c. c) result (Ok x) }
        ensures exact { Gives faults.NoMemory (λ c. c) result (read_where (named names.now) table.now.columns (Some (view value.now))) }
        // A fault is one that the value has, and none that it has comes before it.
        ensures worst { result ≢ Err faults.NoMemory → IsWorst rank (InConditions (InNamed names.now) table.now.columns (view value.now)) result }
    {
        named_conditions(alloc, value, table, names)
    }
}

fn named_select(
    alloc: Global,
    value: &Value,
    schema: &Schema,
    names: &NamedIds,
) -> Result<Select, QueryError>
    ensures exact { Gives faults.NoMemory (λ s. s) result (read_select (named names.now) schema.now.description.tables (view value.now)) }
{
    read_select(alloc, names, value, schema)?
}

fn select_of(alloc: Global, value: &Value, schema: &Schema) -> Result<Select, QueryError>
    ensures exact { Gives faults.NoMemory (λ s. s) result (read_select plain schema.now.description.tables (view value.now)) }
{
    read_select(alloc, &PlainValues, value, schema)?
}

impl Select {
    /// The select that an operation stands for: "table", "where", and "columns" if not all are meant. The value of "op" and other
    /// members aren't looked at.
    ///
    /// # Errors
    /// The first of `UnknownTable`, `UnknownColumn`, `BadCondition` and `BadOperation` that a part of it has; or `NoMemory`.
    pub fn read(alloc: Global, value: &Value, schema: &Schema) -> Result<Select, QueryError>
        // What is read is spelled so.
        ensures found { IfOk result (SpellsSelect Spells schema.now.description.tables (view value.now)) }
        // What is spelled so is read, unless memory runs out.
        ensures only { (x : _) → SpellsSelect Spells schema.now.description.tables (view value.now) x → Gives faults.NoMemory (λ s. s) result (Ok x) }
        ensures exact { Gives faults.NoMemory (λ s. s) result (read_select plain schema.now.description.tables (view value.now)) }
        // A fault is one that the value has, and none that it has comes before it.
        ensures worst { result ≢ Err faults.NoMemory → IsWorst rank (InSelect InPlain schema.now.description.tables (view value.now)) result }
        ensures tables { IfOk result (IsSelectOf schema.now.description.tables) }
    {
        select_of(alloc, value, schema)
    }
    /// The select that an operation stands for, as `read` reads it, in which names may stand for ids.
    ///
    /// # Errors
    /// As those of `read`; and `UnknownName`, after `BadCondition`, where a name stands for no id.
    pub fn read_named(
        alloc: Global,
        value: &Value,
        schema: &Schema,
        names: &NamedIds,
    ) -> Result<Select, QueryError>
        // What is read is spelled so.
        ensures found { IfOk result (SpellsSelect (SpellsNamed names.now) schema.now.description.tables (view value.now)) }
        // What is spelled so is read, unless memory runs out.
        ensures only { (x : _) → SpellsSelect (SpellsNamed names.now) schema.now.description.tables (view value.now) x → Gives faults.NoMemory (λ s. s) result (Ok x) }
        ensures exact { Gives faults.NoMemory (λ s. s) result (read_select (named names.now) schema.now.description.tables (view value.now)) }
        // A fault is one that the value has, and none that it has comes before it.
        ensures worst { result ≢ Err faults.NoMemory → IsWorst rank (InSelect (InNamed names.now) schema.now.description.tables (view value.now)) result }
        ensures tables { IfOk result (IsSelectOf schema.now.description.tables) }
    {
        named_select(alloc, value, schema, names)
    }
}
