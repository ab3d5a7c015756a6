//! Schemas out of JSON (RFC 7047 section 3.2).
//!
//! All parts of a value are looked at, so that the first of its faults, in the order of `SchemaError`,
//! is found wherever it stands. So what a part is read as is a value, `Ok` or a fault, and the
//! functions that make texts and lists fail by memory alone.

ghost use Rattle.std.specs.Prelude.{◌≡◌, ◌≢◌, ℕ, List, IfOk, Ok, Err};
ghost use Rattle.serde_json.specs.View.{view, members_view};
ghost use Rattle.ovs_json.specs.Gives.{Gives};
ghost use Rattle.serde_json.specs.Data.{Data};
ghost use Rattle.ovs_json.specs.FirstFault.{IsWorst, items_of, read_all};
ghost use Rattle.ovs_types.specs.SchemaFaults.{Read, rank, HasFault};
ghost use Rattle.std.specs.List.Sorted.{IsStrictlySortedBy};
ghost use Rattle.std.specs.Map.{keys_of};
ghost use Rattle.std.specs.String.{string_cmp};
ghost use Rattle.ovs_types.specs.SchemaSpelling.{Spells};
ghost use Rattle.ovs_types.specs.declared.schema.error.SchemaError.TheVariants as faults;
ghost use Rattle.ovs_types.specs.SchemaReading.{checked_name, read_named_column, read_columns, columns_in, read_table, read_tables, tables_in, database_name, version, read_description};

use crate::schema::error::SchemaError;
use crate::schema::reading_column::read_column;
use crate::schema::{Description, NamedColumn, NamedColumns, Schema, Table, Tables};
use ovs_data::{is_id, is_name};
use ovs_json::{NoMemory, Text, both, with_one};
use serde_json::{Map, Value};
use std::alloc::Global;

// That a table or a column may have this name.
fn checked_name(name: &str) -> Result<(), SchemaError>
    ensures exact { result ≡ checked_name name.now }
{
    if is_name(name) {
        Ok(())
    } else {
        Err(SchemaError::BadId)
    }
}

// What stands under a name in an object: a column or a table.
trait SchemaMember: Drop {
    // What a member is read as.
    ghost read: { List ℕ → Data → Read Self };

    fn read(alloc: Global, name: &str, value: &Value) -> Result<Result<Self, SchemaError>, NoMemory>
        ensures exact { IfOk result (λ r. r ≡ read name.now (view value.now)) };
}

// All members of an object, whose names ascend.
fn read_members<M: SchemaMember>(
    alloc: Global,
    members: &Map<String, Value>,
) -> Result<Result<Vec<M>, SchemaError>, NoMemory>
    ensures exact { IfOk result (λ r. items_of r ≡ read_all rank M.read (members_view members.now.entries)) }
    ensures ordered { IsStrictlySortedBy string_cmp (keys_of members.now.entries) }
{
    let mut so_far = Ok(Vec::with_capacity(alloc, members.len())?);
    for (name, value) in members.iter() {
        so_far = with_one(so_far, M::read(alloc, name.as_str(), value)?)?;
    }
    Ok(so_far)
}

impl SchemaMember for NamedColumn {
    ghost read = { read_named_column };

    fn read(
        alloc: Global,
        name: &str,
        value: &Value,
    ) -> Result<Result<NamedColumn, SchemaError>, NoMemory> {
        match both(checked_name(name), read_column(value)) {
            Ok((_, column)) => Ok(Ok(NamedColumn {
                name: Text::new(alloc, name)?,
                column,
            })),
            Err(fault) => Ok(Err(fault)),
        }
    }
}

fn read_columns(
    alloc: Global,
    members: &Map<String, Value>,
) -> Result<Result<NamedColumns, SchemaError>, NoMemory>
    ensures exact { IfOk result (λ r. r ≡ read_columns (members_view members.now.entries)) }
{
    match read_members::<NamedColumn>(alloc, members)? {
        Ok(columns) => Ok(Ok(NamedColumns::new(columns))),
        Err(fault) => Ok(Err(fault)),
    }
}

fn columns_in(alloc: Global, value: &Value) -> Result<Result<NamedColumns, SchemaError>, NoMemory>
    ensures exact { IfOk result (λ r. r ≡ columns_in (view value.now)) }
{
    match value.get("columns").and_then(Value::as_object) {
        Some(members) => read_columns(alloc, members),
        None => Ok(Err(SchemaError::BadShape)),
    }
}

impl SchemaMember for Table {
    ghost read = { read_table };

    fn read(
        alloc: Global,
        name: &str,
        value: &Value,
    ) -> Result<Result<Table, SchemaError>, NoMemory> {
        match both(checked_name(name), columns_in(alloc, value)?) {
            Ok((_, columns)) => Ok(Ok(Table {
                name: Text::new(alloc, name)?,
                columns,
            })),
            Err(fault) => Ok(Err(fault)),
        }
    }
}

fn read_tables(
    alloc: Global,
    members: &Map<String, Value>,
) -> Result<Result<Tables, SchemaError>, NoMemory>
    ensures exact { IfOk result (λ r. r ≡ read_tables (members_view members.now.entries)) }
{
    match read_members::<Table>(alloc, members)? {
        Ok(tables) => Ok(Ok(Tables::new(tables))),
        Err(fault) => Ok(Err(fault)),
    }
}

fn tables_in(alloc: Global, value: &Value) -> Result<Result<Tables, SchemaError>, NoMemory>
    ensures exact { IfOk result (λ r. r ≡ tables_in (view value.now)) }
{
    match value.get("tables").and_then(Value::as_object) {
        Some(members) => read_tables(alloc, members),
        None => Ok(Err(SchemaError::BadShape)),
    }
}

fn database_name(alloc: Global, value: &Value) -> Result<Result<Text, SchemaError>, NoMemory>
    ensures exact { IfOk result (λ r. r ≡ database_name (view value.now)) }
{
    match value.get("name").and_then(Value::as_str) {
        Some(name) => {
            if is_id(name) {
                Ok(Ok(Text::new(alloc, name)?))
            } else {
                Ok(Err(SchemaError::BadId))
            }
        }
        None => Ok(Err(SchemaError::BadShape)),
    }
}

// That there is a version.
fn version(value: &Value) -> Result<(), SchemaError>
    ensures exact { result ≡ version (view value.now) }
{
    match value.get("version").and_then(Value::as_str) {
        Some(_) => Ok(()),
        None => Err(SchemaError::BadShape),
    }
}

fn read_description(
    alloc: Global,
    value: &Value,
) -> Result<Result<Description, SchemaError>, NoMemory>
    ensures exact { IfOk result (λ r. r ≡ read_description (view value.now)) }
{
    let heading = both(database_name(alloc, value)?, version(value));
    match both(heading, tables_in(alloc, value)?) {
        Ok(((name, _), tables)) => Ok(Ok(Description { name, tables })),
        Err(fault) => Ok(Err(fault)),
    }
}

fn schema_of(alloc: Global, value: &Value) -> Result<Schema, SchemaError>
    ensures exact { Gives faults.NoMemory (λ s. s.description) result (read_description (view value.now)) }
    ensures json { IfOk result (λ s. s.json ≡ view value.now) }
{
    let description = read_description(alloc, value)??;
    Ok(Schema {
        description,
        json: value.clone()?,
    })
}

impl Schema {
    /// The schema that a JSON value stands for (RFC 7047 section 3.2): a `<database-schema>`, with
    /// "integer", "boolean", "string" and "uuid" as atomic types and with "min", "max", "key" and
    /// "value" in its types. Members that aren't named here are kept and not looked at.
    ///
    /// # Errors
    /// The first fault of the whole value in the order of `SchemaError`, or `NoMemory`.
    pub fn read(alloc: Global, value: &Value) -> Result<Schema, SchemaError>
        // What is read is spelled so.
        ensures found { IfOk result (λ s. Spells (view value.now) s.description) }
        // What is spelled so is read, unless memory runs out.
        ensures only { (x : _) → Spells (view value.now) x → Gives faults.NoMemory (λ s. s.description) result (Ok x) }
        // Which fault it is.
        ensures exact { Gives faults.NoMemory (λ s. s.description) result (read_description (view value.now)) }
        ensures json { IfOk result (λ s. s.json ≡ view value.now) }
        // The fault is one that the value has, and none that it has comes before it; what is read has none.
        ensures worst { result ≢ Err faults.NoMemory → IsWorst rank (HasFault (view value.now)) result }
    {
        schema_of(alloc, value)
    }
}
