//! Schemas.

use crate::case::{part, text, truth, word};
use crate::case_error::CaseError;
use crate::columns::brief;
use ovs_case_lines::read_schema;
use ovs_types::{Schema, Table};
use serde_json::Value;
use std::alloc::Global;

fn table_text(alloc: Global, table: &Table) -> Result<String, CaseError> {
    let name = table.name.as_str();
    let mut told = format!(in alloc; " {name}(")?;
    for (number, column) in table.columns.as_slice().iter().enumerate() {
        let name = column.name.as_str();
        let holds = brief(alloc, &column.column)?;
        let comma = if number == 0 { "" } else { " " };
        let column = format!(in alloc; "{comma}{name}:{holds}")?;
        told.push_str(column.as_str())?;
    }
    told.push(')')?;
    Ok(told)
}

fn schema_text(alloc: Global, schema: &Schema) -> Result<String, CaseError> {
    let mut told = String::from_str(alloc, schema.name())?;
    for table in schema.tables() {
        let table = table_text(alloc, table)?;
        told.push_str(table.as_str())?;
    }
    Ok(told)
}

/// `["schema", JSON]`: the name, and each table with its columns.
pub(crate) fn schema(alloc: Global, parts: &[Value]) -> Result<String, CaseError> {
    match Schema::read(alloc, part(parts, 1)?) {
        Ok(schema) => schema_text(alloc, &schema),
        Err(fault) => word(alloc, fault.word()),
    }
}

/// The schema that an argument is.
pub(crate) fn read(alloc: Global, parts: &[Value], at: usize) -> Result<Box<Schema>, CaseError> {
    Ok(read_schema(alloc, part(parts, at)?)?)
}

fn json_text(alloc: Global, schema: &Schema) -> Result<String, CaseError> {
    Ok(schema.to_json()?.to_string(alloc)?)
}

/// `["schema as JSON", JSON]`: what a copy of the schema is written as.
pub(crate) fn json(alloc: Global, parts: &[Value]) -> Result<String, CaseError> {
    let schema = read(alloc, parts, 1)?;
    let copy = Box::new(alloc, schema.copy(alloc)?)?;
    json_text(alloc, &copy)
}

/// `["same schema", JSON, JSON]`.
pub(crate) fn same(alloc: Global, parts: &[Value]) -> Result<String, CaseError> {
    let schema = read(alloc, parts, 1)?;
    let other = read(alloc, parts, 2)?;
    truth(alloc, schema.same(&other))
}

/// `["find", TABLE, COLUMN]`: the numbers of both in the order of the names, and what the column holds.
pub(crate) fn find(alloc: Global, schema: &Schema, parts: &[Value]) -> Result<String, CaseError> {
    let name = text(parts, 2)?;
    let Some((table_number, table)) = schema.table(text(parts, 1)?) else {
        return word(alloc, "no-table");
    };
    match table.columns.find(name) {
        Some((number, column)) => {
            let holds = brief(alloc, &column)?;
            Ok(format!(in alloc; "{table_number} {number} {holds}")?)
        }
        None => word(alloc, "no-column"),
    }
}
