//! Columns of a type that is written as in a schema.

use crate::case_error::CaseError;
use ovs_types::{AtomKind, Column, Schema, SchemaError};
use serde_json::{Value, json};
use std::alloc::Global;

// A schema whose one column has this type.
fn schema_with(alloc: Global, column_type: &Value) -> Result<Value, CaseError> {
    let column_type = column_type.clone()?;
    Ok(json!(in alloc; {
        "name": "d", "version": "", "tables": {"T": {"columns": {"c": {"type": column_type}}}}
    })?)
}

/// The column of a type, or why a schema with it is refused.
pub(crate) fn column_or_fault(
    alloc: Global,
    column_type: &Value,
) -> Result<Result<Column, SchemaError>, CaseError> {
    let value = schema_with(alloc, column_type)?;
    match Schema::read(alloc, &value) {
        Ok(schema) => Ok(Ok(schema.column("T", "c").ok_or(CaseError::Malformed)?)),
        Err(fault) => Ok(Err(fault)),
    }
}

/// The column of a type.
pub(crate) fn column(alloc: Global, column_type: &Value) -> Result<Column, CaseError> {
    column_or_fault(alloc, column_type)?.map_err(|_| CaseError::Malformed)
}

fn kind(kind: AtomKind) -> &'static str {
    match kind {
        AtomKind::Integer => "integer",
        AtomKind::Boolean => "boolean",
        AtomKind::String => "string",
        AtomKind::Uuid => "uuid",
    }
}

fn kinds(alloc: Global, column: &Column) -> Result<String, CaseError> {
    let key = kind(column.key);
    match column.value {
        None => Ok(String::from_str(alloc, key)?),
        Some(value) => {
            let value = kind(value);
            Ok(format!(in alloc; "{key}>{value}")?)
        }
    }
}

/// A column in short: `integer` for one, `integer?` for one at most, `integer*` for any number and `integer+` for at
/// least one, `integer{0,7}` for others; `string>integer` and so on for maps.
pub(crate) fn brief(alloc: Global, column: &Column) -> Result<String, CaseError> {
    let kinds = kinds(alloc, column)?;
    let least = if column.may_be_empty { 0u8 } else { 1 };
    match (column.may_be_empty, column.most) {
        (false, Some(1)) => Ok(kinds),
        (true, Some(1)) => Ok(format!(in alloc; "{kinds}?")?),
        (true, None) => Ok(format!(in alloc; "{kinds}*")?),
        (false, None) => Ok(format!(in alloc; "{kinds}+")?),
        (_, Some(most)) => Ok(format!(in alloc; "{kinds}{{{least},{most}}}")?),
    }
}
