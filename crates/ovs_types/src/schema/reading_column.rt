//! Columns out of JSON (RFC 7047 section 3.2).

ghost use Rattle.std.specs.Prelude.{◌≡◌, option_map};
ghost use Rattle.serde_json.specs.View.{view};
ghost use Rattle.ovs_types.specs.SchemaReading.{kind_named, read_kind, read_base, read_key, read_value, read_least, limit_named, read_most, read_kinds, read_bounds, read_object, read_type, read_column};

use crate::schema::error::SchemaError;
use ovs_data::{AtomKind, Column};
use ovs_json::both;
use serde_json::Value;

// An `<atomic-type>` by its name.
fn kind_named(name: &str) -> Result<AtomKind, SchemaError>
    ensures exact { result ≡ kind_named name.now }
{
    if name == "integer" {
        Ok(AtomKind::Integer)
    } else if name == "boolean" {
        Ok(AtomKind::Boolean)
    } else if name == "string" {
        Ok(AtomKind::String)
    } else if name == "uuid" {
        Ok(AtomKind::Uuid)
    } else if name == "real" {
        Err(SchemaError::Real)
    } else {
        Err(SchemaError::BadShape)
    }
}

fn read_kind(value: &Value) -> Result<AtomKind, SchemaError>
    ensures exact { result ≡ read_kind (view value.now) }
{
    kind_named(value.as_str().ok_or(SchemaError::BadShape)?)
}

// A `<base-type>`: an `<atomic-type>`, or an object with it as its "type".
fn read_base(value: &Value) -> Result<AtomKind, SchemaError>
    ensures exact { result ≡ read_base (view value.now) }
{
    match value.as_str() {
        Some(name) => kind_named(name),
        None => read_kind(value.get("type").ok_or(SchemaError::BadShape)?),
    }
}

fn read_key(value: Option<&Value>) -> Result<AtomKind, SchemaError>
    ensures exact { result ≡ read_key (option_map (λ v. view v.now) value.entry) }
{
    read_base(value.ok_or(SchemaError::BadShape)?)
}

fn read_value(value: Option<&Value>) -> Result<Option<AtomKind>, SchemaError>
    ensures exact { result ≡ read_value (option_map (λ v. view v.now) value.entry) }
{
    value.map(read_base).transpose()
}

// Whether "min" lets a column be empty.
fn read_least(value: Option<&Value>) -> Result<bool, SchemaError>
    ensures exact { result ≡ read_least (option_map (λ v. view v.now) value.entry) }
{
    let Some(value) = value else {
        return Ok(false);
    };
    match value.as_u64() {
        Some(0) => Ok(true),
        Some(1) => Ok(false),
        _ => Err(SchemaError::BadBounds),
    }
}

fn limit_named(name: &str) -> Result<Option<u64>, SchemaError>
    ensures exact { result ≡ limit_named name.now }
{
    if name == "unlimited" {
        Ok(None)
    } else {
        Err(SchemaError::BadBounds)
    }
}

// The most elements that "max" lets a column have.
fn read_most(value: Option<&Value>) -> Result<Option<u64>, SchemaError>
    ensures exact { result ≡ read_most (option_map (λ v. view v.now) value.entry) }
{
    let Some(value) = value else {
        return Ok(Some(1));
    };
    if let Some(name) = value.as_str() {
        return limit_named(name);
    }
    match value.as_u64() {
        None | Some(0) => Err(SchemaError::BadBounds),
        most => Ok(most),
    }
}

fn read_kinds(value: &Value) -> Result<(AtomKind, Option<AtomKind>), SchemaError>
    ensures exact { result ≡ read_kinds (view value.now) }
{
    both(read_key(value.get("key")), read_value(value.get("value")))
}

fn read_bounds(value: &Value) -> Result<(bool, Option<u64>), SchemaError>
    ensures exact { result ≡ read_bounds (view value.now) }
{
    both(read_least(value.get("min")), read_most(value.get("max")))
}

// A `<type>` that is an object.
fn read_object(value: &Value) -> Result<Column, SchemaError>
    ensures exact { result ≡ read_object (view value.now) }
{
    let ((key, value), (may_be_empty, most)) = both(read_kinds(value), read_bounds(value))?;
    Ok(Column {
        key,
        value,
        may_be_empty,
        most,
    })
}

// A `<type>`.
fn read_type(value: &Value) -> Result<Column, SchemaError>
    ensures exact { result ≡ read_type (view value.now) }
{
    match value.as_str() {
        Some(name) => Ok(Column {
            key: kind_named(name)?,
            value: None,
            may_be_empty: false,
            most: Some(1),
        }),
        None => read_object(value),
    }
}

/// What a `<column-schema>` says that the column holds.
pub(crate) fn read_column(value: &Value) -> Result<Column, SchemaError>
    ensures exact { result ≡ read_column (view value.now) }
{
    read_type(value.get("type").ok_or(SchemaError::BadShape)?)
}
