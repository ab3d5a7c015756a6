//! Data of columns. A column's type is written as in a schema.

use crate::case::{part, truth, word};
use crate::case_error::CaseError;
use crate::columns::{column, column_or_fault};
use ovs_types::{Atom, Column, Datum, apply_difference, difference as differs};
use serde_json::Value;
use std::alloc::Global;

fn written(alloc: Global, datum: &Datum) -> Result<String, CaseError> {
    Ok(datum.copy()?.to_json(alloc)?.to_string(alloc)?)
}

fn read_and_written(alloc: Global, value: &Value, column: &Column) -> Result<String, CaseError> {
    match Datum::read(alloc, value, column) {
        Ok(datum) => written(alloc, &datum),
        Err(fault) => word(alloc, fault.word()),
    }
}

/// `["datum", TYPE, JSON]`: what a copy of the datum is written as.
pub(crate) fn datum(alloc: Global, parts: &[Value]) -> Result<String, CaseError> {
    match column_or_fault(alloc, part(parts, 1)?)? {
        Ok(column) => read_and_written(alloc, part(parts, 2)?, &column),
        Err(fault) => word(alloc, fault.word()),
    }
}

/// `["atom", TYPE, JSON]`: the same of an atom of the type's kind.
pub(crate) fn atom(alloc: Global, parts: &[Value]) -> Result<String, CaseError> {
    let column = column(alloc, part(parts, 1)?)?;
    match Atom::read(alloc, part(parts, 2)?, column.key) {
        Ok(atom) => Ok(atom.copy()?.to_json(alloc)?.to_string(alloc)?),
        Err(fault) => word(alloc, fault.word()),
    }
}

fn read(alloc: Global, value: &Value, column: &Column) -> Result<Datum, CaseError> {
    Datum::read(alloc, value, column).map_err(|_| CaseError::Malformed)
}

/// `["same datum", TYPE, JSON, JSON]`.
pub(crate) fn same(alloc: Global, parts: &[Value]) -> Result<String, CaseError> {
    let column = column(alloc, part(parts, 1)?)?;
    let datum = read(alloc, part(parts, 2)?, &column)?;
    let other = read(alloc, part(parts, 3)?, &column)?;
    truth(alloc, datum.same(&other))
}

// The difference, and whether applying it leads to the second.
fn between(alloc: Global, column: &Column, old: &Datum, new: &Datum) -> Result<String, CaseError> {
    match (old, new) {
        (Datum::Set(_), Datum::Set(_)) | (Datum::Map(_), Datum::Map(_)) => {
            let diff = differs(old, new, column)?;
            let after = apply_difference(old, &diff, column)?;
            if after.same(new) {
                written(alloc, &diff)
            } else {
                word(alloc, "leads elsewhere")
            }
        }
        _ => Err(CaseError::Malformed),
    }
}

/// `["difference", TYPE, OLD, NEW]`.
pub(crate) fn difference(alloc: Global, parts: &[Value]) -> Result<String, CaseError> {
    let column = column(alloc, part(parts, 1)?)?;
    let old = read(alloc, part(parts, 2)?, &column)?;
    let new = read(alloc, part(parts, 3)?, &column)?;
    between(alloc, &column, &old, &new)
}

/// `["default", TYPE]`.
pub(crate) fn default(alloc: Global, parts: &[Value]) -> Result<String, CaseError> {
    let column = column(alloc, part(parts, 1)?)?;
    written(alloc, &column.default_datum(alloc)?)
}

// An element or a key of the column.
fn key(alloc: Global, value: &Value, column: &Column) -> Result<Atom, CaseError> {
    Atom::read(alloc, value, column.key).map_err(|_| CaseError::Malformed)
}

/// `["contains", TYPE, JSON, ELEMENT]`.
pub(crate) fn contains(alloc: Global, parts: &[Value]) -> Result<String, CaseError> {
    let column = column(alloc, part(parts, 1)?)?;
    let datum = read(alloc, part(parts, 2)?, &column)?;
    let element = key(alloc, part(parts, 3)?, &column)?;
    truth(alloc, datum.contains(&element))
}

/// `["get", TYPE, JSON, KEY]`: the value at a key.
pub(crate) fn get(alloc: Global, parts: &[Value]) -> Result<String, CaseError> {
    let column = column(alloc, part(parts, 1)?)?;
    let datum = read(alloc, part(parts, 2)?, &column)?;
    let key = key(alloc, part(parts, 3)?, &column)?;
    match datum.get(&key) {
        Some(value) => Ok(value.to_json(alloc)?.to_string(alloc)?),
        None => word(alloc, "none"),
    }
}

/// `["includes", TYPE, JSON, JSON]`: whether the first datum includes the second, which may be of any number, and
/// whether it excludes it.
pub(crate) fn includes(alloc: Global, parts: &[Value]) -> Result<String, CaseError> {
    let column = column(alloc, part(parts, 1)?)?;
    let datum = read(alloc, part(parts, 2)?, &column)?;
    let named = read(alloc, part(parts, 3)?, &column.loose())?;
    word(
        alloc,
        match (datum.includes(&named), datum.excludes(&named)) {
            (true, true) => "includes, excludes",
            (true, false) => "includes",
            (false, true) => "excludes",
            (false, false) => "neither",
        },
    )
}

/// `["has key", TYPE, JSON, KEYS]`: whether a map has each of these keys.
pub(crate) fn has_keys(alloc: Global, parts: &[Value]) -> Result<String, CaseError> {
    let column = column(alloc, part(parts, 1)?)?;
    let datum = read(alloc, part(parts, 2)?, &column)?;
    let keys = read(alloc, part(parts, 3)?, &column.keys())?;
    truth(
        alloc,
        keys.atoms()
            .iter()
            .all(|key| datum.pairs().iter().any(|pair| pair.key == *key)),
    )
}
