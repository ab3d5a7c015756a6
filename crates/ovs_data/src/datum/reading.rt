//! Data out of JSON (RFC 7047 section 5.1).

ghost use Rattle.std.specs.Prelude.{◌≡◌, ◌≢◌, ◌↔◌, IfOk, Result, Ok, Err};
ghost use Rattle.serde_json.specs.Data.{Data};
ghost use Rattle.serde_json.specs.View.{view, items_view};
ghost use Rattle.ovs_json.specs.Gives.{Gives};
ghost use Rattle.ovs_json.specs.Items.{read_items};
ghost use Rattle.ovs_data.specs.Datum.{IsDatumOf};
ghost use Rattle.ovs_data.specs.NamedReading.{read_named, SpellsNamed};
ghost use Rattle.ovs_data.specs.Reading.{read_atom, read_uuid, read_elements, read_one, read_set, read_pair, read_pairs, read_map, read_column, read_datum};
ghost use Rattle.ovs_data.specs.Spelling.{Spells, SpellsAtom, HasRepeat};
ghost use Rattle.ovs_data.specs.declared.atom.Atom as declared_atom;
ghost use Rattle.ovs_data.specs.declared.atom.AtomKind as declared_kind;
ghost use Rattle.ovs_data.specs.declared.error.DatumError as declared_error;
ghost use Rattle.ovs_data.specs.declared.atom.AtomKind.TheVariants as kinds;
ghost use Rattle.ovs_data.specs.declared.error.DatumError.TheVariants as faults;

use crate::atom::{Atom, AtomKind};
use crate::column::Column;
use crate::datum::Datum;
use crate::datum::map_items::map_items;
use crate::datum::pairs::Pair;
use crate::datum::sorting::{map_of, set_of};
use crate::error::DatumError;
use crate::named_ids::NamedIds;
use crate::row_id::RowId;
use ovs_json::{Text, begins_with, list_under, two_items, under};
use serde_json::Value;
use std::alloc::Global;

/// How the atoms of sets and maps are read.
pub(crate) trait AtomReader {
    /// The atom of a kind that a value stands for, or its fault.
    ghost atom: { Self → declared_kind.AtomKind → Data → Result declared_atom.Atom declared_error.DatumError };

    /// The atom of a kind that a value stands for, or its fault.
    fn read(&self, alloc: Global, kind: AtomKind, value: &Value) -> Result<Atom, DatumError>
        ensures exact { Gives faults.NoMemory (λ a. a) result (atom self.now kind (view value.now)) };
}

/// Atoms as they are written.
struct PlainAtoms;

impl AtomReader for PlainAtoms {
    ghost atom = { λ s. read_atom };

    fn read(&self, alloc: Global, kind: AtomKind, value: &Value) -> Result<Atom, DatumError> {
        read_atom(alloc, kind, value)
    }
}

impl Atom {
    /// The atom of a kind that a value stands for.
    ///
    /// # Errors
    /// `NotInteger` for a number that isn't an integer of 64 bits where an integer is wanted,
    /// `WrongKind` for any other value that isn't of the kind; or `NoMemory`.
    pub fn read(alloc: Global, value: &Value, kind: AtomKind) -> Result<Atom, DatumError>
        // What is read is spelled so.
        ensures found { IfOk result (SpellsAtom kind (view value.now)) }
        // What is spelled so is read, unless memory runs out.
        ensures only { (x : _) → SpellsAtom kind (view value.now) x → Gives faults.NoMemory (λ a. a) result (Ok x) }
        // Which fault it is.
        ensures exact { Gives faults.NoMemory (λ a. a) result (read_atom kind (view value.now)) }
        // Only a text takes memory.
        ensures plain { kind ≢ kinds.String → result ≡ read_atom kind (view value.now) }
    {
        read_atom(alloc, kind, value)
    }
}

impl Datum {
    /// The datum of a column that a value stands for: one atom or `["set", [..]]`, and for a column
    /// of maps `["map", [[key, value]..]]`.
    ///
    /// # Errors
    /// `WrongShape` for the wrong one of these; then the first `WrongKind` or `NotInteger` from left
    /// to right; then `Duplicate`; then `WrongCount`, for a column of one element alone; or `NoMemory`.
    pub fn read(alloc: Global, value: &Value, column: &Column) -> Result<Datum, DatumError>
        // What is read is spelled so.
        ensures found { IfOk result (Spells column.now (view value.now)) }
        // What is spelled so is read, unless memory runs out.
        ensures only { (x : _) → Spells column.now (view value.now) x → Gives faults.NoMemory (λ d. d) result (Ok x) }
        // Which fault it is.
        ensures exact { Gives faults.NoMemory (λ d. d) result (read_datum column.now (view value.now)) }
        ensures kept { IfOk result (IsDatumOf column.now) }
        // `Duplicate` is told exactly where shape and kinds are right and two of the listed elements or keys are equal.
        ensures duplicate { result ≢ Err faults.NoMemory → (result ≡ Err faults.Duplicate) ↔ HasRepeat column.now (view value.now) }
    {
        read_datum(alloc, value, column)
    }

    /// The datum of a column that a value stands for, as `read` reads it; but `["named-uuid", name]` stands for the id that
    /// has this name.
    ///
    /// # Errors
    /// As those of `read`; and `UnknownName`, found from left to right together with `WrongKind`, where no id has the name.
    /// What is no `<id>` is no name, but `WrongKind`.
    pub fn read_named(
        alloc: Global,
        value: &Value,
        column: &Column,
        names: &NamedIds,
    ) -> Result<Datum, DatumError>
        // What is read is spelled so.
        ensures found { IfOk result (SpellsNamed names.now column.now (view value.now)) }
        // What is spelled so is read, unless memory runs out.
        ensures only { (x : _) → SpellsNamed names.now column.now (view value.now) x → Gives faults.NoMemory (λ d. d) result (Ok x) }
        // Which fault it is.
        ensures exact { Gives faults.NoMemory (λ d. d) result (read_named names.now column.now (view value.now)) }
        ensures kept { IfOk result (IsDatumOf column.now) }
    {
        read_named(alloc, value, column, names)
    }
}

pub(crate) fn read_row_id(value: &Value) -> Option<RowId>
    ensures value { result ≡ read_uuid (view value.now) }
{
    RowId::read(under("uuid", value)?.as_str()?).ok()
}

pub(crate) fn read_atom(alloc: Global, kind: AtomKind, value: &Value) -> Result<Atom, DatumError>
    ensures exact { Gives faults.NoMemory (λ a. a) result (read_atom kind (view value.now)) }
    ensures plain { kind ≢ kinds.String → result ≡ read_atom kind (view value.now) }
{
    match (kind, value) {
        (AtomKind::Integer, Value::Number(number)) => Ok(Atom::Integer(
            number.as_i64().ok_or(DatumError::NotInteger)?,
        )),
        (AtomKind::Boolean, Value::Bool(truth)) => Ok(Atom::Boolean(*truth)),
        (AtomKind::String, Value::String(text)) => {
            Ok(Atom::String(Text::new(alloc, text.as_str())?))
        }
        (AtomKind::Uuid, _) => Ok(Atom::Uuid(read_row_id(value).ok_or(DatumError::WrongKind)?)),
        _ => Err(DatumError::WrongKind),
    }
}

fn read_atoms<R: AtomReader>(
    alloc: Global,
    reader: &R,
    kind: AtomKind,
    values: &[Value],
) -> Result<Vec<Atom>, DatumError>
    ensures exact { Gives faults.NoMemory (λ v. v.items) result (read_items (R.atom reader.now kind) (items_view values.now)) }
{
    let mut atoms = Vec::with_capacity(alloc, values.len())?;
    for value in values {
        atoms.push(reader.read(alloc, kind, value)?)?;
    }
    Ok(atoms)
}

fn read_one<R: AtomReader>(
    alloc: Global,
    reader: &R,
    kind: AtomKind,
    value: &Value,
) -> Result<Vec<Atom>, DatumError>
    ensures exact { Gives faults.NoMemory (λ v. v.items) result (read_one (R.atom reader.now) kind (view value.now)) }
{
    let atom = reader.read(alloc, kind, value)?;
    let mut atoms = Vec::with_capacity(alloc, 1)?;
    atoms.push(atom)?;
    Ok(atoms)
}

// The elements of `["set", [..]]`, or the one atom.
fn read_elements<R: AtomReader>(
    alloc: Global,
    reader: &R,
    kind: AtomKind,
    value: &Value,
) -> Result<Vec<Atom>, DatumError>
    ensures exact { Gives faults.NoMemory (λ v. v.items) result (read_elements (R.atom reader.now) kind (view value.now)) }
{
    if begins_with("set", value) {
        let items = list_under("set", value).ok_or(DatumError::WrongShape)?;
        read_atoms(alloc, reader, kind, items)
    } else if begins_with("map", value) {
        Err(DatumError::WrongShape)
    } else {
        read_one(alloc, reader, kind, value)
    }
}

fn read_set<R: AtomReader>(
    alloc: Global,
    reader: &R,
    value: &Value,
    column: &Column,
) -> Result<Datum, DatumError>
    ensures exact { Gives faults.NoMemory (λ d. d) result (read_set (R.atom reader.now) column.now (view value.now)) }
{
    let set = set_of(read_elements(alloc, reader, column.key, value)?).ok_or(
        DatumError::Duplicate,
    )?;
    if column.may_count(set.as_slice().len()) {
        Ok(Datum::Set(set))
    } else {
        Err(DatumError::WrongCount)
    }
}

fn read_pair<R: AtomReader>(
    alloc: Global,
    reader: &R,
    key: AtomKind,
    kind: AtomKind,
    value: &Value,
) -> Result<Pair, DatumError>
    ensures exact { Gives faults.NoMemory (λ p. p) result (read_pair (R.atom reader.now) key kind (view value.now)) }
{
    let (first, second) = two_items(value).ok_or(DatumError::WrongShape)?;
    let key = reader.read(alloc, key, first)?;
    let value = reader.read(alloc, kind, second)?;
    Ok(Pair { key, value })
}

fn read_each_pair<R: AtomReader>(
    alloc: Global,
    reader: &R,
    key: AtomKind,
    kind: AtomKind,
    values: &[Value],
) -> Result<Vec<Pair>, DatumError>
    ensures exact { Gives faults.NoMemory (λ v. v.items) result (read_items (read_pair (R.atom reader.now) key kind) (items_view values.now)) }
{
    let mut pairs = Vec::with_capacity(alloc, values.len())?;
    for value in values {
        pairs.push(read_pair(alloc, reader, key, kind, value)?)?;
    }
    Ok(pairs)
}

// The pairs of `["map", [[key, value]..]]`.
fn read_pairs<R: AtomReader>(
    alloc: Global,
    reader: &R,
    key: AtomKind,
    kind: AtomKind,
    value: &Value,
) -> Result<Vec<Pair>, DatumError>
    ensures exact { Gives faults.NoMemory (λ v. v.items) result (read_pairs (R.atom reader.now) key kind (view value.now)) }
{
    let items = map_items(value).ok_or(DatumError::WrongShape)?;
    read_each_pair(alloc, reader, key, kind, items)
}

fn read_map<R: AtomReader>(
    alloc: Global,
    reader: &R,
    value: &Value,
    column: &Column,
    kind: AtomKind,
) -> Result<Datum, DatumError>
    ensures exact { Gives faults.NoMemory (λ d. d) result (read_map (R.atom reader.now) column.now kind (view value.now)) }
{
    let map = map_of(read_pairs(alloc, reader, column.key, kind, value)?).ok_or(
        DatumError::Duplicate,
    )?;
    if column.may_count(map.as_slice().len()) {
        Ok(Datum::Map(map))
    } else {
        Err(DatumError::WrongCount)
    }
}

fn read_column<R: AtomReader>(
    alloc: Global,
    reader: &R,
    value: &Value,
    column: &Column,
) -> Result<Datum, DatumError>
    ensures exact { Gives faults.NoMemory (λ d. d) result (read_column (R.atom reader.now) column.now (view value.now)) }
{
    match column.value {
        None => read_set(alloc, reader, value, column),
        Some(kind) => read_map(alloc, reader, value, column, kind),
    }
}

fn read_datum(alloc: Global, value: &Value, column: &Column) -> Result<Datum, DatumError>
    ensures exact { Gives faults.NoMemory (λ d. d) result (read_datum column.now (view value.now)) }
{
    read_column(alloc, &PlainAtoms, value, column)
}

fn read_named(
    alloc: Global,
    value: &Value,
    column: &Column,
    names: &NamedIds,
) -> Result<Datum, DatumError>
    ensures exact { Gives faults.NoMemory (λ d. d) result (read_named names.now column.now (view value.now)) }
{
    read_column(alloc, names, value, column)
}
