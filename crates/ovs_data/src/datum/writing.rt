//! Data as JSON (RFC 7047 section 5.1).

ghost use Rattle.std.specs.Prelude.{◌≡◌, IfOk, false};
ghost use Rattle.serde_json.specs.View.{view, items_view};
ghost use Rattle.serde_json.specs.Written.{has_float};
ghost use Rattle.ovs_data.specs.declared.column.Column.{Column};
ghost use Rattle.ovs_data.specs.Atom.{kind_of};
ghost use Rattle.ovs_data.specs.Datum.{IsDatumOf};
ghost use Rattle.ovs_data.specs.RoundTrip.{WhatIsWrittenReadsBack};
ghost use Rattle.ovs_data.specs.Spelling.{Spells, SpellsAtom, SpellsValue, SpellsBoth, IsWritten};
ghost use Rattle.ovs_json.specs.Items.{SpellsEach};
ghost use Rattle.ovs_data.specs.Writing.{atom_json, atoms_json, pairs_json, datum_json};

use crate::atom::Atom;
use crate::datum::Datum;
use crate::datum::pairs::Pair;
use ovs_json::{NoMemory, listed, text_json, two};
use serde_json::Value;
use std::alloc::Global;

impl Atom {
    /// The value that it is written as: a number, a boolean, a text or `["uuid", text]`.
    ///
    /// # Errors
    /// `NoMemory` alone.
    pub fn to_json(&self, alloc: Global) -> Result<Value, NoMemory>
        ensures value { IfOk result (λ v. view v ≡ atom_json self.now) }
        // It stands for this atom.
        ensures spelled { IfOk result (λ v. SpellsAtom (kind_of self.now) (view v) self.now) }
        ensures no_float { IfOk result (λ v. has_float (view v) ≡ false) }
    {
        atom_json(alloc, self)
    }
}

impl Datum {
    /// The value that it is written as: exactly one element of a set as itself, every other set as
    /// `["set", [..]]`, a map as `["map", [[key, value]..]]`; elements and keys ascend.
    ///
    /// # Errors
    /// `NoMemory` alone.
    pub fn to_json(&self, alloc: Global) -> Result<Value, NoMemory>
        ensures value { IfOk result (λ v. view v ≡ datum_json self.now) }
        // It stands for this datum in each column of which it is a datum.
        ensures spelled { IfOk result (λ v. (c : Column) → IsDatumOf c self.now → Spells c (view v) self.now) }
        ensures no_float { IfOk result (λ v. has_float (view v) ≡ false) }
    {
        datum_json(alloc, self)
    }
}

fn atom_json(alloc: Global, atom: &Atom) -> Result<Value, NoMemory>
    ensures value { IfOk result (λ v. view v ≡ atom_json atom.now) }
    ensures spelled { IfOk result (λ v. SpellsValue (view v) atom.now) }
{
    match atom {
        Atom::Integer(number) => Ok(Value::from(*number)),
        Atom::Boolean(truth) => Ok(Value::Bool(*truth)),
        Atom::String(text) => text_json(alloc, text.as_str()),
        Atom::Uuid(id) => {
            let text = id.to_text(alloc)?;
            two(
                alloc,
                text_json(alloc, "uuid")?,
                text_json(alloc, text.as_str())?,
            )
        }
    }
}

fn atoms_json(alloc: Global, atoms: &[Atom]) -> Result<Vec<Value>, NoMemory>
    ensures value { IfOk result (λ v. items_view v.items ≡ atoms_json atoms.now) }
    ensures spelled { IfOk result (λ v. SpellsEach SpellsValue (items_view v.items) atoms.now) }
{
    let mut items = Vec::with_capacity(alloc, atoms.len())?;
    for atom in atoms {
        items.push(atom_json(alloc, atom)?)?;
    }
    Ok(items)
}

fn pairs_json(alloc: Global, pairs: &[Pair]) -> Result<Vec<Value>, NoMemory>
    ensures value { IfOk result (λ v. items_view v.items ≡ pairs_json pairs.now) }
    ensures spelled { IfOk result (λ v. SpellsEach SpellsBoth (items_view v.items) pairs.now) }
{
    let mut items = Vec::with_capacity(alloc, pairs.len())?;
    for pair in pairs {
        let key = atom_json(alloc, &pair.key)?;
        let value = atom_json(alloc, &pair.value)?;
        items.push(two(alloc, key, value)?)?;
    }
    Ok(items)
}

fn datum_json(alloc: Global, datum: &Datum) -> Result<Value, NoMemory>
    ensures value { IfOk result (λ v. view v ≡ datum_json datum.now) }
    ensures spelled { IfOk result (λ v. IsWritten (view v) datum.now) }
{
    match datum {
        Datum::Set(atoms) => {
            if let [atom] = atoms.as_slice() {
                atom_json(alloc, atom)
            } else {
                let items = atoms_json(alloc, atoms.as_slice())?;
                listed(alloc, "set", items)
            }
        }
        Datum::Map(pairs) => {
            let items = pairs_json(alloc, pairs.as_slice())?;
            listed(alloc, "map", items)
        }
    }
}

/// What a datum of a column is written as stands for it, and is read back as it.
pub fn what_is_written_reads_back()
    ensures law { WhatIsWrittenReadsBack }
{}
