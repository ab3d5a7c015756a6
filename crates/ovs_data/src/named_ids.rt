//! Row ids by names, as a transaction gives them to the rows that it inserts.

ghost use Rattle.std.specs.Prelude.{◌≡◌, OnOk, OnErr, option_and_then, codes};
ghost use Rattle.std.specs.FinMap.{empty, get, insert};
ghost use Rattle.serde_json.specs.Find.{as_str};
ghost use Rattle.serde_json.specs.View.{view};
ghost use Rattle.ovs_json.specs.Gives.{Gives};
ghost use Rattle.ovs_json.specs.Parts.{under};
ghost use Rattle.ovs_data.specs.NamedReading.{read_name, read_named_atom};
ghost use Rattle.ovs_data.specs.declared.error.DatumError.TheVariants as faults;

use crate::atom::{Atom, AtomKind};
use crate::datum::reading::{AtomReader, read_atom, read_row_id};
use crate::error::DatumError;
use crate::names::is_id;
use crate::row_id::RowId;
use ovs_json::{NoMemory, Text, under};
use serde_json::Value;
use std::alloc::Global;
use std::collections::BTreeMap;
use std::marker::Model;

/// Row ids by the names that stand for them in `["named-uuid", name]` (RFC 7047 section 5.1), each name once.
#[derive(Drop)]
pub struct NamedIds {
    ids: BTreeMap<Text, RowId>,
}

impl Model for NamedIds {
    ghost use Rattle.std.specs.Prelude.{ℕ, List};
    ghost use Rattle.std.specs.FinMap as map;
    ghost use Rattle.std.specs.BTreeMap.{IsOrdered};
    ghost use Rattle.std.specs.Ordering.{nat_cmp};
    ghost use Rattle.std.specs.Cmp.Lexicographic.{slice_cmp};
    ghost use Rattle.std.specs.Coded.{coded_ℕ, coded_list};

    ghost Value = { map.FinMap (slice_cmp nat_cmp) ℕ };

    ghost coded = { map.code (coded_list coded_ℕ) coded_ℕ };

    ghost view = { λ n. map.from_entries n.ids.entries };

    ghost invariant = { λ n. IsOrdered (slice_cmp nat_cmp) n.ids };
}

impl NamedIds {
    /// No names.
    pub fn new(alloc: Global) -> NamedIds
        ensures value { result ≡ empty }
    {
        NamedIds {
            ids: BTreeMap::new(alloc),
        }
    }

    /// The id of a name.
    pub fn get(&self, name: &Text) -> Option<RowId>
        ensures value { result ≡ get self.now name.now }
    {
        self.ids.get(name).copied()
    }

    /// Gives a name to an id, in place of the one that has it.
    ///
    /// # Errors
    /// `NoMemory` alone; the names are then as they were.
    pub fn insert(&mut self, name: Text, id: RowId) -> Result<(), NoMemory>
        ensures value { OnOk result (self.new ≡ insert self.old name id) }
        ensures unchanged { OnErr result (self.new ≡ self.old) }
    {
        self.ids.insert(name, id)?;
        Ok(())
    }

    // The id of `["named-uuid", name]`.
    fn read_name(&self, alloc: Global, value: &Value) -> Result<Atom, DatumError>
        ensures exact { Gives faults.NoMemory (λ a. a) result (read_name self.now (option_and_then as_str (under (codes "named-uuid") (view value.now)))) }
    {
        let name = under("named-uuid", value)
            .and_then(Value::as_str)
            .ok_or(DatumError::WrongKind)?;
        if !is_id(name) {
            return Err(DatumError::WrongKind);
        }
        let name = Text::new(alloc, name)?;
        let id = self.get(&name).ok_or(DatumError::UnknownName)?;
        Ok(Atom::Uuid(id))
    }
}

impl AtomReader for NamedIds {
    ghost atom = { read_named_atom };

    fn read(&self, alloc: Global, kind: AtomKind, value: &Value) -> Result<Atom, DatumError> {
        match kind {
            AtomKind::Integer | AtomKind::Boolean | AtomKind::String => {
                read_atom(alloc, kind, value)
            }
            AtomKind::Uuid => match read_row_id(value) {
                Some(id) => Ok(Atom::Uuid(id)),
                None => self.read_name(alloc, value),
            },
        }
    }
}
