//! Whether a datum is one of a column.

ghost use Rattle.std.specs.Prelude.{◌≡◌, ◌↔◌, IsTrue};
ghost use Rattle.std.specs.List.{list_all};
ghost use Rattle.ovs_data.specs.Datum.{IsDatumOf};
ghost use Rattle.ovs_data.specs.Admitting.{has_kind, has_pair_kinds, has_kinds, admits};

use crate::atom::{Atom, AtomKind};
use crate::column::Column;
use crate::datum::Datum;
use crate::datum::pairs::Pair;

fn has_kind(kind: AtomKind, atom: &Atom) -> bool
    ensures value { result ≡ has_kind kind atom.now }
{
    match (kind, atom) {
        (AtomKind::Integer, Atom::Integer(_))
        | (AtomKind::Boolean, Atom::Boolean(_))
        | (AtomKind::String, Atom::String(_))
        | (AtomKind::Uuid, Atom::Uuid(_)) => true,
        _ => false,
    }
}

fn has_pair_kinds(key: AtomKind, value: AtomKind, pair: &Pair) -> bool
    ensures value { result ≡ has_pair_kinds key value pair.now }
{
    has_kind(key, &pair.key) && has_kind(value, &pair.value)
}

fn all_of_kind(kind: AtomKind, atoms: &[Atom]) -> bool
    ensures value { result ≡ list_all (has_kind kind) atoms.now }
{
    atoms.iter().all(|atom| has_kind(kind, atom))
}

fn all_of_kinds(key: AtomKind, value: AtomKind, pairs: &[Pair]) -> bool
    ensures value { result ≡ list_all (has_pair_kinds key value) pairs.now }
{
    pairs.iter().all(|pair| has_pair_kinds(key, value, pair))
}

// A set of the column's kind, or a map of its kinds.
fn has_kinds(column: &Column, datum: &Datum) -> bool
    ensures value { result ≡ has_kinds column.now.key column.now.value datum.now }
{
    match (column.value, datum) {
        (None, Datum::Set(_)) => all_of_kind(column.key, datum.atoms()),
        (Some(value), Datum::Map(_)) => all_of_kinds(column.key, value, datum.pairs()),
        _ => false,
    }
}

impl Column {
    /// Whether the datum is one of this column: a set or a map of its kinds, with as many elements or pairs as it admits.
    pub fn admits(&self, datum: &Datum) -> bool
        ensures value { result ≡ admits self.now datum.now }
        ensures decides { IsTrue result ↔ IsDatumOf self.now datum.now }
    {
        // It is in order as it stands.
        let _ = datum.atoms();
        let _ = datum.pairs();
        self.may_count(datum.len()) && has_kinds(self, datum)
    }
}
