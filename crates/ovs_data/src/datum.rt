//! Data: what a column of a row holds (RFC 7047 section 5.1).

ghost use Rattle.std.specs.Prelude.{◌≡◌, ◌↔◌, IfOk, IsTrue};
ghost use Rattle.std.specs.Option.{option_copied};
ghost use Rattle.ovs_data.specs.Datum.{IsOrdered, has_element, value_in, datum_len, is_empty, elements_of, pairs_of};
ghost use Rattle.ovs_data.specs.Atom.{atom_cmp};
ghost use Rattle.ovs_data.specs.Ascending.{IsAscending};
ghost use Rattle.ovs_data.specs.declared.datum.Datum.TheVariants.{Set, Map};

pub(crate) mod atoms;
mod conditions;
pub(crate) mod delta;
mod exchange;
mod keyed;
mod map_items;
mod mutation;
pub(crate) mod pairs;
pub(crate) mod reading;
mod sorting;
pub(crate) mod writing;

use crate::atom::Atom;
use crate::datum::atoms::Atoms;
use crate::datum::pairs::{Pair, Pairs};
use ovs_json::NoMemory;

/// A set of atoms, or a map from atoms to atoms. A column of one value holds a set of one.
#[derive(Debug, Drop)]
pub enum Datum {
    /// The elements.
    Set(Atoms),
    /// The keys and their values.
    Map(Pairs),
}

impl Datum {
    /// Whether it is a set with this element.
    pub fn contains(&self, element: &Atom) -> bool
        ensures value { result ≡ has_element element.now self.now }
    {
        match self {
            Datum::Set(atoms) => atoms.contains(element),
            Datum::Map(_) => false,
        }
    }

    /// The value at a key of a map.
    pub fn get(&self, key: &Atom) -> Option<&Atom>
        ensures value { option_copied result ≡ value_in key.now self.now }
    {
        match self {
            Datum::Set(_) => None,
            Datum::Map(pairs) => pairs.get(key),
        }
    }

    /// Whether the two are equal: sets of the same elements, or maps of the same pairs.
    pub fn same(&self, other: &Datum) -> bool
        ensures equal { IsTrue result ↔ (self.now ≡ other.now) }
    {
        self == other
    }

    /// How many elements or pairs it has.
    pub fn len(&self) -> usize
        ensures value { result ≡ datum_len self.now }
    {
        match self {
            Datum::Set(atoms) => atoms.as_slice().len(),
            Datum::Map(pairs) => pairs.as_slice().len(),
        }
    }

    /// Whether it has no element and no pair.
    pub fn is_empty(&self) -> bool
        ensures value { result ≡ is_empty self.now }
    {
        match self {
            Datum::Set(atoms) => matches!(atoms.as_slice(), []),
            Datum::Map(pairs) => matches!(pairs.as_slice(), []),
        }
    }

    /// Lends the elements of a set, ascending, and of a map none.
    pub fn atoms(&self) -> &[Atom]
        ensures value { result.now ≡ elements_of self.now }
        ensures ascending { IsAscending atom_cmp (λ x. x) result.now }
    {
        match self {
            Datum::Set(atoms) => atoms.as_slice(),
            Datum::Map(_) => &[],
        }
    }

    /// Lends the pairs of a map, in ascending order of their keys, and of a set none.
    pub fn pairs(&self) -> &[Pair]
        ensures value { result.now ≡ pairs_of self.now }
        ensures ascending { IsAscending atom_cmp (λ p. p.key) result.now }
    {
        match self {
            Datum::Set(_) => &[],
            Datum::Map(pairs) => pairs.as_slice(),
        }
    }

    /// The set of atoms that ascend.
    pub fn of_atoms(atoms: Vec<Atom>) -> Datum
        requires ascending { IsAscending atom_cmp (λ x. x) atoms.items }
        ensures value { result ≡ Set atoms.items }
    {
        Datum::Set(Atoms::new(atoms))
    }

    /// The map of pairs whose keys ascend.
    pub fn of_pairs(pairs: Vec<Pair>) -> Datum
        requires ascending { IsAscending atom_cmp (λ p. p.key) pairs.items }
        ensures value { result ≡ Map pairs.items }
    {
        Datum::Map(Pairs::new(pairs))
    }

    /// An equal datum.
    ///
    /// # Errors
    /// `NoMemory` alone.
    pub fn copy(&self) -> Result<Datum, NoMemory>
        ensures equal { IfOk result (λ d. d ≡ self.now) }
        ensures ordered { IsOrdered self.now }
    {
        Ok(match self {
            Datum::Set(atoms) => Datum::Set(atoms.copy()?),
            Datum::Map(pairs) => Datum::Map(pairs.copy()?),
        })
    }
}

impl PartialEq for Datum {
    ghost use Rattle.std.specs.Cmp.{partial_equiv_from_equiv};
    ghost use Rattle.ovs_data.specs.Equality.{datum_eq, datum_equiv};

    ghost eq = { datum_eq };

    ghost laws = { partial_equiv_from_equiv datum_equiv };

    fn eq(&self, other: &Datum) -> bool {
        match (self, other) {
            (Datum::Set(left), Datum::Set(right)) => left == right,
            (Datum::Map(left), Datum::Map(right)) => left == right,
            _ => false,
        }
    }
}

impl Eq for Datum {
    ghost use Rattle.ovs_data.specs.Equality.{datum_equiv};

    ghost laws = { datum_equiv };
}
