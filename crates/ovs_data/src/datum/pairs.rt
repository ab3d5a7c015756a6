//! Maps from atoms to atoms.

ghost use Rattle.std.specs.Prelude.{◌≡◌, ◌∷◌, ◌++◌, [], List, IfOk, true};
ghost use Rattle.std.specs.Option.{option_copied};
ghost use Rattle.ovs_data.specs.Atom.{atom_cmp};
ghost use Rattle.ovs_data.specs.Pairs.{key_cmp, key_total, same_value};
ghost use Rattle.ovs_data.specs.Ascending.{IsAscending, in_order};
ghost use Rattle.ovs_data.specs.Datum.{IsOrdered, value_at};
ghost use Rattle.ovs_data.specs.Difference.{IsExchange, exchange_of};
ghost use Rattle.ovs_data.specs.declared.datum.Datum.TheVariants.{Map};

use crate::atom::Atom;
use crate::datum::exchange::{SortedEntry, copies, exchanged, joined};
use crate::datum::keyed::{Keyed, find};
use ovs_json::NoMemory;
use std::alloc::Global;
use std::cmp::Ordering;
use std::marker::Model;

/// A key and its value, in the order of keys and then of values.
#[derive(Debug, Drop, PartialEq, Eq, PartialOrd, Ord)]
pub struct Pair {
    /// What the map has a value at.
    pub key: Atom,
    /// The value there.
    pub value: Atom,
}

impl Pair {
    /// An equal pair.
    ///
    /// # Errors
    /// `NoMemory` alone.
    pub(crate) fn copy(&self) -> Result<Pair, NoMemory>
        ensures equal { IfOk result (λ p. p ≡ self.now) }
    {
        Ok(Pair {
            key: self.key.copy()?,
            value: self.value.copy()?,
        })
    }
}

impl SortedEntry for Pair {
    ghost order = { key_cmp };

    ghost is_same = { same_value };

    fn key_order(&self, other: &Pair) -> Ordering {
        self.key.compare(&other.key)
    }

    fn has_same(&self, other: &Pair) -> bool {
        self.value.compare(&other.value) == Ordering::Equal
    }

    fn entry_copy(&self) -> Result<Pair, NoMemory> {
        self.copy()
    }

    ghost total = { key_total };
}

impl Keyed for Pair {
    ghost key = { λ p. p.key };

    fn key(&self) -> &Atom {
        &self.key
    }
}

/// Pairs in ascending order of their keys, each key once.
#[derive(Debug, Drop)]
pub struct Pairs {
    items: Vec<Pair>,
}

impl Model for Pairs {
    ghost use Rattle.std.specs.Prelude.{List};
    ghost use Rattle.ovs_data.specs.declared.datum.pairs.Pair.{Pair};
    ghost use Rattle.ovs_data.specs.Atom.{atom_cmp};
    ghost use Rattle.ovs_data.specs.Ascending.{IsAscending};

    ghost Value = { List Pair };

    ghost view = { λ a. a.items.items };

    ghost invariant = { λ a. IsAscending atom_cmp (λ p. p.key) a.items.items };
}

impl Pairs {
    /// The map of a list whose keys ascend.
    pub(crate) fn new(items: Vec<Pair>) -> Pairs
        requires ascending { IsAscending atom_cmp (λ p. p.key) items.items }
        ensures all { result ≡ items.items }
    {
        Self { items }
    }

    /// The empty map, which takes no memory.
    pub(crate) fn empty(alloc: Global) -> Pairs
        ensures empty { result ≡ [] }
    {
        Pairs {
            items: Vec::new(alloc),
        }
    }

    /// The map of one pair.
    ///
    /// # Errors
    /// `NoMemory` alone.
    pub(crate) fn one(alloc: Global, pair: Pair) -> Result<Pairs, NoMemory>
        ensures one { IfOk result (λ a. a ≡ pair ∷ []) }
    {
        let mut items = Vec::with_capacity(alloc, 1)?;
        items.push(pair)?;
        Ok(Pairs { items })
    }

    /// Lends the pairs, in ascending order of their keys.
    pub(crate) fn as_slice(&self) -> &[Pair]
        ensures all { result.now ≡ self.now }
        ensures ascending { IsAscending atom_cmp (λ p. p.key) self.now }
    {
        self.items.as_slice()
    }

    /// The value at a key.
    pub(crate) fn get(&self, key: &Atom) -> Option<&Atom>
        ensures value { option_copied result ≡ value_at key.now self.now }
    {
        Some(&find(&self.items, key)?.value)
    }

    /// An equal map.
    ///
    /// # Errors
    /// `NoMemory` alone.
    pub(crate) fn copy(&self) -> Result<Pairs, NoMemory>
        ensures equal { IfOk result (λ a. a ≡ self.now) }
        ensures ordered { IsOrdered (Map self.now) }
    {
        Ok(Pairs {
            items: copies(*self.items.allocator(), &self.items)?,
        })
    }

    /// The allocator.
    pub(crate) fn allocator(&self) -> Global {
        *self.items.allocator()
    }

    /// The pairs of both; of a key in both this map's.
    pub(crate) fn joined(&self, other: &Pairs) -> Result<Pairs, NoMemory>
        ensures value { IfOk result (λ a. a ≡ in_order key_cmp (self.now ++ other.now)) }
    {
        let items = joined(*self.items.allocator(), &self.items, &other.items)?;
        Ok(Pairs { items })
    }

    /// The pairs of a key of only one of the two, and of keys in both the second's where the values differ.
    pub(crate) fn exchanged(&self, other: &Pairs) -> Result<Pairs, NoMemory>
        ensures exchange { IfOk result (λ a. IsExchange (Map self.now) (Map other.now) (Map a)) }
        ensures exact { IfOk result (λ a. Map a ≡ exchange_of (Map self.now) (Map other.now)) }
        ensures ordered { IfOk result (λ a. IsOrdered (Map a)) }
    {
        let items = exchanged(*self.items.allocator(), &self.items, &other.items)?;
        Ok(Pairs { items })
    }
}

impl PartialEq for Pairs {
    ghost use Rattle.std.specs.Cmp.{partial_equiv_from_equiv};
    ghost use Rattle.ovs_data.specs.Equality.{pairs_eq, pairs_equiv};

    ghost eq = { pairs_eq };

    ghost laws = { partial_equiv_from_equiv pairs_equiv };

    fn eq(&self, other: &Pairs) -> bool {
        self.items == other.items
    }
}

impl Eq for Pairs {
    ghost use Rattle.ovs_data.specs.Equality.{pairs_equiv};

    ghost laws = { pairs_equiv };
}
