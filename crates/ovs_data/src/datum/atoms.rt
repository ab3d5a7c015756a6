//! Sets of atoms.

ghost use Rattle.std.specs.Prelude.{◌≡◌, ◌∷◌, ◌++◌, [], List, IfOk, true};
ghost use Rattle.ovs_data.specs.Atom.{atom_cmp, atom_total};
ghost use Rattle.ovs_data.specs.Ascending.{IsAscending, in_order};
ghost use Rattle.ovs_data.specs.Datum.{IsOrdered, contains};
ghost use Rattle.ovs_data.specs.Difference.{IsExchange, exchange_of};
ghost use Rattle.ovs_data.specs.declared.datum.Datum.TheVariants.{Set};

use crate::atom::Atom;
use crate::datum::exchange::{SortedEntry, copies, exchanged, joined};
use crate::datum::keyed::{Keyed, find};
use ovs_json::NoMemory;
use std::alloc::Global;
use std::cmp::Ordering;
use std::marker::Model;

impl SortedEntry for Atom {
    ghost order = { atom_cmp };

    ghost is_same = { λ _ _. true };

    fn key_order(&self, other: &Atom) -> Ordering {
        self.compare(other)
    }

    fn has_same(&self, _other: &Atom) -> bool {
        true
    }

    fn entry_copy(&self) -> Result<Atom, NoMemory> {
        self.copy()
    }

    ghost total = { atom_total };
}

impl Keyed for Atom {
    ghost key = { λ x. x };

    fn key(&self) -> &Atom {
        self
    }
}

/// Atoms in ascending order, each once.
#[derive(Debug, Drop)]
pub struct Atoms {
    items: Vec<Atom>,
}

impl Model for Atoms {
    ghost use Rattle.std.specs.Prelude.{List};
    ghost use Rattle.ovs_data.specs.declared.atom.Atom.{Atom};
    ghost use Rattle.ovs_data.specs.Atom.{atom_cmp};
    ghost use Rattle.ovs_data.specs.Ascending.{IsAscending};

    ghost Value = { List Atom };

    ghost view = { λ a. a.items.items };

    ghost invariant = { λ a. IsAscending atom_cmp (λ x. x) a.items.items };
}

impl Atoms {
    /// The set of a list that ascends.
    pub(crate) fn new(items: Vec<Atom>) -> Atoms
        requires ascending { IsAscending atom_cmp (λ x. x) items.items }
        ensures all { result ≡ items.items }
    {
        Self { items }
    }

    /// The empty set, which takes no memory.
    pub(crate) fn empty(alloc: Global) -> Atoms
        ensures empty { result ≡ [] }
    {
        Atoms {
            items: Vec::new(alloc),
        }
    }

    /// The set of one atom.
    ///
    /// # Errors
    /// `NoMemory` alone.
    pub(crate) fn one(alloc: Global, atom: Atom) -> Result<Atoms, NoMemory>
        ensures one { IfOk result (λ a. a ≡ atom ∷ []) }
    {
        let mut items = Vec::with_capacity(alloc, 1)?;
        items.push(atom)?;
        Ok(Atoms { items })
    }

    /// Lends the atoms, ascending.
    pub(crate) fn as_slice(&self) -> &[Atom]
        ensures all { result.now ≡ self.now }
        ensures ascending { IsAscending atom_cmp (λ x. x) self.now }
    {
        self.items.as_slice()
    }

    /// Whether the set has this atom.
    pub(crate) fn contains(&self, atom: &Atom) -> bool
        ensures value { result ≡ contains atom.now self.now }
    {
        find(&self.items, atom).is_some()
    }

    /// An equal set.
    ///
    /// # Errors
    /// `NoMemory` alone.
    pub(crate) fn copy(&self) -> Result<Atoms, NoMemory>
        ensures equal { IfOk result (λ a. a ≡ self.now) }
        ensures ordered { IsOrdered (Set self.now) }
    {
        Ok(Atoms {
            items: copies(*self.items.allocator(), &self.items)?,
        })
    }

    /// The allocator.
    pub(crate) fn allocator(&self) -> Global {
        *self.items.allocator()
    }

    /// The atoms of both.
    pub(crate) fn joined(&self, other: &Atoms) -> Result<Atoms, NoMemory>
        ensures value { IfOk result (λ a. a ≡ in_order atom_cmp (self.now ++ other.now)) }
    {
        let items = joined(*self.items.allocator(), &self.items, &other.items)?;
        Ok(Atoms { items })
    }

    /// The atoms of exactly one of the two.
    pub(crate) fn exchanged(&self, other: &Atoms) -> Result<Atoms, NoMemory>
        ensures exchange { IfOk result (λ a. IsExchange (Set self.now) (Set other.now) (Set a)) }
        ensures exact { IfOk result (λ a. Set a ≡ exchange_of (Set self.now) (Set other.now)) }
        ensures ordered { IfOk result (λ a. IsOrdered (Set a)) }
    {
        let items = exchanged(*self.items.allocator(), &self.items, &other.items)?;
        Ok(Atoms { items })
    }
}

impl PartialEq for Atoms {
    ghost use Rattle.std.specs.Cmp.{partial_equiv_from_equiv};
    ghost use Rattle.ovs_data.specs.Equality.{atoms_eq, atoms_equiv};

    ghost eq = { atoms_eq };

    ghost laws = { partial_equiv_from_equiv atoms_equiv };

    fn eq(&self, other: &Atoms) -> bool {
        self.items == other.items
    }
}

impl Eq for Atoms {
    ghost use Rattle.ovs_data.specs.Equality.{atoms_equiv};

    ghost laws = { atoms_equiv };
}
