//! Atoms, the values that data are made of (RFC 7047 section 5.1).

ghost use Rattle.std.specs.Prelude.{◌≡◌, ◌≢◌, IfOk, IsOk};
ghost use Rattle.std.specs.Cmp.{partial_order_from_own_ties, partial_equiv_from_equiv, eq_by_cmp_equiv};
ghost use Rattle.std.specs.Cmp.Rules.{comparing};
ghost use Rattle.std.specs.Ordering.{as_partial_cmp, eq_by_cmp};
ghost use Rattle.std.proofs.Common.{rules};
ghost use Rattle.ovs_data.specs.declared.atom.AtomKind.TheVariants as kinds;
ghost use Rattle.ovs_data.specs.Atom.{kind_of, default_atom, atom_cmp, atom_total, rank};

use crate::row_id::RowId;
use ovs_json::{NoMemory, Text};
use std::alloc::Global;
use std::cmp::Ordering;

/// The type of an atom.
#[derive(Clone, Copy, Debug, PartialEq, Eq)]
pub enum AtomKind {
    /// Integers of 64 bits.
    Integer,
    /// Truth values.
    Boolean,
    /// Texts.
    String,
    /// Ids of rows.
    Uuid,
}

/// One value. Atoms of one kind are in the order of their values: integers by value, false before
/// true, texts by their bytes, ids by their number.
#[derive(Debug, Drop)]
pub enum Atom {
    /// An integer of 64 bits.
    Integer(i64),
    /// A truth value.
    Boolean(bool),
    /// A text.
    String(Text),
    /// The id of a row.
    Uuid(RowId),
}

impl Atom {
    /// An equal atom.
    ///
    /// # Errors
    /// `NoMemory` alone, and only of a text.
    pub fn copy(&self) -> Result<Atom, NoMemory>
        ensures equal { IfOk result (λ a. a ≡ self.now) }
        // Only a text takes memory.
        ensures plain { kind_of self.now ≢ kinds.String → IsOk result }
    {
        Ok(match self {
            Atom::Integer(number) => Atom::Integer(*number),
            Atom::Boolean(truth) => Atom::Boolean(*truth),
            Atom::String(text) => Atom::String(text.copy()?),
            Atom::Uuid(id) => Atom::Uuid(*id),
        })
    }

    /// The order of two atoms.
    pub(crate) fn compare(&self, other: &Atom) -> Ordering
        ensures order { result ≡ atom_cmp self.now other.now }
    {
        self.cmp(other)
    }

    /// 0, false, the empty text or the id of zeros.
    pub(crate) fn default_atom(alloc: Global, kind: AtomKind) -> Atom
        ensures value { result ≡ default_atom kind }
    {
        match kind {
            AtomKind::Integer => Atom::Integer(0),
            AtomKind::Boolean => Atom::Boolean(false),
            AtomKind::String => Atom::String(Text::empty(alloc)),
            AtomKind::Uuid => Atom::Uuid(RowId::from(0)),
        }
    }

    // The place of its kind among the kinds.
    fn rank(&self) -> u8
        ensures rank { result ≡ rank self.now }
    {
        match self {
            Atom::Integer(_) => 0,
            Atom::Boolean(_) => 1,
            Atom::String(_) => 2,
            Atom::Uuid(_) => 3,
        }
    }
}

impl PartialEq for Atom {
    ghost eq = { eq_by_cmp atom_cmp };

    ghost laws = { partial_equiv_from_equiv (eq_by_cmp_equiv atom_total) };

    fn eq(&self, other: &Atom) -> bool {
        self.cmp(other) == Ordering::Equal
    }
}

impl Eq for Atom {
    ghost laws = { eq_by_cmp_equiv atom_total };
}

impl PartialOrd for Atom {
    ghost partial_cmp = { as_partial_cmp atom_cmp };

    ghost laws = { partial_order_from_own_ties (Prim.search (comparing, rules)) (Prim.search (comparing, rules)) };

    fn partial_cmp(&self, other: &Atom) -> Option<Ordering> {
        Some(self.cmp(other))
    }
}

impl Ord for Atom {
    ghost cmp = { atom_cmp };

    ghost total = { atom_total };

    ghost matches_partial_cmp = { Prim.search (comparing, rules) };

    ghost matches_eq = { Prim.search (comparing, rules) };

    fn cmp(&self, other: &Atom) -> Ordering {
        match (self, other) {
            (Atom::Integer(a), Atom::Integer(b)) => a.cmp(b),
            (Atom::Boolean(a), Atom::Boolean(b)) => a.cmp(b),
            (Atom::String(a), Atom::String(b)) => a.cmp(b),
            (Atom::Uuid(a), Atom::Uuid(b)) => a.cmp(b),
            _ => self.rank().cmp(&other.rank()),
        }
    }
}
