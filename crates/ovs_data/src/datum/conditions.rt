//! The conditions "includes" and "excludes" (RFC 7047 section 5.1).

ghost use Rattle.std.specs.Prelude.{◌≡◌, ◌↔◌, IsTrue, not};
ghost use Rattle.std.specs.List.{list_all};
ghost use Rattle.ovs_data.specs.Datum.{has_element};
ghost use Rattle.ovs_data.specs.Conditions.{Includes, Excludes, has_pair, includes, excludes};

use crate::atom::Atom;
use crate::datum::Datum;
use crate::datum::pairs::Pair;

impl Datum {
    /// Whether each element and each pair of `other` is one of this datum's.
    pub fn includes(&self, other: &Datum) -> bool
        ensures includes { IsTrue result ↔ Includes self.now other.now }
        ensures value { result ≡ includes self.now other.now }
    {
        match other {
            Datum::Set(atoms) => self.has_all(atoms.as_slice()),
            Datum::Map(pairs) => self.has_all_pairs(pairs.as_slice()),
        }
    }

    /// Whether no element and no pair of `other` is one of this datum's.
    pub fn excludes(&self, other: &Datum) -> bool
        ensures excludes { IsTrue result ↔ Excludes self.now other.now }
        ensures value { result ≡ excludes self.now other.now }
    {
        match other {
            Datum::Set(atoms) => self.has_none(atoms.as_slice()),
            Datum::Map(pairs) => self.has_no_pair(pairs.as_slice()),
        }
    }

    pub(crate) fn has_pair(&self, pair: &Pair) -> bool
        ensures value { result ≡ has_pair self.now pair.now }
    {
        match self.get(&pair.key) {
            Some(value) => *value == pair.value,
            None => false,
        }
    }

    fn has_all(&self, atoms: &[Atom]) -> bool
        ensures value { result ≡ list_all (λ x. has_element x self.now) atoms.now }
    {
        atoms.iter().all(|atom| self.contains(atom))
    }

    fn has_none(&self, atoms: &[Atom]) -> bool
        ensures value { result ≡ list_all (λ x. not (has_element x self.now)) atoms.now }
    {
        atoms.iter().all(|atom| !self.contains(atom))
    }

    fn has_all_pairs(&self, pairs: &[Pair]) -> bool
        ensures value { result ≡ list_all (has_pair self.now) pairs.now }
    {
        pairs.iter().all(|pair| self.has_pair(pair))
    }

    fn has_no_pair(&self, pairs: &[Pair]) -> bool
        ensures value { result ≡ list_all (λ p. not (has_pair self.now p)) pairs.now }
    {
        pairs.iter().all(|pair| !self.has_pair(pair))
    }
}
