//! The mutators "insert" and "delete" of sets and maps (RFC 7047 section 5.1).

ghost use Rattle.std.specs.Prelude.{◌≡◌, true, not, IfOk};
ghost use Rattle.std.specs.List.{filter};
ghost use Rattle.ovs_data.specs.Column.{may_count, loose};
ghost use Rattle.ovs_data.specs.Datum.{IsAlike, IsDatumOf, IsOrdered, datum_len, has_element};
ghost use Rattle.ovs_data.specs.Mutation.{inserted, deletes, deleted, IsUnion};
ghost use Rattle.ovs_data.specs.declared.column.Column as declared_column;
ghost use Rattle.ovs_data.specs.declared.datum.Datum.TheVariants.{Set, Map};

use crate::datum::Datum;
use crate::datum::atoms::Atoms;
use crate::datum::pairs::{Pair, Pairs};
use ovs_json::NoMemory;

impl Datum {
    // Whether it is a map that has the pair, or a set that has its key.
    fn deletes(&self, pair: &Pair) -> bool
        ensures value { result ≡ deletes self.now pair.now }
    {
        match self {
            Datum::Set(keys) => keys.contains(&pair.key),
            Datum::Map(_) => self.has_pair(pair),
        }
    }

    // The elements of a set that aren't its own.
    fn deleted_from_set(&self, atoms: &Atoms) -> Result<Atoms, NoMemory>
        ensures value { IfOk result (λ a. a ≡ filter (λ x. not (has_element x self.now)) atoms.now) }
    {
        let mut kept = Vec::new(atoms.allocator());
        for atom in atoms.as_slice() {
            if !self.contains(atom) {
                kept.push(atom.copy()?)?;
            }
        }
        Ok(Atoms::new(kept))
    }

    // The pairs of a map that it doesn't delete.
    fn deleted_from_map(&self, pairs: &Pairs) -> Result<Pairs, NoMemory>
        ensures value { IfOk result (λ p. p ≡ filter (λ q. not (deletes self.now q)) pairs.now) }
    {
        let mut kept = Vec::new(pairs.allocator());
        for pair in pairs.as_slice() {
            if !self.deletes(pair) {
                kept.push(pair.copy()?)?;
            }
        }
        Ok(Pairs::new(kept))
    }

    // The two joined, of whatever number.
    fn joined(&self, other: &Datum) -> Result<Datum, NoMemory>
        requires alike { IsAlike self.now other.now }
        ensures exact { IfOk result (λ d. d ≡ inserted self.now other.now) }
    {
        match (self, other) {
            (Datum::Set(left), Datum::Set(right)) => Ok(Datum::Set(left.joined(right)?)),
            (Datum::Map(left), Datum::Map(right)) => Ok(Datum::Map(left.joined(right)?)),
            _ => unreachable!(),
        }
    }

    // What is left of it without the other.
    fn left_by(&self, other: &Datum) -> Result<Datum, NoMemory>
        ensures exact { IfOk result (λ d. d ≡ deleted self.now other.now) }
    {
        match self {
            Datum::Set(atoms) => Ok(Datum::Set(other.deleted_from_set(atoms)?)),
            Datum::Map(pairs) => Ok(Datum::Map(other.deleted_from_map(pairs)?)),
        }
    }

    /// The elements of two sets, or the pairs of two maps; of a key in both this map's. How many there are isn't looked at.
    ///
    /// # Errors
    /// `NoMemory` alone.
    pub fn inserted(&self, other: &Datum) -> Result<Datum, NoMemory>
        requires alike { IsAlike self.now other.now }
        ensures union { IfOk result (IsUnion self.now other.now) }
        ensures exact { IfOk result (λ d. d ≡ inserted self.now other.now) }
        ensures kept { (c : declared_column.Column) → IsDatumOf c self.now → IsDatumOf (loose c) other.now → IfOk result (λ d. may_count c (datum_len d) ≡ true → IsDatumOf c d) }
    {
        self.joined(other)
    }

    /// The elements of this set that aren't the other's; or the pairs of this map that aren't the other map's, or whose keys
    /// aren't elements of the other set. How many there are isn't looked at.
    ///
    /// # Errors
    /// `NoMemory` alone.
    pub fn deleted(&self, other: &Datum) -> Result<Datum, NoMemory>
        ensures exact { IfOk result (λ d. d ≡ deleted self.now other.now) }
        ensures kept { (c : declared_column.Column) → IsDatumOf c self.now → IfOk result (λ d. may_count c (datum_len d) ≡ true → IsDatumOf c d) }
    {
        self.left_by(other)
    }
}
