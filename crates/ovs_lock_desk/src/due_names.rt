//! The names of the locks for which something is due upward.

ghost use Rattle.std.specs.Prelude.{◌≡◌, ◌≢◌, ℕ, List, [], true};
ghost use Rattle.std.specs.BTreeSet.{IsOrdered};
ghost use Rattle.std.specs.Cmp.Lexicographic.{slice_cmp};
ghost use Rattle.std.specs.Ordering.{nat_cmp};
ghost use Rattle.ovs_lock_desk.specs.DueNames.{NotesDue, is_among};

use ovs_json::Text;
use std::alloc::Global;
use std::collections::BTreeSet;
use std::marker::Model;

/// The names of the locks for which something is due upward, ascending. Some may be missing where memory ran out; the list
/// says so then.
#[derive(Drop)]
pub(crate) struct DueNames {
    names: BTreeSet<Text>,
    is_whole: bool,
}

impl Model for DueNames {
    ghost use Rattle.std.specs.Prelude.{ℕ, List, Bool, refl};
    ghost use Rattle.std.specs.BTreeSet.{IsOrdered};
    ghost use Rattle.std.specs.Ordering.{nat_cmp};
    ghost use Rattle.std.specs.Cmp.Lexicographic.{slice_cmp};
    ghost use Rattle.std.specs.Coded.{code_by, coded×, coded_bool, coded_list, coded_ℕ};
    ghost use Rattle.ovs_lock_desk.specs.DueNames.{DueValue};

    ghost Value = { DueValue };

    ghost coded = { code_by (Bool × List (List ℕ)) (coded× coded_bool (coded_list (coded_list coded_ℕ)))
        (λ d. (d.is_whole, d.names)) (λ p. record { is_whole = p.0; names = p.1 }) (λ _. refl) };

    ghost view = { λ d. record { is_whole = d.is_whole; names = d.names.keys } };

    ghost invariant = { λ d. IsOrdered (slice_cmp nat_cmp) d.names };
}

// Puts a name in. Answers whether there was memory for it.
fn put(names: &mut BTreeSet<Text>, name: &Text) -> bool
    ensures here { result ≡ true → is_among name.now names.new.keys ≡ true }
    ensures others { (other : List ℕ) → other ≢ name.now → is_among other names.new.keys ≡ is_among other names.old.keys }
    ensures ordered { IsOrdered (slice_cmp nat_cmp) names.old → IsOrdered (slice_cmp nat_cmp) names.new }
{
    match name.copy() {
        Ok(name) => names.insert(name).is_ok(),
        Err(_) => false,
    }
}

impl DueNames {
    /// Nothing is due.
    pub(crate) fn new(alloc: Global) -> DueNames
        ensures value { result ≡ record { is_whole = true; names = [] } }
    {
        DueNames {
            names: BTreeSet::new(alloc),
            is_whole: true,
        }
    }

    /// Nothing is due any more.
    pub(crate) fn clear(&mut self)
        ensures value { self.new ≡ record { is_whole = true; names = [] } }
    {
        self.names.clear();
        self.is_whole = true;
    }

    /// Whether no name is missing.
    pub(crate) fn is_whole(&self) -> bool
        ensures value { result ≡ self.now.is_whole }
    {
        self.is_whole
    }

    /// The names, ascending.
    pub(crate) fn names(&self) -> &BTreeSet<Text>
        ensures value { result.now.keys ≡ self.now.names }
    {
        &self.names
    }

    /// Whether something is due for the lock of this name. Where there is no memory for the name it is missing.
    pub(crate) fn note(&mut self, name: &Text, is_due: bool)
        ensures note { NotesDue name.now is_due self.old self.new }
    {
        if is_due {
            self.add(name);
        } else {
            self.names.remove(name);
        }
    }

    // Something is due for the lock of this name.
    fn add(&mut self, name: &Text)
        ensures note { NotesDue name.now true self.old self.new }
    {
        if self.names.contains(name) {
            return;
        }
        let is_put = put(&mut self.names, name);
        self.is_whole = self.is_whole && is_put;
    }
}
