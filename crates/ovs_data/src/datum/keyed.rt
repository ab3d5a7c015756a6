//! What stands in an ascending list, found by its key.

ghost use Rattle.std.specs.Prelude.{◌≡◌};
ghost use Rattle.std.specs.Option.{option_copied};
ghost use Rattle.ovs_data.specs.declared.atom.Atom.{Atom};
ghost use Rattle.ovs_data.specs.Atom.{atom_cmp};
ghost use Rattle.ovs_data.specs.Ascending.{IsAscending};
ghost use Rattle.ovs_data.specs.Exchange.{entry_at};

use crate::atom::Atom;

/// What has an atom for its key: an atom itself, or a pair.
pub(crate) trait Keyed {
    /// Its key.
    ghost key: { Self → Atom };

    fn key(&self) -> &Atom
        ensures { result.now ≡ key self.now };
}

/// The entry of a key in a list whose keys ascend, by binary search.
pub(crate) fn find<'a, E: Keyed>(entries: &'a [E], key: &Atom) -> Option<&'a E>
    requires ascending { IsAscending atom_cmp E.key entries.now }
    ensures value { option_copied result ≡ entry_at atom_cmp E.key key.now entries.now }
{
    let number = entries
        .binary_search_by(|entry| entry.key().compare(key))
        .ok()?;
    Some(&entries[number])
}
