//! Sets and maps out of lists in any order.

ghost use Rattle.std.specs.Prelude.{◌≡◌};
ghost use Rattle.ovs_data.specs.Atom.{atom_cmp};
ghost use Rattle.ovs_data.specs.Pairs.{key_cmp};
ghost use Rattle.ovs_data.specs.Ascending.{ascends, distinct};

use crate::atom::Atom;
use crate::datum::atoms::Atoms;
use crate::datum::exchange::SortedEntry;
use crate::datum::pairs::{Pair, Pairs};
use std::cmp::Ordering;

// Whether each entry is before the next.
fn ascends<E: SortedEntry>(entries: &[E]) -> bool
    ensures value { result ≡ ascends E.order entries.now }
{
    let mut rest = entries;
    while let [x, after @ ..] = rest {
        if let [y, ..] = after {
            match x.key_order(y) {
                Ordering::Less => {}
                _ => return false,
            }
        }
        rest = after;
    }
    true
}

/// The set of these atoms, where none stands twice.
pub(crate) fn set_of(mut atoms: Vec<Atom>) -> Option<Atoms>
    ensures value { result ≡ distinct atom_cmp atoms.items }
{
    atoms.sort_unstable();
    if ascends(&atoms) {
        Some(Atoms::new(atoms))
    } else {
        None
    }
}

/// The map of these pairs, where no key stands twice.
pub(crate) fn map_of(mut pairs: Vec<Pair>) -> Option<Pairs>
    ensures value { result ≡ distinct key_cmp pairs.items }
{
    pairs.sort_unstable();
    if ascends(&pairs) {
        Some(Pairs::new(pairs))
    } else {
        None
    }
}
