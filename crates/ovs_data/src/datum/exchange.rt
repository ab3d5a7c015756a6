//! One list of entries in ascending order, out of two.

ghost use Rattle.std.specs.Prelude.{◌≡◌, ◌++◌, ◌&&◌, IfOk, Bool, not};
ghost use Rattle.std.specs.declared.cmp.Ordering.{Ordering};
ghost use Rattle.std.specs.Cmp.{IsTotalOrder};
ghost use Rattle.ovs_data.specs.Ascending.{IsAscending, in_order};
ghost use Rattle.ovs_data.specs.Exchange.{AreExchanged};

use ovs_json::NoMemory;
use std::alloc::Global;
use std::cmp::Ordering;

/// What stands in a list in ascending order, at most once for each key.
pub(crate) trait SortedEntry: Drop {
    /// The order of the keys.
    ghost order: { Self → Self → Ordering };

    /// Whether two entries of one key are the same.
    ghost is_same: { Self → Self → Bool };

    fn key_order(&self, other: &Self) -> Ordering
        ensures { result ≡ order self.now other.now };

    fn has_same(&self, other: &Self) -> bool
        ensures { result ≡ is_same self.now other.now };

    fn entry_copy(&self) -> Result<Self, NoMemory>
        ensures { IfOk result (λ c. c ≡ self.now) };

    /// The order is total.
    ghost total: { IsTotalOrder order };
}

// The entries of one list alone, and of the keys in both the second list's entry, ascending; where two that are the same are
// wanted too, or else differ.
fn merged<E: SortedEntry>(
    alloc: Global,
    old: &[E],
    other: &[E],
    same_too: bool,
) -> Result<Vec<E>, NoMemory>
    requires old { IsAscending E.order (λ x. x) old.now }
    requires other { IsAscending E.order (λ x. x) other.now }
    ensures ascending { IfOk result (λ v. IsAscending E.order (λ x. x) v.items) }
    ensures exchange { IfOk result (λ v. AreExchanged E.order (λ x y. not same_too && E.is_same x y) old.now other.now v.items) }
{
    let mut out = Vec::new(alloc);
    let mut left = old;
    let mut right = other;
    while let [x, after_x @ ..] = left {
        let [y, after_y @ ..] = right else {
            break;
        };
        match x.key_order(y) {
            Ordering::Less => {
                out.push(x.entry_copy()?)?;
                left = after_x;
            }
            Ordering::Greater => {
                out.push(y.entry_copy()?)?;
                right = after_y;
            }
            Ordering::Equal => {
                if same_too || !x.has_same(y) {
                    out.push(y.entry_copy()?)?;
                }
                left = after_x;
                right = after_y;
            }
        }
    }
    for x in left {
        out.push(x.entry_copy()?)?;
    }
    for y in right {
        out.push(y.entry_copy()?)?;
    }
    Ok(out)
}

/// The entries of one list alone, and of the keys in both the second list's entry where the two differ, ascending.
pub(crate) fn exchanged<E: SortedEntry>(
    alloc: Global,
    old: &[E],
    other: &[E],
) -> Result<Vec<E>, NoMemory>
    requires old { IsAscending E.order (λ x. x) old.now }
    requires other { IsAscending E.order (λ x. x) other.now }
    ensures ascending { IfOk result (λ v. IsAscending E.order (λ x. x) v.items) }
    ensures exchange { IfOk result (λ v. AreExchanged E.order E.is_same old.now other.now v.items) }
{
    merged(alloc, old, other, false)
}

/// The entries of both lists, ascending; of a key in both the first list's.
pub(crate) fn joined<E: SortedEntry>(
    alloc: Global,
    old: &[E],
    other: &[E],
) -> Result<Vec<E>, NoMemory>
    requires old { IsAscending E.order (λ x. x) old.now }
    requires other { IsAscending E.order (λ x. x) other.now }
    ensures ascending { IfOk result (λ v. IsAscending E.order (λ x. x) v.items) }
    ensures value { IfOk result (λ v. v.items ≡ in_order E.order (old.now ++ other.now)) }
{
    merged(alloc, other, old, true)
}

/// Equal entries.
pub(crate) fn copies<E: SortedEntry>(alloc: Global, entries: &[E]) -> Result<Vec<E>, NoMemory>
    ensures value { IfOk result (λ v. v.items ≡ entries.now) }
{
    let mut out = Vec::with_capacity(alloc, entries.len())?;
    for entry in entries {
        out.push(entry.entry_copy()?)?;
    }
    Ok(out)
}
