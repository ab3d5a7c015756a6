//! Differences between the data of a column.

ghost use Rattle.std.specs.Prelude.{◌≡◌, IfOk};
ghost use Rattle.ovs_data.specs.Datum.{IsAlike, IsDatumOf, IsOrdered};
ghost use Rattle.ovs_data.specs.Difference.{IsDifference, IsExchange, exchange_of, difference_of, changed_by, AppliedDifferenceGivesTheOther, EmptyExactlyWhereNothingChanged};

use crate::column::Column;
use crate::datum::Datum;
use ovs_json::NoMemory;

impl Datum {
    // What only one of the two has, and the second's value of a key whose values differ.
    fn exchanged(&self, other: &Datum) -> Result<Datum, NoMemory>
        requires alike { IsAlike self.now other.now }
        ensures exchange { IfOk result (IsExchange self.now other.now) }
        ensures exact { IfOk result (λ d. d ≡ exchange_of self.now other.now) }
        ensures ordered { IfOk result IsOrdered }
    {
        match (self, other) {
            (Datum::Set(left), Datum::Set(right)) => Ok(Datum::Set(left.exchanged(right)?)),
            (Datum::Map(left), Datum::Map(right)) => Ok(Datum::Map(left.exchanged(right)?)),
            _ => unreachable!(),
        }
    }
}

/// The difference from `old` to `new`, which must both be sets or both be maps: for a single column
/// the whole of `new`; for other sets the elements in exactly one of the two; for other maps the
/// pairs whose key is in only one of them, and for keys in both with different values the key with
/// the new value.
///
/// # Errors
/// `NoMemory` alone.
pub fn difference(old: &Datum, new: &Datum, column: &Column) -> Result<Datum, NoMemory>
    requires alike { IsAlike old.now new.now }
    ensures difference { IfOk result (IsDifference column.now old.now new.now) }
    ensures exact { IfOk result (λ d. d ≡ difference_of column.now old.now new.now) }
    ensures ordered { IfOk result IsOrdered }
    ensures kept { IsDatumOf column.now old.now → IsDatumOf column.now new.now → IfOk result (IsDatumOf column.now) }
{
    if column.is_single() {
        new.copy()
    } else {
        old.exchanged(new)
    }
}

/// The datum to which `diff` is the difference from `old`. The two must both be sets or both be maps.
///
/// # Errors
/// `NoMemory` alone.
pub fn apply_difference(old: &Datum, diff: &Datum, column: &Column) -> Result<Datum, NoMemory>
    requires alike { IsAlike old.now diff.now }
    ensures applied { IfOk result (λ new. IsDifference column.now old.now new diff.now) }

    // No other datum has this difference from `old`.
    ensures only { IfOk result (λ new. (b : Datum) → IsOrdered b → IsDifference column.now old.now b diff.now → new ≡ b) }
    ensures exact { IfOk result (λ new. new ≡ changed_by column.now old.now diff.now) }
    ensures ordered { IfOk result IsOrdered }
    ensures kept { IsDatumOf column.now old.now → IsDatumOf column.now diff.now → IfOk result (IsDatumOf column.now) }
{
    if column.is_single() {
        diff.copy()
    } else {
        old.exchanged(diff)
    }
}

/// The difference from one datum to another, applied to the one, gives the other. Of a column that isn't single, the
/// difference of two data that are both sets or both maps is empty exactly where the two are equal.
pub fn difference_laws()
    ensures applied { AppliedDifferenceGivesTheOther }
    ensures empty { EmptyExactlyWhereNothingChanged }
{}
