//! Parts that are all looked at, so that the worst of their faults is found wherever it stands.

ghost use Rattle.std.specs.Prelude.{◌≡◌, ℕ, IfOk};
ghost use Rattle.ovs_json.specs.FirstFault.{first_of, both, with_one, items_of};

use crate::no_memory::NoMemory;

/// A fault, with its place in the order of the faults: the lower the rank, the worse.
pub trait Ranked: Drop {
    /// The place in the order.
    ghost rank: { Self → ℕ };

    /// The place in the order.
    fn rank(&self) -> u8
        ensures place { result ≡ rank self.now };
}

// The worse of two faults.
fn first_of<E: Ranked>(fault: E, other: E) -> E
    ensures first { result ≡ first_of E.rank fault other }
{
    if fault.rank() <= other.rank() {
        fault
    } else {
        other
    }
}

/// What two parts are, or the worst of their faults.
///
/// # Errors
/// The fault of the one that has one; where both have, the one of lower rank.
pub fn both<A: Drop, B: Drop, E: Ranked>(
    first: Result<A, E>,
    second: Result<B, E>,
) -> Result<(A, B), E>
    ensures both { result ≡ both E.rank first second }
{
    match (first, second) {
        (Ok(a), Ok(b)) => Ok((a, b)),
        (Ok(_), Err(fault)) => Err(fault),
        (Err(fault), Ok(_)) => Err(fault),
        (Err(fault), Err(other)) => Err(first_of(fault, other)),
    }
}

/// The parts that were read so far with one more, or the worst of the faults.
///
/// # Errors
/// `NoMemory` alone; the faults are a value.
pub fn with_one<X: Drop, E: Ranked>(
    so_far: Result<Vec<X>, E>,
    one: Result<X, E>,
) -> Result<Result<Vec<X>, E>, NoMemory>
    ensures longer { IfOk result (λ r. items_of r ≡ with_one E.rank (items_of so_far) one) }
{
    match both(so_far, one) {
        Ok((mut items, item)) => {
            items.push(item)?;
            Ok(Ok(items))
        }
        Err(fault) => Ok(Err(fault)),
    }
}
