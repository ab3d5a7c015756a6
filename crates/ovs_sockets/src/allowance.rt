//! How often something may still be done.

ghost use Rattle.std.specs.Prelude.{◌≡◌, ◌≢◌, Some};
ghost use Rattle.ovs_sockets.specs.Allowance.{IsOneLess};

/// One less of those that may still be done; there is no bound where there was none.
pub(crate) fn one_less(left: Option<u32>) -> Option<u32>
    requires some { left ≢ Some 0 }
    ensures value { IsOneLess left result }
{
    match left {
        Some(left) => Some(left - 1),
        None => None,
    }
}
