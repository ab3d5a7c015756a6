//! The rule of a history: its word is its length. All else that holds of it is kept by the prefixes.

use logbook::{Gain, Play, Rule};

/// The word is the length of the history.
pub struct LengthRule;

impl<T> Rule<T, u64> for LengthRule {
    ghost use Rattle.std.specs.Prelude.{[]};
    ghost use base.Fml.{ftrue};
    ghost use Rattle.ovs_sync.specs.LengthRule.{IsLength};

    ghost holds = { λ cells log. IsLength cells log };

    ghost first = { [] };

    ghost hinted = { λ n log. Unit {0} };

    ghost shows = { λ log. [] };

    ghost keeps = { λ names log. ftrue };

    ghost moves = { λ ask before after answer. Unit {0} };
}

/// Who adds an entry gets nothing for it.
pub struct NoGain;

impl<T> Gain<T, u64> for NoGain {
    ghost use base.Fml.{ftrue};

    ghost after = { λ names about answer. ftrue };
}

/// The step that adds the entry that is asked for.
pub struct Adding;

impl<T> Play<T, u64> for Adding {
    ghost use Rattle.ovs_sync.specs.LengthRule.{Adds};

    ghost then = { Adds };
}
