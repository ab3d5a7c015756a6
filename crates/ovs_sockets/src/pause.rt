//! How long to wait before an upstream is tried again.

ghost use Rattle.std.specs.Prelude.{◌≡◌, ◌*◌, min};
ghost use Rattle.std.specs.Duration.{as_nanos};

use std::time::Duration;

// The first pause, and the longest, in milliseconds.
const FIRST: u64 = 10;

const LONGEST: u64 = 1000;

/// The next pause, which is twice as long as the one before, up to a second.
#[derive(Clone, Copy, Debug, PartialEq, Eq)]
pub(crate) struct Pause {
    milliseconds: u64,
}

impl Pause {
    /// The first.
    pub(crate) fn new() -> Pause
        ensures first { result.milliseconds ≡ 10 }
    {
        Pause {
            milliseconds: FIRST,
        }
    }

    /// How long this one is; the next is twice as long, and at most a second.
    pub(crate) fn take(&mut self) -> Duration
        ensures value { as_nanos result ≡ self.old.milliseconds * 1_000_000 }
        ensures grows { self.new.milliseconds ≡ min (self.old.milliseconds * 2) 1000 }
    {
        let pause = Duration::from_millis(self.milliseconds);
        self.milliseconds = self.milliseconds.saturating_mul(2).min(LONGEST);
        pause
    }
}
