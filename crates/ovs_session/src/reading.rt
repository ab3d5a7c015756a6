//! When a session reads.

use crate::read_outcome::ReadOutcome;

/// When a session reads, where nothing else is left to do.
#[derive(Debug, Clone, Copy, PartialEq, Eq)]
pub(crate) enum Reading {
    /// At any time: nobody tells it that something came.
    Always,
    /// Once it is told that something came.
    OnceTold,
    /// Now, until a read gets fewer bytes than it asks for.
    UntilPart,
    /// Now, until a read gets nothing. The end may have come, which stands behind the last bytes.
    UntilNothing,
}

impl Reading {
    /// Whether it reads now.
    pub(crate) fn is_now(self) -> bool {
        self != Reading::OnceTold
    }

    /// The same, where it is told of what comes.
    pub(crate) fn when_told(self, is_read_closed: bool) -> Reading {
        match self {
            Reading::Always => Reading::Always,
            Reading::UntilNothing => Reading::UntilNothing,
            _ if is_read_closed => Reading::UntilNothing,
            _ => Reading::UntilPart,
        }
    }

    /// The same after a read.
    pub(crate) fn after(self, outcome: ReadOutcome) -> Reading {
        match (self, outcome) {
            (Reading::UntilPart, ReadOutcome::Part | ReadOutcome::Nothing)
            | (Reading::UntilNothing, ReadOutcome::Nothing) => Reading::OnceTold,
            _ => self,
        }
    }
}
