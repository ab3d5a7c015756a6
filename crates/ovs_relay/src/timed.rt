//! What is said with the time before it.

use jiff::Timestamp;
use std::fmt::{self, Display, Formatter};
use std::time::Clock;

/// What is said with the time before it (UTC, to the millisecond), where the clock could be read.
#[derive(Clone, Copy, Drop)]
pub(crate) struct Timed<D> {
    time: Option<Timestamp>,
    said: D,
}

impl<D> Timed<D> {
    /// Said now.
    pub(crate) fn now<C: Clock>(clock: &C, said: D) -> Timed<D> {
        Timed {
            time: Timestamp::now(clock).ok(),
            said,
        }
    }
}

impl<D: Display> Display for Timed<D> {
    fn fmt<W: fmt::Write>(&self, f: &mut Formatter<W>) -> fmt::Result {
        if let Some(time) = &self.time {
            write!(f, "{time:.3} ")?;
        }
        write!(f, "{}", self.said)
    }
}
