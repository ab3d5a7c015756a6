//! What a worker waits for, and what wakes it.

ghost use Rattle.std.specs.Prelude.{◌≡◌, ◌≢◌, ◌++◌, ℕ, List, Option, None, true, option_map, option_to_list};

use ovs_session::Ended;
use std::io::{Read, Write};

/// How long a wait may take, where nothing ends it before.
#[derive(Clone, Copy, Debug, PartialEq, Eq)]
pub enum Timeout {
    /// Not at all: there is work left to do.
    Zero,
    /// Some milliseconds: all work that is left was refused memory. So it takes, also where a connection may wait.
    Short,
    /// Without end: no work is left.
    Infinite,
}

/// What a wait found.
#[derive(Clone, Copy, Debug, PartialEq, Eq)]
pub struct Wakeup {
    /// The worker was woken since the wait before.
    pub was_woken: bool,
    /// Any session may go on: for some it couldn't be told, or something came for all.
    pub is_any_ready: bool,
    /// A connection may have come.
    pub may_accept: bool,
    /// No connection comes any more.
    pub is_closed: bool,
    /// All sessions are to end now, and their devices pass nothing any more.
    pub is_over: bool,
}

/// A session that may go on.
#[derive(Clone, Copy, Debug, PartialEq, Eq)]
pub struct Ready {
    /// Its number.
    pub key: usize,
    /// Its reader's end or failure may have come, which stands behind the last bytes: a read that gets fewer bytes than it
    /// asks for isn't the last.
    pub is_read_closed: bool,
}

/// Where connections come in, and where a worker waits for them, for their bytes and for being woken. None of its calls but
/// `wait` waits. A connection that came in is out until its session is back.
pub trait Poller {
    /// What a connection is read from.
    type In: Read + Drop;

    /// What it is written to.
    type Out: Write + Drop;

    // The connection that came in under a number and isn't back, as it was when it came in.
    ghost out: { Self → ℕ → Option (Self.In × Self.Out) };

    // The connections that are back, as they were when they came in, in the order in which they came back.
    ghost back: { Self → List (Self.In × Self.Out) };

    // No connection comes any more.
    ghost is_closed: { Self → Type 0 };

    // All sessions are to end, and their devices pass nothing any more.
    ghost is_over: { Self → Type 0 };

    /// Which of a node's workers waits at them.
    fn worker(&self) -> usize {
        0
    }

    /// Waits until a session may go on, a connection came or the worker is woken, or until the time is over. After a wait one
    /// connection is taken at most: an infinite one doesn't wait where another may be there.
    fn wait(&mut self, timeout: Timeout) -> Wakeup
        ensures same { (key : ℕ) → out self.new key ≡ out self.old key }
        ensures back { back self.new ≡ back self.old }
        ensures closed { result.is_closed ≡ true → is_closed self.new }
        ensures over { result.is_over ≡ true → is_over self.new };

    /// The next session that may go on since it last stood idle. `None` where there is no other. A session reads only once
    /// it is told so since a read got nothing, or fewer bytes than it asked for.
    fn next_ready(&mut self) -> Option<Ready>
        ensures same { (key : ℕ) → out self.new key ≡ out self.old key }
        ensures back { back self.new ≡ back self.old }
        ensures closed { is_closed self.old → is_closed self.new }
        ensures over { is_over self.old → is_over self.new };

    /// The next connection, whose session will have this number. `None` where none waits, or none can be taken now.
    fn accept(&mut self, key: usize) -> Option<(Self::In, Self::Out)>
        requires free { out self.old key ≡ None }
        ensures came { out self.new key ≡ option_map (λ connection. (connection.0, connection.1)) result }
        ensures others { (other : ℕ) → other ≢ key → out self.new other ≡ out self.old other }
        ensures back { back self.new ≡ back self.old }
        ensures closed { is_closed self.old → is_closed self.new }
        ensures over { is_over self.old → is_over self.new };

    /// The session of this number has ended so: its connection is back.
    fn left(&mut self, key: usize, reader: Self::In, writer: Self::Out, ended: Ended)
        ensures gone { out self.new key ≡ None }
        ensures others { (other : ℕ) → other ≢ key → out self.new other ≡ out self.old other }
        ensures back { back self.new ≡ back self.old ++ option_to_list (out self.old key) }
        ensures closed { is_closed self.old → is_closed self.new }
        ensures over { is_over self.old → is_over self.new };
}

/// Wakes a worker.
pub trait Wake {
    /// Ends the worker's wait, or the next one, where it doesn't wait. It takes no memory and doesn't wait.
    fn wake(&self);
}
