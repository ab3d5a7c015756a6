//! Lines that wait to be said on standard error.

use crate::timed::Timed;
use crossbeam_queue::ArrayQueue;
use std::alloc::{AllocError, Global};
use std::fmt::{self, Display, Formatter};
use std::sync::atomic::{AtomicU64, Ordering};
use std::sync::{Arc, Wait};
use std::thread::{self, Parker, Threads};
use std::time::{Clock, Duration};

// So many lines wait at most.
const MOST_WAITING: usize = 1024;

// At the end it is looked so often whether all is said, with so many milliseconds between.
const MOST_LOOKS: u32 = 100;

const LOOK: u64 = 10;

// So many lines were dropped.
#[derive(Clone, Copy, Drop)]
struct Dropped(u64);

impl Display for Dropped {
    fn fmt<W: fmt::Write>(&self, f: &mut Formatter<W>) -> fmt::Result {
        write!(
            f,
            "lines dropped, since nobody read or there was no memory: {}",
            self.0
        )
    }
}

/// Lines that wait to be said on standard error. A thread of their own says them, so that nobody else waits where nobody reads
/// them. Where there is no room for a line it is dropped, and counted.
#[derive(Drop)]
pub(crate) struct Backlog {
    lines: ArrayQueue<String>,
    // Those that were put here and aren't said yet.
    unsaid: AtomicU64,
    // Those that were dropped, of which it isn't said yet.
    dropped: AtomicU64,
    waker: Parker,
}

impl Backlog {
    // No line.
    fn new(alloc: Global) -> Result<Backlog, AllocError> {
        Ok(Backlog {
            lines: ArrayQueue::new(alloc, MOST_WAITING)?,
            unsaid: AtomicU64::new(0),
            dropped: AtomicU64::new(0),
            waker: Parker::new(),
        })
    }

    /// No line, with a thread that says what will come.
    ///
    /// # Errors
    /// Memory ran out, or there is no thread.
    pub(crate) fn begin<R: Eprint + Clock + Threads + Wait + Copy + Drop + Send + 'static>(
        rt: R,
        alloc: Global,
    ) -> Result<Arc<Backlog>, AllocError> {
        let backlog = Arc::new(alloc, Backlog::new(alloc)?)?;
        let theirs = backlog.clone()?;
        // It isn't joined: where nobody reads what it says it never ends.
        thread::spawn(&rt, move || theirs.say_all(&rt))?;
        Ok(backlog)
    }

    /// Puts a line behind those that wait. Nobody waits for room.
    pub(crate) fn put<W: Wait>(&self, rt: &W, line: String) {
        self.unsaid.fetch_add(1, Ordering::SeqCst);
        if self.lines.push(rt, line).is_err() {
            self.unsaid.fetch_sub(1, Ordering::SeqCst);
            self.note_dropped();
        }
        self.waker.unpark();
    }

    /// Counts a line that was dropped.
    pub(crate) fn note_dropped(&self) {
        self.dropped.fetch_add(1, Ordering::SeqCst);
        self.waker.unpark();
    }

    // Whether all is said that was put here, and how many lines were dropped.
    fn is_said(&self) -> bool {
        self.unsaid.load(Ordering::SeqCst) == 0 && self.dropped.load(Ordering::SeqCst) == 0
    }

    /// Waits until all lines are said, a second at most.
    pub(crate) fn finish<C: Clock>(&self, clock: &C) {
        for _ in 0..MOST_LOOKS {
            if self.is_said() {
                return;
            }
            thread::sleep(clock, Duration::from_millis(LOOK));
        }
    }

    // Says all lines, as they come, and how many were dropped once none waits.
    fn say_all<R: Eprint + Clock + Wait>(&self, rt: &R) {
        for _ in rt.forever() {
            match self.lines.pop(rt) {
                Some(line) => {
                    let _ = eprintln!(rt; "ovs_relay: {line}");
                    self.unsaid.fetch_sub(1, Ordering::SeqCst);
                }
                None => {
                    self.say_dropped(rt);
                    self.waker.park(rt);
                }
            }
        }
    }

    // Says how many lines were dropped, if any were of which nothing was said.
    fn say_dropped<R: Eprint + Clock>(&self, rt: &R) {
        let dropped = self.dropped.load(Ordering::SeqCst);
        if dropped > 0 {
            let said = Timed::now(rt, Dropped(dropped));
            let _ = eprintln!(rt; "ovs_relay: {said}");
            self.dropped.fetch_sub(dropped, Ordering::SeqCst);
        }
    }
}
