//! A reader over memory, which asks for all rows again and again, and sees which commits they show.

ghost use Rattle.std.specs.Prelude.{◌≡◌, [], ℕ, None, true};
ghost use Rattle.ovs_worker.specs.Connections.{out_of};

use crate::node_case_error::NodeCaseError;
use ovs_case_lines::last_number_in;
use ovs_session::Ended;
use ovs_worker::{Connections, Poller, Ready, Timeout, Wake, Wakeup};
use serde_json::Value;
use std::alloc::{AllocError, Global};
use std::io::{self, ErrorKind, Read, Write};
use std::sync::Arc;
use std::sync::atomic::{AtomicBool, AtomicU64, Ordering};
use std::thread;

// How often a reader asks at most.
const MOST_ASKED: u64 = 1_000_000;

/// The request for what a select shows.
pub(crate) fn request_text(alloc: Global, select: &Value) -> Result<String, NodeCaseError> {
    let select = select.to_string(alloc)?;
    Ok(format!(in alloc;
        "{{\"method\":\"transact\",\"params\":[\"net\",{select}],\"id\":\"rows\"}}"
    )?)
}

/// What the two sides of a reader share.
#[derive(Drop)]
pub(crate) struct Chat {
    /// How many answers were written.
    pub(crate) answered: Arc<AtomicU64>,
    /// The number of the last commit that an answer showed.
    pub(crate) seen: Arc<AtomicU64>,
    /// The same of the answers to all readers.
    pub(crate) seen_by_any: Arc<AtomicU64>,
}

impl Chat {
    /// Nothing was answered yet.
    pub(crate) fn new(alloc: Global, seen_by_any: &Arc<AtomicU64>) -> Result<Chat, AllocError> {
        Ok(Chat {
            answered: counter(alloc)?,
            seen: counter(alloc)?,
            seen_by_any: seen_by_any.clone()?,
        })
    }

    /// The same for another side.
    pub(crate) fn again(&self) -> Result<Chat, AllocError> {
        Ok(Chat {
            answered: self.answered.clone()?,
            seen: self.seen.clone()?,
            seen_by_any: self.seen_by_any.clone()?,
        })
    }

    /// Whether an answer showed the commit of this number.
    pub(crate) fn has_seen(&self, number: u64) -> bool {
        self.seen.load(Ordering::SeqCst) >= number
    }
}

/// A count that begins at 0.
pub(crate) fn counter(alloc: Global) -> Result<Arc<AtomicU64>, AllocError> {
    match Arc::new(alloc, AtomicU64::new(0)) {
        Ok(counter) => Ok(counter),
        Err(_) => Err(AllocError),
    }
}

/// Gives the next request once the one before is answered, until an answer showed the commit of a number.
#[derive(Drop)]
pub(crate) struct RequestSource {
    request: String,
    given: usize,
    asked: u64,
    until: u64,
    chat: Chat,
}

impl RequestSource {
    fn is_over(&self) -> bool {
        self.asked >= MOST_ASKED || self.chat.has_seen(self.until)
    }
}

impl Read for RequestSource {
    fn read(&mut self, buf: &mut [u8]) -> io::Result<usize> {
        if self.given == self.request.len() {
            if self.chat.answered.load(Ordering::SeqCst) < self.asked {
                return Err(ErrorKind::WouldBlock.into());
            }
            if self.is_over() {
                return Ok(0);
            }
            self.asked = self.asked.saturating_add(1);
            self.given = 0;
        }
        let mut rest = self.request.as_bytes();
        if self.given < rest.len() {
            rest = &rest[self.given..];
        }
        let len = rest.read(buf)?;
        self.given = self.given.saturating_add(len);
        Ok(len)
    }
}

/// Takes the answers, each by one call, and sees which commits they show.
#[derive(Drop)]
pub(crate) struct Seeing {
    chat: Chat,
}

impl Write for Seeing {
    fn write(&mut self, buf: &[u8]) -> io::Result<usize> {
        if let Ok(text) = std::str::from_utf8(buf) {
            let number = last_number_in(text);
            self.chat.seen.fetch_max(number, Ordering::SeqCst);
            self.chat.seen_by_any.fetch_max(number, Ordering::SeqCst);
        }
        self.chat.answered.fetch_add(1, Ordering::SeqCst);
        Ok(buf.len())
    }

    fn flush(&mut self) -> io::Result<()> {
        Ok(())
    }
}

/// What wakes a worker.
#[derive(Drop)]
pub(crate) struct MemoryWaker {
    was_woken: Arc<AtomicBool>,
}

impl MemoryWaker {
    /// It wasn't woken yet.
    pub(crate) fn new(alloc: Global) -> Result<MemoryWaker, AllocError> {
        match Arc::new(alloc, AtomicBool::new(false)) {
            Ok(was_woken) => Ok(MemoryWaker { was_woken }),
            Err(_) => Err(AllocError),
        }
    }

    /// The same.
    pub(crate) fn again(&self) -> Result<MemoryWaker, AllocError> {
        Ok(MemoryWaker {
            was_woken: self.was_woken.clone()?,
        })
    }
}

impl Wake for MemoryWaker {
    fn wake(&self) {
        self.was_woken.store(true, Ordering::SeqCst);
    }
}

/// Lets one reader in.
#[derive(Drop)]
pub(crate) struct ReaderPoller {
    chat: Chat,
    waker: MemoryWaker,
    request: Option<String>,
    until: u64,
    has_come: bool,
    is_ready: bool,
    // The reader, while it is inside.
    connections: Connections<RequestSource, Seeing>,
}

impl ReaderPoller {
    /// For a reader that asks until an answer showed the commit of this number.
    pub(crate) fn new(chat: Chat, waker: MemoryWaker, request: String, until: u64) -> ReaderPoller
        ensures none { (key : ℕ) → out_of result.connections key ≡ None }
        ensures none_back { result.connections.back ≡ [] }
    {
        ReaderPoller {
            chat,
            waker,
            request: Some(request),
            until,
            has_come: false,
            is_ready: false,
            connections: Connections::new(),
        }
    }
}

impl Poller for ReaderPoller {
    type In = RequestSource;

    type Out = Seeing;

    ghost out = { λ poller key. out_of poller.connections key };

    ghost back = { λ poller. poller.connections.back };

    ghost is_closed = { λ poller. poller.has_come ≡ true };

    ghost is_over = { λ _. ⊥ };

    // The reader may go on at any time, so that nothing is waited for.
    fn wait(&mut self, timeout: Timeout) -> Wakeup {
        if timeout != Timeout::Zero {
            thread::yield_now();
        }
        self.is_ready = self.has_come;
        Wakeup {
            was_woken: self.waker.was_woken.swap(false, Ordering::SeqCst),
            is_any_ready: false,
            may_accept: !self.has_come,
            is_closed: self.has_come,
            is_over: false,
        }
    }

    fn next_ready(&mut self) -> Option<Ready> {
        if !self.is_ready {
            return None;
        }
        self.is_ready = false;
        Some(Ready {
            key: 0,
            is_read_closed: true,
        })
    }

    fn accept(&mut self, key: usize) -> Option<(RequestSource, Seeing)> {
        let request = self.request.take()?;
        self.has_come = true;
        let reader = RequestSource {
            given: request.len(),
            request,
            asked: 0,
            until: self.until,
            chat: self.chat.again().ok()?,
        };
        let writer = Seeing {
            chat: self.chat.again().ok()?,
        };
        self.connections.note_came(key, &reader, &writer);
        Some((reader, writer))
    }

    fn left(&mut self, key: usize, _reader: RequestSource, _writer: Seeing, _ended: Ended) {
        self.connections.note_left(key);
    }
}
