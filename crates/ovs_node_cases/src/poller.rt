//! Connections over memory, which a worker's poller accepts.

ghost use Rattle.std.specs.Prelude.{◌≡◌, ◌≤◌, [], ℕ, None, length};
ghost use Rattle.ovs_worker.specs.Connections.{out_of};

use crate::sessions::ReaderScript;
use ovs_session::Ended;
use ovs_worker::{Connections, Poller, Ready, Timeout, Wakeup};
use std::io::{self, ErrorKind, Read, Write};
use std::sync::atomic::{AtomicBool, Ordering};

/// Gives the text of a session in pieces, none of them before all sessions are in the table, and nothing for now between two.
#[derive(Drop)]
pub(crate) struct Pieces<'a> {
    rest: &'a [u8],
    piece: usize,
    is_pause: bool,
    have_all_come: &'a AtomicBool,
}

impl<'a> Read for Pieces<'a> {
    fn read(&mut self, buf: &mut [u8]) -> io::Result<usize> {
        self.is_pause = !self.is_pause;
        if self.is_pause || !self.have_all_come.load(Ordering::SeqCst) {
            return Err(ErrorKind::WouldBlock.into());
        }
        let len = self.piece.min(buf.len());
        self.rest.read(&mut buf[..len])
    }
}

/// Takes what is written in pieces, and sees whether it is what is wanted.
#[derive(Drop)]
pub(crate) struct Checked<'a> {
    rest: &'a [u8],
    piece: usize,
    script: &'a ReaderScript,
}

impl<'a> Write for Checked<'a> {
    fn write(&mut self, buf: &[u8]) -> io::Result<usize> {
        let len = self.piece.min(buf.len());
        match self.rest.strip_prefix(&buf[..len]) {
            Some(rest) => {
                self.rest = rest;
                self.script.left.store(rest.len() as u64, Ordering::SeqCst);
            }
            None => self.script.is_wrong.store(true, Ordering::SeqCst),
        }
        Ok(len)
    }

    fn flush(&mut self) -> io::Result<()> {
        Ok(())
    }
}

/// Lets the sessions of these scripts in, one after another.
#[derive(Drop)]
pub(crate) struct MemoryPoller<'a> {
    scripts: &'a [ReaderScript],
    piece: usize,
    have_all_come: &'a AtomicBool,
    // How many sessions came in.
    came: usize,
    // The next that may go on.
    next: usize,
    // The sessions that are inside.
    connections: Connections<Pieces<'a>, Checked<'a>>,
}

impl<'a> MemoryPoller<'a> {
    /// None came in yet.
    pub(crate) fn new(
        scripts: &'a [ReaderScript],
        piece: usize,
        have_all_come: &'a AtomicBool,
    ) -> MemoryPoller<'a>
        ensures none { (key : ℕ) → out_of result.connections key ≡ None }
        ensures none_back { result.connections.back ≡ [] }
    {
        MemoryPoller {
            scripts,
            piece,
            have_all_come,
            came: 0,
            next: 0,
            connections: Connections::new(),
        }
    }
}

impl<'a> Poller for MemoryPoller<'a> {
    type In = Pieces<'a>;

    type Out = Checked<'a>;

    ghost out = { λ poller key. out_of poller.connections key };

    ghost back = { λ poller. poller.connections.back };

    ghost is_closed = { λ poller. length poller.scripts.now ≤ poller.came };

    ghost is_over = { λ _. ⊥ };

    // Every session may go on again: its reader has the next piece.
    fn wait(&mut self, _timeout: Timeout) -> Wakeup {
        self.next = 0;
        let may_accept = self.came < self.scripts.len();
        if !may_accept {
            self.have_all_come.store(true, Ordering::SeqCst);
        }
        Wakeup {
            was_woken: false,
            is_any_ready: false,
            may_accept,
            is_closed: !may_accept,
            is_over: false,
        }
    }

    fn next_ready(&mut self) -> Option<Ready> {
        if self.next >= self.came {
            return None;
        }
        let key = self.next;
        self.next += 1;
        Some(Ready {
            key,
            is_read_closed: true,
        })
    }

    fn accept(&mut self, key: usize) -> Option<(Pieces<'a>, Checked<'a>)> {
        let script = self.scripts.get(self.came)?;
        self.came += 1;
        let reader = Pieces {
            rest: script.text.as_bytes(),
            piece: self.piece,
            is_pause: false,
            have_all_come: self.have_all_come,
        };
        let writer = Checked {
            rest: script.wanted.as_bytes(),
            piece: self.piece,
            script,
        };
        self.connections.note_came(key, &reader, &writer);
        Some((reader, writer))
    }

    fn left(&mut self, key: usize, _reader: Pieces<'a>, _writer: Checked<'a>, _ended: Ended) {
        self.connections.note_left(key);
    }
}
