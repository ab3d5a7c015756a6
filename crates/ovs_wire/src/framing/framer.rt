//! The framer: pieces of a stream in, whole messages out.
ghost use Rattle.std.specs.Prelude.{◌≡◌, ◌≤◌, ◌<◌, ◌-◌, ◌++◌, if◌then◌else◌, false, length, take, drop, OnOk, OnErr};
ghost use Rattle.ovs_wire.specs.Limits.{most_bytes};
ghost use Rattle.ovs_wire.specs.Frames.{Fault};
ghost use Rattle.ovs_wire.specs.Framing.{IsNew, Feeds, Answers};

use crate::error::FrameError;
use crate::framing::limits::MAX_MESSAGE_BYTES;
use crate::framing::scan::{Span, Tail, scan};
use crate::framing::scan_position::ScanPosition;
use ovs_json::NoMemory;
use std::alloc::Global;
use std::collections::VecDeque;
use std::marker::Model;

// The room, in bytes, that a buffer keeps however little it holds.
const SPARE_ROOM: usize = 4096;

// Puts the messages that were found behind those that wait. A queue less than a quarter full keeps room for twice its
// length alone, so that few messages are moved for each that is taken.
fn queue(waiting: &mut VecDeque<Span>, mut found: VecDeque<Span>) -> Result<(), NoMemory>
    ensures ok { OnOk result (waiting.new.items ≡ waiting.old.items ++ found.items) }
    ensures err { OnErr result (waiting.new.items ≡ waiting.old.items) }
{
    if waiting.is_empty() {
        *waiting = found;
        return Ok(());
    }
    waiting.append(&mut found)?;
    if waiting.len() < waiting.capacity() / 4 {
        waiting.shrink_to(2 * waiting.len());
    }
    Ok(())
}

// Drops what stands behind the first `held` bytes, and its room. What doubling takes is kept, so that a feed that is
// tried again with short pieces doesn't copy the held bytes each time.
fn cut_back(buffer: &mut Vec<u8>, held: usize)
    requires { held ≤ length buffer.old.items }
    ensures value { buffer.new.items ≡ take held buffer.old.items }
{
    buffer.truncate(held);
    buffer.shrink_to(SPARE_ROOM.max(2 * held));
}

// Moves what stands behind the first `taken` bytes to the front, where it isn't longer than these: so each byte that is moved is
// paid for by one that was taken. Whether it was moved. A buffer less than a quarter full then keeps room for twice what it holds alone.
fn drop_taken(buffer: &mut Vec<u8>, taken: usize) -> bool
    requires { taken ≤ length buffer.old.items }
    ensures value { buffer.new.items ≡ (if result then drop taken buffer.old.items else buffer.old.items) }
    ensures kept { result ≡ false → taken < length buffer.old.items - taken }
{
    if taken < buffer.len() - taken {
        return false;
    }
    buffer.drain(..taken);
    if buffer.len() < buffer.capacity() / 4 {
        buffer.shrink_to(SPARE_ROOM.max(2 * buffer.len()));
    }
    true
}

/// Splits a stream of bytes into JSON objects with white space between them, as they come over a connection
/// (RFC 7047 section 4).
///
/// The stream comes in pieces, cut anywhere. A contract sees how many bytes a message may have, the messages that are
/// whole and wait, and then the rest, of which more bytes may make a message, or the stream's first fault.
///
/// Each byte is looked at once. One buffer holds the messages and the rest, and a message that is taken is lent from it.
/// What is left is moved to its front once at least half of the buffer was taken, by a feed, or by a `next` where no
/// message waits: so that no more bytes are moved than were taken. It then has room for 4,096 bytes or for four times
/// those that it holds, at most; and the queue for about four times the messages that waited after the last piece.
#[derive(Debug, Drop)]
pub struct Framer {
    limit: usize,
    buffer: Vec<u8>,
    // how many bytes at its front were taken
    taken: usize,
    // where behind them the messages that wait lie
    waiting: VecDeque<Span>,
    tail: Tail,
    fault: Option<FrameError>,
}

impl Model for Framer {
    ghost use Rattle.std.specs.Prelude.{◌≡◌, ◌+◌, drop};
    ghost use Rattle.ovs_wire.specs.Framing.{Framing, framing, ending_of};
    ghost use Rattle.ovs_wire.specs.Spans.{IsTail, messages, spanned};

    ghost Value = { Framing };

    ghost view = { λ f. framing f.limit (messages f.waiting.items (drop f.taken f.buffer.items))
        (ending_of f.fault (drop f.tail.start f.buffer.items)) };

    ghost invariant = { λ f. IsTail f.limit f.buffer.items f.tail × (f.tail.end ≡ f.taken + spanned f.waiting.items) };
}

impl Framer {
    ghost use Rattle.std.specs.Prelude.{◌≡◌, [], IfSome};
    ghost use Rattle.std.specs.Borrow.{sem};
    ghost use Rattle.std.specs.Io.BufRead.{Rests};
    ghost use Rattle.ovs_wire.specs.Framing.{Takes, without_first};
    ghost use Rattle.ovs_wire.specs.contracts.framing.framer.Framer.{the_row};

    /// The framer of a stream of which nothing has come yet. A message may have `MAX_MESSAGE_BYTES`.
    pub fn new(alloc: Global) -> Framer
        ensures is_new { IsNew most_bytes result }
    {
        Framer::with_limit(alloc, MAX_MESSAGE_BYTES)
    }

    /// The framer of a stream of which nothing has come yet. A message may have `limit` bytes.
    pub fn with_limit(alloc: Global, limit: usize) -> Framer
        ensures is_new { IsNew limit result }
    {
        let tail = Tail {
            end: 0,
            start: 0,
            place: ScanPosition::start(),
        };
        Framer {
            limit,
            buffer: Vec::new(alloc),
            taken: 0,
            waiting: VecDeque::new(alloc),
            tail,
            fault: None,
        }
    }

    /// How many bytes a message may have.
    pub fn limit(&self) -> usize
        ensures value { result ≡ self.now.limit }
    {
        self.limit
    }

    // Where no message waits, white space before the rest counts as taken.
    fn take_space(&mut self)
        ensures value { self.new ≡ self.old }
    {
        if self.waiting.is_empty() {
            self.taken = self.tail.start;
            self.tail.end = self.tail.start;
        }
    }

    // Drops what was taken since the last time, where no more than that is left.
    fn make_room(&mut self)
        ensures value { self.new ≡ self.old }
    {
        self.take_space();
        let taken = self.taken;
        if drop_taken(&mut self.buffer, taken) {
            self.taken = 0;
            self.tail.end -= taken;
            self.tail.start -= taken;
        }
    }

    /// Takes the next piece of the stream. The messages that are whole now wait, also those before a fault.
    ///
    /// - `NotObject`, `TooDeep`, `TooLong`: the stream has this fault, which ends it: every later feed answers it again.
    /// - `NoMemory`: nothing of the piece was taken.
    pub fn feed(&mut self, piece: &[u8]) -> Result<(), FrameError>
        ensures fed { (result ≡ Err FrameError.NoMemory → ⊥) → Feeds self.old piece.now self.new }
        ensures answer { (result ≡ Err FrameError.NoMemory → ⊥) → Answers self.new.ending result }
        ensures ended { (f : _) → self.old.ending ≡ Fault f → result ≡ Err f }
        ensures memory { result ≡ Err FrameError.NoMemory → self.new ≡ self.old }
    {
        self.make_room();
        if let Some(fault) = self.fault {
            return Err(fault);
        }
        let alloc = *self.buffer.allocator();
        let held = self.buffer.len();
        self.buffer.extend_from_slice(piece)?;
        let scanned = match scan(alloc, &self.buffer, held, self.tail, self.limit) {
            Ok(scanned) => scanned,
            Err(error) => {
                cut_back(&mut self.buffer, held);
                return Err(error.into());
            }
        };
        if let Err(error) = queue(&mut self.waiting, scanned.found) {
            cut_back(&mut self.buffer, held);
            return Err(error.into());
        }
        self.tail = scanned.tail;
        self.fault = scanned.fault;
        match scanned.fault {
            Some(fault) => Err(fault),
            None => Ok(()),
        }
    }

    /// Takes out the first message that waits, if one does, and lends its bytes. It takes no memory.
    pub fn next(&mut self) -> Option<&[u8]>
        ensures some { IfSome result (λ message. Takes self.old message.now (without_first self.old)) }
        ensures none { result ≡ None → self.old.waiting ≡ [] }
        ensures* after_borrow { sem 𝓛 (Rests the_row self.entry (λ new. new ≡ without_first self.old)) }
    {
        if self.waiting.is_empty() {
            self.make_room();
        }
        let span = self.waiting.pop_front()?;
        let start = self.taken + span.skip;
        let end = start + span.len;
        self.taken = end;
        Some(&self.buffer[start..end])
    }
}
