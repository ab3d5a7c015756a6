//! What was said and isn't written yet.
ghost use Rattle.std.specs.Prelude.{◌≡◌, ◌≤◌, ◌+◌, ◌++◌, ℕ, List, [], length, drop, OnOk, OnErr, IfErr, IfOk};
ghost use Rattle.std.specs.Io.KnownBytes.{Appends};
ghost use Rattle.ovs_wire.specs.Counted.{one_more};
ghost use Rattle.ovs_session.specs.Turning.{CountsFault};

use crate::ended::Ended;
use ovs_json::NoMemory;
use ovs_wire::{Counted, is_passing};
use std::alloc::Global;
use std::io::Write;
use std::marker::Model;

// The room, in bytes, that the buffer keeps however little it holds.
const SPARE_ROOM: usize = 4096;

// Forgets the bytes that are written, once they are at least half, and says how many stay at the front. A buffer less than a
// quarter full keeps room for twice what it holds alone: else each session kept the room of the longest text that it was ever told.
fn compact(bytes: &mut Vec<u8>, sent: usize) -> usize
    requires within { sent ≤ length bytes.old.items }
    ensures value { drop result bytes.new.items ≡ drop sent bytes.old.items }
    ensures half { result + result ≤ length bytes.new.items }
{
    if sent < bytes.len() - sent {
        return sent;
    }
    bytes.drain(..sent);
    if bytes.len() < bytes.capacity() / 4 {
        bytes.shrink_to(SPARE_ROOM.max(2 * bytes.len()));
    }
    0
}

/// The bytes that are to be written, in order. A contract sees them as a list.
#[derive(Debug, Drop)]
pub struct Outbox {
    bytes: Vec<u8>,
    // How many at their front are written: no more than half of them.
    sent: usize,
}

impl Model for Outbox {
    ghost use Rattle.std.specs.Prelude.{ℕ, List, ◌+◌, ◌≤◌, drop, length};

    ghost Value = { List ℕ };

    ghost view = { λ o. drop o.sent o.bytes.items };

    ghost invariant = { λ o. o.sent + o.sent ≤ length o.bytes.items };
}

impl Outbox {
    /// Nothing is to be written.
    pub(crate) fn new(alloc: Global) -> Outbox
        ensures empty { result ≡ [] }
    {
        Outbox {
            bytes: Vec::new(alloc),
            sent: 0,
        }
    }

    /// How many bytes are to be written.
    pub fn len(&self) -> usize
        ensures value { result ≡ length self.now }
    {
        self.bytes.len() - self.sent
    }

    /// Puts a text behind what is to be written. After `NoMemory` nothing has changed.
    pub fn push(&mut self, text: &[u8]) -> Result<(), NoMemory>
        ensures ok { OnOk result (self.new ≡ self.old ++ text.now) }
        ensures err { OnErr result (self.new ≡ self.old) }
    {
        self.bytes.extend_from_slice(text)?;
        Ok(())
    }

    /// Writes once, and says how many bytes the writer took: none where it says that none passed for now.
    ///
    /// `WriteFault`, its only error, where the write failed, or passed no byte without saying why.
    pub(crate) fn write_once<W: Write>(&mut self, writer: &mut Counted<W>) -> Result<usize, Ended>
        ensures written { (bytes_written : List ℕ) × Appends (W.contents writer.old.device) (W.contents writer.new.device) bytes_written
            × (self.old ≡ bytes_written ++ self.new) × IfOk result (λ n. n ≡ length bytes_written) × OnErr result (bytes_written ≡ []) }
        ensures fault { IfErr result (λ e. e ≡ Ended.WriteFault) }
        ensures called { writer.new.calls ≡ one_more writer.old.calls }
        ensures faults { CountsFault Ended.WriteFault result writer.old.failures writer.new.failures }
    {
        match writer.write(&self.bytes[self.sent..]) {
            Ok(0) => Err(Ended::WriteFault),
            Ok(count) => {
                self.sent = compact(&mut self.bytes, self.sent + count);
                Ok(count)
            }
            Err(error) if is_passing(&error) => Ok(0),
            Err(_) => Err(Ended::WriteFault),
        }
    }
}
