//! The bytes that were read and not yet taken.
ghost use Rattle.std.specs.Prelude.{◌≡◌, ◌⊎◌, ℕ, ◌≤◌, ◌+◌, [], Ok, Err, length, drop, false, IfOk, IfErr, OnOk, OnErr};
ghost use Rattle.std.specs.Io.{ReadsAtMost};
ghost use Rattle.std.specs.Io.KnownBytes.{prepend_known, Keeps, IsAtEnd, ReadConsumes};
ghost use Rattle.ovs_script.specs.Lines.{most_read};
ghost use Rattle.ovs_script.specs.Counts.{CountsReads};

use crate::script_error::ScriptError;
use crate::turns::Turns;
use ovs_json::NoMemory;
use ovs_wire::{Counted, is_passing};
use std::alloc::Global;
use std::io::Read;
use std::marker::Model;

/// How many bytes a read asks for.
const ROOM: usize = 65_536;

/// The bytes that the last read gave and nobody has taken yet.
#[derive(Debug, Drop)]
pub(crate) struct Window {
    room: Vec<u8>,
    from: usize,
    to: usize,
}

impl Model for Window {
    ghost use Rattle.std.specs.Prelude.{ℕ, List, ◌≡◌, ◌≤◌, length, slice_range};
    ghost use Rattle.ovs_script.specs.Lines.{most_read};

    ghost Value = { List ℕ };

    ghost view = { λ w. slice_range w.room.items w.from w.to };

    ghost invariant = { λ w. (w.from ≤ w.to) × (w.to ≤ length w.room.items) × (length w.room.items ≡ most_read) };
}

impl Window {
    /// A window in which no byte waits, with room for 65,536.
    pub(crate) fn new(alloc: Global) -> Result<Window, NoMemory>
        ensures empty { IfOk result (λ window. window ≡ []) }
    {
        Ok(Window {
            room: room_for_a_read(alloc)?,
            from: 0,
            to: 0,
        })
    }

    /// The bytes that wait.
    pub(crate) fn bytes(&self) -> &[u8]
        ensures value { result.now ≡ self.now }
    {
        &self.room[self.from..self.to]
    }

    /// Takes the first bytes away.
    pub(crate) fn skip(&mut self, count: usize)
        requires within { count ≤ length self.old }
        ensures rest { self.new ≡ drop count self.old }
    {
        self.from += count;
    }

    /// Reads bytes where none waits; `false` is the end of the reader.
    ///
    /// `ReadFault` where the read failed, and `TurnsSpent` where it would be a call too many; then still none waits.
    pub(crate) fn fill<R: Read>(
        &mut self,
        reader: &mut Counted<R>,
        turns: &mut Turns,
    ) -> Result<bool, ScriptError>
        requires taken { self.old ≡ [] }
        ensures bytes { OnOk result (Keeps (R.remaining reader.old.device) (prepend_known self.new (R.remaining reader.new.device))) }
        ensures none { OnErr result ((self.new ≡ []) × Keeps (R.remaining reader.old.device) (R.remaining reader.new.device)) }
        ensures end { result ≡ Ok false → (self.new ≡ []) × IsAtEnd (R.remaining reader.new.device) }
        ensures room { OnOk result (length self.new ≤ most_read) }
        ensures turn { OnOk result (turns.new + 1 ≤ turns.old) }
        ensures counted { CountsReads reader.old reader.new turns.old turns.new result }
        ensures fault { IfErr result (λ fault. (fault ≡ ScriptError.ReadFault) ⊎ (fault ≡ ScriptError.TurnsSpent)) }
    {
        let len = read_some(reader, self.room.as_mut_slice(), turns)?;
        self.from = 0;
        self.to = len;
        Ok(len > 0)
    }
}

fn room_for_a_read(alloc: Global) -> Result<Vec<u8>, NoMemory>
    ensures len { IfOk result (λ room. length room.items ≡ most_read) }
{
    Ok(Vec::from_elem(alloc, 0u8, ROOM)?)
}

// Reads until a call gives bytes, the end or a failure.
fn read_some<R: Read>(
    reader: &mut Counted<R>,
    room: &mut [u8],
    turns: &mut Turns,
) -> Result<usize, ScriptError>
    ensures bound { ReadsAtMost result room.new }
    ensures bytes { ReadConsumes (R.remaining reader.old.device) (R.remaining reader.new.device) result room.new }
    ensures turn { OnOk result (turns.new + 1 ≤ turns.old) }
    ensures counted { CountsReads reader.old reader.new turns.old turns.new result }
    ensures fault { IfErr result (λ fault. (fault ≡ ScriptError.ReadFault) ⊎ (fault ≡ ScriptError.TurnsSpent)) }
{
    loop {
        turns.take()?;
        match reader.read(room) {
            Ok(len) => return Ok(len),
            Err(error) if is_passing(&error) => {}
            Err(_) => return Err(ScriptError::ReadFault),
        }
    }
}
