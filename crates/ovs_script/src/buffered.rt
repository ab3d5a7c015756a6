//! Output that waits to be written.
ghost use Rattle.std.specs.Prelude.{◌≡◌, ◌+◌, ◌≤◌, ◌++◌, ◌⊎◌, ◌↔◌, [], length, Err, IsTrue, OnOk, OnErr, IfErr};
ghost use Rattle.std.specs.Io.KnownBytes.{Appends};
ghost use Rattle.ovs_script.specs.Sending.{AppendsBeginning, batch};
ghost use Rattle.ovs_script.specs.Counts.{CountsWrites};

use crate::script_error::ScriptError;
use crate::sending::send;
use crate::turns::Turns;
use ovs_json::NoMemory;
use ovs_wire::Counted;
use std::alloc::Global;
use std::io::Write;
use std::marker::Model;

/// So many bytes wait at least before they are written amid a run.
const BATCH: usize = 65_536;

/// Bytes that are to be written and were not handed to the writer yet.
#[derive(Debug, Drop)]
pub(crate) struct Buffered {
    bytes: Vec<u8>,
}

impl Model for Buffered {
    ghost use Rattle.std.specs.Prelude.{ℕ, List};

    ghost Value = { List ℕ };

    ghost view = { λ p. p.bytes.items };
}

impl Buffered {
    /// No byte waits.
    pub(crate) fn new(alloc: Global) -> Buffered
        ensures empty { result ≡ [] }
    {
        Buffered {
            bytes: Vec::new(alloc),
        }
    }

    /// Whether so much waits that it is time to write it.
    pub(crate) fn is_due(&self) -> bool
        ensures value { IsTrue result ↔ (batch ≤ length self.now) }
    {
        self.bytes.len() >= BATCH
    }

    /// Puts a text behind what waits. After `NoMemory` what waits is as it was.
    pub(crate) fn push(&mut self, text: &str) -> Result<(), NoMemory>
        ensures ok { OnOk result (self.new ≡ self.old ++ text.now) }
        ensures err { OnErr result (self.new ≡ self.old) }
    {
        self.bytes.extend_from_slice(text.as_bytes())?;
        Ok(())
    }

    /// Writes what waits; then nothing waits. After an error a beginning of it is written and the rest is lost.
    ///
    /// `WriteFault` where a write failed, and `TurnsSpent` where another call would be one too many.
    pub(crate) fn send<W: Write>(
        &mut self,
        writer: &mut Counted<W>,
        turns: &mut Turns,
    ) -> Result<(), ScriptError>
        ensures ok { OnOk result (Appends (W.contents writer.old.device) (W.contents writer.new.device) self.old) }
        ensures err { OnErr result (AppendsBeginning (W.contents writer.old.device) (W.contents writer.new.device) self.old) }
        ensures empty { self.new ≡ [] }
        ensures turns { turns.new ≤ turns.old }
        ensures counted { CountsWrites writer.old writer.new turns.old turns.new result }
        ensures fault { IfErr result (λ fault. (fault ≡ ScriptError.WriteFault) ⊎ (fault ≡ ScriptError.TurnsSpent)) }
    {
        let sent = send(writer, self.bytes.as_slice(), turns);
        self.bytes.clear();
        sent
    }
}
