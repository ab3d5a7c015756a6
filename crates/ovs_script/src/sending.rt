//! Text to a writer.
ghost use Rattle.std.specs.Prelude.{◌≡◌, ◌+◌, ◌<◌, ◌≤◌, ◌⊎◌, Err, IfErr, OnOk, OnErr, length};
ghost use Rattle.std.specs.Io.{WritesAtMost};
ghost use Rattle.std.specs.Io.KnownBytes.{Appends, WriteAppends};
ghost use Rattle.ovs_script.specs.Sending.{AppendsBeginning};
ghost use Rattle.ovs_script.specs.Counts.{CountsWrites};

use crate::script_error::ScriptError;
use crate::turns::Turns;
use ovs_wire::{Counted, is_passing};
use std::io::Write;

// Writes a beginning of some bytes by one call. No byte may pass in it.
fn write_once<W: Write>(
    writer: &mut Counted<W>,
    text: &[u8],
    turns: &mut Turns,
) -> Result<usize, ScriptError>
    requires some { 0 < length text.now }
    ensures bound { WritesAtMost result text.now }
    ensures bytes { WriteAppends (W.contents writer.old.device) (W.contents writer.new.device) result text.now }
    ensures turn { OnOk result (turns.new + 1 ≡ turns.old) }
    ensures turns { turns.new ≤ turns.old }
    ensures counted { CountsWrites writer.old writer.new turns.old turns.new result }
    ensures fault { IfErr result (λ fault. (fault ≡ ScriptError.WriteFault) ⊎ (fault ≡ ScriptError.TurnsSpent)) }
{
    turns.take()?;
    match writer.write(text) {
        Ok(0) => Err(ScriptError::WriteFault),
        Ok(len) => Ok(len),
        Err(error) if is_passing(&error) => Ok(0),
        Err(_) => Err(ScriptError::WriteFault),
    }
}

/// Writes a text, by as many calls as it takes; none for an empty text.
///
/// `WriteFault` where a write failed, and `TurnsSpent` where another call would be one too many. A beginning of the
/// text is then written.
pub(crate) fn send<W: Write>(
    writer: &mut Counted<W>,
    text: &[u8],
    turns: &mut Turns,
) -> Result<(), ScriptError>
    ensures ok { OnOk result (Appends (W.contents writer.old.device) (W.contents writer.new.device) text.now) }
    ensures err { OnErr result (AppendsBeginning (W.contents writer.old.device) (W.contents writer.new.device) text.now) }
    ensures turns { turns.new ≤ turns.old }
    ensures counted { CountsWrites writer.old writer.new turns.old turns.new result }
    ensures fault { IfErr result (λ fault. (fault ≡ ScriptError.WriteFault) ⊎ (fault ≡ ScriptError.TurnsSpent)) }
{
    let mut at = 0;
    while at < text.len() {
        at += write_once(writer, &text[at..], turns)?;
    }
    Ok(())
}
