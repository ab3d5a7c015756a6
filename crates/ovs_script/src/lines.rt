//! The lines of a reader.
ghost use Rattle.std.specs.Prelude.{◌≡◌, ◌≢◌, ℕ, ◌+◌, ◌*◌, ◌<◌, ◌==◌, [], ◌∷◌, ◌++◌, List, Some, None, Ok, Err, true, false, length, position, if◌then◌else◌, IfOk};
ghost use Rattle.std.specs.Io.KnownBytes.{prepend_known};
ghost use Rattle.ovs_script.specs.Lines.{most_read, kept, IsUnbroken, TakesLine, TakesPart};
ghost use Rattle.ovs_script.specs.Counts.{CountsReads};

use crate::line::Line;
use crate::script_error::ScriptError;
use crate::turns::Turns;
use crate::window::Window;
use ovs_json::NoMemory;
use ovs_wire::Counted;
use std::io::Read;

fn first_break(bytes: &[u8]) -> Option<usize>
    ensures value { result ≡ position (λ b. b == 10) bytes.now }
{
    bytes.iter().position(|b| *b == b'\n')
}

// Takes what the window has of the line; true where an LF ended it.
fn take_part(window: &mut Window, line: &mut Line) -> Result<bool, NoMemory>
    ensures part { IfOk result (λ ends. (part : List ℕ) × IsUnbroken part
        × (window.old ≡ part ++ (if ends then 10 ∷ window.new else window.new))
        × ((so_far : List ℕ) → line.old ≡ kept so_far → line.new ≡ kept (so_far ++ part))) }
    ensures all { result ≡ Ok false → window.new ≡ [] }
{
    let bytes = window.bytes();
    match first_break(bytes) {
        None => {
            let len = bytes.len();
            line.add(bytes)?;
            window.skip(len);
            Ok(false)
        }
        Some(at) => {
            line.add(&bytes[..at])?;
            window.skip(at + 1);
            Ok(true)
        }
    }
}

/// Reads the next line into `line`, without its LF; `false` where the text is at its end.
///
/// `ReadFault` where a read failed, `TurnsSpent` where another call would be one too many, `NoMemory` where the line
/// could not grow. After an error the part of the line that was read is lost.
pub(crate) fn next_line<R: Read>(
    reader: &mut Counted<R>,
    window: &mut Window,
    line: &mut Line,
    turns: &mut Turns,
) -> Result<bool, ScriptError>
    ensures line { IfOk result (λ found. TakesLine
        (prepend_known window.old (R.remaining reader.old.device))
        (prepend_known window.new (R.remaining reader.new.device))
        (if found then Some line.new else None)) }
    // At a read fault nothing is left in the window, and what left the text is a part of a line.
    ensures lost { result ≡ Err ScriptError.ReadFault → (window.new ≡ []) × TakesPart
        (prepend_known window.old (R.remaining reader.old.device)) (R.remaining reader.new.device) }
    // A line takes bytes that waited, or turns, of which each gives so many bytes at most.
    ensures paid { result ≡ Ok true → turns.new * most_read + length window.new < turns.old * most_read + length window.old }
    ensures counted { CountsReads reader.old reader.new turns.old turns.new result }
    ensures not_write { result ≢ Err ScriptError.WriteFault }
{
    line.clear();
    loop {
        if take_part(window, line)? {
            return Ok(true);
        }
        if !window.fill(reader, turns)? {
            return Ok(!line.is_empty());
        }
    }
}
