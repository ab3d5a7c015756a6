//! A script run over any readers and any writer.
ghost use Rattle.std.specs.Prelude.{◌≡◌, ◌≢◌, ℕ, ◌+◌, ◌≤◌, ◌++◌, List, Err, false, IfSome, IfOk, IfErr, OnOk, OnErr, IsTrue, option_and_then};
ghost use Rattle.std.specs.Io.KnownBytes.{Appends, Keeps};
ghost use Rattle.ovs_script.specs.Turns.{IsSpentByCalls};
ghost use Rattle.ovs_script.specs.Counts.{failed_writes, CountsWrites, CountsText, CountsTexts, CountsRun};
ghost use Rattle.ovs_script.specs.Sending.{AppendsAllBut, AppendsBeginning};
ghost use Rattle.ovs_script.specs.Rules.{SaysTo, AreLastWordsSoFar};
ghost use Rattle.ovs_script.specs.Texts.{texts_of, SaysToAll, IsOutput, AreAnswersToFirst, AreFirstAnswers, IsOutputSoFar, HearsRead, HearsAllRead, LeavesUnread};
ghost use Rattle.ovs_script.specs.Said.{TellsSaid, WritesOutput, WritesSaid};
ghost use Rattle.ovs_script.specs.RunEnd.{is_whole, writes_failed_by};

use crate::buffered::Buffered;
use crate::line::Line;
use crate::lines::next_line;
use crate::run_end::RunEnd;
use crate::script::Script;
use crate::script_error::ScriptError;
use crate::turns::Turns;
use crate::window::Window;
use ovs_wire::Counted;
use std::alloc::Global;
use std::io::{Read, Write};

// Reads the lines of a text, and puts the answers behind what waits already. What waits may be written on the way.
fn run_lines<S: Script, R: Read, W: Write>(
    alloc: Global,
    script: &mut S,
    reader: &mut Counted<R>,
    writer: &mut Counted<W>,
    pending: &mut Buffered,
    turns: &mut Turns,
) -> Result<(), ScriptError>
    ensures answers { OnOk result (IfSome (R.remaining reader.old.device) (λ text. (said : List ℕ)
        × SaysTo S.rules script.old text said script.new
        × AppendsAllBut (W.contents writer.old.device) (W.contents writer.new.device) (pending.old ++ said) pending.new)) }

    // What is written, and behind it what waits, is a beginning of the answers to some first lines.
    ensures begun { OnErr result (IfSome (R.remaining reader.old.device) (λ text. (said : List ℕ)
        × AreAnswersToFirst S.rules script.old text said × (others : List ℕ)
        × AppendsAllBut (W.contents writer.old.device) (W.contents writer.new.device) (pending.old ++ said) (pending.new ++ others))) }
    ensures said { IfErr result (λ fault. IfSome (R.remaining reader.old.device) (λ text.
        TellsSaid fault (HearsRead S.rules script.old script.new text (R.remaining reader.new.device))
        (AreAnswersToFirst S.rules script.old text)
        (W.contents writer.old.device) (W.contents writer.new.device) pending.old pending.new)) }

    ensures counted { CountsText reader.old reader.new writer.old writer.new turns.old turns.new result }
    ensures unread { IsTrue (S.rules.is_over script.old) → reader.new ≡ reader.old }
{
    let mut window = Window::new(alloc)?;
    let mut line = Line::new(alloc);
    // A line takes a byte at least, and a read gives as many as the window holds at most.
    let most_lines = u64::from(turns.left()) * 65_536 + 1;
    for number in 0..most_lines {
        if script.is_over() {
            return Ok(());
        }
        if !next_line(reader, &mut window, &mut line, turns)? {
            return Ok(());
        }
        let answer = script.take(alloc, number, line.bytes())?;
        pending.push(&answer)?;
        if pending.is_due() {
            pending.send(writer, turns)?;
        }
    }
    Err(ScriptError::TurnsSpent)
}

// Reads the lines of all texts, and puts the answers behind what waits already.
fn run_texts<S: Script, R: Read, M: Read, W: Write>(
    alloc: Global,
    script: &mut S,
    reader: &mut Counted<R>,
    second: &mut Option<Counted<M>>,
    writer: &mut Counted<W>,
    pending: &mut Buffered,
    turns: &mut Turns,
) -> Result<(), ScriptError>
    ensures answers { OnOk result (IfSome (texts_of (R.remaining reader.old.device) (λ m. M.remaining m.device) second.old) (λ t. (said : List ℕ)
        × SaysToAll S.rules script.old t said script.new
        × AppendsAllBut (W.contents writer.old.device) (W.contents writer.new.device) (pending.old ++ said) pending.new)) }

    // The same as for the lines of one.
    ensures begun { OnErr result (IfSome (texts_of (R.remaining reader.old.device) (λ m. M.remaining m.device) second.old) (λ t. (said : List ℕ)
        × AreFirstAnswers S.rules script.old t said × (others : List ℕ)
        × AppendsAllBut (W.contents writer.old.device) (W.contents writer.new.device) (pending.old ++ said) (pending.new ++ others))) }
    ensures said { IfErr result (λ fault. IfSome (texts_of (R.remaining reader.old.device) (λ m. M.remaining m.device) second.old) (λ t.
        TellsSaid fault (HearsAllRead S.rules script.old script.new t (R.remaining reader.new.device) (option_and_then (λ m. M.remaining m.device) second.new))
        (AreFirstAnswers S.rules script.old t)
        (W.contents writer.old.device) (W.contents writer.new.device) pending.old pending.new)) }

    ensures counted { CountsTexts reader.old reader.new second.old second.new writer.old writer.new turns.old turns.new result }
    ensures unread { LeavesUnread S.rules script.old (R.remaining reader.old.device) reader.old reader.new second.old second.new }
{
    run_lines(alloc, script, reader, writer, pending, turns)?;
    match second {
        None => Ok(()),
        Some(second) => {
            script.begin_second(alloc)?;
            run_lines(alloc, script, second, writer, pending, turns)
        }
    }
}

// Has the script say its last words, and writes them behind what waits. The answer is whether the script is content.
fn finish<S: Script, W: Write>(
    alloc: Global,
    script: &mut S,
    writer: &mut Counted<W>,
    pending: &mut Buffered,
    turns: &mut Turns,
) -> Result<bool, ScriptError>
    ensures whole { IfOk result (λ is_content. (words : List ℕ) × S.rules.Closes script.old words is_content
        × Appends (W.contents writer.old.device) (W.contents writer.new.device) (pending.old ++ words)) }

    // What is written, and behind it what waits, is a beginning of what waited and of the last words, if there are any yet.
    ensures begun { OnErr result ((words : List ℕ) × AreLastWordsSoFar S.rules script.old words × (others : List ℕ)
        × AppendsAllBut (W.contents writer.old.device) (W.contents writer.new.device) (pending.old ++ words) (pending.new ++ others)) }
    // Without memory nothing is written, and the same waits.
    ensures unwritten { result ≡ Err ScriptError.NoMemory
        → Keeps (W.contents writer.old.device) (W.contents writer.new.device) × (pending.new ≡ pending.old) }

    ensures counted { CountsWrites writer.old writer.new turns.old turns.new result }
    ensures not_read { result ≢ Err ScriptError.ReadFault }
{
    let closing = script.close(alloc)?;
    pending.push(&closing.text)?;
    pending.send(writer, turns)?;
    Ok(closing.is_content)
}

// Runs the script over all texts to its end. The answer is whether the script is content.
fn run_to_end<S: Script, R: Read, M: Read, W: Write>(
    alloc: Global,
    script: &mut S,
    reader: &mut Counted<R>,
    second: &mut Option<Counted<M>>,
    writer: &mut Counted<W>,
    pending: &mut Buffered,
    turns: &mut Turns,
) -> Result<bool, ScriptError>
    ensures whole { IfOk result (λ is_content. IfSome (texts_of (R.remaining reader.old.device) (λ m. M.remaining m.device) second.old) (λ t. (output : List ℕ)
        × IsOutput S.rules script.old t output is_content
        × Appends (W.contents writer.old.device) (W.contents writer.new.device) (pending.old ++ output))) }

    // The same as for the lines alone.
    ensures begun { OnErr result (IfSome (texts_of (R.remaining reader.old.device) (λ m. M.remaining m.device) second.old) (λ t. (output : List ℕ)
        × IsOutputSoFar S.rules script.old t output × (others : List ℕ)
        × AppendsAllBut (W.contents writer.old.device) (W.contents writer.new.device) (pending.old ++ output) (pending.new ++ others))) }
    ensures said { IfErr result (λ fault. IfSome (texts_of (R.remaining reader.old.device) (λ m. M.remaining m.device) second.old) (λ t.
        TellsSaid fault (HearsAllRead S.rules script.old script.new t (R.remaining reader.new.device) (option_and_then (λ m. M.remaining m.device) second.new))
        (AreFirstAnswers S.rules script.old t)
        (W.contents writer.old.device) (W.contents writer.new.device) pending.old pending.new)) }

    ensures counted { CountsTexts reader.old reader.new second.old second.new writer.old writer.new turns.old turns.new result }
    ensures unread { LeavesUnread S.rules script.old (R.remaining reader.old.device) reader.old reader.new second.old second.new }
{
    run_texts(alloc, script, reader, second, writer, pending, turns)?;
    finish(alloc, script, writer, pending, turns)
}

// Ends a run for a fault. After one that is not the writer's own, what waits is written first, and the writer's fault
// then comes in the place of the other.
fn give_up<W: Write>(
    writer: &mut Counted<W>,
    pending: &mut Buffered,
    turns: &mut Turns,
    fault: ScriptError,
) -> RunEnd
    ensures not_whole { is_whole result ≡ false }
    ensures begun { AppendsBeginning (W.contents writer.old.device) (W.contents writer.new.device) pending.old }
    // A read fault and want of memory are answered only where all that waited is written.
    ensures read_fault { result ≡ RunEnd.ReadFault → (fault ≡ ScriptError.ReadFault)
        × Appends (W.contents writer.old.device) (W.contents writer.new.device) pending.old }
    ensures no_memory { result ≡ RunEnd.NoMemory → (fault ≡ ScriptError.NoMemory)
        × Appends (W.contents writer.old.device) (W.contents writer.new.device) pending.old }
    ensures calls { IsSpentByCalls (writer.old.calls + turns.old) (writer.new.calls + turns.new) }
    // A run that ends for want of turns has none left, where that fault says so truly.
    ensures spent { result ≡ RunEnd.TurnsSpent → (fault ≡ ScriptError.TurnsSpent → turns.old ≡ 0) → turns.new ≡ 0 }
    ensures write_failures { (n : ℕ) → writer.old.failures ≡ failed_writes {T = Unit {0}} n (Err fault) → writer.new.failures ≡ writes_failed_by n result }
{
    match fault {
        ScriptError::ReadFault | ScriptError::NoMemory => match pending.send(writer, turns) {
            Ok(()) => RunEnd::from(fault),
            Err(other) => RunEnd::from(other),
        },
        ScriptError::WriteFault | ScriptError::TurnsSpent => RunEnd::from(fault),
    }
}

/// Reads the lines of a text, and of a second one where there is a second reader, and writes what the script says to
/// them, and at last its last words.
///
/// The texts are all that the readers have left. Reading a text stops at its end, or where the script hears no further
/// line of it; the second is read behind the first. What is written is what a run of the script's rules over the texts
/// says. The run makes at most 1,000,000 read and write calls. Where it breaks off, a beginning is written of what the
/// rules say so far: at `ReadFault` the answers to all lines that left the readers whole, at `NoMemory` those to some
/// first lines.
pub fn run_script<S: Script, R: Read, M: Read, W: Write>(
    alloc: Global,
    script: &mut S,
    reader: &mut Counted<R>,
    second: &mut Option<Counted<M>>,
    writer: &mut Counted<W>,
) -> RunEnd
    // At `Clean` and `Refused` all of the output is written, and the end tells whether the script is content.
    ensures whole { IfSome (texts_of (R.remaining reader.old.device) (λ m. M.remaining m.device) second.old) (λ t.
        WritesOutput result (IsOutput S.rules script.old t) (W.contents writer.old.device) (W.contents writer.new.device)) }

    // At every end a beginning is written of what is said to some first lines, or of all of the output.
    ensures begun { IfSome (texts_of (R.remaining reader.old.device) (λ m. M.remaining m.device) second.old) (λ t. (output : List ℕ)
        × IsOutputSoFar S.rules script.old t output
        × AppendsBeginning (W.contents writer.old.device) (W.contents writer.new.device) output) }
    ensures said { IfSome (texts_of (R.remaining reader.old.device) (λ m. M.remaining m.device) second.old) (λ t.
        WritesSaid result (HearsAllRead S.rules script.old script.new t (R.remaining reader.new.device) (option_and_then (λ m. M.remaining m.device) second.new))
        (AreFirstAnswers S.rules script.old t) (W.contents writer.old.device) (W.contents writer.new.device)) }

    ensures counted { CountsRun reader.old reader.new second.old second.new writer.old writer.new result }
    // Where the script hears no line of a text, its reader isn't called.
    ensures unread { LeavesUnread S.rules script.old (R.remaining reader.old.device) reader.old reader.new second.old second.new }
{
    let mut pending = Buffered::new(alloc);
    let mut turns = Turns::new();
    match run_to_end(
        alloc,
        script,
        reader,
        second,
        writer,
        &mut pending,
        &mut turns,
    ) {
        Ok(true) => RunEnd::Clean,
        Ok(false) => RunEnd::Refused,
        Err(fault) => give_up(writer, &mut pending, &mut turns, fault),
    }
}
