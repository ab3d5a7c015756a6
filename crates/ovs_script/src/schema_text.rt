//! The schema that a text begins with, where that is all that is wanted of it.

ghost use Rattle.std.specs.Prelude.{◌≡◌, ◌≢◌, Err, IfOk, OnOk, IfSome, string_bytes};
ghost use Rattle.std.specs.Io.KnownBytes.{Appends};
ghost use Rattle.ovs_script.specs.Counts.{CountsReads, CountsWrites};
ghost use Rattle.ovs_script.specs.Refusal.{schema_line};
ghost use Rattle.ovs_script.specs.SchemaText.{schema_of_text, GivesSchema, WritesRefusal, CountsSchema, EndCounts};

use crate::buffered::Buffered;
use crate::first_line::schema_of_line;
use crate::line::Line;
use crate::line_json::LineFault;
use crate::lines::next_line;
use crate::refusal::SchemaRefusal;
use crate::run_end::RunEnd;
use crate::script_error::ScriptError;
use crate::turns::Turns;
use crate::window::Window;
use ovs_json::NoMemory;
use ovs_types::Schema;
use ovs_wire::Counted;
use std::alloc::Global;
use std::io::{Read, Write};

// The schema that a text's first line gives, or why it is refused. A text without any line is refused as no JSON.
fn hear_schema<R: Read>(
    alloc: Global,
    reader: &mut Counted<R>,
    turns: &mut Turns,
) -> Result<Result<Schema, SchemaRefusal>, ScriptError>
    ensures value { IfOk result (λ answer. IfSome (R.remaining reader.old.device) (λ text. answer ≡ schema_of_text text)) }
    ensures counted { CountsReads reader.old reader.new turns.old turns.new result }
    ensures not_write { result ≢ Err ScriptError.WriteFault }
{
    let mut window = Window::new(alloc)?;
    let mut line = Line::new(alloc);
    if next_line(reader, &mut window, &mut line, turns)? {
        return Ok(schema_of_line(alloc, line.bytes())?);
    }
    Ok(Err(SchemaRefusal::BadLine(LineFault::BadJson)))
}

// The line that is all there is of a refused schema.
fn refusal_line(alloc: Global, refusal: SchemaRefusal) -> Result<String, NoMemory>
    ensures text { IfOk result (λ line. string_bytes line ≡ schema_line refusal) }
{
    Ok(refusal.line(alloc)?)
}

// Writes that line.
fn write_refusal<W: Write>(
    alloc: Global,
    refusal: SchemaRefusal,
    writer: &mut Counted<W>,
    turns: &mut Turns,
) -> Result<(), ScriptError>
    ensures told { OnOk result (Appends (W.contents writer.old.device) (W.contents writer.new.device) (schema_line refusal)) }
    ensures counted { CountsWrites writer.old writer.new turns.old turns.new result }
    ensures not_read { result ≢ Err ScriptError.ReadFault }
{
    let mut pending = Buffered::new(alloc);
    let line = refusal_line(alloc, refusal)?;
    pending.push(line.as_str())?;
    pending.send(writer, turns)
}

// The same, as the end of a run.
fn tell_refusal<W: Write>(
    alloc: Global,
    refusal: SchemaRefusal,
    writer: &mut Counted<W>,
    turns: &mut Turns,
) -> RunEnd
    ensures told { result ≡ RunEnd.Refused → Appends (W.contents writer.old.device) (W.contents writer.new.device) (schema_line refusal) }
    ensures not_clean { result ≢ RunEnd.Clean }
    ensures not_read { result ≢ RunEnd.ReadFault }
    ensures counted { EndCounts writer.old writer.new turns.old turns.new result }
{
    match write_refusal(alloc, refusal, writer, turns) {
        Ok(()) => RunEnd::Refused,
        Err(fault) => RunEnd::from(fault),
    }
}

/// The schema that the first line of a text gives. The text is all that the reader has left; of what stands behind its first
/// line some may be read, and nothing is made of it. Where the schema is refused, the line that tells it is written, as all
/// there is of a script whose schema is refused. At most 1,000,000 read and write calls are made.
///
/// # Errors
/// How a run ends that has no schema, which isn't `Clean`: `Refused` where the schema is refused and that is told. Whatever it
/// is, its status is that of the program.
pub fn read_schema<R: Read, W: Write>(
    alloc: Global,
    reader: &mut Counted<R>,
    writer: &mut Counted<W>,
) -> Result<Schema, RunEnd>
    ensures schema { IfSome (R.remaining reader.old.device) (GivesSchema result) }
    ensures unwritten { OnOk result (writer.new ≡ writer.old) }
    ensures refused { result ≡ Err RunEnd.Refused → IfSome (R.remaining reader.old.device) (λ text.
        WritesRefusal text (W.contents writer.old.device) (W.contents writer.new.device)) }
    ensures not_clean { result ≢ Err RunEnd.Clean }
    ensures counted { CountsSchema reader.old reader.new writer.old writer.new result }
{
    let mut turns = Turns::new();
    match hear_schema(alloc, reader, &mut turns) {
        Ok(Ok(schema)) => Ok(schema),
        Ok(Err(refusal)) => Err(tell_refusal(alloc, refusal, writer, &mut turns)),
        Err(fault) => Err(RunEnd::from(fault)),
    }
}
