//! The script `world`: a schema, how many relays there are, and events, and at the end what each node holds.

ghost use Rattle.std.specs.Prelude.{◌≡◌, IfOk, IfSome, List, ℕ, option_map, string_bytes};
ghost use Rattle.ovs_script.specs.Sending.{AppendsBeginning};
ghost use Rattle.ovs_script.specs.Texts.{AreAnswersToFirst, HearsRead};
ghost use Rattle.ovs_script.specs.Said.{WritesOutput, WritesSaid};
ghost use Rattle.ovs_script.specs.FirstLine.{schema_of_line};
ghost use Rattle.ovs_script.specs.Refusal.{schema_answer};
ghost use Rattle.ovs_world_script.specs.declared.story.Story.{Story};
ghost use Rattle.ovs_world_script.specs.Reading.{relays_of_line};
ghost use Rattle.ovs_world_script.specs.Words.{relays_refused};
ghost use Rattle.ovs_world_script.specs.Story.{story_rules, beginning, stage_after_schema, stage_after_relays, relays_answer, world_of, IsTold, IsToldSoFar, CountsAlone};

use crate::closing::last_lines;
use crate::events::answer_line;
use crate::reading::relays_of_line;
use ovs_script::{LineFault, RunEnd, SchemaRefusal, Script, ScriptEnd, run_script, schema_of_line};
use ovs_types::{NoMemory, Schema};
use ovs_wire::Counted;
use ovs_world::{World, WorldError};
use std::alloc::Global;
use std::io::{Read, Write};

/// What the next line is.
#[derive(Drop)]
pub(crate) enum ScriptStage {
    /// The schema.
    Schema,
    /// How many relays there are.
    Relays(Schema),
    /// An event of this world.
    Events(World),
    /// Nothing that is looked at, since the schema or the number of relays was refused.
    Over,
}

/// A run of the script: what comes next, and whether an event was refused.
#[derive(Drop)]
pub(crate) struct Story {
    stage: ScriptStage,
    refused: bool,
}

// Hears the schema's line: what comes next, and what is said.
fn hear_schema(alloc: Global, line: Option<&[u8]>) -> Result<(ScriptStage, String), NoMemory>
    ensures stage { IfOk result (λ p. p.0 ≡ stage_after_schema (schema_of_line (option_map (λ l. l.now) line.entry))) }
    ensures text { IfOk result (λ p. string_bytes p.1 ≡ schema_answer (schema_of_line (option_map (λ l. l.now) line.entry))) }
{
    match schema_of_line(alloc, line)? {
        Ok(schema) => Ok((ScriptStage::Relays(schema), String::new(alloc))),
        Err(refusal) => Ok((ScriptStage::Over, refusal.line(alloc)?)),
    }
}

// A world of so many relays, if it may have so many.
fn world_of(
    alloc: Global,
    schema: &Schema,
    relays: Option<usize>,
) -> Result<Option<World>, NoMemory>
    ensures value { IfOk result (λ w. w ≡ world_of schema.now relays) }
{
    let Some(relays) = relays else {
        return Ok(None);
    };
    match World::new(alloc, schema, relays) {
        Ok(world) => Ok(Some(world)),
        Err(WorldError::NoMemory) => Err(NoMemory),
        Err(_) => Ok(None),
    }
}

// Hears the line that says how many relays there are: what comes next, and what is said.
fn hear_relays(
    alloc: Global,
    schema: &Schema,
    line: Option<&[u8]>,
) -> Result<(ScriptStage, String), NoMemory>
    ensures stage { IfOk result (λ p. p.0 ≡ stage_after_relays (world_of schema.now (relays_of_line (option_map (λ l. l.now) line.entry)))) }
    ensures text { IfOk result (λ p. string_bytes p.1 ≡ relays_answer (world_of schema.now (relays_of_line (option_map (λ l. l.now) line.entry)))) }
{
    let relays = relays_of_line(alloc, line)?;
    match world_of(alloc, schema, relays)? {
        Some(world) => Ok((ScriptStage::Events(world), String::new(alloc))),
        None => Ok((ScriptStage::Over, relays_refused(alloc)?)),
    }
}

fn relays_refused(alloc: Global) -> Result<String, NoMemory>
    ensures text { IfOk result (λ text. string_bytes text ≡ relays_refused) }
{
    Ok(String::from_str(alloc, "relays refused\n")?)
}

impl Story {
    /// The run before its first line.
    pub(crate) fn new() -> Story
        ensures value { result ≡ beginning }
    {
        Story {
            stage: ScriptStage::Schema,
            refused: false,
        }
    }
}

impl Script for Story {
    ghost rules = { story_rules };

    fn take(
        &mut self,
        alloc: Global,
        number: u64,
        line: Option<&[u8]>,
    ) -> Result<String, NoMemory> {
        let (stage, text) = match &mut self.stage {
            ScriptStage::Schema => hear_schema(alloc, line)?,
            ScriptStage::Relays(schema) => hear_relays(alloc, schema, line)?,
            ScriptStage::Events(world) => {
                let answer = answer_line(alloc, world, number.saturating_sub(1), line)?;
                self.refused |= answer.is_refused;
                return Ok(answer.text);
            }
            ScriptStage::Over => return Ok(String::new(alloc)),
        };
        self.stage = stage;
        Ok(text)
    }

    fn begin_second(&mut self, _alloc: Global) -> Result<(), NoMemory> {
        Ok(())
    }

    fn is_over(&self) -> bool {
        matches!(&self.stage, ScriptStage::Over)
    }

    fn close(&mut self, alloc: Global) -> Result<ScriptEnd, NoMemory> {
        let (text, is_content) = match &self.stage {
            ScriptStage::Schema => (
                SchemaRefusal::BadLine(LineFault::BadJson).line(alloc)?,
                false,
            ),
            ScriptStage::Relays(_) => (relays_refused(alloc)?, false),
            ScriptStage::Events(world) => (last_lines(alloc, world)?, !self.refused),
            ScriptStage::Over => (String::new(alloc), false),
        };
        Ok(ScriptEnd { text, is_content })
    }
}

/// Reads a schema, how many relays there are, and events, line by line, and writes what becomes of each and what each node
/// holds at the end.
///
/// The text is all that the reader has left. The run makes at most 1,000,000 read and write calls, and at `TurnsSpent` all of
/// them are made, as far as 64-bit counts can tell. Where it breaks off, a beginning of the output is written: at `ReadFault`
/// what is said to all lines that left the reader whole, at `NoMemory` what is said to some first lines.
pub fn world_run<R: Read, W: Write>(
    alloc: Global,
    reader: &mut Counted<R>,
    writer: &mut Counted<W>,
) -> RunEnd
    // At `Clean` and `Refused` all of the output is written, and the end tells whether nothing was refused.
    ensures whole { IfSome (R.remaining reader.old.device) (λ text.
        WritesOutput result (IsTold text) (W.contents writer.old.device) (W.contents writer.new.device)) }

    // At every end a beginning of the output is written.
    ensures begun { IfSome (R.remaining reader.old.device) (λ text. (output : List ℕ) × IsToldSoFar text output
        × AppendsBeginning (W.contents writer.old.device) (W.contents writer.new.device) output) }
    ensures said { (last : Story) × IfSome (R.remaining reader.old.device) (λ text.
        WritesSaid result (HearsRead story_rules beginning last text (R.remaining reader.new.device))
        (AreAnswersToFirst story_rules beginning text) (W.contents writer.old.device) (W.contents writer.new.device)) }

    ensures counted { CountsAlone reader.old reader.new writer.old writer.new result }
{
    let mut second: Option<Counted<&[u8]>> = None;
    run_script(alloc, &mut Story::new(), reader, &mut second, writer)
}
