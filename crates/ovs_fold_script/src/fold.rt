//! The script `fold`: a schema, then links, and at the end the database that the longest chain makes.

ghost use Rattle.std.specs.Prelude.{◌≡◌, IsTrue, IfOk, OnOk, IfSome, false, option_map, option_and_then, string_bytes, if◌then◌else◌};
ghost use Rattle.std.specs.Io.KnownBytes.{Appends};
ghost use Rattle.ovs_script.specs.Lines.{lines_of};
ghost use Rattle.ovs_script.specs.Sending.{AppendsBeginning};
ghost use Rattle.ovs_script.specs.RunEnd.{is_whole};
ghost use Rattle.ovs_script.specs.Counts.{CountsRun};
ghost use Rattle.ovs_script.specs.Texts.{texts_of, AreFirstAnswers, HearsAllRead};
ghost use Rattle.ovs_script.specs.Said.{WritesSaid};
ghost use Rattle.ovs_script.specs.FirstLine.{schema_of_line};
ghost use Rattle.ovs_script.specs.Refusal.{schema_answer};
ghost use Rattle.ovs_fold_script.specs.declared.fold.Fold.{Fold};
ghost use Rattle.ovs_fold_script.specs.Folding.{fold_rules, beginning, fold_output, is_clean, has_schema, stage_after_schema};

use crate::intake::answer_line;
use crate::stores::{OneStore, TwoStores};
use ovs_script::{LineFault, RunEnd, SchemaRefusal, Script, ScriptEnd, run_script, schema_of_line};
use ovs_types::NoMemory;
use ovs_wire::Counted;
use std::alloc::Global;
use std::io::{Read, Write};
use std::mem;

/// What the next line is.
#[derive(Drop)]
pub(crate) enum FoldStage {
    /// The schema.
    Schema,
    /// A link of the input, for this store.
    Links(OneStore),
    /// A link of the second text, for the second of these stores.
    Both(TwoStores),
    /// Nothing that is looked at: the input ended before its schema.
    Missing,
    /// Nothing that is looked at, since the schema was refused.
    Over,
}

/// A run of the script: what comes next, and whether a link was refused.
#[derive(Drop)]
pub(crate) struct Fold {
    stage: FoldStage,
    refused: bool,
}

impl Fold {
    /// The run before its first line.
    pub(crate) fn new() -> Fold
        ensures value { result ≡ beginning }
    {
        Fold {
            stage: FoldStage::Schema,
            refused: false,
        }
    }

    // Hears the schema's line. The answer is empty where the schema is taken.
    fn take_schema(&mut self, alloc: Global, line: Option<&[u8]>) -> Result<String, NoMemory>
        ensures text { IfOk result (λ text. string_bytes text ≡ schema_answer (schema_of_line (option_map (λ l. l.now) line.entry))) }
        ensures after { OnOk result (self.new ≡ record { stage = stage_after_schema (schema_of_line (option_map (λ l. l.now) line.entry)); refused = self.old.refused }) }
    {
        match schema_of_line(alloc, line)? {
            Ok(schema) => {
                self.stage = FoldStage::Links(OneStore::new(alloc, &schema)?);
                Ok(String::new(alloc))
            }
            Err(refusal) => {
                self.stage = FoldStage::Over;
                Ok(refusal.line(alloc)?)
            }
        }
    }
}

impl Script for Fold {
    ghost rules = { fold_rules };

    fn take(
        &mut self,
        alloc: Global,
        number: u64,
        line: Option<&[u8]>,
    ) -> Result<String, NoMemory> {
        let answer = match &mut self.stage {
            FoldStage::Schema => return self.take_schema(alloc, line),
            FoldStage::Links(store) => answer_line(alloc, &mut store.store, number, line)?,
            FoldStage::Both(stores) => stores.answer_line(alloc, number, line)?,
            FoldStage::Missing | FoldStage::Over => return Ok(String::new(alloc)),
        };
        self.refused |= answer.is_refused;
        Ok(answer.text)
    }

    fn begin_second(&mut self, alloc: Global) -> Result<(), NoMemory> {
        self.stage = match mem::replace(&mut self.stage, FoldStage::Over) {
            FoldStage::Schema | FoldStage::Missing => FoldStage::Missing,
            FoldStage::Links(first) => FoldStage::Both(TwoStores::new(alloc, first)?),
            FoldStage::Both(stores) => FoldStage::Both(stores),
            FoldStage::Over => FoldStage::Over,
        };
        Ok(())
    }

    fn is_over(&self) -> bool {
        matches!(&self.stage, FoldStage::Missing | FoldStage::Over)
    }

    fn close(&mut self, alloc: Global) -> Result<ScriptEnd, NoMemory> {
        match &mut self.stage {
            FoldStage::Schema | FoldStage::Missing => Ok(ScriptEnd {
                text: SchemaRefusal::BadLine(LineFault::BadJson).line(alloc)?,
                is_content: false,
            }),
            FoldStage::Links(store) => store.close(alloc, self.refused),
            FoldStage::Both(stores) => stores.close(alloc, self.refused),
            FoldStage::Over => Ok(ScriptEnd {
                text: String::new(alloc),
                is_content: false,
            }),
        }
    }
}

/// Reads a schema and links, line by line, and writes what became of each and the database that they make. Where there
/// is a second reader, its links go into a second store, which is then merged into the first.
///
/// The texts are all that the readers have left. The second isn't read where the schema is refused. The run makes at
/// most 1,000,000 read and write calls, and at `TurnsSpent` all of them are made, as far as 64-bit counts can tell. Where
/// it breaks off, a beginning of the output is written: at `ReadFault` the answers to all lines that left the readers
/// whole, at `NoMemory` those to some first lines, of the input before the second text.
///
/// A run is the last thing that a process does: the memory of what it held is not given back.
pub fn fold_run<R: Read, M: Read, W: Write>(
    alloc: Global,
    reader: &mut Counted<R>,
    merge: &mut Option<Counted<M>>,
    writer: &mut Counted<W>,
) -> RunEnd
    // All of the output is written, and the end tells whether nothing was refused and the chain isn't stuck.
    ensures whole { IsTrue (is_whole result) → IfSome (texts_of (R.remaining reader.old.device) (λ m. M.remaining m.device) merge.old) (λ t.
        Appends (W.contents writer.old.device) (W.contents writer.new.device) (fold_output t)) }
    ensures status { IsTrue (is_whole result) → IfSome (texts_of (R.remaining reader.old.device) (λ m. M.remaining m.device) merge.old) (λ t.
        result ≡ (if is_clean t then RunEnd.Clean else RunEnd.Refused)) }

    // At every end a beginning of the output is written.
    ensures begun { IfSome (texts_of (R.remaining reader.old.device) (λ m. M.remaining m.device) merge.old) (λ t.
        AppendsBeginning (W.contents writer.old.device) (W.contents writer.new.device) (fold_output t)) }
    ensures said { (f : Fold) × IfSome (texts_of (R.remaining reader.old.device) (λ m. M.remaining m.device) merge.old) (λ t.
        WritesSaid result (HearsAllRead fold_rules beginning f t (R.remaining reader.new.device) (option_and_then (λ m. M.remaining m.device) merge.new))
        (AreFirstAnswers fold_rules beginning t) (W.contents writer.old.device) (W.contents writer.new.device)) }

    ensures counted { CountsRun reader.old reader.new merge.old merge.new writer.old writer.new result }
    // Where the input's first line gives no schema, the second reader isn't called.
    ensures unread { IfSome (R.remaining reader.old.device) (λ input.
        has_schema (lines_of input) ≡ false → merge.new ≡ merge.old) }
{
    let mut fold = Fold::new();
    let end = run_script(alloc, &mut fold, reader, merge, writer);
    // To give back each link of a large store takes long, and with the process all of its memory goes.
    mem::forget(fold);
    end
}
