//! What becomes of a link's line.

ghost use Rattle.std.specs.Prelude.{◌≡◌, ◌⊎◌, IfOk, OnOk, OnErr, option_map, string_bytes};
ghost use Rattle.ovs_links.specs.Sets.{IsOfTables};
ghost use Rattle.ovs_links.specs.Store.{tables_of};
ghost use Rattle.ovs_links.specs.Outcomes.{take_answer, taken};
ghost use Rattle.ovs_fold_script.specs.Reading.{link_of_line};
ghost use Rattle.ovs_fold_script.specs.Words.{outcome_line};
ghost use Rattle.ovs_fold_script.specs.Intake.{refusal_of, outcome_of, line_outcome, is_refused, store_after_line};

use crate::reading::link_of_line;
use crate::words::{LineOutcome, LineRefusal};
use ovs_links::{Link, LinkStore, TakeError, Took};
use ovs_types::NoMemory;
use std::alloc::Global;

impl LineOutcome {
    /// Whether the line changed nothing because of a fault in it.
    pub(crate) fn is_refused(&self) -> bool
        ensures value { result ≡ is_refused self.now }
    {
        matches!(self, LineOutcome::Refused(_))
    }
}

// Why the store didn't take a link. `None` is want of memory.
fn refusal_of(error: &TakeError) -> Option<LineRefusal>
    ensures value { result ≡ refusal_of error.now }
{
    match error {
        TakeError::Fork {
            held_prev,
            held_id,
            ..
        } => Some(LineRefusal::Fork {
            prev: *held_prev,
            id: *held_id,
        }),
        TakeError::Full { .. } => Some(LineRefusal::Full),
        TakeError::NoMemory { .. } => None,
    }
}

// Gives the link to the store. After `NoMemory` the store is as it was.
fn take_link(store: &mut LinkStore, link: Link) -> Result<LineOutcome, NoMemory>
    requires of_tables { IsOfTables (tables_of store.old) link }
    ensures outcome { IfOk result (λ outcome. outcome ≡ outcome_of (take_answer store.old.links link)) }
    ensures after { OnOk result (store.new ≡ taken store.old link) }
    ensures err { OnErr result (store.new ≡ store.old) }
    ensures schema { store.new.schema ≡ store.old.schema }
{
    match store.take(link) {
        Ok(Took::New) => Ok(LineOutcome::Took),
        Ok(Took::Held) => Ok(LineOutcome::Held),
        Err(error) => match refusal_of(&error) {
            Some(refusal) => Ok(LineOutcome::Refused(refusal)),
            None => Err(NoMemory),
        },
    }
}

// Takes the link of a line into the store. `None` is a line above the limit.
fn take_line(
    alloc: Global,
    store: &mut LinkStore,
    line: Option<&[u8]>,
) -> Result<LineOutcome, NoMemory>
    ensures outcome { IfOk result (λ outcome. outcome ≡ line_outcome store.old (option_map (λ l. l.now) line.entry)) }
    ensures after { OnOk result (store.new ≡ store_after_line store.old (link_of_line (tables_of store.old) (option_map (λ l. l.now) line.entry))) }
    ensures err { OnErr result (store.new ≡ store.old) }
    ensures schema { store.new.schema ≡ store.old.schema }
{
    match link_of_line(alloc, line, store.schema())? {
        Ok(link) => take_link(store, link),
        Err(refusal) => Ok(LineOutcome::Refused(refusal)),
    }
}

/// What is said to a line, and whether it was refused.
#[derive(Debug, Drop)]
pub(crate) struct LineAnswer {
    pub text: String,
    pub is_refused: bool,
}

// The answer that tells of the outcome.
fn answer_of(alloc: Global, number: u64, outcome: LineOutcome) -> Result<LineAnswer, NoMemory>
    ensures text { IfOk result (λ answer. string_bytes answer.text ≡ outcome_line number outcome) }
    ensures refused { IfOk result (λ answer. answer.is_refused ≡ is_refused outcome) }
{
    Ok(LineAnswer {
        text: outcome.line(alloc, number)?,
        is_refused: outcome.is_refused(),
    })
}

/// Takes the link of a line, with its number, into the store, and tells what became of it.
///
/// After `NoMemory` the store is as it was, or holds the link already.
pub(crate) fn answer_line(
    alloc: Global,
    store: &mut LinkStore,
    number: u64,
    line: Option<&[u8]>,
) -> Result<LineAnswer, NoMemory>
    ensures text { IfOk result (λ answer. string_bytes answer.text ≡ outcome_line number (line_outcome store.old (option_map (λ l. l.now) line.entry))) }
    ensures refused { IfOk result (λ answer. answer.is_refused ≡ is_refused (line_outcome store.old (option_map (λ l. l.now) line.entry))) }
    ensures after { OnOk result (store.new ≡ store_after_line store.old (link_of_line (tables_of store.old) (option_map (λ l. l.now) line.entry))) }
    ensures err { OnErr result ((store.new ≡ store.old)
        ⊎ (store.new ≡ store_after_line store.old (link_of_line (tables_of store.old) (option_map (λ l. l.now) line.entry)))) }
    ensures schema { store.new.schema ≡ store.old.schema }
{
    match take_line(alloc, store, line) {
        Ok(outcome) => answer_of(alloc, number, outcome),
        Err(error) => Err(error),
    }
}
