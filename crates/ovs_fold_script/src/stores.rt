//! A store on the heap, and two of them, of which the second is merged into the first at the end.

ghost use Rattle.std.specs.Prelude.{◌≡◌, ◌⊎◌, ◌<◌, ◌+◌, ◌++◌, ◌^◌, ◌&&◌, not, IfOk, OnOk, OnErr, codes, option_map, string_bytes};
ghost use Rattle.ovs_links.specs.Store.{tables_of};
ghost use Rattle.ovs_links.specs.Outcomes.{merge_answer, merged};
ghost use Rattle.ovs_fold_script.specs.Intake.{line_outcome, is_refused};
ghost use Rattle.ovs_fold_script.specs.Closing.{end_text, is_whole_chain};
ghost use Rattle.ovs_fold_script.specs.Stores.{no_links, merge_refusal_of, merging_of, second_answer, stores_after_line, stores_closing, is_merged_whole};

use crate::closing::close_store;
use crate::intake::{LineAnswer, answer_line};
use crate::words::{LineRefusal, merge_line};
use ovs_links::{LinkStore, MergeError};
use ovs_script::ScriptEnd;
use ovs_types::{NoMemory, Schema};
use std::alloc::{AllocError, Global};
use std::marker::Model;

/// A store on the heap: a stage stays small, and what holds one drops it by a call.
#[derive(Drop)]
pub(crate) struct OneStore {
    pub(crate) store: Box<LinkStore>,
}

impl Model for OneStore {
    ghost use Rattle.ovs_links.specs.contracts.store.LinkStore as store_row;
    ghost use Rattle.ovs_links.specs.Store.{Stored};

    ghost Value = { Stored };

    ghost coded = { store_row.the_row.coded };

    ghost view = { λ s. s.store.value };
}

impl OneStore {
    /// A store of this schema with no link.
    pub(crate) fn new(alloc: Global, schema: &Schema) -> Result<OneStore, NoMemory>
        ensures value { IfOk result (λ one. one ≡ no_links schema.now) }
    {
        Ok(OneStore {
            store: Box::new(alloc, LinkStore::new(alloc, schema)?)?,
        })
    }

    /// Folds the longest chain and tells of it; content where no line was refused and the chain isn't stuck.
    pub(crate) fn close(&mut self, alloc: Global, refused: bool) -> Result<ScriptEnd, NoMemory>
        ensures text { IfOk result (λ closing. string_bytes closing.text ≡ end_text self.old) }
        ensures content { IfOk result (λ closing. closing.is_content ≡ (not refused && is_whole_chain self.old)) }
    {
        close_store(alloc, &mut self.store, refused)
    }
}

/// The store of the input, and one of the same schema for a second text.
#[derive(Drop)]
pub(crate) struct TwoStores {
    first: OneStore,
    second: OneStore,
}

impl Model for TwoStores {
    ghost use Rattle.std.specs.Prelude.{◌≡◌, refl};
    ghost use Rattle.std.specs.Coded.{code_by, coded×};
    ghost use Rattle.ovs_links.specs.contracts.store.LinkStore as store_row;
    ghost use Rattle.ovs_links.specs.Store.{Stored, tables_of};
    ghost use Rattle.ovs_fold_script.specs.Stores.{Stores};

    ghost Value = { Stores };

    ghost coded = { code_by (Stored × Stored) (coded× store_row.the_row.coded store_row.the_row.coded)
        (λ s. (s.first, s.second))
        (λ p. record { first = p.0; second = p.1 }) (λ _. refl) };

    ghost view = { λ s. record { first = s.first; second = s.second } };

    ghost invariant = { λ s. tables_of s.first ≡ tables_of s.second };
}

// Why a store wasn't merged. `None` is want of memory.
fn merge_refusal_of(error: &MergeError) -> Option<LineRefusal>
    ensures value { result ≡ merge_refusal_of error.now }
{
    match error {
        MergeError::Fork {
            held_prev,
            held_id,
            ..
        } => Some(LineRefusal::Fork {
            prev: *held_prev,
            id: *held_id,
        }),
        MergeError::Full => Some(LineRefusal::Full),
        MergeError::NoMemory => None,
    }
}

// Merges the second store into the first. The inner answer is why that is refused.
fn merge_stores(
    first: &mut LinkStore,
    second: &LinkStore,
) -> Result<Result<(), LineRefusal>, NoMemory>
    requires same_schema { tables_of first.old ≡ tables_of second.now }
    ensures outcome { IfOk result (λ outcome. outcome ≡ merging_of (merge_answer first.old.links second.now.links)) }
    ensures after { OnOk result (first.new ≡ merged first.old second.now) }
    ensures schema { first.new.schema ≡ first.old.schema }
{
    match first.merge(second) {
        Ok(()) => Ok(Ok(())),
        Err(error) => match merge_refusal_of(&error) {
            Some(refusal) => Ok(Err(refusal)),
            None => Err(NoMemory),
        },
    }
}

fn with_m(alloc: Global, line: &str) -> Result<String, AllocError>
    ensures text { IfOk result (λ text. string_bytes text ≡ codes "m" ++ line.now) }
{
    format!(in alloc; "m{line}")
}

impl TwoStores {
    /// A store, and beside it one of the same schema with no link.
    pub(crate) fn new(alloc: Global, first: OneStore) -> Result<TwoStores, NoMemory>
        ensures value { IfOk result (λ stores. stores ≡ record { first = first; second = no_links first.schema }) }
    {
        let second = OneStore::new(alloc, first.store.schema())?;
        Ok(TwoStores { first, second })
    }

    /// Takes the link of a line of the second text, with its number from 0, into the second store, and tells what
    /// became of it. After `NoMemory` the second store is as it was, or holds the link already; the first is as it was.
    pub(crate) fn answer_line(
        &mut self,
        alloc: Global,
        number: u64,
        line: Option<&[u8]>,
    ) -> Result<LineAnswer, NoMemory>
        requires small { number + 1 < 2 ^ 64 }
        ensures text { IfOk result (λ answer. string_bytes answer.text ≡ second_answer self.old number (option_map (λ l. l.now) line.entry)) }
        ensures refused { IfOk result (λ answer. answer.is_refused ≡ is_refused (line_outcome self.old.second (option_map (λ l. l.now) line.entry))) }
        ensures after { OnOk result (self.new ≡ stores_after_line self.old (option_map (λ l. l.now) line.entry)) }
        ensures err { OnErr result ((self.new ≡ self.old) ⊎ (self.new ≡ stores_after_line self.old (option_map (λ l. l.now) line.entry))) }
    {
        let answer = answer_line(alloc, &mut self.second.store, number + 1, line)?;
        Ok(LineAnswer {
            text: with_m(alloc, answer.text.as_str())?,
            is_refused: answer.is_refused,
        })
    }

    /// Merges the second store into the first, folds the longest chain of what that is then, and tells of both. It is
    /// content where no line was refused, the stores were merged and the chain isn't stuck.
    ///
    /// After `NoMemory` the second store may be merged already, and a longer beginning of the first's chain folded.
    pub(crate) fn close(&mut self, alloc: Global, refused: bool) -> Result<ScriptEnd, NoMemory>
        ensures text { IfOk result (λ closing. string_bytes closing.text ≡ stores_closing self.old) }
        ensures content { IfOk result (λ closing. closing.is_content ≡ (not refused && is_merged_whole self.old)) }
    {
        let merged = merge_stores(&mut self.first.store, &self.second.store)?;
        let is_merged = merged.is_ok();
        let mut text = merge_line(alloc, merged)?;
        let end = close_store(alloc, &mut self.first.store, false)?;
        text.push_str(end.text.as_str())?;
        Ok(ScriptEnd {
            text,
            is_content: !refused && (is_merged && end.is_content),
        })
    }
}
