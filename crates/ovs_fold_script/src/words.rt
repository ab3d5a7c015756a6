//! The words for what becomes of a link's line.

ghost use Rattle.std.specs.Prelude.{◌≡◌, ◌++◌, IfOk, codes, string_bytes};
ghost use Rattle.ovs_types.specs.Id.{id_text};
ghost use Rattle.ovs_fold_script.specs.Words.{link_word, outcome_line, merge_line};

use ovs_rows::ChangeError;
use ovs_script::{LineFault, refused_line};
use ovs_types::{NoMemory, TxnId};
use std::alloc::{AllocError, Global};

/// Why a line with a link is refused, in the order of checking.
#[derive(Debug, Clone, Copy, PartialEq, Eq)]
pub(crate) enum LineRefusal {
    /// It has no JSON, for this fault.
    BadLine(LineFault),
    /// No array of two strings and an object.
    BadShape,
    /// A text that is no id, or an id that no link can have.
    BadId,
    /// A change that is none of the schema's, for this fault, which is never want of memory.
    BadChange(ChangeError),
    /// It contradicts the held link with these ids.
    Fork { prev: TxnId, id: TxnId },
    /// The store has no room for another link.
    Full,
}

/// What becomes of a line with a link.
#[derive(Debug, Clone, Copy, PartialEq, Eq)]
pub(crate) enum LineOutcome {
    /// The link is new, and held now.
    Took,
    /// The link was held already.
    Held,
    /// Nothing changed.
    Refused(LineRefusal),
}

fn word(alloc: Global, text: &str) -> Result<String, NoMemory>
    ensures text { IfOk result (λ word. string_bytes word ≡ text.now) }
{
    Ok(String::from_str(alloc, text)?)
}

fn fork_text(alloc: Global, prev: &str, id: &str) -> Result<String, AllocError>
    ensures text { IfOk result (λ word. string_bytes word ≡ codes "fork " ++ (prev.now ++ (codes " " ++ id.now))) }
{
    format!(in alloc; "fork {prev} {id}")
}

fn fork_word(alloc: Global, prev: TxnId, id: TxnId) -> Result<String, NoMemory>
    ensures text { IfOk result (λ word. string_bytes word ≡ codes "fork " ++ (id_text prev ++ (codes " " ++ id_text id))) }
{
    let prev = prev.to_text(alloc)?;
    let id = id.to_text(alloc)?;
    Ok(fork_text(alloc, prev.as_str(), id.as_str())?)
}

impl LineRefusal {
    /// The word for it. That of a fork goes on with the ids of the held link.
    pub(crate) fn word(&self, alloc: Global) -> Result<String, NoMemory>
        ensures text { IfOk result (λ word. string_bytes word ≡ link_word self.now) }
    {
        match self {
            LineRefusal::BadLine(fault) => word(alloc, fault.word()),
            LineRefusal::BadShape => word(alloc, "bad-shape"),
            LineRefusal::BadId => word(alloc, "bad-id"),
            LineRefusal::BadChange(fault) => word(alloc, fault.word()),
            LineRefusal::Fork { prev, id } => fork_word(alloc, *prev, *id),
            LineRefusal::Full => word(alloc, "full"),
        }
    }
}

impl LineOutcome {
    /// The line that tells it of link line `number`.
    pub(crate) fn line(&self, alloc: Global, number: u64) -> Result<String, NoMemory>
        ensures text { IfOk result (λ line. string_bytes line ≡ outcome_line number self.now) }
    {
        match self {
            LineOutcome::Took => Ok(format!(in alloc; "{number} took\n")?),
            LineOutcome::Held => Ok(format!(in alloc; "{number} held\n")?),
            LineOutcome::Refused(refusal) => {
                let word = refusal.word(alloc)?;
                refused_line(alloc, number, word.as_str())
            }
        }
    }
}

fn merge_refused_line(alloc: Global, word: &str) -> Result<String, AllocError>
    ensures text { IfOk result (λ line. string_bytes line ≡ codes "merge refused " ++ (word.now ++ codes "\n")) }
{
    format!(in alloc; "merge refused {word}\n")
}

/// The line that tells how two stores were merged.
pub(crate) fn merge_line(alloc: Global, merged: Result<(), LineRefusal>) -> Result<String, NoMemory>
    ensures text { IfOk result (λ line. string_bytes line ≡ merge_line merged) }
{
    match merged {
        Ok(()) => Ok(String::from_str(alloc, "merge ok\n")?),
        Err(refusal) => {
            let word = refusal.word(alloc)?;
            Ok(merge_refused_line(alloc, word.as_str())?)
        }
    }
}
