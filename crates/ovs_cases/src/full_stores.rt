//! A store with as many links as it takes.

ghost use Rattle.std.specs.Prelude.{◌≡◌, IfOk};
ghost use Rattle.ovs_links.specs.Sets.{IsOfTables};
ghost use Rattle.ovs_links.specs.Store.{tables_of};

use crate::case::add;
use crate::case_error::CaseError;
use ovs_links::{By, Link, LinkStore, MergeError, Settled, TakeError, Took};
use ovs_rows::Change;
use ovs_types::{NoMemory, Schema, TxnId};
use serde_json::Value;
use std::alloc::Global;

// What a call answered, and two ids: at a fork those of the held link, of a link that is handed back its own, else zeros.
type CallOutcome = (&'static str, u128, u128);

const OUT_OF_MEMORY: CallOutcome = ("out of memory", 0, 0);

// The id of the k-th link of the chain.
fn along(k: u32) -> u128 {
    (1 << 64) + u128::from(k)
}

fn json(alloc: Global, text: &str) -> Result<Value, NoMemory> {
    match Value::from_str(alloc, text) {
        Ok(value) => Ok(value),
        Err(_) => Err(NoMemory),
    }
}

// A store on the heap: each way out of what holds it drops it by a call.
fn new_store(alloc: Global, schema: &Schema) -> Result<Box<LinkStore>, NoMemory>
    ensures tables { IfOk result (λ store. tables_of store.value ≡ schema.now.description.tables) }
{
    Ok(Box::new(alloc, LinkStore::new(alloc, schema)?)?)
}

fn empty_store(alloc: Global) -> Result<Box<LinkStore>, NoMemory> {
    let value = json(alloc, "{\"name\":\"net\",\"version\":\"\",\"tables\":{}}")?;
    match Schema::read(alloc, &value) {
        Ok(schema) => new_store(alloc, &schema),
        Err(_) => Err(NoMemory),
    }
}

// A link that changes nothing.
fn link(alloc: Global, schema: &Schema, prev: u128, id: u128) -> Result<Link, NoMemory>
    ensures tables { IfOk result (IsOfTables schema.now.description.tables) }
{
    let nothing = json(alloc, "{}")?;
    let Ok(change) = Change::read(alloc, &nothing, schema) else {
        return Err(NoMemory);
    };
    match Link::new(TxnId::from(prev), TxnId::from(id), change) {
        Ok(link) => Ok(link),
        Err(_) => Err(NoMemory),
    }
}

fn fork_told(by: By, prev: TxnId, id: TxnId) -> CallOutcome {
    match by {
        By::Prev => ("fork by prev", u128::from(prev), u128::from(id)),
        By::Id => ("fork by id", u128::from(prev), u128::from(id)),
    }
}

fn refusal_told(error: &TakeError) -> CallOutcome {
    match error {
        TakeError::Fork {
            by,
            held_prev,
            held_id,
            ..
        } => fork_told(*by, *held_prev, *held_id),
        TakeError::Full { link } => ("full", u128::from(link.prev()), u128::from(link.id())),
        TakeError::NoMemory { .. } => OUT_OF_MEMORY,
    }
}

fn take(alloc: Global, store: &mut LinkStore, prev: u128, id: u128) -> CallOutcome
    ensures tables { tables_of store.new ≡ tables_of store.old }
{
    let Ok(link) = link(alloc, store.schema(), prev, id) else {
        return OUT_OF_MEMORY;
    };
    match store.take(link) {
        Ok(Took::New) => ("new", 0, 0),
        Ok(Took::Held) => ("held", 0, 0),
        Err(error) => refusal_told(&error),
    }
}

// A store of one link.
fn store_of(
    alloc: Global,
    schema: &Schema,
    prev: u128,
    id: u128,
) -> Result<Box<LinkStore>, NoMemory>
    ensures tables { IfOk result (λ store. tables_of store.value ≡ schema.now.description.tables) }
{
    let mut store = new_store(alloc, schema)?;
    let _ = take(alloc, &mut store, prev, id);
    Ok(store)
}

fn merge_refusal_told(error: &MergeError) -> CallOutcome {
    match error {
        MergeError::Fork {
            by,
            held_prev,
            held_id,
        } => fork_told(*by, *held_prev, *held_id),
        MergeError::Full => ("full", 0, 0),
        MergeError::NoMemory => OUT_OF_MEMORY,
    }
}

// Merges a store of one link.
fn merge(alloc: Global, store: &mut LinkStore, prev: u128, id: u128) -> CallOutcome {
    let Ok(other) = store_of(alloc, store.schema(), prev, id) else {
        return OUT_OF_MEMORY;
    };
    match store.merge(&other) {
        Ok(()) => ("merged", 0, 0),
        Err(error) => merge_refusal_told(&error),
    }
}

// Settles the store, and tells how many links are folded then, and how many aren't.
fn settle(alloc: Global, store: &mut LinkStore) -> CallOutcome {
    let told = match store.settle(alloc) {
        Ok(Settled::Done) => "done",
        Ok(Settled::Stuck(_)) => "stuck",
        Err(NoMemory) => "out of memory",
    };
    (told, store.chain_len() as u128, store.parked() as u128)
}

// Takes the links of a chain of so many, and tells the first answer that isn't "new", or the last one.
fn fill(alloc: Global, store: &mut LinkStore, links: u32) -> CallOutcome {
    let mut prev = 0;
    let mut told = ("new", 0, 0);
    for k in 1..=links {
        told = take(alloc, store, prev, along(k));
        if told.0 != "new" {
            return told;
        }
        prev = along(k);
    }
    told
}

fn add_told(alloc: Global, answers: &mut String, told: CallOutcome) -> Result<(), CaseError> {
    let (word, first, second) = told;
    let answer = format!(in alloc; "{word} {first} {second}")?;
    add(answers, answer.as_str())
}

fn add_held(alloc: Global, answers: &mut String, store: &LinkStore) -> Result<(), CaseError> {
    let held = store.len();
    add(answers, format!(in alloc; "holds {held}")?.as_str())
}

// What the store answers to a link, taken alone and in a store of it, and how many links it holds after each.
fn add_asked(
    alloc: Global,
    store: &mut LinkStore,
    prev: u128,
    id: u128,
    answers: &mut String,
) -> Result<(), CaseError> {
    let taken = take(alloc, store, prev, id);
    add_told(alloc, answers, taken)?;
    add_held(alloc, answers, store)?;
    let merged = merge(alloc, store, prev, id);
    add_told(alloc, answers, merged)?;
    add_held(alloc, answers, store)
}

/// Fills a store and settles it, and asks it then for a link that it holds, for one that contradicts it, and for one too
/// many.
pub(crate) fn full_store(alloc: Global) -> Result<String, CaseError> {
    let mut store = empty_store(alloc)?;
    let filled = fill(alloc, &mut store, 1_000_000);
    let settled = settle(alloc, &mut store);
    let mut answers = String::new(alloc);
    add_told(alloc, &mut answers, filled)?;
    add_told(alloc, &mut answers, settled)?;
    // the ids of two commits that aren't on the chain
    let (y, z) = (along(2_000_000), along(2_000_001));
    add_asked(alloc, &mut store, 0, along(1), &mut answers)?;
    add_asked(alloc, &mut store, 0, y, &mut answers)?;
    add_asked(alloc, &mut store, y, z, &mut answers)?;
    Ok(answers)
}
