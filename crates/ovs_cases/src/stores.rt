//! Stores of links: what they answer, and what stands in them after that. The ids of commits are letters.

ghost use Rattle.std.specs.Prelude.{◌≡◌, IfOk};
ghost use Rattle.ovs_links.specs.Sets.{IsOfTables};
ghost use Rattle.ovs_links.specs.Store.{tables_of};

use crate::case::{list, part, text, truth, word};
use crate::case_error::{CaseError, is_refused, is_so};
use ovs_case_lines::{commit, count_in, letter, list_in, text_in};
use ovs_links::{By, Link, LinkStore, MergeError, Settled, TakeError, Took};
use ovs_rows::Change;
use ovs_types::{Schema, TxnId};
use serde_json::Value;
use std::alloc::Global;

// The link of three arguments: the ids and the change.
fn link(alloc: Global, schema: &Schema, parts: &[Value]) -> Result<Link, CaseError>
    ensures tables { IfOk result (IsOfTables schema.now.description.tables) }
{
    let [prev, id, change] = parts else {
        return Err(CaseError::Malformed);
    };
    let prev = commit(text_in(prev)?)?;
    let id = commit(text_in(id)?)?;
    let Ok(change) = Change::read(alloc, change, schema) else {
        return Err(CaseError::Malformed);
    };
    match Link::new(prev, id, change) {
        Ok(link) => Ok(link),
        Err(_) => Err(CaseError::BadId),
    }
}

fn fork_text(alloc: Global, by: By, prev: TxnId, id: TxnId) -> Result<String, CaseError> {
    let shared = match by {
        By::Prev => "prev",
        By::Id => "id",
    };
    let prev = letter(prev);
    let id = letter(id);
    Ok(format!(in alloc; "fork by {shared} with {prev} {id}")?)
}

fn refused_text(alloc: Global, error: &TakeError) -> Result<String, CaseError> {
    match error {
        TakeError::Fork {
            by,
            held_prev,
            held_id,
            ..
        } => fork_text(alloc, *by, *held_prev, *held_id),
        TakeError::Full { .. } => word(alloc, "full"),
        TakeError::NoMemory { .. } => Err(CaseError::Refused),
    }
}

/// Takes a link, and says how it went.
pub(crate) fn take(
    alloc: Global,
    store: &mut LinkStore,
    parts: &[Value],
) -> Result<String, CaseError>
    ensures tables { tables_of store.new ≡ tables_of store.old }
    ensures schema { store.new.schema ≡ store.old.schema }
    ensures folded { store.new.folded ≡ store.old.folded }
{
    let link = link(alloc, store.schema(), parts)?;
    match store.take(link) {
        Ok(Took::New) => word(alloc, "new"),
        Ok(Took::Held) => word(alloc, "held"),
        Err(error) => refused_text(alloc, &error),
    }
}

// Where no held link follows the head, and where this one does and fits.
fn append_link(alloc: Global, store: &mut LinkStore, link: Link) -> Result<String, CaseError>
    requires tables { IsOfTables (tables_of store.old) link }
    ensures tables { tables_of store.new ≡ tables_of store.old }
{
    if !matches!(store.settle(alloc)?, Settled::Done) {
        return word(alloc, "not settled");
    }
    if link.prev() != store.head() || !store.database().fits(link.change()) {
        return word(alloc, "not next");
    }
    match store.append(alloc, link) {
        Ok(()) => word(alloc, "appended"),
        Err(error) => refused_text(alloc, &error),
    }
}

fn append(alloc: Global, store: &mut LinkStore, parts: &[Value]) -> Result<String, CaseError>
    ensures tables { tables_of store.new ≡ tables_of store.old }
{
    let link = link(alloc, store.schema(), parts)?;
    append_link(alloc, store, link)
}

fn settle(alloc: Global, store: &mut LinkStore) -> Result<String, CaseError>
    ensures tables { tables_of store.new ≡ tables_of store.old }
{
    match store.settle(alloc).ok().ok_or(CaseError::Refused)? {
        Settled::Done => word(alloc, "done"),
        Settled::Stuck(id) => {
            let id = letter(id);
            Ok(format!(in alloc; "stuck at {id}")?)
        }
    }
}

// Folds the chain, and drops the links of lower starts that can be reached.
fn prune(alloc: Global, store: &mut LinkStore) -> Result<String, CaseError>
    ensures tables { tables_of store.new ≡ tables_of store.old }
{
    let _settled = store.settle(alloc)?;
    let dropped = store.prune();
    Ok(format!(in alloc; "{dropped} dropped")?)
}

fn take_all(alloc: Global, store: &mut LinkStore, links: &[Value]) -> Result<(), CaseError>
    ensures tables { tables_of store.new ≡ tables_of store.old }
{
    for parts in links {
        let parts = list_in(parts)?;
        let _ = take(alloc, store, parts)?;
    }
    Ok(())
}

/// A settled store of these links.
pub(crate) fn settled(
    alloc: Global,
    schema: &Schema,
    links: &[Value],
) -> Result<Box<LinkStore>, CaseError>
    ensures tables { IfOk result (λ store. tables_of store.value ≡ schema.now.description.tables) }
{
    let mut store = Box::new(alloc, LinkStore::new(alloc, schema)?)?;
    take_all(alloc, &mut store, links)?;
    let _ = store.settle(alloc)?;
    Ok(store)
}

fn merge_refusal(alloc: Global, error: &MergeError) -> Result<String, CaseError> {
    match error {
        MergeError::Fork {
            by,
            held_prev,
            held_id,
        } => fork_text(alloc, *by, *held_prev, *held_id),
        MergeError::Full => word(alloc, "full"),
        MergeError::NoMemory => Err(CaseError::Refused),
    }
}

fn merge(alloc: Global, store: &mut LinkStore, links: &[Value]) -> Result<String, CaseError>
    ensures tables { tables_of store.new ≡ tables_of store.old }
{
    let other = settled(alloc, store.schema(), links)?;
    match store.merge(&other) {
        Ok(()) => word(alloc, "merged"),
        Err(error) => merge_refusal(alloc, &error),
    }
}

fn position(alloc: Global, store: &LinkStore, id: TxnId) -> Result<String, CaseError> {
    match store.position_of(id) {
        Some(place) => Ok(format!(in alloc; "{place}")?),
        None => word(alloc, "none"),
    }
}

fn link_at(alloc: Global, store: &LinkStore, number: &Value) -> Result<String, CaseError> {
    let number = count_in(number)?;
    match store.link_at(number as usize) {
        Some(link) => word(alloc, letter(link.id())),
        None => word(alloc, "none"),
    }
}

// What the store answers to a question that changes nothing.
fn looked_up(alloc: Global, store: &LinkStore, parts: &[Value]) -> Result<String, CaseError> {
    match text(parts, 0)? {
        "position" => position(alloc, store, commit(text(parts, 1)?)?),
        "link at" => link_at(alloc, store, part(parts, 1)?),
        "holds" => {
            let link = link(alloc, store.schema(), list(parts, 1)?)?;
            truth(alloc, store.holds(&link))
        }
        _ => Err(CaseError::Malformed),
    }
}

// What the store answers to an event.
fn event(alloc: Global, store: &mut LinkStore, parts: &[Value]) -> Result<String, CaseError>
    ensures tables { tables_of store.new ≡ tables_of store.old }
{
    let [what, link @ ..] = parts else {
        return Err(CaseError::Malformed);
    };
    match text_in(what)? {
        "take" => take(alloc, store, link),
        "append" => append(alloc, store, link),
        "settle" => settle(alloc, store),
        "prune" => prune(alloc, store),
        "merge" => merge(alloc, store, list(parts, 1)?),
        _ => looked_up(alloc, store, parts),
    }
}

// Carries out an event (`event`). Where there is no memory for its call the links are as they were, and it is called again.
fn event_again(alloc: Global, store: &mut LinkStore, parts: &[Value]) -> Result<String, CaseError>
    ensures tables { tables_of store.new ≡ tables_of store.old }
{
    let held = store.len();
    let answer = event(alloc, store, parts);
    if !is_refused(&answer) {
        return answer;
    }
    is_so(store.len() == held)?;
    event(alloc, store, parts)
}

// The head, how many links are held and parked, and of copies of the steps the ids and how many rows each named.
fn state(alloc: Global, store: &LinkStore) -> Result<String, CaseError> {
    let head = letter(store.head());
    let held = store.len();
    let parked = store.parked();
    let mut told = format!(in alloc; "head {head}, {held} held, {parked} parked:")?;
    for step in store.folded().steps() {
        let step = step.copy()?;
        let prev = letter(step.prev);
        let id = letter(step.id);
        let rows = step.applied.rows().len();
        let step = format!(in alloc; " {prev}{id}/{rows}")?;
        told.push_str(step.as_str())?;
    }
    Ok(told)
}

// What the store answers to the events, and what stands in it then.
fn events(alloc: Global, store: &mut LinkStore, events: &[Value]) -> Result<String, CaseError> {
    let mut told = String::new(alloc);
    for parts in events {
        let parts = list_in(parts)?;
        let answer = event_again(alloc, store, parts)?;
        told.push_str(answer.as_str())?;
        told.push_str("; ")?;
    }
    let state = state(alloc, store)?;
    told.push_str(state.as_str())?;
    Ok(told)
}

/// `["store", [EVENT, ..]]`: what a new store answers to the events, and what stands in it then. An event is `["take",
/// PREV, ID, CHANGE]`, the same with `append`, `["settle"]`, `["prune"]`, `["merge", [[PREV, ID, CHANGE], ..]]`, or a question:
/// `["position", ID]`, `["link at", NUMBER]`, `["holds", [PREV, ID, CHANGE]]`.
pub(crate) fn store(alloc: Global, schema: &Schema, parts: &[Value]) -> Result<String, CaseError> {
    let asked = list(parts, 1)?;
    let mut store = LinkStore::new(alloc, schema)?;
    events(alloc, &mut store, asked)
}
