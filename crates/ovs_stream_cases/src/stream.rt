//! The bytes of a session in which a source tells a relay its links.

ghost use Rattle.std.specs.Prelude.{◌≡◌, ◌++◌, ◌∷◌, [], Ok, Some, List, map, IfOk, OnOk};
ghost use Rattle.std.specs.List.{All, AllByRecursion};
ghost use Rattle.ovs_types.specs.Id.{id_text, read_id};
ghost use Rattle.ovs_types.specs.SchemaReading.{read_description};
ghost use Rattle.ovs_links.specs.Chains.{start_of};
ghost use Rattle.ovs_links.specs.Sets.{IsOfTables};
ghost use Rattle.ovs_wire.specs.declared.message.Message.{Message};
ghost use Rattle.ovs_upstream.specs.Lawful.{LawfulAsked};
ghost use Rattle.ovs_upstream.specs.Talk.{talk_of};
ghost use Rattle.ovs_stream_cases.specs.Said.{schema_reply, place_reply, update_notice, told_from, AreSaid, IsPlaceOf, IsSession, IsTold};

use crate::messages::{place_reply, schema_reply, text_of, update_notice};
use crate::stream_case_error::StreamCaseError;
use ovs_links::Link;
use ovs_types::{Schema, TxnId};
use ovs_wire::Message;
use std::alloc::Global;

/// Behind how many of the links an id stands; `None` where it stands nowhere.
pub(crate) fn place_of(links: &[Link], asked: TxnId) -> Option<usize>
    requires start { start_of links.now ≡ 0 }
    ensures place { IsPlaceOf links.now asked result }
{
    if asked == TxnId::zero() {
        return Some(0);
    }
    for (number, link) in links.iter().enumerate() {
        if link.id() == asked {
            return Some(number + 1);
        }
    }
    None
}

// Says a message more.
fn say(alloc: Global, bytes: &mut Vec<u8>, message: &Message) -> Result<(), StreamCaseError>
    ensures more { OnOk result ((said : List Message) → AreSaid said bytes.old.items → AreSaid (said ++ message.now ∷ []) bytes.new.items) }
{
    let text = text_of(alloc, message)?;
    bytes.extend_from_slice(text.as_slice())?;
    Ok(())
}

// Says the schema.
fn say_schema(alloc: Global, bytes: &mut Vec<u8>, schema: &Schema) -> Result<(), StreamCaseError>
    ensures more { OnOk result ((said : List Message) → AreSaid said bytes.old.items → AreSaid (said ++ schema_reply schema.now ∷ []) bytes.new.items) }
    ensures told { OnOk result (read_description schema.now.json ≡ Ok schema.now.description) }
{
    let reply = schema_reply(alloc, schema)?;
    say(alloc, bytes, &reply)
}

// Says whether the id is known that was asked, and where the updates go on.
fn say_place(
    alloc: Global,
    bytes: &mut Vec<u8>,
    is_known: bool,
    id: TxnId,
) -> Result<(), StreamCaseError>
    ensures more { OnOk result ((said : List Message) → AreSaid said bytes.old.items → AreSaid (said ++ place_reply is_known id ∷ []) bytes.new.items) }
    ensures told { OnOk result (read_id (id_text id) ≡ Some id) }
{
    let reply = place_reply(alloc, is_known, id)?;
    say(alloc, bytes, &reply)
}

// Says an update.
fn say_update(
    alloc: Global,
    schema: &Schema,
    bytes: &mut Vec<u8>,
    link: &Link,
) -> Result<(), StreamCaseError>
    requires tables { IsOfTables schema.now.description.tables link.now }
    ensures more { OnOk result ((said : List Message) → AreSaid said bytes.old.items → AreSaid (said ++ update_notice schema.now.description.tables link.now ∷ []) bytes.new.items) }
    ensures told { OnOk result (IsTold schema.now.description.tables link.now) }
{
    let notice = update_notice(alloc, schema, link)?;
    say(alloc, bytes, &notice)
}

// Says an update for each of these links.
fn say_updates(
    alloc: Global,
    schema: &Schema,
    bytes: &mut Vec<u8>,
    links: &[Link],
) -> Result<(), StreamCaseError>
    requires tables { All (IsOfTables schema.now.description.tables) links.now }
    ensures more { OnOk result ((said : List Message) → AreSaid said bytes.old.items → AreSaid (said ++ map (update_notice schema.now.description.tables) links.now) bytes.new.items) }
    ensures told { OnOk result (AllByRecursion (IsTold schema.now.description.tables) links.now) }
{
    for link in links {
        say_update(alloc, schema, bytes, link)?;
    }
    Ok(())
}

// Says where the updates go on, and then one for each of these links.
fn say_all(
    alloc: Global,
    schema: &Schema,
    bytes: &mut Vec<u8>,
    is_known: bool,
    id: TxnId,
    links: &[Link],
) -> Result<(), StreamCaseError>
    requires tables { All (IsOfTables schema.now.description.tables) links.now }
    ensures more { OnOk result ((said : List Message) → AreSaid said bytes.old.items → AreSaid (said ++ place_reply is_known id ∷ map (update_notice schema.now.description.tables) links.now) bytes.new.items) }
    ensures told { OnOk result ((read_id (id_text id) ≡ Some id) × AllByRecursion (IsTold schema.now.description.tables) links.now) }
{
    say_place(alloc, bytes, is_known, id)?;
    say_updates(alloc, schema, bytes, links)
}

// Says where the updates go on for a relay that asked for what comes after this id, and then the updates.
fn say_from(
    alloc: Global,
    schema: &Schema,
    bytes: &mut Vec<u8>,
    links: &[Link],
    asked: TxnId,
    place: Option<usize>,
) -> Result<(), StreamCaseError>
    requires tables { All (IsOfTables schema.now.description.tables) links.now }
    requires start { start_of links.now ≡ 0 }
    requires place { IsPlaceOf links.now asked place }
    ensures more { OnOk result ((said : List Message) → AreSaid said bytes.old.items → AreSaid (said ++ told_from schema.now links.now asked place) bytes.new.items) }
    ensures lawful { OnOk result (LawfulAsked schema.now.description.tables links.now asked (map talk_of (told_from schema.now links.now asked place))) }
{
    match place {
        Some(place) => say_all(alloc, schema, bytes, true, asked, &links[place..]),
        None => say_all(alloc, schema, bytes, false, TxnId::zero(), links),
    }
}

/// All that a source with these links says to a relay that asked for what comes after an id.
///
/// # Errors
/// `TooLarge` where a link makes a message above the limits of one, and `NoMemory`.
pub(crate) fn session_bytes(
    alloc: Global,
    schema: &Schema,
    links: &[Link],
    asked: TxnId,
) -> Result<Vec<u8>, StreamCaseError>
    requires tables { All (IsOfTables schema.now.description.tables) links.now }
    requires start { start_of links.now ≡ 0 }
    ensures session { IfOk result (λ bytes. IsSession schema.now links.now asked bytes.items) }
{
    let mut bytes = Vec::new(alloc);
    say_schema(alloc, &mut bytes, schema)?;
    let place = place_of(links, asked);
    say_from(alloc, schema, &mut bytes, links, asked, place)?;
    Ok(bytes)
}
