//! A session with an upstream: its messages in, links out.

ghost use Rattle.std.specs.Prelude.{◌≡◌, ◌≢◌, ◌≤◌, ◌^◌, true, false, [], ◌∷◌, None, Some, Ok, Err, IfOk, IfErr, OnOk, OnErr, length, map, nat_le};
ghost use Rattle.serde_json.specs.View.{view};
ghost use Rattle.ovs_json.specs.Gives.{Gives};
ghost use Rattle.ovs_types.specs.SchemaReading.{read_description};
ghost use Rattle.ovs_rows.specs.ChangeReading.{read_change};
ghost use Rattle.ovs_links.specs.Sets.{AllOf, IsOfTables};
ghost use Rattle.ovs_upstream.specs.Talk.{answer_in, schema_said, answer_said, number_said, reply_said, update_in, update_said, notice_said};
ghost use Rattle.ovs_upstream.specs.Requests.{schema_request, CanBeAsked};
ghost use Rattle.ovs_rows.specs.After.{after, fits};
ghost use Rattle.ovs_rows.specs.Change.{IsChangeOf};
ghost use Rattle.ovs_rows.specs.Row.{no_rows};
ghost use Rattle.ovs_upstream.specs.Hearing.{says, change_in, heard, opened, are_ends, made, linked, placed, unmoved, led, resynced, copied, reached, hears_at, hears, opening, resuming, known_at, at_stage, links_in, takes_memory, needs_memory, needs_memory_at};
ghost use Rattle.ovs_upstream.specs.Talk.{Reached};
ghost use Rattle.ovs_upstream.specs.declared.up_session.SyncState.TheVariants as stage;

use crate::error::UpError;
use crate::requests::{monitor_request, schema_request};
use crate::talk::{answer_in, noticed, replied, update_in};
use crate::up_event::{Links, UpEvent};
use ovs_authority::Response;
use ovs_json::{NoMemory, is_empty_object, is_word};
use ovs_links::Link;
use ovs_rows::{ApplyError, Change, Database};
use ovs_types::{Schema, SchemaError, TxnId};
use ovs_wire::{Id, Message};
use serde_json::Value;
use std::alloc::Global;
use std::marker::Model;

// Numbers of requests that were passed on are below it.
const NUMBERS_END: u64 = 1 << 63;

/// How far a session has come.
#[derive(Clone, Copy, Debug)]
pub enum SyncState {
    /// The schema is awaited.
    Opening,
    /// The answer to the monitor is awaited.
    Asking,
    /// All up to the commit of this id was heard, or up to this start id.
    At(TxnId),
    /// It was given up.
    Ended,
}

/// What was heard: the stage after it, and what it comes to.
#[derive(Drop)]
pub struct Heard {
    pub stage: SyncState,
    pub event: UpEvent,
}

fn change_in(alloc: Global, updates: &Value, schema: &Schema) -> Result<Change, UpError>
    ensures exact { Gives UpError.NoMemory (λ c. c) result (change_in (read_change schema.now.description.tables (view updates.now))) }
    ensures tables { IfOk result (IsChangeOf schema.now.description.tables) }
{
    match Change::read(alloc, updates, schema) {
        Ok(change) => Ok(change),
        Err(fault) => Err(UpError::Change(fault.of_value()?)),
    }
}

// The link behind an id, after which the session stands at the link's own.
fn linked(
    alloc: Global,
    schema: &Schema,
    prev: TxnId,
    id: TxnId,
    updates: &Value,
) -> Result<Heard, UpError>
    ensures exact { Gives UpError.NoMemory (λ h. h) result (linked schema.now.description.tables prev id (view updates.now)) }
    ensures memory { result ≡ Err UpError.NoMemory → takes_memory (linked schema.now.description.tables prev id (view updates.now)) ≡ true }
{
    if id.is_start() || id == prev {
        return Err(UpError::BadId);
    }
    let change = change_in(alloc, updates, schema)?;
    made(alloc, prev, id, change, false)
}

// The link to the id of another commit, after which the session stands there, and whether it was made of a whole copy.
fn made(
    alloc: Global,
    prev: TxnId,
    id: TxnId,
    change: Change,
    is_of_copy: bool,
) -> Result<Heard, UpError>
    requires ends { are_ends prev id ≡ true }
    ensures exact { Gives UpError.NoMemory (λ h. h) result (made prev id change) }
{
    match Link::new(prev, id, change) {
        Ok(link) => Ok(Heard {
            stage: SyncState::At(id),
            event: UpEvent::Links(Links::one(alloc, link, is_of_copy)?),
        }),
        Err(_) => Err(UpError::BadId),
    }
}

// Where a whole copy leads that differs so from the database at the id that was asked.
fn led(alloc: Global, asked: TxnId, id: TxnId, difference: Change) -> Result<Heard, UpError>
    requires commit { nat_le (2 ^ 64) id ≡ true }
    ensures exact { Gives UpError.NoMemory (λ h. h) result (led asked id difference) }
{
    if id == asked {
        unmoved(id, &difference)
    } else {
        made(alloc, asked, id, difference, true)
    }
}

// The session stands at the id that was asked, where nothing differs there.
fn unmoved(id: TxnId, difference: &Change) -> Result<Heard, UpError>
    ensures value { result ≡ unmoved id difference.now }
{
    if difference.is_empty() {
        Ok(Heard {
            stage: SyncState::At(id),
            event: UpEvent::Nothing,
        })
    } else {
        Err(UpError::BadId)
    }
}

// The database that these rows alone are, at the commit of this id.
fn whole_copy(
    alloc: Global,
    schema: &Schema,
    rows: &Change,
    id: TxnId,
) -> Result<Database, ApplyError>
    requires tables { IsChangeOf schema.now.description.tables rows.now }
    ensures value { IfOk result (λ d. d ≡ record { schema = schema.now; rows = after schema.now.description.tables no_rows rows.now id }) }
    ensures fit { OnOk result (fits no_rows rows.now ≡ true) }
    ensures unfit { IfErr result (λ e. e ≢ ApplyError.NoMemory → fits no_rows rows.now ≡ false) }
{
    let mut copy = Database::empty(alloc, schema)?;
    match copy.apply(alloc, rows, id) {
        Ok(_) => Ok(copy),
        Err(refusal) => Err(refusal),
    }
}

// What a whole copy comes to, where the database at the id that was asked is known.
fn resynced(
    alloc: Global,
    known: &Database,
    asked: TxnId,
    id: TxnId,
    updates: &Value,
) -> Result<Heard, UpError>
    requires commit { nat_le (2 ^ 64) id ≡ true }
    ensures exact { Gives UpError.NoMemory (λ h. h) result (resynced known.now asked id (view updates.now)) }
{
    let change = change_in(alloc, updates, known.schema())?;
    match whole_copy(alloc, known.schema(), &change, id) {
        Ok(copy) => led(alloc, asked, id, Database::diff(alloc, known, &copy)?),
        Err(ApplyError::NoMemory) => Err(UpError::NoMemory),
        Err(ApplyError::RowThere | ApplyError::NoRow) => {
            made(alloc, TxnId::zero(), id, change, false)
        }
    }
}

fn placed(fits: bool, id: TxnId) -> Result<Heard, UpError>
    ensures value { result ≡ placed fits id }
{
    if fits {
        Ok(Heard {
            stage: SyncState::At(id),
            event: UpEvent::Nothing,
        })
    } else {
        Err(UpError::BadReply)
    }
}

/// A relay's session with one of its upstreams: it follows the upstream's database from an id on, and makes links of what
/// it is told.
#[derive(Drop)]
pub struct UpSession {
    schema: Schema,
    asked: TxnId,
    stage: SyncState,
    // The database at that id, where the session goes on from a whole copy, until the answer has come.
    known: Option<Database>,
}

impl Model for UpSession {
    ghost use Rattle.std.specs.Prelude.{IfSome};
    ghost use Rattle.ovs_upstream.specs.Session.{UpSessionValue, IsDatabaseOf, session_code};

    ghost Value = { UpSessionValue };

    ghost coded = { session_code };

    ghost view = { λ s. record { schema = s.schema; asked = s.asked; stage = s.stage; known = s.known } };

    ghost invariant = { λ s. IfSome s.known (IsDatabaseOf s.schema) };
}

impl UpSession {
    /// A session that asks for what comes after an id, for databases of this schema.
    ///
    /// # Errors
    /// `NoMemory` alone.
    pub fn open(alloc: Global, schema: &Schema, asked: TxnId) -> Result<UpSession, NoMemory>
        ensures value { IfOk result (λ s. s ≡ opening schema.now asked) }
        // The schema's JSON says what the schema says.
        ensures says { IfOk result (λ s. read_description s.schema.json ≡ Ok s.schema.description) }
    {
        Ok(UpSession {
            schema: schema.copy(alloc)?,
            asked,
            stage: SyncState::Opening,
            known: None,
        })
    }

    /// A session that asks for what comes after an id at which its side has this database. Where the upstream doesn't know the id,
    /// and tells a whole copy of its database at another, the session makes one link of the difference between the two, and goes on
    /// from there.
    ///
    /// # Errors
    /// `NoMemory` alone.
    pub fn resume(alloc: Global, database: Database, asked: TxnId) -> Result<UpSession, NoMemory>
        ensures value { IfOk result (λ s. s ≡ resuming database asked) }
        // The schema's JSON says what the schema says.
        ensures says { IfOk result (λ s. read_description s.schema.json ≡ Ok s.schema.description) }
    {
        let mut session = UpSession::open(alloc, database.schema(), asked)?;
        session.known = Some(database);
        Ok(session)
    }

    /// What is sent first: the request for the schema (RFC 7047 section 4.1.2).
    ///
    /// # Errors
    /// `NoMemory` alone.
    pub fn first_requests(&self, alloc: Global) -> Result<Vec<Message>, NoMemory>
        ensures value { IfOk result (λ ms. ms.items ≡ schema_request self.now.schema ∷ []) }
    {
        let mut messages = Vec::with_capacity(alloc, 1)?;
        messages.push_reserved(schema_request(alloc, &self.schema)?);
        Ok(messages)
    }

    /// Takes the next message of the upstream, and tells what it comes to.
    ///
    /// # Errors
    /// The session is ended by each of them, and every later call answers `Ended`:
    /// - `OtherSchema`: the upstream's database hasn't the same schema.
    /// - `BadReply`: a message that may not come, or not yet.
    /// - `BadId`: updates lead to a start id, or to the id at which the session stands.
    /// - `Change`: updates are no change of the schema's tables.
    /// - `NoMemory`.
    pub fn take_message(&mut self, alloc: Global, message: Message) -> Result<UpEvent, UpError>
        ensures heard { IfOk result (λ e. hears self.old message ≡ heard self.new.stage e) }
        ensures refused { (e : UpError) → result ≡ Err e → e ≢ UpError.NoMemory → hears self.old message ≡ Err e }
        // What is found without memory is told without it.
        ensures memory { result ≡ Err UpError.NoMemory → needs_memory self.old message ≡ true }
        // Its links are changes of the schema's tables.
        ensures tables { IfOk result (λ e. AllOf (IsOfTables self.old.schema.description.tables) (links_in e)) }
        ensures same { self.new ≡ at_stage self.old self.new.stage }
        ensures ended { OnErr result (self.new.stage ≡ SyncState.Ended) }
        ensures over { self.old.stage ≡ SyncState.Ended → result ≡ Err UpError.Ended }
        // Where it sends the request for the monitor, each name stands in it once, and the id can be read.
        ensures asked { OnOk result (self.old.stage ≡ SyncState.Opening → self.new.stage ≡ SyncState.Asking → CanBeAsked self.old.schema self.old.asked) }
    {
        match self.hear(alloc, message) {
            Ok(heard) => {
                self.go_on(heard.stage);
                Ok(heard.event)
            }
            Err(error) => {
                self.stage = SyncState::Ended;
                Err(error)
            }
        }
    }

    /// What the next message of the upstream comes to, and how far the session is after it. Nothing is changed: `go_on` goes
    /// there, once what was made of the message was handed on.
    ///
    /// # Errors
    /// Those of `take_message`; `Ended` where the session has ended.
    pub fn hear(&self, alloc: Global, message: Message) -> Result<Heard, UpError>
        ensures exact { Gives UpError.NoMemory (λ h. h) result (hears self.now message) }
        // What is found without memory is told without it.
        ensures memory { result ≡ Err UpError.NoMemory → needs_memory self.now message ≡ true }
        // It makes one link at most, which is a change of the schema's tables.
        ensures tables { IfOk result (λ h. AllOf (IsOfTables self.now.schema.description.tables) (links_in h.event) × (length (links_in h.event) ≤ 1)) }
        // Where it sends the request for the monitor, each name stands in it once, and the id can be read.
        ensures asked { IfOk result (λ h. self.now.stage ≡ SyncState.Opening → h.stage ≡ SyncState.Asking → CanBeAsked self.now.schema self.now.asked) }
        ensures over { self.now.stage ≡ SyncState.Ended → result ≡ Err UpError.Ended }
    {
        if let SyncState::Ended = self.stage {
            return Err(UpError::Ended);
        }
        self.hear_open(alloc, message)
    }

    /// Goes on to what `hear` told.
    pub fn go_on(&mut self, stage: SyncState)
        ensures value { self.new ≡ at_stage self.old stage }
    {
        if let SyncState::At(_) = stage {
            self.known = None;
        }
        self.stage = stage;
    }

    /// How far it has come.
    pub fn stage(&self) -> SyncState
        ensures value { result ≡ self.now.stage }
    {
        self.stage
    }

    fn hear_open(&self, alloc: Global, message: Message) -> Result<Heard, UpError>
        requires open { self.now.stage ≢ SyncState.Ended }
        ensures exact { Gives UpError.NoMemory (λ h. h) result (hears self.now message) }
        ensures memory { result ≡ Err UpError.NoMemory → needs_memory self.now message ≡ true }
        ensures asked { IfOk result (λ h. self.now.stage ≡ SyncState.Opening → h.stage ≡ SyncState.Asking → CanBeAsked self.now.schema self.now.asked) }
    {
        match message {
            Message::Request { method, params, id } => {
                let reply = replied(alloc, method.as_str(), params, id)?;
                Ok(self.aside(UpEvent::Send(reply)))
            }
            Message::Reply { result, error, id } => {
                self.hear_reply(alloc, Response { result, error }, &id)
            }
            Message::Notice { method, params } => {
                self.hear_notice(alloc, method.as_str(), params.as_slice())
            }
        }
    }

    fn aside(&self, event: UpEvent) -> Heard
        ensures value { result ≡ record { stage = self.now.stage; event = event } }
    {
        Heard {
            stage: self.stage,
            event,
        }
    }

    fn hear_notice(&self, alloc: Global, method: &str, params: &[Value]) -> Result<Heard, UpError>
        requires open { self.now.stage ≢ SyncState.Ended }
        ensures exact { Gives UpError.NoMemory (λ h. h) result (hears_at self.now.stage self.now (notice_said method.now (map view params.now))) }
        ensures memory { result ≡ Err UpError.NoMemory → takes_memory (hears_at self.now.stage self.now (notice_said method.now (map view params.now))) ≡ true }
    {
        if method == "update3" {
            self.hear_update(alloc, params)
        } else if method == "update" || method == "update2" {
            Err(UpError::BadReply)
        } else {
            Ok(self.aside(noticed(alloc, method, params)?))
        }
    }

    fn hear_update(&self, alloc: Global, params: &[Value]) -> Result<Heard, UpError>
        requires open { self.now.stage ≢ SyncState.Ended }
        ensures exact { Gives UpError.NoMemory (λ h. h) result (hears_at self.now.stage self.now (update_said (update_in (map view params.now)))) }
        ensures memory { result ≡ Err UpError.NoMemory → takes_memory (hears_at self.now.stage self.now (update_said (update_in (map view params.now)))) ≡ true }
    {
        let Some((id, updates)) = update_in(params) else {
            return Err(UpError::BadReply);
        };
        match self.stage {
            SyncState::At(position) => linked(alloc, &self.schema, position, id, updates),
            _ => Err(UpError::BadReply),
        }
    }

    fn hear_reply(&self, alloc: Global, answer: Response, id: &Id) -> Result<Heard, UpError>
        requires open { self.now.stage ≢ SyncState.Ended }
        ensures exact { Gives UpError.NoMemory (λ h. h) result (hears_at self.now.stage self.now (reply_said answer id.now)) }
        ensures memory { result ≡ Err UpError.NoMemory → needs_memory_at self.now.stage self.now (reply_said answer id.now) ≡ true }
        ensures asked { IfOk result (λ h. self.now.stage ≡ SyncState.Opening → h.stage ≡ SyncState.Asking → CanBeAsked self.now.schema self.now.asked) }
    {
        if is_word("schema", id.as_value()) {
            self.hear_schema(alloc, &answer)
        } else if is_word("monitor", id.as_value()) {
            self.hear_answer(alloc, &answer)
        } else {
            self.hear_number(answer, id.as_number())
        }
    }

    // The answer to a request that was passed on under a number.
    fn hear_number(&self, answer: Response, number: Option<u64>) -> Result<Heard, UpError>
        requires open { self.now.stage ≢ SyncState.Ended }
        ensures value { result ≡ hears_at self.now.stage self.now (number_said answer number) }
    {
        match number {
            Some(number) if number < NUMBERS_END => {
                Ok(self.aside(UpEvent::ReplyFor { number, answer }))
            }
            _ => Err(UpError::BadReply),
        }
    }

    fn hear_schema(&self, alloc: Global, answer: &Response) -> Result<Heard, UpError>
        requires open { self.now.stage ≢ SyncState.Ended }
        ensures exact { Gives UpError.NoMemory (λ h. h) result (hears_at self.now.stage self.now (schema_said answer.now)) }
        ensures memory { result ≡ Err UpError.NoMemory → takes_memory (hears_at self.now.stage self.now (schema_said answer.now)) ≡ true }
        ensures asked { OnOk result (CanBeAsked self.now.schema self.now.asked) }
    {
        match self.stage {
            SyncState::Opening if answer.error.as_value().is_null() => {
                self.opened(alloc, answer.result.as_value())
            }
            _ => Err(UpError::BadReply),
        }
    }

    // Whether JSON says the session's schema.
    fn has_schema(&self, alloc: Global, schema: &Value) -> Result<bool, NoMemory>
        ensures value { IfOk result (λ same. same ≡ says self.now.schema.description (read_description (view schema.now))) }
    {
        match Schema::read(alloc, schema) {
            Ok(schema) => Ok(schema.same(&self.schema)),
            Err(SchemaError::NoMemory) => Err(NoMemory),
            Err(_) => Ok(false),
        }
    }

    // Asks for what comes after the id, where the schema is the same.
    fn opened(&self, alloc: Global, schema: &Value) -> Result<Heard, UpError>
        ensures exact { Gives UpError.NoMemory (λ h. h) result (opened self.now (view schema.now)) }
        ensures memory { result ≡ Err UpError.NoMemory → takes_memory (opened self.now (view schema.now)) ≡ true }
        ensures asked { OnOk result (CanBeAsked self.now.schema self.now.asked) }
    {
        if !self.has_schema(alloc, schema)? {
            return Err(UpError::OtherSchema);
        }
        Ok(Heard {
            stage: SyncState::Asking,
            event: UpEvent::Send(monitor_request(alloc, &self.schema, self.asked)?),
        })
    }

    fn hear_answer(&self, alloc: Global, answer: &Response) -> Result<Heard, UpError>
        requires open { self.now.stage ≢ SyncState.Ended }
        ensures exact { Gives UpError.NoMemory (λ h. h) result (hears_at self.now.stage self.now (answer_said (answer_in answer.now))) }
        ensures memory { result ≡ Err UpError.NoMemory → needs_memory_at self.now.stage self.now (answer_said (answer_in answer.now)) ≡ true }
    {
        let Some((known, id, updates)) = answer_in(answer) else {
            return Err(UpError::BadReply);
        };
        match self.stage {
            SyncState::Asking => self.reached(alloc, known, id, updates),
            _ => Err(UpError::BadReply),
        }
    }

    // Stands where the answer leads.
    fn reached(
        &self,
        alloc: Global,
        known: bool,
        id: TxnId,
        updates: &Value,
    ) -> Result<Heard, UpError>
        ensures exact { Gives UpError.NoMemory (λ h. h) result (reached self.now known id (view updates.now)) }
        ensures memory { result ≡ Err UpError.NoMemory → needs_memory_at stage.Asking self.now (Reached known id (view updates.now)) ≡ true }
    {
        let nothing = is_empty_object(updates);
        if known && id == self.asked {
            placed(nothing, id)
        } else if known {
            linked(alloc, &self.schema, self.asked, id, updates)
        } else if id.is_start() {
            placed(nothing, id)
        } else {
            self.copied(alloc, id, updates)
        }
    }

    // What the whole copy at a commit's id comes to.
    fn copied(&self, alloc: Global, id: TxnId, updates: &Value) -> Result<Heard, UpError>
        requires commit { nat_le (2 ^ 64) id ≡ true }
        ensures exact { Gives UpError.NoMemory (λ h. h) result (copied self.now.known self.now id (view updates.now)) }
        ensures memory { result ≡ Err UpError.NoMemory → self.now.known ≡ None → takes_memory (copied self.now.known self.now id (view updates.now)) ≡ true }
    {
        match &self.known {
            Some(known) => resynced(alloc, known, self.asked, id, updates),
            None => linked(alloc, &self.schema, TxnId::zero(), id, updates),
        }
    }
}
