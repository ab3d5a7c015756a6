//! A relay's session with its source over devices that fail, with a desk at which a transaction and a lock were asked for.

use crate::devices::{
    DeviceExchange, Giving, Manner, TakingDevice, called_of_reader, called_of_writer,
};
use crate::session_case_error::SessionCaseError;
use crate::stand_in::{WHO, ask_for_lock, is_quiet};
use crate::talks::TrialTalk;
use crate::trials::{Trial, TrialOutcome, kind_of, tried};
use ovs_authority::{Ask, Authority, Verb};
use ovs_case_lines::{commit_in, count_in};
use ovs_desk::{BadReply, RelayDesk, SourceMessage};
use ovs_follow::{
    HandlerCall, LinkSink, UpstreamEnd, UpstreamHandler, follow_upstream, note_found, note_heard,
    note_taken,
};
use ovs_json::{NoMemory, Text};
use ovs_links::Link;
use ovs_session::Limits;
use ovs_sync::history::GhostList;
use ovs_types::{Schema, TxnId};
use ovs_upstream::UpSession;
use ovs_wire::{Counted, Id, MAX_MESSAGE_BYTES, Message};
use serde_json::Value;
use std::alloc::Global;
use std::snapshot::Snapshot;
use std::sync::Arc;

const LIMITS: Limits = Limits {
    most_unsent: 65_536,
    messages: 64,
};

// So many turns a session has at most.
const MOST_TURNS: u32 = 4_000;

// So many messages are collected at the desk at most.
const MOST_COLLECTED: u32 = 64;

// Takes links, and keeps them.
#[derive(Drop)]
struct Keeping {
    links: Vec<Link>,
    // There was no memory for one.
    is_short: bool,
    sent: GhostList<Link>,
    exchange: Arc<DeviceExchange>,
}

impl Keeping {
    fn new(alloc: Global, exchange: Arc<DeviceExchange>) -> Keeping {
        Keeping {
            links: Vec::new(alloc),
            is_short: false,
            sent: GhostList::new(),
            exchange,
        }
    }
}

impl LinkSink for Keeping {
    ghost takes = { λ _. Unit {0} };

    ghost sent = { λ keeping. keeping.sent };

    fn send(&mut self, link: Link, _is_of_copy: bool) {
        self.sent.push(&link);
        self.exchange.note_link();
        self.is_short |= self.links.push(link).is_err();
    }
}

// A relay's desk as a handler.
#[derive(Drop)]
struct DeskSide {
    alloc: Global,
    desk: RelayDesk,
}

impl UpstreamHandler for DeskSide {
    ghost takes = { λ _ _ _. Unit {0} };

    ghost hears = { λ _ _ _. Unit {0} };

    ghost refuses = { λ _. Unit {0} };

    ghost finds = { λ _ _ _. Unit {0} };

    ghost loses = { λ _ _. Unit {0} };

    fn next_request(
        &mut self,
        made: &mut GhostList<HandlerCall>,
    ) -> Result<Option<Message>, NoMemory> {
        let taken = self.desk.take_up(self.alloc)?;
        Ok(note_taken(taken, made))
    }

    fn on_message(
        &mut self,
        message: SourceMessage,
        made: &mut GhostList<HandlerCall>,
    ) -> Result<(), BadReply> {
        let said = Snapshot::of(&message);
        self.desk.heard(message)?;
        note_heard(&said, made);
        Ok(())
    }

    fn on_connected(&mut self, from: TxnId, made: &mut GhostList<HandlerCall>) {
        self.desk.found_source();
        note_found(from, made);
    }

    fn on_disconnected(&mut self) {
        self.desk.lost_source();
    }
}

// A desk at which a session asked for a transaction and for the lock.
fn asked_desk(alloc: Global, operations: &Value) -> Result<RelayDesk, SessionCaseError> {
    let operations = operations.as_array().ok_or(SessionCaseError::Malformed)?;
    let ask = Ask {
        id: Id::from_number(1),
        verb: Verb::Transact(operations.clone()?),
    };
    let mut desk = RelayDesk::new(alloc, Text::new(alloc, "net")?);
    desk.ask(alloc, WHO, ask)?;
    ask_for_lock(alloc, &mut desk, WHO)?;
    Ok(desk)
}

// How many replies the session is owed.
fn replies(alloc: Global, desk: &mut RelayDesk) -> Result<u64, SessionCaseError> {
    let mut replies = 0u64;
    for _collected in 0..MOST_COLLECTED {
        match desk.collect(alloc, WHO)? {
            Some(Message::Reply { .. }) => replies = replies.saturating_add(1),
            Some(_) => {}
            None => break,
        }
    }
    Ok(replies)
}

// Whether the transaction has its one reply, now that the source is lost; and whether the desk is quiet once the session that asked for it
// has ended and there is a source again.
fn is_settled(alloc: Global, side: DeskSide) -> Result<bool, SessionCaseError> {
    let mut desk = side.desk;
    if replies(alloc, &mut desk)? != 1 {
        return Ok(false);
    }
    desk.end_session(WHO);
    desk.found_source();
    is_quiet(alloc, &mut desk)
}

// What a relay is asked and told by its source.
#[derive(Drop)]
struct UpstreamTrial<'a> {
    schema: &'a Schema,
    asked: TxnId,
    operations: &'a Value,
    talk: &'a TrialTalk,
}

// A session from one end to the other.
fn run_session(
    alloc: Global,
    schema: &Schema,
    asked: TxnId,
    operations: &Value,
    talk: &TrialTalk,
    manner: Manner,
) -> Result<TrialOutcome, SessionCaseError> {
    let exchange = Arc::new(alloc, DeviceExchange::new())?;
    let parts = talk.parts.as_slice();
    let mut reader = Counted::new(Giving::new(alloc, parts, manner, exchange.clone()?));
    let mut writer = Counted::new(TakingDevice::new(alloc, manner, exchange.clone()?));
    let side = DeskSide {
        alloc,
        desk: asked_desk(alloc, operations)?,
    };
    let followed = follow_upstream(
        alloc,
        UpSession::open(alloc, schema, asked)?,
        Keeping::new(alloc, exchange),
        side,
        &mut reader,
        &mut writer,
        MAX_MESSAGE_BYTES,
        LIMITS,
        MOST_TURNS,
    );
    let UpstreamEnd {
        sink,
        source,
        ended,
        ..
    } = followed;
    let Keeping {
        links,
        is_short,
        ..
    } = sink;
    if is_short {
        return Err(NoMemory.into());
    }
    let (written, writes) = called_of_writer(writer);
    Ok(TrialOutcome {
        ended: Some(ended),
        written,
        links,
        reads: called_of_reader(reader),
        writes,
        is_quiet: is_settled(alloc, source)?,
    })
}

impl<'a> Trial for UpstreamTrial<'a> {
    fn run(&mut self, alloc: Global, manner: Manner) -> Result<TrialOutcome, SessionCaseError> {
        run_session(
            alloc,
            self.schema,
            self.asked,
            self.operations,
            self.talk,
            manner,
        )
    }

    fn wanted(&self) -> &str {
        self.talk.wanted.as_str()
    }
}

/// `[KIND, PIECE, ASKED, OPERATIONS, PARTS]`: what comes of a session that asks for what comes after this id, with a desk that was asked
/// for a transaction of these operations and for the lock, where the source says these parts.
pub(crate) fn told(
    alloc: Global,
    schema: &Schema,
    parts: &[Value],
) -> Result<String, SessionCaseError> {
    let [kind, piece, asked, operations, parts] = parts else {
        return Err(SessionCaseError::Malformed);
    };
    let piece = count_in(piece)? as usize;
    if piece == 0 {
        return Err(SessionCaseError::Malformed);
    }
    let talk = TrialTalk::read(alloc, parts)?;
    let mut trial = UpstreamTrial {
        schema,
        asked: commit_in(asked)?,
        operations,
        talk: &talk,
    };
    tried(alloc, &mut trial, piece, kind_of(kind)?)
}
