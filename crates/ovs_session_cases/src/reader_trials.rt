//! A reader's session with a relay, whose source is stood in for, over devices that fail.

use crate::devices::{
    DeviceExchange, Giving, Manner, TakingDevice, called_of_reader, called_of_writer,
};
use crate::session_case_error::SessionCaseError;
use crate::stand_in::{StandIn, WHO, is_quiet};
use crate::talks::TrialTalk;
use crate::trials::{Trial, TrialOutcome, kind_of, tried};
use ovs_case_lines::list_in;
use ovs_desk::RelayDesk;
use ovs_json::Text;
use ovs_node::{NodeName, View};
use ovs_service::{Client, NodeService, Unshared};
use ovs_session::{Ended, Limits, Session, TurnProgress, turn};
use ovs_wire::Counted;
use ovs_worker::{AcceptingHost, SessionHost};
use serde_json::Value;
use std::alloc::Global;
use std::io::ErrorKind;
use std::sync::Arc;

const LIMITS: Limits = Limits {
    most_unsent: 65_536,
    messages: 64,
};

// So many turns a session has at most, and is idle so many times at most, one after another.
const MOST_TURNS: u32 = 4_000;

const MOST_IDLE: u32 = 8;

/// `[KIND, PIECE, PARTS, ANSWERS]`: how calls fail, how many bytes pass at one, what is said, and what the source answers.
#[derive(Clone, Copy)]
pub(crate) struct Scene<'a> {
    pub(crate) kind: &'a Value,
    pub(crate) piece: usize,
    pub(crate) parts: &'a Value,
    pub(crate) answers: &'a Value,
}

// A relay's service between two turns, while its desk is its source's.
#[derive(Drop)]
struct AtRest<K: NodeName> {
    view: View<K>,
    desk: RelayDesk,
}

// A relay that serves one reader.
#[derive(Drop)]
struct Relay<K: NodeName> {
    rest: Option<AtRest<K>>,
}

impl<K: NodeName> Relay<K> {
    // Its source is found.
    fn new(alloc: Global, view: View<K>) -> Result<Relay<K>, SessionCaseError> {
        let mut desk = RelayDesk::new(alloc, Text::new(alloc, "net")?);
        desk.found_source();
        Ok(Relay {
            rest: Some(AtRest { view, desk }),
        })
    }

    fn into_view(self) -> Result<View<K>, SessionCaseError> {
        Ok(self.rest.ok_or(SessionCaseError::NoView)?.view)
    }

    // The source takes up what goes up from its desk. Whether something does.
    fn ask_source(
        &mut self,
        alloc: Global,
        source: &mut StandIn,
    ) -> Result<bool, SessionCaseError> {
        match &mut self.rest {
            Some(rest) => source.take_all(alloc, &mut rest.desk),
            None => Err(SessionCaseError::NoView),
        }
    }

    // Whether its desk is quiet, once the source has answered all that is open.
    fn is_quiet(&mut self, alloc: Global, source: &StandIn) -> Result<bool, SessionCaseError> {
        match &mut self.rest {
            Some(rest) => {
                source.answer_open(&mut rest.desk)?;
                is_quiet(alloc, &mut rest.desk)
            }
            None => Err(SessionCaseError::NoView),
        }
    }

    fn serve(
        &mut self,
        alloc: Global,
    ) -> Result<NodeService<K, Unshared<RelayDesk>>, SessionCaseError> {
        let AtRest { view, desk } = self.rest.take().ok_or(SessionCaseError::NoView)?;
        Ok(NodeService::new(alloc, view, Unshared::new(desk), WHO as usize))
    }

    fn lay(&mut self, service: NodeService<K, Unshared<RelayDesk>>) {
        let (view, desk) = service.into_parts();
        let desk = desk.into_inner();
        self.rest = Some(AtRest { view, desk });
    }

    // A new reader.
    fn client(&mut self, alloc: Global) -> Result<Client<K>, SessionCaseError> {
        let mut service = self.serve(alloc)?;
        let client = service.begin();
        self.lay(service);
        client.ok_or(SessionCaseError::NoView)
    }

    // A turn of its session.
    fn turn(
        &mut self,
        alloc: Global,
        session: &mut Session<Client<K>>,
        reader: &mut Counted<Giving>,
        writer: &mut Counted<TakingDevice>,
    ) -> Result<Result<TurnProgress, Ended>, SessionCaseError> {
        let mut service = self.serve(alloc)?;
        let turned = turn(session, &mut service, reader, writer, LIMITS);
        self.lay(service);
        Ok(turned)
    }

    // Its end.
    fn end(&mut self, alloc: Global, session: &Session<Client<K>>) -> Result<(), SessionCaseError> {
        let mut service = self.serve(alloc)?;
        service.end(session.state());
        self.lay(service);
        Ok(())
    }
}

// How often a session was idle, one time after another, after a turn that answered this.
fn idle_after(idle: u32, progress: TurnProgress) -> u32 {
    match progress {
        TurnProgress::Idle => idle.saturating_add(1),
        TurnProgress::Busy => 0,
    }
}

// Serves a session until it ends, or can do nothing more: then it has no end. Where it waits for the source, that answers.
fn serve_session<K: NodeName>(
    alloc: Global,
    relay: &mut Relay<K>,
    session: &mut Session<Client<K>>,
    source: &mut StandIn,
    exchange: &DeviceExchange,
    reader: &mut Counted<Giving>,
    writer: &mut Counted<TakingDevice>,
) -> Result<Option<Ended>, SessionCaseError> {
    let mut idle = 0;
    for _turned in 0..MOST_TURNS {
        let progress = match relay.turn(alloc, session, reader, writer)? {
            Ok(progress) => progress,
            Err(ended) => return Ok(Some(ended)),
        };
        idle = idle_after(idle, progress);
        if exchange.is_waiting() && relay.ask_source(alloc, source)? {
            idle = 0;
        }
        if idle >= MOST_IDLE {
            return Ok(None);
        }
        if progress == TurnProgress::Idle {
            session.note_ready(false);
        }
    }
    Ok(Some(Ended::TurnsSpent))
}

// A session from one end to the other.
fn run_session<K: NodeName>(
    alloc: Global,
    relay: &mut Relay<K>,
    talk: &TrialTalk,
    answers: &[Value],
    manner: Manner,
) -> Result<TrialOutcome, SessionCaseError> {
    let exchange = Arc::new(alloc, DeviceExchange::new())?;
    let parts = talk.parts.as_slice();
    let mut reader = Counted::new(Giving::new(alloc, parts, manner, exchange.clone()?));
    let mut writer = Counted::new(TakingDevice::new(alloc, manner, exchange.clone()?));
    let mut source = StandIn::new(alloc, answers);
    let mut session = Session::new(alloc, relay.client(alloc)?);
    session.read_when_told();
    let ended = serve_session(
        alloc,
        relay,
        &mut session,
        &mut source,
        &exchange,
        &mut reader,
        &mut writer,
    )?;
    relay.end(alloc, &session)?;
    let (written, writes) = called_of_writer(writer);
    Ok(TrialOutcome {
        ended,
        written,
        links: Vec::new(alloc),
        reads: called_of_reader(reader),
        writes,
        is_quiet: relay.is_quiet(alloc, &source)?,
    })
}

// A reader who says this to a relay.
#[derive(Drop)]
struct ReaderTrial<'a, K: NodeName> {
    view: Option<View<K>>,
    talk: &'a TrialTalk,
    answers: &'a [Value],
}

impl<'a, K: NodeName> Trial for ReaderTrial<'a, K> {
    fn run(&mut self, alloc: Global, manner: Manner) -> Result<TrialOutcome, SessionCaseError> {
        let view = self.view.take().ok_or(SessionCaseError::NoView)?;
        let mut relay = Relay::new(alloc, view)?;
        let outcome = run_session(alloc, &mut relay, self.talk, self.answers, manner)?;
        self.view = Some(relay.into_view()?);
        Ok(outcome)
    }

    fn wanted(&self) -> &str {
        self.talk.wanted.as_str()
    }
}

/// What comes of the scene, by this view of what the relay publishes.
pub(crate) fn told<K: NodeName>(
    alloc: Global,
    view: View<K>,
    scene: Scene,
) -> Result<String, SessionCaseError> {
    if scene.piece == 0 {
        return Err(SessionCaseError::Malformed);
    }
    let kind: ErrorKind = kind_of(scene.kind)?;
    let talk = TrialTalk::read(alloc, scene.parts)?;
    let answers = list_in(scene.answers)?;
    let mut trial = ReaderTrial {
        view: Some(view),
        talk: &talk,
        answers,
    };
    tried(alloc, &mut trial, scene.piece, kind)
}
