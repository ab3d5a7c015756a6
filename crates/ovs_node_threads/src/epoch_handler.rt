//! The handler in one session, whose chain may be over at this node.

ghost use Rattle.std.specs.Prelude.{◌≡◌, ℕ};
ghost use Rattle.ovs_node_threads.specs.Epochs.{IsBeginning, begun_from, restood, standing_in};

use ovs_desk::{BadReply, SourceMessage, StandingAnswer};
use ovs_follow::{HandlerCall, UpstreamHandler, note_heard};
use ovs_json::NoMemory;
use ovs_sync::history::GhostList;
use ovs_types::TxnId;
use ovs_views::{NodeName, View};
use ovs_wire::Message;
use std::snapshot::Snapshot;

/// The handler in one session with it. Where the node's chain begins at a greater start than that of which the session
/// tells, none of the latter is ever shown here again: so what the session answers then stands where the node's chain begins.
#[derive(Drop)]
pub(crate) struct EpochHandler<'v, K: NodeName, D: UpstreamHandler + Drop> {
    side: D,
    // By which it sees where the node's chain begins.
    view: &'v mut View<K>,
    // Where the chain begins of which the session tells.
    start: TxnId,
}

impl<'v, K: NodeName, D: UpstreamHandler + Drop> EpochHandler<'v, K, D> {
    /// The handler of a session that asks for what comes after an id of the node's chain, which begins here.
    pub(crate) fn new(side: D, view: &'v mut View<K>, start: TxnId) -> EpochHandler<'v, K, D>
        ensures side { result.side ≡ side }
        ensures start { result.start ≡ start }
    {
        EpochHandler { side, view, start }
    }

    /// The handler alone.
    pub(crate) fn into_handler(self) -> D
        ensures side { result ≡ self.entry.side }
    {
        let EpochHandler { side, .. } = self;
        side
    }

    // The id at which an answer stands that the session heard.
    fn standing_in(&mut self, standing: TxnId) -> TxnId
        ensures value { (begins : ℕ) × IsBeginning K.schema self.new.view.now begins × (result ≡ standing_in self.old.start begins standing) }
        ensures side { self.new.side ≡ self.old.side }
        ensures start { self.new.start ≡ self.old.start }
    {
        match self.view.ends() {
            Ok((begins, _head)) if u128::from(self.start) < u128::from(begins) => begins,
            _ => standing,
        }
    }

    // The message that the session heard, with the id at which it stands here where it is an answer.
    fn restood(&mut self, message: SourceMessage) -> SourceMessage
        ensures value { (begins : ℕ) × IsBeginning K.schema self.new.view.now begins × (result ≡ restood self.old.start begins message) }
        ensures side { self.new.side ≡ self.old.side }
        ensures start { self.new.start ≡ self.old.start }
    {
        match message {
            SourceMessage::ReplyFor { number, answer } => {
                let StandingAnswer { answer, standing } = answer;
                let standing = self.standing_in(standing);
                let answer = StandingAnswer { answer, standing };
                SourceMessage::ReplyFor { number, answer }
            }
            aside => aside,
        }
    }
}

impl<'v, K: NodeName, D: UpstreamHandler + Drop> UpstreamHandler for EpochHandler<'v, K, D> {
    ghost takes = { λ old m new. D.takes old.side m new.side };

    ghost hears = { λ old message new. (begins : ℕ) × IsBeginning K.schema new.view.now begins × D.hears old.side (restood old.start begins message) new.side };

    ghost finds = { λ old from new. D.finds old.side from new.side × (new.start ≡ begun_from old.start from) };

    ghost refuses = { λ message. (start begins : ℕ) × D.refuses (restood start begins message) };

    ghost loses = { λ old new. D.loses old.side new.side };

    fn next_request(
        &mut self,
        made: &mut GhostList<HandlerCall>,
    ) -> Result<Option<Message>, NoMemory> {
        self.side.next_request(made)
    }

    fn on_message(
        &mut self,
        message: SourceMessage,
        made: &mut GhostList<HandlerCall>,
    ) -> Result<(), BadReply> {
        let said = Snapshot::of(&message);
        let message = self.restood(message);
        // That of the handler itself is told the answer where it stands here.
        self.side.on_message(message, &mut GhostList::new())?;
        note_heard(&said, made);
        Ok(())
    }

    // Links that join up from a start are of the chain from there; from the id that was asked, of the node's own.
    fn on_connected(&mut self, from: TxnId, made: &mut GhostList<HandlerCall>) {
        if from.is_start() {
            self.start = from;
        }
        self.side.on_connected(from, made);
    }

    fn on_disconnected(&mut self) {
        self.side.on_disconnected();
    }
}
