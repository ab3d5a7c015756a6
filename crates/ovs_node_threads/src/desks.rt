//! What the threads of a node call its desk by.

ghost use Rattle.std.specs.Prelude.{◌≡◌, [], Some, None, IfSome, option_map, ⊤};
ghost use Rattle.ovs_authority.specs.declared.ask.Ask.{Ask};
ghost use Rattle.ovs_service.specs.Replies.{seen_ask};
ghost use Rattle.ovs_node_threads.specs.Handing.{IsCalled};

use crate::folding::wake_all;
use crate::progress::Progress;
use crate::shared_authority::{KnownDesk, SharedAuthority, SharedForwarder};
use ovs_authority::{Ask, Verb};
use ovs_desk::{BadReply, SourceMessage};
use ovs_follow::{HandlerCall, UpstreamHandler, note_found, note_heard, note_taken};
use ovs_json::{NoMemory, SessionId};
use ovs_service::{ServiceAuthority, SessionToken, copy_ask, worker_of};
use ovs_sync::history::GhostList;
use ovs_types::TxnId;
use ovs_views::{NodeName, View, ViewError, ViewSession};
use ovs_wire::Message;
use ovs_worker::Wake;
use std::alloc::Global;
use std::snapshot::Snapshot;

/// The desk that passes requests on to the source, with what wakes the workers whose sessions are owed something.
#[derive(Drop)]
pub struct ForwardingDesk<'a, L: SharedForwarder, B: Wake> {
    /// The desk.
    pub desk: &'a L,
    /// What wakes the workers.
    pub wakers: &'a [B],
    /// How far the folder has come, where the node has no other upstream.
    pub progress: Option<&'a Progress>,
}

/// The desk as a worker asks it. What is asked wakes the thread that passes it on, or that sends the links which come of it; and
/// what may make notices due to other sessions wakes all workers.
#[derive(Drop)]
pub(crate) struct SharedDesk<'a, L: KnownDesk, U: Wake, B: Wake> {
    desk: &'a L,
    uplink_waker: &'a U,
    wakers: &'a [B],
    progress: &'a Progress,
    // Of the calls on the desk, those up to the last one of this worker.
    known: L::Known,
    // The sessions that it ended.
    ended: GhostList<SessionId>,
}

impl<'a, L: KnownDesk, U: Wake, B: Wake> SharedDesk<'a, L, U, B> {
    /// Nobody asked yet.
    pub(crate) fn new(
        desk: &'a L,
        uplink_waker: &'a U,
        wakers: &'a [B],
        progress: &'a Progress,
    ) -> SharedDesk<'a, L, U, B>
        ensures none { result.ended ≡ [] }
    {
        SharedDesk {
            desk,
            uplink_waker,
            wakers,
            progress,
            known: desk.known(),
            ended: GhostList::new(),
        }
    }
}

impl<'a, K: NodeName, L: SharedAuthority<K>, U: Wake, B: Wake> ServiceAuthority<K>
    for SharedDesk<'a, L, U, B> {
    // What is asked is an equal copy.
    ghost replies = { λ session_id ask r. (copy : Ask) × (seen_ask copy ≡ seen_ask ask) × L.replies session_id copy r };

    ghost owes = { λ held session_id steps m. L.owes held session_id steps m };

    ghost ended = { λ desk. desk.ended };

    fn ask(
        &mut self,
        alloc: Global,
        token: &mut SessionToken,
        ask: &Ask,
    ) -> Result<Option<Message>, NoMemory> {
        let copy = copy_ask(ask)?;
        let reply = self
            .desk
            .ask(alloc, token.session_id(), copy, &mut self.known)?;
        token.note_asked(ask, &reply);
        self.uplink_waker.wake();
        // The lock has another owner then.
        if matches!(ask.verb, Verb::Steal(_) | Verb::Unlock(_)) {
            wake_all(self.wakers);
        }
        Ok(reply)
    }

    fn holds_back(&self) -> bool {
        !self.progress.has_refused()
    }

    fn collect(
        &mut self,
        alloc: Global,
        token: &mut SessionToken,
        is_held_back: bool,
        view: &mut View<K>,
        session: &ViewSession<K>,
    ) -> Result<Option<Message>, ViewError> {
        let session_id = token.session_id();
        let message = self.desk.collect(
            alloc,
            session_id,
            is_held_back,
            view,
            session,
            &mut self.known,
        )?;
        token.note_collected(is_held_back, &message);
        Ok(message)
    }

    fn end_session(&mut self, token: &SessionToken) {
        let session_id = token.session_id();
        self.desk.end_session(session_id, &mut self.known);
        self.ended.push(&session_id);
        // Others may wait for a lock that it had.
        if token.has_locks() {
            self.uplink_waker.wake();
            wake_all(self.wakers);
        }
    }
}

// Where an answer stands, if it is one.
fn standing_of(message: &SourceMessage) -> Option<TxnId> {
    match message {
        SourceMessage::ReplyFor { answer, .. } => Some(answer.standing),
        _ => None,
    }
}

// The desk, and of the calls on it those up to the last one of this thread.
#[derive(Drop)]
pub(crate) struct KnownForwarder<'a, L: SharedForwarder> {
    pub(crate) desk: &'a L,
    known: L::Known,
}

/// The desk as the thread of the upstream sees it that is the source. That of another upstream's thread has no desk: nothing is
/// passed on, and what comes aside is let go.
#[derive(Drop)]
pub struct SharedUpstreamHandler<'a, L: SharedForwarder, B: Wake> {
    alloc: Global,
    uplink: Option<KnownForwarder<'a, L>>,
    // What wakes the workers, whose sessions may be owed something then.
    wakers: &'a [B],
    // How far the folder has come, where no other upstream sends it links.
    progress: Option<&'a Progress>,
}

impl<'a, L: SharedForwarder, B: Wake> SharedUpstreamHandler<'a, L, B> {
    /// The handler of this desk, or that of an upstream that isn't the source.
    pub fn new(
        alloc: Global,
        source: Option<ForwardingDesk<'a, L, B>>,
    ) -> SharedUpstreamHandler<'a, L, B>
        ensures desk { option_map (λ (up : _). up.desk) result.uplink ≡ option_map (λ (s : _). s.desk) source.entry }
        ensures wakers { IfSome source.entry (λ s. result.wakers ≡ s.wakers) }
    {
        let Some(
            ForwardingDesk {
                desk,
                wakers,
                progress,
            },
        ) = source
        else {
            return SharedUpstreamHandler {
                alloc,
                uplink: None,
                wakers: &[],
                progress: None,
            };
        };
        let known = desk.known();
        SharedUpstreamHandler {
            alloc,
            uplink: Some(KnownForwarder { desk, known }),
            wakers,
            progress,
        }
    }

    // Whether the folder is still to publish the commit that an answer stands for, and to wake all workers then. Where several
    // upstreams send links, or one was refused, that isn't known; and what stands where a chain begins is no commit.
    fn is_to_be_published(&self, standing: Option<TxnId>) -> bool {
        match (self.progress, standing) {
            (Some(progress), Some(id)) if !id.is_start() => {
                !progress.has_refused() && !progress.may_be_head(id)
            }
            _ => false,
        }
    }

    // Wakes the worker whose session is owed an answer, or all where it isn't known whose it is. It is called once the desk has
    // the answer: so where the commit is published only then, its worker finds the answer when all are woken for the commit.
    fn wake_for(&self, asker: Option<SessionId>, standing: Option<TxnId>) {
        match asker {
            Some(_) if self.is_to_be_published(standing) => {}
            Some(session_id) => match self.wakers.get(worker_of(session_id)) {
                Some(waker) => waker.wake(),
                None => wake_all(self.wakers),
            },
            None => wake_all(self.wakers),
        }
    }
}

impl<'a, L: SharedForwarder, B: Wake> UpstreamHandler for SharedUpstreamHandler<'a, L, B> {
    ghost takes = { λ old m new. IsCalled L.Known (m ≡ None) (λ before after. L.takes before m after) (option_map (λ (up : _). up.known) old.uplink) (option_map (λ (up : _). up.known) new.uplink) };

    ghost hears = { λ old message new. IsCalled L.Known ⊤ (λ before after. L.hears before message after) (option_map (λ (up : _). up.known) old.uplink) (option_map (λ (up : _). up.known) new.uplink) };

    ghost refuses = { λ message. L.refuses message };

    ghost finds = { λ old _ new. IsCalled L.Known ⊤ L.finds (option_map (λ (up : _). up.known) old.uplink) (option_map (λ (up : _). up.known) new.uplink) };

    ghost loses = { λ old new. IsCalled L.Known ⊤ L.loses (option_map (λ (up : _). up.known) old.uplink) (option_map (λ (up : _). up.known) new.uplink) };

    fn next_request(
        &mut self,
        made: &mut GhostList<HandlerCall>,
    ) -> Result<Option<Message>, NoMemory> {
        let taken = match &mut self.uplink {
            Some(up) => up.desk.take_up(self.alloc, &mut up.known)?,
            None => None,
        };
        Ok(note_taken(taken, made))
    }

    fn on_message(
        &mut self,
        message: SourceMessage,
        made: &mut GhostList<HandlerCall>,
    ) -> Result<(), BadReply> {
        let said = Snapshot::of(&message);
        if let Some(up) = &mut self.uplink {
            let standing = standing_of(&message);
            let asker = up.desk.heard(message, &mut up.known)?;
            self.wake_for(asker, standing);
        }
        note_heard(&said, made);
        Ok(())
    }

    fn on_connected(&mut self, from: TxnId, made: &mut GhostList<HandlerCall>) {
        if let Some(up) = &mut self.uplink {
            up.desk.found_source(&mut up.known);
        }
        note_found(from, made);
    }

    fn on_disconnected(&mut self) {
        if let Some(up) = &mut self.uplink {
            up.desk.lost_source(&mut up.known);
            wake_all(self.wakers);
        }
    }
}
