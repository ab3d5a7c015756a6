//! What is known of one session with an upstream.

ghost use Rattle.std.specs.Prelude.{◌≡◌, ◌≤◌, ◌++◌, ◌∷◌, [], ℕ, List, None, true, OnOk, OnErr, length, is_some};
ghost use Rattle.std.specs.Option.{option_to_list};
ghost use Rattle.ovs_links.specs.Sets.{AllOf, IsOfTables};
ghost use Rattle.ovs_links.specs.declared.link.Link.{Link};
ghost use Rattle.ovs_upstream.specs.Hearing.{at_stage};
ghost use Rattle.ovs_upstream.specs.Requests.{schema_request};
ghost use Rattle.ovs_wire.specs.Message.{IsWritten};
ghost use Rattle.ovs_follow.specs.UpstreamState.{UpstreamStateValue, AreWritten, begun, found};
ghost use Rattle.ovs_follow.specs.declared.handler_call.HandlerCall.TheVariants as calls;

use crate::handler_call::HandlerCall;
use crate::link_sink::LinkSink;
use crate::saying::say;
use crate::upstream_handler::UpstreamHandler;
use ovs_desk::{BadReply, SourceMessage};
use ovs_json::NoMemory;
use ovs_links::Link;
use ovs_session::Outbox;
use ovs_sync::history::GhostList;
use ovs_types::TxnId;
use ovs_upstream::{Links, SyncState, UpSession};
use ovs_wire::Message;
use std::alloc::Global;
use std::marker::Model;

/// What is known of one session with an upstream: how far it has come, where its links go, and its calls of the handler of what the
/// source. A contract sees the links that were sent in place of the sink.
#[derive(Drop)]
pub struct UpstreamState<S: LinkSink> {
    up: UpSession,
    has_begun: bool,
    sink: S,
    // A request that was taken up, and for whose text there was no memory.
    waiting: Option<Message>,
    made: GhostList<HandlerCall>,
}

impl<S: LinkSink> Model for UpstreamState<S> {
    ghost use Rattle.ovs_links.specs.Sets.{IsOfTables};
    ghost use Rattle.ovs_links.specs.declared.link.Link.{Link};
    ghost use Rattle.ovs_follow.specs.UpstreamState.{UpstreamStateValue, following_code};

    ghost Value = { UpstreamStateValue };

    ghost coded = { following_code };

    ghost view = { λ f. record { up = f.up; has_begun = f.has_begun; sent = S.sent f.sink; waiting = f.waiting; made = f.made } };

    ghost invariant = { λ f. (l : Link) → IsOfTables f.up.schema.description.tables l → S.takes l };
}

impl<S: LinkSink> UpstreamState<S> {
    /// What is known of a session that has said nothing yet, and sends the links to this sink.
    pub fn new(up: UpSession, sink: S) -> UpstreamState<S>
        requires takes { (l : Link) → IsOfTables up.schema.description.tables l → S.takes l }
        ensures begun { result ≡ begun up (S.sent sink) }
    {
        UpstreamState {
            up,
            has_begun: false,
            sink,
            waiting: None,
            made: GhostList::new(),
        }
    }

    /// The sink, and its calls of the handler, without the session.
    pub fn into_parts(self) -> (S, GhostList<HandlerCall>)
        ensures sent { S.sent result.0 ≡ self.sent }
        ensures made { result.1 ≡ self.made }
    {
        let UpstreamState { sink, made, .. } = self;
        (sink, made)
    }

    /// The session.
    pub(crate) fn up(&self) -> &UpSession
        ensures value { result.now ≡ self.now.up }
    {
        &self.up
    }

    /// Whether the first request was said.
    pub(crate) fn has_begun(&self) -> bool
        ensures value { result ≡ self.now.has_begun }
    {
        self.has_begun
    }

    /// Says the first request. After `NoMemory` nothing has changed.
    pub(crate) fn begin(&mut self, alloc: Global, out: &mut Outbox) -> Result<(), NoMemory>
        ensures ok { OnOk result ((said : List ℕ) × IsWritten (schema_request self.old.up.schema) said × (out.new ≡ out.old ++ said)
            × (self.new ≡ record self.old { has_begun = true })) }
        ensures err { OnErr result ((self.new ≡ self.old) × (out.new ≡ out.old)) }
    {
        let request = self.up.first_requests(alloc)?.remove(0);
        say(alloc, &request, out)?;
        self.has_begun = true;
        Ok(())
    }

    /// Sends the link, where there is one.
    pub(crate) fn send(&mut self, links: Links)
        requires one { length links ≤ 1 }
        requires tables { AllOf (IsOfTables self.old.up.schema.description.tables) links }
        ensures sent { self.new ≡ record self.old { sent = self.old.sent ++ links } }
    {
        let are_of_copy = links.are_of_copy();
        if let Some(link) = links.into_vec().pop() {
            self.sink.send(link, are_of_copy);
        }
    }

    /// Takes up the next request that is to go up, where none waits to be said. After `NoMemory` none was taken.
    pub(crate) fn next_request<D: UpstreamHandler>(
        &mut self,
        source: &mut D,
    ) -> Result<(), NoMemory>
        requires none { self.old.waiting ≡ None }
        ensures taken { OnOk result (self.new ≡ record self.old { waiting = self.new.waiting; made = self.old.made ++ calls.TookUp self.new.waiting ∷ [] }) }
        ensures source { OnOk result (D.takes source.old self.new.waiting source.new) }
        ensures unchanged { OnErr result (self.new ≡ self.old) }
    {
        self.waiting = source.next_request(&mut self.made)?;
        Ok(())
    }

    /// Whether a request waits to be said.
    pub(crate) fn has_waiting(&self) -> bool
        ensures value { result ≡ is_some self.now.waiting }
    {
        self.waiting.is_some()
    }

    /// Says the request that waits, where one does. After `NoMemory` it waits on, and nothing has changed.
    pub(crate) fn say_waiting(&mut self, alloc: Global, out: &mut Outbox) -> Result<(), NoMemory>
        ensures said { OnOk result ((said : List ℕ) × AreWritten (option_to_list self.old.waiting) said × (out.new ≡ out.old ++ said)
            × (self.new ≡ record self.old { waiting = None })) }
        ensures unchanged { OnErr result ((self.new ≡ self.old) × (out.new ≡ out.old)) }
    {
        let Some(message) = &self.waiting else {
            return Ok(());
        };
        say(alloc, message, out)?;
        self.waiting = None;
        Ok(())
    }

    /// Tells the handler what the source says. `BadReply`: it may not say it, and nothing has changed.
    pub(crate) fn tell<D: UpstreamHandler>(
        &mut self,
        source: &mut D,
        message: SourceMessage,
    ) -> Result<(), BadReply>
        ensures told { OnOk result (self.new ≡ record self.old { made = self.old.made ++ calls.Heard message ∷ [] }) }
        ensures source { OnOk result (D.hears source.old message source.new) }
        ensures refused { OnErr result (D.refuses message × (self.new ≡ self.old)) }
    {
        source.on_message(message, &mut self.made)
    }

    /// Tells the handler that it is found, where the answer to the monitor came between these stages: the links of the session
    /// join up from this id.
    pub(crate) fn arrive<D: UpstreamHandler>(
        &mut self,
        source: &mut D,
        before: SyncState,
        after: SyncState,
        from: TxnId,
    )
        ensures found { self.new ≡ record self.old { made = self.old.made ++ found before after from } }
    {
        if let (SyncState::Asking, SyncState::At(_)) = (before, after) {
            source.on_connected(from, &mut self.made);
        }
    }

    /// Goes on to a stage.
    pub(crate) fn go_on(&mut self, stage: SyncState)
        ensures value { self.new ≡ record self.old { up = at_stage self.old.up stage } }
    {
        self.up.go_on(stage);
    }
}
