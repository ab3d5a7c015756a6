//! The threads of a node's upstreams.

ghost use Rattle.std.specs.Prelude.{◌≡◌, true, IfOk};
ghost use Rattle.ovs_links.specs.Absorbing.{folded_by};
ghost use Rattle.ovs_links.specs.StepChains.{head_after_steps};
ghost use Rattle.ovs_node_threads.specs.Lines.{AdmitsIn, session_at};

use crate::connector::Connector;
use crate::epoch_handler::EpochHandler;
use crate::feed_sink::FeedSink;
use crate::folded_count::FoldedCount;
use crate::serving::Feeds;
use crate::upstream_sender::UpstreamSender;
use crate::upstream_sink::UpstreamSink;
use ovs_follow::{InputFault, UpstreamEnd, UpstreamHandler, follow_upstream};
use ovs_node::NodeLink;
use ovs_rows::Database;
use ovs_session::{Ended, Limits};
use ovs_sync::feed::{FeedName, FeedQueue};
use ovs_types::{NoMemory, Schema, TxnId};
use ovs_upstream::UpSession;
use ovs_views::{Board, NodeName, View, ViewError, teach};
use ovs_wire::Counted;
use std::alloc::Global;
use std::sync::{Mutex, Wait};

// How many turns a session with an upstream has: as many as there can be. A session that ends loses the requests that are open,
// and a busy one would come to the end of fewer.
const TURNS: u32 = u32::MAX;

/// What follows an upstream: what it sends with, where its connections come from, and the desk's handler, which has a desk where the
/// upstream is the source.
#[derive(Drop)]
pub struct Upstream<K: NodeName, Q: FeedName, C: Connector + Drop, D: UpstreamHandler + Drop> {
    /// What it sends with.
    pub sender: UpstreamSender<K, Q, C>,
    /// Where its connections come from.
    pub connector: C,
    /// The desk's handler.
    pub source: D,
}

/// What the threads of upstreams share.
#[derive(Drop)]
pub(crate) struct UpstreamFeeds<'a, K: NodeName, Q: FeedName, R: Wait> {
    pub(crate) rt: &'a R,
    pub(crate) alloc: Global,
    pub(crate) schema: &'a Schema,
    pub(crate) queue: &'a FeedQueue<NodeLink<K>, Q>,
    pub(crate) board: &'a Mutex<Board<K>>,
    pub(crate) counts: &'a FoldedCount,
    pub(crate) limits: Limits,
    pub ghost schema_is: { schema.now ≡ K.schema },
}

// What is left of one session.
#[derive(Drop)]
struct SessionEnd<K: NodeName, Q: FeedName, C: Connector, D: UpstreamHandler + Drop> {
    sender: UpstreamSender<K, Q, C>,
    // How it ended, if there was one, and what was wrong with what the upstream said.
    ended: Option<(Ended, Option<InputFault>)>,
    source: D,
}

// A session that is to be had over the next connection: where the node's chain begins, the id that is asked, and the session.
#[derive(Drop)]
struct NextSession {
    start: TxnId,
    asked: TxnId,
    up: UpSession,
}

impl<'a, K: NodeName, Q: FeedName, R: Wait> UpstreamFeeds<'a, K, Q, R> {
    // A session that asks for what comes after an id, at which the node's database is this, and goes on from a whole copy, unless nothing was
    // folded yet.
    fn resumed(&self, database: Database, asked: TxnId) -> Result<UpSession, NoMemory>
        requires schema { database.schema ≡ K.schema }
        ensures value { IfOk result (λ up. up ≡ session_at true database asked) }
    {
        if asked == TxnId::zero() {
            UpSession::open(self.alloc, self.schema, asked)
        } else {
            UpSession::resume(self.alloc, database, asked)
        }
    }

    // The session to be had over the next connection: it asks for what comes after what the view shows.
    fn next_session(&self, resyncs: bool, view: &mut View<K>) -> Result<NextSession, ViewError>
        ensures asked { IfOk result (λ next. next.asked ≡ head_after_steps 0 (folded_by K.schema view.new).steps) }
        ensures session { IfOk result (λ next. next.up ≡ session_at resyncs (folded_by K.schema view.new).database next.asked) }
    {
        if resyncs {
            let shown = view.copied(self.alloc)?;
            let (start, asked) = (shown.start, shown.head);
            let up = self.resumed(shown.database, asked)?;
            return Ok(NextSession { start, asked, up });
        }
        let (start, asked) = view.ends()?;
        let up = UpSession::open(self.alloc, self.schema, asked)?;
        Ok(NextSession { start, asked, up })
    }

    // Follows one connection of this connector in this session.
    fn follow<C: Connector + Drop, D: UpstreamHandler + Drop>(
        &self,
        up: UpSession,
        connector: &C,
        connection: (C::In, C::Out),
        sender: UpstreamSender<K, Q, C>,
        source: EpochHandler<'_, K, D>,
    ) -> SessionEnd<K, Q, C, D>
        requires schema { up.schema ≡ K.schema }
        requires lawful { AdmitsIn C.admits up (C.In.remaining connection.0) }
    {
        let (reader, writer) = connection;
        let (mut reader, mut writer) = (Counted::new(reader), Counted::new(writer));
        let feed = FeedSink::new(self.rt, self.queue, self.counts, sender.into_end());
        let sink = UpstreamSink::new(self.alloc, self.schema, connector, feed);
        let followed = follow_upstream(
            self.alloc,
            up,
            sink,
            source,
            &mut reader,
            &mut writer,
            connector.most_bytes(),
            self.limits,
            TURNS,
        );
        let UpstreamEnd {
            sink,
            source,
            counts: _,
            ended,
            fault,
            made: _,
        } = followed;
        SessionEnd {
            sender: UpstreamSender::again(sink.into_end()),
            ended: Some((ended, fault)),
            source: source.into_handler(),
        }
    }

    // The next connection, if it can be had, which is asked for what comes after what the node has folded, once the folder is done
    // with all that those before sent.
    fn follow_next<C: Connector + Drop, D: UpstreamHandler + Drop>(
        &self,
        connector: &mut C,
        view: &mut View<K>,
        back: SessionEnd<K, Q, C, D>,
    ) -> SessionEnd<K, Q, C, D> {
        self.counts.wait_for_sent(self.rt);
        teach(self.rt, self.board, view);
        let Ok(next) = self.next_session(connector.resyncs(), view) else {
            return back;
        };
        let NextSession { start, asked, up } = next;
        let Some(connection) = connector.open(asked) else {
            return back;
        };
        let side = EpochHandler::new(back.source, view, start);
        let back = self.follow(up, connector, connection, back.sender, side);
        if let Some((ended, fault)) = back.ended {
            connector.lost(ended, fault);
        }
        back
    }
}

impl<'a, K: NodeName, Q: FeedName, R: Wait, C: Connector + Drop, D: UpstreamHandler + Drop> Feeds<
    K,
    Upstream<K, Q, C, D>,
    UpstreamSender<K, Q, C>,
> for UpstreamFeeds<'a, K, Q, R> {
    // All connections with an upstream, one after another.
    fn feed(&self, upstream: Upstream<K, Q, C, D>, view: &mut View<K>) -> UpstreamSender<K, Q, C> {
        let Upstream {
            sender,
            mut connector,
            source,
        } = upstream;
        let mut back = SessionEnd {
            sender,
            ended: None,
            source,
        };
        for _ in self.rt.forever() {
            if !connector.next() {
                break;
            }
            back = self.follow_next(&mut connector, view, back);
        }
        back.sender
    }

    fn refuse(&self, upstream: Upstream<K, Q, C, D>) -> UpstreamSender<K, Q, C> {
        upstream.sender
    }
}
