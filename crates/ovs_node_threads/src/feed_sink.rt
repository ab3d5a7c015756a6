//! The links of an upstream go to the node's feed.

ghost use Rattle.std.specs.Prelude.{◌≡◌};
ghost use Rattle.ovs_links.specs.Sets.{IsOfTables};

use crate::folded_count::FoldedCount;
use ovs_follow::LinkSink;
use ovs_links::Link;
use ovs_node::NodeLink;
use ovs_sync::feed::{FeedEnd, FeedName, FeedQueue};
use ovs_views::NodeName;
use std::sync::Wait;

/// An end of a node's feed, as a session sends its links to it. It waits while the feed is full.
#[derive(Drop)]
pub struct FeedSink<'a, K: NodeName, Q: FeedName, R: Wait> {
    end: FeedEnd<NodeLink<K>, Q>,
    queue: &'a FeedQueue<NodeLink<K>, Q>,
    counts: &'a FoldedCount,
    rt: &'a R,
}

impl<'a, K: NodeName, Q: FeedName, R: Wait> FeedSink<'a, K, Q, R> {
    /// Sends to this end, and counts what is sent.
    pub fn new(
        rt: &'a R,
        queue: &'a FeedQueue<NodeLink<K>, Q>,
        counts: &'a FoldedCount,
        end: FeedEnd<NodeLink<K>, Q>,
    ) -> FeedSink<'a, K, Q, R>
        ensures end { result.end ≡ end }
    {
        FeedSink {
            end,
            queue,
            counts,
            rt,
        }
    }

    /// The end.
    pub fn into_end(self) -> FeedEnd<NodeLink<K>, Q>
        ensures end { result ≡ self.entry.end }
    {
        let FeedSink { end, .. } = self;
        end
    }
}

impl<'a, K: NodeName, Q: FeedName, R: Wait> LinkSink for FeedSink<'a, K, Q, R> {
    ghost takes = { λ l. IsOfTables K.schema.description.tables l };

    ghost sent = { λ s. s.end.1 };

    fn send(&mut self, link: Link, _is_of_copy: bool) {
        self.counts.note_sending();
        self.end.send(self.rt, self.queue, NodeLink::new(link));
        self.counts.note_queued();
        // The folder may have taken the link before it was counted as queued, and sleep. It looks at the count once it is woken.
        self.queue.wake();
    }
}
