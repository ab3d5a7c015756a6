//! Where the links of a session with an upstream go.

ghost use Rattle.std.specs.Prelude.{◌≡◌};
ghost use Rattle.ovs_links.specs.Sets.{IsOfTables};
ghost use Rattle.ovs_rows.specs.Change.{IsChangeOf};

use crate::connector::Connector;
use crate::feed_sink::FeedSink;
use ovs_follow::LinkSink;
use ovs_links::Link;
use ovs_node::NodeLink;
use ovs_rows::Change;
use ovs_sync::feed::{FeedEnd, FeedName};
use ovs_types::Schema;
use ovs_views::NodeName;
use std::alloc::Global;
use std::sync::Wait;

// Of how many rows a change says something; `None` where there was no memory to look.
fn rows_in(alloc: Global, change: &Change, schema: &Schema) -> Option<usize>
    requires tables { IsChangeOf schema.now.description.tables change.now }
{
    let told = change.to_json(alloc, schema).ok()?;
    let mut count: usize = 0;
    for (_, rows) in told.as_object()? {
        if let Some(rows) = rows.as_object() {
            count = count.saturating_add(rows.len());
        }
    }
    Some(count)
}

/// Sends to the node's feed, and tells where the connection comes from of a whole copy.
#[derive(Drop)]
pub(crate) struct UpstreamSink<'a, K: NodeName, Q: FeedName, C: Connector + Drop, R: Wait> {
    feed: FeedSink<'a, K, Q, R>,
    connector: &'a C,
    schema: &'a Schema,
    alloc: Global,
    pub ghost schema_is: { schema.now ≡ K.schema },
}

impl<'a, K: NodeName, Q: FeedName, C: Connector + Drop, R: Wait> UpstreamSink<'a, K, Q, C, R> {
    /// Sends to this sink, and tells this connector.
    pub(crate) fn new(
        alloc: Global,
        schema: &'a Schema,
        connector: &'a C,
        feed: FeedSink<'a, K, Q, R>,
    ) -> UpstreamSink<'a, K, Q, C, R>
        requires schema { schema.now ≡ K.schema }
        ensures feed { result.feed ≡ feed.entry }
    {
        UpstreamSink {
            feed,
            connector,
            schema,
            alloc,
        }
    }

    // Tells the connector of a whole copy that this link was made of.
    fn tell(&self, link: &Link)
        requires tables { IsOfTables K.schema.description.tables link.now }
    {
        if let Some(rows) = rows_in(self.alloc, link.change(), self.schema) {
            self.connector.told_copy(link.id(), rows);
        }
    }

    /// The end of the feed.
    pub(crate) fn into_end(self) -> FeedEnd<NodeLink<K>, Q>
        ensures end { result ≡ self.entry.feed.end }
    {
        let UpstreamSink { feed, .. } = self;
        feed.into_end()
    }
}

impl<'a, K: NodeName, Q: FeedName, C: Connector + Drop, R: Wait> LinkSink
    for UpstreamSink<'a, K, Q, C, R> {
    ghost takes = { λ l. IsOfTables K.schema.description.tables l };

    ghost sent = { λ s. s.feed.end.1 };

    fn send(&mut self, link: Link, is_of_copy: bool) {
        if is_of_copy {
            self.tell(&link);
        }
        self.feed.send(link, is_of_copy);
    }
}
