//! Connections over memory with a source that has a history.

ghost use Rattle.std.specs.Prelude.{◌≡◌, false};
ghost use Rattle.ovs_node_threads.specs.Lines.{AmongHistory};
ghost use Rattle.ovs_stream_cases.specs.Made.{one_epoch};

use crate::history_links::{HistoryLinks, HistoryName};
use crate::stream::session_bytes;
use ovs_node::NodeName;
use ovs_node_threads::Connector;
use ovs_types::{Schema, TxnId};
use ovs_wire::MAX_MESSAGE_BYTES;
use std::alloc::Global;
use std::collections::VecDeque;
use std::io::{Sink, sink};

/// So many connections with a source, each of which tells the links behind the id that is asked, and ends. What is said to the source isn't
/// heard.
#[derive(Drop)]
pub(crate) struct HistoryConnector<'a, K: NodeName, J: HistoryName> {
    alloc: Global,
    schema: &'a Schema,
    links: HistoryLinks<K, J>,
    left: u64,
    ghost schema_is: { schema.now ≡ K.schema },
}

impl<'a, K: NodeName, J: HistoryName> HistoryConnector<'a, K, J> {
    /// So many connections with the source of these links.
    pub(crate) fn new(
        alloc: Global,
        schema: &'a Schema,
        links: HistoryLinks<K, J>,
        connections: u64,
    ) -> HistoryConnector<'a, K, J>
        requires schema { schema.now ≡ K.schema }
    {
        HistoryConnector {
            alloc,
            schema,
            links,
            left: connections,
        }
    }
}

impl<'a, K: NodeName, J: HistoryName> Connector for HistoryConnector<'a, K, J> {
    type In = VecDeque<u8>;

    type Out = Sink;

    // The links of the history alone.
    ghost admits = { λ read l. AmongHistory K.schema (one_epoch J.commits) read l };

    ghost resyncs = { λ _. false };

    fn resyncs(&self) -> bool {
        false
    }

    fn most_bytes(&self) -> usize {
        MAX_MESSAGE_BYTES
    }

    fn next(&mut self) -> bool {
        match self.left.checked_sub(1) {
            Some(left) => {
                self.left = left;
                true
            }
            None => false,
        }
    }

    fn open(&mut self, asked: TxnId) -> Option<(VecDeque<u8>, Sink)> {
        let links = self.links.as_slice();
        match session_bytes(self.alloc, self.schema, links, asked) {
            Ok(bytes) => Some((VecDeque::from_vec(bytes), sink())),
            Err(_) => None,
        }
    }
}
