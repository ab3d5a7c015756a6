//! A node in threads: one for each upstream, one for each worker that serves readers, and the folder in the caller's.
#![tactic(auto)]

mod connector;
mod counters;
mod desks;
mod ending;
mod epoch_handler;
mod feed_sink;
mod folded_count;
mod folding;
mod laws;
mod node_threads;
mod observer;
mod progress;
mod relaying;
mod role;
mod run_error;
mod running;
mod sender;
mod serving;
mod shared_authority;
mod upstream_sender;
mod upstream_sink;
mod upstreams;
mod worker_poller;
mod workers;

pub use connector::Connector;
pub use counters::Counters;
pub use desks::{ForwardingDesk, SharedUpstreamHandler};
pub use feed_sink::FeedSink;
pub use folded_count::FoldedCount;
pub use laws::{lawful_streams_are_admitted, nodes_with_the_same_links_agree};
pub use node_threads::NodeThreads;
pub use observer::{FoldObserver, NoObserver};
pub use progress::Progress;
pub use relaying::{RelayThreads, run_relay};
pub use run_error::RunError;
pub use running::{Shared, run_node};
pub use sender::Sender;
pub use serving::Feeds;
pub use shared_authority::{KnownDesk, LockedForwarder, SharedAuthority, SharedForwarder};
pub use upstream_sender::UpstreamSender;
pub use upstreams::Upstream;
pub use worker_poller::UnusedPoller;
