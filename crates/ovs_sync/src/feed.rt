//! A feed: a bounded queue from several ends, each in a thread of its own, to one folder. What is taken of each end is a
//! beginning of what it sent.

mod feed;
mod feed_end;
mod item;
mod queue;
mod rule;

pub use feed::Feed;
pub use feed_end::FeedEnd;
pub use item::Item;
pub use queue::{FEED_ROOM, FeedName, FeedQueue, OpenFeed};
