//! A history of entries that only grows, and prefixes: beginnings of it, which several threads hold and agree on without a lock. And
//! lists that only proofs see.

mod book;
mod entry;
mod ghost_list;
mod prefix;
mod rule;

pub use book::{Book, HistoryName, Opened};
pub use entry::EntryFrom;
pub use ghost_list::GhostList;
pub use prefix::{Behind, Prefix};
