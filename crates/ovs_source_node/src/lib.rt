//! The source in threads: its own desk, whose links go to its node's feed, workers that serve readers, and the folder in the
//! caller's thread.
#![tactic(auto)]

mod locked_source;
mod sending;
mod shared_source;
mod source_sender;
mod source_threads;

pub use locked_source::LockedSource;
pub use sending::{SourceEnd, follow_source};
pub use shared_source::SharedSource;
pub use source_sender::{SourceSender, SourceSent};
pub use source_threads::run_source;
