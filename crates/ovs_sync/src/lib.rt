//! What threads share and do together, of whatever values: a history that only grows, a bounded feed, and jobs in threads.
#![tactic(auto)]

pub mod feed;
pub mod history;
pub mod threads;
