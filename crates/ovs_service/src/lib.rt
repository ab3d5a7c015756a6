//! A node's service of its readers: messages in, answers and notifications out, by a view of what is published and an authority
//! that answers what only the source can answer.
#![tactic(auto)]

mod adding;
mod client;
mod collecting;
mod flushing;
mod laws;
mod pending;
mod saying;
mod service;
mod service_authority;
mod session_token;
mod unshared;

pub use client::Client;
pub use laws::{answers_come_behind_what_they_stand_for, reader_laws};
pub use service::{NodeService, worker_of};
pub use service_authority::ServiceAuthority;
pub use session_token::{AuthorityCall, SessionToken};
pub use unshared::{Unshared, copy_ask};
