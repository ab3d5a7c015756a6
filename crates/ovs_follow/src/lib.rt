//! What follows an upstream: a session whose messages become links, which go to a sink, with what is passed on to the source
//! and what it says back.
#![tactic(auto)]

mod follow;
mod handler_call;
mod hearing;
mod input_fault;
mod laws;
mod link_sink;
mod saying;
pub mod schema_query;
mod upstream_handler;
mod upstream_service;
mod upstream_state;

pub use follow::{UpstreamEnd, follow_upstream};
pub use handler_call::{HandlerCall, note_found, note_heard, note_taken};
pub use input_fault::InputFault;
pub use laws::{derived_laws, following_laws};
pub use link_sink::LinkSink;
pub use upstream_handler::{NoSource, UpstreamHandler};
pub use upstream_service::UpstreamService;
pub use upstream_state::UpstreamState;
