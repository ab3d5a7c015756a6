//! Nodes of a relay tier, and what passes between them.
#![tactic(auto)]

mod delivering;
mod error;
mod event;
mod holding;
mod laws;
mod pipe;
mod sim_session;
mod world;

pub use error::WorldError;
pub use event::{Event, Reply};
pub use holding::Taken;
pub use laws::relay_laws;
pub use world::{MAX_RELAYS, World};
