//! The script `world`: a schema, how many relays there are, and events, line by line, and at the end what each node holds.
#![tactic(auto)]

mod closing;
mod events;
mod reading;
mod story;
mod telling;
mod words;

pub use story::world_run;
