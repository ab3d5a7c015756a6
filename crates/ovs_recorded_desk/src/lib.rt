//! A relay's desk with the list of all calls that were made on it, of which each caller knows a beginning: so what a desk that
//! threads share gave one of them is a step of one run of it.
#![tactic(auto)]

mod crossing;
mod entries;
mod laws;
mod name;
mod recorded_desk;
mod step;

pub use crossing::relay_desk_sends;
pub use laws::every_run_of_a_desk;
pub use name::{DeskFront, DeskHistory, DeskName};
pub use recorded_desk::RecordedDesk;
pub use step::DeskStep;
