//! A source's desk whose replies to transactions wait until they are given, with the list of all calls that were made on it, of which
//! each caller knows a beginning: so what a desk that threads share gave one of them is a step of one run of it.
#![tactic(auto)]

mod crossing;
mod entries;
mod holding_desk;
mod laws;
mod name;
mod recorded_source;
mod recorder;
mod step;
mod taken_links;
mod waiting;

pub use crossing::holding_desk_sends;
pub use laws::every_run_of_a_source;
pub use name::{SourceFront, SourceHistory, SourceName};
pub use recorded_source::RecordedSource;
pub use step::SourceStep;
pub use taken_links::TakenLinks;
