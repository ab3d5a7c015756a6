//! The script `fold`: a schema and links, line by line, and at the end the database that the longest chain makes.
#![tactic(auto)]

mod closing;
mod fold;
mod intake;
mod laws;
mod reading;
mod stores;
mod words;

pub use closing::chain_lines;
pub use fold::fold_run;
pub use laws::last_lines_depend_on_the_set_alone;
