//! What the case programs share: the run of a table of cases, of which each line asks something and says what the answer is to be, and how
//! the parts of a case are read.
#![tactic(auto)]

mod commits;
mod line_error;
mod links;
mod parts;
mod run;

pub use commits::{commit, last_number_in, letter, number_of};
pub use line_error::LineError;
pub use links::read_link;
pub use parts::{commit_in, count_in, list_in, read_json, read_schema, text_in};
pub use run::{CaseTable, run_cases};
