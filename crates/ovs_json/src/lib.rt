//! JSON values for the crates of OVSDB: how they are seen, taken apart, put together and read with faults.
#![tactic(auto)]

mod first_fault;
mod json_value;
mod no_memory;
mod parts;
mod same;
mod session_id;
mod text;
mod writing;

pub use first_fault::{Ranked, both, with_one};
pub use json_value::Json;
pub use no_memory::NoMemory;
pub use parts::{
    all_three_of, begins_with, is_empty_object, is_word, list_under, read_json, three_items,
    two_items, under,
};
pub use same::same_json;
pub use session_id::SessionId;
pub use text::Text;
pub use writing::{error_json, listed, put, text_json, two, under_name};
