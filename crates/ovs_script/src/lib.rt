//! Scripts of lines: what reads a text line by line from any reader, has a script answer each line, and writes the
//! answers to any writer, within a limited number of calls.
#![tactic(auto)]

mod buffered;
mod first_line;
mod laws;
mod line;
mod line_json;
mod lines;
mod refusal;
mod run;
mod run_end;
mod schema_text;
mod script;
mod script_error;
mod sending;
mod turns;
mod window;

pub use first_line::schema_of_line;
pub use laws::functions_have_one_run;
pub use line_json::{LineFault, json_of_line};
pub use refusal::{SchemaRefusal, refused_line};
pub use run::run_script;
pub use run_end::RunEnd;
pub use schema_text::read_schema;
pub use script::{Script, ScriptEnd};
