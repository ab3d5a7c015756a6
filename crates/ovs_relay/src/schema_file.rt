//! The schema of a node.

use crate::error_keeping_reader::ErrorKeepingReader;
use crate::saying::{complains, ends_of_file};
use ovs_command_line::Complaint;
use ovs_script::read_schema;
use ovs_types::Schema;
use ovs_wire::Counted;
use std::alloc::Global;
use std::fs::{File, Files};
use std::io;
use std::process::ExitCode;

/// The schema on the first line of a file.
///
/// # Errors
/// The exit status of the program, once it has told why there is none.
pub(crate) fn schema_of_file<R: Print + Eprint + Files>(
    rt: &R,
    alloc: Global,
    path: &str,
) -> Result<Schema, ExitCode> {
    let file = match File::open(rt, path) {
        Ok(file) => file,
        Err(cause) => {
            return Err(complains(rt, Complaint::UnopenedFor { file: path, cause }));
        }
    };
    let mut reader = Counted::new(ErrorKeepingReader::new(file));
    let mut writer = Counted::new(io::writer(rt));
    match read_schema(alloc, &mut reader, &mut writer) {
        Ok(schema) => Ok(schema),
        Err(end) => Err(ends_of_file(rt, end, path, reader.device().cause())),
    }
}
