//! What the program says, and the exit status that goes with it.

use ovs_command_line::{Complaint, complaint_of};
use ovs_script::RunEnd;
use std::fmt::{self, Display, Formatter};
use std::io;
use std::process::ExitCode;

/// One line on standard error, and an exit status.
pub(crate) fn fails<R: Eprint, L: Display>(rt: &R, line: &L, status: u8) -> ExitCode {
    let _ = eprintln!(rt; "ovs_relay: {line}");
    ExitCode::from(status)
}

/// A complaint on standard error, and its exit status.
pub(crate) fn complains<R: Eprint>(rt: &R, complaint: Complaint<'_>) -> ExitCode {
    fails(rt, &complaint, complaint.status())
}

/// A text on standard output, and an exit status.
pub(crate) fn says<R: Print + Eprint>(rt: &R, text: &str, status: u8) -> ExitCode {
    match print!(rt; "{text}") {
        Ok(()) => ExitCode::from(status),
        Err(_) => complains(rt, Complaint::Unwritten),
    }
}

/// Ends as a run ended that read standard input, and perhaps a file.
pub(crate) fn ends<R: Eprint>(
    rt: &R,
    end: RunEnd,
    file: Option<&str>,
    input_failures: u64,
) -> ExitCode {
    match complaint_of(end, file, input_failures) {
        None => ExitCode::from(end.status()),
        Some(complaint) => complains(rt, complaint),
    }
}

// A complaint, and what the system says of it.
#[derive(Clone, Copy, Debug)]
struct Because<'a> {
    complaint: Complaint<'a>,
    cause: io::Error,
}

impl<'a> Display for Because<'a> {
    fn fmt<W: fmt::Write>(&self, f: &mut Formatter<W>) -> fmt::Result {
        write!(f, "{}: {}", self.complaint, self.cause)
    }
}

/// Ends as a run ended that read a file, of which the last read that failed had this cause.
pub(crate) fn ends_of_file<R: Eprint>(
    rt: &R,
    end: RunEnd,
    file: &str,
    cause: Option<io::Error>,
) -> ExitCode {
    match (complaint_of(end, Some(file), 0), cause) {
        (Some(complaint @ Complaint::UnreadFile(_)), Some(cause)) => {
            fails(rt, &Because { complaint, cause }, complaint.status())
        }
        (Some(complaint), _) => complains(rt, complaint),
        (None, _) => ExitCode::from(end.status()),
    }
}
