//! What the program says on standard error of a device, of memory or of the words that it was called with.

ghost use Rattle.std.specs.Prelude.{◌≡◌, ◌↔◌, Some, IfSome, is_none};
ghost use Rattle.ovs_script.specs.RunEnd.{is_whole, status_of};
ghost use Rattle.ovs_command_line.specs.Complaint.{complaint_status, SaysWhy};

use ovs_address::Address;
use ovs_script::RunEnd;
use std::io;
use thiserror::Error;

/// Why the program ends with status 2 or 3, other than by a fault that `command` tells. A path is shown in quotes and with
/// its line breaks escaped, so that each is one line. A cause is the system's.
#[derive(Clone, Copy, Debug, Error)]
pub enum Complaint<'a> {
    /// A word of the command line is no UTF-8.
    #[error("a word of the command line is no UTF-8")]
    NotUtf8,
    /// The file of the second text can't be opened.
    #[error("{0:?} can't be opened")]
    Unopened(&'a str),
    /// A file can't be opened, for this cause.
    #[error("{file:?} can't be opened: {cause}")]
    UnopenedFor {
        file: &'a str,
        cause: io::Error,
    },
    /// A read of that file failed.
    #[error("{0:?} can't be read")]
    UnreadFile(&'a str),
    /// A read of the input failed.
    #[error("standard input can't be read")]
    UnreadInput,
    /// A write failed, or passed no byte.
    #[error("standard output can't be written")]
    Unwritten,
    /// No connections can be taken at this address.
    #[error("{address} can't be listened at: {cause}")]
    Unlistened {
        address: &'a Address,
        cause: io::Error,
    },
    /// A connection that came in at this address can't be taken.
    #[error("a connection at {address} can't be taken: {cause}")]
    Untaken {
        address: &'a Address,
        cause: io::Error,
    },
    /// The node at this address can't be reached.
    #[error("{address} can't be reached: {cause}")]
    Unreached {
        address: &'a Address,
        cause: io::Error,
    },
    /// All read and write calls of the run are made.
    #[error("too many reads and writes")]
    TurnsSpent,
    /// A growth was refused.
    #[error("out of memory")]
    NoMemory,
}

impl<'a> Complaint<'a> {
    /// The exit status of the program: 2 a fault of the command line, 3 memory, a device or the calls gave out.
    pub fn status(self) -> u8
        ensures value { result ≡ complaint_status self.entry }
    {
        match self {
            Complaint::NotUtf8 | Complaint::Unopened(_) | Complaint::UnopenedFor { .. } => 2,
            _ => 3,
        }
    }
}

/// What to say of the end of a run over the input and perhaps a file: nothing where all is written. A read fault is the
/// file's where the input's reader has counted no failure.
pub fn complaint_of<'a>(
    end: RunEnd,
    file: Option<&'a str>,
    input_failures: u64,
) -> Option<Complaint<'a>>
    ensures said { is_none result ≡ is_whole end }
    ensures status { IfSome result (λ complaint. complaint_status complaint ≡ status_of end) }
    ensures why { IfSome result (SaysWhy end) }
    // A file is named exactly at a read fault that isn't the input's.
    ensures file { (path : _) → (result ≡ Some (Complaint.UnreadFile path))
        ↔ ((end ≡ RunEnd.ReadFault) × (file.entry ≡ Some path) × (input_failures ≡ 0)) }
{
    match end {
        RunEnd::Clean | RunEnd::Refused => None,
        RunEnd::ReadFault => match file {
            Some(path) if input_failures == 0 => Some(Complaint::UnreadFile(path)),
            _ => Some(Complaint::UnreadInput),
        },
        RunEnd::WriteFault => Some(Complaint::Unwritten),
        RunEnd::TurnsSpent => Some(Complaint::TurnsSpent),
        RunEnd::NoMemory => Some(Complaint::NoMemory),
    }
}
