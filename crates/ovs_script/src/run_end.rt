//! How a run ends.
ghost use Rattle.std.specs.Prelude.{◌≡◌};
ghost use Rattle.ovs_script.specs.RunEnd.{status_of};

use crate::script_error::ScriptError;

/// How a run ended.
#[derive(Clone, Copy, Debug, PartialEq, Eq)]
pub enum RunEnd {
    /// All is written, and the script is content.
    Clean,
    /// All is written, and the script isn't content.
    Refused,
    /// A read failed.
    ReadFault,
    /// A write failed, or passed no byte.
    WriteFault,
    /// All read and write calls of the run are made.
    TurnsSpent,
    /// A growth was refused.
    NoMemory,
}

impl RunEnd {
    /// The exit status of a program that ends so: 0 the script is content, 1 it isn't, 3 memory, a device or the calls
    /// gave out.
    pub fn status(self) -> u8
        ensures value { result ≡ status_of self }
    {
        match self {
            RunEnd::Clean => 0,
            RunEnd::Refused => 1,
            RunEnd::ReadFault | RunEnd::WriteFault | RunEnd::TurnsSpent | RunEnd::NoMemory => 3,
        }
    }
}

impl From<ScriptError> for RunEnd {
    ghost use Rattle.ovs_script.specs.RunEnd.{end_for};

    ghost from_gives = { λ fault end. end ≡ end_for fault };

    fn from(fault: ScriptError) -> RunEnd {
        match fault {
            ScriptError::ReadFault => RunEnd::ReadFault,
            ScriptError::WriteFault => RunEnd::WriteFault,
            ScriptError::TurnsSpent => RunEnd::TurnsSpent,
            ScriptError::NoMemory => RunEnd::NoMemory,
        }
    }
}
