//! Why a command line asks for nothing.

ghost use Rattle.std.specs.Prelude.{◌≡◌};
ghost use Rattle.ovs_command_line.specs.Faults.{fault_status};

use crate::command_option::CommandOption;
use ovs_address::Address;
use std::alloc::AllocError;
use thiserror::Error;

/// Why a command line asks for nothing. Each is shown as one line.
#[derive(Debug, Drop, Error)]
pub enum CommandFault {
    /// The words are off; one line says how.
    #[error("{0}")]
    Usage(String),
    /// The command needs this option.
    #[error("'{0}' is missing")]
    Missing(CommandOption),
    /// A relay's schema comes from a file or from its first upstream.
    #[error("'{}' and '{}' exclude each other", CommandOption::Schema, CommandOption::Database)]
    TwoOrigins,
    /// The word behind this option isn't what it has to be.
    #[error("{word:?} is no value for '{option}': wanted {}", .option.wanted())]
    BadValue { option: CommandOption, word: String },
    /// The fifth upstream.
    #[error("{0:?} is one upstream too many: wanted 1 to 4")]
    OneTooMany(String),
    /// An upstream of the relay is the address at which it listens.
    #[error("{0} is the relay's own address: wanted an upstream")]
    OwnAddress(Address),
    /// A relay that goes on from a whole copy has several upstreams, whose copies would contradict each other.
    #[error("'--resync' goes with one '{}' alone", CommandOption::Upstream)]
    ResyncOfSeveral,
    /// Memory ran out.
    #[error("out of memory")]
    NoMemory,
}

impl CommandFault {
    /// The exit status of the program: 2 a fault of the command line, 3 memory gave out.
    pub fn status(&self) -> u8
        ensures value { result ≡ fault_status self.now }
    {
        match self {
            CommandFault::NoMemory => 3,
            _ => 2,
        }
    }
}

impl From<AllocError> for CommandFault {
    ghost use Rattle.std.specs.Prelude.{◌≡◌};
    ghost use Rattle.ovs_command_line.specs.declared.command_fault.CommandFault.TheVariants as faults;

    ghost from_gives = { λ _ fault. fault ≡ faults.NoMemory };

    fn from(_error: AllocError) -> CommandFault {
        CommandFault::NoMemory
    }
}
