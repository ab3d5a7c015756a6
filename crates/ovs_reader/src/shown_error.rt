//! Why what is shown isn't answered from.

use ovs_json::NoMemory;
use thiserror::Error;

/// Why a session doesn't answer from what it is shown.
#[derive(Clone, Copy, Debug, PartialEq, Eq, Error)]
pub enum ShownError {
    /// The chain begins at a greater start than the one that was shown last: the session is over. Its monitors would tell of rows
    /// that their reader was never told of, so the connection has to be closed.
    #[error("the chain began anew")]
    Epoch,
    /// Memory ran out.
    #[error("out of memory")]
    NoMemory,
}

impl From<NoMemory> for ShownError {
    ghost use Rattle.std.specs.Prelude.{◌≡◌};
    ghost use Rattle.ovs_reader.specs.declared.shown_error.ShownError.TheVariants as faults;

    ghost from_gives = { λ _ e. e ≡ faults.NoMemory };

    fn from(_want: NoMemory) -> ShownError {
        ShownError::NoMemory
    }
}
