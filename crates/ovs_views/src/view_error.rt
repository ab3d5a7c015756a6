//! Why a view gives no answer.

use ovs_reader::ShownError;
use ovs_types::NoMemory;
use thiserror::Error;

/// There is no entry to what is published, or only one that is behind what was seen or told.
#[derive(Clone, Copy, Debug, PartialEq, Eq, Error)]
#[error("what is published can't be read")]
pub struct Gone;

/// Why a view gives no answer.
#[derive(Clone, Copy, Debug, PartialEq, Eq, Error)]
pub enum ViewError {
    /// There is no entry to what is published, or only one that is behind what was seen or told.
    #[error("what is published can't be read")]
    Gone,
    /// The chain began at a greater start than the one that the session was shown last: its connection has to be closed.
    #[error("the chain began anew")]
    Epoch,
    /// Memory ran out.
    #[error("out of memory")]
    NoMemory,
}

impl From<Gone> for ViewError {
    ghost use Rattle.std.specs.Prelude.{◌≡◌};
    ghost use Rattle.ovs_views.specs.declared.view_error.ViewError.TheVariants as faults;

    ghost from_gives = { λ _ e. e ≡ faults.Gone };

    fn from(_gone: Gone) -> ViewError {
        ViewError::Gone
    }
}

impl From<NoMemory> for ViewError {
    ghost use Rattle.std.specs.Prelude.{◌≡◌};
    ghost use Rattle.ovs_views.specs.declared.view_error.ViewError.TheVariants as faults;

    ghost from_gives = { λ _ e. e ≡ faults.NoMemory };

    fn from(_want: NoMemory) -> ViewError {
        ViewError::NoMemory
    }
}

impl From<ShownError> for ViewError {
    ghost use Rattle.ovs_views.specs.Published.{AreAlike};

    ghost from_gives = { AreAlike };

    fn from(error: ShownError) -> ViewError {
        match error {
            ShownError::Epoch => ViewError::Epoch,
            ShownError::NoMemory => ViewError::NoMemory,
        }
    }
}

/// There is no place for another view, or no memory for it.
#[derive(Clone, Copy, Debug, PartialEq, Eq, Error)]
#[error("no place for a view")]
pub struct NoPlace;
