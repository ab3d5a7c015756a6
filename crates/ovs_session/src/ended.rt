//! Why a session ends.
ghost use Rattle.std.specs.Prelude.{◌≡◌};
ghost use Rattle.ovs_session.specs.Moving.{is_final};

use ovs_json::NoMemory;
use thiserror::Error;

/// Why a session ended, or a call on it stopped.
#[derive(Clone, Copy, Debug, PartialEq, Eq, Error)]
pub enum Ended {
    /// Its reader is at its end, every message is answered, nothing that it asked for is still to come, and all that was
    /// said is written.
    #[error("closed")]
    Closed,
    /// A read failed.
    #[error("a read failed")]
    ReadFault,
    /// A write failed.
    #[error("a write failed")]
    WriteFault,
    /// What came is no stream of messages within the limits, or the service refused a message.
    #[error("bad input")]
    BadInput,
    /// So many turns were made as it had. It may go on.
    #[error("no turn left")]
    TurnsSpent,
    /// What it is answered from is gone.
    #[error("gone")]
    Gone,
    /// What it is answered from began anew: what it was told doesn't go on.
    #[error("begun anew")]
    Epoch,
    /// Memory ran out, and all that was said is written. Nothing is lost, so that it may go on.
    #[error("out of memory")]
    NoMemory,
}

impl Ended {
    /// Whether nothing more comes of the session. It is so but for `TurnsSpent` and `NoMemory`.
    pub fn is_final(self) -> bool
        ensures value { result ≡ is_final self }
    {
        !matches!(self, Ended::TurnsSpent | Ended::NoMemory)
    }
}

impl From<NoMemory> for Ended {
    ghost use Rattle.std.specs.Prelude.{◌≡◌};
    ghost use Rattle.ovs_session.specs.declared.ended.Ended.TheVariants as ends;

    ghost from_gives = { λ _ e. e ≡ ends.NoMemory };

    fn from(_error: NoMemory) -> Ended {
        Ended::NoMemory
    }
}

/// Why a service says nothing to a message, or nothing unasked.
#[derive(Clone, Copy, Debug, PartialEq, Eq, Error)]
pub enum ServiceError {
    /// The bytes are no message that it answers. The session ends.
    #[error("bad input")]
    BadInput,
    /// What it answers from is gone. The session ends.
    #[error("gone")]
    Gone,
    /// What it answers from began anew. The session ends.
    #[error("begun anew")]
    Epoch,
    /// Memory ran out. The message stays held, so that the session may go on.
    #[error("out of memory")]
    NoMemory,
}

impl From<NoMemory> for ServiceError {
    ghost use Rattle.std.specs.Prelude.{◌≡◌};
    ghost use Rattle.ovs_session.specs.declared.ended.ServiceError.TheVariants as refusals;

    ghost from_gives = { λ _ e. e ≡ refusals.NoMemory };

    fn from(_error: NoMemory) -> ServiceError {
        ServiceError::NoMemory
    }
}

impl From<ServiceError> for Ended {
    ghost use Rattle.ovs_session.specs.Moving.{IsRefusedFor};

    ghost from_gives = { λ refusal ended. IsRefusedFor refusal ended };

    fn from(refusal: ServiceError) -> Ended {
        match refusal {
            ServiceError::BadInput => Ended::BadInput,
            ServiceError::Gone => Ended::Gone,
            ServiceError::Epoch => Ended::Epoch,
            ServiceError::NoMemory => Ended::NoMemory,
        }
    }
}
