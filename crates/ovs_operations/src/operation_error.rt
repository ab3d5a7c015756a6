//! Why an operation fails.

ghost use Rattle.std.specs.Prelude.{◌≡◌, IfOk};
ghost use Rattle.ovs_json.specs.Results.{result_map};
ghost use Rattle.ovs_operations.specs.OperationError.{rank, fault_text, in_query};

use ovs_json::NoMemory;
use ovs_query::QueryError;

/// Why an operation fails. Where it has several faults that reading shows, wherever they stand in it, the answer is the one that
/// is first in this order; what only carrying it out shows comes after all of them.
#[derive(Clone, Copy, Debug, PartialEq, Eq)]
pub enum OperationError {
    /// A table that the schema doesn't have.
    UnknownTable,
    /// A column that the table doesn't have.
    UnknownColumn,
    /// A condition that is none.
    BadCondition,
    /// A value that is no datum of its column.
    BadValue,
    /// More or fewer elements than a column of one element admits.
    Constraint,
    /// A name that stands for no row of the transaction.
    UnknownName,
    /// A name that an earlier insert of the transaction has.
    DuplicateName,
    /// A sum or a difference outside 64 bits.
    RangeError,
    /// What the protocol has and this server doesn't.
    NotSupported,
    /// The operation "abort".
    Aborted,
    /// A lock that the session doesn't own.
    NotOwner,
    /// Anything else that is no operation.
    BadOperation,
}

impl OperationError {
    /// The text for it in an answer: `{"error": TEXT}`.
    pub fn text(self) -> &'static str
        ensures text { result.now ≡ fault_text self }
    {
        match self {
            OperationError::UnknownTable => "unknown table",
            OperationError::UnknownColumn => "unknown column",
            OperationError::BadCondition => "bad condition",
            OperationError::BadValue => "bad value",
            OperationError::Constraint => "constraint violation",
            OperationError::UnknownName => "unknown name",
            OperationError::DuplicateName => "duplicate uuid-name",
            OperationError::RangeError => "range error",
            OperationError::NotSupported => "not supported",
            OperationError::Aborted => "aborted",
            OperationError::NotOwner => "not owner",
            OperationError::BadOperation => "bad operation",
        }
    }
}

impl ovs_json::Ranked for OperationError {
    ghost rank = { rank };

    fn rank(&self) -> u8 {
        match self {
            OperationError::UnknownTable => 0,
            OperationError::UnknownColumn => 1,
            OperationError::BadCondition => 2,
            OperationError::BadValue => 3,
            OperationError::Constraint => 4,
            OperationError::UnknownName => 5,
            OperationError::DuplicateName => 6,
            OperationError::RangeError => 7,
            OperationError::NotSupported => 8,
            OperationError::Aborted => 9,
            OperationError::NotOwner => 10,
            OperationError::BadOperation => 11,
        }
    }
}
