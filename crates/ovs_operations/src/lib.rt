//! The operations of transactions (RFC 7047 section 5.2): reading them, and carrying them out on a database.
#![tactic(auto)]

mod altering;
mod carrying;
mod mutating;
mod operation;
mod operation_error;
mod reading;
mod running;
mod theorems;
mod transaction_context;

pub use operation_error::OperationError;
pub use running::{RunResult, run};
pub use theorems::each_row_once;
pub use transaction_context::TransactionContext;
