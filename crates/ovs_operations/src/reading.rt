//! Operations out of JSON.
//!
//! All parts of an operation are looked at, so that the first of its faults, in the order of `OperationError`, is found wherever it stands.
//! So what a part is read as is a value, `Ok` or a fault, and the functions fail by memory alone.

mod mutations;
mod mutators;
pub(crate) mod operation;
mod parts;
