//! Ids, atoms, columns and data of OVSDB (RFC 7047 sections 3 and 5.1), and the differences of data.
#![tactic(auto)]

mod atom;
mod column;
mod datum;
mod error;
mod hyphenated;
mod named_ids;
mod names;
mod row_id;
mod txn_id;

pub use atom::{Atom, AtomKind};
pub use column::Column;
pub use datum::Datum;
pub use datum::atoms::Atoms;
pub use datum::delta::{apply_difference, difference, difference_laws};
pub use datum::pairs::{Pair, Pairs};
pub use datum::writing::what_is_written_reads_back;
pub use error::{BadId, DatumError};
pub use named_ids::NamedIds;
pub use names::{is_id, is_name};
pub use row_id::RowId;
pub use txn_id::TxnId;
