//! The types of OVSDB (RFC 7047 sections 3 and 5.1): schemas, with the ids, data and differences of `ovs_data`.
#![tactic(auto)]

mod schema;

pub use ovs_data::{
    Atom, AtomKind, Atoms, BadId, Column, Datum, DatumError, NamedIds, Pair, Pairs, RowId, TxnId,
    apply_difference, difference, difference_laws, is_id, is_name, what_is_written_reads_back,
};
pub use ovs_json::{NoMemory, Text};
pub use schema::error::SchemaError;
pub use schema::{Description, NamedColumn, NamedColumns, Schema, Table, Tables};
