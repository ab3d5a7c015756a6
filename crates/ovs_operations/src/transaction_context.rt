//! What operations are carried out with.

use ovs_json::SessionId;
use ovs_locks::LockTable;
use ovs_rows::Database;
use ovs_types::{NamedIds, TxnId};

/// What the operations of a transaction are carried out with.
#[derive(Clone, Copy)]
pub struct TransactionContext<'a> {
    /// The ids of the rows that it inserts, by the names that it gives them.
    pub names: &'a NamedIds,
    /// The locks of the server.
    pub locks: &'a LockTable,
    /// The session that asks, whose locks an "assert" is about.
    pub session: SessionId,
    /// The database before the transaction.
    pub before: &'a Database,
    /// The id of the commit that it makes, which is the version of the rows that it changes.
    pub commit: TxnId,
}
