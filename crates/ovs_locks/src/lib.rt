//! The named locks of a database server: who owns each, who waits for it, and what each session is to be told (RFC 7047
//! sections 4.1.8 to 4.1.10).
#![tactic(auto)]

mod by_session;
mod error;
mod lock;
mod lock_map;
mod lock_table;
mod notice;
mod waiter;

pub use by_session::BySession;
pub use error::{LockError, NeverAsked};
pub use lock::Lock;
pub use lock_table::{LockTable, is_lock};
pub use notice::LockNotice;
pub use waiter::Asking;
