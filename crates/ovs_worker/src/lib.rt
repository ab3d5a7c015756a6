//! Many sessions in one place, each with its devices, served one turn at a time.
#![tactic(auto)]

mod connections;
mod event_loop;
mod host;
mod poller;
mod run_queue;
mod session_result;
mod session_table;
mod slot;
mod totals;

pub use connections::Connections;
pub use event_loop::serve_many;
pub use host::{AcceptingHost, SessionHost};
pub use poller::{Poller, Ready, Timeout, Wake, Wakeup};
pub use session_result::SessionResult;
pub use session_table::SessionTable;
pub use slot::Slot;
pub use totals::SessionTotals;
