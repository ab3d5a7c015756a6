//! The lock desk of a relay: sessions ask it for the named locks of a database (RFC 7047 sections 4.1.8 to 4.1.10), and it asks
//! its source for each, once for all of them.
#![tactic(auto)]

mod crossing;
mod desk_laws;
mod desk_notice;
mod desk_table;
mod due_names;
mod error;
mod lock_desk;
mod lock_state;
mod open_requests;
mod owed_marks;
mod pending_steal;
mod relay_lock;
mod upward_table;

pub use crossing::lock_desk_sends;
pub use desk_laws::{
    a_lock_is_held_only_where_the_source_gave_it, a_refused_steal_is_answered_and_leaves,
    what_is_told_is_owed_no_more, who_unlocks_is_told_no_more,
};
pub use desk_notice::DeskNotice;
pub use error::DeskError;
pub use lock_desk::LockDesk;
pub use lock_state::{LockEvent, LockReply, LockState, LockVerb, NextAsk};
pub use pending_steal::{PendingSteal, StealOutcome};
