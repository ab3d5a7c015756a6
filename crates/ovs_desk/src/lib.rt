//! A relay's desk: requests of its sessions that only the source can answer, passed on, each answered once, to its asker.
#![tactic(auto)]

mod asserts;
mod by_asker;
mod error;
mod forwarded;
mod forwards;
mod laws;
mod relay_desk;
mod source_message;
mod standing;

pub use error::{BadReply, ForwardError, ForwardRefused, Unknown};
pub use forwarded::{Forwarded, ForwardedState, RequestFilter};
pub use forwards::Forwards;
pub use laws::{answers_are_given_where_they_are_shown, every_run_of_a_ledger};
pub use relay_desk::RelayDesk;
pub use source_message::SourceMessage;
pub use standing::StandingAnswer;
