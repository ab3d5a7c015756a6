//! What one thread folds and publishes, and views, which answer from what was published last, in as many threads as there are.
#![tactic(auto)]

mod board;
mod chain_front;
mod name;
mod published_copy;
mod publisher;
mod view;
mod view_error;
mod view_session;

pub use board::{Board, teach};
pub use chain_front::ChainFront;
pub use name::{NodeName, StepHistory, StepPrefix, Told};
pub use published_copy::{NextStep, PublishedCopy};
pub use publisher::{Handle, Publisher};
pub use view::{ShownDatabase, View};
pub use view_error::{Gone, NoPlace, ViewError};
pub use view_session::ViewSession;
