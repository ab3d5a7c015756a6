//! Jobs, each done in a thread of its own, beside what the caller's thread does.

mod begun;
mod scoped;
mod work;

pub use scoped::{SpawnError, run_scoped};
pub use work::Work;
