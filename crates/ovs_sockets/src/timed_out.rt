//! Connections whose peers answer no more.

use std::io::{self, ErrorKind};

/// Whether the system has given a connection up, since its peer answers no more (tcp(7)). Of a socket that doesn't wait this is no wait that
/// took too long: nothing will pass any more.
pub(crate) fn has_timed_out(error: &io::Error) -> bool {
    error.kind() == ErrorKind::TimedOut
}
