//! A stream of bytes, split into JSON objects with white space between them.

mod framer;
mod laws;
mod limits;
mod scan;
mod scan_position;

pub use framer::Framer;
pub use laws::{balanced_text_laws, frame_laws, framer_laws, limit_laws};
pub use limits::{MAX_MESSAGE_BYTES, MAX_NESTING};
