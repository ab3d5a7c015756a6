//! The limits of a message.
/// The most bytes that a message may have, where its framer has no other limit.
pub const MAX_MESSAGE_BYTES: usize = 16_777_216;

/// How deep the arrays and objects of a message may nest, the message itself counted.
pub const MAX_NESTING: u32 = 100;
