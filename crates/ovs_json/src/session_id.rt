//! The numbers of sessions.

/// The number of a session with a reader, by which locks, the requests for the source and their answers are told apart. One node
/// gives none twice.
pub type SessionId = u64;
