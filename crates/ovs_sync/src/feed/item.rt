//! What passes through a feed.

/// What one end sent, with the number of that end.
#[derive(Drop)]
pub struct Item<T> {
    /// The number of the end.
    pub from: u64,
    /// What it sent.
    pub value: T,
}
