//! What waits in a bucket.

/// Something to send.
#[derive(Debug, PartialEq, Eq, Drop)]
pub struct Item<T> {
    /// What is sent.
    pub value: T,
    /// The bytes that it is charged, 1 to 1,051.
    pub length: u32,
}
