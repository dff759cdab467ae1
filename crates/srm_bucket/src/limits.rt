//! The ranges of a bucket's numbers.

/// The least rate, in bytes a second.
pub const LEAST_RATE: u32 = 1;

/// The greatest rate, in bytes a second.
pub const GREATEST_RATE: u32 = 100_000_000;

/// The length of the shortest item, in bytes.
pub const LEAST_LENGTH: u32 = 1;

/// The length of the longest item, in bytes: data or a repair with the longest body.
pub const GREATEST_LENGTH: u32 = 1_051;

/// The least depth, in bytes, so that a full bucket lets any item go.
pub const LEAST_DEPTH: u32 = GREATEST_LENGTH;

/// The greatest depth, in bytes.
pub const GREATEST_DEPTH: u32 = 1_000_000;

/// Tokens for one byte: 1,000,000. It is public for contracts.
pub const MILLIONTHS: u64 = 1_000_000;
