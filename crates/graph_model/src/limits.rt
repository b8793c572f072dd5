//! The limits of numbers, transactions, lists and groups. No other crate writes them down again.

/// Transaction numbers, vertex numbers and commit epochs are below this: 2^62.
pub const NUMBER_END: u64 = 1 << 62;

/// The changes of one transaction are encoded in at most this many bytes: 2^24.
pub const TRANSACTION_MOST: u64 = 16_777_216;

/// The edges of one vertex under one label take at most this many bytes, by `Pair::size`: 2^30.
pub const LIST_MOST: u64 = 1 << 30;

/// A group has at most this many records.
pub const GROUP_MOST: usize = 64;
