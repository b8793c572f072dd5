//! What a transaction begins with, and why it may not.

/// The number of a transaction, and the epoch of the snapshot that it reads.
#[derive(Clone, Copy, Debug, PartialEq, Eq)]
pub struct Drawn {
    pub tid: u64,
    pub read: u64,
}

/// Why no transaction begins.
#[derive(Clone, Copy, Debug, PartialEq, Eq)]
pub enum BeginRefusal {
    /// Memory ran out.
    NoMemory,
    /// No transaction number is left.
    Spent,
}
