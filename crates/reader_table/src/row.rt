//! What a row is.

/// What a row is.
#[derive(Clone, Copy, Debug, PartialEq, Eq)]
pub enum Row {
    /// Nobody has the row, and it is handed out again.
    Closed,
    /// The row is open, and no transaction runs in it.
    Idle,
    /// The transaction of this number runs in the row, on the snapshot of this epoch.
    Active { tid: u64, read: u64 },
}
