//! What a disk over memory records of its calls.

/// A call other than a write that succeeded.
#[derive(Clone, Copy, Debug, PartialEq, Eq)]
pub enum Event {
    /// A write of so many bytes from a place on failed.
    WriteFailed { place: u64, amount: usize },
    /// A cut to this length.
    Cut { to: u64 },
    /// A cut to this length failed.
    CutFailed { to: u64 },
    /// A sync.
    Sync,
    /// A sync failed.
    SyncFailed,
}

/// A recorded call.
#[derive(Clone, Copy, Debug, PartialEq, Eq)]
pub enum Call {
    /// A write from a place on. Its bytes are so many from a place of the list of all written bytes on.
    Write {
        place: u64,
        from: usize,
        amount: usize,
    },
    /// Another call.
    Other {
        event: Event,
    },
}
