//! A fault of the disk.

/// The disk failed: its count of faults rose from `before` to `after` in the call.
#[derive(Clone, Copy, Debug, PartialEq, Eq)]
pub struct DiskFault {
    pub before: u64,
    pub after: u64,
}
