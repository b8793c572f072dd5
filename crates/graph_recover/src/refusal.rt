//! Why a log is not recovered.

ghost use Rattle.std.specs.Prelude.{◌≡◌};
ghost use Rattle.graph_recover.specs.Recovery.{recover_number};

use thiserror::Error;

/// Why a log is not recovered. The disk is as before.
#[derive(Clone, Copy, Debug, PartialEq, Eq, Error)]
pub enum RecoverRefusal {
    /// Number 1: the disk has no bytes.
    #[error("no log")]
    NoLog,
    /// Number 2: this group, from 1, is the first bad one, and its length would stand at this place. What does
    /// not begin as a log is bad at place 0, group 0.
    #[error("bad log at {at} group {group}")]
    BadLog { at: u64, group: u64 },
    /// Number 3: a call of the disk failed. Its count of faults rose from `before`, at entry, to `after`, at exit.
    #[error("disk fault")]
    DiskFault { before: u64, after: u64 },
    /// Number 4: memory ran out.
    #[error("no memory")]
    NoMemory,
}

impl RecoverRefusal {
    /// The number of the refusal, from 1 to 4.
    pub fn number(self) -> u8
        ensures { result ≡ recover_number self }
    {
        match self {
            RecoverRefusal::NoLog => 1,
            RecoverRefusal::BadLog { .. } => 2,
            RecoverRefusal::DiskFault { .. } => 3,
            RecoverRefusal::NoMemory => 4,
        }
    }
}
