//! How a command ends.

ghost use Rattle.std.specs.Prelude.{◌≡◌};
ghost use Rattle.log_commands.specs.Status.{exit_number};

use graph_recover::RecoverRefusal;
use io_edges::ReadRefusal;
use request_text::TextRefusal;
use std::fmt;
use thiserror::Error;

/// Why a command ended. Its number is the program's exit status, and it is shown as the text for the reader.
#[derive(Clone, Copy, Debug, PartialEq, Eq, Error)]
pub enum Status {
    /// The command was carried out.
    Done,
    /// The words are no command, or a drill needs more numbers of vertices than are left.
    Usage,
    /// The bytes that were read are no script: the first bad line, and the column of its first bad word.
    BadScript { line: u64, column: u32 },
    /// The bytes on the disk are no log: the place of the first bad group's length, and its number from 1.
    BadLog { at: u64, group: u64 },
    /// The disk holds no bytes.
    NoLog,
    /// A read of the source failed.
    ReadFault,
    /// A write to the sink failed. What was written is a prefix of the text.
    WriteFault,
    /// A call of the disk failed. Its count of faults rose from `before` to `after`.
    DiskFault { before: u64, after: u64 },
    /// Memory ran out, and nothing was written: before the first request had run, or for the last graph of a drill.
    NoMemory,
    /// The epoch that was asked for is above the last one.
    BadEpoch { asked: u64, last: u64 },
    /// A log was to be made where there are so many bytes.
    NotEmpty { length: u64 },
    /// The source gave more than 268,435,456 bytes.
    ScriptTooLong,
}

impl Status {
    /// The exit status.
    pub fn number(&self) -> u8
        ensures { result ≡ exit_number self.now }
    {
        match self {
            Status::Done => 0,
            Status::Usage => 2,
            Status::BadScript { .. } => 3,
            Status::BadLog { .. } => 4,
            Status::NoLog => 5,
            Status::ReadFault => 6,
            Status::WriteFault => 7,
            Status::DiskFault { .. } => 8,
            Status::NoMemory => 9,
            Status::BadEpoch { .. } => 10,
            Status::NotEmpty { .. } => 11,
            Status::ScriptTooLong => 12,
        }
    }
}

/// The text of a status, which is empty for `Done`.
impl fmt::Display for Status {
    ghost use Rattle.std.specs.Prelude.{Some};
    ghost use Rattle.log_commands.specs.Status.{status_text};

    ghost output = { λ status. Some (status_text status) };

    fn fmt<W: fmt::Write>(&self, f: &mut fmt::Formatter<W>) -> fmt::Result {
        match self {
            Status::Done => Ok(()),
            Status::Usage => write!(f, "graph: usage"),
            Status::BadScript { line, column } => {
                write!(f, "graph: bad script at line {line} column {column}")
            }
            Status::BadLog { at, group } => write!(f, "graph: bad log at {at} group {group}"),
            Status::NoLog => write!(f, "graph: no log"),
            Status::ReadFault => write!(f, "graph: read fault"),
            Status::WriteFault => write!(f, "graph: write fault"),
            Status::DiskFault { .. } => write!(f, "graph: disk fault"),
            Status::NoMemory => write!(f, "graph: no memory"),
            Status::BadEpoch { asked, last } => write!(f, "graph: epoch {asked} is above {last}"),
            Status::NotEmpty { length } => write!(f, "graph: log holds {length} bytes"),
            Status::ScriptTooLong => write!(f, "graph: script too long"),
        }
    }
}

impl From<ReadRefusal> for Status {
    ghost use Rattle.std.specs.Prelude.{◌≡◌};
    ghost use Rattle.log_commands.specs.Status.{reading_status};

    ghost from_gives = { λ refusal status. status ≡ reading_status refusal };

    fn from(refusal: ReadRefusal) -> Status {
        match refusal {
            ReadRefusal::NoMemory => Status::NoMemory,
            ReadRefusal::ReadFault => Status::ReadFault,
            ReadRefusal::TooLong => Status::ScriptTooLong,
        }
    }
}

impl From<TextRefusal> for Status {
    ghost use Rattle.std.specs.Prelude.{◌≡◌};
    ghost use Rattle.log_commands.specs.Status.{text_status};

    ghost from_gives = { λ refusal status. status ≡ text_status refusal };

    fn from(refusal: TextRefusal) -> Status {
        match refusal {
            TextRefusal::BadLine { line, column } => Status::BadScript { line, column },
            TextRefusal::NoMemory => Status::NoMemory,
        }
    }
}

impl From<RecoverRefusal> for Status {
    ghost use Rattle.std.specs.Prelude.{◌≡◌};
    ghost use Rattle.log_commands.specs.Status.{recovery_status};

    ghost from_gives = { λ refusal status. status ≡ recovery_status refusal };

    fn from(refusal: RecoverRefusal) -> Status {
        match refusal {
            RecoverRefusal::NoLog => Status::NoLog,
            RecoverRefusal::BadLog { at, group } => Status::BadLog { at, group },
            RecoverRefusal::DiskFault { before, after } => Status::DiskFault { before, after },
            RecoverRefusal::NoMemory => Status::NoMemory,
        }
    }
}

impl From<graph_model::NoMemory> for Status {
    ghost use Rattle.std.specs.Prelude.{◌≡◌};
    ghost use Rattle.log_commands.specs.declared.status.Status.TheVariants as statuses;

    ghost from_gives = { λ _ status. status ≡ statuses.NoMemory };

    fn from(_want: graph_model::NoMemory) -> Status {
        Status::NoMemory
    }
}

impl From<io_edges::NoMemory> for Status {
    ghost use Rattle.std.specs.Prelude.{◌≡◌};
    ghost use Rattle.log_commands.specs.declared.status.Status.TheVariants as statuses;

    ghost from_gives = { λ _ status. status ≡ statuses.NoMemory };

    fn from(_want: io_edges::NoMemory) -> Status {
        Status::NoMemory
    }
}
