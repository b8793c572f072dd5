//! The status of a run whose requests have run.

ghost use Rattle.std.specs.Prelude.{◌≡◌};
ghost use Rattle.run_ending.specs.Ending.{status_after};

use graph_wal::DiskFault;
use io_edges::WriteFault;
use log_commands::Status;

/// How a run ended, by its printing and by the last mending of the log: a failed print goes before a failed mending.
pub fn status_after(printed: Result<(), WriteFault>, mended: Result<(), DiskFault>) -> Status
    ensures { result ≡ status_after printed mended }
{
    match (printed, mended) {
        (Err(WriteFault), _) => Status::WriteFault,
        (Ok(()), Err(DiskFault { before, after })) => Status::DiskFault { before, after },
        (Ok(()), Ok(())) => Status::Done,
    }
}
