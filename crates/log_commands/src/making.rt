//! Making a log.

ghost use Rattle.std.specs.Prelude.{◌≡◌, ◌≢◌, [], IsSomeAnd};
ghost use Rattle.io_edges.specs.Faults.{Rose};
ghost use Rattle.disk_model.specs.Images.{GoesOn};
ghost use Rattle.log_commands.specs.Init.{EndsInit};
ghost use Rattle.log_commands.specs.Status.{IsDoneOrNoMemory};

use crate::Status;
use disk_model::{Disk, Failed};
use graph_wal::Wal;

/// Makes the log without a group on a disk without bytes, and makes it firm. It takes no memory.
///
/// `NotEmpty`: the disk has so many bytes, and is as it was. `DiskFault`: nothing is claimed of what the disk
/// holds, or of what a crash leaves of it.
pub fn init<D: Disk>(disk: D) -> (Status, D)
    ensures ends { EndsInit D.told D.moment D.images D.faults disk result.1 result.0 }
    ensures complete { IsSomeAnd (D.told disk) (λ b. b ≡ []) →
        ¬ Rose (D.faults disk) (D.faults result.1) → IsDoneOrNoMemory result.0 }
    ensures memory { result.0 ≢ Status.NoMemory }
    ensures keeps { GoesOn D.told D.moment D.images D.faults disk result.1 }
{
    let mut disk = disk;
    let before = disk.faults();
    match disk.len() {
        Ok(0) => match Wal::make(disk) {
            Ok(wal) => (Status::Done, wal.into_disk()),
            Err((_, disk)) => (fault_since(before, &disk), disk),
        },
        Ok(length) => (Status::NotEmpty { length }, disk),
        Err(Failed) => (fault_since(before, &disk), disk),
    }
}

/// The fault that a disk had since its count was this.
fn fault_since<D: Disk>(before: u64, disk: &D) -> Status
    ensures { result ≡ Status.DiskFault before (D.faults disk.now) }
{
    Status::DiskFault {
        before,
        after: disk.faults(),
    }
}
