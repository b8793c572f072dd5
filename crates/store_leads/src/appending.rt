//! The append of a group that was collected.

ghost use Rattle.std.specs.Prelude.{◌≡◌, ◌+◌, ◌<◌, ◌≤◌, true, length};
ghost use Rattle.graph_model.specs.Records.{number_end};
ghost use Rattle.group_commit.specs.Members.{records_at};
ghost use Rattle.graph_wal.specs.Pieces.{AreWithin};
ghost use Rattle.store_log.specs.LogChanges.{MayWrite};
ghost use Rattle.store_leads.specs.Appends.{Answers, HasTried};

use disk_model::Disk;
use graph_wal::DiskFault;
use group_commit::Group;
use std::sync::Wait;
use store_log::LogHome;

/// How an append went: whether the log was mended before it, and the moment that it answered, or its fault.
#[derive(Drop)]
pub(crate) struct Tried {
    pub mended: bool,
    pub answer: Result<u64, DiskFault>,
}

// A fault by which the count rose. A disk whose count stands at its greatest value can tell of no fault more: the call
// then waits, and never ends.
fn risen<R: Wait>(rt: &R, fault: DiskFault) -> DiskFault
    ensures { (result ≡ fault) × (fault.before < fault.after) }
{
    if fault.before >= fault.after {
        for _ in rt.forever() {}
        unreachable!()
    }
    fault
}

// Appends a group to a log on which no attempt stands.
fn append_to<D: Disk, R: Wait>(
    rt: &R,
    log: &mut LogHome<D>,
    group: &Group,
) -> Result<u64, DiskFault>
    requires mended { log.old.log.mended ≡ true }
    requires members { 0 < length group.now }
    requires within { AreWithin group.now }
    requires epoch { log.old.log.durable ≤ number_end }
    requires lawful { MayWrite log.old.log (records_at (log.old.log.durable + 1) group.now) }
    ensures answer { Answers (records_at (log.old.log.durable + 1) group.now) log.old.log result log.new.log }
    ensures in_time { log.new.log.moment ≤ D.moment log.new.wal.disk }
{
    match log.append(group) {
        Ok(moment) => Ok(moment),
        Err(fault) => Err(risen(rt, fault)),
    }
}

/// Appends a group, where an attempt stands (the log is not mended) after it was taken off. It takes no memory.
///
/// Time: the bytes of the group and two syncs, and where an attempt stands at most a write, a cut and their syncs.
pub(crate) fn append_group<D: Disk, R: Wait>(
    rt: &R,
    log: &mut LogHome<D>,
    group: &Group,
    mended: bool,
) -> Tried
    requires stands { mended ≡ log.old.log.mended }
    requires members { 0 < length group.now }
    requires within { AreWithin group.now }
    requires epoch { log.old.log.durable ≤ number_end }
    requires lawful { MayWrite log.old.log (records_at (log.old.log.durable + 1) group.now) }
    ensures tried { HasTried (records_at (log.old.log.durable + 1) group.now) log.old.log result log.new.log }
    ensures in_time { log.new.log.moment ≤ D.moment log.new.wal.disk }
{
    if mended {
        let answer = append_to(rt, log, group);
        return Tried {
            mended: false,
            answer,
        };
    }
    if let Err(fault) = log.mend() {
        return Tried {
            mended: false,
            answer: Err(risen(rt, fault)),
        };
    }
    let answer = append_to(rt, log, group);
    Tried {
        mended: true,
        answer,
    }
}
