//! The opening of a run.

ghost use Rattle.std.specs.Prelude.{◌≡◌, ◌+◌, [], OnErr, IfOk, IfErr};
ghost use Rattle.io_edges.specs.Faults.{NeverFalls};
ghost use Rattle.io_edges.specs.Reads.{TookAtMost};
ghost use Rattle.disk_model.specs.Images.{GoesOn};
ghost use Rattle.request_text.specs.Limits.{AreWithinLimits};
ghost use Rattle.run_opening.specs.Script.{script_most, ReadScript};
ghost use Rattle.run_opening.specs.Opening.{Unrun, IsKept, IsOpened};

use crate::log::{cut_log, open_log};
use crate::script::read_whole;
use disk_model::Disk;
use graph_model::{Base, Records};
use io_edges::{OutBuffer, Source};
use log_commands::{BUFFER_ROOM, Status};
use script_parts::ScriptParts;
use std::alloc::Global;
use std::snapshot::Snapshot;
use std::thread::Threads;

/// What a run begins with.
#[derive(Drop)]
pub struct Opened {
    /// What it starts from.
    pub base: Base,
    /// The durable length of the log, behind which nothing stands.
    pub durable: u64,
    /// The script.
    pub script: ScriptParts,
    /// A buffer to print through.
    pub buffer: OutBuffer,
    /// The records of the log, for clauses alone: it has no bytes.
    pub records: Snapshot<Records>,
}

/// Opens a run: makes the log on the disk firm and recovers it, reads the script and judges it by so many threads, and
/// cuts off what stands behind the log. The status names the first thing that went wrong in this order.
///
/// A status as the error: every image since recovers to what it did. A script that is refused leaves the bytes
/// of the log as they were. Memory: the bytes of the log, its records, the graph after them, the text of the
/// script, its lines, and a buffer of 64 KiB.
pub fn open_run<S: Source, D: Disk, R: Threads + Sync>(
    rt: &R,
    alloc: Global,
    threads: u32,
    source: &mut S,
    disk: &mut D,
) -> Result<Opened, Status>
    ensures opened { IfOk result (λ o.
        IsOpened D.told D.moment D.images disk.old disk.new o.records.value o.base o.durable) }
    ensures read { IfOk result (λ o. ReadScript (S.left source.old) (S.left source.new) o.script) }
    ensures within { IfOk result (λ o. AreWithinLimits o.script) }
    ensures empty { IfOk result (λ o. o.buffer.pending ≡ []) }
    ensures room { IfOk result (λ o. o.buffer.room ≡ 65536) }
    ensures refused { IfErr result (λ status. Unrun status
        (S.left source.old) (S.left source.new) (S.faults source.old) (S.faults source.new)
        (D.told disk.old) (D.faults disk.old) (D.faults disk.new)) }
    ensures kept { IfErr result (IsKept D.told D.moment D.images disk.old disk.new) }
    ensures keeps { GoesOn D.told D.moment D.images D.faults disk.old disk.new }
    ensures taken { TookAtMost (S.left source.old) (S.left source.new) (script_most + 1) }
    ensures source_count { NeverFalls (S.faults source.old) (S.faults source.new) }
{
    let before = disk.faults();
    let log = open_log(alloc, before, disk)?;
    let script = match read_whole(rt, alloc, threads, source) {
        Ok(script) => script,
        Err(status) => return Err(status),
    };
    let Ok(buffer) = OutBuffer::new(alloc, BUFFER_ROOM) else {
        return Err(Status::NoMemory);
    };
    let records = Snapshot::of(&log.records);
    match cut_log(before, &log, disk) {
        Ok(()) => Ok(Opened {
            base: log.base,
            durable: log.durable,
            script,
            buffer,
            records,
        }),
        Err(status) => Err(status),
    }
}
