//! The opening of a drill.

ghost use Rattle.std.specs.Prelude.{◌≡◌, ◌+◌, ◌<◌, ◌≤◌, ◌^◌, [], length, IfOk, IfErr};
ghost use Rattle.graph_model.specs.Records.{all_changes};
ghost use Rattle.disk_model.specs.Images.{GoesOn};
ghost use Rattle.request_text.specs.Limits.{AreWithinLimits};
ghost use Rattle.graph_drill.specs.Scripts.{first_script, second_script};
ghost use Rattle.run_opening.specs.Drill.{Undrilled};
ghost use Rattle.run_opening.specs.Opening.{IsKept, IsOpened};

use crate::log::{cut_log, open_log};
use disk_model::Disk;
use graph_drill::drill_scripts;
use graph_model::{Base, NUMBER_END, NoMemory, Records};
use io_edges::OutBuffer;
use log_commands::{BUFFER_ROOM, Status};
use script_parts::ScriptParts;
use std::alloc::Global;
use std::snapshot::Snapshot;

/// What a drill begins with.
#[derive(Drop)]
pub struct OpenedDrill {
    /// What it starts from.
    pub base: Base,
    /// The durable length of the log, behind which nothing stands.
    pub durable: u64,
    /// The script that makes the vertices.
    pub first: ScriptParts,
    /// The script that puts the edges.
    pub second: ScriptParts,
    /// A buffer to print through.
    pub buffer: OutBuffer,
    /// The records of the log, for clauses alone: it has no bytes.
    pub records: Snapshot<Records>,
}

/// The two scripts of a drill, each in one part.
fn both_scripts(
    alloc: Global,
    seed: u64,
    sessions: u32,
    rounds: u32,
    next_vertex: u64,
) -> Result<(ScriptParts, ScriptParts), NoMemory>
    requires { next_vertex + sessions ≤ 2 ^ 62 }
    ensures first { IfOk result (λ scripts. scripts.0 ≡ first_script sessions) }
    ensures second { IfOk result (λ scripts. scripts.1 ≡ second_script seed next_vertex sessions rounds) }
    ensures within { sessions ≤ 65536 → IfOk result (λ scripts. AreWithinLimits scripts.0 × AreWithinLimits scripts.1) }
{
    let (first, second) = drill_scripts(alloc, seed, sessions, rounds, next_vertex)?;
    let first = ScriptParts::of(alloc, first)?;
    let second = ScriptParts::of(alloc, second)?;
    Ok((first, second))
}

/// Opens a drill of so many sessions and rounds: makes the log on the disk firm and recovers it, makes the two scripts
/// of the seed, and cuts off what stands behind the log. The status names the first thing that went wrong in this order.
///
/// A status as the error: every image since recovers to what it did. `Usage`: there are not so many numbers of vertices
/// left below 2^62, and the bytes of the log are as they were. Memory: the bytes of the log, its records, the graph after
/// them, the lines of the scripts, and a buffer of 64 KiB.
pub fn open_drill<D: Disk>(
    alloc: Global,
    seed: u64,
    sessions: u32,
    rounds: u32,
    disk: &mut D,
) -> Result<OpenedDrill, Status>
    requires some { 0 < sessions }
    requires few { sessions ≤ 65536 }
    ensures opened { IfOk result (λ o.
        IsOpened D.told D.moment D.images disk.old disk.new o.records.value o.base o.durable) }
    ensures numbers { IfOk result (λ o. o.base.next_vertex + sessions ≤ 2 ^ 62) }
    ensures first { IfOk result (λ o. o.first ≡ first_script sessions) }
    ensures second { IfOk result (λ o. o.second ≡ second_script seed o.base.next_vertex sessions rounds) }
    ensures within { IfOk result (λ o. AreWithinLimits o.first × AreWithinLimits o.second) }
    ensures empty { IfOk result (λ o. o.buffer.pending ≡ []) }
    ensures room { IfOk result (λ o. o.buffer.room ≡ 65536) }
    ensures changes { IfOk result (λ o. length (all_changes o.records.value) < 2 ^ 63) }
    ensures refused { IfErr result (λ status.
        Undrilled sessions status (D.told disk.old) (D.faults disk.old) (D.faults disk.new)) }
    ensures kept { IfErr result (IsKept D.told D.moment D.images disk.old disk.new) }
    ensures keeps { GoesOn D.told D.moment D.images D.faults disk.old disk.new }
{
    let before = disk.faults();
    let log = open_log(alloc, before, disk)?;
    if u64::from(sessions) > NUMBER_END.saturating_sub(log.base.next_vertex) {
        return Err(Status::Usage);
    }
    let Ok((first, second)) = both_scripts(alloc, seed, sessions, rounds, log.base.next_vertex)
    else {
        return Err(Status::NoMemory);
    };
    let Ok(buffer) = OutBuffer::new(alloc, BUFFER_ROOM) else {
        return Err(Status::NoMemory);
    };
    let records = Snapshot::of(&log.records);
    match cut_log(before, &log, disk) {
        Ok(()) => Ok(OpenedDrill {
            base: log.base,
            durable: log.durable,
            first,
            second,
            buffer,
            records,
        }),
        Err(status) => Err(status),
    }
}
