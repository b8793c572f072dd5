//! The log of a run, before the first request.

ghost use Rattle.std.specs.Prelude.{◌≡◌, ◌<◌, ◌≤◌, ◌^◌, ℕ, List, length, OnOk, OnErr, IfOk, IfErr, IfSome};
ghost use Rattle.io_edges.specs.Faults.{Rose};
ghost use Rattle.graph_model.specs.Records.{Lawful, all_changes};
ghost use Rattle.disk_model.specs.Images.{Only, GoesOn, EachImage};
ghost use Rattle.group_codec.specs.Log.{Recovers};
ghost use Rattle.graph_wal.specs.Log.{RecoversTo};
ghost use Rattle.graph_recover.specs.Bases.{base_of};
ghost use Rattle.log_commands.specs.Opening.{Unopened};
ghost use Rattle.run_opening.specs.Moments.{KeepsImages, IsSettledTo};

use disk_model::Disk;
use graph_recover::{RecoverRefusal, Recovered, recover};
use graph_wal::{cut_rest, settle};
use log_commands::Status;
use std::alloc::Global;

/// Makes the log on a disk firm, and recovers it. The disk's count of faults at entry is told.
pub(crate) fn open_log<D: Disk>(
    alloc: Global,
    before: u64,
    disk: &mut D,
) -> Result<Recovered, Status>
    requires { before ≤ D.faults disk.old }
    ensures recovered { IfOk result (λ r.
        IfSome (D.told disk.old) (λ b. Recovers b r.records r.durable × (r.length ≡ length b))) }
    ensures lawful { IfOk result (λ r. Lawful r.records) }
    ensures base { IfOk result (λ r. r.base ≡ base_of r.records) }
    ensures changes { IfOk result (λ r. length (all_changes r.records) ≤ r.length) }
    ensures durable { IfOk result (λ r. (9 ≤ r.durable) × (r.durable ≤ r.length) × (r.length < 2 ^ 63)) }
    ensures firm { OnOk result
        (IfSome (D.told disk.new) (λ b. Only b (D.images disk.new (D.moment disk.new)))) }
    ensures settled { IfOk result (λ r. IsSettledTo D.told D.moment D.images disk.old r.records →
        IfSome (D.told disk.old) (λ _.
        EachImage D.moment D.images disk.new (D.moment disk.old) (λ _ c. RecoversTo r.records c))) }
    ensures refused { IfErr result (λ status.
        Unopened status (D.told disk.old) before (D.faults disk.new)) }
    ensures told { D.told disk.new ≡ D.told disk.old }
    ensures images { KeepsImages D.moment D.images disk.old disk.new }
    ensures keeps { GoesOn D.told D.moment D.images D.faults disk.old disk.new }
{
    match settle(disk) {
        Ok(()) => {}
        Err(_) => return Err(fault_since(before, disk)),
    }
    match recover(alloc, disk) {
        Ok(log) => Ok(log),
        Err(RecoverRefusal::NoLog) => Err(Status::NoLog),
        Err(RecoverRefusal::BadLog { at, group }) => Err(Status::BadLog { at, group }),
        Err(RecoverRefusal::DiskFault { .. }) => Err(fault_since(before, disk)),
        Err(RecoverRefusal::NoMemory) => Err(Status::NoMemory),
    }
}

/// Cuts off what stands behind a log that is firm, where there is something. The disk's count of faults at
/// entry is told.
pub(crate) fn cut_log<D: Disk>(before: u64, log: &Recovered, disk: &mut D) -> Result<(), Status>
    requires before { before ≤ D.faults disk.old }
    requires within { log.now.durable ≤ log.now.length }
    requires firm { IfSome (D.told disk.old) (λ b. Only b (D.images disk.old (D.moment disk.old))
        × Recovers b log.now.records log.now.durable × (log.now.length ≡ length b)) }
    ensures firm { OnOk result (IfSome (D.told disk.new) (λ b. Only b (D.images disk.new (D.moment disk.new))
        × Recovers b log.now.records log.now.durable × (length b ≡ log.now.durable))) }
    ensures any_moment { (from : ℕ) →
        EachImage D.moment D.images disk.old from (λ _ c. RecoversTo log.now.records c) →
        IfSome (D.told disk.old) (λ _.
        EachImage D.moment D.images disk.new from (λ _ c. RecoversTo log.now.records c)) }
    ensures uncut { log.now.length ≡ log.now.durable → disk.new ≡ disk.old }
    ensures longer { OnErr result (log.now.durable < log.now.length) }
    ensures refused { IfErr result (λ status. status ≡ Status.DiskFault before (D.faults disk.new)) }
    ensures failed { OnErr result (Rose before (D.faults disk.new)) }
    ensures keeps { GoesOn D.told D.moment D.images D.faults disk.old disk.new }
{
    if log.length <= log.durable {
        return Ok(());
    }
    match cut_rest(disk, log.durable) {
        Ok(()) => Ok(()),
        Err(_) => Err(fault_since(before, disk)),
    }
}

/// The fault that a disk had since its count was this.
fn fault_since<D: Disk>(before: u64, disk: &D) -> Status
    ensures { result ≡ Status.DiskFault before (D.faults disk.now) }
{
    Status::DiskFault {
        before,
        after: disk.faults(),
    }
}
