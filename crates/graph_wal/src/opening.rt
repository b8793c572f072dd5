//! What is done to the log on a disk before it is adopted: what a read gives is made firm, and the rest behind
//! its closed gate is cut off.

ghost use Rattle.std.specs.Prelude.{◌≡◌, ◌≤◌, ℕ, List, length, OnOk, OnErr, IfErr, IfSome};
ghost use Rattle.graph_model.specs.declared.record.Record.{Record};
ghost use Rattle.disk_model.specs.Images.{Only, GoesOn, EachImage};
ghost use Rattle.group_codec.specs.Log.{Recovers};
ghost use Rattle.graph_wal.specs.Fault.{IsFault};
ghost use Rattle.graph_wal.specs.Log.{RecoversTo};

use crate::DiskFault;
use crate::steps::cut_to;
use disk_model::{Disk, Failed};

/// Makes what a read gives firm, as a crash may have left it pending. No image since is one that could not be left
/// before; and where every image since an earlier moment recovered to the same records, every image does still.
///
/// `DiskFault`: a crash may leave what it could leave before.
pub fn settle<D: Disk>(disk: &mut D) -> Result<(), DiskFault>
    ensures firm { OnOk result
        (IfSome (D.told disk.new) (λ b. Only b (D.images disk.new (D.moment disk.new)))) }
    ensures told { D.told disk.new ≡ D.told disk.old }
    ensures none_new { EachImage D.moment D.images disk.new (D.moment disk.old)
        (λ _ c. D.images disk.old (D.moment disk.old) c) }
    ensures any_moment { (r : List Record) (from : ℕ) → from ≤ D.moment disk.old →
        EachImage D.moment D.images disk.old from (λ _ c. RecoversTo r c) →
        EachImage D.moment D.images disk.new from (λ _ c. RecoversTo r c) }
    ensures disk_fault { IfErr result (IsFault (D.faults disk.old) (D.faults disk.new)) }
    ensures keeps { GoesOn D.told D.moment D.images D.faults disk.old disk.new }
{
    let before = disk.faults();
    match disk.sync() {
        Ok(()) => Ok(()),
        Err(Failed) => Err(DiskFault {
            before,
            after: disk.faults(),
        }),
    }
}

/// Cuts off what stands behind the closed gate of a log that is firm, and makes that firm. It takes no memory.
/// Time: one cut and one sync.
///
/// `DiskFault`: the log is as it was up to its gate, and behind it there may be any bytes.
pub fn cut_rest<D: Disk>(disk: &mut D, durable: u64) -> Result<(), DiskFault>
    ensures firm { OnOk result
        (IfSome (D.told disk.new) (λ b. Only b (D.images disk.new (D.moment disk.new)))) }
    ensures log { (r : List Record) → IfSome (D.told disk.old) (λ b. Recovers b r durable) →
        OnOk result (IfSome (D.told disk.new) (λ b. Recovers b r durable × (length b ≡ durable))) }
    ensures any_moment { (r : List Record) (from : ℕ) →
        IfSome (D.told disk.old)
        (λ b. Only b (D.images disk.old (D.moment disk.old)) × Recovers b r durable) →
        EachImage D.moment D.images disk.old from (λ _ c. RecoversTo r c) →
        IfSome (D.told disk.old) (λ _. EachImage D.moment D.images disk.new from (λ _ c. RecoversTo r c)) }
    ensures disk_fault { IfErr result (IsFault (D.faults disk.old) (D.faults disk.new)) }
    ensures keeps { GoesOn D.told D.moment D.images D.faults disk.old disk.new }
{
    let before = disk.faults();
    match cut_to(disk, durable) {
        Ok(()) => Ok(()),
        Err(Failed) => Err(DiskFault {
            before,
            after: disk.faults(),
        }),
    }
}
