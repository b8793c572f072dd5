//! The steps of writing and mending, each firm when it is done.

ghost use Rattle.std.specs.Prelude.{◌≡◌, ◌+◌, ◌<◌, ◌≤◌, ◌^◌, ℕ, List, [], ◌∷◌, ◌++◌, length, take, IfOk, OnOk, OnErr, IfSome};
ghost use Rattle.io_edges.specs.Faults.{Rose};
ghost use Rattle.disk_model.specs.Images.{Torn, CutShort, Only, ToldBy, GoesOn};
ghost use Rattle.graph_model.specs.Records.{group_most};
ghost use Rattle.group_codec.specs.Spelling.{group_bytes};
ghost use Rattle.group_commit.specs.Members.{records_at};
ghost use Rattle.graph_wal.specs.Since.{Since, KeepsFront};
ghost use Rattle.graph_wal.specs.Pieces.{members_bytes, AreWithin, AreSpelled, Wrote};

use crate::pieces::write_group;
use disk_model::{Disk, Failed};
use group_commit::Group;

/// Writes a byte over another, and makes it firm.
pub(crate) fn set_byte<D: Disk>(disk: &mut D, place: u64, value: u8) -> Result<(), Failed>
    requires fits { place < 2 ^ 63 }
    requires joined { IfSome (D.told disk.old) (λ b. place ≤ length b) }
    ensures wrote { OnOk result (Wrote (D.told disk.old) (D.told disk.new) place (value ∷ [])) }
    ensures firm { OnOk result
        (IfSome (D.told disk.new) (λ b. Only b (D.images disk.new (D.moment disk.new)))) }
    ensures torn { Since D.moment D.images disk.old disk.new
        (λ c. (d : List ℕ) × D.images disk.old (D.moment disk.old) d × Torn place 1 d c) }
    ensures failed { OnErr result (Rose (D.faults disk.old) (D.faults disk.new)) }
    ensures keeps { GoesOn D.told D.moment D.images D.faults disk.old disk.new }
{
    match disk.write_at(place, &[value]) {
        Ok(()) => disk.sync(),
        Err(failed) => Err(failed),
    }
}

/// Cuts the disk to a length, and makes that firm.
pub(crate) fn cut_to<D: Disk>(disk: &mut D, to: u64) -> Result<(), Failed>
    ensures cut { OnOk result
        (ToldBy (λ old new. new ≡ take to old) (D.told disk.old) (D.told disk.new)) }
    ensures firm { OnOk result
        (IfSome (D.told disk.new) (λ b. Only b (D.images disk.new (D.moment disk.new)))) }
    ensures torn { Since D.moment D.images disk.old disk.new
        (λ c. (d : List ℕ) × D.images disk.old (D.moment disk.old) d × CutShort to d c) }
    ensures failed { OnErr result (Rose (D.faults disk.old) (D.faults disk.new)) }
    ensures keeps { GoesOn D.told D.moment D.images D.faults disk.old disk.new }
{
    match disk.cut(to) {
        Ok(()) => disk.sync(),
        Err(failed) => Err(failed),
    }
}

/// Writes a group and the closed gate behind it from a place on, makes them firm, and answers the place behind
/// that gate.
pub(crate) fn stage_group<D: Disk>(
    disk: &mut D,
    start: u64,
    epoch: u64,
    g: &Group,
) -> Result<u64, Failed>
    requires within { AreWithin g.now }
    requires fits { start < 2 ^ 63 }
    requires joined { IfSome (D.told disk.old) (λ b. start ≤ length b) }
    ensures end { IfOk result (λ n. n ≡ start + length (group_bytes epoch (records_at epoch g.now)) + 1) }
    ensures within { IfOk result (λ n. n < 2 ^ 63) }
    ensures wrote { OnOk result
        (Wrote (D.told disk.old) (D.told disk.new) start (group_bytes epoch (records_at epoch g.now) ++ 0 ∷ [])) }
    ensures firm { OnOk result
        (IfSome (D.told disk.new) (λ b. Only b (D.images disk.new (D.moment disk.new)))) }
    ensures front { KeepsFront D.moment D.images disk.old disk.new start }
    ensures spelled { AreSpelled g.now }
    ensures few { length g.now ≤ group_most }
    ensures short { length (members_bytes g.now) ≤ 1073743104 }
    ensures failed { OnErr result (Rose (D.faults disk.old) (D.faults disk.new)) }
    ensures keeps { GoesOn D.told D.moment D.images D.faults disk.old disk.new }
{
    match write_group(disk, start, epoch, g) {
        Ok(end) => match disk.sync() {
            Ok(()) => Ok(end),
            Err(failed) => Err(failed),
        },
        Err(failed) => Err(failed),
    }
}
