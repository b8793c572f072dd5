//! Reading all bytes of a disk.

ghost use Rattle.std.specs.Prelude.{◌≡◌, ◌+◌, ◌<◌, ◌≤◌, ◌^◌, length, vec_len, IfOk, OnOk, IfSome, IsErrOf};
ghost use Rattle.io_edges.specs.Faults.{NeverFalls, Rose};
ghost use Rattle.disk_model.specs.Images.{Stays};
ghost use Rattle.graph_recover.specs.Recovery.{IsFront};

use disk_model::{Disk, Failed};
use std::alloc::{AllocError, Global};

/// The greatest piece that is read by one call, in bytes.
const PIECE: usize = 1 << 20;

/// Why the bytes of a disk were not read.
#[derive(Clone, Copy, Debug, PartialEq, Eq)]
pub enum ReadRefusal {
    /// Memory ran out.
    NoMemory,
    /// A call of the disk failed, and its count of faults rose.
    Failed,
}

impl From<Failed> for ReadRefusal {
    ghost use Rattle.graph_recover.specs.declared.reading.ReadRefusal.TheVariants as refusals;

    ghost from_gives = { λ _ refusal. refusal ≡ refusals.Failed };

    fn from(_failed: Failed) -> ReadRefusal {
        ReadRefusal::Failed
    }
}

impl From<AllocError> for ReadRefusal {
    ghost use Rattle.graph_recover.specs.declared.reading.ReadRefusal.TheVariants as refusals;

    ghost from_gives = { λ _ refusal. refusal ≡ refusals.NoMemory };

    fn from(_error: AllocError) -> ReadRefusal {
        ReadRefusal::NoMemory
    }
}

/// The length that a disk tells, and its bytes up to there. Where a read gives no byte before, these are all.
pub fn read_disk<D: Disk>(alloc: Global, disk: &mut D) -> Result<(u64, Vec<u8>), ReadRefusal>
    ensures read { IfOk result (λ r. IfSome (D.told disk.old) (λ b. (r.0 ≡ length b) × (r.1.items ≡ b))) }
    ensures within { IfOk result (λ r. (vec_len r.1 ≤ r.0) × (r.0 < 2 ^ 63)) }
    ensures failed { IsErrOf result ReadRefusal.Failed → Rose (D.faults disk.old) (D.faults disk.new) }
    ensures told { D.told disk.new ≡ D.told disk.old }
    ensures images { Stays (D.moment disk.old) (D.moment disk.new) (D.images disk.old) (D.images disk.new) }
    ensures count { NeverFalls (D.faults disk.old) (D.faults disk.new) }
{
    let length = disk.len()?;
    let bytes = read_up_to(alloc, disk, length as usize)?;
    Ok((length, bytes))
}

/// The first so many bytes of a disk, or all where it has fewer. Each call of the disk but the last takes at
/// least one byte. Memory: so many bytes, taken at once.
fn read_up_to<D: Disk>(alloc: Global, disk: &mut D, most: usize) -> Result<Vec<u8>, ReadRefusal>
    requires { most < 2 ^ 63 }
    ensures read { IfOk result (λ v. IfSome (D.told disk.old) (λ b. most ≡ length b → v.items ≡ b)) }
    ensures within { IfOk result (λ v. vec_len v ≤ most) }
    ensures failed { IsErrOf result ReadRefusal.Failed → Rose (D.faults disk.old) (D.faults disk.new) }
    ensures told { D.told disk.new ≡ D.told disk.old }
    ensures images { Stays (D.moment disk.old) (D.moment disk.new) (D.images disk.old) (D.images disk.new) }
    ensures count { NeverFalls (D.faults disk.old) (D.faults disk.new) }
{
    let mut bytes = Vec::with_capacity(alloc, most)?;
    while bytes.len() < most {
        let end = most.min(bytes.len() + PIECE);
        let n = read_piece(disk, &mut bytes, end)?;
        if n == 0 {
            break;
        }
    }
    Ok(bytes)
}

/// Reads behind the bytes so far, up to a place, by one call, and answers how many bytes came: none only at the
/// end of the disk.
fn read_piece<D: Disk>(disk: &mut D, bytes: &mut Vec<u8>, end: usize) -> Result<usize, ReadRefusal>
    requires { vec_len bytes.old < end }
    ensures front { IsFront (D.told disk.old) bytes.old.items →
        OnOk result (IsFront (D.told disk.old) bytes.new.items) }
    ensures grown { IfOk result (λ n. vec_len bytes.new ≡ vec_len bytes.old + n) }
    ensures within { OnOk result (vec_len bytes.new ≤ end) }
    ensures at_end { IfOk result (λ n. n ≡ 0 → IfSome (D.told disk.old) (λ b. length b ≤ vec_len bytes.old)) }
    ensures failed { IsErrOf result ReadRefusal.Failed → Rose (D.faults disk.old) (D.faults disk.new) }
    ensures told { D.told disk.new ≡ D.told disk.old }
    ensures images { Stays (D.moment disk.old) (D.moment disk.new) (D.images disk.old) (D.images disk.new) }
    ensures count { NeverFalls (D.faults disk.old) (D.faults disk.new) }
{
    let at = bytes.len();
    bytes.resize(end, 0)?;
    let n = disk.read_at(at as u64, &mut bytes[at..])?;
    bytes.truncate(at + n);
    Ok(n)
}
