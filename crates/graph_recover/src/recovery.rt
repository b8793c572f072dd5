//! Recovering a log from a disk.

ghost use Rattle.std.specs.Prelude.{◌≡◌, ◌<◌, ◌≤◌, ◌^◌, ◌↔◌, length, IfOk, IfErr, IfSome, IsErrOf};
ghost use Rattle.io_edges.specs.Faults.{NeverFalls};
ghost use Rattle.graph_model.specs.Records.{all_changes, Lawful};
ghost use Rattle.disk_model.specs.Images.{Stays};
ghost use Rattle.group_codec.specs.Log.{Recovers};
ghost use Rattle.graph_recover.specs.Bases.{base_of};
ghost use Rattle.graph_recover.specs.Recovery.{IsRecoverCause, IsDecodeCause};

use crate::base::base_of;
use crate::reading::{ReadRefusal, read_disk};
use crate::{RecoverRefusal, Recovered};
use disk_model::Disk;
use group_codec::{CodecRefusal, decode_with_graph};
use std::alloc::Global;

/// Reads the log on a disk: all its bytes, once, and writes nothing. After any refusal the disk is as before.
///
/// A disk that tells its length wrongly is read up to that length, or up to a read that gives no byte.
///
/// Time: one step for each byte, and for each change what applying it to a graph takes. Memory: the bytes of
/// the disk, the records and the graph after them, and while these are judged their numbers and vertices.
pub fn recover<D: Disk>(alloc: Global, disk: &mut D) -> Result<Recovered, RecoverRefusal>
    ensures recovered { IfOk result (λ r. IfSome (D.told disk.old) (λ b. Recovers b r.records r.durable ×
        (r.length ≡ length b))) }
    ensures lawful { IfOk result (λ r. Lawful r.records) }
    ensures base { IfOk result (λ r. r.base ≡ base_of r.records) }
    ensures durable { IfOk result (λ r. (9 ≤ r.durable) × (r.durable ≤ r.length) × (r.length < 2 ^ 63)) }
    ensures changes { IfOk result (λ r. length (all_changes r.records) ≤ r.length) }
    ensures refused { IfErr result (IsRecoverCause (D.told disk.old) (D.faults disk.old) (D.faults disk.new)) }
    ensures told { D.told disk.new ≡ D.told disk.old }
    ensures images { Stays (D.moment disk.old) (D.moment disk.new) (D.images disk.old) (D.images disk.new) }
    ensures count { NeverFalls (D.faults disk.old) (D.faults disk.new) }
{
    let before = disk.faults();
    match read_disk(alloc, disk) {
        Ok((length, bytes)) => recover_bytes(alloc, length, bytes.as_slice()),
        Err(ReadRefusal::Failed) => Err(RecoverRefusal::DiskFault {
            before,
            after: disk.faults(),
        }),
        Err(ReadRefusal::NoMemory) => Err(RecoverRefusal::NoMemory),
    }
}

/// What these bytes, read of a disk that told this length, recover to.
fn recover_bytes(alloc: Global, told: u64, bytes: &[u8]) -> Result<Recovered, RecoverRefusal>
    requires { length bytes.now ≤ told }
    ensures recovered { IfOk result (λ r. Recovers bytes.now r.records r.durable) }
    ensures base { IfOk result (λ r. r.base ≡ base_of r.records) }
    ensures length { IfOk result (λ r. r.length ≡ told) }
    ensures changes { IfOk result (λ r. length (all_changes r.records) ≤ told) }
    ensures no_log { IsErrOf result RecoverRefusal.NoLog ↔ (told ≡ 0) }
    ensures refused { IfErr result (IsDecodeCause bytes.now) }
{
    if told == 0 {
        return Err(RecoverRefusal::NoLog);
    }
    match decode_with_graph(alloc, bytes) {
        Ok((decoded, graph)) => Ok(Recovered {
            base: base_of(graph, &decoded.records),
            records: decoded.records,
            durable: decoded.durable,
            length: told,
        }),
        Err(CodecRefusal::BadGroup { at, group }) => Err(RecoverRefusal::BadLog { at, group }),
        Err(CodecRefusal::NoMemory) => Err(RecoverRefusal::NoMemory),
    }
}
