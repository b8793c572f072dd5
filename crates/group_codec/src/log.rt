//! Decoding a log.

ghost use Rattle.std.specs.Prelude.{◌≡◌, ◌<◌, ◌+◌, ◌++◌, ◌↔◌, ℕ, List, IsTrue, IfOk, IfErr, IsErrOf, length, drop, true, false, []};
ghost use Rattle.graph_model.specs.declared.record.Record.{Record};
ghost use Rattle.graph_model.specs.Graph.{after};
ghost use Rattle.graph_model.specs.Records.{all_changes};
ghost use Rattle.group_codec.specs.Log.{log_head, Recovers, NoHead, NoGroup, IsCause};
ghost use Rattle.group_codec.specs.Judging.{KnowsLawful, IsTaken};

use crate::decoded::{CodecRefusal, Decoded};
use crate::group::group_at;
use crate::judge::Judge;
use crate::refusal::GroupRefusal;
use graph_model::{Graph, Records};
use std::alloc::Global;

/// An open gate: a group follows it.
const OPEN: u8 = 1;

/// The records of a log, and the place behind its last gate. Where a group is not of the grammar or breaks a
/// rule of records, `BadGroup` names the first such. Time: one step for each byte, and for each change what
/// applying it to a graph takes.
pub fn decode_log(alloc: Global, bytes: &[u8]) -> Result<Decoded, CodecRefusal>
    ensures recovered { IfOk result (λ decoded. Recovers bytes.now decoded.records decoded.durable) }
    ensures bad { IfErr result (λ refusal. IsCause refusal bytes.now) }
{
    match decode_with_graph(alloc, bytes) {
        Ok((decoded, _graph)) => Ok(decoded),
        Err(refusal) => Err(refusal),
    }
}

/// As `decode_log`, and the graph after the records, which the rules were judged by. It takes no time beside
/// that of `decode_log`.
pub fn decode_with_graph(alloc: Global, bytes: &[u8]) -> Result<(Decoded, Graph), CodecRefusal>
    ensures recovered { IfOk result (λ found. Recovers bytes.now found.0.records found.0.durable) }
    ensures graph { IfOk result (λ found. found.1 ≡ after (all_changes found.0.records) []) }
    ensures bad { IfErr result (λ refusal. IsCause refusal bytes.now) }
{
    if !has_head(bytes) {
        return Err(CodecRefusal::BadGroup { at: 0, group: 0 });
    }
    let mut judge = Judge::new(alloc);
    let mut records = Records::new(alloc);
    let mut place = 8;
    let mut count = 0;
    while bytes[place] == OPEN {
        let group = count + 1;
        match take_group(alloc, group, &bytes[place + 1..], &mut judge, &mut records) {
            Ok(size) => place += 1 + size,
            Err(GroupRefusal::Bad) => {
                return Err(CodecRefusal::BadGroup {
                    at: place as u64 + 1,
                    group,
                });
            }
            Err(GroupRefusal::NoMemory) => return Err(CodecRefusal::NoMemory),
        }
        count = group;
    }
    let decoded = Decoded {
        records,
        durable: place as u64 + 1,
    };
    Ok((decoded, judge.into_graph()))
}

// Whether the bytes begin with those of a log, and a gate stands behind these.
fn has_head(bytes: &[u8]) -> bool
    ensures log { IsTrue result → (8 < length bytes.now) × (bytes.now ≡ log_head ++ drop 8 bytes.now) }
    ensures no_log { result ≡ false → NoHead bytes.now }
{
    bytes.len() > 8 && bytes.starts_with(b"TELLOG1\n")
}

// Takes the group at the front, whose records are added, and tells the place of the gate behind it.
fn take_group(
    alloc: Global,
    epoch: u64,
    bytes: &[u8],
    judge: &mut Judge,
    records: &mut Records,
) -> Result<usize, GroupRefusal>
    ensures taken { IfOk result (λ place. (g : List Record) ×
        IsTaken epoch bytes.now judge.old judge.new records.old records.new place g) }
    ensures bad { IsErrOf result GroupRefusal.Bad → (groups : List (List Record)) → KnowsLawful judge.old groups →
        epoch ≡ length groups + 1 → NoGroup groups bytes.now }
{
    let (group, place) = match group_at(alloc, epoch, bytes) {
        Ok(found) => found,
        Err(refusal) => return Err(refusal),
    };
    if !judge.take_group(epoch, group.as_slice())? {
        return Err(GroupRefusal::Bad);
    }
    records.append(group)?;
    Ok(place)
}
