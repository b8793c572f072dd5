//! Reading payloads, changes and records at the front of bytes.

ghost use Rattle.std.specs.Prelude.{◌≡◌, ◌<◌, ◌≤◌, ◌^◌, ◌++◌, ◌∷◌, length, drop, flat_map, IfOk, IfSome, IfNone, IsErrOf};
ghost use Rattle.std.specs.List.{list_all};
ghost use Rattle.group_codec.specs.Spelling.{u16_bytes, u64_bytes, payload_bytes, is_payload, change_bytes, has_fields, changes_bytes, head_bytes, record_bytes, is_spelled};
ghost use Rattle.group_codec.specs.Reading.{Begins, NoneBegins, ReadsUpTo, all_of, vertex_bytes, is_vertex, edge_bytes, is_edge};

use crate::number::{u16_at, u32_at, u64_at};
use crate::refusal::GroupRefusal;
use graph_model::{Change, Changes, Payload, Record, Records};
use std::alloc::Global;

// The payload at the front.
fn payload_at(alloc: Global, bytes: &[u8]) -> Result<Payload, GroupRefusal>
    ensures found { IfOk result (Begins is_payload payload_bytes bytes.now) }
    ensures bad { IsErrOf result GroupRefusal.Bad → NoneBegins is_payload payload_bytes bytes.now }
{
    let Some(len) = u16_at(bytes) else {
        return Err(GroupRefusal::Bad);
    };
    let end = 2 + len as usize;
    if bytes.len() < end {
        return Err(GroupRefusal::Bad);
    }
    let p = Payload::from_slice(alloc, &bytes[2..end])?;
    Ok(p)
}

// The vertex and the payload at the front.
fn vertex_at(alloc: Global, bytes: &[u8]) -> Result<(u64, Payload), GroupRefusal>
    ensures found { IfOk result (Begins is_vertex vertex_bytes bytes.now) }
    ensures bad { IsErrOf result GroupRefusal.Bad → NoneBegins is_vertex vertex_bytes bytes.now }
{
    let Some(v) = u64_at(bytes) else {
        return Err(GroupRefusal::Bad);
    };
    match payload_at(alloc, &bytes[8..]) {
        Ok(p) => Ok((v, p)),
        Err(refusal) => Err(refusal),
    }
}

// The vertex, the label and the destination at the front.
fn edge_at(bytes: &[u8]) -> Option<(u64, u16, u64)>
    ensures found { IfSome result (Begins is_edge edge_bytes bytes.now) }
    ensures long { IfSome result (λ _. 18 ≤ length bytes.now) }
    ensures short { IfNone result (length bytes.now < 18) }
{
    let v = u64_at(bytes)?;
    let l = u16_at(&bytes[8..])?;
    let d = u64_at(&bytes[10..])?;
    Some((v, l, d))
}

// The edge and its payload at the front.
fn put_at(alloc: Global, bytes: &[u8]) -> Result<Change, GroupRefusal>
    ensures found { IfOk result (λ c. Begins has_fields change_bytes (4 ∷ bytes.now) c) }
    ensures bad { IsErrOf result GroupRefusal.Bad → NoneBegins has_fields change_bytes (4 ∷ bytes.now) }
{
    let Some((v, l, d)) = edge_at(bytes) else {
        return Err(GroupRefusal::Bad);
    };
    match payload_at(alloc, &bytes[18..]) {
        Ok(p) => Ok(Change::Put { v, l, d, p }),
        Err(refusal) => Err(refusal),
    }
}

/// The change at the front.
pub fn change_at(alloc: Global, bytes: &[u8]) -> Result<Change, GroupRefusal>
    ensures found { IfOk result (Begins has_fields change_bytes bytes.now) }
    ensures bad { IsErrOf result GroupRefusal.Bad → NoneBegins has_fields change_bytes bytes.now }
{
    let [tag, fields @ ..] = bytes else {
        return Err(GroupRefusal::Bad);
    };
    match *tag {
        1 => match vertex_at(alloc, fields) {
            Ok((v, p)) => Ok(Change::New { v, p }),
            Err(refusal) => Err(refusal),
        },
        2 => match vertex_at(alloc, fields) {
            Ok((v, p)) => Ok(Change::Set { v, p }),
            Err(refusal) => Err(refusal),
        },
        3 => match u64_at(fields) {
            Some(v) => Ok(Change::Drop { v }),
            None => Err(GroupRefusal::Bad),
        },
        4 => put_at(alloc, fields),
        5 => match edge_at(fields) {
            Some((v, l, d)) => Ok(Change::Del { v, l, d }),
            None => Err(GroupRefusal::Bad),
        },
        _ => Err(GroupRefusal::Bad),
    }
}

// Changes, as many as told, at the front, and how many bytes they take.
fn changes_at(alloc: Global, count: u32, bytes: &[u8]) -> Result<(Changes, usize), GroupRefusal>
    ensures found { IfOk result (λ x. (length x.0 ≡ count) × ReadsUpTo has_fields change_bytes bytes.now x.0 x.1) }
    ensures bad { IsErrOf result GroupRefusal.Bad → NoneBegins (all_of count has_fields) changes_bytes bytes.now }
{
    let mut changes = Changes::new(alloc);
    let mut size = 0;
    for _turn in 0..count {
        let change = match change_at(alloc, &bytes[size..]) {
            Ok(change) => change,
            Err(refusal) => return Err(refusal),
        };
        size += change.encoded_len() as usize;
        changes.push(change)?;
    }
    Ok((changes, size))
}

// The number, the epoch read, and how many changes there are, at the front.
fn head_at(bytes: &[u8]) -> Option<(u64, u64, u32)>
    ensures found { IfSome result (λ x. bytes.now ≡ head_bytes x.0 x.1 x.2 ++ drop 20 bytes.now) }
    ensures fits { IfSome result (λ x. (x.0 < 2 ^ 64) × (x.1 < 2 ^ 64) × (x.2 < 2 ^ 32)) }
    ensures long { IfSome result (λ _. 20 ≤ length bytes.now) }
    ensures short { IfNone result (length bytes.now < 20) }
{
    let tid = u64_at(bytes)?;
    let read = u64_at(&bytes[8..])?;
    let count = u32_at(&bytes[16..])?;
    Some((tid, read, count))
}

// The record at the front, with this epoch, and how many bytes it takes.
fn record_at(alloc: Global, epoch: u64, bytes: &[u8]) -> Result<(Record, usize), GroupRefusal>
    ensures found { IfOk result (λ x. Begins (is_spelled epoch) record_bytes bytes.now x.0 ×
        (x.1 ≡ length (record_bytes x.0)) × (x.1 ≤ length bytes.now)) }
    ensures bad { IsErrOf result GroupRefusal.Bad → NoneBegins (is_spelled epoch) record_bytes bytes.now }
{
    let Some((tid, read, count)) = head_at(bytes) else {
        return Err(GroupRefusal::Bad);
    };
    if count == 0 {
        return Err(GroupRefusal::Bad);
    }
    match changes_at(alloc, count, &bytes[20..]) {
        Ok((changes, size)) => Ok((
            Record {
                tid,
                read,
                epoch,
                changes,
            },
            20 + size,
        )),
        Err(refusal) => Err(refusal),
    }
}

/// Records of this epoch, as many as told, at the front, and how many bytes they take.
pub fn records_at(
    alloc: Global,
    epoch: u64,
    count: u32,
    bytes: &[u8],
) -> Result<(Records, usize), GroupRefusal>
    ensures found { IfOk result (λ x. (length x.0 ≡ count) ×
        ReadsUpTo (is_spelled epoch) record_bytes bytes.now x.0 x.1) }
    ensures bad { IsErrOf result GroupRefusal.Bad →
        NoneBegins (all_of count (is_spelled epoch)) (flat_map record_bytes) bytes.now }
{
    let mut records = Records::new(alloc);
    let mut size = 0;
    for _turn in 0..count {
        let (record, len) = match record_at(alloc, epoch, &bytes[size..]) {
            Ok(found) => found,
            Err(refusal) => return Err(refusal),
        };
        size += len;
        records.push(record)?;
    }
    Ok((records, size))
}
