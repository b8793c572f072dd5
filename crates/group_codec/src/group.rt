//! Reading a group at the front of bytes.

ghost use Rattle.std.specs.Prelude.{◌≡◌, ◌<◌, ◌≤◌, ◌^◌, ◌++◌, ℕ, List, length, drop, IfOk, IfSome, IfNone, IsErrOf, IsTrue};
ghost use Rattle.graph_model.specs.declared.record.Record.{Record};
ghost use Rattle.group_codec.specs.Spelling.{u32_bytes, u64_bytes, group_payload, group_bytes, are_spelled, is_group};
ghost use Rattle.group_codec.specs.Reading.{NoGroupBegins, NoPayloadOf};

use crate::number::{u32_at, u64_at};
use crate::read::records_at;
use crate::refusal::GroupRefusal;
use graph_model::Records;
use std::alloc::Global;

/// The greatest number of records in a group.
const GROUP_MOST: u32 = graph_model::GROUP_MOST as u32;

// The epoch and how many records there are, at the front of a group's payload.
fn group_head_at(bytes: &[u8]) -> Option<(u64, u32)>
    ensures found { IfSome result (λ x. bytes.now ≡ (u64_bytes x.0 ++ u32_bytes x.1) ++ drop 12 bytes.now) }
    ensures fits { IfSome result (λ x. (x.0 < 2 ^ 64) × (x.1 < 2 ^ 32)) }
    ensures long { IfSome result (λ _. 12 ≤ length bytes.now) }
    ensures short { IfNone result (length bytes.now < 12) }
{
    let epoch = u64_at(bytes)?;
    let count = u32_at(&bytes[8..])?;
    Some((epoch, count))
}

// The records of a group's payload, which ends with the last one.
fn payload_of(alloc: Global, epoch: u64, payload: &[u8]) -> Result<Records, GroupRefusal>
    ensures found { IfOk result (λ g. IsTrue (are_spelled epoch g) × (payload.now ≡ group_payload epoch g)) }
    ensures bad { IsErrOf result GroupRefusal.Bad → NoPayloadOf epoch payload.now }
{
    let Some((first, count)) = group_head_at(payload) else {
        return Err(GroupRefusal::Bad);
    };
    if first != epoch {
        return Err(GroupRefusal::Bad);
    }
    if count == 0 || count > GROUP_MOST {
        return Err(GroupRefusal::Bad);
    }
    let (records, size) = match records_at(alloc, epoch, count, &payload[12..]) {
        Ok(found) => found,
        Err(refusal) => return Err(refusal),
    };
    if 12 + size != payload.len() {
        return Err(GroupRefusal::Bad);
    }
    Ok(records)
}

/// The group of this epoch at the front, with a gate behind it, and the place of that gate.
pub fn group_at(alloc: Global, epoch: u64, bytes: &[u8]) -> Result<(Records, usize), GroupRefusal>
    ensures spelled { IfOk result (λ x. IsTrue (is_group epoch x.0)) }
    ensures found { IfOk result (λ x. (bytes.now ≡ group_bytes epoch x.0 ++ drop x.1 bytes.now) ×
        (x.1 ≡ length (group_bytes epoch x.0))) }
    ensures gate { IfOk result (λ x. x.1 < length bytes.now) }
    ensures bad { IsErrOf result GroupRefusal.Bad → NoGroupBegins epoch bytes.now }
{
    let Some(len) = u32_at(bytes) else {
        return Err(GroupRefusal::Bad);
    };
    let end = 4 + len as usize;
    if bytes.len() <= end {
        return Err(GroupRefusal::Bad);
    }
    match payload_of(alloc, epoch, &bytes[4..end]) {
        Ok(records) => Ok((records, end)),
        Err(refusal) => Err(refusal),
    }
}
