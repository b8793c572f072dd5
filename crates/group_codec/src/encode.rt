//! Changes, records and groups as bytes.

ghost use Rattle.std.specs.Prelude.{◌≡◌, ◌<◌, ◌≤◌, ◌^◌, ◌++◌, ◌∷◌, ◌*◌, length, take, flat_map, ◌&&◌, nat_lt, nat_le, OnOk, OnErr, IfOk, IsTrue};
ghost use Rattle.std.specs.List.{list_all};
ghost use Rattle.graph_model.specs.Payload.{payload_most};
ghost use Rattle.graph_model.specs.Change.{encoded_len, encoded_lens};
ghost use Rattle.graph_model.specs.Records.{transaction_most, group_most};
ghost use Rattle.group_codec.specs.Spelling.{u16_bytes, u32_bytes, u64_bytes, payload_bytes, change_bytes, changes_bytes, head_bytes, record_bytes, group_bytes, is_payload, has_fields, is_spelled, is_group, is_within, can_encode};

use crate::rules::is_short;
use byteorder::{BigEndian, ByteOrder};
use graph_model::{Bytes, Change, GROUP_MOST, NoMemory, Payload, Record, Records};
use std::alloc::Global;

/// How many bytes a change is encoded in: at most 65,556.
pub fn change_len(c: &Change) -> u64
    ensures len { result ≡ length (change_bytes c.now) }
    ensures encoded { result ≡ encoded_len c.now }
    ensures within { result ≤ 65556 }
{
    c.encoded_len()
}

/// Appends a change. After NoMemory the bytes are as before. Time: one step for each byte.
pub fn push_change(out: &mut Bytes, c: &Change) -> Result<(), NoMemory>
    ensures pushed { OnOk result (out.new ≡ out.old ++ change_bytes c.now) }
    ensures fields { IsTrue (has_fields c.now) }
    ensures unchanged { OnErr result (out.new ≡ out.old) }
{
    match c {
        Change::New { v, p } => push_with(out, &vertex_head(1, *v), p),
        Change::Set { v, p } => push_with(out, &vertex_head(2, *v), p),
        Change::Drop { v } => out.extend_from_slice(&vertex_head(3, *v)),
        Change::Put { v, l, d, p } => push_with(out, &edge_head(4, *v, *l, *d), p),
        Change::Del { v, l, d } => out.extend_from_slice(&edge_head(5, *v, *l, *d)),
    }
}

// A tag and a vertex.
#[tactic(auto, unfolding(crate::specs::Spelling::u64_bytes))]
fn vertex_head(tag: u8, v: u64) -> [u8; 9]
    ensures { result ≡ tag ∷ u64_bytes v }
{
    let mut head = [tag; 9];
    BigEndian::write_u64(&mut head[1..], v);
    head
}

// A tag, a vertex, a label and a destination.
#[tactic(auto, unfolding(crate::specs::Spelling::u64_bytes, crate::specs::Spelling::u16_bytes))]
fn edge_head(tag: u8, v: u64, l: u16, d: u64) -> [u8; 19]
    ensures { result ≡ tag ∷ (u64_bytes v ++ (u16_bytes l ++ u64_bytes d)) }
{
    let mut head = [tag; 19];
    BigEndian::write_u64(&mut head[1..], v);
    BigEndian::write_u16(&mut head[9..], l);
    BigEndian::write_u64(&mut head[11..], d);
    head
}

/// What stands before the changes of a record: its number, the epoch that it read, and how many they are.
#[tactic(auto, unfolding(crate::specs::Spelling::u64_bytes, crate::specs::Spelling::u32_bytes))]
pub fn record_head(tid: u64, read: u64, count: u32) -> [u8; 20]
    ensures { result ≡ head_bytes tid read count }
{
    let mut head = [0; 20];
    BigEndian::write_u64(&mut head, tid);
    BigEndian::write_u64(&mut head[8..], read);
    BigEndian::write_u32(&mut head[16..], count);
    head
}

#[tactic(auto, unfolding(crate::specs::Spelling::u16_bytes))]
fn len_bytes(len: u16) -> [u8; 2]
    ensures { result ≡ u16_bytes len }
{
    let mut bytes = [0; 2];
    BigEndian::write_u16(&mut bytes, len);
    bytes
}

// Appends a head and a payload; after NoMemory nothing.
fn push_with(out: &mut Bytes, head: &[u8], p: &Payload) -> Result<(), NoMemory>
    ensures pushed { OnOk result (out.new ≡ out.old ++ (head.now ++ payload_bytes p.now)) }
    ensures unchanged { OnErr result (out.new ≡ out.old) }
    ensures payload { IsTrue (is_payload p.now) }
{
    let before = out.len();
    let pushed = push_parts(out, head, p.as_slice());
    if pushed.is_err() {
        out.truncate(before);
    }
    pushed
}

// Appends a head and the bytes of a payload; after NoMemory a front of them.
fn push_parts(out: &mut Bytes, head: &[u8], bytes: &[u8]) -> Result<(), NoMemory>
    requires { length bytes.now ≤ payload_most }
    ensures pushed { OnOk result (out.new ≡ out.old ++ (head.now ++ payload_bytes bytes.now)) }
    ensures begun { OnErr result (take (length out.old) out.new ≡ out.old) }
    ensures payload { IsTrue (is_payload bytes.now) }
{
    out.extend_from_slice(head)?;
    out.extend_from_slice(&len_bytes(bytes.len() as u16))?;
    out.extend_from_slice(bytes)
}

/// Whether `encode_group` may be called: there are one to 64 records, each of this epoch and within the limits
/// of a transaction. Time: one step for each change.
pub fn can_encode(epoch: u64, records: &Records) -> bool
    ensures { result ≡ can_encode epoch records.now }
{
    let records = records.as_slice();
    has_room(records) && are_within(epoch, records)
}

fn are_within(epoch: u64, records: &[Record]) -> bool
    ensures { result ≡ list_all (is_within epoch) records.now }
{
    records.iter().all(|record| is_within(epoch, record))
}

fn has_room(records: &[Record]) -> bool
    ensures { result ≡ (nat_lt 0 (length records.now) && nat_le (length records.now) group_most) }
{
    !records.is_empty() && records.len() <= GROUP_MOST
}

fn is_within(epoch: u64, committed: &Record) -> bool
    ensures { result ≡ is_within epoch committed.now }
{
    let changes = committed.changes.as_slice();
    committed.epoch == epoch && !changes.is_empty() && is_short(changes)
}

/// The length of a group's payload, and the payload: one to 64 records of this epoch, each within the limits
/// of a transaction. No gate stands before or behind it. Time: one step for each byte.
pub fn encode_group(alloc: Global, epoch: u64, records: &Records) -> Result<Bytes, NoMemory>
    requires { IsTrue (can_encode epoch records.now) }
    ensures encoded { IfOk result (λ bytes. bytes ≡ group_bytes epoch records.now) }
    ensures group { OnOk result (IsTrue (is_group epoch records.now)) }
{
    let mut out = Bytes::new(alloc);
    let len = 12 + records_len(epoch, records.as_slice());
    out.extend_from_slice(&group_head(len as u32, epoch, records.len() as u32))?;
    push_records(epoch, &mut out, records.as_slice())?;
    Ok(out)
}

// The length of a group's payload, its epoch, and how many records it has.
#[tactic(auto, unfolding(crate::specs::Spelling::u64_bytes, crate::specs::Spelling::u32_bytes))]
fn group_head(len: u32, epoch: u64, count: u32) -> [u8; 16]
    ensures { result ≡ u32_bytes len ++ (u64_bytes epoch ++ u32_bytes count) }
{
    let mut head = [0; 16];
    BigEndian::write_u32(&mut head, len);
    BigEndian::write_u64(&mut head[4..], epoch);
    BigEndian::write_u32(&mut head[12..], count);
    head
}

// How many bytes the records are encoded in.
fn records_len(epoch: u64, records: &[Record]) -> u64
    requires most { length records.now ≤ group_most }
    requires within { IsTrue (list_all (is_within epoch) records.now) }
    ensures len { result ≡ length (flat_map record_bytes records.now) }
    ensures within { result ≤ 16777236 * length records.now }
{
    let mut len = 0;
    for record in records {
        len += record_len(epoch, record);
    }
    len
}

fn record_len(epoch: u64, committed: &Record) -> u64
    requires { IsTrue (is_within epoch committed.now) }
    ensures len { result ≡ length (record_bytes committed.now) }
    ensures within { result ≤ 16777236 }
{
    20 + changes_len(committed.changes.as_slice())
}

fn changes_len(changes: &[Change]) -> u64
    requires { encoded_lens changes.now ≤ transaction_most }
    ensures len { result ≡ length (changes_bytes changes.now) }
    ensures within { result ≤ transaction_most }
{
    let mut len = 0;
    for change in changes {
        len += change.encoded_len();
    }
    len
}

// Appends the records; after NoMemory a front of them.
fn push_records(epoch: u64, out: &mut Bytes, records: &[Record]) -> Result<(), NoMemory>
    requires { IsTrue (list_all (is_within epoch) records.now) }
    ensures pushed { OnOk result (out.new ≡ out.old ++ flat_map record_bytes records.now) }
    ensures fields { OnOk result (IsTrue (list_all (is_spelled epoch) records.now)) }
{
    for record in records {
        push_record(epoch, out, record)?;
    }
    Ok(())
}

fn push_record(epoch: u64, out: &mut Bytes, committed: &Record) -> Result<(), NoMemory>
    requires { IsTrue (is_within epoch committed.now) }
    ensures pushed { OnOk result (out.new ≡ out.old ++ record_bytes committed.now) }
    ensures fields { OnOk result (IsTrue (is_spelled epoch committed.now)) }
{
    let count = committed.changes.len() as u32;
    push_head(out, committed.tid, committed.read, count)?;
    push_changes(out, committed.changes.as_slice())
}

fn push_head(out: &mut Bytes, tid: u64, read: u64, count: u32) -> Result<(), NoMemory>
    ensures pushed { OnOk result (out.new ≡ out.old ++ head_bytes tid read count) }
    ensures fields { (tid < 2 ^ 64) × (read < 2 ^ 64) }
{
    out.extend_from_slice(&record_head(tid, read, count))
}

fn push_changes(out: &mut Bytes, changes: &[Change]) -> Result<(), NoMemory>
    ensures pushed { OnOk result (out.new ≡ out.old ++ changes_bytes changes.now) }
    ensures fields { OnOk result (IsTrue (list_all has_fields changes.now)) }
{
    for change in changes {
        push_change(out, change)?;
    }
    Ok(())
}
