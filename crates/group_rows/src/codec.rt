//! Logs as bytes: the worked example of the format, and what damage to it answers.

use crate::asserts::{same, same_in};
use graph_model::{Bytes, Change, Changes, Payload, Record, Records};
use group_codec::{
    CodecRefusal, can_encode, change_len, decode_log, encode_group, push_change, record_head,
};
use std::alloc::Global;
use std::fmt::Write;
use std::test::Fail;

// One group of one record, which makes vertex 1 and puts two edges on it, between an open gate and a closed one.
const LOG: [u8; 101] = [
    0x54, 0x45, 0x4c, 0x4c, 0x4f, 0x47, 0x31, 0x0a, // the eight bytes
    1, // an open gate
    0, 0, 0, 0x57, // the length
    0, 0, 0, 0, 0, 0, 0, 1, 0, 0, 0, 1, // epoch 1, one record
    0, 0, 0, 0, 0, 0, 0, 1, 0, 0, 0, 0, 0, 0, 0, 0, 0, 0, 0, 3, // number 1, read epoch 0, three changes
    1, 0, 0, 0, 0, 0, 0, 0, 1, 0, 1, 0x61, // New 1, a
    4, 0, 0, 0, 0, 0, 0, 0, 1, 0, 5, 0, 0, 0, 0, 0, 0, 0, 9, 0, 1, 0xff, // Put 1 5 9, ff
    4, 0, 0, 0, 0, 0, 0, 0, 1, 0, 5, 0, 0, 0, 0, 0, 0, 0, 7, 0, 0, // Put 1 5 7
    0, // a closed gate
];

fn put(alloc: Global, d: u64, bytes: &[u8]) -> Result<Change, Fail> {
    if bytes.len() > Payload::MOST {
        return Err(Fail::from("a long payload"));
    }
    let p = Payload::from_slice(alloc, bytes)?;
    Ok(Change::Put { v: 1, l: 5, d, p })
}

// The record of the log.
fn changes(alloc: Global) -> Result<Changes, Fail> {
    let mut changes = Changes::new(alloc);
    let p = Payload::from_slice(alloc, b"a")?;
    changes.push(Change::New { v: 1, p })?;
    changes.push(put(alloc, 9, &[0xff])?)?;
    changes.push(put(alloc, 7, &[])?)?;
    Ok(changes)
}

// What decoding answers, as a line.
fn answer(alloc: Global, bytes: &[u8]) -> Result<String, Fail> {
    let mut line = String::new(alloc);
    match decode_log(alloc, bytes) {
        Ok(decoded) => {
            let records = decoded.records.len();
            let durable = decoded.durable;
            write!(line, "{records} records, durable {durable}")?;
        }
        Err(CodecRefusal::BadGroup { at, group }) => write!(line, "bad at {at}, group {group}")?,
        Err(CodecRefusal::NoMemory) => write!(line, "no memory")?,
    }
    Ok(line)
}

// The answer to the log with these bytes in place of those from a place on.
fn changed(alloc: Global, place: usize, bytes: &[u8]) -> Result<String, Fail> {
    let mut log = Vec::from_slice(alloc, LOG.as_slice())?;
    let mut at = place;
    for byte in bytes {
        if at < log.len() {
            log[at] = *byte;
        }
        at = at.saturating_add(1);
    }
    answer(alloc, log.as_slice())
}

#[test]
fn a_group_stands_in_the_log_as_it_is_encoded(rt: HostRuntime) -> Result<(), Fail> {
    let alloc = rt.alloc();
    let mut records = Records::new(alloc);
    let record = Record {
        tid: 1,
        read: 0,
        epoch: 1,
        changes: changes(alloc)?,
    };
    records.push(record)?;
    let group = encode_one(alloc, &records)?;
    same(&rt, group.as_slice(), &LOG[9..100]);
    let line = answer(alloc, LOG.as_slice())?;
    same(&rt, line.as_str(), "1 records, durable 101");
    Ok(())
}

// Encodes the records where they are one of epoch 1, within the limits.
fn encode_one(alloc: Global, records: &Records) -> Result<Bytes, Fail> {
    if !can_encode(1, records) {
        return Err(Fail::from("no group"));
    }
    Ok(encode_group(alloc, 1, records)?)
}

#[test]
fn a_record_is_its_head_and_its_changes(rt: HostRuntime) -> Result<(), Fail> {
    let alloc = rt.alloc();
    let mut bytes = Bytes::new(alloc);
    bytes.extend_from_slice(&record_head(1, 0, 3))?;
    let changes = changes(alloc)?;
    let mut len = 20;
    for change in changes.as_slice() {
        push_change(&mut bytes, change)?;
        len = change_len(change).saturating_add(len);
    }
    same(&rt, bytes.as_slice(), &LOG[25..100]);
    same(&rt, len, 75);
    Ok(())
}

#[test]
fn damage_is_told_by_its_place(rt: HostRuntime) -> Result<(), Fail> {
    let alloc = rt.alloc();
    for len in 0..101 {
        let line = answer(alloc, &LOG[..len])?;
        let want = if len < 9 {
            "bad at 0, group 0"
        } else {
            "bad at 9, group 1"
        };
        same_in(&rt, line.as_str(), want, len);
    }
    for place in 0..8 {
        let line = changed(alloc, place, &[7])?;
        same_in(&rt, line.as_str(), "bad at 0, group 0", place);
    }
    let rows: [(&str, usize, &[u8], &str); 14] = [
        ("the first gate is 7", 8, &[7], "0 records, durable 9"),
        ("the last gate is open", 100, &[1], "bad at 101, group 2"),
        ("the last gate is 7", 100, &[7], "1 records, durable 101"),
        (
            "the length passes the end",
            9,
            &[0xff, 0xff, 0xff, 0xff],
            "bad at 9, group 1",
        ),
        ("the length is one less", 12, &[0x56], "bad at 9, group 1"),
        ("epoch 2", 20, &[2], "bad at 9, group 1"),
        ("no record", 24, &[0], "bad at 9, group 1"),
        ("two records", 24, &[2], "bad at 9, group 1"),
        ("65 records", 24, &[65], "bad at 9, group 1"),
        ("read epoch 1", 40, &[1], "bad at 9, group 1"),
        ("no change", 44, &[0], "bad at 9, group 1"),
        ("vertex 0 is made", 53, &[0], "bad at 9, group 1"),
        ("a tag that no change has", 57, &[6], "bad at 9, group 1"),
        (
            "a destination of 2^63",
            68,
            &[0x80, 0, 0, 0, 0, 0, 0, 0],
            "bad at 9, group 1",
        ),
    ];
    for (name, place, bytes, want) in &rows {
        let line = changed(alloc, *place, bytes)?;
        same_in(&rt, line.as_str(), *want, name);
    }
    Ok(())
}
