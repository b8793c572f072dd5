//! What no clause says: that calls succeed with ample memory, the bytes of worked logs, and what every image of
//! every moment recovers to when each call of the disk fails in turn.

ghost use Rattle.std.specs.Prelude.{◌<◌, ◌≤◌, ◌^◌, length, IfSome, IfOk, OnOk};
ghost use Rattle.group_commit.specs.Encoded.{Spells};
ghost use Rattle.graph_wal.specs.Pieces.{AreWithin};

use crate::silent::Silent;
use disk_model::{Fail, Kind, MemDisk};
use graph_model::{Bytes, Change, Changes, NoMemory, Payload, Record};
use graph_wal::{DiskFault, Wal};
use group_codec::{decode_log, push_change};
use group_commit::{Group, Member};
use std::alloc::Global;
use std::test::Fail as TestFail;

/// The log with one group, which made vertex 1 and two edges.
const FIRST_LOG: &[u8] = b"TELLOG1\n\x01\0\0\0\x57\0\0\0\0\0\0\0\x01\0\0\0\x01\
\0\0\0\0\0\0\0\x01\0\0\0\0\0\0\0\0\0\0\0\x03\
\x01\0\0\0\0\0\0\0\x01\0\x01a\
\x04\0\0\0\0\0\0\0\x01\0\x05\0\0\0\0\0\0\0\x09\0\x01\xff\
\x04\0\0\0\0\0\0\0\x01\0\x05\0\0\0\0\0\0\0\x07\0\0\0";

/// The log with one group, by which transaction 2 made vertex 2.
const SECOND_LOG: &[u8] = b"TELLOG1\n\x01\0\0\0\x2c\0\0\0\0\0\0\0\x01\0\0\0\x01\
\0\0\0\0\0\0\0\x02\0\0\0\0\0\0\0\0\0\0\0\x01\x01\0\0\0\0\0\0\0\x02\0\x01b\0";

/// An empty disk with these calls that fail.
fn disk(alloc: Global, failing: &[Fail]) -> Result<Silent, TestFail> {
    let failing = failing.to_vec(alloc)?;
    match MemDisk::new(alloc, Vec::new(alloc), 100, 1000, failing) {
        Ok(disk) => Ok(Silent::new(disk)),
        Err(_) => Err(TestFail::from("memory")),
    }
}

/// Appends a change to a list, and its spelling to the list's.
fn push(changes: &mut Changes, bytes: &mut Bytes, change: Change) -> Result<(), NoMemory>
    requires { Spells bytes.old changes.old }
    ensures { OnOk result (Spells bytes.new changes.new) }
{
    push_change(bytes, &change)?;
    changes.push(change)?;
    Ok(())
}

/// The group of the transaction of this number that made these changes.
fn group_of(tid: u64, changes: Changes, bytes: Bytes) -> Option<Group>
    requires { Spells bytes changes }
    ensures { IfSome result (λ g. (0 < length g) × AreWithin g) }
{
    if bytes.len() > 1000 {
        return None;
    }
    let record = Record {
        tid,
        read: 0,
        epoch: 0,
        changes,
    };
    let mut group = Group::new();
    group.push(Member::new(record, bytes));
    Some(group)
}

/// The group of a transaction that makes the vertex of its number.
fn vertex(alloc: Global, tid: u64, payload: u8) -> Result<Group, TestFail>
    ensures { IfOk result (λ g. (0 < length g) × AreWithin g) }
{
    let mut changes = Changes::new(alloc);
    let mut bytes = Bytes::new(alloc);
    let p = Payload::from_slice(alloc, &[payload])?;
    push(&mut changes, &mut bytes, Change::New { v: tid, p })?;
    match group_of(tid, changes, bytes) {
        Some(group) => Ok(group),
        None => Err(TestFail::from("a long group")),
    }
}

/// The group of the first log.
fn first(alloc: Global) -> Result<Group, TestFail>
    ensures { IfOk result (λ g. (0 < length g) × AreWithin g) }
{
    let mut changes = Changes::new(alloc);
    let mut bytes = Bytes::new(alloc);
    let p = Payload::from_slice(alloc, b"a")?;
    push(&mut changes, &mut bytes, Change::New { v: 1, p })?;
    let p = Payload::from_slice(alloc, &[0xff])?;
    push(
        &mut changes,
        &mut bytes,
        Change::Put {
            v: 1,
            l: 5,
            d: 9,
            p,
        },
    )?;
    let p = Payload::from_slice(alloc, &[])?;
    push(
        &mut changes,
        &mut bytes,
        Change::Put {
            v: 1,
            l: 5,
            d: 7,
            p,
        },
    )?;
    match group_of(1, changes, bytes) {
        Some(group) => Ok(group),
        None => Err(TestFail::from("a long group")),
    }
}

/// A log on a disk with these calls that fail.
fn log(alloc: Global, failing: &[Fail]) -> Result<Wal<Silent>, TestFail>
    ensures { IfOk result (λ w. (9 ≤ w.durable) × (w.durable < 2 ^ 63)) }
{
    match Wal::make(disk(alloc, failing)?) {
        Ok(wal) => Ok(wal),
        Err(_) => Err(TestFail::from("no log")),
    }
}

/// Appends a group to a log whose disk tells nothing.
fn append(wal: &mut Wal<Silent>, epoch: u64, group: &Group) -> Result<u64, DiskFault>
    requires long { 9 ≤ wal.old.durable }
    requires short { wal.old.durable < 2 ^ 63 }
    requires members { 0 < length group.now }
    requires within { AreWithin group.now }
    ensures long { 9 ≤ wal.new.durable }
    ensures short { wal.new.durable < 2 ^ 63 }
{
    wal.append_group(epoch, group)
}

/// Mends a log whose disk tells nothing.
fn mend(wal: &mut Wal<Silent>) -> Result<(), DiskFault>
    requires long { 9 ≤ wal.old.durable }
    requires short { wal.old.durable < 2 ^ 63 }
{
    wal.mend()
}

/// What fails at one call.
fn at(kind: Kind, number: u64) -> Fail {
    Fail { kind, number }
}

#[test]
fn a_group_stands_in_the_log_as_it_was_appended(rt: HostRuntime) -> Result<(), TestFail> {
    let alloc = rt.alloc();
    let mut wal = log(alloc, &[])?;
    let group = first(alloc)?;
    assert_eq!(rt; append(&mut wal, 1, &group), Ok(6));
    assert_eq!(rt; (wal.durable(), wal.mended()), (101, true));
    assert_eq!(rt; wal.into_disk().into_disk().bytes(), FIRST_LOG);
    Ok(())
}

#[test]
fn an_append_after_a_failed_one_mends_first(rt: HostRuntime) -> Result<(), TestFail> {
    let alloc = rt.alloc();
    let mut wal = log(alloc, &[at(Kind::Sync, 3)])?;
    let group = vertex(alloc, 1, b'a')?;
    let fault = DiskFault {
        before: 0,
        after: 1,
    };
    assert_eq!(rt; append(&mut wal, 1, &group), Err(fault));
    assert_eq!(rt; (wal.durable(), wal.mended()), (9, false));
    let group = vertex(alloc, 2, b'b')?;
    assert!(rt; append(&mut wal, 1, &group).is_ok());
    assert_eq!(rt; (wal.durable(), wal.mended()), (58, true));
    assert_eq!(rt; wal.into_disk().into_disk().bytes(), SECOND_LOG);
    Ok(())
}

#[test]
fn a_fault_in_mending_is_told_by_its_counts(rt: HostRuntime) -> Result<(), TestFail> {
    let alloc = rt.alloc();
    let mut wal = log(alloc, &[at(Kind::Sync, 3), at(Kind::Sync, 4)])?;
    let group = vertex(alloc, 1, b'a')?;
    assert!(rt; append(&mut wal, 1, &group).is_err());
    let fault = DiskFault {
        before: 1,
        after: 2,
    };
    assert_eq!(rt; append(&mut wal, 1, &group), Err(fault));
    assert!(rt; append(&mut wal, 1, &group).is_ok());
    Ok(())
}

#[test]
fn a_log_that_is_not_made_hands_its_disk_back(rt: HostRuntime) -> Result<(), TestFail> {
    let disk = disk(rt.alloc(), &[at(Kind::Sync, 1)])?;
    match Wal::make(disk) {
        Ok(_) => Err(TestFail::from("made")),
        Err((fault, disk)) => {
            let want = DiskFault {
                before: 0,
                after: 1,
            };
            assert_eq!(rt; fault, want);
            assert_eq!(rt; disk.into_disk().bytes(), b"TELLOG1\n\0".as_slice());
            Ok(())
        }
    }
}

#[test]
fn a_log_is_adopted_and_mended(rt: HostRuntime) -> Result<(), TestFail> {
    let alloc = rt.alloc();
    let disk = log(alloc, &[])?.into_disk();
    let mut wal = Wal::adopt(disk, 9);
    let group = first(alloc)?;
    assert!(rt; append(&mut wal, 1, &group).is_ok());
    let mut wal = Wal::adopt(wal.into_disk(), 101);
    assert_eq!(rt; mend(&mut wal), Ok(()));
    assert_eq!(rt; wal.into_disk().into_disk().bytes(), FIRST_LOG);
    Ok(())
}

/// The numbers of the transactions that an image recovers to.
fn numbers(alloc: Global, image: &[u8]) -> Result<Vec<u64>, TestFail> {
    match decode_log(alloc, image) {
        Ok(decoded) => {
            let records = decoded.records;
            let mut numbers = Vec::new(alloc);
            for record in records.as_slice() {
                numbers.push(record.tid)?;
            }
            Ok(numbers)
        }
        Err(_) => Err(TestFail::from("no log")),
    }
}

/// What the appends of a run answered: the numbers of the transactions that are durable, each with its moment,
/// and of those whose attempts failed.
#[derive(Drop)]
struct Run {
    durable: Vec<(u64, u64)>,
    failed: Vec<u64>,
}

impl Run {
    /// Whether a crash at this moment may leave these transactions: those that were durable by then, with the
    /// next one, with a failed one, or without.
    fn allows(&self, moment: u64, numbers: &[u64]) -> bool {
        let known = self.durable.iter().filter(|(_, m)| *m <= moment).count();
        let same = numbers
            .iter()
            .zip(&self.durable)
            .take_while(|(number, durable)| **number == durable.0)
            .count();
        if numbers.len() == known {
            return same >= known;
        }
        let last = numbers.last().copied().unwrap_or(0);
        let more = same > known || self.failed.contains(&last);
        same >= known && more && numbers.len().saturating_sub(known) == 1
    }
}

/// Three appends on a disk with one call that fails, and what they answered.
fn three(alloc: Global, failing: Fail) -> Result<(Run, MemDisk), TestFail> {
    let mut wal = log(alloc, &[failing])?;
    let mut run = Run {
        durable: Vec::new(alloc),
        failed: Vec::new(alloc),
    };
    let mut epoch = 1u64;
    for tid in 1..4 {
        let group = vertex(alloc, tid, b'x')?;
        match append(&mut wal, epoch, &group) {
            Ok(moment) => {
                run.durable.push((tid, moment))?;
                epoch = epoch.saturating_add(1);
            }
            Err(_) => run.failed.push(tid)?,
        }
    }
    Ok((run, wal.into_disk().into_disk()))
}

/// Whether each image of each moment from the third on is allowed.
fn all_allowed(alloc: Global, run: &Run, disk: &MemDisk) -> Result<bool, TestFail> {
    for moment in 2..40 {
        for choice in [0, 1, 7] {
            let image = match disk.image(alloc, moment, choice) {
                Ok(image) => image,
                Err(_) => return Err(TestFail::from("memory")),
            };
            let numbers = numbers(alloc, image.as_slice())?;
            if !run.allows(moment, numbers.as_slice()) {
                return Ok(false);
            }
        }
    }
    Ok(true)
}

#[test]
fn every_image_has_what_was_acknowledged(rt: HostRuntime) -> Result<(), TestFail> {
    for kind in [Kind::Write, Kind::Cut, Kind::Sync] {
        for number in 2..20 {
            let (run, disk) = three(rt.alloc(), at(kind, number))?;
            assert_eq!(rt;
                all_allowed(rt.alloc(), &run, &disk)?,
                true,
                "{kind:?} {number}"
            );
        }
    }
    Ok(())
}
