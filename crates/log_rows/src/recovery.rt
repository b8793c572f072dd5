//! What no clause says: what worked logs and their damage recover to, how a disk is read that lies, and the texts
//! of the refusals.

use crate::lying::Lying;
use disk_model::{Disk, Fail, Kind, MemDisk};
use graph_recover::{RecoverRefusal, recover};
use std::alloc::Global;
use std::fmt::Write;
use std::test::Fail as TestFail;

/// The log with one group, which made vertex 1 and two edges.
const FIRST_LOG: &[u8] = b"TELLOG1\n\x01\0\0\0\x57\0\0\0\0\0\0\0\x01\0\0\0\x01\
\0\0\0\0\0\0\0\x01\0\0\0\0\0\0\0\0\0\0\0\x03\
\x01\0\0\0\0\0\0\0\x01\0\x01a\
\x04\0\0\0\0\0\0\0\x01\0\x05\0\0\0\0\0\0\0\x09\0\x01\xff\
\x04\0\0\0\0\0\0\0\x01\0\x05\0\0\0\0\0\0\0\x07\0\0\0";

/// The log with one group, by which transaction 7 made vertex 2.
const SECOND_LOG: &[u8] = b"TELLOG1\n\x01\0\0\0\x2c\0\0\0\0\0\0\0\x01\0\0\0\x01\
\0\0\0\0\0\0\0\x07\0\0\0\0\0\0\0\0\0\0\0\x01\x01\0\0\0\0\0\0\0\x02\0\x01b\0";

/// The log without a group.
const EMPTY_LOG: &[u8] = b"TELLOG1\n\0";

/// What a disk recovers to, as a line.
fn line_of<D: Disk>(alloc: Global, disk: &mut D) -> Result<String, TestFail> {
    let mut line = String::new(alloc);
    match recover(alloc, disk) {
        Ok(found) => {
            let base = &found.base;
            write!(
                line,
                "{} records, {} of {}: epoch {}, next {} and {}, {} vertices",
                found.records.len(),
                found.durable,
                found.length,
                base.epoch,
                base.next_tid,
                base.next_vertex,
                base.graph.len()
            )?;
        }
        Err(RecoverRefusal::DiskFault { before, after }) => {
            write!(line, "disk fault {before} {after}")?;
        }
        Err(refusal) => write!(line, "{refusal}")?,
    }
    Ok(line)
}

/// What a disk with these bytes, whose call fails, recovers to.
fn line(alloc: Global, bytes: &[u8], failing: &[Fail]) -> Result<String, TestFail> {
    let room = bytes.len();
    let bytes = bytes.to_vec(alloc)?;
    match MemDisk::new(alloc, bytes, 1, room, failing.to_vec(alloc)?) {
        Ok(disk) => line_after(alloc, disk),
        Err(_) => Err(TestFail::from("memory")),
    }
}

/// What a disk recovers to, where the disk is as before.
fn line_after(alloc: Global, disk: MemDisk) -> Result<String, TestFail> {
    let mut disk = disk;
    let moment = disk.moment();
    let line = line_of(alloc, &mut disk)?;
    if disk.moment() != moment {
        return Err(TestFail::from("the disk was written"));
    }
    Ok(line)
}

#[test]
fn a_log_recovers_to_its_base(rt: HostRuntime) -> Result<(), TestFail> {
    let alloc = rt.alloc();
    let rows = [
        (
            FIRST_LOG,
            "1 records, 101 of 101: epoch 1, next 2 and 2, 1 vertices",
        ),
        (
            SECOND_LOG,
            "1 records, 58 of 58: epoch 1, next 8 and 3, 1 vertices",
        ),
        (
            EMPTY_LOG,
            "0 records, 9 of 9: epoch 0, next 1 and 1, 0 vertices",
        ),
        (
            b"TELLOG1\n\0abc".as_slice(),
            "0 records, 9 of 12: epoch 0, next 1 and 1, 0 vertices",
        ),
    ];
    for (bytes, want) in rows {
        let got = line(alloc, bytes, &[])?;
        assert_eq!(rt; got.as_str(), want);
    }
    Ok(())
}

#[test]
fn the_base_has_the_edges_newest_first(rt: HostRuntime) -> Result<(), TestFail> {
    let alloc = rt.alloc();
    let mut disk = Lying::new(FIRST_LOG, 101, 101);
    let found = recover(alloc, &mut disk)?;
    let graph = &found.base.graph;
    let edges = graph.pairs(1, 5).ok_or("no edges")?;
    let mut line = String::new(alloc);
    for pair in edges.edges() {
        write!(line, "{} ", pair.d)?;
    }
    assert_eq!(rt; line.as_str(), "7 9 ");
    Ok(())
}

#[test]
fn a_damaged_log_is_refused_at_its_place(rt: HostRuntime) -> Result<(), TestFail> {
    let alloc = rt.alloc();
    let rows = [
        (100, "bad log at 9 group 1"),
        (9, "bad log at 9 group 1"),
        (5, "bad log at 0 group 0"),
        (0, "no log"),
    ];
    for (length, want) in rows {
        let got = line(alloc, FIRST_LOG.get(..length).ok_or("short")?, &[])?;
        assert_eq!(rt; got.as_str(), want);
    }
    Ok(())
}

#[test]
fn a_fault_is_told_with_its_counts(rt: HostRuntime) -> Result<(), TestFail> {
    let alloc = rt.alloc();
    let mut long = EMPTY_LOG.to_vec(alloc)?;
    long.resize(1_500_000, 7)?;
    let rows = [(Kind::Len, 1), (Kind::Read, 1), (Kind::Read, 2)];
    for (kind, number) in rows {
        let got = line(alloc, long.as_slice(), &[Fail { kind, number }])?;
        assert_eq!(rt; got.as_str(), "disk fault 0 1");
    }
    let got = line(alloc, long.as_slice(), &[])?;
    assert_eq!(rt;
        got.as_str(),
        "0 records, 9 of 1500000: epoch 0, next 1 and 1, 0 vertices"
    );
    Ok(())
}

#[test]
fn a_disk_is_read_up_to_the_length_it_tells_or_its_end(rt: HostRuntime) -> Result<(), TestFail> {
    let alloc = rt.alloc();
    let whole = "1 records, 101 of 101: epoch 1, next 2 and 2, 1 vertices";
    let longer = "1 records, 101 of 200: epoch 1, next 2 and 2, 1 vertices";
    let rows = [
        (FIRST_LOG, 101, 1, 101, whole),
        (FIRST_LOG, 101, 7, 15, whole),
        (FIRST_LOG, 200, 101, 2, longer),
        (FIRST_LOG, 50, 1000, 1, "bad log at 9 group 1"),
        (b"".as_slice(), 100, 1000, 1, "bad log at 0 group 0"),
        (FIRST_LOG, 0, 1000, 0, "no log"),
    ];
    for (bytes, length, piece, reads, want) in rows {
        let mut disk = Lying::new(bytes, length, piece);
        let got = line_of(alloc, &mut disk)?;
        assert_eq!(rt; got.as_str(), want);
        assert_eq!(rt; disk.calls(), (reads, 0));
    }
    Ok(())
}
