//! What no clause says: that the calls succeed with ample memory, and what the log holds after a fault at each sync.

ghost use Rattle.std.specs.Prelude.{IfOk};
ghost use Rattle.store_log.specs.Samples.{IsVertex};

use disk_model::{Disk, Fail, Kind, MemDisk};
use graph_model::{Bytes, Change, Changes, Payload, Record};
use graph_wal::Wal;
use group_codec::{decode_log, push_change};
use group_commit::{Group, Member};
use std::alloc::Global;
use std::test::Fail as TestFail;
use store_log::story::a_failed_group_is_replaced;
use store_log::{LogClosed, LogHome};

/// The group of a transaction that makes the vertex of its number.
fn vertex(alloc: Global, tid: u64, byte: u8) -> Result<Group, TestFail>
    ensures { IfOk result (IsVertex tid byte) }
{
    let p = Payload::from_slice(alloc, &[byte])?;
    let change = Change::New { v: tid, p };
    let mut bytes = Bytes::new(alloc);
    push_change(&mut bytes, &change)?;
    let mut changes = Changes::new(alloc);
    changes.push(change)?;
    let record = Record {
        tid,
        read: 0,
        epoch: 0,
        changes,
    };
    let mut group = Group::new();
    group.push(Member::new(record, bytes));
    Ok(group)
}

/// A log that is made, and to which three groups are appended, on a disk with this sync that fails. None where another
/// append than the second failed.
fn with_fault(alloc: Global, number: u64) -> Result<Option<LogClosed<MemDisk>>, TestFail> {
    let first = vertex(alloc, 1, b'a')?;
    let second = vertex(alloc, 2, b'b')?;
    let last = vertex(alloc, 3, b'c')?;
    let failing = vec![in alloc;
        Fail {
            kind: Kind::Sync,
            number
        },
    ]?;
    match MemDisk::new(alloc, Vec::new(alloc), 100, 1000, failing) {
        Ok(disk) => Ok(a_failed_group_is_replaced(disk, &first, &second, &last)),
        Err(_) => Err(TestFail::from("memory")),
    }
}

/// The numbers of the transactions that a disk recovers to.
fn numbers(alloc: Global, disk: &MemDisk) -> Result<Vec<u64>, TestFail> {
    match decode_log(alloc, disk.bytes()) {
        Ok(decoded) => {
            let records = decoded.records;
            let mut numbers = Vec::new(alloc);
            for record in records.as_slice() {
                numbers.push(record.tid)?;
            }
            Ok(numbers)
        }
        Err(_) => Err(TestFail::from("no log")),
    }
}

#[test]
fn a_group_whose_append_failed_is_replaced_by_the_next(rt: HostRuntime) -> Result<(), TestFail> {
    let alloc = rt.alloc();
    for number in 4..6 {
        let closed = with_fault(alloc, number)?.ok_or("another way")?;
        assert_eq!(rt; closed.mended, Ok(()));
        assert_eq!(rt; closed.wal.durable(), 107);
        let last_moment = closed.last_moment;
        let disk = closed.wal.into_disk();
        assert_eq!(rt; disk.bytes().len(), 107);
        assert_eq!(rt; numbers(alloc, &disk)?.as_slice(), [1u64, 3].as_slice());
        assert!(rt; last_moment <= disk.moment());
    }
    Ok(())
}

#[test]
fn a_fault_in_another_append_goes_another_way(rt: HostRuntime) -> Result<(), TestFail> {
    for number in [1, 2, 3, 6, 7, 20] {
        assert!(rt; with_fault(rt.alloc(), number)?.is_none(), "{number}");
    }
    Ok(())
}

/// The value, as another thread may have it.
fn sent<T: Send>(value: T) -> T {
    value
}

#[test]
fn a_new_log_may_go_to_another_thread(rt: HostRuntime) -> Result<(), TestFail> {
    let alloc = rt.alloc();
    let Ok(disk) = MemDisk::new(alloc, Vec::new(alloc), 100, 1000, Vec::new(alloc)) else {
        return Err(TestFail::from("memory"));
    };
    let Ok(wal) = Wal::make(disk) else {
        return Err(TestFail::from("no log"));
    };
    let home = sent(LogHome::opened(wal, 0));
    assert_eq!(rt;
        (home.durable(), home.last_moment(), home.mended()),
        (0, 0, true)
    );
    assert_eq!(rt; home.into_wal().durable(), 9);
    Ok(())
}
