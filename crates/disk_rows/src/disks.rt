//! What no clause says: that calls succeed with ample memory, the images of worked examples, and how a real file
//! behaves.

use crate::asserts::{holds, same, same_in};
use disk_model::{Disk, Fail, Failed, FileDisk, Hook, HookDisk, Kind, MemDisk, NoMemory};
use std::alloc::Global;
use std::cell::Cell;
use std::fs;
use std::os::unix::fs::PermissionsExt;
use std::test::Fail as TestFail;

/// The log without a group.
const EMPTY_LOG: [u8; 9] = *b"TELLOG1\n\0";

/// A disk with these bytes, and these calls that fail.
fn disk(alloc: Global, bytes: &[u8], failing: &[Fail]) -> Result<MemDisk, NoMemory> {
    let bytes = bytes.to_vec(alloc)?;
    let room = bytes.len().saturating_add(100);
    MemDisk::new(alloc, bytes, 20, room, failing.to_vec(alloc)?)
}

/// Writes within the disk's bytes, or right behind them.
fn put(disk: &mut MemDisk, place: usize, bytes: &[u8]) -> Result<(), Failed> {
    if place > disk.bytes().len() || bytes.len() > 1000 {
        return Err(Failed);
    }
    disk.write_at(place as u64, bytes)
}

/// Whether the image of a moment and a choice is this.
fn is_image(
    alloc: Global,
    disk: &MemDisk,
    moment: u64,
    choice: u64,
    want: &[u8],
) -> Result<bool, NoMemory> {
    let image = disk.image(alloc, moment, choice)?;
    Ok(image.as_slice() == want)
}

#[test]
fn an_image_may_lack_what_is_not_synced(rt: HostRuntime) -> Result<(), TestFail> {
    let mut disk = disk(rt.alloc(), &EMPTY_LOG, &[]).ok().ok_or("memory")?;
    same(&rt, put(&mut disk, 8, &[1]), Ok(()));
    for (choice, last) in [(0, 0), (1, 1), (7, 7), (256, 0), (263, 7)] {
        let mut want = EMPTY_LOG;
        want[8] = last;
        same_in(
            &rt,
            is_image(rt.alloc(), &disk, 1, choice, &want),
            Ok(true),
            choice,
        );
    }
    same(&rt, disk.sync(), Ok(()));
    for choice in [0, 1, 7] {
        let want = b"TELLOG1\n\x01";
        same_in(
            &rt,
            is_image(rt.alloc(), &disk, 2, choice, want),
            Ok(true),
            choice,
        );
    }
    Ok(())
}

#[test]
fn a_failed_sync_makes_nothing_firm(rt: HostRuntime) -> Result<(), TestFail> {
    let failing = [Fail {
        kind: Kind::Sync,
        number: 1,
    }];
    let mut disk = disk(rt.alloc(), b"abc", &failing).ok().ok_or("memory")?;
    same(&rt, put(&mut disk, 1, b"xyz"), Ok(()));
    same(&rt, disk.cut(2), Ok(()));
    same(&rt, disk.sync(), Err(Failed));
    same(&rt, disk.sync(), Ok(()));
    same(&rt, (disk.moment(), disk.faults()), (4, 1));
    let rows = [
        (0, 7, b"abc".as_slice()),
        (1, 0, b"abc".as_slice()),
        (1, 1, b"axyz".as_slice()),
        (1, 7, b"a\x07\x07\x07".as_slice()),
        (3, 0, b"abc".as_slice()),
        (3, 1, b"ax".as_slice()),
        (3, 7, b"a\x07\x07\x07".as_slice()),
        (4, 0, b"ax".as_slice()),
        (4, 7, b"ax".as_slice()),
        (900, 7, b"ax".as_slice()),
    ];
    for (moment, choice, want) in rows {
        same_in(
            &rt,
            is_image(rt.alloc(), &disk, moment, choice, want),
            Ok(true),
            (moment, choice),
        );
    }
    Ok(())
}

#[test]
fn each_kind_of_call_fails_where_it_is_listed(rt: HostRuntime) -> Result<(), TestFail> {
    let kinds = [Kind::Len, Kind::Read, Kind::Write, Kind::Cut, Kind::Sync];
    for kind in kinds {
        let failing = [Fail { kind, number: 2 }];
        let mut disk = disk(rt.alloc(), b"abc", &failing).ok().ok_or("memory")?;
        for number in 1..4 {
            let mut buf = [0; 2];
            let results = [
                disk.len().is_ok(),
                disk.read_at(1, &mut buf).is_ok(),
                put(&mut disk, 0, b"z").is_ok(),
                disk.cut(3).is_ok(),
                disk.sync().is_ok(),
            ];
            for (ok, called) in results.iter().zip(kinds) {
                same(&rt, *ok, called != kind || number != 2);
            }
        }
        same(&rt, disk.faults(), 1);
        same(&rt, disk.moment(), 9);
        same(&rt, disk.bytes(), b"zbc".as_slice());
    }
    Ok(())
}

#[test]
fn a_full_disk_refuses_calls(rt: HostRuntime) -> Result<(), TestFail> {
    let alloc = rt.alloc();
    let mut disk = MemDisk::new(alloc, b"abc".to_vec(alloc)?, 4, 5, Vec::new(alloc))
        .ok()
        .ok_or("memory")?;
    same(&rt, put(&mut disk, 3, b"def"), Err(Failed));
    same(&rt, put(&mut disk, 3, b"de"), Ok(()));
    same(&rt, put(&mut disk, 0, b"wxyz"), Err(Failed));
    same(&rt, disk.cut(1), Ok(()));
    same(&rt, disk.sync(), Err(Failed));
    same(&rt, disk.bytes(), b"a".as_slice());
    same(&rt, disk.len(), Ok(1));
    same(&rt, (disk.moment(), disk.faults()), (5, 3));
    same(&rt, is_image(alloc, &disk, 5, 0, b"abc"), Ok(true));
    Ok(())
}

#[test]
fn a_read_gives_what_is_there(rt: HostRuntime) -> Result<(), TestFail> {
    let mut disk = disk(rt.alloc(), b"abcde", &[]).ok().ok_or("memory")?;
    for (place, want, n) in [
        (0, *b"abc", 3),
        (3, *b"de.", 2),
        (5, *b"...", 0),
        (900, *b"...", 0),
    ] {
        let mut buf = *b"...";
        same_in(&rt, disk.read_at(place, &mut buf), Ok(n), place);
        same_in(&rt, buf, want, place);
    }
    Ok(())
}

/// A hook that keeps the last call and the number of calls.
#[derive(Drop)]
struct LastCall<'a> {
    last: &'a Cell<Option<(Kind, u64)>>,
    calls: &'a Cell<u64>,
}

impl Hook for LastCall<'_> {
    fn before(&self, kind: Kind, number: u64) {
        self.last.set(Some((kind, number)));
        self.calls.set(self.calls.get().saturating_add(1));
    }
}

#[test]
fn a_hook_is_called_before_each_call(rt: HostRuntime) -> Result<(), TestFail> {
    let last = Cell::new(None);
    let calls = Cell::new(0);
    let hook = LastCall {
        last: &last,
        calls: &calls,
    };
    let inner = disk(rt.alloc(), b"abc", &[]).ok().ok_or("memory")?;
    let mut disk = HookDisk::new(inner, hook);
    for number in 1..3 {
        same(&rt, disk.len(), Ok(3));
        same(&rt, last.get(), Some((Kind::Len, number)));
        same(&rt, disk.read_at(0, &mut [0; 3]), Ok(3));
        same(&rt, last.get(), Some((Kind::Read, number)));
        same(&rt, disk.cut(3), Ok(()));
        same(&rt, last.get(), Some((Kind::Cut, number)));
        same(&rt, disk.sync(), Ok(()));
        same(&rt, last.get(), Some((Kind::Sync, number)));
    }
    same(&rt, (disk.moment(), disk.faults()), (4, 0));
    same(&rt, calls.get(), 8);
    same(&rt, disk.into_disk().bytes(), b"abc".as_slice());
    Ok(())
}

const FOLDER: &str = "disk_model_test_folder";

const FILE: &str = "disk_model_test_folder/log";

/// A disk over a file of this name.
fn file_disk<'a>(rt: &'a HostRuntime, name: &str) -> Result<FileDisk<'a, HostRuntime>, TestFail> {
    Ok(FileDisk::new(rt, String::from_str(rt.alloc(), name)?))
}

#[test]
fn a_file_is_made_by_the_first_write(rt: HostRuntime) -> Result<(), TestFail> {
    let _ = fs::remove_dir_all(&rt, FOLDER);
    fs::create_dir(&rt, FOLDER)?;
    let mut disk = file_disk(&rt, FILE)?;
    same(&rt, disk.len(), Ok(0));
    same(&rt, disk.read_at(0, &mut [0; 4]), Ok(0));
    same(&rt, disk.cut(0), Ok(()));
    same(&rt, disk.sync(), Ok(()));
    holds(&rt, !fs::exists(&rt, FILE)?);
    same(&rt, disk.write_at(0, b"abcdef"), Ok(()));
    same(&rt, disk.sync(), Ok(()));
    same(&rt, fs::read_to_string(&rt, FILE)?.as_str(), "abcdef");
    same(&rt, (disk.moment(), disk.faults()), (4, 0));
    fs::remove_dir_all(&rt, FOLDER)?;
    Ok(())
}

const KEPT: &str = "disk_model_test_kept";

#[test]
fn a_file_keeps_what_was_written(rt: HostRuntime) -> Result<(), TestFail> {
    fs::write(&rt, KEPT, b"abcdef".as_slice())?;
    let mut disk = file_disk(&rt, KEPT)?;
    same(&rt, disk.write_at(2, b"xy"), Ok(()));
    drop(disk);
    let mut disk = file_disk(&rt, KEPT)?;
    let mut buf = [0; 8];
    same(&rt, disk.read_at(0, &mut buf), Ok(6));
    same(&rt, buf, *b"abxyef\0\0");
    same(&rt, disk.cut(9), Ok(()));
    same(&rt, disk.len(), Ok(6));
    same(&rt, disk.cut(3), Ok(()));
    same(&rt, disk.sync(), Ok(()));
    same(&rt, disk.len(), Ok(3));
    for place in [3, 4, 1 << 62, u64::MAX] {
        same_in(&rt, disk.read_at(place, &mut buf), Ok(0), place);
    }
    same(&rt, disk.write_at((1 << 63) - 2, b"ab"), Err(Failed));
    same(&rt, (disk.moment(), disk.faults()), (4, 1));
    fs::remove_file(&rt, KEPT)?;
    Ok(())
}

const DIRECTORY: &str = "disk_model_test_directory";

#[test]
fn a_directory_or_a_device_in_place_of_a_file_is_refused(rt: HostRuntime) -> Result<(), TestFail> {
    let _ = fs::remove_dir_all(&rt, DIRECTORY);
    fs::create_dir(&rt, DIRECTORY)?;
    for name in [DIRECTORY, "/dev/zero"] {
        let mut disk = file_disk(&rt, name)?;
        same_in(&rt, disk.len(), Err(Failed), name);
        same_in(&rt, disk.read_at(0, &mut [0; 1]), Err(Failed), name);
        same_in(&rt, disk.write_at(0, b"a"), Err(Failed), name);
        same_in(&rt, disk.cut(0), Err(Failed), name);
        same_in(&rt, disk.sync(), Err(Failed), name);
        same_in(&rt, (disk.moment(), disk.faults()), (3, 5), name);
    }
    fs::remove_dir_all(&rt, DIRECTORY)?;
    Ok(())
}

const LOCKED: &str = "disk_model_test_locked";

#[test]
fn the_second_disk_that_changes_a_file_is_refused(rt: HostRuntime) -> Result<(), TestFail> {
    fs::write(&rt, LOCKED, b"abc".as_slice())?;
    let mut first = file_disk(&rt, LOCKED)?;
    let mut second = file_disk(&rt, LOCKED)?;
    same(&rt, first.sync(), Ok(()));
    same(&rt, second.len(), Ok(3));
    same(&rt, second.read_at(0, &mut [0; 3]), Ok(3));
    same(&rt, second.write_at(0, b"x"), Err(Failed));
    same(&rt, second.cut(1), Err(Failed));
    same(&rt, second.sync(), Err(Failed));
    same(&rt, first.write_at(1, b"y"), Ok(()));
    drop(first);
    same(&rt, second.write_at(2, b"z"), Ok(()));
    same(&rt, fs::read_to_string(&rt, LOCKED)?.as_str(), "ayz");
    fs::remove_file(&rt, LOCKED)?;
    Ok(())
}

const READ_ONLY: &str = "disk_model_test_read_only";

/// A file that may only be read is read, and not made firm; but root may write any.
#[test]
fn a_file_that_may_only_be_read_is_read(rt: HostRuntime) -> Result<(), TestFail> {
    let _ = fs::remove_file(&rt, READ_ONLY);
    fs::write(&rt, READ_ONLY, b"abc".as_slice())?;
    fs::set_permissions(&rt, READ_ONLY, fs::Permissions::from_mode(0o444))?;
    let is_root = fs::OpenOptions::new()
        .write(true)
        .open(&rt, READ_ONLY)
        .is_ok();
    let firm = if is_root { Ok(()) } else { Err(Failed) };
    let mut disk = file_disk(&rt, READ_ONLY)?;
    same(&rt, disk.len(), Ok(3));
    same(&rt, disk.read_at(0, &mut [0; 3]), Ok(3));
    same(&rt, disk.sync(), firm);
    fs::remove_file(&rt, READ_ONLY)?;
    Ok(())
}

const CLOSED: &str = "disk_model_test_closed";

/// A file without permission is refused, but not to root, who may open any.
#[test]
fn a_file_without_permission_is_refused(rt: HostRuntime) -> Result<(), TestFail> {
    let _ = fs::remove_file(&rt, CLOSED);
    fs::write(&rt, CLOSED, b"abc".as_slice())?;
    fs::set_permissions(&rt, CLOSED, fs::Permissions::from_mode(0))?;
    let is_root = fs::read(&rt, CLOSED).is_ok();
    let mut disk = file_disk(&rt, CLOSED)?;
    same(&rt, disk.len(), if is_root { Ok(3) } else { Err(Failed) });
    fs::remove_file(&rt, CLOSED)?;
    Ok(())
}
