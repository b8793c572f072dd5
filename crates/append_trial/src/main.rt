//! Appends groups of one small record to a log on a file, each durable before the next: for timing.
//!
//! The log is `appends.log` in the folder where it runs, made anew; the first word is one more than the number of
//! groups. It prints the durable length.
#![tactic(auto)]

ghost use Rattle.std.specs.Prelude.{◌<◌, ◌≤◌, ◌^◌, length, IfSome, IfOk, OnOk};
ghost use Rattle.group_commit.specs.Encoded.{Spells};
ghost use Rattle.graph_wal.specs.Pieces.{AreWithin};

use disk_model::FileDisk;
use graph_model::{Bytes, Change, Changes, NoMemory, Payload, Record};
use graph_wal::{DiskFault, Wal};
use group_codec::push_change;
use group_commit::{Group, Member};
use std::alloc::Global;
use std::process::ExitCode;
use std::{env, fs};

/// Appends a change to a list, and its spelling to the list's.
fn push(changes: &mut Changes, bytes: &mut Bytes, change: Change) -> Result<(), NoMemory>
    requires { Spells bytes.old changes.old }
    ensures { OnOk result (Spells bytes.new changes.new) }
{
    push_change(bytes, &change)?;
    changes.push(change)?;
    Ok(())
}

/// The group of the transaction of this number that made these changes.
fn group_of(tid: u64, changes: Changes, bytes: Bytes) -> Option<Group>
    requires { Spells bytes changes }
    ensures { IfSome result (λ g. (0 < length g) × AreWithin g) }
{
    if bytes.len() > 1000 {
        return None;
    }
    let record = Record {
        tid,
        read: 0,
        epoch: 0,
        changes,
    };
    let mut group = Group::new();
    group.push(Member::new(record, bytes));
    Some(group)
}

/// The group of a transaction that makes the vertex of its number.
fn vertex(alloc: Global, tid: u64) -> Option<Group>
    ensures { IfSome result (λ g. (0 < length g) × AreWithin g) }
{
    let mut changes = Changes::new(alloc);
    let mut bytes = Bytes::new(alloc);
    let p = match Payload::from_slice(alloc, b"payload") {
        Ok(p) => p,
        Err(_) => return None,
    };
    match push(&mut changes, &mut bytes, Change::New { v: tid, p }) {
        Ok(()) => group_of(tid, changes, bytes),
        Err(_) => None,
    }
}

/// Appends a group to a log whose disk tells nothing.
fn append(
    wal: &mut Wal<FileDisk<'_, HostRuntime>>,
    epoch: u64,
    group: &Group,
) -> Result<u64, DiskFault>
    requires long { 9 ≤ wal.old.durable }
    requires short { wal.old.durable < 2 ^ 63 }
    requires members { 0 < length group.now }
    requires within { AreWithin group.now }
    ensures long { 9 ≤ wal.new.durable }
    ensures short { wal.new.durable < 2 ^ 63 }
{
    wal.append_group(epoch, group)
}

/// So many appends less one, and the durable length behind them; none where the disk or memory fails.
fn appends(rt: &HostRuntime, name: String, count: u64) -> Option<u64> {
    let mut wal = match Wal::make(FileDisk::new(rt, name)) {
        Ok(wal) => wal,
        Err(_) => return None,
    };
    for epoch in 1..count {
        let group = vertex(rt.alloc(), epoch)?;
        if append(&mut wal, epoch, &group).is_err() {
            return None;
        }
    }
    Some(wal.durable())
}

fn main(rt: HostRuntime) -> ExitCode {
    let _ = fs::remove_file(&rt, "appends.log");
    let count = match env::args(&rt) {
        Ok(words) => words
            .skip(1)
            .next()
            .and_then(|word| word.as_str().parse::<u64>().ok()),
        Err(_) => None,
    };
    let name = match String::from_str(rt.alloc(), "appends.log") {
        Ok(name) => name,
        Err(_) => return ExitCode::from(2),
    };
    match appends(&rt, name, count.unwrap_or(1)) {
        Some(durable) => match println!(rt; "durable {durable}") {
            Ok(()) => ExitCode::from(0),
            Err(_) => ExitCode::from(2),
        },
        None => ExitCode::from(1),
    }
}
