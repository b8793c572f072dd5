//! What no clause says: that members are made from what the codec spells, and that a group takes no memory.

use crate::asserts::{holds, same};
use graph_model::{Bytes, Change, Changes, GROUP_MOST, NoMemory, Payload, Record};
use group_codec::push_change;
use group_commit::{Group, Member};
use std::alloc::Global;
use std::test::Fail;

/// The member of a transaction of this number that makes a vertex.
fn member(alloc: Global, tid: u64) -> Result<Member, NoMemory> {
    let p = Payload::from_slice(alloc, b"a")?;
    let change = Change::New { v: tid, p };
    let mut bytes = Bytes::new(alloc);
    push_change(&mut bytes, &change)?;
    let mut changes = Changes::new(alloc);
    changes.push(change)?;
    let record = Record {
        tid,
        read: 0,
        epoch: 0,
        changes,
    };
    Ok(Member::new(record, bytes))
}

#[test]
fn a_group_gives_its_members_back_in_order(rt: HostRuntime) -> Result<(), Fail> {
    let mut group = Group::new();
    holds(&rt, group.is_empty());
    for tid in 1..65 {
        let next = member(rt.alloc(), tid).ok().ok_or("memory")?;
        if group.len() < GROUP_MOST {
            group.push(next);
        }
    }
    same(&rt, group.len(), 64);
    let last = group.get(63).ok_or("member")?;
    same(&rt, last.record().tid, 64);
    same(
        &rt,
        last.bytes().as_slice(),
        b"\x01\0\0\0\0\0\0\0\x40\0\x01a".as_slice(),
    );
    holds(&rt, group.get(64).is_none());
    group.reverse();
    for tid in 1..65 {
        let next = group.pop().ok_or("member")?;
        same(&rt, next.into_record().tid, tid);
    }
    holds(&rt, group.pop().is_none());
    Ok(())
}
