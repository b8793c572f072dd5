//! What no clause says: that room is made with ample memory, and the answers of a worked case.

use crate::asserts::same;
use commit_queue::{Outcomes, Queue};
use graph_model::{Bytes, Change, Changes, NoMemory, Outcome, Payload, Record};
use group_codec::push_change;
use group_commit::{Group, Member};
use std::alloc::Global;
use std::test::Fail;

/// The member of a transaction of this number that makes a vertex.
fn member(alloc: Global, tid: u64) -> Result<Member, NoMemory> {
    let p = Payload::from_slice(alloc, b"a")?;
    let change = Change::New { v: tid, p };
    let mut bytes = Bytes::new(alloc);
    push_change(&mut bytes, &change)?;
    let mut changes = Changes::new(alloc);
    changes.push(change)?;
    let record = Record {
        tid,
        read: 0,
        epoch: 0,
        changes,
    };
    Ok(Member::new(record, bytes))
}

/// The number of the member at a place.
fn number(group: &Group, place: usize) -> Option<u64> {
    match group.get(place) {
        Some(member) => Some(member.record().tid),
        None => None,
    }
}

#[test]
fn a_group_is_the_first_64_of_those_that_wait(rt: HostRuntime) -> Result<(), Fail> {
    let mut queue = Queue::new(rt.alloc());
    queue.reserve(65)?;
    for tid in 1..66 {
        let next = member(rt.alloc(), tid)?;
        queue.reserve(1)?;
        queue.push(next);
    }
    let first = queue.collect();
    same(&rt, first.len(), 64);
    same(
        &rt,
        (number(&first, 0), number(&first, 63)),
        (Some(1), Some(64)),
    );
    let second = queue.collect();
    same(&rt, (second.len(), number(&second, 0)), (1, Some(65)));
    same(&rt, queue.len(), 0);
    Ok(())
}

#[test]
fn an_outcome_is_kept_for_the_members_of_its_group(rt: HostRuntime) -> Result<(), Fail> {
    let mut outcomes = Outcomes::new(rt.alloc());
    outcomes.expect(1, 1)?;
    outcomes.reserve(1)?;
    same(&rt, outcomes.of(1), None);
    let mut group = Group::new();
    group.push(member(rt.alloc(), 1)?);
    let failed = Outcome::Failed {
        before: 0,
        after: 1,
    };
    outcomes.keep(&group, failed);
    same(&rt, (outcomes.of(1), outcomes.of(2)), (Some(failed), None));
    Ok(())
}
