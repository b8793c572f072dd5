//! The members of a group, made of the records that the core has.

ghost use Rattle.std.specs.Prelude.{◌≡◌, ℕ, IfOk, IfSome};
ghost use Rattle.group_commit.specs.Encoded.{Spells};
ghost use Rattle.group_commit.specs.Members.{records_at};

use core_states::copies::copy_changes;
use graph_model::{Bytes, Changes, GROUP_MOST, NoMemory, Record};
use group_codec::push_change;
use group_commit::{Group, Member};
use std::alloc::Global;
use std::collections::LinkedList;

/// The member of a record.
pub fn member_of(alloc: Global, tid: u64, read: u64, changes: Changes) -> Result<Member, NoMemory>
    ensures { IfOk result (λ m. m.draft ≡ record { tid = tid; read = read; epoch = 0; changes = changes }) }
{
    let bytes = spelled(alloc, &changes)?;
    let record = Record {
        tid,
        read,
        epoch: 0,
        changes,
    };
    Ok(Member::new(record, bytes))
}

// The spelling of changes.
fn spelled(alloc: Global, changes: &Changes) -> Result<Bytes, NoMemory>
    ensures { IfOk result (λ bytes. Spells bytes changes.now) }
{
    let mut bytes = Bytes::new(alloc);
    for change in changes.as_slice() {
        push_change(&mut bytes, change)?;
    }
    Ok(bytes)
}

/// A group of these records; none where they are too many, or have an epoch.
pub fn group_of(alloc: Global, records: &LinkedList<Record>) -> Result<Option<Group>, NoMemory>
    ensures { IfOk result (λ group. IfSome group (λ g. records_at 0 g ≡ records.now)) }
{
    let mut group = Group::new();
    for record in records {
        if record.epoch != 0 || group.len() == GROUP_MOST {
            return Ok(None);
        }
        let changes = copy_changes(alloc, &record.changes)?;
        group.push(member_of(alloc, record.tid, record.read, changes)?);
    }
    Ok(Some(group))
}
