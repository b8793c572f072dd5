//! What no clause says: that rows are opened and transactions begin with ample memory, and the answers of a worked
//! case. A whole commit, and one that fails, stand on the public clauses alone.

ghost use Rattle.std.specs.Prelude.{◌≡◌, ◌+◌, [], Some, None, true, slice_get, slice_set, IfOk};
ghost use Rattle.graph_model.specs.Records.{empty_base};
ghost use Rattle.core_states.specs.Numbers.{outcome_of};
ghost use Rattle.epoch_clock.specs.ActiveRows.{is_running};

use core_states::Learnt;
use epoch_clock::{Drawn, EpochPart};
use graph_model::{Base, Bytes, Change, Changes, Graph, NoMemory, Outcome, Payload, Record};
use group_codec::push_change;
use group_commit::Member;
use reader_table::{ReaderTable, Row};
use std::alloc::Global;
use std::test::Fail;

/// The base of a log without records.
fn base(alloc: Global) -> Base
    ensures { result ≡ empty_base }
{
    Base {
        graph: Graph::empty(alloc),
        epoch: 0,
        next_tid: 1,
        next_vertex: 1,
    }
}

/// The member of a transaction of this number that makes a vertex.
fn member(alloc: Global, tid: u64) -> Result<Member, NoMemory>
    ensures { IfOk result (λ m. (m.draft.tid ≡ tid) × (m.draft.read ≡ 0)) }
{
    let p = Payload::from_slice(alloc, b"a")?;
    let change = Change::New { v: tid, p };
    let mut bytes = Bytes::new(alloc);
    push_change(&mut bytes, &change)?;
    let mut changes = Changes::new(alloc);
    changes.push(change)?;
    let record = Record {
        tid,
        read: 0,
        epoch: 0,
        changes,
    };
    Ok(Member::new(record, bytes))
}

/// Commits the transaction of a row while no other one commits. It answers the epoch, and whether it was visible
/// before the record was done.
fn commit(part: &mut EpochPart, row: u32, m: Member, moment: u64) -> (u64, bool)
    requires row { slice_get part.old.readers row ≡ Some (Row.Active m.draft.tid m.draft.read) }
    requires runs { is_running m.draft.tid part.old.clock.rows ≡ true }
    requires undecided { outcome_of m.draft.tid part.old.clock.outcomes ≡ None }
    requires idle { (part.old.clock.queue ≡ []) × (part.old.clock.pending ≡ []) }
    ensures epoch { result.0 ≡ part.old.clock.last + 1 }
    ensures visible { part.new.clock.visible ≡ part.old.clock.last + 1 }
    ensures idle { (part.new.clock.queue ≡ []) × (part.new.clock.pending ≡ []) }
    ensures row { part.new.readers ≡ slice_set part.old.readers row Row.Idle }
{
    let tid = m.record().tid;
    part.enqueue(m);
    let group = part.collect();
    let epoch = part.publish(group, moment);
    let seen = part.seen(epoch);
    part.done(row, tid);
    (epoch, seen)
}

/// Ends the transaction of a row whose group was not written, while no other one commits.
fn give_up(part: &mut EpochPart, row: u32, m: Member)
    requires row { slice_get part.old.readers row ≡ Some (Row.Active m.draft.tid m.draft.read) }
    requires runs { is_running m.draft.tid part.old.clock.rows ≡ true }
    requires undecided { outcome_of m.draft.tid part.old.clock.outcomes ≡ None }
    requires idle { part.old.clock.queue ≡ [] }
    ensures visible { part.new.clock.visible ≡ part.old.clock.visible }
    ensures idle { (part.new.clock.queue ≡ []) × (part.new.clock.pending ≡ part.old.clock.pending) }
    ensures row { part.new.readers ≡ slice_set part.old.readers row Row.Idle }
{
    part.enqueue(m);
    let group = part.collect();
    part.fail(group, 3, 4);
    part.end(row);
}

#[test]
fn a_commit_is_visible_once_its_record_is_done(rt: HostRuntime) -> Result<(), Fail> {
    let base = base(rt.alloc());
    let mut part = EpochPart::new(rt.alloc(), &base, ReaderTable::new(rt.alloc()));
    let Ok(row) = part.open_row() else {
        return Err("memory".into());
    };
    let Ok(drawn) = part.begin(row) else {
        return Err("memory".into());
    };
    assert_eq!(rt; drawn, Drawn { tid: 1, read: 0 });
    let Ok(first) = member(rt.alloc(), drawn.tid) else {
        return Err("memory".into());
    };
    assert_eq!(rt; commit(&mut part, row, first, 9), (1, false));
    assert_eq!(rt; part.outcome(1), Some(Outcome::Committed { epoch: 1 }));
    assert!(rt; part.seen(1));
    Ok(())
}
