//! Scripts of two sessions as lists of events, with the answers that they must get.

use crate::words::{Do, act_of, empty_base, line_of};
use core_states::Event;
use std::alloc::Global;
use std::test::Fail;
use txn_core::{Answers, Events, drive};

// An actor, what it does, and what it is answered.
type Row = (u32, Do, &'static str);

// A vertex 1 with an edge to 9 under label 5, committed at epoch 1 by actor 1.
const OPENING: [Row; 11] = [
    (1, Do::Open, "done"),
    (1, Do::Begin, "begun 1 0"),
    (1, Do::Draw, "number 1"),
    (1, Do::New(1, 61), "done"),
    (1, Do::Put(1, 5, 9, 255), "added"),
    (1, Do::Enqueue, "learnt 0 1"),
    (1, Do::Collect, "collected 1"),
    (1, Do::Write(1), "done"),
    (1, Do::Publish, "published 1"),
    (1, Do::Apply(1), "done"),
    (1, Do::Done, "done"),
];

fn push_rows(alloc: Global, events: &mut Events, rows: &[Row]) -> Result<(), Fail> {
    for row in rows {
        let act = act_of(alloc, row.1)?;
        events.push(Event { actor: row.0, act })?;
    }
    Ok(())
}

fn compare(alloc: Global, answers: &Answers, from: usize, rows: &[Row]) -> Result<(), Fail> {
    for (i, row) in rows.iter().enumerate() {
        let Some(answer) = answers.get(from.wrapping_add(i)) else {
            return Err(Fail::from("an answer is missing"));
        };
        if line_of(alloc, answer)?.as_str() != row.2 {
            return Err(Fail::from(row.2));
        }
    }
    Ok(())
}

// These rows alone are answered so.
fn check_alone(alloc: Global, rows: &[Row]) -> Result<(), Fail> {
    let mut events = Events::new(alloc);
    push_rows(alloc, &mut events, rows)?;
    let answers = drive(alloc, &empty_base(alloc), &events)?;
    compare(alloc, &answers, 0, rows)
}

// The opening and then these rows are answered so.
fn check(alloc: Global, rows: &[Row]) -> Result<(), Fail> {
    let mut events = Events::new(alloc);
    push_rows(alloc, &mut events, &OPENING)?;
    push_rows(alloc, &mut events, rows)?;
    let answers = drive(alloc, &empty_base(alloc), &events)?;
    compare(alloc, &answers, 0, &OPENING)?;
    compare(alloc, &answers, OPENING.len(), rows)
}

#[test]
fn a_new_vertex_is_read_by_the_next_transaction(rt: HostRuntime) -> Result<(), Fail> {
    check(
        rt.alloc(),
        &[
            (1, Do::Seen, "visible"),
            (2, Do::Open, "done"),
            (2, Do::Begin, "begun 2 1"),
            (2, Do::Get(1), "value 61"),
        ],
    )
}

#[test]
fn a_publish_as_the_first_event_is_not_enabled(rt: HostRuntime) -> Result<(), Fail> {
    check_alone(rt.alloc(), &[(1, Do::Publish, "not enabled")])
}

#[test]
fn a_snapshot_is_kept_while_others_commit(rt: HostRuntime) -> Result<(), Fail> {
    check(
        rt.alloc(),
        &[
            (2, Do::Open, "done"),
            (2, Do::Begin, "begun 2 1"),
            (1, Do::Begin, "begun 3 1"),
            (1, Do::Put(1, 5, 7, 0), "added"),
            (1, Do::Enqueue, "learnt 1 2"),
            (1, Do::Collect, "collected 1"),
            (1, Do::Write(1), "done"),
            (1, Do::Publish, "published 2"),
            (2, Do::Scan(1, 5), "edges 9:255"),
            (1, Do::Apply(1), "done"),
            (1, Do::Done, "done"),
            (2, Do::Scan(1, 5), "edges 9:255"),
            (2, Do::End, "done"),
            (2, Do::Begin, "begun 4 2"),
            (2, Do::Scan(1, 5), "edges 7:0 9:255"),
        ],
    )
}

#[test]
fn a_vertex_that_another_owns_is_held(rt: HostRuntime) -> Result<(), Fail> {
    check(
        rt.alloc(),
        &[
            (1, Do::Begin, "begun 2 1"),
            (1, Do::Put(1, 5, 7, 0), "added"),
            (2, Do::Open, "done"),
            (2, Do::Begin, "begun 3 1"),
            (2, Do::Put(1, 5, 8, 0), "not enabled"),
            (2, Do::Look(1), "held 2"),
            (2, Do::End, "done"),
            (2, Do::Enqueue, "not enabled"),
            (1, Do::Enqueue, "learnt 1 2"),
            (1, Do::Collect, "collected 1"),
            (1, Do::Write(1), "done"),
            (1, Do::Publish, "published 2"),
        ],
    )
}

#[test]
fn a_commit_after_the_snapshot_is_a_conflict(rt: HostRuntime) -> Result<(), Fail> {
    check(
        rt.alloc(),
        &[
            (2, Do::Open, "done"),
            (2, Do::Begin, "begun 2 1"),
            (1, Do::Begin, "begun 3 1"),
            (1, Do::Put(1, 5, 7, 0), "added"),
            (1, Do::Enqueue, "learnt 1 2"),
            (1, Do::Collect, "collected 1"),
            (1, Do::Write(1), "done"),
            (1, Do::Publish, "published 2"),
            (1, Do::Apply(1), "done"),
            (1, Do::Done, "done"),
            (2, Do::Put(1, 5, 8, 0), "not enabled"),
            (2, Do::Look(1), "conflict 2"),
            (2, Do::End, "done"),
            (2, Do::Get(1), "not enabled"),
        ],
    )
}

#[test]
fn two_that_read_what_the_other_changes_both_commit(rt: HostRuntime) -> Result<(), Fail> {
    check_alone(
        rt.alloc(),
        &[
            (1, Do::Open, "done"),
            (2, Do::Open, "done"),
            (1, Do::Begin, "begun 1 0"),
            (1, Do::Draw, "number 1"),
            (1, Do::Draw, "number 2"),
            (1, Do::New(1, 0), "done"),
            (1, Do::New(2, 0), "done"),
            (1, Do::Enqueue, "learnt 0 1"),
            (1, Do::Collect, "collected 1"),
            (1, Do::Write(1), "done"),
            (1, Do::Publish, "published 1"),
            (1, Do::Apply(1), "done"),
            (1, Do::Apply(2), "done"),
            (1, Do::Done, "done"),
            (1, Do::Begin, "begun 2 1"),
            (2, Do::Begin, "begun 3 1"),
            (1, Do::Get(2), "value 0"),
            (2, Do::Get(1), "value 0"),
            (1, Do::Set(1, 1), "done"),
            (2, Do::Set(2, 2), "done"),
            (1, Do::Enqueue, "learnt 1 2"),
            (1, Do::Collect, "collected 1"),
            (1, Do::Write(1), "done"),
            (1, Do::Publish, "published 2"),
            (2, Do::Enqueue, "learnt 1 2"),
            (2, Do::Collect, "collected 1"),
            (2, Do::Write(1), "done"),
            (2, Do::Publish, "published 3"),
        ],
    )
}

#[test]
fn a_group_is_visible_once_all_of_it_is_applied(rt: HostRuntime) -> Result<(), Fail> {
    check(
        rt.alloc(),
        &[
            (2, Do::Open, "done"),
            (1, Do::Begin, "begun 2 1"),
            (2, Do::Begin, "begun 3 1"),
            (2, Do::Draw, "number 2"),
            (2, Do::New(2, 7), "done"),
            (1, Do::Set(1, 1), "done"),
            (1, Do::Enqueue, "learnt 1 2"),
            (2, Do::Enqueue, "learnt 1 2"),
            (2, Do::Collect, "collected 2"),
            (2, Do::Write(1), "done"),
            (2, Do::Publish, "published 2"),
            (1, Do::Outcome, "kept committed 2"),
            (1, Do::Apply(1), "done"),
            (1, Do::Done, "done"),
            (1, Do::Seen, "not visible"),
            (2, Do::Apply(2), "done"),
            (2, Do::Done, "done"),
            (1, Do::Seen, "visible"),
        ],
    )
}

#[test]
fn changes_that_were_undone_are_as_if_never_made(rt: HostRuntime) -> Result<(), Fail> {
    check(
        rt.alloc(),
        &[
            (1, Do::Begin, "begun 2 1"),
            (1, Do::Begin, "not enabled"),
            (1, Do::Put(1, 5, 9, 170), "replaced"),
            (1, Do::Put(1, 6, 3, 0), "added"),
            (1, Do::Set(1, 62), "done"),
            (1, Do::Labels(1), "labels 5 6"),
            (1, Do::End, "not enabled"),
            (1, Do::Undo(1), "done"),
            (1, Do::Get(1), "not enabled"),
            (1, Do::End, "done"),
            (1, Do::Begin, "begun 3 1"),
            (1, Do::Scan(1, 5), "edges 9:255"),
            (1, Do::Labels(1), "labels 5"),
            (1, Do::Get(1), "value 61"),
            (1, Do::Edge(1, 5, 9), "value 255"),
            (1, Do::Del(1, 5, 77), "absent"),
            (1, Do::Del(1, 5, 9), "gone"),
            (1, Do::Scan(1, 5), "edges"),
        ],
    )
}

#[test]
fn a_dropped_vertex_stays_in_older_snapshots(rt: HostRuntime) -> Result<(), Fail> {
    check(
        rt.alloc(),
        &[
            (2, Do::Open, "done"),
            (2, Do::Begin, "begun 2 1"),
            (1, Do::Begin, "begun 3 1"),
            (1, Do::Drop(1), "done"),
            (1, Do::Get(1), "no vertex"),
            (1, Do::Scan(1, 5), "no vertex"),
            (1, Do::Put(1, 5, 8, 0), "no vertex"),
            (1, Do::Enqueue, "learnt 1 2"),
            (1, Do::Collect, "collected 1"),
            (1, Do::Write(1), "done"),
            (1, Do::Publish, "published 2"),
            (1, Do::Apply(1), "done"),
            (1, Do::Done, "done"),
            (2, Do::Scan(1, 5), "edges 9:255"),
            (2, Do::End, "done"),
            (2, Do::Horizon, "learnt 2 4"),
            (2, Do::Close, "done"),
            (2, Do::Begin, "not enabled"),
        ],
    )
}

#[test]
fn an_epoch_is_visible_once_both_of_its_records_are_done(rt: HostRuntime) -> Result<(), Fail> {
    check_alone(
        rt.alloc(),
        &[
            (1, Do::Open, "done"),
            (1, Do::Begin, "begun 1 0"),
            (1, Do::Draw, "number 1"),
            (1, Do::New(1, 1), "done"),
            (1, Do::Enqueue, "learnt 0 1"),
            (2, Do::Open, "done"),
            (2, Do::Begin, "begun 2 0"),
            (2, Do::Draw, "number 2"),
            (2, Do::New(2, 2), "done"),
            (2, Do::Enqueue, "learnt 0 1"),
            (1, Do::Write(7), "not enabled"),
            (1, Do::Collect, "collected 2"),
            (2, Do::Collect, "not enabled"),
            (1, Do::Publish, "not enabled"),
            (2, Do::Write(7), "not enabled"),
            (1, Do::Write(7), "done"),
            (1, Do::Fail(0, 1), "not enabled"),
            (1, Do::Publish, "published 1"),
            (1, Do::Apply(1), "done"),
            (1, Do::Done, "done"),
            (1, Do::Seen, "not visible"),
            (2, Do::Outcome, "kept committed 1"),
            (2, Do::Apply(2), "done"),
            (2, Do::Done, "done"),
            (1, Do::Seen, "visible"),
        ],
    )
}

#[test]
fn a_fail_is_kept_for_the_collected_records_alone(rt: HostRuntime) -> Result<(), Fail> {
    check_alone(
        rt.alloc(),
        &[
            (1, Do::Open, "done"),
            (1, Do::Begin, "begun 1 0"),
            (1, Do::Draw, "number 1"),
            (1, Do::New(1, 1), "done"),
            (1, Do::Enqueue, "learnt 0 1"),
            (2, Do::Open, "done"),
            (2, Do::Begin, "begun 2 0"),
            (2, Do::Draw, "number 2"),
            (2, Do::New(2, 2), "done"),
            (2, Do::Enqueue, "learnt 0 1"),
            (1, Do::Collect, "collected 2"),
            (3, Do::Open, "done"),
            (3, Do::Begin, "begun 3 0"),
            (3, Do::Draw, "number 3"),
            (3, Do::New(3, 3), "done"),
            (3, Do::Enqueue, "learnt 0 1"),
            (1, Do::Fail(1, 1), "not enabled"),
            (1, Do::Fail(0, 1), "done"),
            (1, Do::Outcome, "not enabled"),
            (1, Do::Undo(1), "done"),
            (1, Do::End, "done"),
            (2, Do::Outcome, "kept failed 0 1"),
            (2, Do::Undo(2), "done"),
            (2, Do::End, "done"),
            (3, Do::Outcome, "kept nothing"),
            (3, Do::Collect, "collected 1"),
            (3, Do::Write(4), "not enabled"),
            (2, Do::Mend, "not enabled"),
            (3, Do::Fail(0, 2), "not enabled"),
            (3, Do::Mend, "done"),
            (3, Do::Mend, "not enabled"),
            (3, Do::Write(4), "done"),
            (3, Do::Publish, "published 1"),
        ],
    )
}

#[test]
fn no_moment_is_before_that_of_the_last_append(rt: HostRuntime) -> Result<(), Fail> {
    check(
        rt.alloc(),
        &[
            (1, Do::Begin, "begun 2 1"),
            (1, Do::Set(1, 1), "done"),
            (1, Do::Enqueue, "learnt 1 2"),
            (1, Do::Collect, "collected 1"),
            (1, Do::Write(0), "not enabled"),
            (1, Do::Write(1), "done"),
            (1, Do::Write(1), "not enabled"),
            (1, Do::Publish, "published 2"),
        ],
    )
}

// 65 actors, each with a queued record.
fn queued(alloc: Global) -> Result<Events, Fail> {
    let mut events = Events::new(alloc);
    for i in 1..66u32 {
        let acts = [
            Do::Open,
            Do::Begin,
            Do::Draw,
            Do::New(u64::from(i), 0),
            Do::Enqueue,
        ];
        for act in acts {
            let act = act_of(alloc, act)?;
            events.push(Event { actor: i, act })?;
        }
    }
    Ok(events)
}

#[test]
fn of_65_queued_records_64_are_collected(rt: HostRuntime) -> Result<(), Fail> {
    let alloc = rt.alloc();
    let rows = [
        (1, Do::Collect, "collected 64"),
        (1, Do::Write(1), "done"),
        (1, Do::Publish, "published 1"),
        (2, Do::Collect, "collected 1"),
        (2, Do::Write(2), "done"),
        (2, Do::Publish, "published 2"),
    ];
    let mut events = queued(alloc)?;
    let from = events.len();
    push_rows(alloc, &mut events, &rows)?;
    let answers = drive(alloc, &empty_base(alloc), &events)?;
    compare(alloc, &answers, from, &rows)
}
