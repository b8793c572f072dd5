//! A session does its events with ample memory: what no clause says is that each is answered, and what the disk has of a
//! commit then.

ghost use Rattle.std.specs.Prelude.{◌≡◌, [], IfOk, IsTrue};
ghost use Rattle.graph_model.specs.Records.{IsGood};
ghost use Rattle.core_states.specs.Openings.{lists_within};
ghost use Rattle.store_trials.specs.AtDesk.{IsAtDesk};

use crate::asserts::{holds, same};
use crate::desk::{Desk, desk_over};
use crate::logs::{new_log, paper_of};
use board_trials::{Paper, small_base};
use core_states::{CoreAnswer, Stage};
use disk_model::{Fail as DiskFail, Kind, MemDisk};
use graph_model::{Answer, Base, Change, Graph, Outcome, Payload, Query};
use graph_recover::recover;
use std::alloc::Global;
use std::sync::Wait;
use std::test::Fail;
use store_calls::{Begin, CloseRow, Draw, End, Enqueue, Finish, OpenRow, See};
use store_log::LogHome;
use store_rows::{Alter, Apply, Make, Read, Undo};
use turn_board::ShowsLog;

// A base of the epoch 3: the vertex 1 with one byte.
fn used_base(alloc: Global) -> Result<Base, Fail>
    ensures good { IfOk result IsGood }
    ensures lists { IfOk result (λ base. IsTrue (lists_within 4096 base.graph)) }
{
    let mut graph = Graph::empty(alloc);
    let p = Payload::from_slice(alloc, &[7])?;
    graph.apply(&Change::New { v: 1, p })?;
    Ok(Base {
        graph,
        epoch: 3,
        next_tid: 4,
        next_vertex: 3,
    })
}

// A session at a board over that base, whose log has no disk.
fn paper_desk(alloc: Global) -> Result<Desk<Paper>, Fail>
    ensures at_desk { IfOk result (λ d. IsAtDesk d.board.turns d.board.shards d.pass d.session) }
{
    let base = used_base(alloc)?;
    match desk_over(alloc, &base, paper_of(&base)) {
        Ok(desk) => Ok(desk),
        Err(_) => Err(Fail::from("memory")),
    }
}

// What a session is answered.
#[derive(Drop)]
struct Answers {
    opened: Option<CoreAnswer>,
    begun: Option<CoreAnswer>,
    shown: Option<CoreAnswer>,
    drawn: Option<CoreAnswer>,
    ended: Option<CoreAnswer>,
    closed: Option<CoreAnswer>,
}

// A session opens its row, begins a transaction, reads the vertex 1, draws a number, ends the transaction, and closes
// its row.
fn answers_of<R: Wait>(rt: &R, alloc: Global) -> Result<Answers, Fail> {
    let query = Query::Vertex { v: 1 };
    let mut desk = paper_desk(alloc)?;
    let opened = desk.by_clock(rt, &OpenRow);
    let begun = desk.by_clock(rt, &Begin { alloc });
    let shown = desk.read_by_shard(rt, &Read { query: &query });
    let drawn = desk.by_clock(rt, &Draw);
    let ended = desk.by_clock(rt, &End);
    let closed = desk.by_clock(rt, &CloseRow);
    drop(desk.closed());
    Ok(Answers {
        opened,
        begun,
        shown,
        drawn,
        ended,
        closed,
    })
}

// Whether the payload of this byte is shown.
fn shows(answer: &Option<CoreAnswer>, byte: u8) -> bool {
    match answer {
        Some(
            CoreAnswer::Shown {
                answer: Answer::Value(p),
            },
        ) => p.as_slice() == [byte].as_slice(),
        _ => false,
    }
}

#[test]
fn a_session_reads_a_vertex_of_the_base_and_ends(rt: HostRuntime) -> Result<(), Fail> {
    let answers = answers_of(&rt, rt.alloc())?;
    holds(&rt, matches!(answers.opened, Some(CoreAnswer::Done)));
    holds(
        &rt,
        matches!(answers.begun, Some(CoreAnswer::Begun { tid: 4, read: 3 })),
    );
    holds(&rt, shows(&answers.shown, 7));
    holds(
        &rt,
        matches!(answers.drawn, Some(CoreAnswer::Number { v: 3 })),
    );
    holds(&rt, matches!(answers.ended, Some(CoreAnswer::Done)));
    holds(&rt, matches!(answers.closed, Some(CoreAnswer::Done)));
    Ok(())
}

// What a session is answered that changes a vertex and gives it up.
#[derive(Drop)]
struct Changed {
    set: Option<CoreAnswer>,
    put: Option<CoreAnswer>,
    absent: Option<CoreAnswer>,
    shown: Option<CoreAnswer>,
    undone: Option<CoreAnswer>,
    ended: Option<CoreAnswer>,
}

// A session sets the payload of the vertex 1, puts an edge, takes out one that is not there, reads the vertex, and gives
// all of it up.
fn changed_of<R: Wait>(rt: &R, alloc: Global) -> Result<Changed, Fail> {
    let query = Query::Vertex { v: 1 };
    let p = Payload::from_slice(alloc, &[8])?;
    let value = Change::Set { v: 1, p: p.copy()? };
    let edge = Change::Put {
        v: 1,
        l: 5,
        d: 9,
        p,
    };
    let other = Change::Del { v: 1, l: 5, d: 7 };
    let mut desk = paper_desk(alloc)?;
    let _ = desk.by_clock(rt, &OpenRow);
    let _ = desk.by_clock(rt, &Begin { alloc });
    let set = desk.by_shard(rt, &Alter { change: &value });
    let put = desk.by_shard(rt, &Alter { change: &edge });
    let absent = desk.by_shard(rt, &Alter { change: &other });
    let shown = desk.read_by_shard(rt, &Read { query: &query });
    let undone = desk.by_shard(rt, &Undo { v: 1 });
    let ended = desk.by_clock(rt, &End);
    drop(desk.closed());
    Ok(Changed {
        set,
        put,
        absent,
        shown,
        undone,
        ended,
    })
}

#[test]
fn a_session_changes_a_vertex_and_gives_it_up(rt: HostRuntime) -> Result<(), Fail> {
    let answers = changed_of(&rt, rt.alloc())?;
    holds(&rt, matches!(answers.set, Some(CoreAnswer::Done)));
    holds(&rt, matches!(answers.put, Some(CoreAnswer::Added)));
    holds(&rt, matches!(answers.absent, Some(CoreAnswer::Absent)));
    holds(&rt, shows(&answers.shown, 8));
    holds(&rt, matches!(answers.undone, Some(CoreAnswer::Done)));
    holds(&rt, matches!(answers.ended, Some(CoreAnswer::Done)));
    Ok(())
}

// What a session is answered that makes a vertex and gives it up.
#[derive(Drop)]
struct Made {
    made: Option<CoreAnswer>,
    again: Option<CoreAnswer>,
    shown: Option<CoreAnswer>,
    undone: Option<CoreAnswer>,
    ended: Option<CoreAnswer>,
}

// A session draws the number 3, makes its vertex, tries to make it again, reads it, and gives it up.
fn made_of<R: Wait>(rt: &R, alloc: Global) -> Result<Made, Fail> {
    let query = Query::Vertex { v: 3 };
    let p = Payload::from_slice(alloc, &[9])?;
    let mut desk = paper_desk(alloc)?;
    let _ = desk.by_clock(rt, &OpenRow);
    let _ = desk.by_clock(rt, &Begin { alloc });
    let _ = desk.by_clock(rt, &Draw);
    let made = desk.by_shard(rt, &Make { v: 3, p: &p });
    let again = desk.by_shard(rt, &Make { v: 3, p: &p });
    let shown = desk.read_by_shard(rt, &Read { query: &query });
    let undone = desk.by_shard(rt, &Undo { v: 3 });
    let ended = desk.by_clock(rt, &End);
    drop(desk.closed());
    Ok(Made {
        made,
        again,
        shown,
        undone,
        ended,
    })
}

#[test]
fn a_session_makes_a_vertex_once_and_gives_it_up(rt: HostRuntime) -> Result<(), Fail> {
    let answers = made_of(&rt, rt.alloc())?;
    holds(&rt, matches!(answers.made, Some(CoreAnswer::Done)));
    holds(&rt, answers.again.is_none());
    holds(&rt, shows(&answers.shown, 9));
    holds(&rt, matches!(answers.undone, Some(CoreAnswer::Done)));
    holds(&rt, matches!(answers.ended, Some(CoreAnswer::Done)));
    Ok(())
}

// A session at a board over a new log, on a disk with this sync that fails.
fn log_desk(alloc: Global, number: u64) -> Result<Desk<LogHome<MemDisk>>, Fail>
    ensures at_desk { IfOk result (λ d. IsAtDesk d.board.turns d.board.shards d.pass d.session) }
{
    let failing = vec![in alloc;
        DiskFail {
            kind: Kind::Sync,
            number
        },
    ]?;
    let Ok(disk) = MemDisk::new(alloc, Vec::new(alloc), 100, 1000, failing) else {
        return Err(Fail::from("memory"));
    };
    let Some(log) = new_log(disk) else {
        return Err(Fail::from("no log"));
    };
    let base = small_base(alloc);
    match desk_over(alloc, &base, log) {
        Ok(desk) => Ok(desk),
        Err(_) => Err(Fail::from("memory")),
    }
}

// The number that was drawn; 0, which is none, where none was.
fn number_of(answer: &Option<CoreAnswer>) -> u64 {
    match answer {
        Some(CoreAnswer::Number { v }) => *v,
        _ => 0,
    }
}

// The session begins, makes the vertex of the number that it draws, queues its record and leads the commit.
fn led<R: Wait>(rt: &R, alloc: Global, p: &Payload, desk: &mut Desk<LogHome<MemDisk>>) -> u64
    requires at_desk { IsAtDesk desk.old.board.turns desk.old.board.shards desk.old.pass desk.old.session }
    ensures at_desk { IsAtDesk desk.new.board.turns desk.new.board.shards desk.new.pass desk.new.session }
{
    let _ = desk.by_clock(rt, &Begin { alloc });
    let drawn = desk.by_clock(rt, &Draw);
    let v = number_of(&drawn);
    let _ = desk.by_shard(rt, &Make { v, p });
    let _ = desk.by_clock(rt, &Enqueue { alloc });
    desk.lead(rt);
    v
}

// What became of the session's record, as it knows.
fn outcome_of<W: ShowsLog>(desk: &Desk<W>) -> Option<Outcome> {
    match desk.session.work.as_ref()?.stage {
        Stage::Decided { outcome } => Some(outcome),
        _ => None,
    }
}

// The numbers of the transactions whose records are on the disk of a log.
fn numbers(alloc: Global, log: LogHome<MemDisk>) -> Result<Vec<u64>, Fail> {
    let mut disk = log.into_wal().into_disk();
    let Ok(found) = recover(alloc, &mut disk) else {
        return Err(Fail::from("no log"));
    };
    let mut numbers = Vec::new(alloc);
    let records = found.records;
    for record in records.as_slice() {
        numbers.push(record.tid)?;
    }
    Ok(numbers)
}

// What a session is answered that commits.
#[derive(Drop)]
struct Committed {
    outcome: Option<Outcome>,
    applied: Option<CoreAnswer>,
    done: Option<CoreAnswer>,
    seen: Option<CoreAnswer>,
    mended: bool,
    numbers: Vec<u64>,
}

// A session leads the commit of its record, applies it and finishes, and asks whether its epoch is visible; the board is
// closed, and the disk recovered.
fn committed_of<R: Wait>(rt: &R, alloc: Global) -> Result<Committed, Fail> {
    let p = Payload::from_slice(alloc, &[7])?;
    let mut desk = log_desk(alloc, 100)?;
    let _ = desk.by_clock(rt, &OpenRow);
    let v = led(rt, alloc, &p, &mut desk);
    let outcome = outcome_of(&desk);
    let applied = desk.by_shard(rt, &Apply { v });
    let done = desk.by_clock(rt, &Finish);
    let seen = desk.by_clock(rt, &See);
    let log = desk.closed();
    Ok(Committed {
        outcome,
        applied,
        done,
        seen,
        mended: log.mended(),
        numbers: numbers(alloc, log)?,
    })
}

#[test]
fn a_commit_that_is_led_is_on_the_disk(rt: HostRuntime) -> Result<(), Fail> {
    let answers = committed_of(&rt, rt.alloc())?;
    same(&rt, answers.outcome, Some(Outcome::Committed { epoch: 1 }));
    holds(&rt, matches!(answers.applied, Some(CoreAnswer::Done)));
    holds(&rt, matches!(answers.done, Some(CoreAnswer::Done)));
    holds(
        &rt,
        matches!(answers.seen, Some(CoreAnswer::Visible { yes: true })),
    );
    holds(&rt, answers.mended);
    same(&rt, answers.numbers.as_slice(), [1u64].as_slice());
    Ok(())
}

// What a session is answered whose first record fails.
#[derive(Drop)]
struct Failed {
    outcome: Option<Outcome>,
    applied: Option<CoreAnswer>,
    undone: Option<CoreAnswer>,
    ended: Option<CoreAnswer>,
}

// A session leads the commit of a record whose append fails, finds nothing to apply, gives its vertex up and ends.
fn failed_at<R: Wait>(
    rt: &R,
    alloc: Global,
    p: &Payload,
    desk: &mut Desk<LogHome<MemDisk>>,
) -> Failed
    requires at_desk { IsAtDesk desk.old.board.turns desk.old.board.shards desk.old.pass desk.old.session }
    ensures at_desk { IsAtDesk desk.new.board.turns desk.new.board.shards desk.new.pass desk.new.session }
{
    let _ = desk.by_clock(rt, &OpenRow);
    let v = led(rt, alloc, p, desk);
    let outcome = outcome_of(desk);
    let applied = desk.by_shard(rt, &Apply { v });
    let undone = desk.by_shard(rt, &Undo { v });
    let ended = desk.by_clock(rt, &End);
    Failed {
        outcome,
        applied,
        undone,
        ended,
    }
}

// The same, with the log that is left.
fn failed_of<R: Wait>(rt: &R, alloc: Global) -> Result<(Failed, LogHome<MemDisk>), Fail> {
    let p = Payload::from_slice(alloc, &[7])?;
    let mut desk = log_desk(alloc, 2)?;
    let failed = failed_at(rt, alloc, &p, &mut desk);
    Ok((failed, desk.closed()))
}

#[test]
fn a_commit_whose_append_fails_is_given_up(rt: HostRuntime) -> Result<(), Fail> {
    let alloc = rt.alloc();
    let (answers, log) = failed_of(&rt, alloc)?;
    same(
        &rt,
        answers.outcome,
        Some(Outcome::Failed {
            before: 0,
            after: 1,
        }),
    );
    holds(&rt, answers.applied.is_none());
    holds(&rt, matches!(answers.undone, Some(CoreAnswer::Done)));
    holds(&rt, matches!(answers.ended, Some(CoreAnswer::Done)));
    holds(&rt, !log.mended());
    holds(&rt, numbers(alloc, log)?.is_empty());
    Ok(())
}

// After that the session commits another record; with the outcome, and the log that is left.
fn replaced_of<R: Wait>(
    rt: &R,
    alloc: Global,
) -> Result<(Option<Outcome>, LogHome<MemDisk>), Fail> {
    let p = Payload::from_slice(alloc, &[7])?;
    let mut desk = log_desk(alloc, 2)?;
    let _ = failed_at(rt, alloc, &p, &mut desk);
    let _ = led(rt, alloc, &p, &mut desk);
    let outcome = outcome_of(&desk);
    Ok((outcome, desk.closed()))
}

#[test]
fn the_next_commit_mends_the_log_and_takes_the_epoch(rt: HostRuntime) -> Result<(), Fail> {
    let alloc = rt.alloc();
    let (outcome, log) = replaced_of(&rt, alloc)?;
    same(&rt, outcome, Some(Outcome::Committed { epoch: 1 }));
    holds(&rt, log.mended());
    same(&rt, numbers(alloc, log)?.as_slice(), [2u64].as_slice());
    Ok(())
}
