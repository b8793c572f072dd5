//! What no clause says: that each call succeeds with ample memory, what another session sees of it, and what the disk has
//! in the end.

ghost use Rattle.std.specs.Prelude.{◌≡◌, ◌<◌, ◌^◌, IfOk};
ghost use Rattle.store_stories.specs.AtDesk.{AreAtDesk};
ghost use Rattle.store_stories.specs.Apart.{AreApart};

use crate::asserts::same;
use disk_model::{Fail as DiskFail, Kind, MemDisk};
use graph_model::Payload;
use graph_recover::recover;
use graph_store::{Begun, Closed, CommitEnd, Refusal, Settings, Taken};
use std::alloc::Global;
use std::sync::Wait;
use std::test::Fail;
use store_stories::{Beside, Desk, Pair, desk_over, pair_of};

/// The label of all edges.
const LABEL: u16 = 5;

// A store of two shards over a new log, on a disk with this sync that fails, and two sessions whose rows are open.
fn open_desk<R: Wait>(rt: &R, alloc: Global, number: u64) -> Result<Desk<MemDisk>, Fail>
    ensures at_desk { IfOk result (λ d.
        AreAtDesk d.store.board.turns d.store.board.shards d.pass d.session d.other) }
{
    let failing = vec![in alloc;
        DiskFail {
            kind: Kind::Sync,
            number
        },
    ]?;
    let Ok(disk) = MemDisk::new(alloc, Vec::new(alloc), 100, 1000, failing) else {
        return Err(Fail::from("memory"));
    };
    let settings = Settings {
        shards: 2,
        log_most: 4096,
    };
    let Some(desk) = desk_over(alloc, disk, settings) else {
        return Err(Fail::from("no store"));
    };
    let mut desk = desk;
    desk.open_row(rt);
    desk.turn();
    desk.open_row(rt);
    desk.turn();
    Ok(desk)
}

// The session begins; with the epoch of its snapshot.
fn begun<R: Wait>(rt: &R, alloc: Global, desk: &mut Desk<MemDisk>) -> Option<u64>
    requires at_desk { AreAtDesk desk.old.store.board.turns desk.old.store.board.shards desk.old.pass desk.old.session desk.old.other }
    ensures at_desk { AreAtDesk desk.new.store.board.turns desk.new.store.board.shards desk.new.pass desk.new.session desk.new.other }
{
    match desk.begin(rt, alloc) {
        Some(Ok(begun)) => Some(begun.read),
        _ => None,
    }
}

// The session makes a vertex; with its number, or 0, which is none.
fn made<R: Wait>(rt: &R, p: &Payload, desk: &mut Desk<MemDisk>) -> u64
    requires at_desk { AreAtDesk desk.old.store.board.turns desk.old.store.board.shards desk.old.pass desk.old.session desk.old.other }
    ensures at_desk { AreAtDesk desk.new.store.board.turns desk.new.store.board.shards desk.new.pass desk.new.session desk.new.other }
{
    match desk.new_vertex(rt, p) {
        Some(Ok(v)) => v,
        _ => 0,
    }
}

// Why the put of an edge is refused; None where it is not.
fn refused<R: Wait>(
    rt: &R,
    v: u64,
    d: u64,
    p: &Payload,
    desk: &mut Desk<MemDisk>,
) -> Option<Refusal>
    requires at_desk { AreAtDesk desk.old.store.board.turns desk.old.store.board.shards desk.old.pass desk.old.session desk.old.other }
    requires destination { d < 2 ^ 63 }
    ensures at_desk { AreAtDesk desk.new.store.board.turns desk.new.store.board.shards desk.new.pass desk.new.session desk.new.other }
{
    match desk.put_edge(rt, v, LABEL, d, p) {
        Some(Err(refusal)) => Some(refusal),
        _ => None,
    }
}

// The first byte of the payload of an edge; 0 where the session sees none.
fn seen<R: Wait>(rt: &R, v: u64, d: u64, desk: &mut Desk<MemDisk>) -> u8
    requires at_desk { AreAtDesk desk.old.store.board.turns desk.old.store.board.shards desk.old.pass desk.old.session desk.old.other }
    ensures at_desk { AreAtDesk desk.new.store.board.turns desk.new.store.board.shards desk.new.pass desk.new.session desk.new.other }
{
    match desk.get_edge(rt, v, LABEL, d) {
        Some(Ok(Some(p))) => p.get(0).copied().unwrap_or(0),
        _ => 0,
    }
}

// The numbers of the transactions whose records are on the disk of a store that was closed.
fn numbers(alloc: Global, closed: Closed<MemDisk>) -> Result<Vec<u64>, Fail> {
    let mut disk = closed.disk;
    let Ok(found) = recover(alloc, &mut disk) else {
        return Err(Fail::from("no log"));
    };
    let mut numbers = Vec::new(alloc);
    let records = found.records;
    for record in records.as_slice() {
        numbers.push(record.tid)?;
    }
    Ok(numbers)
}

// What comes of two sessions that put edges on one vertex.
#[derive(Drop)]
struct Rivals {
    committed: Option<Result<CommitEnd, Refusal>>,
    before: u8,
    conflict: Option<Refusal>,
    snapshot: Option<u64>,
    after: u8,
    held: Option<Refusal>,
    last: Option<Result<CommitEnd, Refusal>>,
    numbers: Vec<u64>,
}

// A session makes a vertex and commits; with its number. Then both sessions begin, and the first one puts an edge and
// commits.
fn overtaken<R: Wait>(
    rt: &R,
    alloc: Global,
    p: &Payload,
    desk: &mut Desk<MemDisk>,
) -> (u64, Option<Result<CommitEnd, Refusal>>)
    requires at_desk { AreAtDesk desk.old.store.board.turns desk.old.store.board.shards desk.old.pass desk.old.session desk.old.other }
    ensures at_desk { AreAtDesk desk.new.store.board.turns desk.new.store.board.shards desk.new.pass desk.new.session desk.new.other }
{
    let _ = begun(rt, alloc, desk);
    let v = made(rt, p, desk);
    let _ = desk.commit(rt, alloc);
    let _ = begun(rt, alloc, desk);
    desk.turn();
    let _ = begun(rt, alloc, desk);
    desk.turn();
    let _ = refused(rt, v, 9, p, desk);
    let committed = desk.commit(rt, alloc);
    desk.turn();
    (v, committed)
}

// The second session does not see the edge, and meets a conflict; it begins again, sees the edge, and while it holds the
// vertex the first session is held up.
fn rivals_of<R: Wait>(rt: &R, alloc: Global) -> Result<Rivals, Fail> {
    let p = Payload::from_slice(alloc, &[7])?;
    let mut desk = open_desk(rt, alloc, 100)?;
    let (v, committed) = overtaken(rt, alloc, &p, &mut desk);
    let before = seen(rt, v, 9, &mut desk);
    let conflict = refused(rt, v, 8, &p, &mut desk);
    let snapshot = begun(rt, alloc, &mut desk);
    let after = seen(rt, v, 9, &mut desk);
    let _ = refused(rt, v, 8, &p, &mut desk);
    desk.turn();
    let _ = begun(rt, alloc, &mut desk);
    let held = refused(rt, v, 6, &p, &mut desk);
    desk.close_row(rt);
    desk.turn();
    let last = desk.commit(rt, alloc);
    desk.close_row(rt);
    Ok(Rivals {
        committed,
        before,
        conflict,
        snapshot,
        after,
        held,
        last,
        numbers: numbers(alloc, desk.close())?,
    })
}

#[test]
fn a_session_sees_what_was_committed_before_it_began(rt: HostRuntime) -> Result<(), Fail> {
    let answers = rivals_of(&rt, rt.alloc())?;
    same(
        &rt,
        answers.committed,
        Some(Ok(CommitEnd::Committed { epoch: 2 })),
    );
    same(&rt, answers.before, 0);
    same(
        &rt,
        answers.conflict,
        Some(Refusal::Conflict {
            vertex: 1,
            committed: 2,
            read: 1,
        }),
    );
    same(&rt, answers.snapshot, Some(2));
    same(&rt, answers.after, 7);
    same(
        &rt,
        answers.held,
        Some(Refusal::Held {
            vertex: 1,
            holder: 4,
            looks: 16,
        }),
    );
    same(
        &rt,
        answers.last,
        Some(Ok(CommitEnd::Committed { epoch: 3 })),
    );
    same(&rt, answers.numbers.as_slice(), [1u64, 2, 4].as_slice());
    Ok(())
}

// What comes of a commit whose append fails, and of the next one.
#[derive(Drop)]
struct Mended {
    failed: Option<Result<CommitEnd, Refusal>>,
    gone: u8,
    committed: Option<Result<CommitEnd, Refusal>>,
    numbers: Vec<u64>,
}

// A session makes a vertex with an edge, and its commit fails at the sync of the append; it does the same again.
fn mended_of<R: Wait>(rt: &R, alloc: Global) -> Result<Mended, Fail> {
    let p = Payload::from_slice(alloc, &[7])?;
    let mut desk = open_desk(rt, alloc, 2)?;
    let _ = begun(rt, alloc, &mut desk);
    let v = made(rt, &p, &mut desk);
    let _ = refused(rt, v, 9, &p, &mut desk);
    let failed = desk.commit(rt, alloc);
    let _ = begun(rt, alloc, &mut desk);
    let gone = seen(rt, v, 9, &mut desk);
    let w = made(rt, &p, &mut desk);
    let _ = refused(rt, w, 9, &p, &mut desk);
    let committed = desk.commit(rt, alloc);
    desk.close_row(rt);
    Ok(Mended {
        failed,
        gone,
        committed,
        numbers: numbers(alloc, desk.close())?,
    })
}

#[test]
fn a_commit_after_one_that_failed_is_on_the_disk(rt: HostRuntime) -> Result<(), Fail> {
    let answers = mended_of(&rt, rt.alloc())?;
    same(
        &rt,
        answers.failed,
        Some(Err(Refusal::LogFault {
            before: 0,
            after: 1,
        })),
    );
    same(&rt, answers.gone, 0);
    same(
        &rt,
        answers.committed,
        Some(Ok(CommitEnd::Committed { epoch: 1 })),
    );
    same(&rt, answers.numbers.as_slice(), [2u64].as_slice());
    Ok(())
}

// A second pass beside that of a store of 16 shards over a new log.
fn open_pair(alloc: Global) -> Result<Pair<MemDisk>, Fail>
    ensures apart { IfOk result (λ p.
        AreApart p.store.board.turns p.store.board.shards p.first p.second p.session) }
{
    let Ok(disk) = MemDisk::new(alloc, Vec::new(alloc), 100, 1000, Vec::new(alloc)) else {
        return Err(Fail::from("memory"));
    };
    let settings = Settings {
        shards: 16,
        log_most: 4096,
    };
    let Some(desk) = desk_over(alloc, disk, settings) else {
        return Err(Fail::from("no store"));
    };
    Ok(pair_of(desk))
}

// What a session is answered that wants to begin.
#[derive(Drop)]
struct Tries {
    clock: Option<Beside>,
    shard: Option<Beside>,
    log: Option<Beside>,
    alone: Option<Result<Begun, Refusal>>,
}

// It tries while another pass holds the clock's turn, that of a shard, and the log's, and once more beside no turn. What
// begins is given up.
fn tries_of<R: Wait>(rt: &R, alloc: Global) -> Result<Tries, Fail> {
    let mut pair = open_pair(alloc)?;
    pair.open_row(rt);
    let clock = pair.try_begin_beside(rt, alloc, 16);
    let shard = pair.try_begin_beside(rt, alloc, 3);
    let _ = pair.abort(rt);
    let log = pair.try_begin_beside(rt, alloc, 17);
    let _ = pair.abort(rt);
    let alone = pair.try_begin(alloc);
    drop(pair.close());
    Ok(Tries {
        clock,
        shard,
        log,
        alone,
    })
}

// A turn was held, and no longer: and this was answered meanwhile.
fn while_held(answer: Result<Begun, Refusal>) -> Option<Beside> {
    Some(Beside {
        before: false,
        then: true,
        behind: false,
        answer,
    })
}

#[test]
fn a_transaction_begins_only_where_the_clock_s_turn_is_free(rt: HostRuntime) -> Result<(), Fail> {
    let answers = tries_of(&rt, rt.alloc())?;
    same(
        &rt,
        answers.clock,
        while_held(Err(Refusal::Busy { turn: 16 })),
    );
    same(
        &rt,
        answers.shard,
        while_held(Ok(Begun { tid: 1, read: 0 })),
    );
    same(&rt, answers.log, while_held(Ok(Begun { tid: 2, read: 0 })));
    same(&rt, answers.alone, Some(Ok(Begun { tid: 3, read: 0 })));
    Ok(())
}

// What two passes were told: the first, and the second.
fn told_of(pair: &Pair<MemDisk>) -> (u64, u64) {
    (pair.first.told(), pair.second.told())
}

// What two passes were told in turn.
#[derive(Drop)]
struct Telling {
    opened: (u64, u64),
    began: (u64, u64),
    committed: (u64, u64),
    joined: (u64, u64),
    read: (u64, u64),
    again: (u64, u64),
}

// The second pass begins and commits. It is joined into the first one, from which a third pass was split off before; that
// one begins, and is joined in its turn, after a fourth was split off.
fn telling_of<R: Wait>(rt: &R, alloc: Global) -> Result<Telling, Fail> {
    let p = Payload::from_slice(alloc, &[7])?;
    let mut pair = open_pair(alloc)?;
    let opened = told_of(&pair);
    pair.open_row(rt);
    let _ = pair.try_begin(alloc);
    let began = told_of(&pair);
    let _ = pair.new_vertex(rt, &p);
    let _ = pair.commit(rt, alloc);
    let committed = told_of(&pair);
    let mut pair = pair.renewed();
    let joined = told_of(&pair);
    pair.open_row(rt);
    let _ = pair.try_begin(alloc);
    let read = told_of(&pair);
    let _ = pair.abort(rt);
    let pair = pair.renewed();
    let again = told_of(&pair);
    drop(pair.close());
    Ok(Telling {
        opened,
        began,
        committed,
        joined,
        read,
        again,
    })
}

#[test]
fn a_pass_is_told_what_it_was_answered_and_no_more(rt: HostRuntime) -> Result<(), Fail> {
    let telling = telling_of(&rt, rt.alloc())?;
    same(&rt, telling.opened, (0, 0));
    same(&rt, telling.began, (0, 0));
    same(&rt, telling.committed, (0, 1));
    same(&rt, telling.joined, (1, 0));
    same(&rt, telling.read, (1, 1));
    same(&rt, telling.again, (1, 1));
    Ok(())
}

// What a session is answered that changes a vertex in each way, and what it sees behind an abort.
#[derive(Drop)]
struct Altered {
    set: Option<Result<(), Refusal>>,
    taken: Option<Result<Taken, Refusal>>,
    dropped: Option<Result<(), Refusal>>,
    aborted: Option<()>,
    seen: u8,
    vertex: u8,
    labels: usize,
    edges: usize,
    elsewhere: bool,
    numbers: Vec<u64>,
}

// A session makes a vertex with an edge and commits. It sets the vertex, takes the edge out, removes the vertex, and gives
// that up; then it looks for the edge, for the vertex, for its labels and its edges, and for an edge of no vertex.
fn altered_of<R: Wait>(rt: &R, alloc: Global) -> Result<Altered, Fail> {
    let p = Payload::from_slice(alloc, &[7])?;
    let mut desk = open_desk(rt, alloc, 100)?;
    let _ = begun(rt, alloc, &mut desk);
    let v = made(rt, &p, &mut desk);
    let _ = refused(rt, v, 9, &p, &mut desk);
    let _ = desk.commit(rt, alloc);
    let _ = begun(rt, alloc, &mut desk);
    let set = desk.set_vertex(rt, v, &p);
    let taken = desk.del_edge(rt, v, LABEL, 9);
    let dropped = desk.drop_vertex(rt, v);
    let aborted = desk.abort(rt);
    let _ = begun(rt, alloc, &mut desk);
    let seen = seen(rt, v, 9, &mut desk);
    let vertex = match desk.get_vertex(rt, v) {
        Some(Ok(Some(p))) => p.get(0).copied().unwrap_or(0),
        _ => 0,
    };
    let labels = match desk.labels(rt, v) {
        Some(Ok(labels)) => labels.len(),
        _ => 0,
    };
    let edges = match desk.scan_whole(rt, v, LABEL) {
        Some(Ok(pairs)) => pairs.len(),
        _ => 0,
    };
    let elsewhere = matches!(
        desk.get_edge(rt, v.wrapping_add(1), LABEL, 9),
        Some(Err(Refusal::NoVertex))
    );
    let _ = desk.commit(rt, alloc);
    desk.close_row(rt);
    Ok(Altered {
        set,
        taken,
        dropped,
        aborted,
        seen,
        vertex,
        labels,
        edges,
        elsewhere,
        numbers: numbers(alloc, desk.close())?,
    })
}

#[test]
fn what_is_given_up_is_as_it_was(rt: HostRuntime) -> Result<(), Fail> {
    let answers = altered_of(&rt, rt.alloc())?;
    same(&rt, answers.set, Some(Ok(())));
    same(&rt, answers.taken, Some(Ok(Taken::Gone)));
    same(&rt, answers.dropped, Some(Ok(())));
    same(&rt, answers.aborted, Some(()));
    same(&rt, (answers.seen, answers.vertex), (7, 7));
    same(
        &rt,
        (answers.labels, answers.edges, answers.elsewhere),
        (1, 1, true),
    );
    same(&rt, answers.numbers.as_slice(), [1u64].as_slice());
    Ok(())
}
