//! The work of one thread: transactions of one session, one after another.

ghost use Rattle.std.specs.Prelude.{◌<◌, ◌^◌};
ghost use Rattle.store_trial.specs.Hands.{IsReady, GoesOn};

use crate::hand::{Hand, LABEL};
use crate::plan::{Call, Edge, Job, Sizes, Which};
use crate::tally::Tally;
use disk_model::Disk;
use graph_model::{Payload, Query};
use std::alloc::Global;
use std::sync::Wait;
use std::time::{Clock, Instant};
use store_board::StoreBoard;
use store_log::LogHome;
use store_rows::ShardHome;

/// What a thread works on, and its place among all.
#[derive(Clone, Copy)]
pub struct Task {
    pub sizes: Sizes,
    pub job: Job,
    pub place: u32,
}

impl Task {
    /// The task of the first or the second half of the threads, by the places that they come to have.
    pub fn half(&self, second: bool) -> Task {
        Task {
            place: self.place.wrapping_mul(2).wrapping_add(u32::from(second)),
            ..*self
        }
    }

    /// The task of one thread: beside the first one, which scans the hub, the others put edges on it.
    pub fn seated(&self) -> Task {
        let mut task = *self;
        if task.job.which == Which::OfHub && task.job.call == Call::Scan && task.place > 0 {
            task.job.call = Call::Put;
            task.job.which = Which::OfHubJumping;
        }
        task
    }
}

// A vertex is made, or an edge is put; whether it was.
fn change<D: Disk, R: Wait>(
    rt: &R,
    board: &StoreBoard<ShardHome, LogHome<D>>,
    alloc: Global,
    hand: &mut Hand<D>,
    call: Call,
    edge: &Edge,
) -> bool
    requires ready { IsReady board.now.turns board.now.shards hand.old.pass hand.old.session }
    requires destination { edge.now.to < 2 ^ 63 }
    ensures goes_on { GoesOn board.now.turns board.now.shards hand.old.pass hand.new.pass hand.new.session }
{
    let Ok(p) = Payload::from_slice(alloc, edge.word.to_le_bytes().as_slice()) else {
        return false;
    };
    if call == Call::Make {
        return hand.make(rt, board, &p);
    }
    hand.put(rt, board, edge, &p)
}

// An edge or a list is read; whether it was.
fn look<D: Disk, R: Wait>(
    rt: &R,
    board: &StoreBoard<ShardHome, LogHome<D>>,
    hand: &mut Hand<D>,
    query: &Query,
    to: u64,
    tally: &mut Tally,
) -> bool
    requires ready { IsReady board.now.turns board.now.shards hand.old.pass hand.old.session }
    ensures goes_on { GoesOn board.now.turns board.now.shards hand.old.pass hand.new.pass hand.new.session }
{
    match hand.read(rt, board, query) {
        Some(answer) => {
            tally.see(to, &answer);
            true
        }
        None => false,
    }
}

// A call about an edge; whether it was carried out.
fn call<D: Disk, R: Wait>(
    rt: &R,
    board: &StoreBoard<ShardHome, LogHome<D>>,
    alloc: Global,
    hand: &mut Hand<D>,
    call: Call,
    edge: &Edge,
    tally: &mut Tally,
) -> bool
    requires ready { IsReady board.now.turns board.now.shards hand.old.pass hand.old.session }
    requires destination { edge.now.to < 2 ^ 63 }
    ensures goes_on { GoesOn board.now.turns board.now.shards hand.old.pass hand.new.pass hand.new.session }
{
    let Edge { from: v, to: d, .. } = *edge;
    let l = LABEL;
    match call {
        Call::Make | Call::Put => change(rt, board, alloc, hand, call, edge),
        Call::Read => look(rt, board, hand, &Query::Edge { v, l, d }, d, tally),
        Call::Scan => look(rt, board, hand, &Query::Scan { v, l }, d, tally),
    }
}

// The calls of a transaction, from this number on; whether all were carried out.
fn calls<D: Disk, R: Wait>(
    rt: &R,
    board: &StoreBoard<ShardHome, LogHome<D>>,
    alloc: Global,
    hand: &mut Hand<D>,
    task: &Task,
    first: u64,
    tally: &mut Tally,
) -> bool
    requires ready { IsReady board.now.turns board.now.shards hand.old.pass hand.old.session }
    ensures goes_on { GoesOn board.now.turns board.now.shards hand.old.pass hand.new.pass hand.new.session }
{
    for i in 0..task.job.calls {
        let number = first.wrapping_add(u64::from(i));
        let edge = task.sizes.edge_of(task.job.which, task.place, number);
        if !call(rt, board, alloc, hand, task.job.call, &edge, tally) {
            return false;
        }
    }
    true
}

// A transaction; whether it was carried out.
fn transaction<D: Disk, R: Wait>(
    rt: &R,
    board: &StoreBoard<ShardHome, LogHome<D>>,
    alloc: Global,
    hand: &mut Hand<D>,
    task: &Task,
    first: u64,
    tally: &mut Tally,
) -> bool
    requires ready { IsReady board.now.turns board.now.shards hand.old.pass hand.old.session }
    ensures goes_on { GoesOn board.now.turns board.now.shards hand.old.pass hand.new.pass hand.new.session }
{
    if !hand.begin(rt, board, alloc) {
        return false;
    }
    if !calls(rt, board, alloc, hand, task, first, tally) {
        return false;
    }
    hand.commit(rt, board, alloc)
}

/// Nanoseconds are counted below this.
const NANOS_END: u128 = 1 << 63;

/// How many nanoseconds have passed since then; 0 where the clock does not say.
pub fn nanos_since<R: Clock>(rt: &R, start: Option<Instant>) -> u64 {
    match start {
        Some(start) => match start.elapsed(rt) {
            Ok(time) => (time.as_nanos() % NANOS_END) as u64,
            Err(_) => 0,
        },
        None => 0,
    }
}

/// The transactions of a task, until one is refused or the time has passed.
pub fn work<D: Disk, R: Wait + Clock>(
    rt: &R,
    board: &StoreBoard<ShardHome, LogHome<D>>,
    alloc: Global,
    hand: &mut Hand<D>,
    task: &Task,
) -> Tally
    requires ready { IsReady board.now.turns board.now.shards hand.old.pass hand.old.session }
    ensures goes_on { GoesOn board.now.turns board.now.shards hand.old.pass hand.new.pass hand.new.session }
{
    let mut tally = Tally::new();
    let start = Instant::now(rt).ok();
    hand.open_row(rt, board);
    for n in 0..task.job.transactions {
        if nanos_since(rt, start) / 1_000_000 >= task.job.millis {
            break;
        }
        let first = u64::from(n).wrapping_mul(u64::from(task.job.calls));
        if !transaction(rt, board, alloc, hand, task, first, &mut tally) {
            tally.refused = 1;
            break;
        }
        tally.transactions = tally.transactions.wrapping_add(1);
    }
    hand.close_row(rt, board);
    if tally.edges > 0 {
        tally.read_nanos = nanos_since(rt, start);
    }
    tally
}
