//! The values of a small board: shards without rows, the clock, and a log without a disk.

ghost use Rattle.std.specs.Prelude.{◌≡◌, []};
ghost use Rattle.graph_model.specs.Records.{IsGood};
ghost use Rattle.core_states.specs.Openings.{opened_clock};

use core_states::{Clock, Listed};
use graph_model::{Base, Graph};
use std::alloc::Global;
use std::collections::LinkedList;
use turn_board::{Home, Homes, Pass, ShowsClock, ShowsLog, ShowsRows, TurnBoard};

/// How many bytes a log may have at most, on a small board: less than in a run of the program.
pub const LOG_MOST: u64 = 4096;

/// A shard of this number among so many, without rows, and a count that its holder may raise.
#[derive(Drop)]
pub struct Rows {
    pub count: u64,
    pub number: u32,
    pub shards: u32,
}

impl ShowsRows for Rows {
    ghost use Rattle.std.specs.Prelude.{[]};

    ghost rows = { λ _. [] };

    ghost use Rattle.board_trials.specs.Opened.{place_of};

    ghost place = { place_of };
}

/// The clock.
#[derive(Drop)]
pub struct Hand {
    pub clock: Clock,
}

impl ShowsClock for Hand {
    ghost clock = { λ h. h.clock };
}

/// The log part, and the time on its disk's clock.
#[derive(Drop)]
pub struct Paper {
    pub durable: u64,
    pub moment: u64,
    pub time: u64,
}

impl ShowsLog for Paper {
    ghost use Rattle.board_trials.specs.Papers.{paper_log, paper_time};

    ghost log = { paper_log };

    ghost moment = { paper_time };
}

pub type Spot = Home<Rows, Hand, Paper>;

/// An empty slot, which lies between those of two turns, is as wide as two cache lines.
const _: () = prove!(size_of::<Option<Spot>>() >= 128);

pub type Values = Homes<Rows, Hand, Paper>;

pub type Board = TurnBoard<Spot>;

pub type Holder = Pass<Spot>;

/// The base of an empty log.
pub fn small_base(alloc: Global) -> Base
    ensures { result ≡ record { graph = []; epoch = 0; next_tid = 1; next_vertex = 1 } }
{
    Base {
        graph: Graph::empty(alloc),
        epoch: 0,
        next_tid: 1,
        next_vertex: 1,
    }
}

/// The clock that a run of the base starts with.
pub fn opened_clock(alloc: Global, base: &Base) -> Hand
    ensures { result.clock ≡ opened_clock base.now }
{
    Hand {
        clock: Clock {
            next_tid: base.next_tid,
            next_vertex: base.next_vertex,
            last: base.epoch,
            visible: base.epoch,
            rows: Listed::new(alloc),
            queue: LinkedList::new(alloc),
            pending: Listed::new(alloc),
            outcomes: LinkedList::new(alloc),
            records: LinkedList::new(alloc),
            moments: LinkedList::new(alloc),
        },
    }
}

/// The log part that a run of it starts with.
pub fn blank_paper() -> Paper
    ensures { result ≡ record { durable = 0; moment = 0; time = 0 } }
{
    Paper {
        durable: 0,
        moment: 0,
        time: 0,
    }
}
