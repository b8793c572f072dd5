//! A small board over the base of an empty log, and an actor that has done nothing.

ghost use Rattle.std.specs.Prelude.{◌≡◌, IfOk, Some, ◌∷◌, []};
ghost use Rattle.graph_model.specs.Records.{empty_base};
ghost use Rattle.core_rows.specs.Rows.{fresh_row};
ghost use Rattle.core_states.specs.LogParts.{opened_part};
ghost use Rattle.core_states.specs.Openings.{no_disk, opened_clock, fresh_actor};
ghost use Rattle.core_events.specs.CoreLogs.{log_of};
ghost use Rattle.turn_board.specs.Views.{fresh_view};
ghost use Rattle.turn_board.specs.Boards.{IsOf};
ghost use Rattle.turn_board.specs.Board.{turns, Knowing};
ghost use Rattle.turn_board.specs.declared.home.Home.TheVariants as home;
ghost use Rattle.leader_trial.specs.Idle.{first_start};

use crate::parts::{Board, Hand, Holder, Paper, Rows};
use core_events::CoreLog;
use core_rows::CoreRow;
use core_states::{Actor, Clock, DiskRecords, Learnt, Listed};
use graph_model::{Base, Graph, LIST_MOST};
use std::alloc::{AllocError, Global};
use std::collections::LinkedList;
use turn_board::{Homes, Shards};

// The base of an empty log.
fn base_of(alloc: Global) -> Base
    ensures { result ≡ empty_base }
{
    Base {
        graph: Graph::empty(alloc),
        epoch: 0,
        next_tid: 1,
        next_vertex: 1,
    }
}

// A shard whose row is that of a vertex that was never there.
fn one_shard(alloc: Global) -> Result<Shards<Rows, Hand, Paper>, AllocError>
    ensures { IfOk result (λ shards. shards.values.items ≡
        Some (home.Shard (record { first = fresh_row })) ∷ []) }
{
    let mut shards = Shards::new(alloc);
    let first = CoreRow::new(alloc);
    match shards.push(Rows { first }) {
        Ok(()) => Ok(shards),
        Err(_rows) => Err(AllocError),
    }
}

// The clock that a run of it starts with.
fn clock_of(alloc: Global) -> Hand
    ensures { result.clock ≡ opened_clock empty_base }
{
    Hand {
        clock: Clock {
            next_tid: 1,
            next_vertex: 1,
            last: 0,
            visible: 0,
            rows: Listed::new(alloc),
            queue: LinkedList::new(alloc),
            pending: Listed::new(alloc),
            outcomes: LinkedList::new(alloc),
            records: LinkedList::new(alloc),
            moments: LinkedList::new(alloc),
        },
    }
}

// The log part that a run of it starts with.
fn paper_of(alloc: Global) -> Paper
    ensures log { log_of result.log ≡ opened_part 0 no_disk }
    ensures time { result.time ≡ 0 }
{
    Paper {
        log: CoreLog {
            holder: None,
            durable: 0,
            moment: 0,
            mended: true,
            opening_count: 0,
            greatest: 0,
            disk: DiskRecords {
                opened: LinkedList::new(alloc),
                durable: LinkedList::new(alloc),
                moments: LinkedList::new(alloc),
                attempt: None,
                tried: LinkedList::new(alloc),
            },
        },
        time: 0,
    }
}

/// A board of one shard over an empty log, and its first pass.
pub fn board_of(alloc: Global) -> Result<(Board, Holder), AllocError>
    ensures board { IfOk result (λ b. IsOf b.0 b.1 × (turns b.1 ≡ 3)) }
    ensures pass { IfOk result (λ b. Knowing b.1 (fresh_view first_start [] [] [])) }
{
    let base = base_of(alloc);
    let shards = one_shard(alloc)?;
    let clock = clock_of(alloc);
    let log = paper_of(alloc);
    let homes = Homes { shards, clock, log };
    match Board::make(alloc, &base, LIST_MOST, homes) {
        Ok(made) => Ok(made),
        Err(_homes) => Err(AllocError),
    }
}

/// An actor of that base that has done nothing. It takes no memory.
pub fn new_actor(alloc: Global) -> Actor
    ensures { result ≡ fresh_actor empty_base }
{
    Actor {
        row: false,
        txn: None,
        group: LinkedList::new(alloc),
        written: false,
        learnt: Learnt {
            horizon: 0,
            oldest: 1,
        },
        looked: None,
        finished: None,
        receipts: LinkedList::new(alloc),
        drew: LinkedList::new(alloc),
    }
}
