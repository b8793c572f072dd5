//! A small board, with any number of shards.

ghost use Rattle.std.specs.Prelude.{◌≡◌, ◌+◌, ◌≤◌, ◌<◌, IfOk, []};
ghost use Rattle.turn_board.specs.Views.{fresh_view};
ghost use Rattle.turn_board.specs.Boards.{IsOf};
ghost use Rattle.turn_board.specs.Board.{turns, Knowing};
ghost use Rattle.board_trials.specs.Opened.{small_start, AreBlank};

use crate::spot::{
    Board, Hand, Holder, LOG_MOST, Paper, Rows, blank_paper, opened_clock, small_base,
};
use std::alloc::{AllocError, Global};
use turn_board::{Homes, Shards};

// So many shards without rows, whose counts are 0.
fn blank_shards(alloc: Global, count: u32) -> Result<Shards<Rows, Hand, Paper>, AllocError>
    ensures { IfOk result (λ shards. AreBlank count count shards.values.items) }
{
    let mut shards = Shards::new(alloc);
    for number in 0..count {
        let blank = Rows {
            count: 0,
            number,
            shards: count,
        };
        if shards.push(blank).is_err() {
            return Err(AllocError);
        }
    }
    Ok(shards)
}

/// A board of so many shards over an empty log, and its first pass.
pub fn board_of(alloc: Global, count: u32) -> Result<(Board, Holder), AllocError>
    requires some { 0 < count }
    requires few { count ≤ 64 }
    ensures board { IfOk result (λ b. IsOf b.0 b.1 × (turns b.1 ≡ count + 2)) }
    ensures pass { IfOk result (λ b. Knowing b.1 (fresh_view (small_start count) [] [] [])) }
{
    let base = small_base(alloc);
    let shards = blank_shards(alloc, count)?;
    let clock = opened_clock(alloc, &base);
    let log = blank_paper();
    let homes = Homes { shards, clock, log };
    match Board::make(alloc, &base, LOG_MOST, homes) {
        Ok(made) => Ok(made),
        Err(_homes) => Err(AllocError),
    }
}
