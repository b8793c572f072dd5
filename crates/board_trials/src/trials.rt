//! What passes do on a small board.

ghost use Rattle.std.specs.Prelude.{◌≡◌, ◌+◌, ◌-◌, ◌<◌, ℕ, true, [], ◌∷◌, IfOk, Some, Option, List};
ghost use Rattle.core_states.specs.declared.clock.Clock.{Clock};
ghost use Rattle.core_states.specs.Parts.{Part, OfClock, OfLog, OfShard};
ghost use Rattle.turn_board.specs.Views.{Held, Belongs, fresh_view, start_of, taking};
ghost use Rattle.turn_board.specs.Works.{giving};
ghost use Rattle.turn_board.specs.Homes.{home_shown};
ghost use Rattle.board_trials.specs.Papers.{paper_log, paper_time};
ghost use Rattle.turn_board.specs.Boards.{IsOf};
ghost use Rattle.turn_board.specs.Board.{known, turns, Knowing, Ready, SameSeat};
ghost use Rattle.board_trials.specs.Opened.{HasNoRow, opened, opening_row, home_of, small_start};

use crate::opening::board_of;
use crate::spot::{Board, Hand, Holder, Paper, Spot, Values};
use std::alloc::{AllocError, Global};
use std::sync::Wait;
use std::thread::{self, Threads};
use turn_board::{Happens, Home, Nothing, Take};

/// The turn of the clock, on a board of two shards.
const CLOCK: u32 = 2;

/// The turn of the log.
const LOG: u32 = 3;

/// The pass's first actor opened its row.
struct OpensRow;

impl Happens for OpensRow {
    ghost use Rattle.board_trials.specs.Opened.{opening_row};

    ghost events = { λ _. opening_row };
}

// Gives a turn back as it was taken.
pub(crate) fn give_back(board: &Board, pass: &mut Holder, turn: u32, value: Spot)
    requires own { IsOf board.now pass.old }
    requires ready { Ready pass.old }
    requires turn { (hs : List Held) × ((known pass.old).held ≡
        record { turn = turn; part = (home_of value).part } ∷ hs) × (turn < turns pass.old) }
    requires belongs { Belongs (start_of (known pass.old)) turn (home_of value) }
    ensures given { Knowing pass.new (giving [] (known pass.old)) }
    ensures keeps { SameSeat pass.old pass.new }
{
    board.give(pass, turn, value, &Nothing)
}

/// One pass takes a shard's turn, and one that was split off the clock's. Both give, the second is joined,
/// and the values come back.
pub fn two_passes<R: Wait>(rt: &R, alloc: Global) -> Result<Values, AllocError> {
    let (board, mut first) = board_of(alloc, 2)?;
    let mut second = board.split(&mut first);
    let rows = board.take(rt, &mut first, 0);
    let clock = board.take(rt, &mut second, CLOCK);
    give_back(&board, &mut first, 0, rows);
    give_back(&board, &mut second, CLOCK, clock);
    board.join(&mut first, second);
    Ok(board.close(first))
}

/// What a second pass finds at a turn that the first one holds, and whether it is free afterwards.
pub fn busy_then_free<R: Wait>(rt: &R, alloc: Global) -> Result<(bool, bool), AllocError> {
    let (board, mut first) = board_of(alloc, 2)?;
    let mut second = board.split(&mut first);
    let rows = board.take(rt, &mut first, 0);
    let busy = match board.try_take(&mut second, 0) {
        Take::Taken(other) => {
            give_back(&board, &mut second, 0, other);
            false
        }
        Take::Busy { turn: _ } => true,
    };
    give_back(&board, &mut first, 0, rows);
    let free = match board.try_take(&mut second, 0) {
        Take::Taken(other) => {
            give_back(&board, &mut second, 0, other);
            true
        }
        Take::Busy { turn: _ } => false,
    };
    board.join(&mut first, second);
    drop(board.close(first));
    Ok((busy, free))
}

// The pass opens the row of its first actor, under the clock's turn.
fn open_a_row<R: Wait>(rt: &R, board: &Board, pass: Holder) -> Holder
    requires own { IsOf board.now pass × (turns pass ≡ 4) }
    requires ready { Ready pass × ((known pass).held ≡ []) × HasNoRow (known pass) }
    ensures own { result.table_id ≡ pass.table_id }
    ensures opened { (k : Clock) × Knowing result (opened (taking 2 (OfClock k) (known pass))) }
{
    let mut pass = pass;
    let hand = board.take_clock(rt, &mut pass, CLOCK);
    give_opened(board, &mut pass, hand);
    pass
}

// The row of the pass's first actor was opened.
fn give_opened(board: &Board, pass: &mut Holder, hand: Hand)
    requires own { IsOf board.now pass.old × (turns pass.old ≡ 4) }
    requires ready { Ready pass.old × HasNoRow (known pass.old) }
    requires turn { (known pass.old).held ≡ record { turn = 2; part = OfClock hand.clock } ∷ [] }
    ensures given { Knowing pass.new (opened (known pass.old)) }
    ensures keeps { SameSeat pass.old pass.new }
{
    board.give(pass, CLOCK, Home::Clock(hand), &OpensRow)
}

/// Two threads open a row each, and the values come back.
pub fn both_open_a_row<R: Threads + Wait + Sync>(
    rt: &R,
    alloc: Global,
) -> Result<Values, AllocError> {
    let (board, mut first) = board_of(alloc, 2)?;
    let second = board.split(&mut first);
    let shared = &board;
    let (mut last, other) = thread::join(
        rt,
        move || open_a_row(rt, shared, first),
        move || open_a_row(rt, shared, second),
    );
    board.join(&mut last, other);
    Ok(board.close(last))
}

// The pass holds the log's turn, and opens the row of its first actor under the clock's.
fn give_beside(board: &Board, pass: &mut Holder, home: Hand, paper: &Paper)
    requires own { IsOf board.now pass.old × (turns pass.old ≡ 4) }
    requires ready { Ready pass.old × HasNoRow (known pass.old) }
    requires turn { (known pass.old).held ≡ record { turn = 2; part = OfClock home.clock } ∷
        record { turn = 3; part = OfLog (paper_log paper.now) } ∷ [] }
    ensures given { Knowing pass.new (opened (known pass.old)) }
    ensures held { (known pass.new).held ≡ record { turn = 3; part = OfLog (paper_log paper.now) } ∷ [] }
    ensures keeps { SameSeat pass.old pass.new }
{
    board.give(pass, CLOCK, Home::Clock(home), &OpensRow)
}

// The log's turn, and then the clock's, are taken and given back.
fn open_beside<R: Wait>(rt: &R, board: &Board, pass: &mut Holder)
    requires own { IsOf board.now pass.old × (turns pass.old ≡ 4) }
    requires ready { Ready pass.old × ((known pass.old).held ≡ []) × HasNoRow (known pass.old) }
    ensures ready { Ready pass.new × ((known pass.new).held ≡ []) }
    ensures same { ((known pass.new).number ≡ (known pass.old).number) ×
        ((known pass.new).joined ≡ (known pass.old).joined) × ((known pass.new).made ≡ (known pass.old).made) }
    ensures keeps { SameSeat pass.old pass.new }
{
    let paper = board.take_log(rt, pass, LOG);
    let hand = board.take_clock(rt, pass, CLOCK);
    give_beside(board, pass, hand, &paper);
    give_back(board, pass, LOG, Home::Log(paper))
}

/// A pass takes the log's turn, and the clock's beside it, and the values come back.
pub fn beside_the_log<R: Wait>(rt: &R, alloc: Global) -> Result<Values, AllocError> {
    let (board, mut pass) = board_of(alloc, 2)?;
    open_beside(rt, &board, &mut pass);
    Ok(board.close(pass))
}
