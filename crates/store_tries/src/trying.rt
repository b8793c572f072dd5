//! An event on the clock, in one try at its turn.

ghost use Rattle.std.specs.Prelude.{◌≡◌, IfOk, IfErr};
ghost use Rattle.store_board.specs.Standing.{Stands, Goes};
ghost use Rattle.store_tries.specs.Trying.{FoundTaken};
ghost use Rattle.store_turns.specs.Fits.{name_in};
ghost use Rattle.store_turns.specs.Grows.{told_if};
ghost use Rattle.store_turns.specs.Seeing.{MeetsClock};
ghost use Rattle.turn_board.specs.Board.{known};

use core_states::CoreAnswer;
use store_board::{StoreBoard, StorePass};
use store_turns::{Called, ClockCall, Session, call_clock};
use turn_board::{Home, ShowsLog, ShowsRows, Take};

/// Does an event on the clock, under its turn, which is taken in one try and given back.
///
/// `Err`: another thread had the turn of this number. Nothing was done, and the session is as before.
///
/// Time: one step and that of the event; it never waits.
pub fn try_by_clock<X: ShowsRows, W: ShowsLog, C: ClockCall>(
    board: &StoreBoard<X, W>,
    pass: &mut StorePass<X, W>,
    session: &mut Session,
    call: &C,
) -> Result<Option<CoreAnswer>, u32>
    requires stands { Stands board.now.turns board.now.shards pass.old session.old }
    ensures goes { IfOk result (λ answer. Goes board.now.turns board.now.shards (told_if (C.acts call.now) answer)
        pass.old pass.new session.old session.new) }
    ensures meets { IfOk result (λ answer. MeetsClock (C.acts call.now) answer
        (name_in (known pass.old) session.old.index) (known pass.old) (known pass.new)) }
    ensures leaves { IfOk result (λ answer. C.leaves call.now answer session.old session.new) }
    ensures busy { IfErr result (λ turn. FoundTaken board.now.turns board.now.shards turn pass.old pass.new
        session.old session.new) }
{
    let turn = board.shards;
    let mut home = match board.turns.try_take_clock(pass, turn) {
        Take::Taken(home) => home,
        Take::Busy { turn } => return Err(turn),
    };
    let answer = call_clock(call, &mut home, session);
    board.hints.note(home.as_ref());
    let index = session.index;
    {
        let called = Called {
            index,
            call,
            answer: &answer,
        };
        board.turns.give(pass, turn, Home::Clock(home), &called);
    }
    Ok(answer)
}
