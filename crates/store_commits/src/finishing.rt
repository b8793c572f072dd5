//! A committed record is done, and its epoch is seen.

ghost use Rattle.std.specs.Prelude.{◌≡◌, ℕ, true, List, [], ◌∷◌, Some, None, nat_le};
ghost use Rattle.core_calls.specs.Calls.{Sees};
ghost use Rattle.core_calls.specs.Events.{Told, told};
ghost use Rattle.core_states.specs.declared.event.Act.TheVariants as acts;
ghost use Rattle.core_states.specs.declared.event.CoreAnswer.TheVariants as answers;
ghost use Rattle.turn_board.specs.Board.{known};
ghost use Rattle.store_turns.specs.declared.session.Work.{Work};
ghost use Rattle.store_turns.specs.Fits.{Known, DoesClock};
ghost use Rattle.store_turns.specs.Moves.{Won, IsFree};
ghost use Rattle.store_turns.specs.Seeing.{HasSeen};
ghost use Rattle.store_board.specs.Standing.{Stands, Goes};

use crate::seeing::see_epoch;
use std::sync::Wait;
use store_board::{StoreBoard, StorePass};
use store_calls::Finish;
use store_rows::ShardHome;
use store_turns::{ClockCall, ClockHome, Session};
use turn_board::{Happens, Home, ShowsLog};

// The record of the session of this index was done, and it was asked whether its epoch is visible.
#[derive(Drop)]
struct Finished {
    index: u64,
    yes: bool,
}

impl Happens for Finished {
    ghost use Rattle.std.specs.Prelude.{[], ◌∷◌};
    ghost use Rattle.store_turns.specs.Fits.{name_in};
    ghost use Rattle.store_turns.specs.Grows.{done_by};
    ghost use Rattle.core_calls.specs.Events.{told};
    ghost use Rattle.core_states.specs.declared.event.Act.TheVariants as acts;
    ghost use Rattle.core_states.specs.declared.event.CoreAnswer.TheVariants as answers;

    ghost events = { λ x v. done_by (name_in v x.index) (told acts.Done answers.Done)
        ∷ done_by (name_in v x.index) (told acts.Seen (answers.Visible x.yes)) ∷ [] };
}

// The record is done. Answers whether its epoch is visible then.
fn finish_on(home: &mut ClockHome, session: &mut Session) -> bool
    requires known { Known home.old.part.clock session.old }
    requires won { (t : Work) × (e : ℕ) × Won session.old t e × IsFree t }
    ensures does { DoesClock (λ _. acts.Done) home.old.part.clock session.old (Some answers.Done)
        home.new.part.clock session.new }
    ensures done { (t : Work) (e : ℕ) → Won session.old t e
        → session.new ≡ record session.old { finished = Some e; work = None } }
    ensures visible { (e : ℕ) → session.new.finished ≡ Some e → result ≡ nat_le e home.new.part.clock.visible }
    ensures same { session.new.index ≡ session.old.index }
{
    drop(Finish.call(home, session));
    match session.finished {
        Some(epoch) => home.part.seen(epoch),
        None => false,
    }
}

// The same on the clock in its box.
fn finish_in(home: &mut Box<ClockHome>, session: &mut Session) -> bool
    requires known { Known home.old.value.part.clock session.old }
    requires won { (t : Work) × (e : ℕ) × Won session.old t e × IsFree t }
    ensures does { DoesClock (λ _. acts.Done) home.old.value.part.clock session.old (Some answers.Done)
        home.new.value.part.clock session.new }
    ensures done { (t : Work) (e : ℕ) → Won session.old t e
        → session.new ≡ record session.old { finished = Some e; work = None } }
    ensures visible { (e : ℕ) → session.new.finished ≡ Some e
        → result ≡ nat_le e home.new.value.part.clock.visible }
    ensures same { session.new.index ≡ session.old.index }
{
    finish_on(home.as_mut(), session)
}

// The record is done, and it is asked whether its epoch is visible, under one turn of the clock.
fn finish_and_ask<W: ShowsLog, R: Wait>(
    rt: &R,
    board: &StoreBoard<ShardHome, W>,
    pass: &mut StorePass<ShardHome, W>,
    session: &mut Session,
) -> bool
    requires stands { Stands board.now.turns board.now.shards pass.old session.old }
    requires won { (t : Work) × (e : ℕ) × Won session.old t e × IsFree t }
    ensures goes { Goes board.now.turns board.now.shards
        (told acts.Done answers.Done ∷ told acts.Seen (answers.Visible result) ∷ [])
        pass.old pass.new session.old session.new }
    ensures done { (t : Work) (e : ℕ) → Won session.old t e
        → session.new ≡ record session.old { finished = Some e; work = None } }
    ensures seen { (t : Work) (e : ℕ) → Won session.old t e → result ≡ true → HasSeen e (known pass.new) }
{
    let mut home = board.turns.take_clock(rt, pass, board.shards);
    let yes = finish_in(&mut home, session);
    board.hints.note(home.as_ref());
    let finished = Finished {
        index: session.index,
        yes,
    };
    board
        .turns
        .give(pass, board.shards, Home::Clock(home), &finished);
    yes
}

/// The record, which is applied at each vertex that was taken, is done, and it is asked until its epoch is visible: until
/// all records up to it are applied. The pass has seen that epoch visible then.
///
/// Nothing here says that the wait ends. It takes no memory.
pub(crate) fn finish<W: ShowsLog, R: Wait>(
    rt: &R,
    board: &StoreBoard<ShardHome, W>,
    pass: &mut StorePass<ShardHome, W>,
    session: &mut Session,
)
    requires stands { Stands board.now.turns board.now.shards pass.old session.old }
    requires won { (t : Work) × (e : ℕ) × Won session.old t e × IsFree t }
    ensures goes { (ts : List Told) × Sees ts
        × Goes board.now.turns board.now.shards (told acts.Done answers.Done ∷ ts) pass.old pass.new session.old session.new }
    ensures done { (t : Work) (e : ℕ) → Won session.old t e
        → session.new ≡ record session.old { finished = Some e; work = None } }
    ensures seen { (t : Work) (e : ℕ) → Won session.old t e → HasSeen e (known pass.new) }
{
    if !finish_and_ask(rt, board, pass, session) {
        see_epoch(rt, board, pass, session);
    }
}
