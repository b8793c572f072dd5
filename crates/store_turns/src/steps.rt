//! One event under one turn.

ghost use Rattle.core_states.specs.declared.event.CoreAnswer.{CoreAnswer};
ghost use Rattle.store_turns.specs.declared.session.Session.{Session};
ghost use Rattle.std.specs.Prelude.{Option, ◌≡◌, ◌+◌, ◌<◌, ℕ, [], IfSome};
ghost use Rattle.core_states.specs.declared.event.Act.{Act};
ghost use Rattle.core_states.specs.declared.event.Reach.TheVariants as reach;
ghost use Rattle.core_states.specs.States.{reach_of};
ghost use Rattle.turn_board.specs.Boards.{IsOf};
ghost use Rattle.turn_board.specs.Board.{known, turns, Ready, SameSeat};
ghost use Rattle.store_turns.specs.Grows.{Grew, told_if};
ghost use Rattle.graph_model.specs.Records.{transaction_most};
ghost use Rattle.store_turns.specs.Fits.{Fits, Known, DoesClock, name_in};
ghost use Rattle.store_turns.specs.Seeing.{MeetsClock};
ghost use Rattle.store_turns.specs.Rows.{IsAt, KnownRows, DoesRow};

use crate::clock_home::ClockHome;
use crate::session::Session;
use core_states::CoreAnswer;
use std::sync::Wait;
use turn_board::{Happens, Home, Pass, ShowsClock, ShowsLog, ShowsRows, TurnBoard};

/// An event of a session on the clock.
pub trait ClockCall {
    /// Which event it is that is answered so.
    ghost acts: { Self → CoreAnswer → Act };

    /// What it makes of the session, by what is answered.
    ghost leaves: { Self → Option CoreAnswer → Session → Session → Type 0 };

    /// Does the event, and answers as the core does; None where nothing was done.
    fn call(&self, home: &mut ClockHome, session: &mut Session) -> Option<CoreAnswer>
        requires known { Known home.old.part.clock session.old }
        ensures does { DoesClock (acts self.now) home.old.part.clock session.old result home.new.part.clock session.new }
        ensures leaves { leaves self.now result session.old session.new }
        ensures same { session.new.index ≡ session.old.index }
        ensures reach { (says : CoreAnswer) → reach_of (acts self.now says) ≡ reach.Clock };
}

/// A call on the clock by the session of this index, as it was answered: what was done under the clock's turn when that is
/// given back.
#[derive(Drop)]
pub struct Called<'a, C> {
    pub index: u64,
    pub call: &'a C,
    pub answer: &'a Option<CoreAnswer>,
}

impl<'a, C: ClockCall> Happens for Called<'a, C> {
    ghost use Rattle.store_turns.specs.Grows.{done_if};
    ghost use Rattle.store_turns.specs.Fits.{name_in};

    ghost events = { λ x v. done_if (name_in v x.index) (C.acts x.call.now) x.answer.now };
}

/// Does an event on the clock in its box, as the call does.
pub fn call_clock<C: ClockCall>(
    call: &C,
    home: &mut Box<ClockHome>,
    session: &mut Session,
) -> Option<CoreAnswer>
    requires known { Known home.old.value.part.clock session.old }
    ensures does { DoesClock (C.acts call.now) home.old.value.part.clock session.old result
        home.new.value.part.clock session.new }
    ensures leaves { C.leaves call.now result session.old session.new }
    ensures same { session.new.index ≡ session.old.index }
    ensures reach { (says : CoreAnswer) → reach_of (C.acts call.now says) ≡ reach.Clock }
{
    call.call(home.as_mut(), session)
}

/// Does an event on the clock, under its turn, which is taken and given back.
///
/// Nothing here says that the wait ends.
pub fn on_clock<X: ShowsRows, W: ShowsLog, C: ClockCall, R: Wait>(
    rt: &R,
    board: &TurnBoard<Home<X, Box<ClockHome>, W>>,
    pass: &mut Pass<Home<X, Box<ClockHome>, W>>,
    session: &mut Session,
    turn: u32,
    call: &C,
) -> Option<CoreAnswer>
    requires own { IsOf board.now pass.old }
    requires ready { Ready pass.old × ((known pass.old).held ≡ []) }
    requires turn { turn + 2 ≡ turns pass.old }
    requires fits { Fits session.old (known pass.old) }
    ensures grew { Grew (name_in (known pass.old) session.old.index) (told_if (C.acts call.now) result)
        (known pass.old) (known pass.new) }
    ensures fits { Fits session.new (known pass.new) }
    ensures meets { MeetsClock (C.acts call.now) result (name_in (known pass.old) session.old.index)
        (known pass.old) (known pass.new) }
    ensures leaves { C.leaves call.now result session.old session.new }
    ensures same { session.new.index ≡ session.old.index }
    ensures ready { Ready pass.new }
    ensures keeps { SameSeat pass.old pass.new }
{
    let mut home = board.take_clock(rt, pass, turn);
    let answer = call_clock(call, &mut home, session);
    let index = session.index;
    {
        let called = Called {
            index,
            call,
            answer: &answer,
        };
        board.give(pass, turn, Home::Clock(home), &called);
    }
    answer
}

/// An event of a session on a row of a shard: which one it is, and of which vertex.
pub trait RowEvent {
    /// Which event it is that is answered so.
    ghost acts: { Self → CoreAnswer → Act };

    /// The vertex of the row.
    ghost of: { Self → ℕ };

    /// The vertex of the row.
    fn vertex(&self) -> u64
        ensures is { result ≡ of self.now }
        ensures reach { (says : CoreAnswer) → reach_of (acts self.now says) ≡ reach.Row (of self.now) };
}

/// An event of a session on a row of a shard, as a call that may change the session.
pub trait RowCall<X: ShowsRows>: RowEvent {
    /// What it makes of the session, by what is answered.
    ghost leaves: { Self → Option CoreAnswer → Session → Session → Type 0 };

    /// Does the event, and answers as the core does; None where nothing was done.
    fn call(&self, shard: &mut X, session: &mut Session) -> Option<CoreAnswer>
        requires own { IsAt (Self.of self.now) (X.place shard.old) }
        requires known { KnownRows (X.place shard.old) (X.rows shard.old) session.old }
        ensures does { DoesRow (Self.of self.now) (Self.acts self.now) (X.place shard.old) (X.rows shard.old)
            session.old result (X.rows shard.new) session.new }
        ensures place { X.place shard.new ≡ X.place shard.old }
        ensures leaves { leaves self.now result session.old session.new }
        ensures same { session.new.index ≡ session.old.index };
}

/// An event of a session on a row of a shard that leaves the session as it is, which is only lent.
pub trait RowRead<X: ShowsRows>: RowEvent {
    /// What it may be answered.
    ghost says: { Self → CoreAnswer → Type 0 };

    /// Does the event, and answers as the core does; None where nothing was done.
    fn read(&self, shard: &mut X, session: &Session) -> Option<CoreAnswer>
        requires own { IsAt (Self.of self.now) (X.place shard.old) }
        requires known { KnownRows (X.place shard.old) (X.rows shard.old) session.now }
        ensures does { DoesRow (Self.of self.now) (Self.acts self.now) (X.place shard.old) (X.rows shard.old)
            session.now result (X.rows shard.new) session.now }
        ensures place { X.place shard.new ≡ X.place shard.old }
        ensures says { IfSome result (says self.now) };
}

/// An event on a row by the session of this index, as it was answered.
#[derive(Drop)]
struct RowCalled<'a, C> {
    index: u64,
    call: &'a C,
    answer: &'a Option<CoreAnswer>,
}

impl<'a, C: RowEvent> Happens for RowCalled<'a, C> {
    ghost use Rattle.store_turns.specs.Grows.{done_if};
    ghost use Rattle.store_turns.specs.Fits.{name_in};

    ghost events = { λ x v. done_if (name_in v x.index) (C.acts x.call.now) x.answer.now };
}

// Does an event on a row of the shard in its box, as the call does.
fn call_row<X: ShowsRows, C: RowCall<X>>(
    call: &C,
    shard: &mut Box<X>,
    session: &mut Session,
) -> Option<CoreAnswer>
    requires own { IsAt (C.of call.now) (X.place shard.old.value) }
    requires known { KnownRows (X.place shard.old.value) (X.rows shard.old.value) session.old }
    ensures does { DoesRow (C.of call.now) (C.acts call.now) (X.place shard.old.value) (X.rows shard.old.value)
        session.old result (X.rows shard.new.value) session.new }
    ensures place { X.place shard.new.value ≡ X.place shard.old.value }
    ensures leaves { C.leaves call.now result session.old session.new }
    ensures same { session.new.index ≡ session.old.index }
{
    call.call(shard.as_mut(), session)
}

// Reads on a row of the shard in its box.
fn read_row<X: ShowsRows, C: RowRead<X>>(
    call: &C,
    shard: &mut Box<X>,
    session: &Session,
) -> Option<CoreAnswer>
    requires own { IsAt (C.of call.now) (X.place shard.old.value) }
    requires known { KnownRows (X.place shard.old.value) (X.rows shard.old.value) session.now }
    ensures does { DoesRow (C.of call.now) (C.acts call.now) (X.place shard.old.value) (X.rows shard.old.value)
        session.now result (X.rows shard.new.value) session.now }
    ensures place { X.place shard.new.value ≡ X.place shard.old.value }
    ensures says { IfSome result (C.says call.now) }
{
    call.read(shard.as_mut(), session)
}

/// Does an event on a row, under the turn of the shard that has it among so many, which is taken and given back.
///
/// Nothing here says that the wait ends.
pub fn on_shard<X: ShowsRows, E: ShowsClock, W: ShowsLog, C: RowCall<X>, R: Wait>(
    rt: &R,
    board: &TurnBoard<Home<Box<X>, E, W>>,
    pass: &mut Pass<Home<Box<X>, E, W>>,
    session: &mut Session,
    shards: u32,
    call: &C,
) -> Option<CoreAnswer>
    requires own { IsOf board.now pass.old }
    requires ready { Ready pass.old × ((known pass.old).held ≡ []) }
    requires shards { (0 < shards) × (shards + 2 ≡ turns pass.old) × (shards ≡ (known pass.old).shards) }
    requires limits { (known pass.old).limits.txn ≡ transaction_most }
    requires fits { Fits session.old (known pass.old) }
    ensures grew { Grew (name_in (known pass.old) session.old.index) (told_if (C.acts call.now) result)
        (known pass.old) (known pass.new) }
    ensures fits { Fits session.new (known pass.new) }
    ensures leaves { C.leaves call.now result session.old session.new }
    ensures same { session.new.index ≡ session.old.index }
    ensures ready { Ready pass.new }
    ensures keeps { SameSeat pass.old pass.new }
{
    let turn = (call.vertex() % u64::from(shards)) as u32;
    let mut shard = board.take_shard(rt, pass, turn);
    let answer = call_row(call, &mut shard, session);
    let index = session.index;
    {
        let called = RowCalled {
            index,
            call,
            answer: &answer,
        };
        board.give(pass, turn, Home::Shard(shard), &called);
    }
    answer
}

/// Reads on a row, under the turn of the shard that has it among so many, which is taken and given back. The session is
/// only lent.
///
/// Nothing here says that the wait ends.
pub fn read_on_shard<X: ShowsRows, E: ShowsClock, W: ShowsLog, C: RowRead<X>, R: Wait>(
    rt: &R,
    board: &TurnBoard<Home<Box<X>, E, W>>,
    pass: &mut Pass<Home<Box<X>, E, W>>,
    session: &Session,
    shards: u32,
    call: &C,
) -> Option<CoreAnswer>
    requires own { IsOf board.now pass.old }
    requires ready { Ready pass.old × ((known pass.old).held ≡ []) }
    requires shards { (0 < shards) × (shards + 2 ≡ turns pass.old) × (shards ≡ (known pass.old).shards) }
    requires limits { (known pass.old).limits.txn ≡ transaction_most }
    requires fits { Fits session.now (known pass.old) }
    ensures grew { Grew (name_in (known pass.old) session.now.index) (told_if (C.acts call.now) result)
        (known pass.old) (known pass.new) }
    ensures fits { Fits session.now (known pass.new) }
    ensures says { IfSome result (C.says call.now) }
    ensures ready { Ready pass.new }
    ensures keeps { SameSeat pass.old pass.new }
{
    let turn = (call.vertex() % u64::from(shards)) as u32;
    let mut shard = board.take_shard(rt, pass, turn);
    let answer = read_row(call, &mut shard, session);
    {
        let noted = RowCalled {
            index: session.index,
            call,
            answer: &answer,
        };
        board.give(pass, turn, Home::Shard(shard), &noted);
    }
    answer
}
