//! The turns of a store, and one event of a session under one of them.

ghost use Rattle.std.specs.Prelude.{IfSome};
ghost use Rattle.store_board.specs.Standing.{Stands, Goes};
ghost use Rattle.turn_board.specs.Board.{known};
ghost use Rattle.store_turns.specs.Fits.{name_in};
ghost use Rattle.store_turns.specs.Grows.{told_if};
ghost use Rattle.store_turns.specs.Seeing.{MeetsClock};

use crate::hints::Hints;
use crate::noted::Noted;
use core_states::CoreAnswer;
use std::sync::Wait;
use store_turns::{
    ClockCall, ClockHome, RowCall, RowRead, Session, on_clock, on_shard, read_on_shard,
};
use turn_board::{Home, Pass, ShowsLog, ShowsRows, TurnBoard, Wide};

/// The value of a turn of a store with these shards and this log. Each lies in a box, so that a take and a give move one
/// word.
pub type Spot<X, W> = Home<Box<X>, Box<ClockHome>, Wide<W>>;

/// What one thread knows of a store.
pub type StorePass<X, W> = Pass<Spot<X, W>>;

/// The turns of a store, how many shards it has, and hints on its clock. The turn after the shards' is the clock's, and the
/// last one the log's.
pub struct StoreBoard<X: ShowsRows, W: ShowsLog> {
    pub turns: TurnBoard<Spot<X, W>>,
    pub shards: u32,
    pub hints: Hints,
}

impl<X: ShowsRows, W: ShowsLog> StoreBoard<X, W> {
    /// An event on the clock, under its turn, which is taken and given back. Nothing here says that the wait ends.
    pub fn by_clock<C: ClockCall, R: Wait>(
        &self,
        rt: &R,
        pass: &mut StorePass<X, W>,
        session: &mut Session,
        call: &C,
    ) -> Option<CoreAnswer>
        requires stands { Stands self.now.turns self.now.shards pass.old session.old }
        ensures goes { Goes self.now.turns self.now.shards (told_if (C.acts call.now) result)
            pass.old pass.new session.old session.new }
        ensures meets { MeetsClock (C.acts call.now) result (name_in (known pass.old) session.old.index)
            (known pass.old) (known pass.new) }
        ensures leaves { C.leaves call.now result session.old session.new }
    {
        let noted = Noted {
            call,
            hints: &self.hints,
        };
        on_clock(rt, &self.turns, pass, session, self.shards, &noted)
    }

    /// An event on a row, under the turn of its shard, which is taken and given back. Nothing here says that the wait
    /// ends.
    pub fn by_shard<C: RowCall<X>, R: Wait>(
        &self,
        rt: &R,
        pass: &mut StorePass<X, W>,
        session: &mut Session,
        call: &C,
    ) -> Option<CoreAnswer>
        requires stands { Stands self.now.turns self.now.shards pass.old session.old }
        ensures goes { Goes self.now.turns self.now.shards (told_if (C.acts call.now) result)
            pass.old pass.new session.old session.new }
        ensures leaves { C.leaves call.now result session.old session.new }
    {
        on_shard(rt, &self.turns, pass, session, self.shards, call)
    }

    /// An event on a row for which the session is only lent, under the turn of its shard, which is taken and given back.
    /// Nothing here says that the wait ends.
    pub fn read_by_shard<C: RowRead<X>, R: Wait>(
        &self,
        rt: &R,
        pass: &mut StorePass<X, W>,
        session: &Session,
        call: &C,
    ) -> Option<CoreAnswer>
        requires stands { Stands self.now.turns self.now.shards pass.old session.now }
        ensures goes { Goes self.now.turns self.now.shards (told_if (C.acts call.now) result)
            pass.old pass.new session.now session.now }
        ensures says { IfSome result (C.says call.now) }
    {
        read_on_shard(rt, &self.turns, pass, session, self.shards, call)
    }
}
