//! The values of the turns, by their kinds, and the takes that answer a value of one kind.

ghost use Rattle.std.specs.Prelude.{◌≡◌, IfOk, IfErr, IfSome, None, length, ◌⊎◌, ◌+◌, ◌-◌, ◌<◌, ◌≤◌, ℕ, [], ◌∷◌, List};
ghost use Rattle.core_states.specs.declared.clock.Clock.{Clock};
ghost use Rattle.core_states.specs.Parts.{Part, OfShard, OfClock, OfLog, VertexRow};
ghost use Rattle.core_states.specs.LogParts.{LogPart};
ghost use Rattle.turn_board.specs.Histories.{found_by};
ghost use Rattle.turn_board.specs.Views.{Held, ShardPlace, taking, finding_busy, fresh_view, IsLast};
ghost use Rattle.turn_board.specs.Boards.{IsOf};
ghost use Rattle.turn_board.specs.Takes.{OnTaken, OnBusy};
ghost use Rattle.turn_board.specs.Turns.{MayTake, Told, IsNewest};
ghost use Rattle.turn_board.specs.Board.{Opens, Ends, known, turns, Knowing, Ready, SameSeat};

use crate::board::{Pass, TurnBoard};
use crate::events::ShowsPart;
use crate::homes::Homes;
use crate::take::Take;
use graph_model::Base;
use std::alloc::Global;
use std::sync::Wait;

/// The value of a turn.
#[derive(Drop)]
pub enum Home<X, E, W> {
    Shard(X),
    Clock(E),
    Log(W),
}

/// What the value of a shard's turn stands for, and which shard it is.
pub trait ShowsRows {
    ghost rows: { Self → List VertexRow };

    ghost place: { Self → ShardPlace };
}

/// What the value of the clock's turn stands for.
pub trait ShowsClock {
    ghost clock: { Self → Clock };
}

/// What the value of the log's turn stands for, and the moment that its disk's clock is at.
pub trait ShowsLog {
    ghost log: { Self → LogPart };

    ghost moment: { Self → ℕ };
}

impl<X: ShowsRows> ShowsRows for Box<X> {
    ghost rows = { λ b. X.rows b.value };

    ghost place = { λ b. X.place b.value };
}

impl<E: ShowsClock> ShowsClock for Box<E> {
    ghost clock = { λ b. E.clock b.value };
}

/// The value of the log's turn in a box, with room beside it: so the slot of a turn has 64 bytes, and those of two turns,
/// which have an empty one between them, share no cache line.
#[derive(Drop)]
pub struct Wide<W> {
    pub value: Box<W>,
    room: [u64; 6],
}

impl<W> Wide<W> {
    /// The value with room beside it.
    pub fn new(value: Box<W>) -> Wide<W>
        ensures { result.value ≡ value }
    {
        Wide {
            value,
            room: [0; 6],
        }
    }

    /// The value alone.
    pub fn into_box(self) -> Box<W>
        ensures { result ≡ self.value }
    {
        let Wide { value, room: _room } = self;
        value
    }
}

impl<W: ShowsLog> ShowsLog for Wide<W> {
    ghost log = { λ w. W.log w.value.value };

    ghost moment = { λ w. W.moment w.value.value };
}

impl<X: ShowsRows, E: ShowsClock, W: ShowsLog> ShowsPart for Home<X, E, W> {
    ghost use Rattle.turn_board.specs.Homes.{home_shown};

    ghost shown = { home_shown X.rows X.place E.clock W.log W.moment };
}

impl<X: ShowsRows, E: ShowsClock, W: ShowsLog> TurnBoard<Home<X, E, W>> {
    ghost use Rattle.turn_board.specs.Homes.{home_shown};
    ghost use Rattle.turn_board.specs.Laid.{laid};
    ghost use Rattle.turn_board.specs.Openings.{limits_of};

    /// A board of these values, all of which are at home, and the first pass. There are 1 to 64 shards, and the values
    /// together show the state that a run of the base starts from, where no log may have more than `log_most` bytes.
    /// That is 2^30 at most.
    ///
    /// The pass knows the base, the limits, what the run found of the log's disk, and the number of shards.
    ///
    /// Where there is no memory the values come back.
    pub fn make(
        alloc: Global,
        base: &Base,
        log_most: u64,
        homes: Homes<X, E, W>,
    ) -> Result<(TurnBoard<Home<X, E, W>>, Pass<Home<X, E, W>>), Homes<X, E, W>>
        requires opens { Opens base.now (limits_of log_most) (home_shown X.rows X.place E.clock W.log W.moment) (laid homes) }
        ensures board { IfOk result (λ b. IsOf b.0 b.1 × (turns b.1 ≡ length homes.shards.values.items + 2)) }
        ensures pass { IfOk result (λ b. Knowing b.1 (fresh_view (record {
          base = base.now;
          limits = limits_of log_most;
          found = found_by (W.log homes.log);
          shards = length homes.shards.values.items;
        }) [] [] [])) }
        ensures unchanged { IfErr result (λ refused. laid refused ≡ laid homes) }
    {
        match TurnBoard::make_of(alloc, base, log_most, homes.into_values()?) {
            Ok(made) => Ok(made),
            Err(values) => Err(Homes::of_values(values)),
        }
    }

    /// The values, by the last pass. It takes no memory.
    ///
    /// Ends: the board, and all of its passes.
    pub fn close(self, pass: Pass<Home<X, E, W>>) -> Homes<X, E, W>
        requires own { IsOf self pass }
        requires ready { Ready pass }
        requires last { IsLast (known pass) }
        ensures ends { Ends (home_shown X.rows X.place E.clock W.log W.moment) (laid result) (known pass) }
    {
        Homes::of_values(self.close_of(pass))
    }

    /// Waits until the turn of a shard is at home, and takes it. The pass holds no other turn.
    ///
    /// Nothing here says that the wait ends. It takes no memory.
    pub fn take_shard<R: Wait>(&self, rt: &R, pass: &mut Pass<Home<X, E, W>>, shard: u32) -> X
        requires own { IsOf self.now pass.old }
        requires ready { Ready pass.old }
        requires free { (shard + 2 < turns pass.old) × ((known pass.old).held ≡ []) }
        ensures taken { Knowing pass.new (taking shard (OfShard (X.rows result)) (known pass.old)) }
        ensures place { X.place result ≡ record {
          number = shard;
          shards = (known pass.old).shards;
          log_most = (known pass.old).limits.log;
          base = (known pass.old).base;
        } }
        ensures told { Told (turns pass.new) (known pass.new) }
        ensures keeps { SameSeat pass.old pass.new }
    {
        match self.take(rt, pass, shard) {
            Home::Shard(value) => value,
            _ => unreachable!(),
        }
    }

    /// Waits until the clock's turn is at home, and takes it. The pass holds no other turn but the log's.
    ///
    /// Nothing here says that the wait ends. It takes no memory.
    pub fn take_clock<R: Wait>(&self, rt: &R, pass: &mut Pass<Home<X, E, W>>, turn: u32) -> E
        requires own { IsOf self.now pass.old }
        requires ready { Ready pass.old }
        requires turn { turn + 2 ≡ turns pass.old }
        requires free { MayTake (turns pass.old) turn (known pass.old).held }
        ensures taken { Knowing pass.new (taking turn (OfClock (E.clock result)) (known pass.old)) }
        ensures told { Told (turns pass.new) (known pass.new) }
        ensures newest { IsNewest (OfClock (E.clock result)) (known pass.old) }
        ensures keeps { SameSeat pass.old pass.new }
    {
        match self.take(rt, pass, turn) {
            Home::Clock(value) => value,
            _ => unreachable!(),
        }
    }

    /// Takes the clock's turn, or finds it taken, in one try. The pass holds no other turn but the log's. It never waits, and
    /// takes no memory.
    pub fn try_take_clock(&self, pass: &mut Pass<Home<X, E, W>>, turn: u32) -> Take<E>
        requires own { IsOf self.now pass.old }
        requires ready { Ready pass.old }
        requires turn { turn + 2 ≡ turns pass.old }
        requires free { MayTake (turns pass.old) turn (known pass.old).held }
        ensures taken { OnTaken (λ value. Knowing pass.new (taking turn (OfClock (E.clock value)) (known pass.old))
            × Told (turns pass.new) (known pass.new) × IsNewest (OfClock (E.clock value)) (known pass.old)) result }
        ensures busy { OnBusy (λ k. (k ≡ turn) × Knowing pass.new (finding_busy turn (known pass.old))) result }
        ensures keeps { SameSeat pass.old pass.new }
    {
        match self.try_take(pass, turn) {
            Take::Taken(Home::Clock(value)) => Take::Taken(value),
            Take::Taken(_) => unreachable!(),
            Take::Busy { turn } => Take::Busy { turn },
        }
    }

    /// Takes the log's turn where it is at home. Else it mostly waits until the turn is given, and takes nothing. The pass
    /// holds no other turn.
    ///
    /// Nothing here says that the wait ends. It takes no memory.
    pub fn take_log_or_wait<R: Wait>(
        &self,
        rt: &R,
        pass: &mut Pass<Home<X, E, W>>,
        turn: u32,
    ) -> Option<W>
        requires own { IsOf self.now pass.old }
        requires ready { Ready pass.old }
        requires turn { turn + 1 ≡ turns pass.old }
        requires free { (known pass.old).held ≡ [] }
        ensures taken { IfSome result (λ value. Knowing pass.new (taking turn (OfLog (W.log value)) (known pass.old))
            × Told (turns pass.new) (known pass.new) × IsNewest (OfLog (W.log value)) (known pass.old)
            × ((W.log value).moment ≤ W.moment value)) }
        ensures none { result ≡ None → pass.new.me ≡ pass.old.me }
        ensures keeps { SameSeat pass.old pass.new }
    {
        match self.take_or_wait(rt, pass, turn)? {
            Home::Log(value) => Some(value),
            _ => unreachable!(),
        }
    }

    /// Waits until the log's turn is at home, and takes it. The pass holds no other turn.
    ///
    /// Nothing here says that the wait ends. It takes no memory.
    pub fn take_log<R: Wait>(&self, rt: &R, pass: &mut Pass<Home<X, E, W>>, turn: u32) -> W
        requires own { IsOf self.now pass.old }
        requires ready { Ready pass.old }
        requires turn { turn + 1 ≡ turns pass.old }
        requires free { (known pass.old).held ≡ [] }
        ensures taken { Knowing pass.new (taking turn (OfLog (W.log result)) (known pass.old)) }
        ensures told { Told (turns pass.new) (known pass.new) }
        ensures newest { IsNewest (OfLog (W.log result)) (known pass.old) }
        ensures in_time { (W.log result).moment ≤ W.moment result }
        ensures keeps { SameSeat pass.old pass.new }
    {
        match self.take(rt, pass, turn) {
            Home::Log(value) => value,
            _ => unreachable!(),
        }
    }
}
