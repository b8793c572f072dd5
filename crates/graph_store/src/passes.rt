//! The passes of a store: how they come and part, and the turn that one may hold.

ghost use Rattle.std.specs.Prelude.{◌≡◌, ◌+◌, ◌≤◌, ◌<◌, ℕ, [], IfOk, IfErr, IsTrue, Some};
ghost use Rattle.graph_model.specs.Records.{IsGood, list_most};
ghost use Rattle.core_states.specs.Openings.{lists_within};
ghost use Rattle.turn_board.specs.Views.{fresh_view, splitting, split_off, joining, taking};
ghost use Rattle.turn_board.specs.Works.{giving};
ghost use Rattle.turn_board.specs.Board.{known, Knowing, SameSeat};
ghost use Rattle.store_board.specs.Standing.{IsAtBoard};
ghost use Rattle.store_log.specs.LogValues.{found_on};
ghost use Rattle.store_log.specs.Written.{Origin};
ghost use Rattle.store_opening.specs.Opened.{start_with};
ghost use Rattle.graph_store.specs.Found.{IsFound};
ghost use Rattle.graph_store.specs.Passes.{told_epoch, HoldsNone, HoldsTurn, Hears, KeepsRest, shown_by};

use crate::pass::{HeldTurn, Pass};
use crate::store::{Settings, Store, Unopened};
use disk_model::Disk;
use graph_model::Base;
use graph_wal::Wal;
use std::alloc::Global;
use std::sync::Wait;
use turn_board::Nothing;

impl<D: Disk> Store<D> {
    /// A store over a base and its log, and its first pass, which was told the epoch of the base and holds no turn. No list
    /// of the base is above `log_most`.
    ///
    /// Where there is no memory the log comes back as it was.
    ///
    /// Time: for each shard logarithmic for each vertex of the base, and in all one step for each edge and each byte.
    pub fn open(
        alloc: Global,
        base: &Base,
        wal: Wal<D>,
        settings: Settings,
    ) -> Result<(Store<D>, Pass<D>), Unopened<D>>
        ghost origin: { Origin }
        requires some { (0 < settings.shards) × (settings.shards ≤ 64) }
        requires most { settings.log_most ≤ list_most }
        requires good { IsGood base.now }
        requires lists { IsTrue (lists_within settings.log_most base.now.graph) }
        requires log { IsFound D.told D.moment D.images base.now wal origin }
        ensures stands { IfOk result (λ o. IsAtBoard o.0.board.turns o.0.board.shards o.1.seat) }
        ensures pass { IfOk result (λ o. Knowing o.1.seat (fresh_view (start_with base.now settings.log_most
            (found_on D.told D.faults wal.disk origin) settings.shards) [] [] [])) }
        ensures told { IfOk result (λ o. (told_epoch o.1 ≡ base.now.epoch) × HoldsNone o.1) }
        ensures unchanged { IfErr result (λ back. back.wal ≡ wal) }
    {
        match Store::open_seat(alloc, base, wal, settings) {
            Ok((store, seat)) => Ok((store, Pass::new(seat, base.epoch))),
            Err(unopened) => Err(unopened),
        }
    }

    /// A second pass, which knows what this one has seen, and was told what this one was; it holds no turn. It takes no
    /// memory.
    pub fn split_pass(&self, pass: &mut Pass<D>) -> Pass<D>
        requires stands { IsAtBoard self.now.board.turns self.now.board.shards pass.old.seat }
        ensures left { Knowing pass.new.seat (splitting (known pass.old.seat)) }
        ensures right { Knowing result.seat (split_off (known pass.old.seat)) }
        ensures stands { IsAtBoard self.now.board.turns self.now.board.shards pass.new.seat
            × IsAtBoard self.now.board.turns self.now.board.shards result.seat }
        ensures told { (told_epoch result ≡ told_epoch pass.old) × HoldsNone result }
        ensures rest { KeepsRest pass.old pass.new }
        ensures keeps { SameSeat pass.old.seat pass.new.seat }
    {
        Pass::new(self.split_seat(&mut pass.seat), pass.told)
    }

    /// Makes one pass of two, which knows what both did, and was told the greater of what both were. The second one holds
    /// no turn. It takes no memory.
    ///
    /// Ends: the second pass.
    pub fn join_pass(&self, into: &mut Pass<D>, from: Pass<D>)
        requires stands { IsAtBoard self.now.board.turns self.now.board.shards into.old.seat
            × IsAtBoard self.now.board.turns self.now.board.shards from.seat }
        requires none { HoldsNone from }
        ensures both { Knowing into.new.seat (joining (known into.old.seat) (known from.seat)) }
        ensures stands { IsAtBoard self.now.board.turns self.now.board.shards into.new.seat }
        ensures told { Hears (Some (told_epoch from)) into.old into.new }
        ensures keeps { SameSeat into.old.seat into.new.seat }
    {
        let told = from.told;
        self.join_seats(&mut into.seat, from.into_seat());
        into.hear(Some(told));
    }

    /// Waits until the turn is at home, and takes it with its value. The turns are those of the shards, by their numbers,
    /// then the clock's, and last the log's. The pass holds no other turn; while it holds this one it makes no other call,
    /// and other threads that want the turn wait. It changes nothing, and takes no memory.
    ///
    /// Nothing here says that the wait ends.
    pub fn hold_turn<R: Wait>(&self, rt: &R, pass: &mut Pass<D>, turn: u32)
        requires stands { IsAtBoard self.now.board.turns self.now.board.shards pass.old.seat }
        requires none { HoldsNone pass.old }
        requires turn { turn ≤ self.now.board.shards + 1 }
        ensures holds { (held : HoldsTurn D.moment self.now.board.turns self.now.board.shards turn pass.new)
            × Knowing pass.new.seat (taking turn (shown_by D.moment held.value).part (known pass.old.seat)) }
        ensures told { told_epoch pass.new ≡ told_epoch pass.old }
        ensures keeps { SameSeat pass.old.seat pass.new.seat }
    {
        let value = self.board.turns.take(rt, &mut pass.seat, turn);
        let held = pass.held.replace(HeldTurn { turn, value });
        let None = held else { unreachable!() };
    }

    /// Gives the turn that the pass holds back, as it was taken, and wakes the threads that wait for it. It takes no
    /// memory.
    pub fn free_turn(&self, pass: &mut Pass<D>)
        requires holds { (turn : ℕ)
            × HoldsTurn D.moment self.now.board.turns self.now.board.shards turn pass.old }
        ensures stands { IsAtBoard self.now.board.turns self.now.board.shards pass.new.seat }
        ensures given { Knowing pass.new.seat (giving [] (known pass.old.seat)) }
        ensures none { HoldsNone pass.new }
        ensures told { told_epoch pass.new ≡ told_epoch pass.old }
        ensures keeps { SameSeat pass.old.seat pass.new.seat }
    {
        let Some(HeldTurn { turn, value }) = pass.held.take() else {
            unreachable!()
        };
        self.board.turns.give(&mut pass.seat, turn, value, &Nothing)
    }
}
