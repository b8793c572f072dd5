//! A board of two shards, its only pass, and one session.

ghost use Rattle.std.specs.Prelude.{◌≡◌, ◌≤◌, IfOk, IfSome, IsTrue};
ghost use Rattle.graph_model.specs.Records.{IsGood};
ghost use Rattle.core_states.specs.Openings.{lists_within};
ghost use Rattle.core_states.specs.LogParts.{Found, opened_part};
ghost use Rattle.turn_board.specs.Histories.{found_by};
ghost use Rattle.store_log.specs.LogChanges.{IsBaseOf};
ghost use Rattle.store_leads.specs.Leads.{KnowsMore};
ghost use Rattle.store_trials.specs.AtDesk.{IsAtDesk};

use core_states::CoreAnswer;
use disk_model::Disk;
use graph_model::Base;
use std::alloc::Global;
use std::sync::Wait;
use store_board::{Hints, StoreBoard, StorePass};
use store_leads::lead;
use store_log::LogHome;
use store_opening::{Opened, open_board};
use store_rows::ShardHome;
use store_turns::{ClockCall, RowCall, RowRead, Session};
use turn_board::{Homes, ShowsLog};

/// How many bytes a log may have at most.
const LOG_MOST: u64 = 4096;

/// How many shards the board has.
const SHARDS: u32 = 2;

/// A board, its only pass, and a session.
pub struct Desk<W: ShowsLog> {
    pub board: StoreBoard<ShardHome, W>,
    pub pass: StorePass<ShardHome, W>,
    pub session: Session,
}

/// A board of two shards that have loaded the base, over a log, and a session that has done nothing. Where there is no
/// memory the log comes back.
pub fn desk_over<W: ShowsLog>(alloc: Global, base: &Base, log: W) -> Result<Desk<W>, W>
    requires good { IsGood base.now }
    requires lists { IsTrue (lists_within 4096 base.now.graph) }
    requires log { (found : Found) × (W.log log ≡ opened_part base.now.epoch found) }
    requires in_time { (W.log log).moment ≤ W.moment log }
    requires found { IsBaseOf base.now (found_by (W.log log)).records }
    ensures at_desk { IfOk result (λ d. IsAtDesk d.board.turns d.board.shards d.pass d.session) }
{
    let Opened { turns, pass } = open_board(alloc, base, SHARDS, LOG_MOST, log)?;
    let board = StoreBoard {
        turns,
        shards: SHARDS,
        hints: Hints::new(),
    };
    Ok(Desk {
        board,
        pass,
        session: Session::new(0),
    })
}

impl<W: ShowsLog> Desk<W> {
    /// An event on the clock, under its turn. Nothing here says that the wait ends.
    pub fn by_clock<C: ClockCall, R: Wait>(&mut self, rt: &R, call: &C) -> Option<CoreAnswer>
        requires at_desk { IsAtDesk self.old.board.turns self.old.board.shards self.old.pass self.old.session }
        ensures at_desk { IsAtDesk self.new.board.turns self.new.board.shards self.new.pass self.new.session }
        ensures leaves { C.leaves call.now result self.old.session self.new.session }
    {
        self.board
            .by_clock(rt, &mut self.pass, &mut self.session, call)
    }

    /// An event on a row, under the turn of its shard. Nothing here says that the wait ends.
    pub fn by_shard<C: RowCall<ShardHome>, R: Wait>(
        &mut self,
        rt: &R,
        call: &C,
    ) -> Option<CoreAnswer>
        requires at_desk { IsAtDesk self.old.board.turns self.old.board.shards self.old.pass self.old.session }
        ensures at_desk { IsAtDesk self.new.board.turns self.new.board.shards self.new.pass self.new.session }
        ensures leaves { C.leaves call.now result self.old.session self.new.session }
    {
        self.board
            .by_shard(rt, &mut self.pass, &mut self.session, call)
    }

    /// An event on a row for which the session is only lent. Nothing here says that the wait ends.
    pub fn read_by_shard<C: RowRead<ShardHome>, R: Wait>(
        &mut self,
        rt: &R,
        call: &C,
    ) -> Option<CoreAnswer>
        requires at_desk { IsAtDesk self.old.board.turns self.old.board.shards self.old.pass self.old.session }
        ensures at_desk { IsAtDesk self.new.board.turns self.new.board.shards self.new.pass self.new.session }
        ensures says { IfSome result (C.says call.now) }
        ensures session { self.new.session ≡ self.old.session }
    {
        self.board
            .read_by_shard(rt, &mut self.pass, &self.session, call)
    }
}

impl<W: ShowsLog + Drop> Desk<W> {
    /// The board is closed, and its log is what it leaves.
    pub fn closed(self) -> W
        requires at_desk { IsAtDesk self.board.turns self.board.shards self.pass self.session }
    {
        let Desk {
            board,
            pass,
            session,
        } = self;
        drop(session);
        let StoreBoard {
            turns,
            shards: _shards,
            hints: _hints,
        } = board;
        let Homes { shards, clock, log } = turns.close(pass);
        drop(shards);
        drop(clock);
        Box::into_inner(log.into_box())
    }
}

impl<D: Disk> Desk<LogHome<D>> {
    /// The session leads a commit. Nothing here says that the waits end.
    pub fn lead<R: Wait>(&mut self, rt: &R)
        requires at_desk { IsAtDesk self.old.board.turns self.old.board.shards self.old.pass self.old.session }
        ensures at_desk { IsAtDesk self.new.board.turns self.new.board.shards self.new.pass self.new.session }
        ensures knows { KnowsMore self.old.session self.new.session }
    {
        lead(rt, &self.board, &mut self.pass, &mut self.session);
    }
}
