//! The lead of a commit.

ghost use Rattle.std.specs.Prelude.{◌≡◌, ◌≤◌, List, None};
ghost use Rattle.core_calls.specs.Events.{Told};
ghost use Rattle.turn_board.specs.Board.{known};
ghost use Rattle.store_turns.specs.Fits.{Fits};
ghost use Rattle.store_log.specs.LogChanges.{IsBaseOf};
ghost use Rattle.store_board.specs.Standing.{Holds, Stands, Goes};
ghost use Rattle.store_leads.specs.Leads.{log_held, AreWaits, KnowsMore, Leads};

use crate::appending::append_group;
use crate::collecting::collect_group;
use crate::ending::end_group;
use crate::patience::{Found, end_lead, wait_for_leader, wait_for_others};
use disk_model::Disk;
use group_commit::Group;
use std::sync::Wait;
use store_board::{StoreBoard, StorePass};
use store_log::LogHome;
use store_turns::Session;
use turn_board::{Home, Nothing, ShowsRows};

// Leads with the records that wait.
fn lead_now<X: ShowsRows, D: Disk, R: Wait>(
    rt: &R,
    board: &StoreBoard<X, LogHome<D>>,
    pass: &mut StorePass<X, LogHome<D>>,
    session: &mut Session,
    log: &mut LogHome<D>,
)
    requires holds { Holds board.now.turns board.now.shards (log_held board.now.shards log.old.log) pass.old }
    requires in_time { log.old.log.moment ≤ D.moment log.old.wal.disk }
    requires fits { Fits session.old (known pass.old) }
    requires found { IsBaseOf (known pass.old).base (known pass.old).found.records }
    ensures led { (ts : List Told) × AreWaits ts
        × Leads board.now.turns board.now.shards session.old.index ts
        (log_held board.now.shards log.new.log) pass.old pass.new }
    ensures in_time { log.new.log.moment ≤ D.moment log.new.wal.disk }
    ensures fits { Fits session.new (known pass.new) }
    ensures index { session.new.index ≡ session.old.index }
    ensures knows { KnowsMore session.old session.new }
{
    let mended = log.mended();
    let mut group = Group::new();
    if !collect_group(rt, board, pass, session, log, &mut group) {
        return;
    }
    let tried = append_group(rt, log, &group, mended);
    let mut home = board.turns.take_clock(rt, pass, board.shards);
    let ended = end_group(&mut home, session, &mut group, tried);
    board.hints.note(home.as_ref());
    board
        .turns
        .give(pass, board.shards, Home::Clock(home), &ended);
    board.hints.note_end();
}

// The same with the log in its box.
fn lead_with<X: ShowsRows, D: Disk, R: Wait>(
    rt: &R,
    board: &StoreBoard<X, LogHome<D>>,
    pass: &mut StorePass<X, LogHome<D>>,
    session: &mut Session,
    log: &mut Box<LogHome<D>>,
)
    requires holds { Holds board.now.turns board.now.shards (log_held board.now.shards log.old.value.log) pass.old }
    requires in_time { log.old.value.log.moment ≤ D.moment log.old.value.wal.disk }
    requires fits { Fits session.old (known pass.old) }
    requires found { IsBaseOf (known pass.old).base (known pass.old).found.records }
    ensures led { (ts : List Told) × AreWaits ts
        × Leads board.now.turns board.now.shards session.old.index ts
        (log_held board.now.shards log.new.value.log) pass.old pass.new }
    ensures in_time { log.new.value.log.moment ≤ D.moment log.new.value.wal.disk }
    ensures fits { Fits session.new (known pass.new) }
    ensures index { session.new.index ≡ session.old.index }
    ensures knows { KnowsMore session.old session.new }
{
    lead_now(rt, board, pass, session, log.as_mut())
}

/// Leads a commit: takes the log's turn, where the disk is slow waits a moment for other records, and under the clock's turn
/// collects a group, in which the session's record may be; appends it, publishes it or gives it up under that turn again, and
/// gives the log's back. Nothing is done where the record has an outcome by then, nor where another thread leads: then the
/// call ends when that one's group has ended, which a thread looks for where the disk is fast, or when it gives the turn back.
///
/// Nothing here says that the waits end. It takes no memory. Time: the bytes of the group and two syncs.
pub fn lead<X: ShowsRows, D: Disk, R: Wait>(
    rt: &R,
    board: &StoreBoard<X, LogHome<D>>,
    pass: &mut StorePass<X, LogHome<D>>,
    session: &mut Session,
)
    requires stands { Stands board.now.turns board.now.shards pass.old session.old }
    requires found { IsBaseOf (known pass.old).base (known pass.old).found.records }
    ensures led { (ts : List Told) × AreWaits ts
        × Goes board.now.turns board.now.shards ts pass.old pass.new session.old session.new }
    ensures knows { KnowsMore session.old session.new }
{
    let found = wait_for_leader(&board.hints);
    if let Found::Outcome = found {
        return;
    }
    let turn = board.shards + 1;
    let Some(mut log) = board.turns.take_log_or_wait(rt, pass, turn) else {
        end_lead(&board.hints, found);
        return;
    };
    wait_for_others(&board.hints);
    lead_with(rt, board, pass, session, &mut log.value);
    board.turns.give(pass, turn, Home::Log(log), &Nothing);
    end_lead(&board.hints, found);
}
