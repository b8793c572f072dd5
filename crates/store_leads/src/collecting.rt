//! The collect of a group, under the clock's turn beside the log's.

ghost use Rattle.std.specs.Prelude.{◌≡◌, ◌<◌, [], ◌∷◌, true, false, None, length, take};
ghost use Rattle.graph_model.specs.Records.{transaction_most, group_most};
ghost use Rattle.group_commit.specs.Members.{records_at};
ghost use Rattle.epoch_clock.specs.ClockCalls.{collected_clock};
ghost use Rattle.core_calls.specs.Events.{told};
ghost use Rattle.core_states.specs.declared.event.Act.TheVariants as acts;
ghost use Rattle.core_states.specs.declared.event.CoreAnswer.TheVariants as answers;
ghost use Rattle.turn_board.specs.Board.{known};
ghost use Rattle.store_turns.specs.Fits.{Fits, name_in};
ghost use Rattle.store_board.specs.Standing.{Holds};
ghost use Rattle.store_log.specs.LogChanges.{in_hands};
ghost use Rattle.store_leads.specs.Leads.{log_held, actor_in, collecting, Leads};

use disk_model::Disk;
use group_commit::Group;
use std::sync::Wait;
use store_board::{StoreBoard, StorePass};
use store_log::LogHome;
use store_turns::{ClockHome, Session};
use turn_board::{Happens, Home, Nothing, ShowsRows};

// A group of so many members was collected.
#[derive(Drop)]
struct Collected {
    index: u64,
    members: u32,
}

impl Happens for Collected {
    ghost use Rattle.store_turns.specs.Fits.{name_in};
    ghost use Rattle.store_turns.specs.Grows.{done_by};
    ghost use Rattle.core_calls.specs.Events.{told};
    ghost use Rattle.std.specs.Prelude.{[], ◌∷◌};
    ghost use Rattle.core_states.specs.declared.event.Act.TheVariants as acts;
    ghost use Rattle.core_states.specs.declared.event.CoreAnswer.TheVariants as answers;

    ghost events = { λ x v. done_by (name_in v x.index) (told acts.Collect (answers.Collected x.members)) ∷ [] };
}

// Whether the session's record has no outcome, and a record waits.
fn must_lead(session: &Session, home: &Box<ClockHome>) -> bool
    ensures { result ≡ true → 0 < length home.now.value.part.clock.queue }
{
    let Some(work) = session.work.as_ref() else {
        return false;
    };
    let part = &home.as_ref().part;
    part.outcome(work.tid).is_none() && part.waiting() > 0
}

// Collects a group from the clock in its box, and notes how many members it has.
fn collect_from(home: &mut Box<ClockHome>, group: &mut Group)
    requires some { 0 < length home.old.value.part.clock.queue }
    requires empty { group.old ≡ [] }
    ensures group { records_at 0 group.new ≡ take group_most home.old.value.part.clock.queue }
    ensures collected { home.new.value.part.clock ≡ collected_clock home.old.value.part.clock }
{
    home.as_mut().part.collect_into(group);
    home.as_mut().grouped = group.len();
}

/// Collects into an empty group under the clock's turn, which is taken beside the log's and given back, and answers
/// whether there was anything to collect: not where the session's record has its outcome, where none runs, or where none
/// waits; nothing is done then.
///
/// It takes no memory. Nothing here says that the wait ends. Time: one step for each member.
pub(crate) fn collect_group<X: ShowsRows, D: Disk, R: Wait>(
    rt: &R,
    board: &StoreBoard<X, LogHome<D>>,
    pass: &mut StorePass<X, LogHome<D>>,
    session: &Session,
    log: &LogHome<D>,
    group: &mut Group,
) -> bool
    requires holds { Holds board.now.turns board.now.shards (log_held board.now.shards log.now.log) pass.old }
    requires free { log.now.log.holder ≡ None }
    requires fits { Fits session.now (known pass.old) }
    requires empty { group.old ≡ [] }
    ensures some { result ≡ true → (0 < length group.new)
        × Leads board.now.turns board.now.shards session.now.index
        (told acts.Collect (answers.Collected (length group.new)) ∷ [])
        (log_held board.now.shards (in_hands (name_in (known pass.old) session.now.index) log.now.log)) pass.old pass.new
        × (actor_in (known pass.new) session.now.index
        ≡ collecting (records_at 0 group.new) (actor_in (known pass.old) session.now.index)) }
    ensures none { result ≡ false → Leads board.now.turns board.now.shards session.now.index []
        (log_held board.now.shards log.now.log) pass.old pass.new }
{
    let mut home = board.turns.take_clock(rt, pass, board.shards);
    if !must_lead(session, &home) {
        board
            .turns
            .give(pass, board.shards, Home::Clock(home), &Nothing);
        return false;
    }
    collect_from(&mut home, group);
    board.hints.note(home.as_ref());
    let collected = Collected {
        index: session.index,
        members: group.len() as u32,
    };
    board
        .turns
        .give(pass, board.shards, Home::Clock(home), &collected);
    board.hints.note_collect();
    true
}
