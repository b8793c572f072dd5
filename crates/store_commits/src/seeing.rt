//! The wait until an epoch is visible.

ghost use Rattle.std.specs.Prelude.{◌≡◌, ℕ, true, List, [], ◌∷◌, Some, None};
ghost use Rattle.core_calls.specs.Calls.{Sees};
ghost use Rattle.core_calls.specs.Events.{Told, told};
ghost use Rattle.core_states.specs.declared.event.Act.TheVariants as acts;
ghost use Rattle.core_states.specs.declared.event.CoreAnswer.TheVariants as answers;
ghost use Rattle.store_commits.specs.Committing.{says_visible};
ghost use Rattle.turn_board.specs.Board.{known};
ghost use Rattle.store_turns.specs.Seeing.{HasSeen};
ghost use Rattle.store_board.specs.Standing.{Stands, Goes};

use core_states::CoreAnswer;
use std::sync::Wait;
use store_board::{Hints, StoreBoard, StorePass};
use store_calls::See;
use store_rows::ShardHome;
use store_turns::Session;
use turn_board::ShowsLog;

/// How often a thread looks for a hint before it asks the clock.
const LOOKS: u32 = 256;

// Whether it is answered that the epoch is visible.
fn says_visible(answer: &Option<CoreAnswer>) -> bool
    ensures { result ≡ says_visible answer.now }
{
    match answer {
        Some(CoreAnswer::Visible { yes }) => *yes,
        _ => false,
    }
}

// Asks once.
fn ask<W: ShowsLog, R: Wait>(
    rt: &R,
    board: &StoreBoard<ShardHome, W>,
    pass: &mut StorePass<ShardHome, W>,
    session: &mut Session,
) -> bool
    requires stands { Stands board.now.turns board.now.shards pass.old session.old }
    requires done { (e : ℕ) × (session.old.finished ≡ Some e) × (session.old.work ≡ None) }
    ensures goes { Goes board.now.turns board.now.shards (told acts.Seen (answers.Visible result) ∷ [])
        pass.old pass.new session.old session.new }
    ensures seen { (e : ℕ) → session.old.finished ≡ Some e → result ≡ true → HasSeen e (known pass.new) }
    ensures keeps { session.new ≡ session.old }
{
    let answer = board.by_clock(rt, pass, session, &See);
    says_visible(&answer)
}

// Waits until a hint says that the epoch is visible, or for a while.
fn wait_for_hint(hints: &Hints, epoch: u64) {
    for looks in 0..LOOKS {
        if hints.visible() >= epoch {
            return;
        }
        hints.pause(looks);
    }
}

/// Asks until the epoch of the session's last record is visible: until all records up to it are applied. Between two
/// questions it waits for a hint, and other threads run. The pass has seen that epoch visible then.
///
/// Nothing here says that the wait ends. It takes no memory.
pub(crate) fn see_epoch<W: ShowsLog, R: Wait>(
    rt: &R,
    board: &StoreBoard<ShardHome, W>,
    pass: &mut StorePass<ShardHome, W>,
    session: &mut Session,
)
    requires stands { Stands board.now.turns board.now.shards pass.old session.old }
    requires done { (e : ℕ) × (session.old.finished ≡ Some e) × (session.old.work ≡ None) }
    ensures goes { (ts : List Told) × Sees ts
        × Goes board.now.turns board.now.shards ts pass.old pass.new session.old session.new }
    ensures seen { (e : ℕ) → session.old.finished ≡ Some e → HasSeen e (known pass.new) }
    ensures keeps { session.new ≡ session.old }
{
    let epoch = session.finished.unwrap_or(0);
    for _ in rt.forever() {
        wait_for_hint(&board.hints, epoch);
        if ask(rt, board, pass, session) {
            return;
        }
    }
    unreachable!()
}
