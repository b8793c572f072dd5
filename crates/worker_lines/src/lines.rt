//! One worker goes over the script.

ghost use Rattle.std.specs.Prelude.{◌≡◌, ℕ, ◌<◌, ◌≤◌, ◌+◌, ◌^◌, List, [], ◌++◌, true, not, length, vec_len, vec_capacity};
ghost use Rattle.request_text.specs.declared.request.Line.{Line};
ghost use Rattle.request_text.specs.Limits.{IsWithinLimits, AreWithinLimits};
ghost use Rattle.turn_board.specs.Board.{known};
ghost use Rattle.turn_board.specs.Views.{View};
ghost use Rattle.store_log.specs.LogChanges.{IsBaseOf};
ghost use Rattle.worker_sessions.specs.Sessions.{AreApart, EachIs, indices};
ghost use Rattle.worker_lines.specs.Lines.{is_of, lines_of, IsOwnerAt, AreOwners, IsSeated, RanIf, AreAtLine, HaveRun};
ghost use Rattle.worker_lines.specs.Going.{SoFar};
ghost use Rattle.worker_lines.specs.Wholes.{all_lines};

use crate::shared::SharedRun;
use crate::whole::Whole;
use disk_model::Disk;
use io_edges::Gate;
use request_text::{Line, Reply};
use std::sync::Wait;
use store_board::StorePass;
use store_lines::run_line;
use store_log::LogHome;
use store_rows::ShardHome;
use store_turns::Session;

// Whether the line at this place of a script is another worker's than the one with this number.
fn is_others(owners: &[u32], place: usize, number: u32) -> bool
    ensures { (n : ℕ) (line : Line) → number < n → IsOwnerAt n owners.now place line →
        result ≡ not (is_of number n line) }
{
    match owners.get(place) {
        Some(owner) => *owner != number,
        None => false,
    }
}

// Runs the line, which stands at this place of the script, if it is the worker's; before that the worker passes the gate.
fn run_if_own<D: Disk, G: Gate, R: Wait>(
    rt: &R,
    shared: &SharedRun<D, G>,
    number: u32,
    pass: &mut StorePass<ShardHome, LogHome<D>>,
    sessions: &mut [Session],
    place: usize,
    line: &Line,
    replies: &mut Vec<Reply>,
)
    requires at_line { AreAtLine shared.now.board.now.turns shared.now.board.now.shards pass.old
        (indices sessions.old) sessions.old }
    requires found { IsBaseOf (known pass.old).base (known pass.old).found.records }
    requires apart { AreApart (indices sessions.old) }
    requires seated { IsSeated number shared.now.workers (indices sessions.old) line.now }
    requires within { IsWithinLimits line.now }
    requires one_of { number < shared.now.workers }
    requires owned { IsOwnerAt shared.now.workers shared.now.owners.now place line.now }
    requires numbered { place + 1 < 2 ^ 64 }
    requires room { is_of number shared.now.workers line.now ≡ true → vec_len replies.old < vec_capacity replies.old }
    ensures at_line { AreAtLine shared.now.board.now.turns shared.now.board.now.shards pass.new
        (indices sessions.old) sessions.new }
    ensures ran { RanIf (is_of number shared.now.workers line.now) line.now (known pass.old) (known pass.new)
        replies.old.items replies.new.items }
    ensures capacity { vec_capacity replies.new ≡ vec_capacity replies.old }
{
    if is_others(shared.owners, place, number) {
        return;
    }
    shared.gate.pass(u64::from(line.session), place as u64 + 1);
    let seat = (line.session / shared.workers) as usize;
    let reply = run_line(
        rt,
        shared.alloc,
        shared.board,
        pass,
        &mut sessions[seat],
        &line.request,
    );
    replies.push_reserved(reply);
}

// Runs those of these lines that are the worker's. The first of them stands at this place of the script. There is room for a
// reply to each of the worker's.
fn run_part<D: Disk, G: Gate, R: Wait>(
    rt: &R,
    shared: &SharedRun<D, G>,
    number: u32,
    pass: &mut StorePass<ShardHome, LogHome<D>>,
    sessions: &mut [Session],
    place: usize,
    lines: &[Line],
    replies: &mut Vec<Reply>,
)
    requires at_line { AreAtLine shared.now.board.now.turns shared.now.board.now.shards pass.old
        (indices sessions.old) sessions.old }
    requires found { IsBaseOf (known pass.old).base (known pass.old).found.records }
    requires apart { AreApart (indices sessions.old) }
    requires seated { EachIs (λ line. IsSeated number shared.now.workers (indices sessions.old) line) lines.now }
    requires within { AreWithinLimits lines.now }
    requires owned { AreOwners shared.now.workers shared.now.owners.now place lines.now }
    requires one_of { number < shared.now.workers }
    requires numbered { place + length lines.now < 2 ^ 64 }
    requires room { length replies.old.items + length (lines_of number shared.now.workers lines.now)
        ≤ vec_capacity replies.old }
    ensures goes_on { (v : View) (ks : List ℕ) (script rest : List Line) →
        SoFar shared.now.board.now.turns shared.now.board.now.shards number shared.now.workers
        v pass.old ks sessions.old script (lines.now ++ rest) replies.old.items →
        SoFar shared.now.board.now.turns shared.now.board.now.shards number shared.now.workers
        v pass.new ks sessions.new script rest replies.new.items }
    ensures capacity { vec_capacity replies.new ≡ vec_capacity replies.old }
{
    let mut place = place;
    for line in lines {
        run_if_own(rt, shared, number, pass, sessions, place, line, replies);
        place += 1;
    }
}

/// Runs the lines of a script that are the worker's, one after another, and keeps the replies. The worker is the one of
/// this number among those that share the script. Before each of its lines it passes the gate, with the session and with
/// the line's number in the whole script, counted from 1. There is room for a reply to each of its lines.
///
/// Ends: a script that is the worker's own, each part of it once its lines have run.
///
/// Time: that of its lines and of their gates, and one step for each line of the script, which does not look at the line
/// where it is another's. Nothing here says that the waits end.
pub fn run_lines<D: Disk, G: Gate, R: Wait>(
    rt: &R,
    shared: &SharedRun<D, G>,
    whole: Whole,
    number: u32,
    pass: &mut StorePass<ShardHome, LogHome<D>>,
    sessions: &mut [Session],
    replies: &mut Vec<Reply>,
)
    requires at_line { AreAtLine shared.now.board.now.turns shared.now.board.now.shards pass.old
        (indices sessions.old) sessions.old }
    requires found { IsBaseOf (known pass.old).base (known pass.old).found.records }
    requires apart { AreApart (indices sessions.old) }
    requires seated { EachIs (λ line. IsSeated number shared.now.workers (indices sessions.old) line) (all_lines whole) }
    requires within { AreWithinLimits (all_lines whole) }
    requires owned { AreOwners shared.now.workers shared.now.owners.now 0 (all_lines whole) }
    requires one_of { number < shared.now.workers }
    requires none { replies.old.items ≡ [] }
    requires room { length (lines_of number shared.now.workers (all_lines whole)) ≤ vec_capacity replies.old }
    ensures at_line { AreAtLine shared.now.board.now.turns shared.now.board.now.shards pass.new
        (indices sessions.old) sessions.new }
    ensures ran { HaveRun number shared.now.workers (all_lines whole.entry) replies.new.items (indices sessions.old)
        (known pass.old) (known pass.new) }
{
    let mut place = 0;
    match whole {
        Whole::Shared(script) => {
            for part in script.parts() {
                let lines = part.lines();
                run_part(rt, shared, number, pass, sessions, place, lines, replies);
                place += lines.len();
            }
        }
        Whole::Own(script) => {
            for part in script.into_parts() {
                let lines = part.lines();
                run_part(rt, shared, number, pass, sessions, place, lines, replies);
                place += lines.len();
            }
        }
    }
}
