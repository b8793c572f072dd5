//! The changes of a vertex that is there, each with an answer of its own.

ghost use Rattle.std.specs.Prelude.{◌≡◌, ◌<◌, ◌^◌, ℕ, List, true};
ghost use Rattle.core_calls.specs.Events.{Told};
ghost use Rattle.core_states.specs.declared.event.Act.TheVariants as acts;
ghost use Rattle.graph_model.specs.declared.change.Change.TheVariants as changes;
ghost use Rattle.store_board.specs.Standing.{Stands, Goes};
ghost use Rattle.store_rows.specs.Alters.{is_done_by};
ghost use Rattle.store_sessions.specs.Changing.{IsAtWork, ChangeLeaves, CallTells, done_says, placed_says, taken_says};

use crate::changing::change;
use crate::refusal::Refusal;
use core_states::CoreAnswer;
use graph_model::{Change, Payload};
use shard_state::{Placed, Taken};
use std::sync::Wait;
use store_board::{StoreBoard, StorePass};
use store_rows::ShardHome;
use store_turns::Session;
use turn_board::ShowsLog;

// What was done with an edge that was put.
fn placed(says: CoreAnswer) -> Placed
    requires { (v l d : ℕ) × (p : List ℕ) × (is_done_by (changes.Put v l d p) says ≡ true) }
    ensures { says ≡ placed_says result }
{
    match says {
        CoreAnswer::Added => Placed::Added,
        CoreAnswer::Replaced => Placed::Replaced,
        _ => unreachable!(),
    }
}

// What was done with an edge that was taken out.
fn taken(says: CoreAnswer) -> Taken
    requires { (v l d : ℕ) × (is_done_by (changes.Del v l d) says ≡ true) }
    ensures { says ≡ taken_says result }
{
    match says {
        CoreAnswer::Gone => Taken::Gone,
        CoreAnswer::Absent => Taken::Absent,
        _ => unreachable!(),
    }
}

/// Sets the payload of a vertex.
///
/// After `Held` and `Conflict` the transaction is undone and has ended. After each other refusal it goes on.
pub fn set_vertex<W: ShowsLog, R: Wait>(
    rt: &R,
    board: &StoreBoard<ShardHome, W>,
    pass: &mut StorePass<ShardHome, W>,
    session: &mut Session,
    v: u64,
    p: &Payload,
) -> Result<(), Refusal>
    requires stands { Stands board.now.turns board.now.shards pass.old session.old }
    requires works { IsAtWork session.old }
    ensures goes { (ts : List Told) × CallTells done_says v (acts.Set v p.now) result ts
        × Goes board.now.turns board.now.shards ts pass.old pass.new session.old session.new }
    ensures session { ChangeLeaves result session.old session.new }
{
    let Ok(copy) = p.copy() else {
        return Err(Refusal::NoMemory);
    };
    match change(rt, board, pass, session, &Change::Set { v, p: copy }) {
        Ok(_says) => Ok(()),
        Err(refusal) => Err(refusal),
    }
}

/// Removes a vertex.
///
/// After `Held` and `Conflict` the transaction is undone and has ended. After each other refusal it goes on.
pub fn drop_vertex<W: ShowsLog, R: Wait>(
    rt: &R,
    board: &StoreBoard<ShardHome, W>,
    pass: &mut StorePass<ShardHome, W>,
    session: &mut Session,
    v: u64,
) -> Result<(), Refusal>
    requires stands { Stands board.now.turns board.now.shards pass.old session.old }
    requires works { IsAtWork session.old }
    ensures goes { (ts : List Told) × CallTells done_says v (acts.Drop v) result ts
        × Goes board.now.turns board.now.shards ts pass.old pass.new session.old session.new }
    ensures session { ChangeLeaves result session.old session.new }
{
    match change(rt, board, pass, session, &Change::Drop { v }) {
        Ok(_says) => Ok(()),
        Err(refusal) => Err(refusal),
    }
}

/// Puts an edge in front of a list.
///
/// After `Held` and `Conflict` the transaction is undone and has ended. After each other refusal it goes on.
pub fn put_edge<W: ShowsLog, R: Wait>(
    rt: &R,
    board: &StoreBoard<ShardHome, W>,
    pass: &mut StorePass<ShardHome, W>,
    session: &mut Session,
    v: u64,
    l: u16,
    d: u64,
    p: &Payload,
) -> Result<Placed, Refusal>
    requires stands { Stands board.now.turns board.now.shards pass.old session.old }
    requires works { IsAtWork session.old }
    requires destination { d < 2 ^ 63 }
    ensures goes { (ts : List Told) × CallTells placed_says v (acts.Put v l d p.now) result ts
        × Goes board.now.turns board.now.shards ts pass.old pass.new session.old session.new }
    ensures session { ChangeLeaves result session.old session.new }
{
    let Ok(copy) = p.copy() else {
        return Err(Refusal::NoMemory);
    };
    match change(rt, board, pass, session, &Change::Put { v, l, d, p: copy }) {
        Ok(says) => Ok(placed(says)),
        Err(refusal) => Err(refusal),
    }
}

/// Takes an edge out of a list. `Absent` comes exactly where the core says that the transaction sees no such edge.
///
/// After `Held` and `Conflict` the transaction is undone and has ended. After each other refusal it goes on.
pub fn del_edge<W: ShowsLog, R: Wait>(
    rt: &R,
    board: &StoreBoard<ShardHome, W>,
    pass: &mut StorePass<ShardHome, W>,
    session: &mut Session,
    v: u64,
    l: u16,
    d: u64,
) -> Result<Taken, Refusal>
    requires stands { Stands board.now.turns board.now.shards pass.old session.old }
    requires works { IsAtWork session.old }
    ensures goes { (ts : List Told) × CallTells taken_says v (acts.Del v l d) result ts
        × Goes board.now.turns board.now.shards ts pass.old pass.new session.old session.new }
    ensures session { ChangeLeaves result session.old session.new }
{
    match change(rt, board, pass, session, &Change::Del { v, l, d }) {
        Ok(says) => Ok(taken(says)),
        Err(refusal) => Err(refusal),
    }
}
