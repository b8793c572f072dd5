//! A session makes a vertex.

ghost use Rattle.std.specs.Prelude.{◌≡◌, List, Some, IfOk};
ghost use Rattle.core_calls.specs.Events.{Told};
ghost use Rattle.graph_model.specs.Change.{encoded_len};
ghost use Rattle.graph_model.specs.declared.change.Change.TheVariants as changes;
ghost use Rattle.store_board.specs.Standing.{Stands, Goes};
ghost use Rattle.store_turns.specs.declared.session.Work.{Work};
ghost use Rattle.store_turns.specs.Moves.{Works};
ghost use Rattle.store_sessions.specs.Changing.{IsAtWork, StaysAtWork};
ghost use Rattle.store_sessions.specs.Making.{NewTells, MakeTells, drawn_by};

use crate::refusal::Refusal;
use core_states::CoreAnswer;
use graph_model::{Change, NoMemory, Payload};
use std::sync::Wait;
use store_board::{StoreBoard, StorePass};
use store_calls::Draw;
use store_rows::{Make, ShardHome};
use store_turns::Session;
use turn_board::ShowsLog;

// How many bytes a new vertex of this payload is encoded in.
fn new_len(p: &Payload) -> Result<u64, NoMemory>
    ensures { IfOk result (λ size. size ≡ encoded_len (changes.New 0 p.now)) }
{
    let new = Change::New { v: 0, p: p.copy()? };
    Ok(new.encoded_len())
}

// How many bytes more the changes of the session's transaction may be encoded in.
fn left_of(session: &Session) -> u64
    ensures { (t : Work) → session.now.work ≡ Some t → result ≡ t.left }
{
    match &session.work {
        Some(work) => work.left,
        None => 0,
    }
}

// The number that was drawn, by what the core answers.
fn drawn_by(answer: Option<CoreAnswer>) -> Result<u64, Refusal>
    ensures { result ≡ drawn_by answer }
{
    match answer {
        Some(CoreAnswer::Number { v }) => Ok(v),
        Some(CoreAnswer::Spent) => Err(Refusal::Spent),
        _ => Err(Refusal::NoMemory),
    }
}

// Makes the vertex of the number that was drawn.
fn make_drawn<W: ShowsLog, R: Wait>(
    rt: &R,
    board: &StoreBoard<ShardHome, W>,
    pass: &mut StorePass<ShardHome, W>,
    session: &mut Session,
    v: u64,
    p: &Payload,
) -> Result<u64, Refusal>
    requires stands { Stands board.now.turns board.now.shards pass.old session.old }
    requires drawn { (t : Work) × Works session.old t × (t.drawn ≡ Some v) }
    ensures goes { (ts : List Told) × MakeTells v p.now result ts
        × Goes board.now.turns board.now.shards ts pass.old pass.new session.old session.new }
    ensures session { StaysAtWork session.old session.new }
{
    match board.by_shard(rt, pass, session, &Make { v, p }) {
        Some(_) => Ok(v),
        None => Err(Refusal::NoMemory),
    }
}

/// The transaction makes a vertex, and answers its number. `TxnFull` is judged first; `Spent` comes where no number is
/// left. A number that was drawn where memory runs out is not given again. After each refusal the transaction goes on.
///
/// Time: one turn of the clock and one of the vertex's shard. Nothing here says that the waits end.
pub fn new_vertex<W: ShowsLog, R: Wait>(
    rt: &R,
    board: &StoreBoard<ShardHome, W>,
    pass: &mut StorePass<ShardHome, W>,
    session: &mut Session,
    p: &Payload,
) -> Result<u64, Refusal>
    requires stands { Stands board.now.turns board.now.shards pass.old session.old }
    requires works { IsAtWork session.old }
    ensures goes { (ts : List Told) × NewTells session.old p.now result ts
        × Goes board.now.turns board.now.shards ts pass.old pass.new session.old session.new }
    ensures session { StaysAtWork session.old session.new }
{
    let Ok(size) = new_len(p) else {
        return Err(Refusal::NoMemory);
    };
    if size > left_of(session) {
        return Err(Refusal::TxnFull);
    }
    match drawn_by(board.by_clock(rt, pass, session, &Draw)) {
        Ok(v) => make_drawn(rt, board, pass, session, v, p),
        Err(refusal) => Err(refusal),
    }
}
