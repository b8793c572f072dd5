//! A session reads.

ghost use Rattle.std.specs.Prelude.{◌≡◌, List};
ghost use Rattle.core_calls.specs.Events.{Told};
ghost use Rattle.store_board.specs.Standing.{Stands, Goes};
ghost use Rattle.store_sessions.specs.Changing.{IsAtWork};
ghost use Rattle.store_sessions.specs.Reading.{ReadTells, shown_by};

use core_states::CoreAnswer;
use graph_model::{Answer, NoMemory, Query};
use std::sync::Wait;
use store_board::{StoreBoard, StorePass};
use store_rows::{Read, ShardHome};
use store_turns::Session;
use turn_board::ShowsLog;

// How a read ends that the core answers so.
fn shown(answer: Option<CoreAnswer>) -> Result<Answer, NoMemory>
    ensures { result ≡ shown_by answer }
{
    match answer {
        Some(CoreAnswer::Shown { answer }) => Ok(answer),
        _ => Err(NoMemory),
    }
}

/// The transaction reads. The session is only lent.
///
/// Time: one turn of the vertex's shard. Nothing here says that the wait ends.
pub fn read<W: ShowsLog, R: Wait>(
    rt: &R,
    board: &StoreBoard<ShardHome, W>,
    pass: &mut StorePass<ShardHome, W>,
    session: &Session,
    query: &Query,
) -> Result<Answer, NoMemory>
    requires stands { Stands board.now.turns board.now.shards pass.old session.now }
    requires works { IsAtWork session.now }
    ensures goes { (ts : List Told) × ReadTells query.now result ts
        × Goes board.now.turns board.now.shards ts pass.old pass.new session.now session.now }
{
    shown(board.read_by_shard(rt, pass, session, &Read { query }))
}
