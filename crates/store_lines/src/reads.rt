//! The requests that read, in a transaction.

ghost use Rattle.std.specs.Prelude.{◌≡◌};
ghost use Rattle.graph_legal.specs.TraceOk.{printed};
ghost use Rattle.store_board.specs.Standing.{Stands};
ghost use Rattle.store_lines.specs.Lines.{IsInside, InsideRan, asking};

use graph_model::{Answer, Query};
use request_text::Reply;
use std::sync::Wait;
use store_board::{StoreBoard, StorePass};
use store_rows::ShardHome;
use store_sessions::read;
use store_turns::Session;
use turn_board::ShowsLog;

// The reply that tells the answer to a query.
fn printed(query: &Query, answer: Answer) -> Reply
    ensures { result ≡ printed query.now answer }
{
    match query {
        Query::Vertex { .. } => match answer {
            Answer::Value(p) => Reply::Value { p },
            _ => Reply::Lacking,
        },
        Query::Edge { .. } => match answer {
            Answer::Value(p) => Reply::Edge { p },
            Answer::Absent => Reply::Absent,
            _ => Reply::NoVertex,
        },
        Query::Scan { .. } => match answer {
            Answer::Edges(pairs) => Reply::Edges { pairs },
            _ => Reply::NoVertex,
        },
        Query::Labels { .. } => match answer {
            Answer::Named(labels) => Reply::Labels { labels },
            _ => Reply::NoVertex,
        },
    }
}

/// The transaction reads. The session is only lent.
pub fn read_line<W: ShowsLog, R: Wait>(
    rt: &R,
    board: &StoreBoard<ShardHome, W>,
    pass: &mut StorePass<ShardHome, W>,
    session: &Session,
    query: &Query,
) -> Reply
    requires stands { Stands board.now.turns board.now.shards pass.old session.now }
    requires inside { IsInside session.now }
    ensures { InsideRan board.now.turns board.now.shards (asking query.now) result pass.old pass.new session.now session.now }
{
    match read(rt, board, pass, session, query) {
        Ok(answer) => printed(query, answer),
        Err(_) => Reply::NoMemory,
    }
}
