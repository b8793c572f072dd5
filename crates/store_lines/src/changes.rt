//! The requests that change a vertex, in a transaction.

ghost use Rattle.std.specs.Prelude.{◌<◌, ◌^◌};
ghost use Rattle.request_text.specs.declared.request.Request.TheVariants as requests;
ghost use Rattle.store_board.specs.Standing.{Stands};
ghost use Rattle.store_lines.specs.Lines.{IsInside, InsideRan};

use crate::refused::refused;
use graph_model::Payload;
use request_text::Reply;
use shard_state::{Placed, Taken};
use std::sync::Wait;
use store_board::{StoreBoard, StorePass};
use store_rows::ShardHome;
use store_sessions::{del_edge, drop_vertex, new_vertex, put_edge, set_vertex};
use store_turns::Session;
use turn_board::ShowsLog;

/// A vertex is made.
pub fn make_line<W: ShowsLog, R: Wait>(
    rt: &R,
    board: &StoreBoard<ShardHome, W>,
    pass: &mut StorePass<ShardHome, W>,
    session: &mut Session,
    p: &Payload,
) -> Reply
    requires stands { Stands board.now.turns board.now.shards pass.old session.old }
    requires inside { IsInside session.old }
    ensures { InsideRan board.now.turns board.now.shards (requests.Vertex p.now) result pass.old pass.new session.old session.new }
{
    match new_vertex(rt, board, pass, session, p) {
        Ok(v) => Reply::Vertex { v },
        Err(refusal) => refused(refusal),
    }
}

/// The payload of a vertex is set.
pub fn set_line<W: ShowsLog, R: Wait>(
    rt: &R,
    board: &StoreBoard<ShardHome, W>,
    pass: &mut StorePass<ShardHome, W>,
    session: &mut Session,
    v: u64,
    p: &Payload,
) -> Reply
    requires stands { Stands board.now.turns board.now.shards pass.old session.old }
    requires inside { IsInside session.old }
    ensures { InsideRan board.now.turns board.now.shards (requests.Set v p.now) result pass.old pass.new session.old session.new }
{
    match set_vertex(rt, board, pass, session, v, p) {
        Ok(()) => Reply::SetDone,
        Err(refusal) => refused(refusal),
    }
}

/// A vertex is removed.
pub fn drop_line<W: ShowsLog, R: Wait>(
    rt: &R,
    board: &StoreBoard<ShardHome, W>,
    pass: &mut StorePass<ShardHome, W>,
    session: &mut Session,
    v: u64,
) -> Reply
    requires stands { Stands board.now.turns board.now.shards pass.old session.old }
    requires inside { IsInside session.old }
    ensures { InsideRan board.now.turns board.now.shards (requests.Drop v) result pass.old pass.new session.old session.new }
{
    match drop_vertex(rt, board, pass, session, v) {
        Ok(()) => Reply::Dropped,
        Err(refusal) => refused(refusal),
    }
}

/// An edge is put.
pub fn put_line<W: ShowsLog, R: Wait>(
    rt: &R,
    board: &StoreBoard<ShardHome, W>,
    pass: &mut StorePass<ShardHome, W>,
    session: &mut Session,
    v: u64,
    l: u16,
    d: u64,
    p: &Payload,
) -> Reply
    requires stands { Stands board.now.turns board.now.shards pass.old session.old }
    requires inside { IsInside session.old }
    requires destination { d < 2 ^ 63 }
    ensures { InsideRan board.now.turns board.now.shards (requests.Put v l d p.now) result pass.old pass.new session.old session.new }
{
    match put_edge(rt, board, pass, session, v, l, d, p) {
        Ok(Placed::Added) => Reply::Added,
        Ok(Placed::Replaced) => Reply::Replaced,
        Err(refusal) => refused(refusal),
    }
}

/// An edge is taken out.
pub fn del_line<W: ShowsLog, R: Wait>(
    rt: &R,
    board: &StoreBoard<ShardHome, W>,
    pass: &mut StorePass<ShardHome, W>,
    session: &mut Session,
    v: u64,
    l: u16,
    d: u64,
) -> Reply
    requires stands { Stands board.now.turns board.now.shards pass.old session.old }
    requires inside { IsInside session.old }
    ensures { InsideRan board.now.turns board.now.shards (requests.Del v l d) result pass.old pass.new session.old session.new }
{
    match del_edge(rt, board, pass, session, v, l, d) {
        Ok(Taken::Gone) => Reply::Gone,
        Ok(Taken::Absent) => Reply::Absent,
        Err(refusal) => refused(refusal),
    }
}
