//! A request of a session, answered.

ghost use Rattle.request_text.specs.Limits.{IsRequestWithin};
ghost use Rattle.turn_board.specs.Board.{known};
ghost use Rattle.store_board.specs.Standing.{Stands};
ghost use Rattle.store_log.specs.LogChanges.{IsBaseOf};
ghost use Rattle.store_lines.specs.Lines.{IsAtLine, IsInside, IsOutside, InsideRan, OutsideRan, RequestRan};

use crate::changes::{del_line, drop_line, make_line, put_line, set_line};
use crate::ends::{abort_line, begin_line, commit_line};
use crate::reads::read_line;
use disk_model::Disk;
use graph_model::Query;
use request_text::{Reply, Request};
use std::alloc::Global;
use std::sync::Wait;
use store_board::{StoreBoard, StorePass};
use store_log::LogHome;
use store_rows::ShardHome;
use store_turns::Session;

// Answers a request in a transaction.
fn run_inside<D: Disk, R: Wait>(
    rt: &R,
    alloc: Global,
    board: &StoreBoard<ShardHome, LogHome<D>>,
    pass: &mut StorePass<ShardHome, LogHome<D>>,
    session: &mut Session,
    request: &Request,
) -> Reply
    requires stands { Stands board.now.turns board.now.shards pass.old session.old }
    requires found { IsBaseOf (known pass.old).base (known pass.old).found.records }
    requires inside { IsInside session.old }
    requires within { IsRequestWithin request.now }
    ensures { InsideRan board.now.turns board.now.shards request.now result pass.old pass.new session.old session.new }
{
    match request {
        Request::Begin => Reply::TxnOpen,
        Request::Vertex { p } => make_line(rt, board, pass, session, p),
        Request::Set { v, p } => set_line(rt, board, pass, session, *v, p),
        Request::Get { v } => read_line(rt, board, pass, session, &Query::Vertex { v: *v }),
        Request::Drop { v } => drop_line(rt, board, pass, session, *v),
        Request::Put { v, l, d, p } => put_line(rt, board, pass, session, *v, *l, *d, p),
        Request::Del { v, l, d } => del_line(rt, board, pass, session, *v, *l, *d),
        Request::Edge { v, l, d } => {
            let query = Query::Edge {
                v: *v,
                l: *l,
                d: *d,
            };
            read_line(rt, board, pass, session, &query)
        }
        Request::Scan { v, l } => {
            read_line(rt, board, pass, session, &Query::Scan { v: *v, l: *l })
        }
        Request::Labels { v } => { read_line(rt, board, pass, session, &Query::Labels { v: *v }) }
        Request::Commit => commit_line(rt, alloc, board, pass, session),
        Request::Abort => abort_line(rt, board, pass, session),
        Request::Compact { .. } => Reply::Compacted,
    }
}

// Answers a request outside of one.
fn run_outside<D: Disk, R: Wait>(
    rt: &R,
    alloc: Global,
    board: &StoreBoard<ShardHome, LogHome<D>>,
    pass: &mut StorePass<ShardHome, LogHome<D>>,
    session: &mut Session,
    request: &Request,
) -> Reply
    requires stands { Stands board.now.turns board.now.shards pass.old session.old }
    requires outside { IsOutside session.old }
    ensures { OutsideRan board.now.turns board.now.shards request.now result pass.old pass.new session.old session.new }
{
    match request {
        Request::Begin => begin_line(rt, alloc, board, pass, session),
        Request::Compact { .. } => Reply::Compacted,
        _ => Reply::NoTxn,
    }
}

/// Answers a request of a session by the calls of the store. `Compacted` comes without an event.
///
/// Time: that of the call. Nothing here says that its waits end.
pub fn run_line<D: Disk, R: Wait>(
    rt: &R,
    alloc: Global,
    board: &StoreBoard<ShardHome, LogHome<D>>,
    pass: &mut StorePass<ShardHome, LogHome<D>>,
    session: &mut Session,
    request: &Request,
) -> Reply
    requires stands { Stands board.now.turns board.now.shards pass.old session.old }
    requires found { IsBaseOf (known pass.old).base (known pass.old).found.records }
    requires ready { IsAtLine session.old }
    requires within { IsRequestWithin request.now }
    ensures { RequestRan board.now.turns board.now.shards request.now result pass.old pass.new session.old session.new }
{
    if session.work.is_some() {
        run_inside(rt, alloc, board, pass, session, request)
    } else {
        run_outside(rt, alloc, board, pass, session, request)
    }
}
