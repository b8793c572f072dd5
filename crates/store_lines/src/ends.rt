//! The requests that begin a transaction, and that end it.

ghost use Rattle.request_text.specs.declared.request.Request.TheVariants as requests;
ghost use Rattle.turn_board.specs.Board.{known};
ghost use Rattle.store_board.specs.Standing.{Stands};
ghost use Rattle.store_log.specs.LogChanges.{IsBaseOf};
ghost use Rattle.store_lines.specs.Lines.{IsInside, IsOutside, InsideRan, OutsideRan};

use crate::refused::refused;
use disk_model::Disk;
use request_text::Reply;
use std::alloc::Global;
use std::sync::Wait;
use store_board::{StoreBoard, StorePass};
use store_commits::{CommitEnd, commit};
use store_log::LogHome;
use store_rows::ShardHome;
use store_sessions::{begin, give_up};
use store_turns::Session;
use turn_board::ShowsLog;

/// A transaction begins.
pub fn begin_line<W: ShowsLog, R: Wait>(
    rt: &R,
    alloc: Global,
    board: &StoreBoard<ShardHome, W>,
    pass: &mut StorePass<ShardHome, W>,
    session: &mut Session,
) -> Reply
    requires stands { Stands board.now.turns board.now.shards pass.old session.old }
    requires outside { IsOutside session.old }
    ensures { OutsideRan board.now.turns board.now.shards requests.Begin result pass.old pass.new session.old session.new }
{
    match begin(rt, board, pass, session, alloc) {
        Ok(begun) => Reply::Begun {
            tid: begun.tid,
            read: begun.read,
        },
        Err(refusal) => refused(refusal),
    }
}

/// The transaction commits.
pub fn commit_line<D: Disk, R: Wait>(
    rt: &R,
    alloc: Global,
    board: &StoreBoard<ShardHome, LogHome<D>>,
    pass: &mut StorePass<ShardHome, LogHome<D>>,
    session: &mut Session,
) -> Reply
    requires stands { Stands board.now.turns board.now.shards pass.old session.old }
    requires found { IsBaseOf (known pass.old).base (known pass.old).found.records }
    requires inside { IsInside session.old }
    ensures { InsideRan board.now.turns board.now.shards requests.Commit result pass.old pass.new session.old session.new }
{
    match commit(rt, alloc, board, pass, session) {
        Ok(CommitEnd::Committed { epoch }) => Reply::Committed { epoch },
        Ok(CommitEnd::Ended) => Reply::Ended,
        Err(refusal) => refused(refusal),
    }
}

/// The transaction is given up.
pub fn abort_line<W: ShowsLog, R: Wait>(
    rt: &R,
    board: &StoreBoard<ShardHome, W>,
    pass: &mut StorePass<ShardHome, W>,
    session: &mut Session,
) -> Reply
    requires stands { Stands board.now.turns board.now.shards pass.old session.old }
    requires inside { IsInside session.old }
    ensures { InsideRan board.now.turns board.now.shards requests.Abort result pass.old pass.new session.old session.new }
{
    give_up(rt, board, pass, session);
    Reply::Aborted
}
