//! The events of a session on a row.

ghost use Rattle.std.specs.Prelude.{◌≡◌, ◌<◌, ◌-◌, ◌^◌, IfSome, IfNone};
ghost use Rattle.store_turns.specs.Moves.{IsNext, SettlesOne};
ghost use Rattle.store_turns.specs.Takes.{IsOnceAt};
ghost use Rattle.store_rows.specs.Alters.{IsWorking};

use crate::shard_home::ShardHome;
use core_states::CoreAnswer;
use graph_model::Query;
use shard_state::Who;
use store_turns::{RowCall, RowEvent, RowRead, Session, Work};

// How the shard is called for a transaction.
fn caller(work: &Work) -> Who
    ensures { (result.tid ≡ work.now.tid) × (result.read ≡ work.now.read) × (result.left ≡ work.now.left) }
{
    Who {
        tid: work.tid,
        read: work.read,
        left: work.left,
    }
}

// How the shard is called for the session's transaction, where one runs whose record was not queued, and which has given
// nothing free.
pub(crate) fn working(session: &Session) -> Option<Who>
    ensures { IfSome result (λ who. IsWorking session.now who) }
{
    let work = session.working()?;
    Some(caller(work))
}

// Whether the transaction changed the vertex, where it is the next of those that it took.
fn next(work: &Work, v: u64) -> Option<bool>
    ensures next { IfSome result (λ _. IsNext v work.now) }
    ensures once { IfSome result (λ changed. IsOnceAt v changed work.now.settled work.now.touched.taken) }
    ensures room { IfSome result (λ _. work.now.settled < 2 ^ 64 - 1) }
    ensures other { IfNone result (IsNext v work.now → ⊥) }
{
    if work.settled >= work.touched.len() {
        return None;
    }
    let (next, changed) = work.touched.get(work.settled)?;
    if next != v {
        return None;
    }
    Some(changed)
}

// The next of the vertices is free.
fn settle(work: &mut Work)
    requires room { work.old.settled < 2 ^ 64 - 1 }
    ensures { SettlesOne work.old work.new }
{
    work.settled += 1;
}

/// The transaction gives a vertex free, which is the next of those that it took, and gives up what it did there. Nothing
/// is done where no transaction runs, where its record may be committed, or where another vertex is the next.
#[derive(Drop)]
pub struct Undo {
    pub v: u64,
}

impl RowEvent for Undo {
    ghost use Rattle.core_states.specs.declared.event.Act.TheVariants as act;

    ghost acts = { λ c _. act.Undo c.v };

    ghost of = { λ c. c.v };

    fn vertex(&self) -> u64 {
        self.v
    }
}

impl RowCall<ShardHome> for Undo {
    ghost use Rattle.store_turns.specs.Moves.{Settles};

    ghost leaves = { λ c o s s'. Settles c.v o s s' };

    fn call(&self, home: &mut ShardHome, session: &mut Session) -> Option<CoreAnswer> {
        let work = session.work.as_ref()?;
        if !work.is_lost() {
            return None;
        }
        next(work, self.v)?;
        home.shard.undo(self.v, work.tid);
        let settling = session.work.as_mut()?;
        settle(settling);
        Some(CoreAnswer::Done)
    }
}

/// What the transaction did at a vertex, which is the next of those that it took, is committed at its record's epoch, and
/// the vertex is given free. Nothing is done where its record is not committed, or where another vertex is the next.
#[derive(Drop)]
pub struct Apply {
    pub v: u64,
}

impl RowEvent for Apply {
    ghost use Rattle.core_states.specs.declared.event.Act.TheVariants as act;

    ghost acts = { λ c _. act.Apply c.v };

    ghost of = { λ c. c.v };

    fn vertex(&self) -> u64 {
        self.v
    }
}

impl RowCall<ShardHome> for Apply {
    ghost use Rattle.store_turns.specs.Moves.{AppliesNext};

    ghost leaves = { λ c o s s'. AppliesNext c.v o s s' };

    fn call(&self, home: &mut ShardHome, session: &mut Session) -> Option<CoreAnswer> {
        let work = session.work.as_ref()?;
        let epoch = work.won()?;
        let changed = next(work, self.v)?;
        home.shard.apply(self.v, work.tid, epoch, changed);
        let settling = session.work.as_mut()?;
        settle(settling);
        Some(CoreAnswer::Done)
    }
}

/// The transaction reads. Nothing is done where none works, or where memory runs out.
#[derive(Drop)]
pub struct Read<'a> {
    pub query: &'a Query,
}

impl<'a> RowEvent for Read<'a> {
    ghost use Rattle.core_states.specs.declared.event.Act.TheVariants as act;
    ghost use Rattle.graph_model.specs.Graph.{asked_vertex};

    ghost acts = { λ c _. act.Read c.query.now };

    ghost of = { λ c. asked_vertex c.query.now };

    fn vertex(&self) -> u64 {
        self.query.vertex()
    }
}

impl<'a> RowRead<ShardHome> for Read<'a> {
    ghost use Rattle.store_turns.specs.Moves.{IsShown};

    ghost says = { λ _ says. IsShown says };

    fn read(&self, home: &mut ShardHome, session: &Session) -> Option<CoreAnswer> {
        let who = working(session)?;
        match home.shard.read(&who, self.query) {
            Ok(answer) => Some(CoreAnswer::Shown { answer }),
            Err(_) => None,
        }
    }
}
