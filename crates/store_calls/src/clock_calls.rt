//! The events of a session on the clock.

use core_states::CoreAnswer;
use epoch_clock::BeginRefusal;
use std::alloc::Global;
use store_turns::{ClockCall, ClockHome, Session, Work};

/// The session opens its row. Nothing is done where it is open.
#[derive(Drop)]
pub struct OpenRow;

impl ClockCall for OpenRow {
    ghost use Rattle.core_states.specs.declared.event.Act.TheVariants as act;
    ghost use Rattle.store_turns.specs.Moves.{BecomesOpen};

    ghost acts = { λ _ _. act.Open };

    ghost leaves = { λ _ o s s'. BecomesOpen o s s' };

    fn call(&self, _home: &mut ClockHome, session: &mut Session) -> Option<CoreAnswer> {
        if session.is_open {
            return None;
        }
        session.is_open = true;
        Some(CoreAnswer::Done)
    }
}

/// The session closes its row. Nothing is done where it is not open, or a transaction runs.
#[derive(Drop)]
pub struct CloseRow;

impl ClockCall for CloseRow {
    ghost use Rattle.core_states.specs.declared.event.Act.TheVariants as act;
    ghost use Rattle.store_turns.specs.Moves.{BecomesClosed};

    ghost acts = { λ _ _. act.Close };

    ghost leaves = { λ _ o s s'. BecomesClosed o s s' };

    fn call(&self, _home: &mut ClockHome, session: &mut Session) -> Option<CoreAnswer> {
        if session.work.is_some() || !session.is_open {
            return None;
        }
        session.is_open = false;
        Some(CoreAnswer::Done)
    }
}

/// A transaction begins. Nothing is done where the session's row is not open, where a transaction runs, or where memory
/// runs out.
#[derive(Drop)]
pub struct Begin {
    pub alloc: Global,
}

impl ClockCall for Begin {
    ghost use Rattle.core_states.specs.declared.event.Act.TheVariants as act;
    ghost use Rattle.store_turns.specs.Moves.{BeginsWork};

    ghost acts = { λ _ _. act.Begin };

    ghost leaves = { λ _ o s s'. BeginsWork o s s' };

    fn call(&self, home: &mut ClockHome, session: &mut Session) -> Option<CoreAnswer> {
        if !session.is_open || session.work.is_some() {
            return None;
        }
        let row = home.part.open_row().ok()?;
        match home.part.begin(row) {
            Ok(drawn) => {
                session.finished = None;
                session.work = Some(Work::new(self.alloc, drawn.tid, drawn.read, row));
                Some(CoreAnswer::Begun {
                    tid: drawn.tid,
                    read: drawn.read,
                })
            }
            Err(refusal) => {
                home.part.close_row(row);
                match refusal {
                    BeginRefusal::Spent => Some(CoreAnswer::Spent),
                    BeginRefusal::NoMemory => None,
                }
            }
        }
    }
}

/// A vertex number is drawn, which the transaction may use. Nothing is done where no transaction works.
#[derive(Drop)]
pub struct Draw;

impl ClockCall for Draw {
    ghost use Rattle.core_states.specs.declared.event.Act.TheVariants as act;
    ghost use Rattle.store_turns.specs.Moves.{DrawsNumber};

    ghost acts = { λ _ _. act.Draw };

    ghost leaves = { λ _ o s s'. DrawsNumber o s s' };

    fn call(&self, home: &mut ClockHome, session: &mut Session) -> Option<CoreAnswer> {
        session.working()?;
        match home.part.draw() {
            Some(v) => {
                session.work.as_mut()?.drawn = Some(v);
                Some(CoreAnswer::Number { v })
            }
            None => Some(CoreAnswer::Spent),
        }
    }
}

/// The transaction ends without a record, or with one that has failed. Nothing is done where none runs, where its record
/// may be committed, or where it has not given free all that it took.
#[derive(Drop)]
pub struct End;

impl ClockCall for End {
    ghost use Rattle.core_states.specs.declared.event.Act.TheVariants as act;
    ghost use Rattle.store_turns.specs.Moves.{EndsWork};

    ghost acts = { λ _ _. act.End };

    ghost leaves = { λ _ o s s'. EndsWork o s s' };

    fn call(&self, home: &mut ClockHome, session: &mut Session) -> Option<CoreAnswer> {
        let work = session.work.as_ref()?;
        if !work.is_lost() || work.settled < work.touched.len() {
            return None;
        }
        let row = home.part.row_of(work.row, work.tid);
        home.part.end(row);
        home.part.close_row(row);
        session.work = None;
        Some(CoreAnswer::Done)
    }
}
