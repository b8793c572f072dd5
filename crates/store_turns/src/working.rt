//! What a session is asked of its transaction.

ghost use Rattle.std.specs.Prelude.{◌≡◌, false, None, IfSome, IfNone};
ghost use Rattle.std.specs.Option.{option_map};
ghost use Rattle.store_turns.specs.declared.session.Work.{Work};
ghost use Rattle.core_states.specs.Transactions.{is_loser, won_epoch};
ghost use Rattle.store_turns.specs.Moves.{Works};

use crate::session::{Session, Work};
use core_states::Stage;
use graph_model::Outcome;

impl Session {
    /// A session that has done nothing.
    pub fn new(index: u64) -> Session
        ensures { result ≡ record { index = index; is_open = false; finished = None; work = None } }
    {
        Session {
            index,
            is_open: false,
            finished: None,
            work: None,
        }
    }

    /// The number of the transaction that runs; none exactly where none does.
    pub fn tid(&self) -> Option<u64>
        ensures { result ≡ option_map (λ w. w.tid) self.now.work }
    {
        self.work.as_ref().map(|work| work.tid)
    }

    /// The epoch of the snapshot that the transaction reads; none exactly where none runs.
    pub fn read(&self) -> Option<u64>
        ensures { result ≡ option_map (λ w. w.read) self.now.work }
    {
        self.work.as_ref().map(|work| work.read)
    }

    /// The transaction, where its record was not queued and it has given nothing free.
    pub fn working(&self) -> Option<&Work>
        ensures some { IfSome result (λ t. Works self.now t.now) }
        ensures none { IfNone result ((t : Work) → Works self.now t → ⊥) }
    {
        let work = self.work.as_ref()?;
        if work.settled > 0 || !matches!(work.stage, Stage::Open) {
            return None;
        }
        Some(work)
    }
}

impl Work {
    /// Whether its record was not queued, or has failed.
    pub fn is_lost(&self) -> bool
        ensures { result ≡ is_loser self.now.stage }
    {
        match self.stage {
            Stage::Open => true,
            Stage::Queued => false,
            Stage::Decided { outcome } => matches!(outcome, Outcome::Failed { .. }),
        }
    }

    /// The epoch of its record, where it is committed.
    pub fn won(&self) -> Option<u64>
        ensures { result ≡ won_epoch self.now.stage }
    {
        match self.stage {
            Stage::Decided { outcome } => match outcome {
                Outcome::Committed { epoch } => Some(epoch),
                Outcome::Failed { .. } => None,
            },
            _ => None,
        }
    }
}
