//! What a transaction notes of its changes.

ghost use Rattle.std.specs.Prelude.{◌≡◌, ◌++◌, ◌∷◌, [], List, None, OnOk, OnErr};
ghost use Rattle.graph_model.specs.declared.change.Change.{Change};
ghost use Rattle.graph_model.specs.Records.{transaction_most};
ghost use Rattle.store_turns.specs.Notes.{KeepsNotes};

use crate::session::Work;
use crate::touched::Touched;
use core_states::Stage;
use graph_model::{Bytes, Change, Changes, NoMemory, TRANSACTION_MOST};
use group_codec::push_change;
use std::alloc::Global;

impl Work {
    /// A transaction that has taken no vertex. It takes no memory.
    pub fn new(alloc: Global, tid: u64, read: u64, row: u32) -> Work
        ensures { (result.tid ≡ tid) × (result.read ≡ read) × (result.row ≡ row) × (result.changes ≡ [])
            × (result.touched.taken ≡ []) × (result.settled ≡ 0) × (result.left ≡ transaction_most)
            × (result.stage ≡ Stage.Open) × (result.drawn ≡ None) }
    {
        Work {
            tid,
            read,
            row,
            stage: Stage::Open,
            drawn: None,
            changes: Changes::new(alloc),
            spelling: Bytes::new(alloc),
            left: TRANSACTION_MOST,
            touched: Touched::new(alloc),
            settled: 0,
        }
    }

    /// Notes a change behind the others. After NoMemory all is as before. Time: amortized, one step for each byte.
    pub fn note(&mut self, change: Change) -> Result<(), NoMemory>
        ensures noted { OnOk result (self.new.changes ≡ self.old.changes ++ change ∷ []) }
        ensures unchanged { OnErr result (self.new.changes ≡ self.old.changes) }
        ensures keeps { KeepsNotes self.old self.new }
    {
        let spelled = self.spelling.len();
        push_change(&mut self.spelling, &change)?;
        if self.changes.push(change).is_err() {
            self.spelling.truncate(spelled);
            return Err(NoMemory);
        }
        Ok(())
    }

    /// Takes the last change back. Time: constant.
    pub fn take_back(&mut self)
        ensures back { (changes : List Change) (change : Change) → self.old.changes ≡ changes ++ change ∷ []
            → self.new.changes ≡ changes }
        ensures keeps { KeepsNotes self.old self.new }
    {
        if let Some(change) = self.changes.pop() {
            let spelled = self.spelling.len() - change.encoded_len() as usize;
            self.spelling.truncate(spelled);
        }
    }
}
