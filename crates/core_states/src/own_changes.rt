//! The changes that a transaction has made, in order.

ghost use Rattle.std.specs.Prelude.{◌≡◌, ◌≤◌, ◌+◌, ◌==◌, ◌++◌, ◌∷◌, [], length, IfOk};
ghost use Rattle.graph_model.specs.Change.{encoded_lens};
ghost use Rattle.graph_model.specs.Records.{transaction_most};
ghost use Rattle.graph_model.specs.Places.{changes_about};
ghost use Rattle.core_states.specs.RowEvents.{has_change};

use crate::copies::{copy_change, copy_listed};
use crate::lists::one;
use graph_model::{Change, Changes, NoMemory};
use std::alloc::Global;
use std::collections::LinkedList;
use std::marker::Model;

/// Changes, which contracts see as a list. Their length is known at any time.
#[derive(Drop)]
pub struct OwnChanges {
    changes: LinkedList<Change>,
    // The sum of the lengths.
    len: u64,
}

impl Model for OwnChanges {
    ghost use Rattle.std.specs.Prelude.{◌≡◌, List};
    ghost use Rattle.graph_model.specs.declared.change.Change.{Change};
    ghost use Rattle.graph_model.specs.Change.{encoded_lens};

    ghost Value = { List Change };

    ghost view = { λ a. a.changes };

    ghost invariant = { λ a. a.len ≡ encoded_lens a.changes };
}

impl OwnChanges {
    /// No changes. It takes no memory.
    pub fn new(alloc: Global) -> OwnChanges
        ensures { result ≡ [] }
    {
        OwnChanges {
            changes: LinkedList::new(alloc),
            len: 0,
        }
    }

    /// A copy of one change. Time: one step for each byte of it.
    pub fn of(alloc: Global, change: &Change) -> Result<OwnChanges, NoMemory>
        ensures { IfOk result (λ own. own ≡ change.now ∷ []) }
    {
        let len = change.encoded_len();
        let changes = one(alloc, copy_change(change)?)?;
        Ok(OwnChanges { changes, len })
    }

    /// Whether there are none.
    pub fn is_empty(&self) -> bool
        ensures { result ≡ (length self.now == 0) }
    {
        self.changes.is_empty()
    }

    /// How many bytes they are encoded in.
    pub fn encoded_len(&self) -> u64
        ensures { result ≡ encoded_lens self.now }
    {
        self.len
    }

    /// Whether one of them is about the vertex. Time: one step for each.
    pub fn touch(&self, v: u64) -> bool
        ensures { result ≡ has_change (changes_about v self.now) }
    {
        is_touched(v, &self.changes)
    }

    #[tactic(auto, using(crate::proofs::OwnLemmas::lens_append, crate::proofs::OwnLemmas::few_changes))]
    /// Puts other changes behind them, with which they are within the limit of a transaction. It takes no
    /// memory. Time: constant.
    pub fn append(&mut self, more: OwnChanges)
        requires { encoded_lens self.old + encoded_lens more ≤ transaction_most }
        ensures { self.new ≡ self.old ++ more }
    {
        let mut more = more;
        let _joined = self.changes.append(&mut more.changes);
        self.len += more.len;
    }

    /// The same changes once more. Time: one step for each change and each byte.
    pub fn copy(&self, alloc: Global) -> Result<Changes, NoMemory>
        ensures { IfOk result (λ copy. copy ≡ self.now) }
    {
        copy_listed(alloc, &self.changes)
    }
}

// Whether one of these changes is about the vertex.
fn is_touched(v: u64, changes: &LinkedList<Change>) -> bool
    ensures { result ≡ has_change (changes_about v changes.now) }
{
    for change in changes {
        if change.vertex() == v {
            return true;
        }
    }
    false
}
