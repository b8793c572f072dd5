//! The versions of one vertex that are older than its newest.

ghost use Rattle.std.specs.Prelude.{◌≡◌, [], ◌∷◌, ◌++◌, is_ok, if◌then◌else◌, IfNone, find, position};
ghost use Rattle.std.specs.Option.{option_copied, option_to_list};
ghost use Rattle.std.specs.List.{list_any};
ghost use Rattle.stamps.specs.Stamps.{Nobody, Txn, counts, is_private};
ghost use Rattle.vertex_versions.specs.Versions.{converted_versions, undone_versions, trimmed_versions};

use crate::Version;
use graph_model::NoMemory;
use std::alloc::Global;
use std::collections::VecDeque;
use std::marker::Model;
use std::mem;

// The versions of a vertex but its newest, which contracts see as a list, newest first. They lie on the heap.
#[derive(Drop)]
pub(crate) struct OlderVersions {
    items: VecDeque<Version>,
    // Only the newest `pending` of these may be private to a transaction.
    pending: usize,
}

impl Model for OlderVersions {
    ghost use Rattle.std.specs.Prelude.{◌≤◌, List};
    ghost use Rattle.std.specs.VecDeque.{deque_len};
    ghost use Rattle.vertex_versions.specs.Pending.{AreSettledFrom};
    ghost use Rattle.vertex_versions.specs.declared.version.Version.{Version};

    ghost Value = { List Version };

    ghost view = { λ a. a.items.items };

    ghost invariant = { λ a. (a.pending ≤ deque_len a.items) × AreSettledFrom a.pending a.items.items };
}

impl OlderVersions {
    // None at all. They take no memory.
    pub(crate) fn new(alloc: Global) -> OlderVersions
        ensures { result ≡ [] }
    {
        OlderVersions {
            items: VecDeque::new(alloc),
            pending: 0,
        }
    }

    // `version` takes the place of the newest version of the vertex, which becomes the first of these. Where
    // memory ran out, both are as they were. Time: amortized constant.
    pub(crate) fn replace_newest(
        &mut self,
        newest: &mut Version,
        version: Version,
    ) -> Result<(), NoMemory>
        ensures newest { newest.new ≡ (if is_ok result then version else newest.old) }
        ensures older { self.new ≡ (if is_ok result then newest.old ∷ self.old else self.old) }
    {
        self.items.reserve(1)?;
        // A settled version in front of settled ones needs no count.
        if self.pending > 0 || newest.is_private() {
            self.pending += 1;
        }
        self.items
            .push_front_reserved(mem::replace(newest, version));
        Ok(())
    }

    // Takes the first of these out, which becomes the newest version of the vertex.
    pub(crate) fn pop(&mut self) -> Option<Version>
        ensures first { self.old ≡ option_to_list result ++ self.new }
        ensures none { IfNone result (self.new ≡ []) }
    {
        self.pending = self.pending.saturating_sub(1);
        self.items.pop_front()
    }

    // The newest of these that counts in a snapshot of the epoch `read` for the transaction `tid`.
    pub(crate) fn newest_counting(&self, read: u64, tid: u64) -> Option<&Version>
        ensures { option_copied result ≡ find (λ x. counts x.created read (Txn tid)) self.now }
    {
        self.items
            .iter()
            .find(|version| version.created.counts(read, tid))
    }

    // Gives the versions that are private to `tid` this epoch. Time: one step for each of the newest that may
    // be private, and one.
    #[tactic(auto, using(crate::proofs::Settled::converted_settled, crate::proofs::Settled::settled_converted, crate::proofs::Settled::settled_none))]
    pub(crate) fn convert(&mut self, tid: u64, epoch: u64)
        ensures { self.new ≡ converted_versions tid epoch self.old }
    {
        for place in 0..self.pending {
            let version = &mut self.items[place];
            version.created = version.created.converted(tid, epoch);
        }
        if !self.has_private() {
            self.pending = 0;
        }
    }

    // Takes the versions that are private to `tid` away. Time: that of `convert`, where one transaction after
    // another pushes versions.
    #[tactic(auto, using(crate::proofs::Settled::passed_more))]
    pub(crate) fn undo(&mut self, tid: u64)
        ensures { self.new ≡ undone_versions tid self.old }
    {
        let mut place = 0;
        while place < self.pending {
            if self.items[place].created.is_by(tid) {
                self.items.remove(place);
                self.pending -= 1;
            } else {
                place += 1;
            }
        }
    }

    // Drops all that are older than the newest one with an epoch at most `horizon`. Time: one step for each.
    #[tactic(auto, using(crate::proofs::Trimmed::trimmed_at, crate::proofs::Trimmed::trimmed_none, crate::proofs::Settled::settled_cut))]
    pub(crate) fn trim(&mut self, horizon: u64)
        ensures { self.new ≡ trimmed_versions horizon self.old }
    {
        if let Some(newest) = self.newest_past(horizon) {
            self.items.truncate(newest + 1);
            self.pending = self.pending.min(newest + 1);
        }
    }

    // Drops all. Time: one step for each.
    pub(crate) fn clear(&mut self)
        ensures { self.new ≡ [] }
    {
        self.items.clear();
        self.pending = 0;
    }

    // Whether one of them is private to some transaction.
    #[tactic(auto, using(crate::proofs::Settled::private_newest))]
    fn has_private(&self) -> bool
        ensures { result ≡ list_any (λ x. is_private x.created) self.now }
    {
        for place in 0..self.pending {
            if self.items[place].is_private() {
                return true;
            }
        }
        false
    }

    // The place of the newest one with an epoch at most `horizon`.
    fn newest_past(&self, horizon: u64) -> Option<usize>
        ensures { result ≡ position (λ x. counts x.created horizon Nobody) self.now }
    {
        self.items
            .iter()
            .position(|version| version.created.is_past(horizon))
    }
}
