//! An entry as a `PlainLog` keeps it.

ghost use Rattle.std.specs.Prelude.{◌≡◌, IfOk};
ghost use Rattle.stamps.specs.Stamps.{Nobody, Txn, counts, is_private};
ghost use Rattle.edge_log.specs.Entries.{visible, entry_size, pair_of};
ghost use Rattle.edge_log.specs.Slots.{entry_of, converted_slot, cleared_slot, is_private_to};

use crate::stored::Stored;
use graph_model::{NoMemory, Pair, Payload};
use stamps::Stamp;
use std::alloc::Global;

/// An entry of a log.
#[derive(Drop)]
pub struct Slot {
    pub d: u64,
    pub payload: Stored,
    pub created: Stamp,
    pub ended: Stamp,
}

impl Slot {
    /// What an entry takes beside its payload.
    pub const HEADER: u64 = 28;

    /// Whether the transaction `tid` sees it at the epoch `read`.
    pub fn is_visible(&self, read: u64, tid: u64) -> bool
        ensures { result ≡ visible (entry_of self.now) read (Txn tid) }
    {
        self.created.counts(read, tid) && !self.ended.counts(read, tid)
    }

    /// Whether no snapshot from `horizon` on sees it any more.
    pub fn is_past(&self, horizon: u64) -> bool
        ensures { result ≡ counts self.now.ended horizon Nobody }
    {
        self.ended.is_past(horizon)
    }

    /// Its size, in bytes of a block.
    pub fn size(&self) -> u64
        ensures { result ≡ entry_size (entry_of self.now) }
    {
        Slot::HEADER + self.payload.as_slice().len() as u64
    }

    /// Commits what is private to `tid`.
    pub fn convert(&mut self, tid: u64, epoch: u64)
        ensures { self.new ≡ converted_slot tid epoch self.old }
    {
        self.created = self.created.converted(tid, epoch);
        self.ended = self.ended.converted(tid, epoch);
    }

    /// Whether the transaction `of`, which has not committed, made it or ended it; whether any did, where
    /// none is named.
    pub fn is_private_to(&self, of: Option<u64>) -> bool
        ensures { result ≡ is_private_to of self.now }
    {
        match of {
            Some(tid) => self.created.is_by(tid) || self.ended.is_by(tid),
            None => is_private(self.created) || is_private(self.ended),
        }
    }

    /// Takes the end stamp off where it is private to `tid`.
    pub fn clear_end(&mut self, tid: u64)
        ensures { self.new ≡ cleared_slot tid self.old }
    {
        self.ended = self.ended.cleared(tid);
    }

    /// A copy of its payload. Time: one step for each byte.
    pub fn payload(&self, alloc: Global) -> Result<Payload, NoMemory>
        ensures { IfOk result (λ p. p ≡ (entry_of self.now).p) }
    {
        Payload::from_slice(alloc, self.payload.as_slice())
    }

    /// The edge. Time: one step for each byte.
    pub fn pair(&self, alloc: Global) -> Result<Pair, NoMemory>
        ensures { IfOk result (λ pair. pair ≡ pair_of (entry_of self.now)) }
    {
        Ok(Pair {
            d: self.d,
            p: self.payload(alloc)?,
        })
    }

    /// The same entry once more. Time: one step for each byte.
    pub fn copy(&self) -> Result<Slot, NoMemory>
        ensures { IfOk result (λ slot. slot ≡ self.now) }
    {
        Ok(Slot {
            d: self.d,
            payload: self.payload.copy()?,
            created: self.created,
            ended: self.ended,
        })
    }
}

fn is_private(stamp: Stamp) -> bool
    ensures { result ≡ is_private stamp }
{
    matches!(stamp, Stamp::By(_))
}
