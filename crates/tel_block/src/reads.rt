//! What is read of a log, given the bytes of its block.

ghost use Rattle.std.specs.Prelude.{◌≡◌, ◌<◌, length, if◌then◌else◌, List, ℕ, IfOk, IsTrue, IsSome, IsSomeAnd};
ghost use Rattle.stamps.specs.Stamps.{Txn};
ghost use Rattle.edge_log.specs.Entries.{has_entry_of};
ghost use Rattle.edge_log.specs.Places.{newest_place, entry_at, oldest, IsPlaceIn};
ghost use Rattle.edge_log.specs.Parts.{IsPart};
ghost use Rattle.block_reading.specs.Past.{ArePast};
ghost use Rattle.tel_block.specs.Logs.{content_in, old_content_in, IsLog, IsOld};

use crate::private::has_private;
use crate::{OldBlock, TelBlock};
use block_layout::props_start;
use block_reading::part_of_past;
use edge_log::{Part, Place};
use graph_model::{NoMemory, Payload};
use std::alloc::Global;

impl TelBlock {
    /// The log as one that takes no further entry.
    pub(crate) fn retired(self) -> OldBlock
        ensures block { result.block ≡ self.block }
        ensures stands { (bytes : List ℕ) → IsLog self bytes → IsOld result bytes }
        ensures content { (bytes : List ℕ) → old_content_in result bytes ≡ content_in self bytes }
    {
        OldBlock {
            block: self.block,
            fill: self.fill,
            committed: self.committed.entries,
            epoch: self.epoch,
        }
    }

    /// Where a scan begins.
    pub(crate) fn first_place(&self, own: bool) -> Place
        ensures place { (bytes : List ℕ) → IsLog self.now bytes → IsPlaceIn (content_in self.now bytes).entries result }
        ensures below { (bytes : List ℕ) → IsLog self.now bytes
            → let content = content_in self.now bytes in
            result.below ≡ (if own then length content.entries else content.committed) }
    {
        if own {
            Place {
                below: self.fill.entries,
                props: self.fill.props,
            }
        } else {
            Place {
                below: self.committed.entries,
                props: self.committed.props,
            }
        }
    }

    /// The place of the newest entry of `d` that is seen.
    pub(crate) fn find_in(&self, bytes: &[u8], d: u64, read: u64, tid: u64) -> Option<u32>
        requires { IsLog self.now bytes.now }
        ensures { result ≡ newest_place (content_in self.now bytes.now).entries d read (Txn tid) }
    {
        let order = self.block.order() as u8;
        self.index
            .find(bytes, order, self.fill.entries, d, read, tid)
    }

    /// A copy of the payload of the entry at a place. Time: constant with an index; else one step for each newer entry.
    pub(crate) fn payload_in(
        &self,
        alloc: Global,
        bytes: &[u8],
        place: u32,
    ) -> Result<Payload, NoMemory>
        requires is_log { IsLog self.now bytes.now }
        requires there { IsSome (entry_at (content_in self.now bytes.now).entries place) }
        ensures { IfOk result (λ p. IsSomeAnd (entry_at (content_in self.now bytes.now).entries place) (λ entry.
            p ≡ entry.p)) }
    {
        let start = props_start(self.block.order() as u8);
        let from = self.place_above(bytes, place);
        let payload = block_reading::payload(bytes, start, from, place);
        Payload::from_slice(alloc, payload)
    }

    // A place above that of an entry: with an index the one right above it, else that of the newest entry. Time: constant.
    fn place_above(&self, bytes: &[u8], place: u32) -> Place
        requires is_log { IsLog self.now bytes.now }
        requires there { IsSome (entry_at (content_in self.now bytes.now).entries place) }
        ensures above { place < result.below }
        ensures place { IsPlaceIn (content_in self.now bytes.now).entries result }
    {
        match self.index.place_above(bytes, self.fill.entries, place) {
            Some(above) => above,
            None => self.first_place(true),
        }
    }

    /// A part of a scan, from a place downwards. Where all below it is of the past for the reader, no stamp is read but
    /// those of ends.
    pub(crate) fn part_in(
        &self,
        bytes: &[u8],
        place: Place,
        read: u64,
        tid: u64,
        out: &mut Part,
    ) -> Option<Place>
        requires is_log { IsLog self.now bytes.now }
        requires place { IsPlaceIn (content_in self.now bytes.now).entries place }
        ensures { IsPart (content_in self.now bytes.now).entries place.below result read (Txn tid) out.old out.new }
    {
        let start = props_start(self.block.order() as u8);
        if self.is_past_below(place.below, read) {
            part_of_past(bytes, start, place, read, tid, out)
        } else {
            block_reading::part(bytes, start, place, read, tid, out)
        }
    }

    // Whether the entries below a place are known to be of the past at an epoch: no stamp of them is private, and none
    // later. Time: constant.
    fn is_past_below(&self, below: u32, read: u64) -> bool
        ensures { (bytes : List ℕ) → IsLog self.now bytes → IsTrue result
            → ArePast read (oldest below (content_in self.now bytes).entries) }
    {
        let noted: &[u32] = &self.noted;
        noted.is_empty() && below <= self.settled && self.latest <= read
    }

    /// Whether an entry was made or ended by the transaction `tid`, which has not committed.
    pub(crate) fn has_entry_in(&self, bytes: &[u8], tid: u64) -> bool
        requires { IsLog self.now bytes.now }
        ensures { result ≡ has_entry_of tid (content_in self.now bytes.now).entries }
    {
        has_private(
            bytes,
            &self.noted,
            self.settled,
            self.fill.entries,
            Some(tid),
        )
    }
}

impl OldBlock {
    /// A part of a scan, from a place downwards.
    pub(crate) fn part_in(
        &self,
        bytes: &[u8],
        place: Place,
        read: u64,
        tid: u64,
        out: &mut Part,
    ) -> Option<Place>
        requires is_old { IsOld self.now bytes.now }
        requires place { IsPlaceIn (old_content_in self.now bytes.now).entries place }
        ensures { IsPart (old_content_in self.now bytes.now).entries place.below result read (Txn tid) out.old out.new }
    {
        let start = props_start(self.block.order() as u8);
        block_reading::part(bytes, start, place, read, tid, out)
    }
}
