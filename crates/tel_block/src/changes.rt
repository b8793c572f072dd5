//! What changes in a log, given the bytes of its block.

ghost use Rattle.std.specs.Prelude.{◌≡◌, ◌+◌, ◌*◌, ◌<◌, ◌≤◌, ℕ, List, length, All, IsSomeAnd};
ghost use Rattle.graph_model.specs.Change.{edge_size};
ghost use Rattle.stamps.specs.declared.stamp.Stamp.TheVariants.{Never};
ghost use Rattle.edge_log.specs.Entries.{Entry as LogEntry, converted, cleared};
ghost use Rattle.edge_log.specs.Places.{entry_at, oldest};
ghost use Rattle.edge_log.specs.Contents.{with_appended, with_ended, with_converted, with_undone};
ghost use Rattle.tel_entry.specs.declared.header.Header.{Header as LogHeader};
ghost use Rattle.tel_entry.specs.Layouts.{entry_len, header_len};
ghost use Rattle.tel_entry.specs.RawStamps.{private_from};
ghost use Rattle.block_layout.specs.Blocks.{IsBlock};
ghost use Rattle.block_writing.specs.Headers.{committed_header};
ghost use Rattle.block_writing.specs.Changed.{AreReached};
ghost use Rattle.tel_block.specs.Logs.{content_in, limit_of, spare_of, MayEnd, IsLog};

use crate::TelBlock;
use crate::private::{PRIVATE, has_private};
use block_writing::{Fill, append_entry, commit_header, convert, end_entry, undo};
use graph_model::Payload;

impl TelBlock {
    /// Appends an edge that is private to the transaction `tid`.
    pub(crate) fn append_in(&mut self, bytes: &mut [u8], tid: u64, d: u64, p: &Payload)
        requires is_log { IsLog self.old bytes.old }
        requires has_room { edge_size p.now ≤ spare_of self.old }
        requires number { tid < private_from }
        ensures is_log { IsLog self.new bytes.new }
        ensures appended { content_in self.new bytes.new ≡ with_appended tid d p.now (content_in self.old bytes.old) }
        ensures block { self.new.block ≡ self.old.block }
        ensures limit { limit_of self.new ≡ limit_of self.old }
        ensures may_end { MayEnd self.old → MayEnd self.new }
    {
        let order = self.block.order() as u8;
        self.index.push(d, self.fill.props);
        append_entry(bytes, order, self.fill, tid, d, p.as_slice());
        self.fill = Fill {
            entries: self.fill.entries + 1,
            props: self.fill.props + p.len() as u32,
        };
    }

    /// Ends the entry at a place, privately to the transaction `tid`, and notes the place.
    pub(crate) fn end_in(&mut self, bytes: &mut [u8], place: u32, tid: u64)
        requires is_log { IsLog self.old bytes.old }
        requires live { IsSomeAnd (entry_at (content_in self.old bytes.old).entries place)
            (λ entry. entry.ended ≡ Never) }
        requires may_end { MayEnd self.old }
        requires number { tid < private_from }
        ensures is_log { IsLog self.new bytes.new }
        ensures ended { content_in self.new bytes.new ≡ with_ended place tid (content_in self.old bytes.old) }
        ensures block { self.new.block ≡ self.old.block }
        ensures limit { limit_of self.new ≡ limit_of self.old }
        ensures room { spare_of self.new ≡ spare_of self.old }
    {
        end_entry(bytes, place, tid);
        if place < self.settled {
            self.noted.push_reserved(place);
        }
    }

    /// Commits what is private to the transaction `tid`, at this epoch.
    pub(crate) fn convert_in(&mut self, bytes: &mut [u8], tid: u64, epoch: u64)
        requires is_log { IsLog self.old bytes.old }
        requires epoch { (0 < epoch) × (epoch < private_from) }
        ensures is_log { IsLog self.new bytes.new }
        ensures converted { content_in self.new bytes.new ≡ with_converted tid epoch (content_in self.old bytes.old) }
        ensures block { self.new.block ≡ self.old.block }
        ensures limit { limit_of self.new ≡ limit_of self.old }
    {
        convert_bytes(bytes, self.settled, self.fill, &self.noted, tid, epoch);
        self.committed = self.fill;
        self.epoch = epoch;
        self.latest = self.latest.max(epoch);
        self.settle(bytes);
    }

    /// Gives up what is private to the transaction `tid`.
    pub(crate) fn undo_in(&mut self, bytes: &mut [u8], tid: u64)
        requires { IsLog self.old bytes.old }
        ensures is_log { IsLog self.new bytes.new }
        ensures undone { content_in self.new bytes.new ≡ with_undone tid (content_in self.old bytes.old) }
        ensures block { self.new.block ≡ self.old.block }
        ensures limit { limit_of self.new ≡ limit_of self.old }
    {
        self.index
            .take_back(bytes, self.committed.entries, self.fill.entries);
        undo_bytes(
            bytes,
            self.settled,
            self.committed.entries,
            &self.noted,
            tid,
        );
        self.fill = self.committed;
        self.settle(bytes);
    }

    // Takes the notes away where nothing is private any more.
    pub(crate) fn settle(&mut self, bytes: &[u8])
        requires { IsLog self.old bytes.now }
        ensures is_log { IsLog self.new bytes.now }
        ensures content { content_in self.new bytes.now ≡ content_in self.old bytes.now }
        ensures block { self.new.block ≡ self.old.block }
        ensures limit { limit_of self.new ≡ limit_of self.old }
    {
        if !has_private(bytes, &self.noted, self.settled, self.fill.entries, None) {
            self.noted.clear();
            self.settled = self.committed.entries;
        }
    }
}

// Commits in the bytes of a block, also for a number that no stamp has.
fn convert_bytes(bytes: &mut [u8], from: u32, fill: Fill, noted: &[u32], tid: u64, epoch: u64)
    requires from { from ≤ fill.entries }
    requires rows { entry_len * fill.entries ≤ length bytes.old }
    requires header { header_len ≤ length bytes.old }
    requires noted { All (λ n. n < fill.entries) noted.now }
    requires epoch { (0 < epoch) × (epoch < private_from) }
    ensures { (order : ℕ) (h : LogHeader) (filter : List ℕ) (xs : List LogEntry) → IsBlock order h filter xs bytes.old
        → length xs ≡ fill.entries → AreReached tid noted.now from xs
        → IsBlock order (committed_header epoch fill.entries fill.props h) filter (converted tid epoch xs) bytes.new }
{
    if tid < PRIVATE {
        convert(bytes, from, fill, noted, tid, epoch);
    } else {
        commit_header(bytes, epoch, fill.entries, fill.props);
    }
}

// Takes private end stamps off in the bytes of a block, also for a number that no stamp has.
fn undo_bytes(bytes: &mut [u8], from: u32, committed: u32, noted: &[u32], tid: u64)
    requires from { from ≤ committed }
    requires rows { entry_len * committed ≤ length bytes.old }
    requires noted { All (λ n. n < committed) noted.now }
    ensures { (order : ℕ) (h : LogHeader) (filter : List ℕ) (xs : List LogEntry) → IsBlock order h filter xs bytes.old
        → committed ≤ length xs → AreReached tid noted.now from (oldest committed xs)
        → IsBlock order h filter (cleared tid (oldest committed xs)) bytes.new }
{
    if tid < PRIVATE {
        undo(bytes, from, committed, noted, tid);
    }
}
