//! What a transaction ends in a block, and what its own end makes of its private stamps.

ghost use Rattle.std.specs.Prelude.{◌≡◌, ℕ, ◌+◌, ◌*◌, ◌<◌, ◌≤◌, ◌==◌, ◌&&◌, nat_le, nat_lt, if◌then◌else◌, List, All, length};
ghost use Rattle.edge_log.specs.Entries.{Entry as LogEntry, converted, cleared};
ghost use Rattle.edge_log.specs.Places.{ended_at, oldest};
ghost use Rattle.tel_entry.specs.declared.header.Header.{Header as LogHeader};
ghost use Rattle.tel_entry.specs.Layouts.{entry_len, header_len};
ghost use Rattle.tel_entry.specs.RawStamps.{private_from, stamp_of};
ghost use Rattle.block_layout.specs.Blocks.{IsBlock};
ghost use Rattle.block_writing.specs.Headers.{committed_header};
ghost use Rattle.block_writing.specs.Changed.{settled_entry, changed_where, is_among, AreReached};

use crate::Fill;
use crate::rows::{read_row, write_row};
use block_layout::row_start;
use byteorder::{BigEndian, ByteOrder};
use tel_entry::{Entry, Header, NEVER, private_stamp, read_header, write_header};

/// Ends the entry of a place, privately to the transaction `tid`. Time: constant.
#[inline(always)]
pub fn end_entry(block: &mut [u8], place: u32, tid: u64)
    requires there { entry_len * (place + 1) ≤ length block.old }
    requires number { tid < private_from }
    ensures { (order : ℕ) (h : LogHeader) (filter : List ℕ) (xs : List LogEntry) → IsBlock order h filter xs block.old
        → place < length xs → IsBlock order h filter (ended_at xs place tid) block.new }
{
    let at = row_start(block, place) + 16;
    BigEndian::write_u64(&mut block[at..at + 8], private_stamp(tid));
}

/// Commits what is private to the transaction `tid`, at this epoch, in a block with so much in it: the private
/// stamps become the epoch, and the header says that all is committed. The entries that the transaction made or
/// ended are to stand at the noted places, or from the place `from` on.
///
/// Time: one step for each noted place and for each entry from that place on, however many entries there are.
pub fn convert(block: &mut [u8], from: u32, fill: Fill, noted: &[u32], tid: u64, epoch: u64)
    requires from { from ≤ fill.entries }
    requires rows { entry_len * fill.entries ≤ length block.old }
    requires header { header_len ≤ length block.old }
    requires noted { All (λ n. n < fill.entries) noted.now }
    requires number { tid < private_from }
    requires epoch { (0 < epoch) × (epoch < private_from) }
    ensures { (order : ℕ) (h : LogHeader) (filter : List ℕ) (xs : List LogEntry) → IsBlock order h filter xs block.old
        → length xs ≡ fill.entries → AreReached tid noted.now from xs
        → IsBlock order (committed_header epoch fill.entries fill.props h) filter (converted tid epoch xs) block.new }
{
    settle_from(block, from, fill.entries, tid, epoch, epoch);
    settle_noted(block, noted, tid, epoch, epoch);
    commit_header(block, epoch, fill.entries, fill.props);
}

/// Takes the end stamps off that are private to the transaction `tid`, of the oldest entries, which are committed:
/// what stands there of newer ones counts as free then. The entries that the transaction ended are to stand at the
/// noted places, or from the place `from` on.
///
/// Time: one step for each noted place and for each committed entry from that place on.
pub fn undo(block: &mut [u8], from: u32, committed: u32, noted: &[u32], tid: u64)
    requires from { from ≤ committed }
    requires rows { entry_len * committed ≤ length block.old }
    requires noted { All (λ n. n < committed) noted.now }
    requires number { tid < private_from }
    ensures { (order : ℕ) (h : LogHeader) (filter : List ℕ) (xs : List LogEntry) → IsBlock order h filter xs block.old
        → committed ≤ length xs → AreReached tid noted.now from (oldest committed xs)
        → IsBlock order h filter (cleared tid (oldest committed xs)) block.new }
{
    let created = private_stamp(tid);
    settle_from(block, from, committed, tid, created, NEVER);
    settle_noted(block, noted, tid, created, NEVER);
}

/// Writes what a commit makes of the header. Time: constant.
pub fn commit_header(block: &mut [u8], epoch: u64, entries: u32, props: u32)
    requires { header_len ≤ length block.old }
    ensures { (order : ℕ) (h : LogHeader) (filter : List ℕ) (xs : List LogEntry) → IsBlock order h filter xs block.old
        → IsBlock order (committed_header epoch entries props h) filter xs block.new }
{
    let header = read_header(block);
    let committed = Header {
        epoch,
        entries,
        props,
        ..header
    };
    write_header(block, &committed);
}

// Replaces the transaction's private stamps, that of the beginning and that of the end, between two places.
fn settle_from(block: &mut [u8], from: u32, to: u32, tid: u64, created: u64, ended: u64)
    requires from { from ≤ to }
    requires rows { entry_len * to ≤ length block.old }
    requires number { tid < private_from }
    ensures { (order : ℕ) (h : LogHeader) (filter : List ℕ) (xs : List LogEntry) → IsBlock order h filter xs block.old
        → to ≤ length xs → IsBlock order h filter
        (changed_where (λ n. nat_le from n && nat_lt n to) (settled_entry tid (stamp_of created) (stamp_of ended)) xs)
        block.new }
{
    for place in from..to {
        settle_row(block, place, tid, created, ended);
    }
}

// Replaces the private stamps of the entries at these places.
fn settle_noted(block: &mut [u8], noted: &[u32], tid: u64, created: u64, ended: u64)
    requires rows { All (λ n. entry_len * (n + 1) ≤ length block.old) noted.now }
    requires number { tid < private_from }
    ensures { (order : ℕ) (h : LogHeader) (filter : List ℕ) (xs : List LogEntry) → IsBlock order h filter xs block.old
        → All (λ n. n < length xs) noted.now → IsBlock order h filter
        (changed_where (is_among noted.now) (settled_entry tid (stamp_of created) (stamp_of ended)) xs) block.new }
{
    for place in noted {
        settle_row(block, *place, tid, created, ended);
    }
}

// Replaces the private stamps of the entry of a place.
#[inline(always)]
fn settle_row(block: &mut [u8], place: u32, tid: u64, created: u64, ended: u64)
    requires there { entry_len * (place + 1) ≤ length block.old }
    requires number { tid < private_from }
    ensures { (order : ℕ) (h : LogHeader) (filter : List ℕ) (xs : List LogEntry) → IsBlock order h filter xs block.old
        → place < length xs → IsBlock order h filter
        (changed_where (λ n. place == n) (settled_entry tid (stamp_of created) (stamp_of ended)) xs) block.new }
{
    let private = private_stamp(tid);
    let entry = read_row(block, place);
    let settled = Entry {
        created: replaced(entry.created, private, created),
        ended: replaced(entry.ended, private, ended),
        ..entry
    };
    write_row(block, place, &settled);
}

// The number, where another is put in place of this one.
#[inline(always)]
fn replaced(stamp: u64, old: u64, new: u64) -> u64
    ensures { result ≡ (if stamp == old then new else stamp) }
{
    if stamp == old { new } else { stamp }
}
