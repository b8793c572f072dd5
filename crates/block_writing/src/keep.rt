//! The entries that a snapshot may still see, copied into another block.

ghost use Rattle.std.specs.Prelude.{◌≡◌, ℕ, ◌+◌, ◌*◌, ◌^◌, ◌<◌, ◌≤◌, false, if◌then◌else◌, IsTrue, List, [], ◌∷◌, length, map};
ghost use Rattle.edge_log.specs.Entries.{Entry as LogEntry, kept, payload_sum};
ghost use Rattle.edge_log.specs.Places.{oldest};
ghost use Rattle.tel_entry.specs.declared.header.Header.{Header as LogHeader};
ghost use Rattle.tel_entry.specs.Layouts.{entry_len, header_len};
ghost use Rattle.edge_bloom.specs.Filters.{HasBitsOf};
ghost use Rattle.block_layout.specs.Sizes.{block_len, order_most, has_filter, props_start, bytes_at};
ghost use Rattle.block_layout.specs.Rows.{raw_entry, HasRow};
ghost use Rattle.block_layout.specs.Blocks.{HoldsEntries, IsBlock};
ghost use Rattle.block_writing.specs.Filters.{filter_in};
ghost use Rattle.block_writing.specs.Headers.{kept_header};
ghost use Rattle.block_writing.specs.Past.{is_past};
ghost use Rattle.block_writing.specs.Spelled.{spelled, Spells};

use crate::Fill;
use crate::append::put_entry;
use crate::begin::begin_with;
use crate::rows::read_row;
use block_layout::{flags_of, props_start};
use tel_entry::{Entry, Header, NEVER, read_header};

// The least private stamp.
const PRIVATE: u64 = 1 << 63;

/// How much of the oldest `count` entries no snapshot from `horizon` on is without: how many entries did not end at an
/// epoch at most `horizon`, and how many bytes their payloads have together. Time: one step for each of the `count`.
pub fn kept_size(from: &[u8], count: u32, horizon: u64) -> (u32, u64)
    requires { entry_len * count ≤ length from.now }
    ensures { (start : ℕ) (xs : List LogEntry) → HoldsEntries start xs from.now → count ≤ length xs
        → let entries = kept horizon (oldest count xs) in
        (length entries ≡ result.0) × (payload_sum entries ≡ result.1) }
{
    let mut entries = 0;
    let mut props = 0;
    for place in 0..count {
        let entry = read_row(from, place);
        let (more, len) = kept_part(entry.ended, entry.len, horizon);
        entries += more;
        props += u64::from(len);
    }
    (entries, props)
}

/// Begins the block that is to have the entries of another one that are kept, of which so many entries and payload
/// bytes are committed: the other's header, and a filter without bits, whatever the bytes were.
pub fn begin_kept(from: &[u8], to: &mut [u8], order: u8, entries: u32, props: u32, previous: u64)
    requires small { order ≤ order_most }
    requires long { length to.old ≡ block_len order }
    requires header { header_len ≤ length from.now }
    ensures begun { (from_order : ℕ) (h : LogHeader) (filter : List ℕ) (xs : List LogEntry)
        → IsBlock from_order h filter xs from.now
        → IsBlock order (kept_header order previous entries props h) (filter_in order to.new) [] to.new }
    ensures none { HasBitsOf (filter_in order to.new) [] }
{
    let header = read_header(from);
    let kept = Header {
        order,
        flags: flags_of(order),
        entries,
        props,
        previous,
        ..header
    };
    begin_with(to, &kept);
}

/// Copies the entries of a block but those that ended at an epoch at most `horizon` into a block without entries,
/// with their payloads and stamps, and the bits of their destinations alone. Time: one step for each entry, and for
/// each byte of the kept payloads.
pub fn copy_kept(from: &[u8], from_order: u8, fill: Fill, to: &mut [u8], order: u8, horizon: u64)
    requires orders { (from_order ≤ order_most) × (order ≤ order_most) }
    requires long { length to.old ≡ block_len order }
    requires spelled { Spells from_order fill from.now }
    requires room { let entries = kept horizon (spelled from_order fill from.now) in
        props_start order + payload_sum entries + entry_len * length entries ≤ length to.old }
    ensures copied { (h : LogHeader) (filter : List ℕ) → IsBlock order h filter [] to.old
        → IsBlock order h (filter_in order to.new) (kept horizon (spelled from_order fill from.now)) to.new }
    ensures filter { IsTrue (has_filter order) → HasBitsOf (filter_in order to.old) []
        → HasBitsOf (filter_in order to.new) (map (λ x. x.d) (kept horizon (spelled from_order fill from.now))) }
{
    let mut kept = Fill {
        entries: 0,
        props: 0,
    };
    let mut at = props_start(from_order);
    for place in 0..fill.entries {
        let entry = read_row(from, place);
        let p = payload_at(from, at, entry.len);
        kept = keep(to, order, kept, &entry, p, horizon);
        at += p.len();
    }
}

// Appends an entry, unless it ended at an epoch at most `horizon`, and answers how much is in the block then.
fn keep(to: &mut [u8], order: u8, fill: Fill, entry: &Entry, p: &[u8], horizon: u64) -> Fill
    requires small { order ≤ order_most }
    requires few { length to.old < 2 ^ 32 }
    requires len { entry.now.len ≡ length p.now }
    requires room { is_past horizon entry.now.ended ≡ false
        → props_start order + (fill.props + length p.now) + entry_len * (fill.entries + 1) ≤ length to.old }
    ensures entries { result.entries ≡ (if is_past horizon entry.now.ended then fill.entries else fill.entries + 1) }
    ensures props { result.props ≡ (if is_past horizon entry.now.ended then fill.props else fill.props + length p.now) }
    ensures kept { (h : LogHeader) (filter : List ℕ) (xs : List LogEntry) (x : LogEntry)
        → IsBlock order h filter xs to.old → length xs ≡ fill.entries → payload_sum xs ≡ fill.props
        → HasRow x → raw_entry x ≡ entry.now → x.p ≡ p.now
        → IsBlock order h (filter_in order to.new) (if is_past horizon entry.now.ended then xs else x ∷ xs) to.new }
    ensures bits { IsTrue (has_filter order) → (ds : List ℕ) → HasBitsOf (filter_in order to.old) ds
        → HasBitsOf (filter_in order to.new) (if is_past horizon entry.now.ended then ds else entry.now.d ∷ ds) }
{
    if is_past(entry.ended, horizon) {
        return fill;
    }
    put_entry(to, order, fill, entry, p);
    Fill {
        entries: fill.entries + 1,
        props: fill.props + entry.len,
    }
}

// What an entry counts for among the kept: one entry and its payload's length, or nothing.
fn kept_part(ended: u64, len: u32, horizon: u64) -> (u32, u32)
    ensures entries { result.0 ≡ (if is_past horizon ended then 0 else 1) }
    ensures few { result.0 ≤ 1 }
    ensures props { result.1 ≡ (if is_past horizon ended then 0 else len) }
    ensures short { result.1 < 2 ^ 32 }
{
    if is_past(ended, horizon) {
        (0, 0)
    } else {
        (1, len)
    }
}

// The `len` bytes from a place on.
#[inline(always)]
fn payload_at(from: &[u8], at: usize, len: u32) -> &[u8]
    requires { at + len ≤ length from.now }
    ensures bytes { result.now ≡ bytes_at at len from.now }
    ensures len { length result.now ≡ len }
{
    &from[at..at + len as usize]
}

// Whether a stamp is an epoch at most `horizon`.
fn is_past(stamp: u64, horizon: u64) -> bool
    ensures { result ≡ is_past horizon stamp }
{
    stamp != NEVER && stamp < PRIVATE && stamp <= horizon
}
