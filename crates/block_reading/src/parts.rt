//! Parts of a scan, from a place in a block downwards.

ghost use Rattle.std.specs.Prelude.{◌≡◌, ℕ, ◌+◌, ◌*◌, ◌^◌, ◌<◌, ◌≤◌, min, IsTrue, List, ◌++◌, length, take, Some};
ghost use Rattle.stamps.specs.Stamps.{Txn};
ghost use Rattle.edge_log.specs.Entries.{Entry as LogEntry};
ghost use Rattle.edge_log.specs.Places.{entry_at, IsPlaceIn};
ghost use Rattle.edge_log.specs.Parts.{IsPart, part_most};
ghost use Rattle.tel_entry.specs.Layouts.{entry_len};
ghost use Rattle.tel_entry.specs.RawStamps.{raw_visible};
ghost use Rattle.block_layout.specs.Blocks.{HoldsEntries};
ghost use Rattle.block_reading.specs.RowLists.{row_list, lens_of, shown_in};
ghost use Rattle.block_reading.specs.Places.{entries_below, HoldsBelow, HasPlace, place_at};
ghost use Rattle.block_reading.specs.Past.{ArePast, IsPastRow, ArePastRows};

use crate::rows::{entry_at, read_row, rows_below};
use block_layout::ROW;
use edge_log::{Part, Place};
use tel_entry::{Entry, never_ended, visible};

/// How many entries are looked at for one part.
const LOOKS: usize = 64;

/// Takes a part of a scan from a place downwards into `out`, and answers where to go on; none where no entry is
/// left. What `out` held is lost. It looks at 64 entries at most. The payloads begin at the byte `start`
/// (`block_layout::props_start`). Time: two steps for each of these entries, or one where no entry below the place has a
/// payload, and one copy of all their payloads, or one for each that is visible where they do not fit together.
pub fn part(
    block: &[u8],
    start: usize,
    place: Place,
    read: u64,
    tid: u64,
    out: &mut Part,
) -> Option<Place>
    requires { HasPlace start place block.now }
    ensures { (xs : List LogEntry) → HoldsEntries start xs block.now → IsPlaceIn xs place
        → IsPart xs place.below result read (Txn tid) out.old out.new }
{
    part_below(block, start, place, read, tid, false, out)
}

/// The same part, where each entry below the place began at an epoch at most `read`, and ended at such an epoch where it
/// has ended: every reader at `read` sees those that have not ended, and no other stamp is read.
pub fn part_of_past(
    block: &[u8],
    start: usize,
    place: Place,
    read: u64,
    tid: u64,
    out: &mut Part,
) -> Option<Place>
    requires place { HasPlace start place block.now }
    requires past { ArePast read (entries_below start place block.now) }
    ensures { (xs : List LogEntry) → HoldsEntries start xs block.now → IsPlaceIn xs place
        → IsPart xs place.below result read (Txn tid) out.old out.new }
{
    part_below(block, start, place, read, tid, true, out)
}

/// The payload of the entry at a place, by a place above it, where the payloads begin at the byte `start`.
/// Time: one step for each entry between them.
pub fn payload(block: &[u8], start: usize, from: Place, place: u32) -> &[u8]
    requires above { place < from.below }
    requires holds { HasPlace start from block.now }
    ensures { (xs : List LogEntry) (x : LogEntry) → HoldsEntries start xs block.now → IsPlaceIn xs from
        → entry_at xs place ≡ Some x → result.now ≡ x.p }
{
    let newer = &rows_below(block, from.below)[..(from.below - place - 1) as usize];
    let end = from.props - payload_len(newer);
    let len = entry_at(block, place).len;
    &block[start + (end - len) as usize..start + end as usize]
}

// A part of the entries below a place, all of the past at `read` where `past` says so. How much their payloads take is
// known before anything is copied: so it is known whether one copy fits.
#[inline(always)]
fn part_below(
    block: &[u8],
    start: usize,
    place: Place,
    read: u64,
    tid: u64,
    past: bool,
    out: &mut Part,
) -> Option<Place>
    requires holds { HoldsBelow start place block.now }
    requires stamps { IsTrue past → ArePast read (entries_below start place block.now) }
    ensures { IsPart (entries_below start place block.now) place.below result read (Txn tid) out.old out.new }
{
    let rows = looked_at(block, place);
    let len = payload_len_below(place, rows);
    if out.fits_range(len as usize) {
        let below = place.below - rows.len() as u32;
        let props = place.props - len;
        out.take_range(&block[start + props as usize..start + place.props as usize]);
        take_rows(rows, place.props == 0, read, tid, past, out);
        next_place(below, props)
    } else {
        push_rows(block, start, place, read, tid, out)
    }
}

// The rows that one part looks at.
#[inline(always)]
fn looked_at(block: &[u8], place: Place) -> &[[u8; ROW]]
    requires { entry_len * place.below ≤ length block.now }
    ensures long { length result.now ≡ min place.below part_most }
    ensures rows { (start : ℕ) (xs : List LogEntry) → HoldsEntries start xs block.now → length xs ≡ place.below
        → result.now ≡ row_list (take (min place.below part_most) xs) }
{
    let rows = rows_below(block, place.below);
    &rows[..rows.len().min(LOOKS)]
}

// The sum of the lengths in rows.
#[inline(always)]
fn payload_len(rows: &[[u8; ROW]]) -> u32
    requires { lens_of rows.now < 2 ^ 32 }
    ensures { result ≡ lens_of rows.now }
{
    let mut len = 0;
    for row in rows {
        len += read_row(row).len;
    }
    len
}

// The sum of the lengths in rows below a place. Where no entry below it has a payload no row is read for that.
#[inline(always)]
fn payload_len_below(place: Place, rows: &[[u8; ROW]]) -> u32
    requires within { lens_of rows.now ≤ place.props }
    ensures { result ≡ lens_of rows.now }
{
    if place.props == 0 {
        0
    } else {
        payload_len(rows)
    }
}

// Takes the edges of rows whose payloads are the range of the part: none of them has one where `bare` says so, and all are
// of the past at `read` where `past` does. Each of the two has a loop of its own.
#[inline(always)]
fn take_rows(rows: &[[u8; ROW]], bare: bool, read: u64, tid: u64, past: bool, out: &mut Part)
    requires few { length out.old.pairs + length rows.now ≤ part_most }
    requires within { lens_of rows.now ≤ length out.old.range }
    requires lens { IsTrue bare → lens_of rows.now ≡ 0 }
    requires stamps { IsTrue past → ArePastRows read rows.now }
    ensures pairs { out.new.pairs ≡ out.old.pairs ++ shown_in rows.now out.old.range read (Txn tid) }
    ensures bytes { out.new.bytes ≡ out.old.bytes }
{
    if bare {
        take_each(rows, true, read, tid, past, out);
    } else {
        take_each(rows, false, read, tid, past, out);
    }
}

// The same, in one loop.
#[inline(always)]
fn take_each(rows: &[[u8; ROW]], bare: bool, read: u64, tid: u64, past: bool, out: &mut Part)
    requires few { length out.old.pairs + length rows.now ≤ part_most }
    requires within { lens_of rows.now ≤ length out.old.range }
    requires lens { IsTrue bare → lens_of rows.now ≡ 0 }
    requires stamps { IsTrue past → ArePastRows read rows.now }
    ensures pairs { out.new.pairs ≡ out.old.pairs ++ shown_in rows.now out.old.range read (Txn tid) }
    ensures bytes { out.new.bytes ≡ out.old.bytes }
{
    for row in rows {
        let entry = read_row(row);
        let len = len_of(entry, bare);
        let shown = is_seen(entry, read, tid, past);
        out.take_next(entry.d, len, shown);
    }
}

// The length of the payload of an entry, which has none where `bare` says so.
#[inline(always)]
fn len_of(entry: Entry, bare: bool) -> usize
    requires { IsTrue bare → entry.len ≡ 0 }
    ensures { result ≡ entry.len }
{
    if bare { 0 } else { entry.len as usize }
}

// Whether an entry is seen, which is of the past at `read` where `past` says so.
#[inline(always)]
fn is_seen(entry: Entry, read: u64, tid: u64, past: bool) -> bool
    requires { IsTrue past → IsPastRow read entry }
    ensures { result ≡ raw_visible entry.created entry.ended read (Txn tid) }
{
    if past {
        never_ended(entry.ended)
    } else {
        visible(entry.created, entry.ended, read, tid)
    }
}

// Where a scan goes on.
#[inline(always)]
fn next_place(below: u32, props: u32) -> Option<Place>
    ensures { result ≡ place_at below props }
{
    if below == 0 {
        None
    } else {
        Some(Place { below, props })
    }
}

// A part edge by edge, where the payloads of all entries that are looked at do not fit together.
fn push_rows(
    block: &[u8],
    start: usize,
    place: Place,
    read: u64,
    tid: u64,
    out: &mut Part,
) -> Option<Place>
    requires { HoldsBelow start place block.now }
    ensures { IsPart (entries_below start place block.now) place.below result read (Txn tid) out.old out.new }
{
    let rows = looked_at(block, place);
    out.clear();
    let Place {
        mut below,
        mut props,
    } = place;
    for row in rows {
        let entry = read_row(row);
        let low = props - entry.len;
        if visible(entry.created, entry.ended, read, tid) {
            let payload = &block[start + low as usize..start + props as usize];
            if !out.has_room(payload.len()) {
                return Some(Place { below, props });
            }
            out.push(entry.d, payload);
        }
        below -= 1;
        props = low;
    }
    next_place(below, props)
}
