//! The newest entry of a destination that a reader sees.

ghost use Rattle.std.specs.Prelude.{◌≡◌, ℕ, ◌+◌, ◌*◌, ◌^◌, ◌<◌, ◌≤◌, false, List, length, None};
ghost use Rattle.stamps.specs.Stamps.{Reader, Txn};
ghost use Rattle.edge_log.specs.Entries.{Entry as LogEntry};
ghost use Rattle.edge_log.specs.Places.{newest_place};
ghost use Rattle.tel_entry.specs.declared.header.Header.{Header};
ghost use Rattle.tel_entry.specs.Layouts.{header_len, entry_len};
ghost use Rattle.edge_bloom.specs.Filters.{IsFilter};
ghost use Rattle.block_layout.specs.Sizes.{block_len, order_most, filter_len, bytes_at};
ghost use Rattle.block_layout.specs.Rows.{HaveRows};
ghost use Rattle.block_layout.specs.Blocks.{HoldsEntries, IsBlock};
ghost use Rattle.block_reading.specs.RowLists.{row_list};

use crate::rows::rows_below;
use block_layout::{FILTER_ORDER, HEADER, ROW, filter_len};
use edge_bloom::may_hold;
use tel_entry::{read_entry, visible};

/// So many entries are looked at without a question to the filter: they lie in a few lines of memory, and the filter in
/// one more, for which a look at them would have to wait.
const FEW: u32 = 8;

/// The place of the newest of `count` entries that leads to `d` and that the transaction `tid` sees at the
/// epoch `read`; none exactly where it sees no edge to `d`. Time: one step for each entry from the newest down to it.
pub fn search(block: &[u8], count: u32, d: u64, read: u64, tid: u64) -> Option<u32>
    requires { entry_len * count ≤ length block.now }
    ensures { (start : ℕ) (xs : List LogEntry) → HoldsEntries start xs block.now → length xs ≡ count
        → result ≡ newest_place xs d read (Txn tid) }
{
    newest_row(rows_below(block, count), d, read, tid)
}

/// The same in a block of an order, whose filter is asked first where there are more than a few entries. Time: constant
/// where there are few, or the filter holds not all three bits of `d`; else that of `search`.
#[inline(always)]
pub fn find(block: &[u8], order: u8, count: u32, d: u64, read: u64, tid: u64) -> Option<u32>
    requires small { order ≤ order_most }
    requires long { length block.now ≡ block_len order }
    requires rows { entry_len * count ≤ length block.now }
    ensures { (h : Header) (filter : List ℕ) (xs : List LogEntry) → IsBlock order h filter xs block.now
        → length xs ≡ count → result ≡ newest_place xs d read (Txn tid) }
{
    if count > FEW && !may_lead_to(block, order, d) {
        return None;
    }
    search(block, count, d, read, tid)
}

/// Whether an entry of a block of an order may lead to `d`, by its filter: a no says that none does, and a yes says
/// nothing. Time: constant.
#[inline(always)]
pub fn may_lead_to(block: &[u8], order: u8, d: u64) -> bool
    requires small { order ≤ order_most }
    requires long { length block.now ≡ block_len order }
    ensures { (h : Header) (filter : List ℕ) (xs : List LogEntry) → IsBlock order h filter xs block.now
        → result ≡ false → (e : ℕ) (who : Reader) → newest_place xs d e who ≡ None }
{
    order < FILTER_ORDER || may_hold(filter_of(block, order), d)
}

// The filter of a block that has one.
#[inline(always)]
fn filter_of(block: &[u8], order: u8) -> &[u8]
    requires least { 3 ≤ order }
    requires most { order ≤ order_most }
    requires long { length block.now ≡ block_len order }
    ensures is_filter { IsFilter result.now }
    ensures bytes { result.now ≡ bytes_at header_len (filter_len order) block.now }
{
    &block[HEADER..HEADER + filter_len(order)]
}

// The search, over rows.
fn newest_row(rows: &[[u8; ROW]], d: u64, read: u64, tid: u64) -> Option<u32>
    requires { length rows.now < 2 ^ 32 }
    ensures { (xs : List LogEntry) → HaveRows xs → rows.now ≡ row_list xs
        → result ≡ newest_place xs d read (Txn tid) }
{
    let mut place = rows.len() as u32;
    for row in rows {
        place -= 1;
        let entry = read_entry(row);
        if entry.d == d && visible(entry.created, entry.ended, read, tid) {
            return Some(place);
        }
    }
    None
}
