//! The rows of a block: the 28 bytes of each entry, the newest first in memory.

ghost use Rattle.std.specs.Prelude.{◌≡◌, ℕ, ◌+◌, ◌*◌, ◌≤◌, List, length, map, Some};
ghost use Rattle.edge_log.specs.Entries.{Entry as LogEntry};
ghost use Rattle.edge_log.specs.Places.{entry_at};
ghost use Rattle.tel_entry.specs.Layouts.{entry_len, entry_bytes};
ghost use Rattle.block_layout.specs.Rows.{raw_entry};
ghost use Rattle.block_layout.specs.Blocks.{HoldsEntries};
ghost use Rattle.block_layout.specs.Reads.{raw_in};
ghost use Rattle.block_reading.specs.RowLists.{row_list};

use block_layout::{ROW, row_start};
use tel_entry::{Entry, read_entry};

/// The numbers of the entry at a place. Time: constant.
#[inline(always)]
pub fn entry_at(block: &[u8], place: u32) -> Entry
    requires { entry_len * (place + 1) ≤ length block.now }
    ensures { (start : ℕ) (xs : List LogEntry) (x : LogEntry) → HoldsEntries start xs block.now
        → entry_at xs place ≡ Some x → result ≡ raw_entry x }
{
    read_entry(&block[row_start(block, place)..])
}

/// The rows of the oldest `count` entries.
#[inline(always)]
pub fn rows_below(block: &[u8], count: u32) -> &[[u8; ROW]]
    requires { entry_len * count ≤ length block.now }
    ensures long { length result.now ≡ count }
    ensures rows { (start : ℕ) (xs : List LogEntry) → HoldsEntries start xs block.now → length xs ≡ count
        → result.now ≡ row_list xs }
{
    let (_, rows) = block.as_rchunks::<ROW>();
    &rows[rows.len() - count as usize..]
}

/// The numbers in a row.
#[inline(always)]
pub fn read_row(row: &[u8; ROW]) -> Entry
    ensures { result ≡ raw_in row.now }
{
    read_entry(row)
}
