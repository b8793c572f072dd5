//! Bytes and rows, read and written at their places.

ghost use Rattle.std.specs.Prelude.{◌≡◌, ℕ, ◌+◌, ◌*◌, ◌≤◌, List, length, Some};
ghost use Rattle.edge_log.specs.Entries.{Entry as LogEntry};
ghost use Rattle.edge_log.specs.Places.{entry_at};
ghost use Rattle.tel_entry.specs.Layouts.{entry_len, entry_bytes};
ghost use Rattle.block_layout.specs.Rows.{raw_entry};
ghost use Rattle.block_layout.specs.Blocks.{HoldsEntries};
ghost use Rattle.block_layout.specs.Reads.{row_start};
ghost use Rattle.block_layout.specs.Writes.{overwritten};

use block_layout::{ROW, row_start};
use tel_entry::{Entry, read_entry, write_entry};

/// Writes bytes from a place on. Time: one step for each.
#[inline(always)]
pub fn put(block: &mut [u8], at: usize, new: &[u8])
    requires { at + length new.now ≤ length block.old }
    ensures { block.new ≡ overwritten at new.now block.old }
{
    block[at..at + new.len()].copy_from_slice(new);
}

/// The numbers of the entry of a place. Time: constant.
#[inline(always)]
pub fn read_row(block: &[u8], place: u32) -> Entry
    requires { entry_len * (place + 1) ≤ length block.now }
    ensures { (start : ℕ) (xs : List LogEntry) (x : LogEntry) → HoldsEntries start xs block.now
        → entry_at xs place ≡ Some x → result ≡ raw_entry x }
{
    let at = row_start(block, place);
    read_entry(&block[at..])
}

/// Writes the numbers of the entry of a place. Time: constant.
#[inline(always)]
pub fn write_row(block: &mut [u8], place: u32, entry: &Entry)
    requires { entry_len * (place + 1) ≤ length block.old }
    ensures { block.new ≡ overwritten (row_start place block.old) (entry_bytes entry.now) block.old }
{
    let at = row_start(block, place);
    write_entry(&mut block[at..at + ROW], entry);
}
