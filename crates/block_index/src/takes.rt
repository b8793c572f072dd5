//! An index shortened with the entries of a block.

ghost use Rattle.std.specs.Prelude.{◌≡◌, ℕ, ◌*◌, ◌≤◌, List, length};
ghost use Rattle.edge_log.specs.Entries.{Entry as LogEntry};
ghost use Rattle.edge_log.specs.Places.{oldest};
ghost use Rattle.tel_entry.specs.Layouts.{entry_len};
ghost use Rattle.place_index.specs.Chains.{HasSlots, room_of};
ghost use Rattle.block_layout.specs.Blocks.{HoldsEntries};
ghost use Rattle.block_index.specs.Noted.{IsIndexed};

use block_reading::entry_at;
use place_index::PlaceIndex;

/// Takes the entries from the place `from` on out of an index of the `count` entries of a block. Time: one step for each
/// of these.
pub fn take_back(index: &mut PlaceIndex, block: &[u8], from: u32, count: u32)
    requires slots { HasSlots index.old }
    requires from { from ≤ count }
    requires rows { entry_len * count ≤ length block.now }
    ensures indexed { (start : ℕ) (xs : List LogEntry) → HoldsEntries start xs block.now → length xs ≡ count
        → IsIndexed index.old xs → IsIndexed index.new (oldest from xs) }
    ensures room { room_of index.new ≡ room_of index.old }
{
    let mut place = count;
    while place > from {
        place -= 1;
        index.pop(entry_at(block, place).d);
    }
}
