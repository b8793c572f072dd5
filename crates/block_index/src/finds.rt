//! The newest entry of a destination that a reader sees, by an index.

ghost use Rattle.std.specs.Prelude.{◌≡◌, ℕ, ◌*◌, ◌≤◌, List, length};
ghost use Rattle.stamps.specs.Stamps.{Txn};
ghost use Rattle.edge_log.specs.Entries.{Entry as LogEntry};
ghost use Rattle.edge_log.specs.Places.{newest_place};
ghost use Rattle.tel_entry.specs.Layouts.{entry_len};
ghost use Rattle.place_index.specs.Chains.{HasSlots, GoesDown, places_of};
ghost use Rattle.block_layout.specs.Blocks.{HoldsEntries};
ghost use Rattle.block_index.specs.Noted.{IsIndexed};

use block_reading::entry_at;
use place_index::PlaceIndex;
use tel_entry::visible;

/// The place of the newest entry that leads to `d` and that the transaction `tid` sees at the epoch `read`; none exactly
/// where it sees no edge to `d`. Time: one step for each entry of the slot of `d` from the newest down to it.
pub fn find(block: &[u8], index: &PlaceIndex, d: u64, read: u64, tid: u64) -> Option<u32>
    requires slots { HasSlots index.now }
    requires chains { GoesDown index.now }
    requires rows { entry_len * places_of index.now ≤ length block.now }
    ensures { (start : ℕ) (xs : List LogEntry) → HoldsEntries start xs block.now → IsIndexed index.now xs
        → result ≡ newest_place xs d read (Txn tid) }
{
    let mut next = index.newest(d);
    while let Some(place) = next {
        let entry = entry_at(block, place);
        if entry.d == d && visible(entry.created, entry.ended, read, tid) {
            return next;
        }
        next = index.older(place);
    }
    None
}
