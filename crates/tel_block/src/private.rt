//! Private stamps in the bytes of a block.

ghost use Rattle.std.specs.Prelude.{◌≡◌, ℕ, ◌+◌, ◌*◌, ◌<◌, ◌≤◌, List, length, All, Some};
ghost use Rattle.std.specs.List.{list_any};
ghost use Rattle.stamps.specs.declared.stamp.Stamp.{Stamp};
ghost use Rattle.edge_log.specs.Entries.{Entry as LogEntry};
ghost use Rattle.edge_log.specs.Places.{entry_at};
ghost use Rattle.tel_entry.specs.Layouts.{entry_len};
ghost use Rattle.tel_entry.specs.RawStamps.{raw_of, HasRaw};
ghost use Rattle.block_layout.specs.Blocks.{HoldsEntries};
ghost use Rattle.tel_block.specs.Logs.{is_stamp_to, is_private_to, IsReached};

use block_reading::entry_at;

/// The least private stamp.
pub const PRIVATE: u64 = 1 << 63;

/// Whether an entry has a stamp that is private to the transaction `of`, or to any where none is named. All that are
/// private stand at the noted places or from `from` on. Time: one step for each of these.
pub fn has_private(bytes: &[u8], noted: &[u32], from: u32, count: u32, of: Option<u64>) -> bool
    requires from { from ≤ count }
    requires rows { entry_len * count ≤ length bytes.now }
    requires noted { All (λ n. n < from) noted.now }
    ensures { (start : ℕ) (xs : List LogEntry) → HoldsEntries start xs bytes.now → length xs ≡ count
        → IsReached noted.now from xs → result ≡ list_any (is_private_to of) xs }
{
    for place in noted {
        if is_private_at(bytes, *place, of) {
            return true;
        }
    }
    for place in from..count {
        if is_private_at(bytes, place, of) {
            return true;
        }
    }
    false
}

/// Whether the entry at a place has one. Time: constant.
pub fn is_private_at(bytes: &[u8], place: u32, of: Option<u64>) -> bool
    requires { entry_len * (place + 1) ≤ length bytes.now }
    ensures { (start : ℕ) (xs : List LogEntry) (x : LogEntry) → HoldsEntries start xs bytes.now
        → entry_at xs place ≡ Some x → result ≡ is_private_to of x }
{
    let entry = entry_at(bytes, place);
    let created = is_stamp_to(entry.created, of);
    let ended = is_stamp_to(entry.ended, of);
    created || ended
}

// Whether a stamp is private to a transaction, or to any.
fn is_stamp_to(stamp: u64, of: Option<u64>) -> bool
    ensures { (s : Stamp) → HasRaw s → stamp ≡ raw_of s → result ≡ is_stamp_to of s }
{
    match of {
        None => stamp >= PRIVATE,
        Some(tid) => stamp >= PRIVATE && stamp - PRIVATE == tid,
    }
}
