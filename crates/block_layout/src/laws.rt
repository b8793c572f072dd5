//! Laws of blocks, which hold of the definitions. The crates above cite them.

ghost use Rattle.std.specs.Prelude.{◌≡◌, ℕ, ◌+◌, ◌-◌, ◌*◌, ◌<◌, ◌≤◌, ◌↔◌, IsTrue, List, [], ◌∷◌, ◌++◌, length, take, drop, map, Some};
ghost use Rattle.stamps.specs.declared.stamp.Stamp.{Stamp};
ghost use Rattle.edge_log.specs.Entries.{Entry, payload_sum};
ghost use Rattle.edge_log.specs.Places.{entry_at, oldest};
ghost use Rattle.tel_entry.specs.declared.header.Header.{Header};
ghost use Rattle.tel_entry.specs.Layouts.{header_len, entry_len, header_bytes, entry_bytes, u64_bytes, HeaderFits, EntryFits};
ghost use Rattle.tel_entry.specs.RawStamps.{raw_of, HasRaw};
ghost use Rattle.edge_bloom.specs.Filters.{IsFilter, HasBitsOf};
ghost use Rattle.block_layout.specs.Sizes.{block_len, order_most, has_filter, filter_len, flags_of, props_start, entries_most, bytes_at};
ghost use Rattle.block_layout.specs.Rows.{raw_entry, HasRow, rows_of};
ghost use Rattle.block_layout.specs.Blocks.{HoldsEntries, KnowsAll, IsBlock};
ghost use Rattle.block_layout.specs.Reads.{entries_in, row_start};
ghost use Rattle.block_layout.specs.Writes.{overwritten, created_as, ended_as};

/// A block of each order has room for its header and its filter, and n entries without payloads fit into what
/// is left exactly where n is at most `entries_most`; the first nine orders, one by one.
pub fn blocks_have_room_for_these_entries()
    ensures start { (order : ℕ) → props_start order ≤ block_len order }
    ensures most { (order n : ℕ) → (props_start order + entry_len * n ≤ block_len order) ↔ (n ≤ entries_most order) }
    ensures table { map entries_most (0 ∷ 1 ∷ 2 ∷ 3 ∷ 4 ∷ 5 ∷ 6 ∷ 7 ∷ 8 ∷ [])
        ≡ 1 ∷ 3 ∷ 7 ∷ 15 ∷ 33 ∷ 67 ∷ 135 ∷ 273 ∷ 547 ∷ [] }
{}

/// Bytes that hold entries are read back as these.
pub fn entries_are_read_back()
    ensures { (start : ℕ) (xs : List Entry) (bytes : List ℕ) → HoldsEntries start xs bytes
        → entries_in start (length xs) (payload_sum xs) bytes ≡ xs }
{}

/// The entry at a place stands in its row, with the rows of the older ones behind it, and its payload behind theirs.
pub fn an_entry_stands_in_its_row()
    ensures fits { (start n : ℕ) (xs : List Entry) (x : Entry) (bytes : List ℕ) → HoldsEntries start xs bytes
        → entry_at xs n ≡ Some x
        → EntryFits (raw_entry x) }
    ensures within { (start n : ℕ) (xs : List Entry) (x : Entry) (bytes : List ℕ) → HoldsEntries start xs bytes
        → entry_at xs n ≡ Some x
        → entry_len * (n + 1) ≤ length bytes }
    ensures row { (start n : ℕ) (xs : List Entry) (x : Entry) (bytes : List ℕ) → HoldsEntries start xs bytes
        → entry_at xs n ≡ Some x
        → drop (row_start n bytes) bytes ≡ entry_bytes (raw_entry x) ++ rows_of (oldest n xs) }
    ensures payload { (start n : ℕ) (xs : List Entry) (x : Entry) (bytes : List ℕ) → HoldsEntries start xs bytes
        → entry_at xs n ≡ Some x
        → bytes_at (start + payload_sum (oldest n xs)) (length x.p) bytes ≡ x.p }
{}

/// Bytes that hold entries hold the oldest of them: what stood there of newer ones counts as free.
pub fn the_oldest_entries_are_held()
    ensures held { (start n : ℕ) (xs : List Entry) (bytes : List ℕ) → HoldsEntries start xs bytes
        → HoldsEntries start (oldest n xs) bytes }
    ensures block { (order : ℕ) (h : Header) (filter : List ℕ) (n : ℕ) (xs : List Entry) (bytes : List ℕ)
        → IsBlock order h filter xs bytes → IsBlock order h filter (oldest n xs) bytes }
{}

/// A write to free bytes, or before the payloads, leaves the entries.
pub fn a_write_elsewhere_leaves_the_entries()
    ensures free { (start from : ℕ) (new : List ℕ) (xs : List Entry) (bytes : List ℕ) → HoldsEntries start xs bytes
        → start + payload_sum xs ≤ from → from + length new + entry_len * length xs ≤ length bytes
        → HoldsEntries start xs (overwritten from new bytes) }
    ensures front { (start from : ℕ) (new : List ℕ) (xs : List Entry) (bytes : List ℕ) → HoldsEntries start xs bytes
        → from + length new ≤ start → HoldsEntries start xs (overwritten from new bytes) }
    ensures block { (order : ℕ) (h : Header) (filter : List ℕ) (xs : List Entry) (from : ℕ) (new bytes : List ℕ)
        → IsBlock order h filter xs bytes → props_start order + payload_sum xs ≤ from
        → from + length new + entry_len * length xs ≤ length bytes
        → IsBlock order h filter xs (overwritten from new bytes) }
{}

/// An entry more is held where its payload is written behind the others, and its row before theirs.
pub fn an_entry_more_is_held()
    ensures held { (start : ℕ) (x : Entry) (xs : List Entry) (bytes : List ℕ) → HoldsEntries start xs bytes → HasRow x
        → start + payload_sum (x ∷ xs) + entry_len * length (x ∷ xs) ≤ length bytes
        → HoldsEntries start (x ∷ xs)
        (overwritten (row_start (length xs) bytes) (entry_bytes (raw_entry x))
        (overwritten (start + payload_sum xs) x.p bytes)) }
    ensures block { (order : ℕ) (h : Header) (filter : List ℕ) (x : Entry) (xs : List Entry) (bytes : List ℕ)
        → IsBlock order h filter xs bytes → HasRow x → KnowsAll order filter (x ∷ xs)
        → props_start order + payload_sum (x ∷ xs) + entry_len * length (x ∷ xs) ≤ length bytes
        → IsBlock order h filter (x ∷ xs)
        (overwritten (row_start (length xs) bytes) (entry_bytes (raw_entry x))
        (overwritten (props_start order + payload_sum xs) x.p bytes)) }
{}

/// A stamp that is written to the row of an entry is that entry's.
pub fn a_stamp_is_written_in_its_row()
    ensures created { (start n : ℕ) (s : Stamp) (xs : List Entry) (bytes : List ℕ) → HoldsEntries start xs bytes
        → n < length xs → HasRaw s
        → HoldsEntries start (created_as n s xs) (overwritten (row_start n bytes + 8) (u64_bytes (raw_of s)) bytes) }
    ensures ended { (start n : ℕ) (s : Stamp) (xs : List Entry) (bytes : List ℕ) → HoldsEntries start xs bytes
        → n < length xs → HasRaw s
        → HoldsEntries start (ended_as n s xs) (overwritten (row_start n bytes + 16) (u64_bytes (raw_of s)) bytes) }
    ensures block_created { (order : ℕ) (h : Header) (filter : List ℕ) (n : ℕ) (s : Stamp) (xs : List Entry)
        (bytes : List ℕ)
        → IsBlock order h filter xs bytes → n < length xs → HasRaw s
        → IsBlock order h filter (created_as n s xs)
        (overwritten (row_start n bytes + 8) (u64_bytes (raw_of s)) bytes) }
    ensures block_ended { (order : ℕ) (h : Header) (filter : List ℕ) (n : ℕ) (s : Stamp) (xs : List Entry)
        (bytes : List ℕ)
        → IsBlock order h filter xs bytes → n < length xs → HasRaw s
        → IsBlock order h filter (ended_as n s xs) (overwritten (row_start n bytes + 16) (u64_bytes (raw_of s)) bytes) }
{}

/// The entries are held by other bytes too to which their payloads and rows were copied.
pub fn entries_are_copied()
    ensures { (start from : ℕ) (xs : List Entry) (bytes new : List ℕ) → HoldsEntries start xs bytes
        → from + payload_sum xs + entry_len * length xs ≤ length new
        → bytes_at from (payload_sum xs) new ≡ bytes_at start (payload_sum xs) bytes
        → drop (length new - entry_len * length xs) new ≡ drop (length bytes - entry_len * length xs) bytes
        → HoldsEntries from xs new }
{}

/// A block begins with its header, and another header may be written there.
pub fn a_block_begins_with_its_header()
    ensures read { (order : ℕ) (h : Header) (filter : List ℕ) (xs : List Entry) (bytes : List ℕ)
        → IsBlock order h filter xs bytes → bytes ≡ header_bytes h ++ drop header_len bytes }
    ensures written { (order : ℕ) (g h : Header) (filter : List ℕ) (xs : List Entry) (bytes : List ℕ)
        → IsBlock order h filter xs bytes → HeaderFits g → g.order ≡ order → g.flags ≡ flags_of order
        → IsBlock order g filter xs (header_bytes g ++ drop header_len bytes) }
{}

/// The filter of a block is one by its length, and another may be written that knows all entries.
pub fn a_block_has_its_filter()
    ensures long { (order : ℕ) (h : Header) (filter : List ℕ) (xs : List Entry) (bytes : List ℕ)
        → IsBlock order h filter xs bytes → length filter ≡ filter_len order }
    ensures filter { (order : ℕ) (h : Header) (filter : List ℕ) (xs : List Entry) (bytes : List ℕ)
        → IsBlock order h filter xs bytes → IsTrue (has_filter order) → IsFilter filter }
    ensures written { (order : ℕ) (h : Header) (old new : List ℕ) (xs : List Entry) (bytes : List ℕ)
        → IsBlock order h old xs bytes → length new ≡ filter_len order → KnowsAll order new xs
        → IsBlock order h new xs (overwritten header_len new bytes) }
{}

/// A filter knows the entries that it knew, whatever their stamps, and the oldest of them; and one entry more
/// where its destination is added.
pub fn a_filter_knows_what_was_added()
    ensures created { (order n : ℕ) (s : Stamp) (filter : List ℕ) (xs : List Entry) → KnowsAll order filter xs
        → KnowsAll order filter (created_as n s xs) }
    ensures ended { (order n : ℕ) (s : Stamp) (filter : List ℕ) (xs : List Entry) → KnowsAll order filter xs
        → KnowsAll order filter (ended_as n s xs) }
    ensures oldest { (order n : ℕ) (filter : List ℕ) (xs : List Entry) → KnowsAll order filter xs
        → KnowsAll order filter (oldest n xs) }
    ensures added { (order : ℕ) (old new : List ℕ) (x : Entry) (xs : List Entry)
        → ((ds : List ℕ) → HasBitsOf old ds → HasBitsOf new (x.d ∷ ds)) → KnowsAll order old xs
        → KnowsAll order new (x ∷ xs) }
{}

/// Bytes with a header and a filter without bits are a block without entries.
pub fn a_block_begins_without_entries()
    ensures { (order : ℕ) (h : Header) (filter : List ℕ) (bytes : List ℕ) → order ≤ order_most
        → length bytes ≡ block_len order
        → HeaderFits h → h.order ≡ order → h.flags ≡ flags_of order → take header_len bytes ≡ header_bytes h
        → bytes_at header_len (filter_len order) bytes ≡ filter → HasBitsOf filter []
        → IsBlock order h filter [] bytes }
{}
