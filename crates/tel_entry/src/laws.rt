//! Laws of layouts and of stamps as numbers, which hold of their definitions. The crates above cite them.

ghost use Rattle.std.specs.Prelude.{◌≡◌, ℕ, ◌^◌, ◌<◌, List, ◌++◌, length};
ghost use Rattle.stamps.specs.declared.stamp.Stamp.{Stamp};
ghost use Rattle.tel_entry.specs.declared.header.Header.{Header};
ghost use Rattle.tel_entry.specs.declared.entry.Entry.{Entry};
ghost use Rattle.tel_entry.specs.Layouts.{header_len, entry_len, header_bytes, entry_bytes, HeaderFits, EntryFits};
ghost use Rattle.tel_entry.specs.RawStamps.{stamp_of, raw_of, HasRaw};

/// A stamp that a number stands for is read back from it.
pub fn a_stamp_is_read_back()
    ensures { (s : Stamp) → HasRaw s → stamp_of (raw_of s) ≡ s }
{}

/// Each number of 64 bits is the number of the stamp that it is: no stamp has two.
pub fn a_stamp_has_one_number()
    ensures { (n : ℕ) → raw_of (stamp_of n) ≡ n }
{}

/// A header has one spelling, of 36 bytes.
pub fn a_header_has_one_spelling()
    ensures long { (h : Header) → length (header_bytes h) ≡ header_len }
    ensures one { (g h : Header) (r s : List ℕ) → HeaderFits g → HeaderFits h
        → header_bytes g ++ r ≡ header_bytes h ++ s → (g ≡ h) × (r ≡ s) }
{}

/// An entry has one spelling, of 28 bytes.
pub fn an_entry_has_one_spelling()
    ensures long { (e : Entry) → length (entry_bytes e) ≡ entry_len }
    ensures one { (e f : Entry) (r s : List ℕ) → EntryFits e → EntryFits f
        → entry_bytes e ++ r ≡ entry_bytes f ++ s → (e ≡ f) × (r ≡ s) }
{}
