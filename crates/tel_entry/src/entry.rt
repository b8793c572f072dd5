//! An entry of a block.

ghost use Rattle.std.specs.Prelude.{◌≡◌, ◌≤◌, ◌++◌, List, ℕ, length, drop};
ghost use Rattle.tel_entry.specs.Layouts.{entry_len, entry_bytes, EntryFits};

use byteorder::{BigEndian, ByteOrder};

/// An edge in a block, whose payload stands apart from it.
#[derive(Clone, Copy, Debug, PartialEq, Eq)]
pub struct Entry {
    /// The vertex that the edge leads to.
    pub d: u64,
    /// The stamp from which on it counts.
    pub created: u64,
    /// The stamp from which on it counts no more.
    pub ended: u64,
    /// How many bytes its payload has.
    pub len: u32,
}

/// Writes an entry to the first 28 bytes; the others stay. Time: constant.
#[inline(always)]
pub fn write_entry(buf: &mut [u8], e: &Entry)
    requires { entry_len ≤ length buf.old }
    ensures { buf.new ≡ entry_bytes e.now ++ drop entry_len buf.old }
{
    BigEndian::write_u64(buf, e.d);
    BigEndian::write_u64(&mut buf[8..], e.created);
    BigEndian::write_u64(&mut buf[16..], e.ended);
    BigEndian::write_u32(&mut buf[24..], e.len);
}

/// The entry in the first 28 bytes. Time: constant.
#[inline(always)]
pub fn read_entry(buf: &[u8]) -> Entry
    requires { entry_len ≤ length buf.now }
    ensures read { buf.now ≡ entry_bytes result ++ drop entry_len buf.now }
    ensures only { (e : Entry) (rest : List ℕ) → EntryFits e → buf.now ≡ entry_bytes e ++ rest → result ≡ e }
{
    Entry {
        d: BigEndian::read_u64(buf),
        created: BigEndian::read_u64(&buf[8..]),
        ended: BigEndian::read_u64(&buf[16..]),
        len: BigEndian::read_u32(&buf[24..]),
    }
}
