//! The header of a block.

ghost use Rattle.std.specs.Prelude.{◌≡◌, ◌≤◌, ◌++◌, List, ℕ, length, drop};
ghost use Rattle.tel_entry.specs.Layouts.{header_len, header_bytes, HeaderFits};

use byteorder::{BigEndian, ByteOrder};

/// What stands before the filter and the payloads of a block.
#[derive(Clone, Copy, Debug, PartialEq, Eq)]
pub struct Header {
    /// The vertex whose edges these are.
    pub source: u64,
    /// The label under which they are.
    pub label: u16,
    /// The block has 64 * 2^order bytes.
    pub order: u8,
    /// Bit 0: the block has a filter.
    pub flags: u8,
    /// The epoch of the last commit.
    pub epoch: u64,
    /// How many entries are committed.
    pub entries: u32,
    /// How many bytes of payload the committed entries have.
    pub props: u32,
    /// The block that this one replaced, or 0. It is never followed.
    pub previous: u64,
}

/// Writes a header to the first 36 bytes; the others stay. Time: constant.
pub fn write_header(buf: &mut [u8], h: &Header)
    requires { header_len ≤ length buf.old }
    ensures { buf.new ≡ header_bytes h.now ++ drop header_len buf.old }
{
    BigEndian::write_u64(buf, h.source);
    BigEndian::write_u16(&mut buf[8..], h.label);
    buf[10] = h.order;
    buf[11] = h.flags;
    BigEndian::write_u64(&mut buf[12..], h.epoch);
    BigEndian::write_u32(&mut buf[20..], h.entries);
    BigEndian::write_u32(&mut buf[24..], h.props);
    BigEndian::write_u64(&mut buf[28..], h.previous);
}

/// The header in the first 36 bytes. Time: constant.
pub fn read_header(buf: &[u8]) -> Header
    requires { header_len ≤ length buf.now }
    ensures read { buf.now ≡ header_bytes result ++ drop header_len buf.now }
    ensures only { (h : Header) (rest : List ℕ) → HeaderFits h → buf.now ≡ header_bytes h ++ rest → result ≡ h }
{
    Header {
        source: BigEndian::read_u64(buf),
        label: BigEndian::read_u16(&buf[8..]),
        order: buf[10],
        flags: buf[11],
        epoch: BigEndian::read_u64(&buf[12..]),
        entries: BigEndian::read_u32(&buf[20..]),
        props: BigEndian::read_u32(&buf[24..]),
        previous: BigEndian::read_u64(&buf[28..]),
    }
}
