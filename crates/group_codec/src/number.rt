//! Numbers at the front of bytes, the highest byte first.

ghost use Rattle.std.specs.Prelude.{◌≡◌, ◌<◌, ◌≤◌, ◌++◌, length, drop, IfSome, IfNone};
ghost use Rattle.group_codec.specs.Spelling.{u16_bytes, u32_bytes, u64_bytes};

use byteorder::{BigEndian, ByteOrder};

/// The number in the first eight bytes; none where there are fewer.
pub fn u64_at(bytes: &[u8]) -> Option<u64>
    ensures found { IfSome result (λ n. bytes.now ≡ u64_bytes n ++ drop 8 bytes.now) }
    ensures long { IfSome result (λ _. 8 ≤ length bytes.now) }
    ensures short { IfNone result (length bytes.now < 8) }
{
    if bytes.len() < 8 {
        return None;
    }
    Some(BigEndian::read_u64(bytes))
}

/// The number in the first four bytes; none where there are fewer.
pub fn u32_at(bytes: &[u8]) -> Option<u32>
    ensures found { IfSome result (λ n. bytes.now ≡ u32_bytes n ++ drop 4 bytes.now) }
    ensures long { IfSome result (λ _. 4 ≤ length bytes.now) }
    ensures short { IfNone result (length bytes.now < 4) }
{
    if bytes.len() < 4 {
        return None;
    }
    Some(BigEndian::read_u32(bytes))
}

/// The number in the first two bytes; none where there are fewer.
pub fn u16_at(bytes: &[u8]) -> Option<u16>
    ensures found { IfSome result (λ n. bytes.now ≡ u16_bytes n ++ drop 2 bytes.now) }
    ensures long { IfSome result (λ _. 2 ≤ length bytes.now) }
    ensures short { IfNone result (length bytes.now < 2) }
{
    if bytes.len() < 2 {
        return None;
    }
    Some(BigEndian::read_u16(bytes))
}
