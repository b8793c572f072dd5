//! The three places that a destination has in a filter.

ghost use Rattle.std.specs.Prelude.{◌≡◌, ◌*◌, ◌/◌, ◌^◌, ◌<◌, ◌≤◌};
ghost use Rattle.std.specs.Int.{IsPowerOfTwo};
ghost use Rattle.edge_bloom.specs.Filters.{mixed, top_bits, first_place, second_place, third_place};

// An odd number near 2^64 divided by the golden ratio.
const MIX: u64 = 0x9E37_79B9_7F4A_7C15;

/// The places of `d` in a filter of `len` bytes. No division: the length is a power of two.
#[inline(always)]
pub fn places(len: usize, d: u64) -> (usize, usize, usize)
    requires power { IsPowerOfTwo len }
    requires most { len ≤ 2 ^ 27 }
    ensures first { result.0 ≡ first_place (8 * len) d }
    ensures second { result.1 ≡ second_place (8 * len) d }
    ensures third { result.2 ≡ third_place (8 * len) d }
    ensures within { (result.0 < 8 * len) × (result.1 < 8 * len) × (result.2 < 8 * len) }
{
    let x = mixed(d);
    (
        top_bits(len, x),
        top_bits(len, x.rotate_left(21)),
        top_bits(len, x.rotate_left(42)),
    )
}

#[inline(always)]
fn mixed(d: u64) -> u64
    ensures { result ≡ mixed d }
{
    d.wrapping_mul(MIX)
}

// The place that the top bits of `x` name in a filter of `len` bytes.
#[inline(always)]
fn top_bits(len: usize, x: u64) -> usize
    requires power { IsPowerOfTwo len }
    requires most { len ≤ 2 ^ 27 }
    ensures place { result ≡ top_bits (8 * len) x }
    ensures within { result < 8 * len }
{
    (x >> (61 - len.trailing_zeros())) as usize
}
