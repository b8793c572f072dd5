//! The slot of a destination.

ghost use Rattle.std.specs.Prelude.{◌≡◌, ◌^◌, ◌<◌, ◌≤◌};
ghost use Rattle.place_index.specs.Slots.{slot_of};

// An odd number near 2^64 divided by the golden ratio.
const MIX: u64 = 0x9E37_79B9_7F4A_7C15;

/// The slot of a destination among so many. Time: constant, without a division.
#[inline(always)]
pub fn slot_of(slots: usize, d: u64) -> usize
    requires some { 0 < slots }
    requires most { slots ≤ 2 ^ 31 }
    ensures slot { result ≡ slot_of slots d }
    ensures within { result < slots }
{
    let top = d.wrapping_mul(MIX) >> 32;
    ((top * slots as u64) >> 32) as usize
}
