//! The bits of a filter, set and asked.

ghost use Rattle.std.specs.Prelude.{ℕ, ◌≡◌, ◌*◌, ◌<◌, ◌||◌, ◌==◌, IsTrue, false, List, [], ◌∷◌, length};
ghost use Rattle.std.specs.List.{list_any};
ghost use Rattle.edge_bloom.specs.Filters.{IsFilter, HasBitsOf, bits_of, is_set, is_place_of, holds};

use crate::places::places;

/// Takes all bits off. Time: one step for each byte.
pub fn clear(filter: &mut [u8])
    ensures bits { (b : ℕ) → is_set filter.new b ≡ false }
    ensures none { HasBitsOf filter.new [] }
{
    filter.fill(0);
}

/// Sets the three bits of `d`, and no other. Time: constant.
#[inline(always)]
pub fn add(filter: &mut [u8], d: u64)
    requires { IsFilter filter.old }
    ensures bits { (b : ℕ) → is_set filter.new b ≡ (is_set filter.old b || is_place_of (bits_of filter.old) d b) }
    ensures added { (ds : List ℕ) → HasBitsOf filter.old ds → HasBitsOf filter.new (d ∷ ds) }
{
    set_places(filter, d);
}

/// Whether all three bits of `d` are set: a no says that `d` was not added. Time: constant.
#[inline(always)]
pub fn may_hold(filter: &[u8], d: u64) -> bool
    requires { IsFilter filter.now }
    ensures bits { result ≡ holds filter.now d }
    ensures added { (ds : List ℕ) → HasBitsOf filter.now ds → IsTrue (list_any (λ e. e == d) ds) → IsTrue result }
{
    are_set(filter, d)
}

#[inline(always)]
fn set_places(filter: &mut [u8], d: u64)
    requires { IsFilter filter.old }
    ensures { (b : ℕ) → is_set filter.new b ≡ (is_set filter.old b || is_place_of (bits_of filter.old) d b) }
{
    let (first, second, third) = places(filter.len(), d);
    set(filter, first);
    set(filter, second);
    set(filter, third);
}

#[inline(always)]
fn are_set(filter: &[u8], d: u64) -> bool
    requires { IsFilter filter.now }
    ensures { result ≡ holds filter.now d }
{
    let (first, second, third) = places(filter.len(), d);
    is_set(filter, first) && is_set(filter, second) && is_set(filter, third)
}

#[inline(always)]
fn set(filter: &mut [u8], place: usize)
    requires { place < bits_of filter.old }
    ensures { (b : ℕ) → is_set filter.new b ≡ (is_set filter.old b || place == b) }
{
    filter[place / 8] |= 1 << (place % 8);
}

#[inline(always)]
fn is_set(filter: &[u8], place: usize) -> bool
    requires { place < bits_of filter.now }
    ensures { result ≡ is_set filter.now place }
{
    filter[place / 8] >> (place % 8) & 1 == 1
}
