//! A filter's bits for one destination, as they are written down elsewhere, and what a caller concludes.

ghost use Rattle.std.specs.Prelude.{IsTrue};
ghost use Rattle.edge_bloom.specs.Filters.{IsFilter};

use crate::{add, clear, may_hold};

// Whether two destinations that were added are held.
fn holds_both(filter: &mut [u8], d: u64, e: u64) -> bool
    requires { IsFilter filter.old }
    ensures filter { IsFilter filter.new }
    ensures held { IsTrue result }
{
    clear(filter);
    add(filter, d);
    add(filter, e);
    let first = may_hold(filter, d);
    first && may_hold(filter, e)
}

#[test]
fn the_bits_of_nine_stand_at_143_240_and_121(rt: HostRuntime) {
    let mut filter = [0u8; 32];
    assert!(rt; !may_hold(&filter, 9));
    add(&mut filter, 9);
    assert!(rt; may_hold(&filter, 9));
    assert!(rt; !may_hold(&filter, 7));
    let mut expected = [0u8; 32];
    expected[17] = 0x80;
    expected[30] = 0x01;
    expected[15] = 0x02;
    assert_eq!(rt; filter, expected);
    assert!(rt; holds_both(&mut filter, 7, 8));
    clear(&mut filter);
    assert_eq!(rt; filter, [0u8; 32]);
}
