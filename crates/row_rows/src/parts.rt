//! A part that is filled with a range at once, and edge by edge.

use crate::asserts::same;
use edge_log::Part;
use graph_model::Payload;
use std::alloc::Global;
use std::process::Abort;

/// What a part is filled with: the payloads of some entries, the oldest first, and for each entry from the
/// newest down its destination, the length of its payload, and whether it is shown.
#[derive(Clone, Copy)]
struct Look<'a> {
    payloads: &'a [u8],
    entries: &'a [(u64, usize, bool)],
}

fn fill_at_once(part: &mut Part, look: &Look) {
    if !part.fits_range(look.payloads.len()) {
        return;
    }
    part.take_range(look.payloads);
    let mut left = look.payloads.len();
    for (d, len, shown) in look.entries {
        if *len > left || part.pairs() == Part::MOST {
            return;
        }
        part.take_next(*d, *len, *shown);
        left -= *len;
    }
}

fn fill_edge_by_edge(part: &mut Part, look: &Look) {
    part.clear();
    let mut left = look.payloads.len();
    for (d, len, shown) in look.entries {
        if *len > left {
            return;
        }
        if *shown && part.has_room(*len) {
            part.push(*d, &look.payloads[left - *len..left]);
        }
        left -= *len;
    }
}

/// Both ways fill a part with this many edges, and with the same.
fn assert_alike(rt: &impl Abort, alloc: Global, pairs: usize, look: &Look) {
    let mut at_once = Part::new(alloc, Payload::MOST).expect(rt, "memory for a part");
    let mut by_edge = Part::new(alloc, Payload::MOST).expect(rt, "memory for a part");
    fill_at_once(&mut at_once, look);
    fill_edge_by_edge(&mut by_edge, look);
    same(rt, at_once.pairs(), pairs);
    same(rt, by_edge.pairs(), pairs);
    for i in 0..pairs {
        same(rt, at_once.d(i), by_edge.d(i));
        same(rt, at_once.p(i), by_edge.p(i));
    }
}

#[test]
fn a_range_that_is_taken_at_once_tells_what_edge_by_edge_tells(rt: HostRuntime) {
    let none = Look {
        payloads: &[],
        entries: &[],
    };
    assert_alike(&rt, rt.alloc(), 0, &none);
    let all_shown = Look {
        payloads: &[1, 2, 3],
        entries: &[(9, 1, true), (7, 2, true)],
    };
    assert_alike(&rt, rt.alloc(), 2, &all_shown);
    let some_shown = Look {
        payloads: &[1, 2, 3, 4],
        entries: &[(9, 0, true), (8, 2, false), (7, 1, true), (9, 1, false)],
    };
    assert_alike(&rt, rt.alloc(), 2, &some_shown);
    let long = Look {
        payloads: &[5; 40],
        entries: &[(3, 20, false), (4, 0, true), (3, 19, true), (1, 1, true)],
    };
    assert_alike(&rt, rt.alloc(), 3, &long);
}
