//! An index, step by step.

use crate::asserts::same;
use place_index::PlaceIndex;

#[test]
fn an_index_of_one_slot_tells_every_place(rt: HostRuntime) {
    let mut index = PlaceIndex::with_room(rt.alloc(), 1, 3).expect(&rt, "memory for an index");
    same(&rt, index.newest(7), None);
    index.push(7);
    index.push(8);
    index.push(7);
    same(&rt, index.newest(9), Some(2));
    same(&rt, index.older(2), Some(1));
    same(&rt, index.older(1), Some(0));
    same(&rt, index.older(0), None);
    index.pop(7);
    same(&rt, index.newest(7), Some(1));
}
