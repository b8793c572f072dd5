//! The block of one small log, as it is written down elsewhere, read back.

ghost use Rattle.std.specs.Prelude.{◌≡◌, length};
ghost use Rattle.edge_log.specs.declared.place.Place.{Place};
ghost use Rattle.block_reading.specs.Places.{HasPlace};

use crate::asserts::same;
use block_reading::{entry_at, find, part, payload, search};
use edge_log::{Part, Place};
use std::process::Abort;
use tel_entry::Entry;

/// Where the payloads of a block of order 1 begin.
const START: usize = 36;

/// The end of the log.
const END: Place = Place { below: 2, props: 1 };

// The vertex 1 has two edges under the label 5 from epoch 1 on: to 9 with the payload ff, and then to 7.
fn first_script() -> [u8; 128]
    ensures long { length result ≡ 128 }
    ensures end { HasPlace 36 (record { below = 2; props = 1 }) result }
    ensures first { HasPlace 36 (record { below = 1; props = 1 }) result }
{
    [
        0, 0, 0, 0, 0, 0, 0, 1, 0, 5, 1, 0, 0, 0, 0, 0, 0, 0, 0, 1, 0, 0, 0, 2, 0, 0, 0, 1, 0, 0,
        0, 0, 0, 0, 0, 0, 0xff, 0, 0, 0, 0, 0, 0, 0, 0, 0, 0, 0, 0, 0, 0, 0, 0, 0, 0, 0, 0, 0, 0,
        0, 0, 0, 0, 0, 0, 0, 0, 0, 0, 0, 0, 0, 0, 0, 0, 0, 0, 0, 0, 7, 0, 0, 0, 0, 0, 0, 0, 1, 0,
        0, 0, 0, 0, 0, 0, 0, 0, 0, 0, 0, 0, 0, 0, 0, 0, 0, 0, 9, 0, 0, 0, 0, 0, 0, 0, 1, 0, 0, 0,
        0, 0, 0, 0, 0, 0, 0, 0, 1,
    ]
}

// Asserts which edge stands in a part.
fn assert_pair(rt: &impl Abort, part: &Part, i: usize, d: u64, payload: &[u8]) {
    same(rt, part.d(i), Some(d));
    same(rt, part.p(i), Some(payload));
}

#[test]
fn the_oldest_entry_stands_at_the_end(rt: HostRuntime) {
    let block = first_script();
    let nine = Entry {
        d: 9,
        created: 1,
        ended: 0,
        len: 1,
    };
    let seven = Entry {
        d: 7,
        created: 1,
        ended: 0,
        len: 0,
    };
    same(&rt, entry_at(&block, 0), nine);
    same(&rt, entry_at(&block, 1), seven);
}

#[test]
fn an_edge_is_found_from_its_epoch_on(rt: HostRuntime) {
    let block = first_script();
    same(&rt, search(&block, 2, 9, 1, 4), Some(0));
    same(&rt, search(&block, 2, 7, 1, 4), Some(1));
    same(&rt, search(&block, 2, 8, 1, 4), None);
    same(&rt, search(&block, 2, 9, 0, 4), None);
    same(&rt, find(&block, 1, 2, 9, 1, 4), Some(0));
    same(&rt, find(&block, 1, 2, 8, 1, 4), None);
}

#[test]
fn each_payload_stands_behind_the_older_ones(rt: HostRuntime) {
    let block = first_script();
    same(&rt, payload(&block, START, END, 0), [0xff].as_slice());
    same(&rt, payload(&block, START, END, 1).len(), 0);
}

#[test]
fn a_part_has_the_newest_edge_first(rt: HostRuntime) {
    let block = first_script();
    let mut out = Part::new(rt.alloc(), 65535).expect(&rt, "memory for a part");
    let next = part(&block, START, END, 1, 4, &mut out);
    same(&rt, next, None);
    same(&rt, out.pairs(), 2);
    assert_pair(&rt, &out, 0, 7, &[]);
    assert_pair(&rt, &out, 1, 9, &[0xff]);
}

#[test]
fn a_part_below_the_newest_edge_has_the_others(rt: HostRuntime) {
    let block = first_script();
    let mut out = Part::new(rt.alloc(), 65535).expect(&rt, "memory for a part");
    let first = Place { below: 1, props: 1 };
    let next = part(&block, START, first, 1, 4, &mut out);
    same(&rt, next, None);
    same(&rt, out.pairs(), 1);
    assert_pair(&rt, &out, 0, 9, &[0xff]);
}
