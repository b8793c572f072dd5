//! Which blocks a pool gives out, as it is written down elsewhere, and that writing one leaves the others.

ghost use Rattle.std.specs.Prelude.{◌≡◌, ◌≤◌, Contains, IsTrue};
ghost use Rattle.block_pool.specs.Blocks.{are_apart};
ghost use Rattle.block_pool.specs.Pools.{order_most, out_blocks, KeepsOut};

use crate::asserts::same;
use block_pool::{Block, Pool, Transfer};
use std::process::Abort;

fn taken(rt: &impl Abort, pool: &mut Pool, order: u32) -> Block
    requires { order ≤ order_most }
    ensures out { Contains (out_blocks pool.new) result }
    ensures keeps { KeepsOut pool.old pool.new }
{
    pool.take(order).expect(rt, "a block")
}

// The block is this one.
fn assert_at(rt: &impl Abort, b: &Block, chunk: u32, start: u32, order: u32)
    ensures { b.now ≡ record { chunk = chunk; start = start; order = order } }
{
    assert_eq!(rt; b.chunk(), chunk);
    assert_eq!(rt; b.start(), start);
    assert_eq!(rt; b.order(), order);
}

#[test]
fn the_blocks_are_the_lowest_that_fit(rt: HostRuntime) {
    let mut pool = Pool::new(rt.alloc());
    let first = taken(&rt, &mut pool, 0);
    assert_at(&rt, &first, 0, 0, 0);
    let second = taken(&rt, &mut pool, 0);
    assert_at(&rt, &second, 0, 64, 0);
    let third = taken(&rt, &mut pool, 1);
    assert_at(&rt, &third, 0, 128, 1);
    pool.give(first);
    pool.give(second);
    let joined = taken(&rt, &mut pool, 1);
    assert_at(&rt, &joined, 0, 0, 1);
    let large = taken(&rt, &mut pool, 15);
    assert_at(&rt, &large, 1, 0, 15);
}

#[test]
fn what_is_written_to_a_block_stands_there_alone(rt: HostRuntime) {
    let mut pool = Pool::new(rt.alloc());
    let left = taken(&rt, &mut pool, 1);
    let right = taken(&rt, &mut pool, 1);
    pool.bytes_mut(&left).fill(7);
    same(&rt, pool.bytes(&left), [7u8; 128].as_slice());
    same(&rt, pool.bytes(&right), [0u8; 128].as_slice());
}

// Fills a block with the first byte of another.
struct FirstByte;

impl Transfer for FirstByte {
    ghost may = { λ _ _ _. Unit {0} };

    ghost does = { λ _ _ _ _. Unit {0} };

    fn transfer(&self, from: &[u8], to: &mut [u8]) {
        to.fill(from.first().copied().unwrap_or(0));
    }
}

fn fill_by(pool: &mut Pool, from: &Block, to: &Block)
    requires from { Contains (out_blocks pool.old) from.now }
    requires to { Contains (out_blocks pool.old) to.now }
    requires apart { IsTrue (are_apart from.now to.now) }
    ensures { out_blocks pool.new ≡ out_blocks pool.old }
{
    pool.transfer(from, to, &FirstByte);
}

#[test]
fn one_block_is_read_while_another_is_written(rt: HostRuntime) {
    let mut pool = Pool::new(rt.alloc());
    let first = taken(&rt, &mut pool, 14);
    let second = taken(&rt, &mut pool, 1);
    let third = taken(&rt, &mut pool, 1);
    assert_at(&rt, &first, 0, 0, 14);
    assert_at(&rt, &second, 1, 0, 1);
    assert_at(&rt, &third, 1, 128, 1);
    pool.bytes_mut(&first).fill(7);
    fill_by(&mut pool, &first, &third);
    fill_by(&mut pool, &third, &second);
    same(&rt, pool.bytes(&third), [7u8; 128].as_slice());
    same(&rt, pool.bytes(&second), [7u8; 128].as_slice());
}
