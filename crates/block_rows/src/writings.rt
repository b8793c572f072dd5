//! Small blocks, byte by byte, as they are written down elsewhere.

ghost use Rattle.std.specs.Prelude.{◌≡◌, ◌<◌, ◌≤◌, [], ◌∷◌, length};
ghost use Rattle.stamps.specs.declared.stamp.Stamp.TheVariants.{Never, At};
ghost use Rattle.tel_entry.specs.RawStamps.{private_from};
ghost use Rattle.edge_bloom.specs.Filters.{HasBitsOf};
ghost use Rattle.block_layout.specs.Sizes.{block_len};
ghost use Rattle.block_layout.specs.Blocks.{IsBlock};
ghost use Rattle.block_writing.specs.Filters.{filter_in};
ghost use Rattle.block_writing.specs.Headers.{fresh_header, committed_header, moved_header};

use crate::asserts::same;
use block_writing::{Fill, append_entry, begin_block, convert, copy_block, end_entry, undo};

const EMPTY: Fill = Fill {
    entries: 0,
    props: 0,
};

const ONE: Fill = Fill {
    entries: 1,
    props: 1,
};

const TWO: Fill = Fill {
    entries: 2,
    props: 1,
};

#[test]
fn two_edges_stand_in_a_block_of_128_bytes(rt: HostRuntime) {
    let mut block = [0; 128];
    begin_block(&mut block, 1, 5, 1, 0);
    append_entry(&mut block, 1, EMPTY, 3, 9, &[0xff]);
    append_entry(&mut block, 1, ONE, 3, 7, &[]);
    convert(&mut block, 0, TWO, &[], 3, 1);
    let expected = [
        0, 0, 0, 0, 0, 0, 0, 1, 0, 5, 1, 0, 0, 0, 0, 0, 0, 0, 0, 1, 0, 0, 0, 2, 0, 0, 0, 1, 0, 0,
        0, 0, 0, 0, 0, 0, 0xff, 0, 0, 0, 0, 0, 0, 0, 0, 0, 0, 0, 0, 0, 0, 0, 0, 0, 0, 0, 0, 0, 0,
        0, 0, 0, 0, 0, 0, 0, 0, 0, 0, 0, 0, 0, 0, 0, 0, 0, 0, 0, 0, 7, 0, 0, 0, 0, 0, 0, 0, 1, 0,
        0, 0, 0, 0, 0, 0, 0, 0, 0, 0, 0, 0, 0, 0, 0, 0, 0, 0, 9, 0, 0, 0, 0, 0, 0, 0, 1, 0, 0, 0,
        0, 0, 0, 0, 0, 0, 0, 0, 1,
    ];
    same(&rt, block, expected);
}

#[test]
fn an_end_that_is_given_up_leaves_the_block_as_it_was(rt: HostRuntime) {
    let mut block = [0; 128];
    begin_block(&mut block, 1, 5, 1, 0);
    append_entry(&mut block, 1, EMPTY, 3, 9, &[0xff]);
    convert(&mut block, 0, ONE, &[], 3, 1);
    let before = block;
    end_entry(&mut block, 0, 4);
    same(&rt, block[116], 0x80);
    undo(&mut block, 1, 1, &[0], 4);
    same(&rt, block, before);
}

#[test]
fn a_larger_block_has_the_bits_of_nine_in_its_filter(rt: HostRuntime) {
    let mut small = [0; 128];
    begin_block(&mut small, 1, 5, 1, 0);
    append_entry(&mut small, 1, EMPTY, 3, 9, &[0xff]);
    let mut large = [0xee; 512];
    copy_block(&small, 1, &mut large, 3, ONE, 65);
    let filter = [
        0, 0, 0, 0, 0, 0, 0, 0, 0, 0, 0, 0, 0, 0, 0, 2, 0, 0x80, 0, 0, 0, 0, 0, 0, 0, 0, 0, 0, 0,
        0, 1, 0,
    ];
    same(&rt, &large[36..68], filter.as_slice());
    same(&rt, large[68], 0xff);
    same(&rt, large[69], 0xee);
    same(&rt, large[10], 3);
    same(&rt, large[11], 1);
    same(&rt, large[35], 65);
    same(&rt, large[491], 9);
}

// An edge that is appended, committed, and moved to a larger block: what the public clauses say of it, call by call.
fn moved(small: &mut [u8], large: &mut [u8], tid: u64, d: u64, p: &[u8], epoch: u64)
    requires small { length small.old ≡ block_len 1 }
    requires large { length large.old ≡ block_len 3 }
    requires payload { length p.now ≤ 64 }
    requires number { tid < private_from }
    requires epoch { (0 < epoch) × (epoch < private_from) }
    ensures moved { IsBlock 3 (moved_header 3 65 (committed_header epoch 1 (length p.now) (fresh_header 1 5 1 0)))
        (filter_in 3 large.new) (record { d = d; p = p.now; created = At epoch; ended = Never } ∷ []) large.new }
    ensures filter { HasBitsOf (filter_in 3 large.new) (d ∷ []) }
{
    begin_block(small, 1, 5, 1, 0);
    append_entry(small, 1, EMPTY, tid, d, p);
    let fill = Fill {
        entries: 1,
        props: p.len() as u32,
    };
    convert(small, 0, fill, &[], tid, epoch);
    copy_block(small, 1, large, 3, fill, 65);
}

#[test]
fn an_edge_is_moved_with_its_payload(rt: HostRuntime) {
    let mut small = [0; 128];
    let mut large = [0; 512];
    moved(&mut small, &mut large, 3, 9, &[7, 8], 1);
    same(&rt, &large[68..70], [7, 8].as_slice());
}
