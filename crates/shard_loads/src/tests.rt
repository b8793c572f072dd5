//! The same small base, loaded over logs in vectors and over logs in blocks, with ample memory: what no clause says is
//! that the calls succeed.

ghost use Rattle.std.specs.Prelude.{◌≡◌, ℕ, ◌^◌, IfOk, IsTrue};
ghost use Rattle.core_states.specs.Openings.{lists_within};

use crate::asserts::{holds, same};
use block_pool::Pool;
use edge_log::{EdgeLog, PlainLog};
use graph_model::{Answer, Base, Change, Graph, Payload, Query};
use shard_state::{Shard, Who};
use std::alloc::Global;
use std::process::Abort;
use std::test::Fail;
use tel_block::TelBlock;

const SCAN: Query = Query::Scan { v: 1, l: 5 };

// A base of the epoch 3: the vertex 1 with the edges to 7 and 9 under label 5, and the vertex 2.
fn small_base(alloc: Global) -> Result<Base, Fail>
    ensures lists { IfOk result (λ base. IsTrue (lists_within (2 ^ 20) base.graph)) }
    ensures epoch { IfOk result (λ base. base.epoch ≡ 3) }
{
    let mut graph = Graph::empty(alloc);
    let p = Payload::from_slice(alloc, &[1])?;
    graph.apply(&Change::New { v: 1, p })?;
    let p = Payload::from_slice(alloc, &[2])?;
    graph.apply(&Change::New { v: 2, p })?;
    let p = Payload::from_slice(alloc, &[3])?;
    graph.apply(&Change::Put {
        v: 1,
        l: 5,
        d: 9,
        p,
    })?;
    let p = Payload::from_slice(alloc, &[4])?;
    graph.apply(&Change::Put {
        v: 1,
        l: 5,
        d: 7,
        p,
    })?;
    Ok(Base {
        graph,
        epoch: 3,
        next_tid: 4,
        next_vertex: 3,
    })
}

// Loads the shard 1 of 2, and looks at the vertex 1, which is its own.
fn load_and_look<L: EdgeLog + Drop>(
    rt: &impl Abort,
    alloc: Global,
    room: L::Room,
) -> Result<(), Fail>
where
    L::Room: Drop,
    requires number { L.keeps_number 0 }
    requires epoch { L.keeps_epoch 3 }
{
    let base = small_base(alloc)?;
    let mut shard: Shard<L, L::Room> = Shard::load(alloc, 1, 2, 1 << 20, room, &base)?;
    let who = Who {
        tid: 4,
        read: 3,
        left: 1000,
    };
    let Answer::Edges(pairs) = shard.read(&who, &SCAN)? else {
        return Err(Fail::from("no edges"));
    };
    same(rt, pairs.len(), 2);
    same(rt, pairs.get(0).map(|pair| pair.d), Some(7));
    same(rt, pairs.get(1).map(|pair| pair.d), Some(9));
    holds(rt, !shard.must_look(&who, 1));
    let early = Who {
        tid: 4,
        read: 2,
        left: 1000,
    };
    holds(rt, matches!(shard.read(&early, &SCAN)?, Answer::NoVertex));
    holds(
        rt,
        matches!(shard.read(&who, &Query::Vertex { v: 3 })?, Answer::NoVertex),
    );
    Ok(())
}

#[test]
fn a_shard_over_vectors_shows_the_vertices_of_its_base(rt: HostRuntime) -> Result<(), Fail> {
    load_and_look::<PlainLog>(&rt, rt.alloc(), ())
}

#[test]
fn a_shard_over_blocks_shows_the_vertices_of_its_base(rt: HostRuntime) -> Result<(), Fail> {
    load_and_look::<TelBlock>(&rt, rt.alloc(), Pool::new(rt.alloc()))
}
