//! Runs transactions through the parts of a store, one after another, for timing.
//!
//! The words: the kind of work; how many vertices there are; how many edges are put on each, or on the one that is
//! changed; how many changes a transaction makes; how often the work is done. It prints a sum of what was answered.
//!
//! `load` makes the vertices and puts the edges, in turn over the vertices. `read` does the same, and then asks for an
//! edge of some vertex, so often. `apply` puts the edges on the first vertex, and then puts one more in a transaction of
//! its own, so often.
#![tactic(auto)]

ghost use Rattle.std.specs.Prelude.{◌≡◌};
ghost use Rattle.graph_model.specs.Records.{empty_base};

mod parts;
mod work;

use graph_model::{Base, Graph, Payload};
use parts::Parts;
use std::alloc::Global;
use std::env;
use work::Work;

const PAYLOAD: [u8; 8] = [1, 2, 3, 4, 5, 6, 7, 8];

/// The label of all edges.
const LABEL: u16 = 1;

/// What is asked for.
#[derive(Clone, Copy)]
struct Task {
    vertices: u32,
    edges: u32,
    changes: u32,
    rounds: u32,
}

/// The base of an empty log.
fn empty_base(alloc: Global) -> Base
    ensures { result ≡ empty_base }
{
    Base {
        graph: Graph::empty(alloc),
        epoch: 0,
        next_tid: 1,
        next_vertex: 1,
    }
}

/// A transaction, or the one that follows where this one has made so many changes.
fn next_work(alloc: Global, parts: &mut Parts, work: Work, made: u32, most: u32) -> Option<Work> {
    if most == 0 || made % most != 0 {
        return Some(work);
    }
    parts.commit(work)?;
    parts.begin(alloc)
}

/// Makes the vertices 1 to `task.vertices`.
fn make_all(alloc: Global, parts: &mut Parts, task: Task, p: &Payload) -> Option<()> {
    let mut work = parts.begin(alloc)?;
    for made in 0..task.vertices {
        parts.make_vertex(&mut work, p)?;
        work = next_work(alloc, parts, work, made + 1, task.changes)?;
    }
    parts.commit(work)?;
    Some(())
}

/// The vertex and the destination of an edge, by its place among all: a vertex after another, in an order that jumps.
fn edge_at(place: u64, vertices: u32) -> (u64, u64) {
    let step = place.wrapping_mul(0x9E37_79B9_7F4A_7C15);
    let v = 1 + (step >> 33) % u64::from(vertices.max(1));
    (v, place)
}

/// Puts so many edges on each vertex. It answers the last epoch.
fn put_all(alloc: Global, parts: &mut Parts, task: Task, p: &Payload) -> Option<u64> {
    let mut work = parts.begin(alloc)?;
    for place in 0..u64::from(task.vertices) * u64::from(task.edges) {
        let (v, d) = edge_at(place, task.vertices);
        parts.put(&mut work, v, LABEL, d, p)?;
        work = next_work(
            alloc,
            parts,
            work,
            (place % (1 << 31)) as u32 + 1,
            task.changes,
        )?;
    }
    parts.commit(work)
}

/// Asks for edges that are there. It answers how many were found.
fn read_all(alloc: Global, parts: &mut Parts, task: Task) -> Option<u64> {
    let work = parts.begin(alloc)?;
    let all = (u64::from(task.vertices) * u64::from(task.edges)).max(1);
    let mut found = 0u64;
    for round in 0..task.rounds {
        let place = u64::from(round).wrapping_mul(0xD1B5_4A32_D192_ED03) % all;
        let (v, d) = edge_at(place, task.vertices);
        if parts.has_edge(&work, v, LABEL, d)? {
            found = found.wrapping_add(1);
        }
    }
    Some(found)
}

/// Puts an edge on the first vertex, each in a transaction of its own.
fn apply_all(alloc: Global, parts: &mut Parts, task: Task, p: &Payload) -> Option<u64> {
    let mut last = 0;
    for round in 0..task.rounds {
        let mut work = parts.begin(alloc)?;
        parts.put(&mut work, 1, LABEL, (1 << 40) + u64::from(round), p)?;
        last = parts.commit(work)?;
    }
    Some(last)
}

/// One kind of work; none where memory runs out.
fn run(alloc: Global, kind: &str, task: Task) -> Option<u64> {
    let base = empty_base(alloc);
    let mut parts = Parts::new(alloc, &base)?;
    let p = Payload::from_slice(alloc, PAYLOAD.as_slice()).ok()?;
    make_all(alloc, &mut parts, task, &p)?;
    let last = put_all(alloc, &mut parts, task, &p)?;
    match kind {
        "load" => Some(last),
        "read" => read_all(alloc, &mut parts, task),
        "apply" => apply_all(alloc, &mut parts, task, &p),
        _ => None,
    }
}

fn main(rt: HostRuntime) -> Result<(), anyhow::Error> {
    let mut kind = String::new(rt.alloc());
    let mut task = Task {
        vertices: 0,
        edges: 0,
        changes: 0,
        rounds: 0,
    };
    for (i, word) in env::args(&rt)?.enumerate() {
        let number = word.as_str().parse::<u32>().unwrap_or(0);
        match i {
            1 => kind = word,
            2 => task.vertices = number,
            3 => task.edges = number,
            4 => task.changes = number,
            5 => task.rounds = number,
            _ => {}
        }
    }
    match run(rt.alloc(), kind.as_str(), task) {
        Some(sum) => println!(rt; "sum {sum}")?,
        None => println!(rt; "failed")?,
    }
    Ok(())
}
