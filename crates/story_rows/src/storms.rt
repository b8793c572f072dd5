//! What no clause says: that many threads on one hot vertex get on, each until it has committed all that it was to.

use disk_model::MemDisk;
use graph_model::Graph;
use graph_recover::recover;
use graph_store::{Closed, Settings};
use std::test::Fail;
use store_storms::{LABEL, Stormed, storm_over};

/// How many threads put edges, and how many each.
const THREADS: u32 = 64;

const EACH: u32 = 200;

// The sum of the destinations of the edges of a vertex, and their number.
fn edges_of(graph: &Graph, v: u64) -> (u64, u64) {
    let mut sum = 0_u64;
    let mut count = 0_u64;
    if let Some(edges) = graph.pairs(v, LABEL) {
        for pair in edges.edges() {
            sum = sum.saturating_add(pair.d);
            count = count.saturating_add(1);
        }
    }
    (sum, count)
}

#[test]
fn every_edge_of_many_threads_on_one_vertex_is_in_the_log(rt: HostRuntime) -> Result<(), Fail> {
    let alloc = rt.alloc();
    let disk = MemDisk::new(alloc, Vec::new(alloc), 100_000, 10_000_000, Vec::new(alloc))
        .ok()
        .ok_or("memory")?;
    let settings = Settings {
        shards: 16,
        log_most: 1 << 24,
    };
    let Stormed {
        vertex,
        committed,
        closed,
    } = storm_over(&rt, alloc, disk, settings, THREADS, EACH).ok_or("no storm")?;
    let many = u64::from(THREADS) * u64::from(EACH);
    assert_eq!(rt; vertex, Some(1));
    assert_eq!(rt; committed, many);
    let Closed { records, disk, .. } = closed;
    assert_eq!(rt; records.len() as u64, many + 1);
    let mut disk = disk;
    let log = recover(alloc, &mut disk).ok().ok_or("no log")?;
    assert_eq!(rt; log.records.len() as u64, many + 1);
    assert_eq!(rt; edges_of(&log.base.graph, 1), (many * (many - 1) / 2, many));
    Ok(())
}
