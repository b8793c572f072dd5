//! Does one kind of work on the block of one edge log, again and again, for timing.
//!
//! The words: the kind of work, or `each`; how many edges the log has; `8` where each has a payload of 8 bytes, else
//! `0`; `half` where about half of the edges are ended, else `all`; how often the work is done. It prints a sum of all
//! that was answered, so that no answer is left out. A count of 0 makes the log and does nothing more.
#![tactic(auto)]

mod logs;
mod pooled;
mod room;
mod work;

use graph_model::Payload;
use logs::{empty_block, fill_block};
use pooled::{double_all, find_absent};
use room::order_for;
use std::alloc::Global;
use std::env;
use work::{again, append_all, scan_log};

/// What is asked for.
#[derive(Drop)]
struct Task {
    edges: u32,
    paid: bool,
    half: bool,
    rounds: u64,
}

const PAYLOAD: [u8; 8] = [1, 2, 3, 4, 5, 6, 7, 8];

const KINDS: [&str; 7] = [
    "scan", "find", "absent", "append", "double", "place", "convert",
];

// One kind of work; none where memory runs out, or the log is too large.
fn run(alloc: Global, kind: &str, task: &Task) -> Option<u64> {
    let Task {
        edges,
        half,
        rounds,
        ..
    } = *task;
    let p = if task.paid { PAYLOAD.as_slice() } else { &[] };
    if edges > 10_000_000 {
        return None;
    }
    if kind == "double" || kind == "find" || kind == "absent" {
        let p = Payload::from_slice(alloc, p).ok()?;
        return if kind == "double" {
            double_all(alloc, edges, &p, rounds)
        } else {
            find_absent(alloc, edges, &p, kind == "find", rounds)
        };
    }
    let order = order_for(edges)?;
    let mut block = empty_block(alloc, order)?;
    if kind == "append" {
        return Some(append_all(&mut block, order, edges, p, rounds));
    }
    let fill = fill_block(&mut block, order, edges, p, half);
    if kind == "scan" {
        return scan_log(alloc, &block, order, fill, rounds);
    }
    again(&mut block, order, fill, p, rounds, kind == "convert");
    Some(u64::from(fill.props))
}

fn main(rt: HostRuntime) -> Result<(), anyhow::Error> {
    let mut kind = String::new(rt.alloc());
    let mut task = Task {
        edges: 0,
        paid: false,
        half: false,
        rounds: 0,
    };
    for (i, word) in env::args(&rt)?.enumerate() {
        let number = word.as_str().parse::<u32>().unwrap_or(0);
        match i {
            1 => kind = word,
            2 => task.edges = number,
            3 => task.paid = number == 8,
            4 => task.half = word.as_str() == "half",
            5 => task.rounds = u64::from(number),
            _ => {}
        }
    }
    for each in KINDS {
        if kind.as_str() == each || kind.as_str() == "each" {
            match run(rt.alloc(), each, &task) {
                Some(sum) => println!(rt; "sum {sum}")?,
                None => println!(rt; "failed")?,
            }
        }
    }
    Ok(())
}
