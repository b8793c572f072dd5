//! Decodes the log on standard input, for timing; or, with a seed and a count, as many damaged copies of it.
//!
//! It prints how many were decoded and how many were refused, how often memory ran out, and a sum of all that was
//! answered, so that no answer is left out.
#![tactic(auto)]

use group_codec::{CodecRefusal, decode_log};
use io_edges::{StdSource, read_all};
use std::alloc::Global;
use std::env;

/// What was answered so far.
#[derive(Drop)]
struct Tally {
    fine: u64,
    bad: u64,
    memory: u64,
    sum: u64,
}

/// The next state of a generator, and its draw: SplitMix64.
fn next(state: u64) -> (u64, u64) {
    let state = state.wrapping_add(0x9E37_79B9_7F4A_7C15);
    let z = (state ^ (state >> 30)).wrapping_mul(0xBF58_476D_1CE4_E5B9);
    let z = (z ^ (z >> 27)).wrapping_mul(0x94D0_49BB_1331_11EB);
    (state, z ^ (z >> 31))
}

/// Decodes a log.
fn decode(alloc: Global, bytes: &[u8], tally: &mut Tally) {
    match decode_log(alloc, bytes) {
        Ok(decoded) => {
            tally.fine = tally.fine.wrapping_add(1);
            tally.sum = tally
                .sum
                .wrapping_add(decoded.durable)
                .wrapping_add(decoded.records.len() as u64);
        }
        Err(CodecRefusal::BadGroup { at, group }) => {
            tally.bad = tally.bad.wrapping_add(1);
            tally.sum = tally.sum.wrapping_add(at).wrapping_add(group);
        }
        Err(CodecRefusal::NoMemory) => tally.memory = tally.memory.wrapping_add(1),
    }
}

/// Changes one to four places of the copy, mostly to what is near, and cuts one copy in sixteen. Answers the
/// generator's next state.
fn damage(copy: &mut Vec<u8>, state: u64) -> u64 {
    let (mut state, first) = next(state);
    let many = first % 4 + 1;
    for _turn in 0..many {
        let (after, draw) = next(state);
        let (last, value) = next(after);
        state = last;
        let len = copy.len();
        if len > 0 {
            let at = (draw % len as u64) as usize;
            if at < copy.len() {
                let old = copy[at];
                copy[at] = match value % 5 {
                    0 => ((value >> 8) & 0xff) as u8,
                    1 => old.wrapping_add(1),
                    2 => old.wrapping_sub(1),
                    3 => old ^ 1,
                    _ => ((value >> 8) & 7) as u8,
                };
            }
        }
    }
    let (state, cut) = next(state);
    if cut % 16 == 0 {
        let len = copy.len() as u64;
        copy.truncate((cut % (len + 1)) as usize);
    }
    state
}

/// Decodes so many damaged copies.
fn decode_damaged(alloc: Global, bytes: &[u8], seed: u64, count: u64, tally: &mut Tally) {
    let mut state = seed;
    let mut copy = Vec::new(alloc);
    for _turn in 0..count {
        copy.clear();
        if copy.extend_from_slice(bytes).is_err() {
            tally.memory = tally.memory.wrapping_add(1);
        }
        state = damage(&mut copy, state);
        decode(alloc, copy.as_slice(), tally);
    }
}

fn main(rt: HostRuntime) -> Result<(), anyhow::Error> {
    let mut source = StdSource::new(rt.reader());
    let mut tally = Tally {
        fine: 0,
        bad: 0,
        memory: 0,
        sum: 0,
    };
    let mut seed = 0;
    let mut count = 0;
    for (i, word) in env::args(&rt)?.enumerate() {
        let number = word.as_str().parse::<u64>().unwrap_or(0);
        if i == 1 {
            seed = number;
        }
        if i == 2 {
            count = number;
        }
    }
    let Ok(bytes) = read_all(rt.alloc(), &mut source, 4_000_000_000) else {
        println!(rt; "unread")?;
        return Ok(());
    };
    if count == 0 {
        decode(rt.alloc(), bytes.as_slice(), &mut tally);
    }
    decode_damaged(rt.alloc(), bytes.as_slice(), seed, count, &mut tally);
    let Tally {
        fine,
        bad,
        memory,
        sum,
    } = tally;
    println!(rt; "fine {fine} bad {bad} memory {memory} sum {sum}")?;
    Ok(())
}
