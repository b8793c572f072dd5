//! Many replies with ample memory, by one thread and by several. That a text is spelled beforehand no clause says, so that
//! one which is too long for that stands among them.

use crate::asserts::{holds, same_in};
use graph_model::{NoMemory, Pair, Pairs, Payload};
use io_edges::{MemSink, OutBuffer};
use reply_printing::print_side_by_side;
use request_text::{Replies, Reply, print_replies};
use std::alloc::Global;
use std::test::Fail;

/// How many replies there are: so many that several threads spell them, in two rounds of four.
const REPLIES: u64 = 200_000;

/// The reply of this number, counted from 0, that lists edges, which are longer together than what is spelled beforehand.
const LONG: u64 = 20_000;

const EDGES: u64 = 160_000;

/// The list of the one long reply.
fn many_edges(alloc: Global) -> Result<Pairs, NoMemory> {
    let mut pairs = Pairs::new(alloc);
    for d in 0..EDGES {
        let p = Payload::from_slice(alloc, b"")?;
        pairs.push(Pair { d, p })?;
    }
    Ok(pairs)
}

/// All replies.
fn replies(alloc: Global) -> Result<Replies, NoMemory> {
    let mut replies = Replies::new(alloc);
    for i in 0..REPLIES {
        replies.push(match i {
            LONG => Reply::Edges {
                pairs: many_edges(alloc)?,
            },
            _ if i % 3 == 0 => Reply::Committed { epoch: i },
            _ => Reply::Added,
        })?;
    }
    Ok(replies)
}

/// A sink with room for all replies.
fn sink(alloc: Global) -> Option<MemSink> {
    MemSink::new(alloc, 1 << 23, Vec::new(alloc)).ok()
}

#[test]
fn any_number_of_threads_prints_what_one_does(rt: HostRuntime) -> Result<(), Fail> {
    let alloc = rt.alloc();
    let all = replies(alloc).ok().ok_or("memory")?;
    let mut wanted = sink(alloc).ok_or("memory")?;
    let mut outlet = OutBuffer::new(alloc, 1000).ok().ok_or("memory")?;
    let printed = print_replies(&mut outlet, &mut wanted, &all);
    holds(&rt, printed.is_ok());
    holds(&rt, outlet.flush(&mut wanted).is_ok());
    for threads in [1, 2, 3, 4, 64] {
        let mut told = sink(alloc).ok_or("memory")?;
        let mut buffer = OutBuffer::new(alloc, 1000).ok().ok_or("memory")?;
        let printed = print_side_by_side(&rt, alloc, threads, &mut buffer, &mut told, &all);
        same_in(&rt, printed.is_ok(), true, threads);
        same_in(&rt, buffer.flush(&mut told).is_ok(), true, threads);
        same_in(&rt, told.written() == wanted.written(), true, threads);
    }
    Ok(())
}
