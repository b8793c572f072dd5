//! Generated lists of events by three actors, on vertices of two shards: over logs in vectors, and over logs in blocks.

ghost use Rattle.std.specs.Prelude.{◌≡◌, ◌<◌, ℕ, []};
ghost use Rattle.graph_model.specs.Records.{IsGood, number_end};
ghost use Rattle.part_scripts.specs.Rows.{IsFresh};

use block_pool::Pool;
use core_states::{Act, Event};
use edge_log::{EdgeLog, PlainLog};
use epoch_clock::EpochPart;
use graph_model::{Base, Graph, LIST_MOST, NoMemory, Payload, Query};
use part_scripts::{Went, do_event, new_core};
use reader_table::ReaderTable;
use shard_state::Shard;
use std::alloc::Global;
use std::process::Abort;
use std::test::Fail;
use tel_block::TelBlock;

/// How many lists are tried, and how many events each has.
const LISTS: u64 = 40;

const EVENTS: u32 = 500;

// Numbers that look random, the same in each run.
#[derive(Drop)]
struct Dice {
    state: u64,
    moment: u64,
    faults: u64,
}

impl Dice {
    fn below(&mut self, n: u64) -> u64
        requires { 0 < n }
        ensures { result < n }
    {
        self.state = self
            .state
            .wrapping_mul(6364136223846793005)
            .wrapping_add(1442695040888963407);
        (self.state >> 33) % n
    }

    // A payload of up to 40 bytes.
    fn payload(&mut self, alloc: Global) -> Result<Payload, NoMemory> {
        let bytes = [self.below(200) as u8; 40];
        let len = self.below(41) as usize;
        Payload::from_slice(alloc, &bytes[..len])
    }

    // An act of an actor.
    fn act(&mut self, alloc: Global) -> Result<Act, NoMemory> {
        match self.below(70) {
            0..=4 => Ok(Act::Begin),
            5 => Ok(Act::Draw),
            6..=9 => Ok(Act::Enqueue),
            10..=12 => Ok(Act::Collect),
            13..=18 => Ok(Act::WriteGroup {
                moment: self.moment(),
            }),
            19..=23 => Ok(Act::Publish),
            24..=25 => Ok(Act::Outcome),
            26..=28 => Ok(Act::Done),
            29..=30 => Ok(Act::End),
            31 => Ok(self.fault()),
            32..=33 => Ok(Act::Mend),
            34 => Ok(Act::Horizon),
            _ => self.act_on_row(alloc),
        }
    }

    // An act on one of four vertices.
    fn act_on_row(&mut self, alloc: Global) -> Result<Act, NoMemory> {
        let v = self.below(4).saturating_add(1);
        let d = self.below(5);
        let l = if self.below(4) == 0 { 6 } else { 5 };
        match self.below(36) {
            0..=9 => Ok(Act::Put {
                v,
                l,
                d,
                p: self.payload(alloc)?,
            }),
            10..=12 => Ok(Act::Del { v, l, d }),
            13 => Ok(Act::Set {
                v,
                p: self.payload(alloc)?,
            }),
            14 => Ok(self.rare(v)),
            15 => Ok(Act::New {
                v,
                p: self.payload(alloc)?,
            }),
            16..=24 => Ok(Act::Apply { v }),
            25..=26 => Ok(Act::Undo { v }),
            27..=29 => Ok(Act::Look { v }),
            30 => Ok(Act::Read {
                q: Query::Vertex { v },
            }),
            31 => Ok(Act::Read {
                q: Query::Edge { v, l, d },
            }),
            32..=34 => Ok(Act::Read {
                q: Query::Scan { v, l },
            }),
            _ => Ok(Act::Read {
                q: Query::Labels { v },
            }),
        }
    }

    // A drop, seldom.
    fn rare(&mut self, v: u64) -> Act {
        if self.below(3) == 0 {
            Act::Drop { v }
        } else {
            Act::Look { v }
        }
    }

    // A moment, which is not before that of the last append.
    fn moment(&mut self) -> u64 {
        self.moment = self.moment.saturating_add(self.below(2));
        self.moment
    }

    // An append that meets a fault.
    fn fault(&mut self) -> Act {
        let before = self.faults;
        self.faults = before.saturating_add(1);
        Act::Fail {
            before,
            after: self.faults,
        }
    }

    // The next event of a list: all three actors become known, and open their rows, and the first one makes the vertices.
    fn event(&mut self, alloc: Global, i: u32) -> Result<Event, NoMemory> {
        if i < 6 {
            return Ok(Event {
                actor: i % 3,
                act: Act::Open,
            });
        }
        if let Some(act) = self.first_act(alloc, i - 6)? {
            return Ok(Event { actor: 0, act });
        }
        let actor = self.below(3) as u32;
        let act = self.act(alloc)?;
        Ok(Event { actor, act })
    }

    // The acts of the first transaction, which makes three vertices.
    fn first_act(&mut self, alloc: Global, i: u32) -> Result<Option<Act>, NoMemory> {
        match i {
            0 => Ok(Some(Act::Begin)),
            1..=3 => Ok(Some(Act::Draw)),
            4..=6 => Ok(Some(Act::New {
                v: u64::from(i - 3),
                p: self.payload(alloc)?,
            })),
            7 => Ok(Some(Act::Enqueue)),
            8 => Ok(Some(Act::Collect)),
            9 => Ok(Some(Act::WriteGroup { moment: 1 })),
            10 => Ok(Some(Act::Publish)),
            11 => Ok(Some(Act::Outcome)),
            12..=14 => Ok(Some(Act::Apply {
                v: u64::from(i - 11),
            })),
            15 => Ok(Some(Act::Done)),
            _ => Ok(None),
        }
    }
}

/// A base without records.
fn base_of_nothing(alloc: Global) -> Base
    ensures good { IsGood result }
    ensures empty { result.graph ≡ [] }
{
    Base {
        graph: Graph::empty(alloc),
        epoch: 0,
        next_tid: 1,
        next_vertex: 1,
    }
}

// Runs a list of events, and answers how many of those on rows were answered the same, and how many were left.
fn run_list<L: EdgeLog + Drop>(
    alloc: Global,
    seed: u64,
    even: &mut Shard<L, L::Room>,
    odd: &mut Shard<L, L::Room>,
) -> Result<(u64, u64), Fail>
    requires even { IsFresh L.stands L.footprint L.content L.limit 0 even.old }
    requires odd { IsFresh L.stands L.footprint L.content L.limit 1 odd.old }
    requires numbers { (n : ℕ) → n < number_end → L.keeps_number n }
    requires epochs { (n : ℕ) → 0 < n → n < number_end → L.keeps_epoch n }
{
    let base = base_of_nothing(alloc);
    let mut core = new_core(alloc, &base, even, odd);
    let mut part = EpochPart::new(alloc, &base, ReaderTable::new(alloc));
    let mut rows = [0u32; 3];
    let mut dice = Dice {
        state: seed,
        moment: 1,
        faults: 0,
    };
    let mut same = 0u64;
    let mut left = 0u64;
    for i in 0..EVENTS {
        let event = dice.event(alloc, i)?;
        match do_event(
            alloc, &base, &mut core, &mut part, &mut rows, even, odd, &event,
        )? {
            Went::Apart => return Err(Fail::from("a part answers what the core does not")),
            Went::Same => same = same.saturating_add(1),
            Went::Left => left = left.saturating_add(1),
            Went::Alone => {}
        }
    }
    Ok((same, left))
}

#[test]
fn a_shard_over_vectors_answers_generated_events_as_the_core(rt: HostRuntime) -> Result<(), Fail> {
    let alloc = rt.alloc();
    let mut all = 0u64;
    for seed in 0..LISTS {
        let mut even: Shard<PlainLog, ()> = Shard::new(alloc, 0, 2, LIST_MOST, ())?;
        let mut odd: Shard<PlainLog, ()> = Shard::new(alloc, 1, 2, LIST_MOST, ())?;
        let (same, _left) = run_list::<PlainLog>(alloc, seed, &mut even, &mut odd)?;
        all = all.saturating_add(same);
    }
    assert!(rt; all > 1500, "events on rows were done: {all}");
    Ok(())
}

#[test]
fn a_shard_over_blocks_answers_generated_events_as_the_core(rt: HostRuntime) -> Result<(), Fail> {
    let alloc = rt.alloc();
    let mut all = 0u64;
    for seed in 0..LISTS {
        let mut even: Shard<TelBlock, Pool> = Shard::new(alloc, 0, 2, LIST_MOST, Pool::new(alloc))?;
        let mut odd: Shard<TelBlock, Pool> = Shard::new(alloc, 1, 2, LIST_MOST, Pool::new(alloc))?;
        let (same, _left) = run_list::<TelBlock>(alloc, seed, &mut even, &mut odd)?;
        all = all.saturating_add(same);
    }
    assert!(rt; all > 1500, "events on rows were done: {all}");
    Ok(())
}
