//! The same script on a log over a vector and on a log in blocks.

ghost use Rattle.std.specs.Prelude.{ℕ, ◌<◌, ◌^◌};
ghost use Rattle.log_scripts.specs.Owners.{IsOwned};

use crate::asserts::{holds_in, same_in};
use crate::readings::{Notes, note_all, readers};
use crate::script::{Step, generated};
use crate::steps::{Answer, Writer, apply};
use block_pool::Pool;
use edge_log::{EdgeLog, LogRefusal, Part, PlainLog};
use graph_model::{NoMemory, Payload};
use std::alloc::Global;
use std::process::Abort;
use std::test::Fail;
use tel_block::TelBlock;

// What one log has shown, and what its steps were answered.
#[derive(Drop)]
struct Shown {
    part: Part,
    notes: Notes,
    full: u64,
    replaced: u64,
}

impl Shown {
    fn new(alloc: Global) -> Result<Shown, NoMemory> {
        Ok(Shown {
            part: Part::new(alloc, Payload::MOST)?,
            notes: Notes::new(alloc),
            full: 0,
            replaced: 0,
        })
    }

    // Counts what a script is to meet.
    fn count(&mut self, answer: Answer) {
        match answer {
            Answer::Refused(LogRefusal::LogFull) => self.full = self.full.saturating_add(1),
            Answer::Replaced => self.replaced = self.replaced.saturating_add(1),
            _ => {}
        }
    }
}

// Does a step, and notes the answer and what all readers see then.
fn stepped<L: EdgeLog>(
    rt: &impl Abort,
    alloc: Global,
    room: &mut L::Room,
    log: &mut L,
    writer: &mut Writer,
    step: Step,
    shown: &mut Shown,
) -> Answer
    requires stands { L.stands log.old room.old }
    requires owned { IsOwned writer.old.read writer.old.tid (L.content log.old room.old) }
    requires numbers { (n : ℕ) → n < 2 ^ 32 → L.keeps_number n }
    requires epochs { (n : ℕ) → 0 < n → n < 2 ^ 32 → L.keeps_epoch n }
    ensures stands { L.stands log.new room.new }
    ensures owned { IsOwned writer.new.read writer.new.tid (L.content log.new room.new) }
{
    let answer = apply(rt, alloc, room, log, writer, step);
    shown.count(answer);
    shown.notes.clear();
    note_all(
        room,
        log,
        &readers(*writer),
        &mut shown.part,
        &mut shown.notes,
    )
    .expect(rt, "memory for notes");
    answer
}

// Runs a script on both, with the same limit, and compares them after each step. Answers how many puts found the
// log full, how many edges were replaced, and the order of the block.
fn run_both(rt: &impl Abort, alloc: Global, most: u64, steps: &[Step]) -> (u64, u64, u32)
    requires { most < 2 ^ 30 }
{
    let mut pool = Pool::new(alloc);
    let mut plain = PlainLog::start(alloc, &mut (), 1, 5, 28, most).expect(rt, "a log");
    let mut block = TelBlock::start(alloc, &mut pool, 1, 5, 28, most).expect(rt, "a log");
    let mut plain_shown = Shown::new(alloc).expect(rt, "memory for notes");
    let mut block_shown = Shown::new(alloc).expect(rt, "memory for notes");
    let mut plain_writer = Writer { tid: 1, read: 0 };
    let mut block_writer = Writer { tid: 1, read: 0 };
    for (i, step) in steps.iter().enumerate() {
        let plain_answer = stepped(
            rt,
            alloc,
            &mut (),
            &mut plain,
            &mut plain_writer,
            *step,
            &mut plain_shown,
        );
        let block_answer = stepped(
            rt,
            alloc,
            &mut pool,
            &mut block,
            &mut block_writer,
            *step,
            &mut block_shown,
        );
        same_in(rt, plain_answer, block_answer, i);
        same_in(rt, plain_writer, block_writer, i);
        let same = plain_shown.notes.as_slice() == block_shown.notes.as_slice();
        holds_in(rt, same, i);
    }
    (
        block_shown.full,
        block_shown.replaced,
        block.block().order(),
    )
}

// How many steps each script has.
const STEPS: u32 = 200;

#[test]
fn a_log_in_blocks_shows_after_each_step_what_a_log_over_a_vector_shows(
    rt: HostRuntime,
) -> Result<(), Fail> {
    let mut refused = 0u64;
    for (seed, most) in [(1, 1500), (2, 4000), (3, 200000), (4, 1 << 20)] {
        let steps = generated(rt.alloc(), seed, STEPS)?;
        let (full, replaced, order) = run_both(&rt, rt.alloc(), most, &steps);
        holds_in(&rt, replaced > 20, seed);
        holds_in(&rt, order > 4, seed);
        refused = refused.saturating_add(full);
    }
    assert!(rt; refused > 50, "limits are met");
    Ok(())
}
