//! What transactions do to one log, as plain data, and lists of it that look random.

ghost use Rattle.std.specs.Prelude.{◌<◌};

use graph_model::NoMemory;
use std::alloc::Global;

/// What a transaction does. When it has ended, the next one begins.
#[derive(Clone, Copy, Debug)]
pub(crate) enum Step {
    Put { d: u64, len: u16, byte: u8 },
    Del { d: u64 },
    Commit { epoch: u64 },
    Undo,
}

/// How many destinations there are, from 0 on.
pub(crate) const DESTINATIONS: u64 = 7;

// Numbers that look random, the same in each run.
#[derive(Drop)]
struct Dice {
    state: u64,
    epoch: u64,
}

impl Dice {
    fn below(&mut self, n: u64) -> u64
        requires { 0 < n }
        ensures { result < n }
    {
        self.state = self
            .state
            .wrapping_mul(6364136223846793005)
            .wrapping_add(1442695040888963407);
        (self.state >> 33) % n
    }

    fn step(&mut self) -> Step {
        let d = self.below(DESTINATIONS);
        match self.below(20) {
            0..=10 => Step::Put {
                d,
                len: self.len(),
                byte: self.below(256) as u8,
            },
            11..=14 => Step::Del { d },
            15..=18 => self.commit(),
            _ => Step::Undo,
        }
    }

    // Mostly short, seldom so long that few payloads fit into a part.
    fn len(&mut self) -> u16 {
        match self.below(24) {
            0..=5 => 0,
            6..=21 => self.below(40) as u16,
            22 => self.below(600) as u16,
            _ => 25000 + self.below(20000) as u16,
        }
    }

    // An epoch above the last one, which some epochs may lie between.
    fn commit(&mut self) -> Step {
        let by = 1 + self.below(3);
        self.epoch = self.epoch.saturating_add(by);
        Step::Commit { epoch: self.epoch }
    }
}

/// So many steps. Time: one step for each.
pub(crate) fn generated(alloc: Global, seed: u64, count: u32) -> Result<Vec<Step>, NoMemory> {
    let mut dice = Dice {
        state: seed,
        epoch: 0,
    };
    let mut steps = Vec::new(alloc);
    for _ in 0..count {
        steps.push(dice.step())?;
    }
    Ok(steps)
}
