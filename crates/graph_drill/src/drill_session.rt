//! A session of a drill, with what it keeps from one round to the next.

ghost use Rattle.std.specs.Prelude.{◌≡◌, ◌+◌, ◌-◌, ◌<◌, ◌^◌, ◌++◌, ◌∷◌, [], map, OnOk};
ghost use Rattle.graph_drill.specs.Scripts.{asked_by, in_every, label_of, session_lines};
ghost use Rattle.graph_drill.specs.Sessions.{IsAfter};

use crate::drill::Drill;
use graph_model::{NoMemory, Payload};
use rand_core::{Rng, SeedableRng};
use rand_xoshiro::SplitMix64;
use request_text::{Line, Request, Script};

/// A session: its generator, and the labels that it drew last.
#[derive(Drop)]
pub struct DrillSession {
    /// Its number, from 0.
    pub number: u32,
    /// Its own generator, which gives a word in each round.
    pub words: SplitMix64,
    /// The label of the last round; before the first, 0.
    pub last: u16,
    /// The label of the round before that; before the second, 0.
    pub before_last: u16,
}

impl DrillSession {
    /// The session of this number, before the first round.
    pub fn new(drill: &Drill, number: u32) -> DrillSession
        requires { drill.now.next_vertex + number < 2 ^ 62 }
        ensures after { IsAfter drill.now 0 result }
        ensures number { result.number ≡ number }
    {
        DrillSession {
            number,
            words: SplitMix64::seed_from_u64(drill.seed.wrapping_add(u64::from(number))),
            last: 0,
            before_last: 0,
        }
    }

    /// Appends the lines of the next round. After NoMemory a part of them may be there. Time: constant, amortized.
    pub fn push_round(
        &mut self,
        drill: &Drill,
        round: u32,
        script: &mut Script,
    ) -> Result<(), NoMemory>
        requires counted { 0 < round }
        requires after { IsAfter drill.now (round - 1) self.old }
        ensures pushed { OnOk result (script.new
            ≡ script.old ++ session_lines drill.now.seed drill.now.next_vertex round self.old.number) }
        ensures after { OnOk result (IsAfter drill.now round self.new) }
        ensures number { self.new.number ≡ self.old.number }
    {
        let word = self.words.next_u64();
        let v = drill.next_vertex + u64::from(self.number);
        let l = label_of(word);
        let d = u64::from(round);
        let p = Payload::from_slice(drill.alloc, &word.to_be_bytes())?;
        // It is asked in every fifth round, and the first of these has a round two before it.
        let taken = Request::Del {
            v,
            l: self.before_last,
            d: d.saturating_sub(2),
        };
        push(script, self.number, Request::Begin)?;
        push(script, self.number, Request::Put { v, l, d, p })?;
        push_in_every(5, round, script, self.number, taken)?;
        push_in_every(10, round, script, self.number, Request::Scan { v, l })?;
        push(script, self.number, Request::Commit)?;
        self.before_last = self.last;
        self.last = l;
        Ok(())
    }
}

/// The label that a word gives.
fn label_of(word: u64) -> u16
    ensures { result ≡ label_of word }
{
    1 + (word % 4) as u16
}

/// Appends a line of a session in every `n`th round. After NoMemory the script is as before.
fn push_in_every(
    n: u32,
    round: u32,
    script: &mut Script,
    session: u32,
    request: Request,
) -> Result<(), NoMemory>
    requires { 0 < n }
    ensures { OnOk result (script.new ≡ script.old ++ map (asked_by session) (in_every n round request)) }
{
    if round % n == 0 {
        return push(script, session, request);
    }
    Ok(())
}

/// Appends a line of a session. After NoMemory the script is as before.
pub fn push(script: &mut Script, session: u32, request: Request) -> Result<(), NoMemory>
    ensures { OnOk result (script.new ≡ script.old ++ asked_by session request ∷ []) }
{
    script.push(Line { session, request })
}
