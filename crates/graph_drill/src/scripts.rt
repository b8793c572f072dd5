//! The scripts of a drill, line after line.

ghost use Rattle.std.specs.Prelude.{◌≡◌, ◌≤◌, ◌<◌, ◌+◌, ◌-◌, ◌^◌, ◌++◌, IfOk, OnOk};
ghost use Rattle.std.specs.List.{AllByRecursion};
ghost use Rattle.request_text.specs.Limits.{AreWithinLimits};
ghost use Rattle.graph_drill.specs.Scripts.{first_script, second_script, round_lines};
ghost use Rattle.graph_drill.specs.Sessions.{AreAfter};

use crate::drill::Drill;
use crate::drill_session::{DrillSession, push};
use graph_model::{NoMemory, Payload};
use request_text::{Request, Script};
use std::alloc::Global;

/// The two scripts of a drill of so many sessions and rounds, where `next_vertex` is the number that the first
/// script's first vertex gets.
///
/// `NoMemory`: memory ran out, and nothing is left of the scripts. Time and memory: some steps for each line, at most
/// five for each session in each round.
pub fn drill_scripts(
    alloc: Global,
    seed: u64,
    sessions: u32,
    rounds: u32,
    next_vertex: u64,
) -> Result<(Script, Script), NoMemory>
    requires { next_vertex + sessions ≤ 2 ^ 62 }
    ensures first { IfOk result (λ scripts. scripts.0 ≡ first_script sessions) }
    ensures second { IfOk result (λ scripts. scripts.1 ≡ second_script seed next_vertex sessions rounds) }
    ensures within { sessions ≤ 65536 → IfOk result (λ scripts. AreWithinLimits scripts.0 × AreWithinLimits scripts.1) }
    ensures below { IfOk result (λ scripts. AllByRecursion (λ line. line.session < sessions) scripts.1) }
{
    let drill = Drill {
        alloc,
        seed,
        sessions,
        next_vertex,
    };
    let first = first(&drill)?;
    let second = second(&drill, rounds)?;
    Ok((first, second))
}

/// The first script.
fn first(drill: &Drill) -> Result<Script, NoMemory>
    ensures { IfOk result (λ script. script ≡ first_script drill.now.sessions) }
{
    let mut script = Script::new(drill.alloc);
    push(&mut script, 0, Request::Begin)?;
    for _ in 0..drill.sessions {
        let p = Payload::from_slice(drill.alloc, b"")?;
        push(&mut script, 0, Request::Vertex { p })?;
    }
    push(&mut script, 0, Request::Commit)?;
    Ok(script)
}

/// The second script.
fn second(drill: &Drill, rounds: u32) -> Result<Script, NoMemory>
    requires { drill.now.next_vertex + drill.now.sessions ≤ 2 ^ 62 }
    ensures { IfOk result (λ script. script
        ≡ second_script drill.now.seed drill.now.next_vertex drill.now.sessions rounds) }
{
    let mut sessions = sessions_of(drill)?;
    let mut script = Script::new(drill.alloc);
    for done in 0..rounds {
        push_round(drill, done + 1, &mut sessions, &mut script)?;
    }
    Ok(script)
}

/// The sessions, before the first round.
fn sessions_of(drill: &Drill) -> Result<Vec<DrillSession>, NoMemory>
    requires { drill.now.next_vertex + drill.now.sessions ≤ 2 ^ 62 }
    ensures { IfOk result (λ all. AreAfter drill.now 0 all.items) }
{
    let mut all = Vec::with_capacity(drill.alloc, drill.sessions as usize)?;
    for number in 0..drill.sessions {
        all.push(DrillSession::new(drill, number))?;
    }
    Ok(all)
}

/// Appends the lines of a round.
fn push_round(
    drill: &Drill,
    round: u32,
    all: &mut [DrillSession],
    script: &mut Script,
) -> Result<(), NoMemory>
    requires counted { 0 < round }
    requires after { AreAfter drill.now (round - 1) all.old }
    ensures pushed { OnOk result (script.new
        ≡ script.old ++ round_lines drill.now.seed drill.now.next_vertex drill.now.sessions round) }
    ensures after { OnOk result (AreAfter drill.now round all.new) }
{
    for session in all.iter_mut() {
        session.push_round(drill, round, script)?;
    }
    Ok(())
}
