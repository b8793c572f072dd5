//! What workers are given of a script, before they run.

ghost use Rattle.std.specs.Prelude.{◌≡◌, ℕ, ◌<◌, ◌≤◌, ◌^◌, [], length, reverse, slice_index_or, IfOk};
ghost use Rattle.worker_lines.specs.Lines.{lines_of, AreOwners};
ghost use Rattle.worker_sessions.specs.Sessions.{EachIs};
ghost use Rattle.store_workers.specs.Crews.{AreNumbered, IsCrew};

use crate::worker::Crew;
use graph_model::NoMemory;
use script_parts::ScriptParts;
use std::alloc::Global;
use worker_sessions::sessions_from;

// What the lines of a script are, counted.
#[derive(Drop)]
struct Counts {
    // How many lines each worker has.
    lines: Vec<usize>,
    // Which worker each line is for; empty where one worker has them all.
    owners: Vec<u32>,
    // A number above those of all sessions.
    limit: u64,
}

// The counts of a script that so many workers share. Time: one step for each line.
fn counted(alloc: Global, script: &ScriptParts, count: u32) -> Result<Counts, NoMemory>
    requires some { 0 < count }
    ensures len { IfOk result (λ r. length r.lines.items ≡ count) }
    ensures counts { IfOk result (λ r. (w : ℕ) → w < count
        → slice_index_or r.lines.items w 0 ≡ length (lines_of w count script.now)) }
    ensures owned { IfOk result (λ r. AreOwners count r.owners.items 0 script.now) }
    ensures above { IfOk result (λ r. EachIs (λ line. line.session < r.limit) script.now) }
    ensures bound { IfOk result (λ r. r.limit ≤ 2 ^ 32) }
{
    let mut lines = vec![in alloc; 0; count as usize]?;
    let noted = if count > 1 { script.len() } else { 0 };
    let mut owners = Vec::with_capacity(alloc, noted)?;
    let mut limit = 0;
    for part in script.parts() {
        for session in part.sessions() {
            let owner = *session % count;
            lines[owner as usize] += 1;
            if count > 1 {
                owners.push_reserved(owner);
            }
            limit = limit.max(u64::from(*session) + 1);
        }
    }
    Ok(Counts {
        lines,
        owners,
        limit,
    })
}

// The crew of the worker with this number among so many, which has so many lines.
fn crew(
    alloc: Global,
    script: &ScriptParts,
    number: u32,
    count: u32,
    limit: u64,
    lines: usize,
) -> Result<Crew, NoMemory>
    requires one_of { number < count }
    requires above { EachIs (λ line. line.session < limit) script.now }
    requires bound { limit ≤ 2 ^ 32 }
    requires lines { lines ≡ length (lines_of number count script.now) }
    ensures { IfOk result (λ crew. IsCrew count script.now number crew) }
{
    let sessions = sessions_from(alloc, u64::from(number), u64::from(count), limit)?;
    let replies = Vec::with_capacity(alloc, lines)?;
    Ok(Crew { sessions, replies })
}

/// What the workers of a script are given.
#[derive(Drop)]
pub(crate) struct Shares {
    /// The crews of the workers, the last one first.
    pub(crate) crews: Vec<Crew>,
    /// Which worker each line is for; empty where one worker has them all.
    pub(crate) owners: Vec<u32>,
}

/// The shares of so many workers in a script. They have the sessions up to the greatest of the script.
///
/// Time: one step for each line, for each worker, and for each session.
pub(crate) fn shares_for(
    alloc: Global,
    script: &ScriptParts,
    count: u32,
) -> Result<Shares, NoMemory>
    ensures crews { IfOk result (λ r. AreNumbered (IsCrew count script.now) 0 (reverse r.crews.items)) }
    ensures len { IfOk result (λ r. length r.crews.items ≡ count) }
    ensures owned { IfOk result (λ r. 0 < count → AreOwners count r.owners.items 0 script.now) }
{
    if count == 0 {
        return Ok(Shares {
            crews: Vec::new(alloc),
            owners: Vec::new(alloc),
        });
    }
    let Counts {
        lines,
        owners,
        limit,
    } = counted(alloc, script, count)?;
    let mut crews = Vec::with_capacity(alloc, count as usize)?;
    let mut left = count;
    while left > 0 {
        left -= 1;
        let own = lines[left as usize];
        crews.push_reserved(crew(alloc, script, left, count, limit, own)?);
    }
    Ok(Shares { crews, owners })
}
