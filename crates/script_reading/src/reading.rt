//! Reading side by side.

ghost use Rattle.std.specs.Prelude.{◌≡◌, ℕ, List, take, drop, IfOk, IfErr, Ok};
ghost use Rattle.std.specs.Thread.{IsSync};
ghost use Rattle.request_text.specs.Scripts.{script_of};
ghost use Rattle.request_text.specs.Limits.{AreWithinLimits};
ghost use Rattle.request_text.specs.Reading.{RefusesText};
ghost use Rattle.script_reading.specs.Borders.{IsBorder, Reads};

use crate::border::border_from;
use request_text::{TextRefusal, read_script};
use script_parts::{Part, ScriptParts};
use std::alloc::Global;
use std::thread::{Threads, join};

/// How many bytes of the text a part of the script has at least, but for the last one. A text of fewer bytes is read by one
/// thread: another would take longer to start than to read a part of it.
const PART_LEAST: usize = 1 << 16;

/// How many parts a script has at most that one thread alone reads.
const PARTS_MOST: usize = 8;

/// The script that the bytes are, read by one thread.
fn whole(alloc: Global, bytes: &[u8]) -> Result<ScriptParts, TextRefusal>
    ensures read { IfOk result (λ script. script_of bytes.now ≡ Ok script) }
    ensures spellable { IfOk result AreWithinLimits }
    ensures bad_line { IfErr result (λ refusal. RefusesText refusal (script_of bytes.now)) }
{
    let script = read_script(alloc, bytes)?;
    Ok(ScriptParts::of(alloc, script)?)
}

/// The script that the bytes are, read by one thread alone, part by part; none where they are no script, or where memory ran out.
fn read_alone(alloc: Global, bytes: &[u8]) -> Option<ScriptParts>
    ensures { Reads bytes.now result }
{
    let mut script = ScriptParts::new(alloc);
    let least = PART_LEAST.max(bytes.len() / PARTS_MOST);
    let mut rest = bytes;
    while !rest.is_empty() {
        let (front, back) = rest.split_at(border_from(rest, least));
        let lines = read_script(alloc, front).ok()?;
        script.push(Part::of(alloc, lines).ok()?).ok()?;
        rest = back;
    }
    Some(script)
}

/// The lines of two parts of a text that is cut at a border.
fn joined(first: Option<ScriptParts>, second: Option<ScriptParts>) -> Option<ScriptParts>
    ensures { (bytes : List ℕ) (at : ℕ) → IsBorder bytes at →
        Reads (take at bytes) first → Reads (drop at bytes) second → Reads bytes result }
{
    let mut script = first?;
    let rest = second?;
    match script.append(rest) {
        Ok(()) => Some(script),
        Err(_) => None,
    }
}

/// The script that the bytes are, which so many threads share among them; none where they are no script, or where memory
/// ran out.
#[cycle(parts)]
fn read_parts<R: Threads + Sync>(
    rt: &R,
    alloc: Global,
    bytes: &[u8],
    threads: u32,
) -> Option<ScriptParts>
    ensures { Reads bytes.now result }
{
    if threads < 2 || bytes.len() < PART_LEAST {
        return whole(alloc, bytes).ok();
    }
    let (front, back) = bytes.split_at(border_from(bytes, bytes.len() / 2));
    let few = threads / 2;
    let rest = threads - few;
    let (first, second) = join(
        rt,
        || -> Option<ScriptParts>
            requires { IsSync R.row }
            ensures { Reads front.entry.now result }
        { read_parts(rt, alloc, front, few) },
        || -> Option<ScriptParts>
            requires { IsSync R.row }
            ensures { Reads back.entry.now result }
        { read_parts(rt, alloc, back, rest) },
    );
    joined(first, second)
}

/// The script that the bytes are, read by so many threads; none where they are no script, or where memory ran out.
fn read_by<R: Threads + Sync>(
    rt: &R,
    alloc: Global,
    bytes: &[u8],
    threads: u32,
) -> Option<ScriptParts>
    ensures { Reads bytes.now result }
{
    if threads < 2 {
        return read_alone(alloc, bytes);
    }
    read_parts(rt, alloc, bytes, threads)
}

/// The script that the bytes are, read by so many threads where it is long. A thread that cannot be made leaves its part to
/// another. What a thread read stays where it lies, as a part of the script; what one alone reads lies in up to 8 parts.
///
/// `BadLine`: the bytes are no script, and this is the first place that is bad. `NoMemory`: memory ran out.
/// Time: one step for each byte, shared among the threads; where the bytes are no script, one more by one thread. Memory:
/// the lines and their payloads, of which those that follow each other in a part and are the same are one, and 4 bytes more
/// for each line.
pub fn read_side_by_side<R: Threads + Sync>(
    rt: &R,
    alloc: Global,
    bytes: &[u8],
    threads: u32,
) -> Result<ScriptParts, TextRefusal>
    ensures read { IfOk result (λ script. script_of bytes.now ≡ Ok script) }
    ensures spellable { IfOk result AreWithinLimits }
    ensures bad_line { IfErr result (λ refusal. RefusesText refusal (script_of bytes.now)) }
{
    match read_by(rt, alloc, bytes, threads) {
        Some(script) => Ok(script),
        None => whole(alloc, bytes),
    }
}
