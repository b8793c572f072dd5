//! Reading a text as a script: line by line, and each line word by word from the left.

ghost use Rattle.std.specs.Prelude.{◌≡◌, ◌<◌, ◌^◌, [], IfOk, IfErr, MatchResult, length, List, ℕ, Result};
ghost use Rattle.request_text.specs.Scripts.{line_of, script_of, done, rest_of, with_v_l, with_v_l_d, Placed};
ghost use Rattle.request_text.specs.Limits.{AreWithinLimits};
ghost use Rattle.request_text.specs.Reading.{Gives, Refuses, RefusesText};
ghost use Rattle.request_text.specs.declared.request.Request.{Request};

use crate::last_payload::LastPayload;
use crate::refusal::{LineRefusal, TextRefusal};
use crate::request::{Line, Request, Script};
use crate::request_name::RequestName;
use crate::word::cut;
use crate::words::Words;
use std::alloc::Global;

/// The greatest length of a line, in bytes.
const LINE_MOST: usize = 200_000;
/// What a line of a script takes at least where most of its lines are puts, in bytes.
const USUAL_LINE: usize = 32;
/// The greatest session.
const SESSION_MOST: u64 = 65_535;

/// Reads a vertex and a label.
fn list_place(words: &mut Words<'_>) -> Result<(u64, u16), LineRefusal>
    ensures place { (go : ℕ → ℕ → List Placed → Result Request ℕ) →
        MatchResult result (λ x. with_v_l go words.old.end words.old.words ≡ go x.0 x.1 words.new.words)
        (λ e. Refuses e (with_v_l go words.old.end words.old.words)) }
    ensures end { words.new.end ≡ words.old.end }
{
    let v = words.vertex()?;
    let l = words.label()?;
    Ok((v, l))
}

/// Reads a vertex, a label and a destination.
fn edge_place(words: &mut Words<'_>) -> Result<(u64, u16, u64), LineRefusal>
    ensures place { (go : ℕ → ℕ → ℕ → List Placed → Result Request ℕ) →
        MatchResult result (λ x. with_v_l_d go words.old.end words.old.words ≡ go x.0 x.1 x.2 words.new.words)
        (λ e. Refuses e (with_v_l_d go words.old.end words.old.words)) }
    ensures end { words.new.end ≡ words.old.end }
{
    let v = words.vertex()?;
    let l = words.label()?;
    let d = words.vertex()?;
    Ok((v, l, d))
}

/// Reads what stands after a request's name. Whether a word is left is for the caller to see.
fn request_of<'a>(
    last: &mut LastPayload<'a>,
    name: RequestName,
    words: &mut Words<'a>,
) -> Result<Request, LineRefusal>
    ensures { MatchResult result
        (λ request. rest_of name words.old.end words.old.words ≡ done request words.new.words)
        (λ e. Refuses e (rest_of name words.old.end words.old.words)) }
{
    Ok(match name {
        RequestName::Begin => Request::Begin,
        RequestName::Commit => Request::Commit,
        RequestName::Abort => Request::Abort,
        RequestName::Vertex => Request::Vertex {
            p: words.payload(last)?,
        },
        RequestName::Set => Request::Set {
            v: words.vertex()?,
            p: words.payload(last)?,
        },
        RequestName::Get => Request::Get { v: words.vertex()? },
        RequestName::Drop => Request::Drop { v: words.vertex()? },
        RequestName::Put => {
            let (v, l, d) = edge_place(words)?;
            let p = words.payload(last)?;
            Request::Put { v, l, d, p }
        }
        RequestName::Del => {
            let (v, l, d) = edge_place(words)?;
            Request::Del { v, l, d }
        }
        RequestName::Edge => {
            let (v, l, d) = edge_place(words)?;
            Request::Edge { v, l, d }
        }
        RequestName::Scan => {
            let (v, l) = list_place(words)?;
            Request::Scan { v, l }
        }
        RequestName::Labels => Request::Labels { v: words.vertex()? },
        RequestName::Compact => {
            let (v, l) = list_place(words)?;
            Request::Compact { v, l }
        }
    })
}

/// The line that these bytes are.
fn read_line<'a>(last: &mut LastPayload<'a>, bytes: &'a [u8]) -> Result<Line, LineRefusal>
    ensures { Gives (λ line. line) result (line_of bytes.now) }
{
    if bytes.len() > LINE_MOST {
        return Err(LineRefusal::Column(LINE_MOST as u32 + 1));
    }
    let mut words = Words::new(bytes);
    let session = words.number(SESSION_MOST)? as u32;
    let name = words.name()?;
    let request = request_of(last, name, &mut words)?;
    words.done()?;
    Ok(Line { session, request })
}

/// No line, and where there is so much memory room for those that a text of so many bytes mostly has.
fn empty_script(alloc: Global, bytes: usize) -> Script
    ensures { result ≡ [] }
{
    let lines = Vec::with_capacity(alloc, bytes / USUAL_LINE);
    Script::from_vec(lines.unwrap_or_else(|_| Vec::new(alloc)))
}

/// The script that the bytes are. A script is a list of lines, each ended by a newline, which the last one
/// may lack.
///
/// `BadLine`: the bytes are no script, and this is the first place that is bad. `NoMemory`: memory ran out.
/// Time: one step for each byte. Memory: the lines and their payloads, of which those that follow each other and are
/// the same are one.
pub fn read_script(alloc: Global, bytes: &[u8]) -> Result<Script, TextRefusal>
    ensures read { IfOk result (λ script. script_of bytes.now ≡ Ok script) }
    ensures spellable { IfOk result AreWithinLimits }
    ensures bad_line { IfErr result (λ refusal. RefusesText refusal (script_of bytes.now)) }
{
    let mut script = empty_script(alloc, bytes.len());
    let mut last = LastPayload::new(alloc);
    let mut number = 0;
    let mut rest = bytes;
    while !rest.is_empty() {
        let (line, after) = cut(rest, b'\n');
        number += 1;
        match read_line(&mut last, line) {
            Ok(line) => script.push(line)?,
            Err(refusal) => return Err(refusal.at(number)),
        }
        rest = after.unwrap_or(&[]);
    }
    Ok(script)
}
