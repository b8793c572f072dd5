//! Parts, one behind another.

ghost use Rattle.std.specs.Prelude.{◌≡◌, ◌<◌, ◌++◌, ◌^◌, [], length, is_ok, if◌then◌else◌, IfOk};
ghost use Rattle.script_parts.specs.InParts.{lines_in};

use crate::part::Part;
use graph_model::NoMemory;
use request_text::Script;
use std::alloc::Global;
use std::marker::Model;
use std::thread::{self, Threads};

/// By how many threads the memory of lines is given back at most.
const THREADS_MOST: usize = 8;

/// The lines of a script, which contracts see as one list. How many they are is known at any time.
#[derive(Drop)]
pub struct ScriptParts {
    parts: Vec<Part>,
    // The number of all lines.
    len: usize,
}

impl Model for ScriptParts {
    ghost use Rattle.std.specs.Prelude.{◌≡◌, ◌<◌, ◌^◌, List, length};
    ghost use Rattle.request_text.specs.declared.request.Line.{Line};
    ghost use Rattle.script_parts.specs.InParts.{lines_in};

    ghost Value = { List Line };

    ghost view = { λ s. lines_in s.parts.items };

    ghost invariant = { λ s. (s.len ≡ length (lines_in s.parts.items)) × (s.len < 2 ^ 64) };
}

impl ScriptParts {
    /// A script without a line. It takes no memory.
    pub fn new(alloc: Global) -> ScriptParts
        ensures { result ≡ [] }
    {
        ScriptParts {
            parts: Vec::new(alloc),
            len: 0,
        }
    }

    /// A script of one part, which has these lines. Time: one step for each line.
    ///
    /// `NoMemory`: there is not so much memory, and the lines are dropped.
    pub fn of(alloc: Global, lines: Script) -> Result<ScriptParts, NoMemory>
        ensures { IfOk result (λ script. script ≡ lines) }
    {
        let mut script = ScriptParts::new(alloc);
        script.push(Part::of(alloc, lines)?)?;
        Ok(script)
    }

    #[tactic(auto, using(crate::proofs::Joins::lines_push, crate::proofs::Joins::length_append))]
    /// Puts a part behind the others. No line of it is moved. Time: amortized constant.
    ///
    /// `NoMemory`: there is not so much memory, and the script is as before.
    pub fn push(&mut self, part: Part) -> Result<(), NoMemory>
        ensures { self.new ≡ (if is_ok result then self.old ++ part else self.old) }
    {
        let len = self.len.checked_add(part.len()).ok_or(NoMemory)?;
        self.parts.push(part)?;
        self.len = len;
        Ok(())
    }

    #[tactic(auto, using(crate::proofs::Joins::lines_append, crate::proofs::Joins::length_append))]
    /// Puts the parts of another script behind these. No line of it is moved. Time: one step for each of its parts.
    ///
    /// `NoMemory`: there is not so much memory, and the script is as before.
    pub fn append(&mut self, other: ScriptParts) -> Result<(), NoMemory>
        ensures { self.new ≡ (if is_ok result then self.old ++ other else self.old) }
    {
        let mut other = other;
        let len = self.len.checked_add(other.len).ok_or(NoMemory)?;
        self.parts.append(&mut other.parts)?;
        self.len = len;
        Ok(())
    }

    /// The parts, in order.
    pub fn parts(&self) -> &[Part]
        ensures parts { lines_in result.now ≡ self.now }
        ensures few { length self.now < 2 ^ 64 }
    {
        self.parts.as_slice()
    }

    /// The parts, in order, each of which can be dropped once it is done with.
    ///
    /// Ends: the script.
    pub fn into_parts(self) -> Vec<Part>
        ensures parts { lines_in result.items ≡ self }
        ensures few { length self < 2 ^ 64 }
    {
        let ScriptParts { parts, len: _ } = self;
        parts
    }

    /// The number of all lines.
    pub fn len(&self) -> usize
        ensures { result ≡ length self.now }
    {
        self.len
    }

    /// Gives the memory of the lines back, the parts shared among as many threads as there are parts, at most 8, where they
    /// can be made.
    ///
    /// Ends: the script. Time: one step for each line, shared among the threads.
    pub fn give_back<R: Threads + Sync>(self, rt: &R, alloc: Global) {
        let ScriptParts { mut parts, len: _ } = self;
        let threads = parts.len().min(THREADS_MOST);
        if threads < 2 {
            return;
        }
        let empty = |_: usize, part: &mut Part| {
            *part = Part::empty(alloc);
        };
        thread::for_each_mut(rt, parts.as_mut_slice(), threads, &empty);
    }
}
