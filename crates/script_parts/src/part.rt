//! One part.

ghost use Rattle.std.specs.Prelude.{◌≡◌, [], map, length, IfOk};
ghost use Rattle.script_parts.specs.InParts.{session_of};

use graph_model::NoMemory;
use request_text::{Line, Script};
use std::alloc::Global;
use std::marker::Model;

/// Lines that lie together, which contracts see as a list. The session of each lies by itself too, so that who counts the
/// lines of sessions, or looks for those of one, fetches 4 bytes for each line.
#[derive(Drop)]
pub struct Part {
    lines: Script,
    // The session of each line, in order.
    sessions: Vec<u32>,
}

impl Model for Part {
    ghost use Rattle.std.specs.Prelude.{◌≡◌, List, map};
    ghost use Rattle.request_text.specs.declared.request.Line.{Line};
    ghost use Rattle.script_parts.specs.InParts.{session_of};

    ghost Value = { List Line };

    ghost view = { λ p. p.lines };

    ghost invariant = { λ p. p.sessions.items ≡ map session_of p.lines };
}

impl Part {
    /// A part without a line. It takes no memory.
    pub fn empty(alloc: Global) -> Part
        ensures { result ≡ [] }
    {
        Part {
            lines: Script::new(alloc),
            sessions: Vec::new(alloc),
        }
    }

    /// A part of these lines. Time: one step for each. Memory: 4 bytes for each beside the line.
    ///
    /// `NoMemory`: there is not so much memory, and the lines are dropped.
    pub fn of(alloc: Global, lines: Script) -> Result<Part, NoMemory>
        ensures { IfOk result (λ part. part ≡ lines) }
    {
        let mut sessions = Vec::with_capacity(alloc, lines.len())?;
        for line in lines.as_slice() {
            sessions.push_reserved(line.session);
        }
        Ok(Part { lines, sessions })
    }

    /// The number of lines.
    pub fn len(&self) -> usize
        ensures { result ≡ length self.now }
    {
        self.lines.len()
    }

    /// The lines.
    pub fn lines(&self) -> &[Line]
        ensures { result.now ≡ self.now }
    {
        self.lines.as_slice()
    }

    /// The session of each line, in order.
    pub fn sessions(&self) -> &[u32]
        ensures { result.now ≡ map session_of self.now }
    {
        self.sessions.as_slice()
    }
}
