//! A gate before each line of a script.

/// What a worker passes before each line that it runs. A test may hold workers there until others have come as far.
pub trait Gate {
    /// Called before the line of this number, counted from 1, of this session runs.
    fn pass(&self, session: u64, line: u64);
}

/// A gate that holds nobody.
pub struct FreeGate;

impl Gate for FreeGate {
    fn pass(&self, _session: u64, _line: u64) {}
}
