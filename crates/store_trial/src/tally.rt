//! What was done and seen.

use graph_model::{Answer, Pairs, Payload};

/// What threads have done and seen: the edges that were read, with the sum of their destinations and payloads; the
/// transactions; those that were refused; and the nanoseconds of the threads that read.
#[derive(Clone, Copy, Debug, PartialEq, Eq)]
pub struct Tally {
    pub edges: u64,
    pub sum: u64,
    pub transactions: u64,
    pub refused: u64,
    pub read_nanos: u64,
}

// The number that a payload spells in its first eight bytes, or 0.
fn word_of(p: &Payload) -> u64 {
    match p.as_slice().first_chunk::<8>() {
        Some(bytes) => u64::from_le_bytes(*bytes),
        None => 0,
    }
}

impl Tally {
    /// Nothing was done.
    pub fn new() -> Tally {
        Tally {
            edges: 0,
            sum: 0,
            transactions: 0,
            refused: 0,
            read_nanos: 0,
        }
    }

    fn note(&mut self, d: u64, p: &Payload) {
        self.edges = self.edges.wrapping_add(1);
        self.sum = self.sum.wrapping_add(d ^ word_of(p));
    }

    fn note_all(&mut self, pairs: &Pairs) {
        for i in 0..pairs.len() {
            if let Some(pair) = pairs.get(i) {
                self.note(pair.d, &pair.p);
            }
        }
    }

    /// What was answered was seen: of the edge to this destination, or of a list.
    pub fn see(&mut self, to: u64, answer: &Answer) {
        match answer {
            Answer::Value(p) => self.note(to, p),
            Answer::Edges(pairs) => self.note_all(pairs),
            _ => {}
        }
    }

    /// What two threads have done.
    pub fn with(&self, other: &Tally) -> Tally {
        Tally {
            edges: self.edges.wrapping_add(other.edges),
            sum: self.sum.wrapping_add(other.sum),
            transactions: self.transactions.wrapping_add(other.transactions),
            refused: self.refused.wrapping_add(other.refused),
            read_nanos: self.read_nanos.wrapping_add(other.read_nanos),
        }
    }
}
