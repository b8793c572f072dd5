//! Numbers that were met.
//!
//! Transactions and vertices are numbered one after another, so that the numbers of a log lie close together. There is
//! a word for each 64 neighbours that any was met of, with a bit for each of them. The word of the last number
//! stands beside the map of the others, since the next number is mostly a neighbour.

ghost use Rattle.std.specs.Prelude.{◌≡◌, ◌==◌, ◌||◌, ℕ, not, false, IfOk, OnOk};
ghost use Rattle.group_codec.specs.NumberSets.{word_at, was_met};

use graph_model::NoMemory;
use std::alloc::Global;
use std::collections::BTreeMap;

/// How many neighbours share a word.
const NEIGHBOURS: u64 = 64;

/// A set of numbers.
#[derive(Drop)]
pub struct NumberSet {
    // The block of the last number, and its word.
    block: u64,
    word: u64,
    // The words of the other blocks. What stands for this block here is of no account.
    words: BTreeMap<u64, u64>,
}

impl NumberSet {
    /// No number. It takes no memory.
    pub fn new(alloc: Global) -> NumberSet
        ensures { (n : ℕ) → was_met result n ≡ false }
    {
        NumberSet {
            block: 0,
            word: 0,
            words: BTreeMap::new(alloc),
        }
    }

    /// Adds a number, and tells whether it is new.
    /// Time: constant for a neighbour of the last number; else logarithmic in a sixty-fourth of the numbers, where
    /// these lie close together.
    pub fn insert(&mut self, n: u64) -> Result<bool, NoMemory>
        ensures new { IfOk result (λ is_new. is_new ≡ not (was_met self.old n)) }
        ensures added { OnOk result ((m : ℕ) → was_met self.new m ≡ ((n == m) || was_met self.old m)) }
    {
        self.turn_to(n / NEIGHBOURS)?;
        let is_new = self.word >> (n % NEIGHBOURS) & 1 != 1;
        self.word |= 1 << (n % NEIGHBOURS);
        Ok(is_new)
    }

    // Takes the word of a block out, and puts the one that was out back.
    fn turn_to(&mut self, block: u64) -> Result<(), NoMemory>
        ensures out { OnOk result (self.new.block ≡ block) }
        ensures same { OnOk result ((b : ℕ) → word_at self.new b ≡ word_at self.old b) }
    {
        if block == self.block {
            return Ok(());
        }
        self.words.insert(self.block, self.word)?;
        self.word = match self.words.get(&block) {
            Some(word) => *word,
            None => 0,
        };
        self.block = block;
        Ok(())
    }
}
