//! The command words.

ghost use Rattle.std.specs.Prelude.{◌≡◌, ◌==◌, [], ◌∷◌, ◌++◌, length, map, string_bytes, slice_get, is_ok, if◌then◌else◌};
ghost use Rattle.std.specs.Option.{option_copied};

use graph_model::NoMemory;
use std::alloc::Global;
use std::marker::Model;

/// The words of a command, in order, which contracts see as a list of texts.
#[derive(Drop)]
pub struct Words {
    alloc: Global,
    items: Vec<String>,
}

impl Model for Words {
    ghost use Rattle.std.specs.Prelude.{List, ℕ, map, string_bytes};

    ghost Value = { List (List ℕ) };

    ghost view = { λ w. map (λ word. string_bytes word) w.items.items };
}

impl Words {
    /// No words. It takes no memory.
    pub fn new(alloc: Global) -> Words
        ensures { result ≡ [] }
    {
        Words {
            alloc,
            items: Vec::new(alloc),
        }
    }

    /// Appends a word.
    ///
    /// `NoMemory`: the words are as before.
    pub fn push(&mut self, word: &str) -> Result<(), NoMemory>
        ensures { self.new ≡ (if is_ok result then self.old ++ word.now ∷ [] else self.old) }
    {
        let word = String::from_str(self.alloc, word)?;
        self.items.push(word)?;
        Ok(())
    }

    /// The number of words.
    pub fn len(&self) -> usize
        ensures { result ≡ length self.now }
    {
        self.items.len()
    }

    /// Whether there are no words.
    pub fn is_empty(&self) -> bool
        ensures { result ≡ (length self.now == 0) }
    {
        self.items.is_empty()
    }

    /// The words.
    pub fn as_slice(&self) -> &[String]
        ensures { map (λ word. string_bytes word) result.now ≡ self.now }
    {
        self.items.as_slice()
    }

    /// The word at a place from 0 on; none past the end.
    pub fn get(&self, i: usize) -> Option<&str>
        ensures { option_copied result ≡ slice_get self.now i }
    {
        match self.items.get(i) {
            Some(word) => Some(word.as_str()),
            None => None,
        }
    }
}
