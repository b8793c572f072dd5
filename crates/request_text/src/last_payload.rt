//! The payloads of a script, of which those that follow each other are often the same.
//!
//! A payload that is the same as the one read before it shares that one's bytes, so that edges with equal payloads
//! take the memory of one payload.

ghost use Rattle.std.specs.Prelude.{◌≡◌, Some, IfOk};
ghost use Rattle.std.specs.Option.{ForSome};
ghost use Rattle.request_text.specs.Words.{payload_of};

use crate::word::payload;
use graph_model::{NoMemory, Payload};
use std::alloc::Global;

/// The payload that was read last.
#[derive(Drop)]
pub struct LastPayload<'a> {
    alloc: Global,
    /// The word that spells it, with the payload; none before the first.
    last: Option<(&'a [u8], Payload)>,
    ghost spelled: { ForSome last (λ x. payload_of x.0.now ≡ Some x.1) },
}

impl<'a> LastPayload<'a> {
    /// None was read yet. It takes no memory.
    pub fn new(alloc: Global) -> LastPayload<'a> {
        LastPayload { alloc, last: None }
    }

    /// The payload that a word spells; none where it spells none. Time: one step for each byte. It takes no memory
    /// where the word is that of the last payload.
    pub fn payload(&mut self, word: &'a [u8]) -> Result<Option<Payload>, NoMemory>
        ensures { IfOk result (λ p. payload_of word.now ≡ p) }
    {
        if let Some((spelled, last)) = &self.last {
            if *spelled == word {
                return Ok(Some(last.copy()?));
            }
        }
        let Some(next) = payload(self.alloc, word)? else {
            return Ok(None);
        };
        self.last = Some((word, next.copy()?));
        Ok(Some(next))
    }
}
