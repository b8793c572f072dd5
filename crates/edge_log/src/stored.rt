//! A payload's bytes, copied into memory that was at hand.

ghost use Rattle.std.specs.Prelude.{◌≡◌, ◌≤◌, length, IfOk, vec_len};
ghost use Rattle.graph_model.specs.Payload.{payload_most};

use graph_model::NoMemory;
use std::marker::Model;

/// The bytes of a payload, which contracts see as a list.
#[derive(Drop)]
pub struct Stored {
    bytes: Vec<u8>,
}

impl Model for Stored {
    ghost use Rattle.std.specs.Prelude.{List, ℕ, length, ◌≤◌};
    ghost use Rattle.graph_model.specs.Payload.{payload_most};

    ghost Value = { List ℕ };

    ghost view = { λ a. a.bytes.items };

    ghost invariant = { λ a. length a.bytes.items ≤ payload_most };
}

impl Stored {
    /// These bytes. It takes no memory.
    pub fn new(bytes: Vec<u8>) -> Stored
        requires { vec_len bytes ≤ payload_most }
        ensures { result ≡ bytes.items }
    {
        Stored { bytes }
    }

    /// All bytes.
    pub fn as_slice(&self) -> &[u8]
        ensures bytes { result.now ≡ self.now }
        ensures within { length result.now ≤ payload_most }
    {
        self.bytes.as_slice()
    }

    /// A copy. Time: one step for each byte.
    pub fn copy(&self) -> Result<Stored, NoMemory>
        ensures { IfOk result (λ stored. stored ≡ self.now) }
    {
        let bytes = self.bytes.clone()?;
        Ok(Stored { bytes })
    }
}
