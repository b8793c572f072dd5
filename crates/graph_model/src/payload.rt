//! The property bytes of a vertex or an edge.
//!
//! A payload that a script names goes into a change, a record, the graph and each reply that shows it. Its
//! bytes never change. A few of them, as a number or a short name has, lie in the payload itself; more are shared by all
//! copies, and a copy is one more count.

ghost use Rattle.std.specs.Prelude.{◌≡◌, ◌==◌, ◌≤◌, length, IfOk, slice_get};
ghost use Rattle.std.specs.Option.{option_copied};
ghost use Rattle.std.specs.Arc.{arc_slice_items};
ghost use Rattle.graph_model.specs.Payload.{payload_most, short_most};

use crate::NoMemory;
use std::alloc::{AllocError, Global};
use std::marker::Model;
use std::sync::ArcSlice;

/// How many bytes may lie in the payload itself.
const SHORT_MOST: usize = 14;

/// How many bytes a number of 64 bits has.
const NUMBER: usize = 8;

// Where the bytes lie.
#[derive(Drop)]
enum Shape {
    // In the payload, the first so many of these.
    Short { len: u8, bytes: [u8; SHORT_MOST] },
    // In memory that all copies share.
    Long(ArcSlice<u8>),
}

/// The bytes of a vertex or an edge: at most 65,535, which contracts see as a list. Up to 14 bytes lie in the payload
/// itself, which takes no memory beside its own 16 bytes.
#[derive(Drop)]
pub struct Payload {
    shape: Shape,
}

impl Model for Payload {
    ghost use Rattle.std.specs.Prelude.{List, ℕ};
    ghost use Rattle.graph_model.specs.Shapes.{bytes_in, IsKept};

    ghost Value = { List ℕ };

    ghost view = { λ a. bytes_in a.shape };

    ghost invariant = { λ a. IsKept a.shape };
}

// A payload of few bytes. It takes no memory. Mostly it is a number, of eight bytes: of those the processor's registers
// take the copy, where another length is one for its memory.
fn short(bytes: &[u8]) -> Payload
    requires { length bytes.now ≤ short_most }
    ensures { result ≡ bytes.now }
{
    let mut room = [0; SHORT_MOST];
    if bytes.len() == NUMBER {
        room[..NUMBER].copy_from_slice(&bytes[..NUMBER]);
    } else {
        room[..bytes.len()].copy_from_slice(bytes);
    }
    let shape = Shape::Short {
        len: bytes.len() as u8,
        bytes: room,
    };
    Payload { shape }
}

// A payload whose bytes all copies share.
fn long(bytes: ArcSlice<u8>) -> Payload
    requires { length (arc_slice_items bytes) ≤ payload_most }
    ensures { result ≡ arc_slice_items bytes }
{
    let shape = Shape::Long(bytes);
    Payload { shape }
}

impl Payload {
    /// The greatest length, in bytes.
    pub const MOST: usize = 65535;

    /// A payload with a copy of these bytes. It takes no memory for up to 14. Time: one step for each byte.
    pub fn from_slice(alloc: Global, bytes: &[u8]) -> Result<Payload, NoMemory>
        requires { length bytes.now ≤ payload_most }
        ensures { IfOk result (λ p. p ≡ bytes.now) }
    {
        if bytes.len() <= SHORT_MOST {
            return Ok(short(bytes));
        }
        Ok(long(ArcSlice::from_slice(alloc, bytes)?))
    }

    /// The payload of these bytes, which are not copied where there are more than 14. It takes the memory for a count
    /// then, and none else.
    pub fn from_vec(bytes: Vec<u8>) -> Result<Payload, NoMemory>
        requires { length bytes.items ≤ payload_most }
        ensures { IfOk result (λ p. p ≡ bytes.items) }
    {
        if bytes.len() <= SHORT_MOST {
            return Ok(short(bytes.as_slice()));
        }
        Ok(long(ArcSlice::from_vec(bytes)?))
    }

    /// The number of bytes.
    pub fn len(&self) -> usize
        ensures len { result ≡ length self.now }
        ensures within { result ≤ payload_most }
    {
        self.as_slice().len()
    }

    /// Whether there are no bytes.
    pub fn is_empty(&self) -> bool
        ensures { result ≡ (length self.now == 0) }
    {
        self.len() == 0
    }

    /// The byte at a place from 0 on; none past the end.
    pub fn get(&self, i: usize) -> Option<&u8>
        ensures { option_copied result ≡ slice_get self.now i }
    {
        self.as_slice().get(i)
    }

    /// All bytes, as a slice.
    pub fn as_slice(&self) -> &[u8]
        ensures bytes { result.now ≡ self.now }
        ensures within { length result.now ≤ payload_most }
    {
        match &self.shape {
            Shape::Short { len, bytes } => &bytes[..*len as usize],
            Shape::Long(bytes) => bytes.as_slice(),
        }
    }

    /// The same payload. More than 14 bytes are shared, so this takes one step, whatever their number; no more takes no
    /// memory.
    pub fn copy(&self) -> Result<Payload, NoMemory>
        ensures { IfOk result (λ p. p ≡ self.now) }
    {
        Ok(self.clone()?)
    }
}

impl Clone for Payload {
    ghost is_clone = { λ x y. y ≡ x };

    fn clone(&self) -> Result<Payload, AllocError> {
        match &self.shape {
            Shape::Short { len, bytes } => Ok(Payload {
                shape: Shape::Short {
                    len: *len,
                    bytes: *bytes,
                },
            }),
            Shape::Long(bytes) => Ok(long(bytes.clone()?)),
        }
    }
}
