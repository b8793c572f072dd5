//! The past of a disk over memory: what it held when it was made, and each call since that raised the moment.

ghost use Rattle.std.specs.Prelude.{◌≡◌, ◌+◌, ◌<◌, ◌≤◌, ◌↔◌, ◌++◌, [], ◌∷◌, length, take, IfOk, IsTrue, OnOk};
ghost use Rattle.disk_model.specs.Steps.{Wrote, Other, written, reads, imaged};
ghost use Rattle.disk_model.specs.Past.{stepped, recorded};
ghost use Rattle.disk_model.specs.Recording.{steps_of, AllIn};

use crate::NoMemory;
use crate::event::{Call, Event};
use crate::growth::{extend_within, push_within};
use crate::replay::Replay;
use std::alloc::Global;
use std::marker::Model;

/// The first bytes, and the steps since, with room for so many steps and so many written bytes in all. It takes
/// its memory when it is made.
#[derive(Drop)]
pub struct History {
    first: Vec<u8>,
    written: Vec<u8>,
    calls: Vec<Call>,
    places: usize,
    room: usize,
}

impl Model for History {
    ghost use Rattle.disk_model.specs.Past.{Past};

    ghost Value = { Past };

    ghost use Rattle.disk_model.specs.History.{past_of, IsKept};

    ghost view = { past_of };

    ghost invariant = { IsKept };
}

impl History {
    /// A past with these first bytes and no step.
    pub fn new(
        alloc: Global,
        first: Vec<u8>,
        places: usize,
        room: usize,
    ) -> Result<History, NoMemory>
        ensures { IfOk result (λ h. h ≡ record {
          first = first.items;
          steps = [];
          places = places;
          room = room;
        }) }
    {
        let written = Vec::with_capacity(alloc, room)?;
        let calls = Vec::with_capacity(alloc, places)?;
        Ok(History {
            first,
            written,
            calls,
            places,
            room,
        })
    }

    /// The number of steps.
    pub fn len(&self) -> usize
        ensures { result ≡ length self.now.steps }
    {
        self.calls.len()
    }

    /// How many written bytes there is room for.
    pub fn room(&self) -> usize
        ensures { result ≡ self.now.room }
    {
        self.room
    }

    /// Whether no place is left for a step.
    pub fn is_full(&self) -> bool
        ensures { IsTrue result ↔ (self.now.places ≤ length self.now.steps) }
    {
        self.places <= self.calls.len()
    }

    /// Whether so many bytes more may be written.
    pub fn has_room(&self, amount: usize) -> bool
        ensures { IsTrue result ↔ (written self.now.steps + amount ≤ self.now.room) }
    {
        amount <= self.room - self.written.len()
    }

    /// Records a write of these bytes from a place on.
    pub fn push_write(&mut self, place: u64, bytes: &[u8])
        requires has_place { length self.old.steps < self.old.places }
        requires has_room { written self.old.steps + length bytes.now ≤ self.old.room }
        ensures { self.new ≡ stepped self.old (Wrote place bytes.now) }
    {
        let from = self.written.len();
        let amount = bytes.len();
        extend_within(&mut self.written, bytes);
        let call = Call::Write {
            place,
            from,
            amount,
        };
        push_within(&mut self.calls, call);
    }

    /// Records another call.
    pub fn push(&mut self, event: Event)
        requires { length self.old.steps < self.old.places }
        ensures { self.new ≡ stepped self.old (Other event) }
    {
        push_within(&mut self.calls, Call::Other { event });
    }

    /// Records another call, where there is a place for it.
    pub fn note(&mut self, event: Event)
        ensures { self.new ≡ recorded self.old (Other event) }
    {
        if !self.is_full() {
            self.push(event);
        }
    }

    /// What a read gave after the first `count` steps, and an image from then, in which what was pending is
    /// filled with a byte, if one is given, and else kept out.
    pub fn replay(&self, alloc: Global, count: usize, fill: Option<u8>) -> Result<Replay, NoMemory>
        ensures bytes { IfOk result
            (λ r. r.bytes.items ≡ reads self.now.first (take count self.now.steps)) }
        ensures image { IfOk result
            (λ r. r.image.items ≡ imaged fill self.now.first self.now.first (take count self.now.steps)) }
    {
        let mut replay = Replay {
            bytes: self.first.as_slice().to_vec(alloc)?,
            image: self.first.as_slice().to_vec(alloc)?,
        };
        redo_first(
            &mut replay,
            alloc,
            self.calls.as_slice(),
            count,
            self.written.as_slice(),
            fill,
        )?;
        Ok(replay)
    }
}

/// Does the first `count` recorded calls once more, in order.
fn redo_first(
    replay: &mut Replay,
    alloc: Global,
    calls: &[Call],
    count: usize,
    written: &[u8],
    fill: Option<u8>,
) -> Result<(), NoMemory>
    requires { AllIn (length written.now) calls.now }
    ensures bytes { OnOk result
        (replay.new.bytes.items ≡ reads replay.old.bytes.items (take count (steps_of written.now calls.now))) }
    ensures image { OnOk result
        (replay.new.image.items ≡ imaged fill replay.old.bytes.items replay.old.image.items (take count
        (steps_of written.now calls.now))) }
{
    redo_all(
        replay,
        alloc,
        &calls[..count.min(calls.len())],
        written,
        fill,
    )
}

/// Does recorded calls once more, in order.
fn redo_all(
    replay: &mut Replay,
    alloc: Global,
    calls: &[Call],
    written: &[u8],
    fill: Option<u8>,
) -> Result<(), NoMemory>
    requires { AllIn (length written.now) calls.now }
    ensures bytes { OnOk result
        (replay.new.bytes.items ≡ reads replay.old.bytes.items (steps_of written.now calls.now)) }
    ensures image { OnOk result
        (replay.new.image.items ≡ imaged fill replay.old.bytes.items replay.old.image.items
        (steps_of written.now calls.now)) }
{
    for call in calls {
        replay.redo(alloc, *call, written, fill)?;
    }
    Ok(())
}
