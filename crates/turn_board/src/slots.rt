//! Where the values of turns lie in a table: each in the slot of its turn, with an empty slot after it.
//!
//! A thread that exchanges a value writes all of it. Where values lay side by side, those of two turns would share a
//! cache line, and threads on neighbouring turns would slow each other.

ghost use Rattle.std.specs.Prelude.{◌≡◌, ◌≤◌, ◌<◌, ◌++◌, ◌∷◌, [], length, vec_capacity};
ghost use Rattle.std.specs.Mem.Slots.{slots_items, slots_len, IsFull};
ghost use Rattle.turn_board.specs.Spread.{slot_of, turns_in, spread, at_turns, IsSpread};

use atomic_table::Closed;
use std::alloc::Global;

/// The slot of a turn is this many slots after that of the turn before it.
pub(crate) const APART: usize = 2;

// The slot of a turn.
pub(crate) fn slot_at(turn: u32) -> usize
    requires { turn ≤ 66 }
    ensures { result ≡ slot_of turn }
{
    turn as usize * APART
}

// Adds an item, for which there is room.
pub(crate) fn append<T>(list: &mut Vec<T>, item: T)
    requires room { length list.old.items < vec_capacity list.old }
    ensures added { list.new.items ≡ list.old.items ++ item ∷ [] }
    ensures room { vec_capacity list.old ≤ vec_capacity list.new }
{
    match list.push(item) {
        Ok(()) => (),
        Err(_) => unreachable!(),
    }
}

// The values in the slots of their turns, with nothing in the slots between.
pub(crate) fn spread_out<T>(values: Vec<Option<T>>, slots: Vec<Option<T>>) -> Vec<Option<T>>
    requires room { (slots.items ≡ []) × (slot_of (length values.items) ≤ vec_capacity slots) }
    ensures { result.items ≡ spread values.items }
{
    let mut slots = slots;
    let mut rest = values.into_iter();
    while let Some(value) = rest.next() {
        append(&mut slots, value);
        append(&mut slots, None);
    }
    rest.destroy_empty();
    slots
}

// The values of turns, out of their slots.
pub(crate) fn gathered<T>(slots: Vec<Option<T>>, room: Vec<Option<T>>) -> Vec<Option<T>>
    requires spread { slots.items ≡ spread (at_turns slots.items) }
    requires room { (room.items ≡ []) × (length (at_turns slots.items) ≤ vec_capacity room) }
    ensures { result.items ≡ at_turns slots.items }
{
    let mut values = room;
    let mut rest = slots.into_iter();
    while let Some(value) = rest.next() {
        append(&mut values, value);
        let Some(between) = rest.next() else {
            unreachable!()
        };
        let None = between else { unreachable!() };
    }
    rest.destroy_empty();
    values
}

// The values of turns, out of a table that no thread shares any more.
pub(crate) fn all_out<T>(closed: Closed<Option<T>, Global>, room: Vec<Option<T>>) -> Vec<Option<T>>
    requires full { IsFull closed.words × IsFull closed.slots }
    requires apart { slots_len closed.slots ≡ slot_of (turns_in (slots_len closed.slots)) }
    requires spread { IsSpread (slots_items closed.slots) }
    requires room { (room.items ≡ []) × (turns_in (slots_len closed.slots) ≤ vec_capacity room) }
    ensures { result.items ≡ at_turns (slots_items closed.slots) }
{
    let mut closed = closed;
    let mut out = room;
    let mut slot = 0;
    while slot < closed.slot_count() {
        append(&mut out, closed.take(slot));
        let between = closed.take(slot + 1);
        let None = between else { unreachable!() };
        slot += APART;
    }
    closed.free();
    out
}
