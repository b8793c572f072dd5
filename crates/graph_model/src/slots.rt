//! The slots of a list of edges, newest first: what is done to them and to the map that tells their places.
//!
//! The place of a slot is the number of slots behind it. It stays when slots are set in front, so that the
//! map has to learn new places only where gaps are closed.

ghost use Rattle.std.specs.Prelude.{◌≡◌, ◌==◌, ℕ, IsTrue, Some, None, is_some, if◌then◌else◌};
ghost use Rattle.std.specs.Ordering.{nat_cmp};
ghost use Rattle.std.specs.BTreeMap.{get};
ghost use Rattle.std.specs.VecDeque.{deque_capacity, deque_len};
ghost use Rattle.graph_model.specs.Graph.{without_pair};
ghost use Rattle.graph_model.specs.Whole.{are_pairs};
ghost use Rattle.graph_model.specs.Gaps.{edges_in, place_of, slot_at, TellsPlaces};

use crate::Pair;
use std::collections::{BTreeMap, VecDeque};

/// Edges and gaps, newest first.
pub type Slots = VecDeque<Option<Pair>>;

/// The place of the edge to each destination.
pub type Places = BTreeMap<u64, usize>;

/// Takes the edge out of the slot at a place, and leaves a gap. Time: constant.
pub fn take_out(slots: &mut Slots, place: usize) -> Pair
    requires distinct { IsTrue (are_pairs (edges_in slots.old.items)) }
    requires there { IsTrue (is_some (slot_at place slots.old.items)) }
    ensures taken { slot_at place slots.old.items ≡ Some result }
    ensures edges { edges_in slots.new.items ≡ without_pair result.d (edges_in slots.old.items) }
    ensures places { (d : ℕ)
        → place_of d slots.new.items ≡ (if result.d == d then None else place_of d slots.old.items) }
    ensures len { deque_len slots.new ≡ deque_len slots.old }
    ensures room { deque_capacity slots.new ≡ deque_capacity slots.old }
{
    let index = slots.len() - 1 - place;
    slots[index].take().unwrap()
}

/// Closes the gaps where more than half of the slots are gaps. It takes no memory. Time: one logarithmic step
/// for each slot, and so, counted on the edges that left the gaps, logarithmic for each.
pub fn close_gaps(slots: &mut Slots, places: &mut Places)
    requires distinct { IsTrue (are_pairs (edges_in slots.old.items)) }
    requires told { TellsPlaces places.old slots.old.items }
    ensures edges { edges_in slots.new.items ≡ edges_in slots.old.items }
    ensures told { TellsPlaces places.new slots.new.items }
{
    if slots.len() / 2 > places.len() {
        slots.retain(|slot| slot.is_some());
        tell_places(slots, places);
    }
}

/// Tells the map the places of the edges, all of which it has.
fn tell_places(slots: &Slots, places: &mut Places)
    requires distinct { IsTrue (are_pairs (edges_in slots.now.items)) }
    requires has { (d : ℕ) → is_some (get nat_cmp places.old d) ≡ is_some (place_of d slots.now.items) }
    ensures { TellsPlaces places.new slots.now.items }
{
    let mut place = slots.len();
    for slot in slots.iter() {
        place -= 1;
        if let Some(pair) = slot {
            let _old = places.insert(pair.d, place);
        }
    }
}
