//! The vertices that a transaction took.

ghost use Rattle.std.specs.Prelude.{◌≡◌, ◌+◌, ◌<◌, ◌≤◌, ◌||◌, ℕ, [], length, nat_eq, slice_get, Some, OnOk, IfSome, if◌then◌else◌};
ghost use Rattle.store_turns.specs.Takes.{flag_of, is_changed, IsOnceAt};

use graph_model::NoMemory;
use indexmap::IndexMap;
use std::alloc::Global;
use std::marker::Model;

/// The vertices that a transaction took, each with whether it changed it, in the order in which it took them first.
/// Contracts see the list of them, and for how many more there is room.
#[derive(Drop)]
pub struct Touched {
    vertices: IndexMap<u64, bool>,
}

impl Model for Touched {
    ghost use Rattle.store_turns.specs.Takes.{Takes};
    ghost use Rattle.store_turns.specs.TakesKept.{takes_of, IsKept};

    ghost Value = { Takes };

    ghost view = { takes_of };

    ghost invariant = { IsKept };
}

impl Touched {
    /// No vertex. It takes no memory.
    pub fn new(alloc: Global) -> Touched
        ensures { result.taken ≡ [] }
    {
        Touched {
            vertices: IndexMap::new(alloc),
        }
    }

    /// How many vertices there are.
    pub fn len(&self) -> usize
        ensures { result ≡ length self.now.taken }
    {
        self.vertices.len()
    }

    /// The vertex at a place, with whether it was changed; none past the last. Time: constant.
    pub fn get(&self, place: usize) -> Option<(u64, bool)>
        ensures at { result ≡ slice_get self.now.taken place }
        ensures once { IfSome result (λ r. IsOnceAt r.0 r.1 place self.now.taken) }
    {
        match self.vertices.get_index(place) {
            Some((v, changed)) => Some((*v, *changed)),
            None => None,
        }
    }

    /// Makes room for one vertex more. After NoMemory the same vertices are there.
    pub fn reserve(&mut self) -> Result<(), NoMemory>
        ensures taken { self.new.taken ≡ self.old.taken }
        ensures room { OnOk result (0 < self.new.room) }
    {
        self.vertices.reserve(1)?;
        Ok(())
    }

    /// Notes that a vertex was taken, and whether it was changed. It takes no memory. Time: constant.
    pub fn note(&mut self, v: u64, changed: bool)
        requires { 0 < self.old.room }
        ensures { (w : ℕ) → flag_of w self.new.taken
            ≡ (if nat_eq v w then Some (is_changed v self.old.taken || changed) else flag_of w self.old.taken) }
    {
        let was = matches!(self.vertices.get(&v), Some(true));
        let _ = self.vertices.insert(v, was || changed);
    }
}
