//! A list from which items are taken out again, which takes no memory.

ghost use Rattle.std.specs.Prelude.{◌≡◌, ◌∷◌, ◌++◌, ◌==◌, [], is_ok, if◌then◌else◌, filter, not};
ghost use Rattle.core_states.specs.Numbers.{has_number, without_number, without_active};

use crate::Active;
use graph_model::NoMemory;
use std::alloc::Global;
use std::marker::Model;

/// A list of items, which contracts see as a list.
#[derive(Drop)]
pub struct Listed<T> {
    items: Vec<T>,
}

impl<T> Model for Listed<T> {
    ghost use Rattle.std.specs.Prelude.{List};

    ghost Value = { List T };

    ghost view = { λ a. a.items.items };
}

impl<T> Listed<T> {
    /// The empty list. It takes no memory.
    pub fn new(alloc: Global) -> Listed<T>
        ensures { result ≡ [] }
    {
        Listed {
            items: Vec::new(alloc),
        }
    }

    /// All items, as a slice.
    pub fn as_slice(&self) -> &[T]
        ensures { result.now ≡ self.now }
    {
        self.items.as_slice()
    }

    /// Puts an item in front. After NoMemory the list is as before. Time: one step for each item.
    pub fn push_front(&mut self, item: T) -> Result<(), NoMemory>
    where
        T: Drop,
        ensures { self.new ≡ (if is_ok result then item ∷ self.old else self.old) }
    {
        self.items.insert(0, item)?;
        Ok(())
    }

    /// Puts an item at the end. After NoMemory the list is as before. Time: amortized constant.
    pub fn push_back(&mut self, item: T) -> Result<(), NoMemory>
    where
        T: Drop,
        ensures { self.new ≡ (if is_ok result then self.old ++ item ∷ [] else self.old) }
    {
        self.items.push(item)?;
        Ok(())
    }

    /// Puts the items of another list at the end. After NoMemory the list is as before. Time: one step for
    /// each of them, and amortized constant for room.
    pub fn append(&mut self, mut more: Listed<T>) -> Result<(), NoMemory>
    where
        T: Drop,
        ensures { self.new ≡ (if is_ok result then self.old ++ more else self.old) }
    {
        self.items.append(&mut more.items)?;
        Ok(())
    }
}

impl Listed<u64> {
    /// Whether the number is among them. Time: one step for each.
    pub fn has_number(&self, v: u64) -> bool
        ensures { result ≡ has_number v self.now }
    {
        is_among(v, &self.items)
    }

    /// Takes the number out. Time: one step for each.
    pub fn take_number(&mut self, v: u64)
        ensures { self.new ≡ without_number v self.old }
    {
        leave_numbers(&mut self.items, v);
    }
}

impl Listed<Active> {
    /// Takes those of a transaction out. Time: one step for each.
    pub fn take_transaction(&mut self, tid: u64)
        ensures { self.new ≡ without_active tid self.old }
    {
        leave_actives(&mut self.items, tid);
    }
}

// Whether the number is among these.
fn is_among(v: u64, numbers: &[u64]) -> bool
    ensures { result ≡ has_number v numbers.now }
{
    for number in numbers {
        if *number == v {
            return true;
        }
    }
    false
}

// Leaves all but this number.
fn leave_numbers(numbers: &mut Vec<u64>, v: u64)
    ensures { numbers.new.items ≡ filter (λ x. not (x == v)) numbers.old.items }
{
    numbers.retain(|number| *number != v);
}

// Leaves all but those of a transaction.
fn leave_actives(actives: &mut Vec<Active>, tid: u64)
    ensures { actives.new.items ≡ filter (λ x. not (x.tid == tid)) actives.old.items }
{
    actives.retain(|active| active.tid != tid);
}
