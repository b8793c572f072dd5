//! A list that grows at its end. The lists of the store are this one type at their items.

ghost use Rattle.std.specs.Prelude.{◌≡◌, ◌==◌, ◌<◌, ◌-◌, ◌↔◌, [], ◌∷◌, ◌++◌, length, slice_get, is_ok, if◌then◌else◌, take, IsSome};
ghost use Rattle.std.specs.Option.{option_copied, option_to_list};

use crate::NoMemory;
use std::alloc::Global;
use std::marker::Model;

/// A list of items, which contracts see as a list.
#[derive(Drop)]
pub struct ListOf<T> {
    items: Vec<T>,
}

/// Bytes, as they stand in a file or a stream.
pub type Bytes = ListOf<u8>;

impl<T> Model for ListOf<T> {
    ghost use Rattle.std.specs.Prelude.{List};

    ghost Value = { List T };

    ghost view = { λ a. a.items.items };
}

impl<T> ListOf<T> {
    /// The empty list. It takes no memory.
    pub fn new(alloc: Global) -> ListOf<T>
        ensures { result ≡ [] }
    {
        ListOf {
            items: Vec::new(alloc),
        }
    }

    /// The number of items.
    pub fn len(&self) -> usize
        ensures { result ≡ length self.now }
    {
        self.items.len()
    }

    /// Whether the list has no item.
    pub fn is_empty(&self) -> bool
        ensures { result ≡ (length self.now == 0) }
    {
        self.items.is_empty()
    }

    /// The item at a place from 0 on; none past the end.
    pub fn get(&self, i: usize) -> Option<&T>
        ensures { option_copied result ≡ slice_get self.now i }
    {
        self.items.get(i)
    }

    /// All items, as a slice.
    pub fn as_slice(&self) -> &[T]
        ensures { result.now ≡ self.now }
    {
        self.items.as_slice()
    }

    /// Appends an item. Time: amortized constant.
    pub fn push(&mut self, item: T) -> Result<(), NoMemory>
    where
        T: Drop,
        ensures { self.new ≡ (if is_ok result then self.old ++ item ∷ [] else self.old) }
    {
        self.items.push(item)?;
        Ok(())
    }

    /// Appends the items of another list, which are moved. After NoMemory the list is as before.
    pub fn append(&mut self, other: ListOf<T>) -> Result<(), NoMemory>
    where
        T: Drop,
        ensures { self.new ≡ (if is_ok result then self.old ++ other else self.old) }
    {
        let mut other = other;
        self.items.append(&mut other.items)?;
        Ok(())
    }

    /// Takes the last item off; none from the empty list. It takes no memory.
    pub fn pop(&mut self) -> Option<T>
        ensures items { self.old ≡ self.new ++ option_to_list result }
        ensures variant { IsSome result ↔ (0 < length self.old) }
    {
        self.items.pop()
    }

    /// Cuts the list to its first `len` items; a list that is not longer stays. It takes no memory.
    pub fn truncate(&mut self, len: usize)
    where
        T: Drop,
        ensures { self.new ≡ take len self.old }
    {
        self.items.truncate(len);
    }

    /// The last item; none in the empty list.
    pub fn last(&self) -> Option<&T>
        ensures { option_copied result ≡ slice_get self.now (length self.now - 1) }
    {
        self.items.last()
    }

    /// The list of these items. It takes no memory.
    pub fn from_vec(items: Vec<T>) -> ListOf<T>
        ensures { result ≡ items.items }
    {
        ListOf { items }
    }
}

impl Bytes {
    /// Appends these bytes. After NoMemory the list is as before. Time: one step for each byte.
    pub fn extend_from_slice(&mut self, bytes: &[u8]) -> Result<(), NoMemory>
        ensures { self.new ≡ (if is_ok result then self.old ++ bytes.now else self.old) }
    {
        self.items.extend_from_slice(bytes)?;
        Ok(())
    }
}
