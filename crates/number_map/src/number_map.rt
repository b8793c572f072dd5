//! The map.

ghost use Rattle.std.specs.Prelude.{◌≡◌, ℕ, ◌^◌, ◌<◌, ◌≤◌, Some, None, IfSome, IfNone, OnOk, IfErr, OnErr, IsTrue, false, vec_len};
ghost use Rattle.std.specs.BTreeMap as tree;
ghost use Rattle.std.specs.Ordering.{nat_cmp};
ghost use Rattle.std.specs.Option.{option_copied, option_copied_mut};
ghost use Rattle.std.specs.Borrow.{sem};
ghost use Rattle.number_map.specs.KeptAt.{kept_at, IsWith};
ghost use Rattle.number_map.specs.Lends.{LendsAt};

use crate::near::put_at;
use std::alloc::Global;
use std::collections::BTreeMap;

/// Values by number. Contracts see what is kept at each number.
#[derive(Drop)]
pub struct NumberMap<T> {
    // What is kept at each number below its length.
    near: Vec<Option<T>>,
    // At how many of those something is kept; 2^32 - 1 stands for more.
    used: u32,
    // What is kept from there on.
    far: BTreeMap<u64, T>,
}

impl<T> NumberMap<T> {
    /// Nothing. It takes no memory.
    pub fn new(alloc: Global) -> NumberMap<T>
        ensures { (n : ℕ) → kept_at result n ≡ None }
    {
        NumberMap {
            near: Vec::new(alloc),
            used: 0,
            far: BTreeMap::new(alloc),
        }
    }

    /// What is kept at a number. Time: constant for a near number, logarithmic for a far one.
    pub fn get(&self, n: u64) -> Option<&T>
        ensures { option_copied result ≡ kept_at self.now n }
    {
        if n < self.near.len() as u64 {
            self.near[n as usize].as_ref()
        } else {
            self.far.get(&n)
        }
    }

    /// What is kept at a number, to be changed. Time: that of `get`.
    pub fn get_mut(&mut self, n: u64) -> Option<&mut T>
        ensures* lends { sem 𝓛 (LendsAt T.row self.entry n result) }
        ensures value { option_copied_mut result ≡ kept_at self.old n }
    {
        if n < self.near.len() as u64 {
            self.near[n as usize].as_mut()
        } else {
            self.far.get_mut(&n)
        }
    }

    /// The first number from `n` on at which something is kept, with what is kept there; none where there is none.
    /// Time: one step for each near number in between, logarithmic for a far one.
    pub fn next_from(&self, n: u64) -> Option<(u64, &T)>
        ensures from { IfSome result (λ p. n ≤ p.0) }
        ensures kept { IfSome result (λ p. kept_at self.now p.0 ≡ Some p.1.now) }
        ensures first { IfSome result (λ p. (m : ℕ) → n ≤ m → m < p.0 → kept_at self.now m ≡ None) }
        ensures none { IfNone result ((m : ℕ) → n ≤ m → kept_at self.now m ≡ None) }
    {
        let behind = self.near.len() as u64;
        for m in n..behind {
            if let Some(value) = &self.near[m as usize] {
                return Some((m, value));
            }
        }
        match self.far.range(n.max(behind)..).next() {
            Some((m, value)) => Some((*m, value)),
            None => None,
        }
    }

    /// Keeps a value at a number at which nothing is kept. After want of memory the value comes back, and all is
    /// as before. Time: amortized constant for a near number, logarithmic for a far one.
    pub fn insert(&mut self, n: u64, value: T) -> Result<(), T>
    where
        T: Drop,
        requires absent { kept_at self.old n ≡ None }
        ensures kept { OnOk result (IsWith n (Some value) self.old self.new) }
        ensures value_returned { IfErr result (λ back. back ≡ value) }
        ensures unchanged { OnErr result ((m : ℕ) → kept_at self.new m ≡ kept_at self.old m) }
    {
        if !self.is_near(n) {
            return self.insert_far(n, value);
        }
        put_at(&mut self.near, n as usize, value)?;
        self.used = self.used.saturating_add(1);
        Ok(())
    }

    // Keeps a value at a number behind the vector.
    fn insert_far(&mut self, n: u64, value: T) -> Result<(), T>
    where
        T: Drop,
        requires behind { vec_len self.old.near ≤ n }
        ensures kept { OnOk result (IsWith n (Some value) self.old self.new) }
        ensures value_returned { IfErr result (λ back. back ≡ value) }
        ensures unchanged { OnErr result ((m : ℕ) → kept_at self.new m ≡ kept_at self.old m) }
    {
        match self.far.insert(n, value) {
            Ok(_) => Ok(()),
            Err(refused) => Err(refused.value.1),
        }
    }

    // Whether a number is to stand in the vector: it does, or the vector may grow up to it. It does so as long as it
    // is short or a third of it used, and no number of the ordered map is within it.
    fn is_near(&self, n: u64) -> bool
        ensures behind { result ≡ false → vec_len self.now.near ≤ n }
        ensures before_far { IsTrue result → (m : ℕ) → vec_len self.now.near ≤ m → m ≤ n
            → tree.get nat_cmp self.now.far m ≡ None }
        ensures small { IsTrue result → n < 2 ^ 63 }
    {
        if n < self.near.len() as u64 {
            return true;
        }
        if n >= 64 + 3 * u64::from(self.used) {
            return false;
        }
        match self.far.first_key_value() {
            Some((first, _)) => n < *first,
            None => true,
        }
    }
}
