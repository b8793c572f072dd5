//! The index from labels to rows.

ghost use Rattle.std.specs.Prelude.{◌≡◌, ◌≤◌, [], false, length, position, nat_eq, IfOk, OnOk, OnErr, IsPermutation};
ghost use Rattle.std.specs.List.{list_any};
ghost use Rattle.std.specs.List.Sorted.{IsStrictlyIncreasing};
ghost use Rattle.label_index.specs.Labels.{with_label, row_of};

use crate::label_list::LabelList;
use graph_model::{Labels, NoMemory};
use std::alloc::Global;
use std::marker::Model;

/// Labels, each of which has a row. Contracts see the list of them by row, that is in the order in which they came.
#[derive(Drop)]
pub struct LabelIndex {
    alloc: Global,
    labels: LabelList,
}

// Each vertex of a store has an index.
const _: () = prove!(size_of::<LabelIndex>() == 32);

impl Model for LabelIndex {
    ghost use Rattle.std.specs.Prelude.{List, ℕ};
    ghost use Rattle.label_index.specs.Indexes.{labels_of, IsKept};

    ghost Value = { List ℕ };

    ghost view = { labels_of };

    ghost invariant = { λ a. IsKept (labels_of a) };
}

impl LabelIndex {
    /// No label. It takes no memory.
    pub fn new(alloc: Global) -> LabelIndex
        ensures { result ≡ [] }
    {
        LabelIndex {
            alloc,
            labels: LabelList::new(),
        }
    }

    /// The row of a label; none where the label has none. Time: constant, whatever the number of labels.
    #[inline(always)]
    pub fn row(&self, l: u16) -> Option<u32>
        ensures { result ≡ position (nat_eq l) self.now }
    {
        match self.labels.place(l) {
            Some(row) => Some(row as u32),
            None => None,
        }
    }

    /// The row of a label, which gets the next one where it has none. After NoMemory, which comes only where the
    /// label has no row, the index is as before. The first eight labels take no memory. Time: amortized constant.
    pub fn row_or_new(&mut self, l: u16) -> Result<u32, NoMemory>
        ensures row { IfOk result (λ row. row ≡ row_of l self.old) }
        ensures labels { OnOk result (self.new ≡ with_label l self.old) }
        ensures no_memory { OnErr result (list_any (nat_eq l) self.old ≡ false) }
        ensures unchanged { OnErr result (self.new ≡ self.old) }
    {
        if let Some(row) = self.row(l) {
            return Ok(row);
        }
        let row = self.labels.as_slice().len();
        self.labels.push(self.alloc, l)?;
        Ok(row as u32)
    }

    /// All labels, rising. Time: that of sorting them.
    pub fn labels(&self) -> Result<Labels, NoMemory>
        ensures labels { IfOk result (λ labels. IsPermutation self.now labels) }
        ensures rising { IfOk result (λ labels. IsStrictlyIncreasing labels) }
        ensures few { length self.now ≤ 65536 }
    {
        let mut labels = Vec::from_slice(self.alloc, self.labels.as_slice())?;
        labels.sort_unstable();
        Ok(Labels::from_vec(labels))
    }
}
