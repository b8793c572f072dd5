//! Labels by row: few of them lie in the list itself, many in a hash set.
//!
//! Nearly every vertex has a few labels. These take no memory, and are looked through one by one, which reads nothing but
//! the list. Of up to 65,536 labels a place is found by their hash table.

ghost use Rattle.std.specs.Prelude.{◌≡◌, ◌<◌, ◌∷◌, [], ◌++◌, false, length, position, nat_eq, IfSome, IfOk, OnOk, OnErr};
ghost use Rattle.std.specs.List.{list_any, IsDistinct};
ghost use Rattle.label_index.specs.Lists.{by_row};

use arrayvec::ArrayVec;
use graph_model::NoMemory;
use indexmap::IndexSet;
use std::alloc::Global;

// So many labels at most lie in the list itself.
const FEW: usize = 8;

/// Labels by row.
#[derive(Drop)]
pub(crate) enum LabelList {
    Few(ArrayVec<u16, FEW>),
    Many(Box<IndexSet<u16>>),
}

impl LabelList {
    /// No label. It takes no memory.
    pub(crate) fn new() -> LabelList
        ensures { by_row result ≡ [] }
    {
        LabelList::Few(ArrayVec::new())
    }

    /// All labels.
    pub(crate) fn as_slice(&self) -> &[u16]
        ensures { result.now ≡ by_row self.now }
    {
        match self {
            LabelList::Few(few) => few.as_slice(),
            LabelList::Many(many) => many.as_slice(),
        }
    }

    /// The place of a label; none where it is not there. Time: constant, whatever the number of labels.
    #[inline(always)]
    pub(crate) fn place(&self, l: u16) -> Option<usize>
        ensures place { result ≡ position (nat_eq l) (by_row self.now) }
        ensures within { IfSome result (λ i. i < length (by_row self.now)) }
    {
        match self {
            LabelList::Few(few) => place_in(few.as_slice(), l),
            LabelList::Many(many) => many.get_index_of(&l),
        }
    }

    /// Appends a label that is not there. After NoMemory the list is as before. The first eight labels take no memory, and
    /// the ninth moves them into a set, once all of it is there. Time: amortized constant.
    pub(crate) fn push(&mut self, alloc: Global, l: u16) -> Result<(), NoMemory>
        requires once { IsDistinct nat_eq (by_row self.old) }
        requires absent { list_any (nat_eq l) (by_row self.old) ≡ false }
        ensures pushed { OnOk result (by_row self.new ≡ by_row self.old ++ l ∷ []) }
        ensures unchanged { OnErr result (by_row self.new ≡ by_row self.old) }
    {
        match self {
            LabelList::Few(few) if !few.is_full() => few.push(l),
            LabelList::Few(few) => *self = LabelList::Many(set_of(alloc, few.as_slice(), l)?),
            LabelList::Many(many) => {
                many.insert(l)?;
            }
        }
        Ok(())
    }
}

// The place of a label in a list, one label after another.
#[inline(always)]
fn place_in(labels: &[u16], l: u16) -> Option<usize>
    ensures place { result ≡ position (nat_eq l) labels.now }
    ensures within { IfSome result (λ i. i < length labels.now) }
{
    labels.iter().position(|label| l == *label)
}

// The labels of a list, and behind them one more, as a set.
fn set_of(alloc: Global, labels: &[u16], last: u16) -> Result<Box<IndexSet<u16>>, NoMemory>
    requires once { IsDistinct nat_eq labels.now }
    requires absent { list_any (nat_eq last) labels.now ≡ false }
    ensures { IfOk result (λ set. set.value.keys ≡ labels.now ++ last ∷ []) }
{
    let mut set = IndexSet::with_capacity(alloc, 2 * FEW)?;
    for label in labels {
        set.insert(*label)?;
    }
    set.insert(last)?;
    Ok(Box::new(alloc, set)?)
}
