//! Lists that are joined, which takes no memory.

ghost use Rattle.std.specs.Prelude.{◌≡◌, ◌+◌, ◌<◌, ◌^◌, ◌↔◌, ◌∷◌, ◌++◌, [], length, IfOk, IsTrue};

use graph_model::NoMemory;
use std::alloc::Global;
use std::collections::LinkedList;

/// No list has this many items.
const LIST_END: usize = 1 << 63;

/// A list of one item.
pub fn one<T: Drop>(alloc: Global, item: T) -> Result<LinkedList<T>, NoMemory>
    ensures { IfOk result (λ list. list ≡ item ∷ []) }
{
    let mut list = LinkedList::new(alloc);
    list.push_back(item)?;
    Ok(list)
}

/// Whether the items of two lists are few enough for one. Time: constant.
pub fn can_join<T, U>(list: &LinkedList<T>, more: &LinkedList<U>) -> bool
    ensures { IsTrue result ↔ (length list.now + length more.now < 2 ^ 63) }
{
    more.len() < LIST_END - list.len()
}

/// Puts the items of one list behind those of another. It takes no memory. Time: constant.
pub fn join<T: Drop>(list: &mut LinkedList<T>, mut more: LinkedList<T>)
    requires { length list.old + length more < 2 ^ 63 }
    ensures { list.new ≡ list.old ++ more }
{
    let _joined = list.append(&mut more);
}
