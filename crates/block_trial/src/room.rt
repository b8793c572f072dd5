//! How large a block is to be.

ghost use Rattle.std.specs.Prelude.{◌≡◌, ◌+◌, ◌*◌, ◌≤◌, ◌↔◌, IsTrue, IfSome};
ghost use Rattle.block_layout.specs.Sizes.{order_most, block_len};
ghost use Rattle.block_trial.specs.Logs.{needed};

use block_layout::props_start;

/// The greatest order.
pub const ORDER_MOST: u8 = 25;

/// The bytes of an entry with a payload of 8 bytes.
const ENTRY: usize = 36;

/// How many bytes a block of an order has.
pub fn block_len(order: u8) -> usize
    requires { order ≤ order_most }
    ensures { result ≡ block_len order }
{
    64 << order
}

/// Whether a block of an order has room for so many edges and one more.
#[inline(always)]
pub fn has_room(order: u8, edges: u32) -> bool
    requires { order ≤ order_most }
    ensures { IsTrue result ↔ (needed order (edges + 1) ≤ block_len order) }
{
    props_start(order) + ENTRY * (edges as usize + 1) <= block_len(order)
}

/// The least order of a block that has room for so many edges and one more; none where no order is large enough.
pub fn order_for(edges: u32) -> Option<u8>
    ensures { IfSome result (λ order. (order ≤ order_most) × (needed order (edges + 1) ≤ block_len order)) }
{
    for order in 1..ORDER_MOST {
        if has_room(order, edges) {
            return Some(order);
        }
    }
    None
}
