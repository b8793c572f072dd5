//! How large a block has to be.

ghost use Rattle.std.specs.Prelude.{◌≡◌, ℕ, ◌+◌, ◌-◌, ◌<◌, ◌≤◌};
ghost use Rattle.block_layout.specs.Sizes.{order_most, block_len, props_start};

use block_layout::props_start;

/// The greatest order of a block.
const ORDER_MOST: u32 = 25;

/// The smallest order from `least` on of a block with room for so many bytes of entries and payloads. Time: one step
/// for each order.
pub fn order_for(least: u32, size: u64) -> u32
    requires least { least ≤ order_most }
    requires fits { size ≤ block_len order_most - props_start order_most }
    ensures within { (least ≤ result) × (result ≤ order_most) }
    ensures large { size ≤ block_len result - props_start result }
    ensures smallest { (o : ℕ) → least ≤ o → o < result → block_len o - props_start o < size }
{
    for order in least..ORDER_MOST {
        if size <= room_of(order) {
            return order;
        }
    }
    ORDER_MOST
}

/// How many bytes of entries and payloads a block of an order has room for. Time: constant.
pub fn room_of(order: u32) -> u64
    requires { order ≤ order_most }
    ensures { result ≡ block_len order - props_start order }
{
    (64 << order) - props_start(order as u8) as u64
}
