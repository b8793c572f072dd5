//! The nodes of the tree: below the node k stand the nodes 2k and 2k + 1, and the last half are the leaves.

ghost use Rattle.std.specs.Prelude.{◌≡◌, ◌+◌, ◌<◌, length, drop, slice_set};
ghost use Rattle.reader_table.specs.Nodes.{IsGathered};

use crate::least::Least;

/// Sets a leaf, and the nodes above it.
pub fn note(nodes: &mut [Least], room: usize, row: usize, least: Least)
    requires long { length nodes.old ≡ room + room }
    requires row { row < room }
    requires gathered { IsGathered 0 nodes.old }
    ensures gathered { IsGathered 0 nodes.new }
    ensures leaves { drop room nodes.new ≡ slice_set (drop room nodes.old) row least }
{
    let mut at = room + row;
    nodes[at] = least;
    while at > 1 {
        at /= 2;
        nodes[at] = nodes[2 * at].and(nodes[2 * at + 1]);
    }
}
