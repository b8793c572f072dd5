//! Laws of rows in a room, which hold of their definitions. The crates above cite them.

ghost use Rattle.std.specs.Prelude.{◌≡◌, List};
ghost use Rattle.edge_log.specs.Rooms.{Block, AreApart, AreAmong, KeepsLogs};
ghost use Rattle.vertex_rows.specs.declared.vertex_row.VertexRow.{VertexRow};
ghost use Rattle.vertex_rows.specs.RowIn.{row_over, row_blocks, IsRowIn};

use edge_log::EdgeLog;

/// A row that stands in a room lies in blocks that are out of it. Where all that changes in the room is apart from
/// these blocks, the row stands there still and is what it was.
pub fn a_row_stays_where_others_change<L: EdgeLog>()
    ensures lies_out { (row : VertexRow L) (room : L.Room)
        → IsRowIn L.stands L.footprint L.content L.limit row room
        → AreAmong (row_blocks L.footprint row) (L.blocks_out room) }
    ensures stands { (blocks : List Block) (row : VertexRow L) (old new : L.Room)
        → KeepsLogs L.stands L.footprint L.content L.spare blocks old new
        → AreApart blocks (row_blocks L.footprint row)
        → IsRowIn L.stands L.footprint L.content L.limit row old
        → IsRowIn L.stands L.footprint L.content L.limit row new }
    ensures same { (blocks : List Block) (row : VertexRow L) (old new : L.Room)
        → KeepsLogs L.stands L.footprint L.content L.spare blocks old new
        → AreApart blocks (row_blocks L.footprint row)
        → IsRowIn L.stands L.footprint L.content L.limit row old
        → row_over L.content row new ≡ row_over L.content row old }
{}
