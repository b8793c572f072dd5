//! A row over logs in vectors, with ample memory: what no clause says is that the calls succeed.

use crate::asserts::{holds, same};
use edge_log::PlainLog;
use graph_model::Payload;
use std::test::Fail;
use vertex_locks::Look;
use vertex_rows::VertexRow;

#[test]
fn what_was_put_is_seen_from_its_epoch_on_and_what_was_undone_is_as_before(
    rt: HostRuntime,
) -> Result<(), Fail> {
    let alloc = rt.alloc();
    let p = Payload::from_slice(alloc, &[1])?;
    let mut row: VertexRow<PlainLog> = VertexRow::new(alloc, 1 << 20);
    let added = row
        .put(alloc, &mut (), 4, 2, 1, 5, 9, &p)
        .expect(&rt, "memory for a log");
    let replaced = row
        .put(alloc, &mut (), 4, 2, 1, 5, 9, &p)
        .expect(&rt, "memory for an entry");
    holds(&rt, replaced && !added);
    row.apply(&mut (), 4, 3, true);
    holds(
        &rt,
        row.has_edge(&(), 5, 3, 5, 9) && !row.has_edge(&(), 5, 2, 5, 9),
    );
    let there = row
        .del(&mut (), 5, 3, 5, 9)
        .expect(&rt, "memory for a note");
    holds(&rt, there && !row.has_edge(&(), 5, 3, 5, 9));
    same(&rt, row.look(6, 3), Look::Held { owner: 5 });
    row.undo(&mut (), 5);
    holds(&rt, row.has_edge(&(), 5, 3, 5, 9));
    same(&rt, row.look(6, 3), Look::Taken);
    same(&rt, row.look(6, 2), Look::Conflict { committed: 3 });
    Ok(())
}
