//! What no clause says: that rows are opened with ample memory, and the answers of a worked case.

use reader_table::{ReaderTable, Row};
use std::test::Fail;

#[test]
fn the_horizon_is_of_the_oldest_snapshot_that_is_read(rt: HostRuntime) -> Result<(), Fail> {
    let mut table = ReaderTable::new(rt.alloc());
    let first = table.open_row().ok().ok_or("memory")?;
    let second = table.open_row().ok().ok_or("memory")?;
    assert_eq!(rt; (first, second), (0, 1));
    table.enter(first, 5, 2);
    table.enter(second, 7, 3);
    assert_eq!(rt; (table.horizon(4), table.oldest(9)), (2, 5));
    table.leave(first);
    table.leave(second);
    assert_eq!(rt; (table.horizon(4), table.oldest(9)), (4, 9));
    Ok(())
}

#[test]
fn the_first_closed_row_is_opened_again(rt: HostRuntime) -> Result<(), Fail> {
    let mut table = ReaderTable::new(rt.alloc());
    for row in 0..5 {
        assert_eq!(rt; table.open_row().ok(), Some(row));
    }
    assert_eq!(rt; table.row(3), Some(Row::Idle));
    assert_eq!(rt; table.row(1), Some(Row::Idle));
    table.close_row(3);
    table.close_row(1);
    assert_eq!(rt; table.open_row().ok(), Some(1));
    assert_eq!(rt; table.open_row().ok(), Some(3));
    assert_eq!(rt; table.open_row().ok(), Some(5));
    Ok(())
}
