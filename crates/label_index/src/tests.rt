//! What no clause says: that labels get rows with ample memory, and the answers of worked cases.

use crate::*;
use std::test::Fail;

#[test]
fn a_label_keeps_the_row_that_it_got_first(rt: HostRuntime) -> Result<(), Fail> {
    let mut index = LabelIndex::new(rt.alloc());
    for (l, row) in [(7, 0), (3, 1), (7, 0)] {
        assert_eq!(rt; index.row_or_new(l).ok(), Some(row));
    }
    assert_eq!(rt;
        (index.row(3), index.row(7), index.row(5)),
        (Some(1), Some(0), None)
    );
    let labels = index.labels().ok().ok_or("memory")?;
    assert_eq!(rt; labels.as_slice(), [3, 7].as_slice());
    Ok(())
}

#[test]
fn labels_keep_their_rows_when_many_come(rt: HostRuntime) -> Result<(), Fail> {
    let came = [
        90, 12, 65535, 0, 7, 41, 3, 88, 5, 1000, 2, 64, 9, 33, 700, 11, 8, 500, 6, 77,
    ];
    let mut index = LabelIndex::new(rt.alloc());
    for (count, l) in came.iter().enumerate() {
        assert_eq!(rt; index.row(*l), None);
        assert_eq!(rt; index.row_or_new(*l).ok(), Some(count as u32));
        for (row, earlier) in came.iter().enumerate().take(count + 1) {
            assert_eq!(rt; index.row(*earlier), Some(row as u32));
            assert_eq!(rt; index.row_or_new(*earlier).ok(), Some(row as u32));
        }
    }
    let labels = index.labels().ok().ok_or("memory")?;
    let rising = [
        0, 2, 3, 5, 6, 7, 8, 9, 11, 12, 33, 41, 64, 77, 88, 90, 500, 700, 1000, 65535,
    ];
    assert_eq!(rt; labels.as_slice(), rising.as_slice());
    Ok(())
}
