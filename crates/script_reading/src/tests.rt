//! Long scripts with ample memory, by one thread and by several.

use crate::read_side_by_side;
use request_text::TextRefusal;
use std::alloc::{AllocError, Global};
use std::test::Fail;

/// How many lines stand before the last one: so many that threads share them.
const LINES: u64 = 20_000;

/// A text of many lines, and this one behind them.
fn text_with(alloc: Global, last: &str) -> Result<String, AllocError> {
    let mut text = String::new(alloc);
    for line in 0..LINES {
        writeln!(text, "{} put 1 5 {line} 00ff", line % 7)?;
    }
    text.push_str(last)?;
    Ok(text)
}

#[test]
fn any_number_of_threads_reads_a_long_script(rt: HostRuntime) -> Result<(), Fail> {
    let bad = TextRefusal::BadLine {
        line: LINES + 1,
        column: 3,
    };
    for (threads, last, wanted) in [
        (1, "1 commit\n", Ok(20_001)),
        (2, "1 commit", Ok(20_001)),
        (3, "", Ok(20_000)),
        (64, "1 commit\n", Ok(20_001)),
        (4, "1 comit\n", Err(bad)),
    ] {
        let text = text_with(rt.alloc(), last)?;
        let read = read_side_by_side(&rt, rt.alloc(), text.as_bytes(), threads);
        assert_eq!(rt;
            read.map(|script| script.len()),
            wanted,
            "{threads} threads"
        );
    }
    Ok(())
}
