//! Reads of a log over a vector, with ample memory: what no clause says is that the calls succeed.

use crate::{pairs, payload_to, shows_any};
use edge_log::{EdgeLog, Part, PlainLog};
use graph_model::Payload;
use std::test::Fail;

#[test]
fn a_log_of_several_parts_is_read_from_its_newest_edge_to_its_first(
    rt: HostRuntime,
) -> Result<(), Fail> {
    let alloc = rt.alloc();
    let mut log = PlainLog::start(alloc, &mut (), 4, 5, 0, 1 << 20).expect(&rt, "memory for a log");
    let mut part = Part::new(alloc, Payload::MOST).expect(&rt, "memory for a part");
    assert!(rt; !shows_any(&log, &(), 7, 0, &mut part));
    for d in 0..150u8 {
        let p = Payload::from_slice(alloc, &[d]).expect(&rt, "memory for a payload");
        log.prepare(&mut (), 29).expect(&rt, "memory for an entry");
        log.append(&mut (), 7, u64::from(d), &p);
    }
    assert!(rt; shows_any(&log, &(), 7, 0, &mut part) && !shows_any(&log, &(), 8, 0, &mut part));
    let seen = pairs(alloc, &log, &(), 7, 0, &mut part).expect(&rt, "memory for the edges");
    assert_eq!(rt; seen.len(), 150);
    for (i, d) in [(0, 149), (64, 85), (149, 0)] {
        let pair = seen.get(i).expect(&rt, "an edge");
        assert_eq!(rt; (pair.d, pair.p.get(0)), (u64::from(d), Some(&d)));
    }
    let payload = payload_to(alloc, &log, &(), 7, 0, 70).expect(&rt, "memory for a payload");
    assert_eq!(rt; payload.expect(&rt, "an edge").get(0), Some(&70));
    assert!(rt; matches!(payload_to(alloc, &log, &(), 8, 0, 70), Ok(None)));
    Ok(())
}
