//! The versions of a payload, with ample memory: which of them a snapshot sees.

use crate::asserts::same;
use graph_model::{NoMemory, Payload};
use std::alloc::Global;
use std::test::Fail;
use vertex_versions::Versions;

fn first_byte(payload: Option<&Payload>) -> Option<u8> {
    payload.and_then(|p| p.get(0)).copied()
}

// The payloads 1, 3 and 5, each of the epoch of its number.
fn three_versions(alloc: Global) -> Result<Versions, NoMemory> {
    let mut versions = Versions::new(alloc);
    for epoch in [1u8, 3, 5] {
        versions.push(9, Some(Payload::from_slice(alloc, &[epoch])?))?;
        versions.convert(9, u64::from(epoch));
    }
    Ok(versions)
}

#[test]
fn trimming_keeps_what_the_horizon_reads(rt: HostRuntime) -> Result<(), Fail> {
    let mut versions = three_versions(rt.alloc())?;
    versions.trim(4);
    for (read, seen) in [(2, None), (3, Some(3)), (4, Some(3)), (5, Some(5))] {
        same(&rt, first_byte(versions.newest_at(read, 9)), seen);
    }
    Ok(())
}

#[test]
fn a_dropped_vertex_is_there_in_older_snapshots(rt: HostRuntime) -> Result<(), Fail> {
    let mut versions = three_versions(rt.alloc())?;
    versions.push(4, None)?;
    versions.convert(4, 6);
    same(&rt, first_byte(versions.newest_at(6, 9)), None);
    same(&rt, first_byte(versions.newest_at(5, 9)), Some(5));
    Ok(())
}

#[test]
fn a_transaction_alone_sees_its_own_version_until_it_is_undone(
    rt: HostRuntime,
) -> Result<(), Fail> {
    let mut versions = three_versions(rt.alloc())?;
    versions.push(9, Some(Payload::from_slice(rt.alloc(), &[7])?))?;
    same(&rt, first_byte(versions.newest_at(5, 9)), Some(7));
    same(&rt, first_byte(versions.newest_at(5, 8)), Some(5));
    versions.undo(9);
    same(&rt, first_byte(versions.newest_at(5, 9)), Some(5));
    Ok(())
}
