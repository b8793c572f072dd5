//! The header and the entries of one small block, as they are written down elsewhere.

use crate::asserts::{holds, same};
use tel_entry::{
    Entry, Header, NEVER, private_stamp, read_entry, read_header, visible, write_entry,
    write_header,
};

#[test]
fn a_header_is_spelled_and_read(rt: HostRuntime) {
    let header = Header {
        source: 1,
        label: 5,
        order: 1,
        flags: 0,
        epoch: 1,
        entries: 2,
        props: 1,
        previous: 0,
    };
    let mut bytes = [0xee; 37];
    write_header(&mut bytes, &header);
    let expected = [
        0, 0, 0, 0, 0, 0, 0, 1, 0, 5, 1, 0, 0, 0, 0, 0, 0, 0, 0, 1, 0, 0, 0, 2, 0, 0, 0, 1, 0, 0,
        0, 0, 0, 0, 0, 0, 0xee,
    ];
    same(&rt, bytes, expected);
    same(&rt, read_header(&bytes), header);
}

#[test]
fn an_entry_is_spelled_and_read(rt: HostRuntime) {
    let entry = Entry {
        d: 9,
        created: 1,
        ended: NEVER,
        len: 1,
    };
    let mut bytes = [0xee; 29];
    write_entry(&mut bytes, &entry);
    let expected = [
        0, 0, 0, 0, 0, 0, 0, 9, 0, 0, 0, 0, 0, 0, 0, 1, 0, 0, 0, 0, 0, 0, 0, 0, 0, 0, 0, 1, 0xee,
    ];
    same(&rt, bytes, expected);
    same(&rt, read_entry(&bytes), entry);
}

#[test]
fn a_private_stamp_is_seen_by_its_transaction_alone(rt: HostRuntime) {
    let own = private_stamp(4);
    same(&rt, own, 0x8000_0000_0000_0004);
    holds(&rt, visible(own, NEVER, 0, 4));
    holds(&rt, !visible(own, NEVER, 0, 5));
    holds(&rt, !visible(1, own, 1, 4));
    holds(&rt, visible(1, own, 1, 5));
    holds(&rt, !visible(2, NEVER, 1, 5));
    holds(&rt, !visible(NEVER, NEVER, 1, 5));
}
