//! What no clause says: that the calls succeed with ample memory, and how the edges to std behave.

use crate::asserts::{same, same_in};
use io_edges::{
    Failed, MemSink, MemSource, OutBuffer, Outlet, ReadRefusal, Sink, Source, StdSink, StdSource,
    WriteFault, read_all, write_all,
};
use std::alloc::{AllocError, Global};
use std::io::{self, Error, ErrorKind, Read};
use std::test::Fail;

/// The bytes 0, 1, 2 and so on up to 250, and again.
fn counting(alloc: Global, len: usize) -> Result<Vec<u8>, AllocError> {
    (0..len).map(|i| (i % 251) as u8).collect(alloc)
}

#[test]
fn read_all_reads_to_the_end_or_refuses(rt: HostRuntime) -> Result<(), Fail> {
    let rows = [
        (0, 0, 0, None),
        (5, 5, 0, None),
        (5, 4, 0, Some(ReadRefusal::TooLong)),
        (5, 0, 0, Some(ReadRefusal::TooLong)),
        (5, 5, 1, Some(ReadRefusal::ReadFault)),
        (5, 5, 2, Some(ReadRefusal::ReadFault)),
        (5, 4, 2, Some(ReadRefusal::TooLong)),
        (200_000, 200_000, 0, None),
        (200_000, u64::MAX, 0, None),
        (200_000, 199_999, 0, Some(ReadRefusal::TooLong)),
        (200_000, 200_000, 3, Some(ReadRefusal::ReadFault)),
    ];
    for (len, most, failing, want) in rows {
        let bytes = counting(rt.alloc(), len)?;
        let expected = bytes.clone()?;
        let mut source = MemSource::new(bytes, vec![in rt.alloc(); failing]?);
        match read_all(rt.alloc(), &mut source, most) {
            Ok(bytes) => {
                same_in(&rt, bytes.as_slice(), expected.as_slice(), (len, most));
                same_in(&rt, None, want, (len, most));
            }
            Err(refusal) => same_in(&rt, Some(refusal), want, (len, most)),
        }
    }
    Ok(())
}

#[test]
fn a_write_that_fails_leaves_a_prefix(rt: HostRuntime) -> Result<(), Fail> {
    let rows = [(3, 0, 3), (3, 2, 3), (8, 1, 0), (0, 0, 0)];
    for (room, failing, kept) in rows {
        let failing = vec![in rt.alloc(); failing]?;
        let mut sink = MemSink::new(rt.alloc(), room, failing)
            .ok()
            .ok_or("memory")?;
        same_in(&rt, write_all(&mut sink, b"abcde"), Err(WriteFault), room);
        same(&rt, sink.written(), &b"abcde"[..kept]);
        same(&rt, sink.faults(), 1);
    }
    Ok(())
}

#[test]
fn pieces_reach_the_sink_in_order_whatever_the_room(rt: HostRuntime) -> Result<(), Fail> {
    for room in [0, 1, 2, 3, 4, 100] {
        let mut sink = MemSink::new(rt.alloc(), 8, vec![in rt.alloc()]?)
            .ok()
            .ok_or("memory")?;
        let mut outlet = OutBuffer::new(rt.alloc(), room).ok().ok_or("memory")?;
        for piece in ["ab", "cdefg", "", "h"] {
            same(&rt, outlet.put(&mut sink, piece.as_bytes()), Ok(()));
        }
        same(&rt, outlet.flush(&mut sink), Ok(()));
        same_in(&rt, sink.written(), b"abcdefgh".as_slice(), room);
        same(
            &rt,
            outlet.put(&mut sink, b"i"),
            if room == 0 { Err(WriteFault) } else { Ok(()) },
        );
    }
    Ok(())
}

/// A reader that is interrupted so often, and then at its end.
#[derive(Drop)]
struct Interrupted {
    times: u32,
}

impl Read for Interrupted {
    fn read(&mut self, buf: &mut [u8]) -> io::Result<usize> {
        if self.times == 0 {
            return Ok(0);
        }
        self.times -= 1;
        Err(Error::from(ErrorKind::Interrupted))
    }
}

#[test]
fn interrupted_reads_are_tried_again(rt: HostRuntime) -> Result<(), Fail> {
    for (times, want, faults) in [(0, Ok(0), 0), (63, Ok(0), 0), (64, Err(Failed), 1)] {
        let mut source = StdSource::new(Interrupted { times });
        same_in(&rt, source.read(&mut [0; 4]), want, times);
        same_in(&rt, source.faults(), faults, times);
    }
    Ok(())
}

#[test]
fn the_edges_to_std_pass_bytes_on(rt: HostRuntime) -> Result<(), Fail> {
    let mut source = StdSource::new(b"abcde".as_slice());
    let bytes = read_all(rt.alloc(), &mut source, 5).ok().ok_or("reads")?;
    same(&rt, bytes.as_slice(), b"abcde".as_slice());
    let mut written = Vec::new(rt.alloc());
    let mut sink = StdSink::new(&mut written);
    same(&rt, write_all(&mut sink, bytes.as_slice()), Ok(()));
    same(&rt, written.as_slice(), b"abcde".as_slice());
    let mut full = [0; 3];
    let mut sink = StdSink::new(full.as_mut_slice());
    same(&rt, write_all(&mut sink, b"abcde"), Err(WriteFault));
    same(&rt, sink.faults(), 1);
    Ok(())
}

#[test]
fn standard_input_and_output_have_edges(rt: HostRuntime) -> Result<(), Fail> {
    let source = StdSource::new(rt.reader());
    same(&rt, source.faults(), 0);
    let mut sink = StdSink::new(io::writer(&rt));
    same(&rt, write_all(&mut sink, b""), Ok(()));
    Ok(())
}
