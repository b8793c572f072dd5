//! A part of a scan: at most 64 edges, with their payloads' bytes in one buffer.

ghost use Rattle.std.specs.Prelude.{◌≡◌, ◌≤◌, ◌<◌, ◌↔◌, length, slice_get, IfOk, IsTrue};
ghost use Rattle.std.specs.Option.{option_copied, option_map};
ghost use Rattle.graph_model.specs.Payload.{payload_most};
ghost use Rattle.edge_log.specs.Parts.{part_most, payload_bytes, HasRoom, empty_part, with_edge, with_range, with_next};

use graph_model::NoMemory;
use std::alloc::Global;
use std::marker::Model;

/// Where a pair's payload stands in the buffer.
#[derive(Clone, Copy)]
struct Span {
    d: u64,
    start: usize,
    end: usize,
}

/// Edges that a scan has found. It takes no memory after it was made.
///
/// It is filled in one of two ways after `clear`: edge by edge with `push`, each payload copied by itself; or
/// with `take_range`, which copies the payloads of some entries that lie next to each other at once, and then
/// `take_next` for each of these entries, from the newest down.
#[derive(Drop)]
pub struct Part {
    // As many as a part may have, of which the first `count` stand for edges.
    spans: Vec<Span>,
    count: usize,
    payloads: Vec<u8>,
    // How many bytes of the buffer, the first, are a range of which no edge was taken yet.
    left: usize,
    bytes: usize,
}

impl Model for Part {
    ghost use Rattle.edge_log.specs.Parts.{PartContent};

    ghost Value = { PartContent };

    ghost use Rattle.edge_log.specs.Spans.{part_of, IsLaidOut};

    ghost view = { part_of };

    ghost invariant = { IsLaidOut };
}

impl Part {
    /// The greatest number of edges in a part.
    pub const MOST: usize = 64;

    /// An empty part with room for payloads of `bytes` bytes together.
    pub fn new(alloc: Global, bytes: usize) -> Result<Part, NoMemory>
        requires { payload_most ≤ bytes }
        ensures { IfOk result (λ part. part ≡ empty_part bytes) }
    {
        let unused = Span {
            d: 0,
            start: 0,
            end: 0,
        };
        let spans = vec![in alloc; unused; Part::MOST]?;
        let payloads = Vec::with_capacity(alloc, bytes)?;
        Ok(Part {
            spans,
            count: 0,
            payloads,
            left: 0,
            bytes,
        })
    }

    /// The number of edges: at most 64, with payloads that fit together.
    pub fn pairs(&self) -> usize
        ensures count { result ≡ length self.now.pairs }
        ensures few { result ≤ part_most }
        ensures fit { payload_bytes self.now.pairs ≤ self.now.bytes }
    {
        self.count
    }

    /// The destination at a place from 0 on; none past the end.
    pub fn d(&self, i: usize) -> Option<u64>
        ensures { result ≡ option_map (λ pair. pair.d) (slice_get self.now.pairs i) }
    {
        let span = self.spans[..self.count].get(i)?;
        Some(span.d)
    }

    /// The payload at a place from 0 on; none past the end.
    pub fn p(&self, i: usize) -> Option<&[u8]>
        ensures { option_copied result ≡ option_map (λ pair. pair.p) (slice_get self.now.pairs i) }
    {
        let span = self.spans[..self.count].get(i)?;
        Some(&self.payloads[span.start..span.end])
    }

    /// Takes the edges away. The room stays.
    pub fn clear(&mut self)
        ensures cleared { self.new ≡ empty_part self.old.bytes }
        ensures wide { payload_most ≤ self.new.bytes }
    {
        self.count = 0;
        self.left = 0;
        self.payloads.clear();
    }

    /// Whether there is room for one more edge, with a payload of this length.
    pub fn has_room(&self, len: usize) -> bool
        ensures { IsTrue result ↔ HasRoom self.now len }
    {
        self.count < Part::MOST && len <= self.bytes - self.payloads.len()
    }

    /// Appends an edge. It takes no memory. Time: one step for each byte.
    pub fn push(&mut self, d: u64, p: &[u8])
        requires { HasRoom self.old (length p.now) }
        ensures { self.new ≡ with_edge d p.now self.old }
    {
        let start = self.payloads.len();
        self.payloads.extend_from_slice(p).unwrap();
        let end = self.payloads.len();
        self.spans[self.count] = Span { d, start, end };
        self.count += 1;
    }

    /// Whether a range of this many bytes fits, of the payloads of entries that lie next to each other.
    pub fn fits_range(&self, len: usize) -> bool
        ensures { IsTrue result ↔ (len ≤ self.now.bytes) }
    {
        len <= self.bytes
    }

    /// Takes the edges away, and copies a range of payloads, of which `take_next` takes edges from its end
    /// on. It takes no memory. Time: one copy, of one step for each byte.
    #[inline(always)]
    pub fn take_range(&mut self, payloads: &[u8])
        requires { length payloads.now ≤ self.old.bytes }
        ensures { self.new ≡ with_range payloads.now self.old }
    {
        self.clear();
        self.payloads.extend_from_slice(payloads).unwrap();
        self.left = payloads.len();
    }

    /// Takes the next edge of the range, whose payload is the last `len` bytes that are left of it, where the
    /// edge is shown; passes it over where it is not. Time: constant, without a branch on `shown`.
    #[inline(always)]
    pub fn take_next(&mut self, d: u64, len: usize, shown: bool)
        requires few { length self.old.pairs < part_most }
        requires within { len ≤ length self.old.range }
        ensures { self.new ≡ with_next d len shown self.old }
    {
        let end = self.left;
        let start = end - len;
        self.left = start;
        self.spans[self.count] = Span { d, start, end };
        self.count += usize::from(shown);
    }
}
