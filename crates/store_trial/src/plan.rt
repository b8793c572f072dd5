//! What is to be done: the graph that is generated, and which of its edges a call is about.

ghost use Rattle.std.specs.Prelude.{◌<◌, ◌^◌};

/// Destinations of edges from one vertex come again after so many.
const DESTINATIONS: u64 = 1 << 62;

/// An edge that is put, or asked for, and the number that its payload spells.
#[derive(Clone, Copy, Debug, PartialEq, Eq)]
pub struct Edge {
    pub from: u64,
    pub to: u64,
    pub word: u64,
}

/// The sizes of the graph: the vertices, the edges that are put, and those of the hub, which is the first vertex.
#[derive(Clone, Copy, Debug, PartialEq, Eq)]
pub struct Sizes {
    pub vertices: u32,
    pub edges: u32,
    pub hub: u32,
}

/// What a call does.
#[derive(Clone, Copy, Debug, PartialEq, Eq)]
pub enum Call {
    Make,
    Put,
    Read,
    Scan,
}

/// Which edges the calls are about, by their numbers: those of the graph, in their order or in one that jumps; those of
/// them that begin in the thread's own eighth of the vertices; the edges of a vertex of the thread's own; those of the
/// hub, in their order or in one that jumps; or one for each vertex.
#[derive(Clone, Copy, Debug, PartialEq, Eq)]
pub enum Which {
    InOrder,
    Jumping,
    OwnEighth,
    OwnVertex,
    OfHub,
    OfHubJumping,
    EachVertex,
}

/// What a thread does: so many transactions of so many calls each, and none once so many milliseconds have passed.
#[derive(Clone, Copy, Debug, PartialEq, Eq)]
pub struct Job {
    pub call: Call,
    pub which: Which,
    pub calls: u32,
    pub transactions: u32,
    pub millis: u64,
}

/// A number that is drawn for another one: splitmix64.
pub fn drawn(number: u64) -> u64 {
    let z = number.wrapping_mul(0x9E37_79B9_7F4A_7C15);
    let z = (z ^ (z >> 30)).wrapping_mul(0xBF58_476D_1CE4_E5B9);
    let z = (z ^ (z >> 27)).wrapping_mul(0x94D0_49BB_1331_11EB);
    z ^ (z >> 31)
}

// A number below the limit, or 0.
fn below(number: u64, limit: u32) -> u64
    ensures { result < 2 ^ 32 }
{
    number % u64::from(limit.max(1))
}

impl Sizes {
    /// The edge of this number. It begins at a vertex of the eighth that the number says, at low ones much more often than
    /// at high ones, and ends anywhere.
    fn edge(&self, number: u64) -> Edge
        ensures { result.to < 2 ^ 63 }
    {
        let three = number.wrapping_mul(3);
        let u = drawn(three.wrapping_add(1)) >> 32;
        let cube = (u.wrapping_mul(u) >> 32).wrapping_mul(u) >> 32;
        let place = cube.wrapping_mul(u64::from(self.vertices / 8)) >> 32;
        Edge {
            from: place.wrapping_mul(8).wrapping_add(number % 8 + 1),
            to: 1 + below(drawn(three.wrapping_add(2)), self.vertices),
            word: drawn(three.wrapping_add(3)),
        }
    }

    /// The edge of this number from a vertex.
    fn edge_from(&self, from: u64, number: u64) -> Edge
        ensures { result.to < 2 ^ 63 }
    {
        Edge {
            from,
            to: 1 + number % DESTINATIONS,
            word: drawn(number),
        }
    }

    /// The edge that the call of this number is about, in the thread of this place.
    pub fn edge_of(&self, which: Which, place: u32, number: u64) -> Edge
        ensures { result.to < 2 ^ 63 }
    {
        let own = u64::from(place) + 1;
        match which {
            Which::InOrder => self.edge(number),
            Which::Jumping => self.edge(below(drawn(number), self.edges)),
            Which::OwnEighth => {
                let eighth = below(drawn(number), self.edges / 8);
                self.edge(eighth * 8 + u64::from(place % 8))
            }
            Which::OwnVertex => self.edge_from(own, number),
            Which::OfHub => self.edge_from(1, number),
            Which::OfHubJumping => self.edge_from(1, below(drawn(number), self.hub)),
            Which::EachVertex => self.edge_from(1 + below(number, self.vertices), 0),
        }
    }
}
