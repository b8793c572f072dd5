//! How much stands in a block.

/// How many entries stand in a block, and how many bytes their payloads have together.
#[derive(Clone, Copy, Debug, PartialEq, Eq)]
pub struct Fill {
    /// The number of entries.
    pub entries: u32,
    /// The bytes of their payloads.
    pub props: u32,
}
