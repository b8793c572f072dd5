//! A place in a log, which a scan goes on from.

/// A place in a log: how many entries are below it, and how many bytes their payloads have together. It
/// counts from the log's start, so it stays what it is while entries are appended and stamps are set.
#[derive(Clone, Copy, Debug, PartialEq, Eq)]
pub struct Place {
    /// The number of entries between the log's start and this place.
    pub below: u32,
    /// The bytes of the payloads of these entries.
    pub props: u32,
}
