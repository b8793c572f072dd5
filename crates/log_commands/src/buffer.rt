//! The buffer before a sink.

/// The room of the buffer, in bytes.
pub const BUFFER_ROOM: usize = 65536;
