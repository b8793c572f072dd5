//! The text of some replies.

ghost use Rattle.std.specs.Prelude.{◌≡◌, ◌+◌, ◌^◌, ◌≤◌, IfSome, length};
ghost use Rattle.request_text.specs.ReplyText.{replies_text_from};

use io_edges::{MemSink, OutBuffer};
use request_text::{Reply, put_replies};
use std::alloc::Global;

/// The greatest length of a text that is spelled beforehand, in bytes.
const TEXT_MOST: usize = 1 << 20;

/// The words of a text are put together into pieces of so many bytes.
const PIECE: usize = 1 << 12;

/// The text of the replies to the lines from this number on; none where it is longer than 1 MiB, or where there is no
/// memory for it.
pub(crate) fn spelled(alloc: Global, first: u64, replies: &[Reply]) -> Option<MemSink>
    requires numbers { first + length replies.now ≤ 2 ^ 64 }
    ensures { IfSome result (λ text. text.written ≡ replies_text_from first replies.now) }
{
    let mut text = MemSink::new(alloc, TEXT_MOST, Vec::new(alloc)).ok()?;
    let mut buffer = OutBuffer::new(alloc, PIECE).ok()?;
    put_replies(&mut buffer, &mut text, first, replies).ok()?;
    buffer.flush(&mut text).ok()?;
    Some(text)
}
