//! Parts of the replies.

ghost use Rattle.std.specs.Prelude.{◌≡◌, ◌+◌, ◌<◌, ◌≤◌, length, take, drop};

use request_text::Reply;

/// What begins at this place: so many replies, or all that are left where there are fewer.
pub(crate) fn some_from(replies: &[Reply], at: usize, most: usize) -> &[Reply]
    requires { at ≤ length replies.now }
    ensures part { result.now ≡ take most (drop at replies.now) }
    ensures within { at + length result.now ≤ length replies.now }
    ensures some { at < length replies.now → 0 < most → 0 < length result.now }
{
    let left = &replies[at..];
    &left[..left.len().min(most)]
}
