//! What is true of every script.

ghost use Rattle.std.specs.Prelude.{◌≡◌, ℕ, List, Ok};
ghost use Rattle.request_text.specs.declared.request.Line.{Line};
ghost use Rattle.request_text.specs.Scripts.{script_of, script_text};
ghost use Rattle.request_text.specs.Limits.{AreWithinLimits};

/// A script within the limits is read again from its text.
pub fn what_is_printed_is_read()
    ensures { (lines : List Line) → AreWithinLimits lines → script_of (script_text lines) ≡ Ok lines }
{}

/// What any text is read as is within the limits: vertices and destinations are below 2^63, and sessions,
/// labels and payloads are as long as they may be.
pub fn what_is_read_is_within_the_limits()
    ensures { (bytes : List ℕ) (lines : List Line) → script_of bytes ≡ Ok lines → AreWithinLimits lines }
{}
