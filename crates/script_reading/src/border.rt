//! Where a text is cut.

ghost use Rattle.script_reading.specs.Borders.{IsBorder};

/// The first place behind a newline from here on, or the end. Time: one step for each byte up to it.
pub(crate) fn border_from(bytes: &[u8], from: usize) -> usize
    ensures { IsBorder bytes.now result }
{
    for at in from..bytes.len() {
        if bytes[at] == b'\n' {
            return at + 1;
        }
    }
    bytes.len()
}
