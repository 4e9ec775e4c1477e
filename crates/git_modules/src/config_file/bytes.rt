//! The bytes of a text in turn, without the carriage returns before line feeds.

ghost use Rattle.std.specs.Prelude.{◌≡◌, ◌≤◌, length};
ghost use Rattle.git_modules.specs.ConfigFileBytes as spec;
ghost use Rattle.git_modules.specs.ConfigFilePieces as piece;

/// The byte at an offset of a text, and the offset after it, or `None` at the end. A carriage return and a line
/// feed count as one line feed.
pub(super) fn byte_at(text: &[u8], at: usize) -> Option<(u8, usize)>
    ensures { piece.GivesByte text.now at result }
{
    if at >= text.len() {
        return None;
    }
    let byte = text[at];
    if byte == b'\r' {
        if at + 1 < text.len() {
            if text[at + 1] == b'\n' {
                return Some((b'\n', at + 2));
            }
        }
    }
    Some((byte, at + 1))
}

/// Whether a line ends at an offset of a text.
pub(super) fn ends_line(text: &[u8], at: usize) -> bool
    ensures { result ≡ piece.ends_line (spec.left_at text.now at) }
{
    match byte_at(text, at) {
        Some((byte, _)) => byte == b'\n',
        None => true,
    }
}

/// The offset after the line that an offset is in.
pub(super) fn past_line(text: &[u8], start: usize) -> usize
    requires { start ≤ length text.now }
    ensures left { spec.left_at text.now result ≡ spec.past_line (spec.left_at text.now start) }
    ensures least { start ≤ result }
    ensures most { result ≤ length text.now }
{
    let mut at = start;
    while let Some((byte, suffix)) = byte_at(text, at) {
        if byte == b'\n' {
            return suffix;
        }
        at = suffix;
    }
    at
}
