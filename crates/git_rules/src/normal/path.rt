//! The path of a URL, as Git compares it: without the segments `.` and `..`, with its query and its fragment.
//!
//! The front of the buffer always holds the path of a stack of segments. Pushing a segment appends it; popping one
//! cuts the path at its last `/`.

ghost use Rattle.std.specs.Prelude.{◌≡◌, ◌++◌, ◌∷◌, ◌+◌, ◌*◌, ◌≤◌, List, [], ℕ, IfSome, MatchResult, length, max, take, true, bytes_eq, codes};
ghost use Rattle.git_syntax.specs.Bytes.{FreeOf, slash};
ghost use Rattle.git_syntax.specs.Escapes.{is_sound};
ghost use Rattle.git_syntax.specs.Grammar.{or_root};
ghost use Rattle.git_rules.specs.Normal.{NormalPath, normal_segments, normal_text, write_segment, write_segments, without_top};
ghost use Rattle.git_rules.specs.NormalFlaws.{PathFlaw};
ghost use Rattle.git_rules.specs.NormalPieces.{ShowsFront, ShowsStack};

use crate::normal::NormalError;
use crate::normal::cuts::{cut_before_rest, unrooted};
use crate::normal::escapes::{put, write_normal};
use git_syntax::bytes::{cut, last_cut};
use git_syntax::escape::is_sound;

/// Writes the path, the query and the fragment in normal form to the front of the buffer, and returns them.
pub(super) fn path_in<'a>(suffix: &[u8], buffer: &'a mut [u8]) -> Result<&'a [u8], NormalError>
    requires { 3 * length suffix.now + 1 ≤ length buffer.old }
    ensures { MatchResult result (λ path. NormalPath suffix.now path.now) (λ e. PathFlaw suffix.now e) }
{
    if !is_sound(suffix) {
        return Err(NormalError::BrokenEscape);
    }
    let (segments, rest) = cut_before_rest(unrooted(suffix));
    let Some(at) = write_path(buffer, segments) else {
        return Err(NormalError::AboveRoot);
    };
    let at = write_root(buffer, at);
    let end = write_normal(buffer, at, rest);
    let (path, _) = buffer.split_at_mut(end);
    Ok(path)
}

/// Writes the path of the segments of a text to the front of the buffer, and returns its length.
fn write_path(buffer: &mut [u8], segments: &[u8]) -> Option<usize>
    requires sound { is_sound segments.now ≡ true }
    requires buffer { 3 * length segments.now + 1 ≤ length buffer.old }
    ensures path { ShowsFront (write_segments (normal_segments segments.now) []) buffer.new result }
    ensures most { IfSome result (λ end. end ≤ 3 * length segments.now + 1) }
{
    let mut at = 0;
    let mut rest = segments;
    while let Some((segment, suffix)) = cut(rest, b'/') {
        at = write_segment(buffer, at, segment)?;
        rest = suffix;
    }
    write_segment(buffer, at, rest)
}

/// Pushes a segment on the stack whose path is the front of the buffer, and returns the new length of the path.
fn write_segment(buffer: &mut [u8], at: usize, segment: &[u8]) -> Option<usize>
    requires sound { is_sound segment.now ≡ true }
    requires buffer { at + 3 * length segment.now + 1 ≤ length buffer.old }
    ensures path { (stack : List (List ℕ)) → ShowsStack (take at buffer.old) stack → FreeOf slash segment.now
        → ShowsFront (write_segment stack (normal_text segment.now)) buffer.new result }
    ensures most { IfSome result (λ end. end ≤ at + 3 * length segment.now + 1) }
{
    let start = put(buffer, at, b"/");
    let end = write_normal(buffer, start, segment);
    let written = &buffer[start..end];
    if is_dot(written) {
        return Some(at);
    }
    if is_dots(written) {
        return without_last(&buffer[..at]);
    }
    Some(end)
}

/// Whether a segment is `.`.
fn is_dot(segment: &[u8]) -> bool
    ensures { result ≡ bytes_eq segment.now (codes ".") }
{
    segment == b".".as_slice()
}

/// Whether a segment is `..`.
fn is_dots(segment: &[u8]) -> bool
    ensures { result ≡ bytes_eq segment.now (codes "..") }
{
    segment == b"..".as_slice()
}

/// The length of the path without its last segment, if it has one.
fn without_last(path: &[u8]) -> Option<usize>
    ensures path { (stack : List (List ℕ)) → ShowsStack path.now stack
        → ShowsFront (without_top stack) path.now result }
    ensures most { IfSome result (λ end. end ≤ length path.now) }
{
    let (front, _) = last_cut(path, b'/')?;
    Some(front.len())
}

/// Writes `/` to the front of the buffer if the path is empty, and returns the length of the path.
fn write_root(buffer: &mut [u8], at: usize) -> usize
    requires { 1 ≤ length buffer.old }
    ensures path { take result buffer.new ≡ or_root (take at buffer.old) }
    ensures end { result ≡ max at 1 }
{
    if at == 0 { put(buffer, 0, b"/") } else { at }
}
