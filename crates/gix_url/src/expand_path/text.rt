//! The test whether a path is UTF-8.
//!
//! Most paths are 8 to 64 bytes of ASCII. Two overlapping loads test for that, in a quarter of the time of a
//! loop over the characters.

ghost use Rattle.std.specs.Prelude.{◌≡◌, ◌+◌, ◌≤◌, IfSome, IsTrue, IsUtf8, None, length};
ghost use Rattle.std.specs.Str.{IsAscii};
ghost use Rattle.gix_url.specs.Paths.{IsAsciiBetween};

use git_syntax::text::as_text;
use std::simd::prelude::*;

/// The path as text, if it is UTF-8.
#[inline(always)]
pub(super) fn path_text(path: &[u8]) -> Option<&str>
    ensures text { IfSome result (λ text. (text.now ≡ path.now) × IsUtf8 path.now) }
    ensures no_text { result ≡ None → ¬ IsUtf8 path.now }
{
    if is_short_ascii(path) {
        return Some(as_text(path));
    }
    str::from_utf8(path).ok()
}

/// Whether the path has 8 to 64 bytes, each of them ASCII.
#[inline(always)]
fn is_short_ascii(path: &[u8]) -> bool
    ensures { IsTrue result → IsAscii path.now }
{
    let length = path.len();
    if length < 8 || 64 < length {
        return false;
    }
    if length < 16 {
        return are_ascii::<8>(path, 0) && are_ascii::<8>(path, length - 8);
    }
    if length < 32 {
        return are_ascii::<16>(path, 0) && are_ascii::<16>(path, length - 16);
    }
    are_ascii::<32>(path, 0) && are_ascii::<32>(path, length - 32)
}

/// Whether the `N` bytes from an index are ASCII.
#[inline(always)]
fn are_ascii<const N: usize>(path: &[u8], at: usize) -> bool
    requires within { at + N ≤ length path.now }
    requires most { N ≤ 64 }
    ensures { IsTrue result → IsAsciiBetween path.now at (at + N) }
{
    Simd::<u8, N>::from_slice(&path[at..])
        .simd_ge(Simd::<u8, N>::splat(128))
        .to_bitmask()
        == 0
}
