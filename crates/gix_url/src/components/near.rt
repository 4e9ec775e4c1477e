//! Cuts of a text around a byte that is likely to be near the front, like those of a query.
//!
//! The first bytes are tested one by one, which is faster than starting a search of a long text.

ghost use Rattle.std.specs.Prelude.{◌≤◌, length, take};
ghost use Rattle.git_syntax.specs.Bytes.{FreeOf};
ghost use Rattle.git_syntax.specs.Internal.Cuts.{CutsAt};

use git_syntax::bytes::cut;

/// The number of bytes that are tested one by one.
const NEAR: usize = 8;

/// The bytes before and after the first `c`.
#[inline(always)]
pub(super) fn cut_near(bytes: &[u8], c: u8) -> Option<(&[u8], &[u8])>
    ensures { CutsAt c bytes.now result }
{
    // In hostile queries nothing precedes it.
    if let [first, suffix @ ..] = bytes
        && *first == c
    {
        return Some((b"", suffix));
    }
    let near = bytes.len().min(NEAR);
    for at in 0..near {
        if bytes[at] == c {
            return Some((bytes.split_at(at).0, bytes.split_at(at + 1).1));
        }
    }
    cut_far(bytes, near, c)
}

/// The bytes before and after the first `c`, which is not among the first `from` bytes.
fn cut_far(bytes: &[u8], from: usize, c: u8) -> Option<(&[u8], &[u8])>
    requires within { from ≤ length bytes.now }
    requires free { FreeOf c (take from bytes.now) }
    ensures { CutsAt c bytes.now result }
{
    let (front, suffix) = cut(bytes.split_at(from).1, c)?;
    Some((bytes.split_at(from + front.len()).0, suffix))
}
