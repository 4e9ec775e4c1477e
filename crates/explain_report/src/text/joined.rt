//! Comparison of the pieces of a line, as they are shown, with a text.

ghost use Rattle.std.specs.Prelude.{◌≡◌, ◌++◌, ◌⊎◌, IsTrue, MatchOption, codes, ⊤};
ghost use Rattle.explain_report.specs.Pieces.{IsShownAs, pieces_shown};

use crate::text::cut::Piece;
use crate::text::secret::is_same;

/// Whether the pieces are shown as the text, or as a front of it followed by `redacted` in place of the rest.
pub(crate) fn shows(pieces: &[Piece<'_>], text: &[u8]) -> bool
    ensures { IsTrue result → IsShownAs text.now (pieces_shown pieces.now) }
{
    let Some((last, front)) = pieces.split_last() else {
        return false;
    };
    match after_all(front, text) {
        Some(rest) => is_last(last.shown(), rest),
        None => false,
    }
}

/// Whether the last piece is shown as the rest of a text, or as `redacted`.
fn is_last(last: &[u8], rest: &[u8]) -> bool
    ensures { IsTrue result → (last.now ≡ rest.now) ⊎ (last.now ≡ codes "redacted") }
{
    is_same(last, rest) || is_same(last, b"redacted")
}

/// The rest of a text after these pieces as they are shown, if the text begins with them.
fn after_all<'a>(pieces: &[Piece<'_>], text: &'a [u8]) -> Option<&'a [u8]>
    ensures { MatchOption result ⊤ (λ rest. text.now ≡ pieces_shown pieces.now ++ rest.now) }
{
    let mut rest = text;
    for piece in pieces {
        rest = suffix(rest, piece.shown())?;
    }
    Some(rest)
}

/// The rest of a text after a front, if the text begins with it.
fn suffix<'a>(text: &'a [u8], front: &[u8]) -> Option<&'a [u8]>
    ensures { MatchOption result ⊤ (λ rest. text.now ≡ front.now ++ rest.now) }
{
    let (head, rest) = text.split_at(front.len().min(text.len()));
    if is_same(head, front) {
        Some(rest)
    } else {
        None
    }
}
