//! Copies of pieces of a text. Each copy allocates once, and nothing if it is empty.

ghost use Rattle.std.specs.Prelude.{◌≡◌, IfOk, IsUtf8, option_map, string_bytes};
ghost use Rattle.bstr.specs.Owned.{bstring_bytes};
ghost use Rattle.git_syntax.specs.Authority.{unless_empty};

use bstr::BString;
use git_syntax::text::as_text;
use std::alloc::{AllocError, Global};

/// The piece as owned bytes.
pub(super) fn copy(alloc: Global, piece: &[u8]) -> Result<BString, AllocError>
    ensures { IfOk result (λ copy. bstring_bytes copy ≡ piece.now) }
{
    BString::from_slice(alloc, piece)
}

/// The piece as an owned text.
pub(super) fn copy_text(alloc: Global, piece: &[u8]) -> Result<String, AllocError>
    requires { IsUtf8 piece.now }
    ensures { IfOk result (λ copy. string_bytes copy ≡ piece.now) }
{
    String::from_str(alloc, as_text(piece))
}

/// The piece as an owned text, or `None` if it is empty.
pub(super) fn copy_unless_empty(alloc: Global, piece: &[u8]) -> Result<Option<String>, AllocError>
    requires { IsUtf8 piece.now }
    ensures { IfOk result (λ copy. option_map string_bytes copy ≡ unless_empty piece.now) }
{
    if piece.is_empty() {
        return Ok(None);
    }
    Ok(Some(copy_text(alloc, piece)?))
}
