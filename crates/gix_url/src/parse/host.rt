//! The owned text of a host, which is allocated once.

ghost use Rattle.std.specs.Prelude.{◌≡◌, IfOk, IsUtf8, string_bytes};
ghost use Rattle.git_syntax.specs.Internal.HostPieces.{named_text, slice_text};

use git_syntax::host::{HostPiece, HostPort};
use git_syntax::text::into_text;
use std::alloc::{AllocError, Global};

/// The text of the host.
pub(super) fn build_host(alloc: Global, host: HostPort<'_>) -> Result<String, AllocError>
    requires { IsUtf8 (named_text host) }
    ensures { IfOk result (λ s. string_bytes s ≡ named_text host.entry) }
{
    let mut text = vec![in alloc; 0; piece_bytes(host.piece).len() + 3]?;
    let size = host.write_into(&mut text);
    text.truncate(size);
    Ok(into_text(text))
}

/// The slice in a piece.
fn piece_bytes(piece: HostPiece<'_>) -> &[u8]
    ensures { result.now ≡ slice_text piece.entry }
{
    match piece {
        HostPiece::Simple(text)
        | HostPiece::Address(text)
        | HostPiece::Kept(text)
        | HostPiece::Decoded(text)
        | HostPiece::Literal(text)
        | HostPiece::DecodedLiteral(text)
        | HostPiece::Bracketed(text) => text,
    }
}
