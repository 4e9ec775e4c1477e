//! URLs with missing parts, as Git reads the subsection of an entry that isn't a URL.

ghost use Rattle.std.specs.Prelude.{◌≡◌, ◌↔◌, IfOk, IfSome, IsTrue, option_map};
ghost use Rattle.git_syntax.specs.Bytes.{FreeOf, newline};
ghost use Rattle.git_reads.specs.Views.{credential_reading};
ghost use Rattle.git_rules.specs.PartialUrls.{CutsPartly, CutsProtocol, FitsPartly, HasPart, HasParts, HasText, LackNewlines};

use git_reads::credential::{Buffers, Request, TextPieces, decode_pieces};
use git_syntax::bytes::{cut_at_mark, cut_before_path, is_free_of};
use std::alloc::{AllocError, Global};

/// Whether a request, with this user, has the parts that the text names.
pub(super) fn fits_partly(
    alloc: Global,
    text: &[u8],
    request: &Request<'_>,
    user: Option<&[u8]>,
) -> Result<bool, AllocError>
    ensures { IfOk result (λ fits. IsTrue fits ↔ FitsPartly text.now (credential_reading request.now)
        (option_map (λ t. t.now) user.entry)) }
{
    if !is_free_of(text, 0) {
        return Ok(false);
    }
    let mut buffers = Buffers::new(alloc);
    let wanted = decode_pieces(cut_partly(text), &mut buffers)?;
    Ok(is_met(&wanted, request, user))
}

/// Whether the wanted parts are free of line feeds, and a request, with this user, has them.
fn is_met(wanted: &Request<'_>, own: &Request<'_>, user: Option<&[u8]>) -> bool
    ensures { IsTrue result ↔ (LackNewlines (credential_reading wanted.now) × HasParts
        (credential_reading wanted.now) (credential_reading own.now) (option_map (λ t. t.now) user.entry)) }
{
    lack_newlines(wanted) && has_parts(wanted, own, user)
}

/// The pieces of a text whose protocol may be missing.
fn cut_partly(text: &[u8]) -> TextPieces<'_>
    ensures { CutsPartly text.now result.protocol.now result.authority.now result.suffix.now }
{
    let (protocol, rest) = cut_protocol(text);
    let (authority, suffix) = cut_before_path(rest, true);
    TextPieces {
        protocol,
        authority,
        suffix,
    }
}

/// The text before the first `://` and the text after it; if there is no `://`, an empty slice and the whole text.
fn cut_protocol(text: &[u8]) -> (&[u8], &[u8])
    ensures { CutsProtocol text.now result.0.now result.1.now }
{
    match cut_at_mark(text) {
        Some(pieces) => pieces,
        None => (b"", text),
    }
}

/// Whether no part contains a line feed.
fn lack_newlines(parts: &Request<'_>) -> bool
    ensures { IsTrue result ↔ LackNewlines (credential_reading parts.now) }
{
    is_free_of(parts.protocol, b'\n')
        && is_line_if_some(parts.user)
        && is_line_if_some(parts.password)
        && is_free_of(parts.host, b'\n')
        && is_line_if_some(parts.path)
}

/// Whether an optional part is missing or has no line feed.
fn is_line_if_some(part: Option<&[u8]>) -> bool
    ensures { IsTrue result ↔ IfSome (option_map (λ t. t.now) part.entry) (FreeOf newline) }
{
    match part {
        None => true,
        Some(part) => is_free_of(part, b'\n'),
    }
}

/// Whether a request, with this user, has the wanted parts.
fn has_parts(wanted: &Request<'_>, own: &Request<'_>, user: Option<&[u8]>) -> bool
    ensures { IsTrue result ↔ HasParts (credential_reading wanted.now) (credential_reading own.now)
        (option_map (λ t. t.now) user.entry) }
{
    has_text(wanted.protocol, own.protocol)
        && has_text(wanted.host, own.host)
        && has_part(wanted.path, own.path)
        && has_part(wanted.user, user)
}

/// Whether the wanted text is empty or equal to the other.
fn has_text(wanted: &[u8], own: &[u8]) -> bool
    ensures { IsTrue result ↔ HasText wanted.now own.now }
{
    wanted.is_empty() || wanted == own
}

/// Whether the wanted part is missing or equal to the other.
fn has_part(wanted: Option<&[u8]>, own: Option<&[u8]>) -> bool
    ensures { IsTrue result
        ↔ HasPart (option_map (λ t. t.now) wanted.entry) (option_map (λ t. t.now) own.entry) }
{
    match (wanted, own) {
        (None, _) => true,
        (Some(_), None) => false,
        (Some(wanted), Some(own)) => wanted == own,
    }
}
