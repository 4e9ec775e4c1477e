//! Names and values of a query: borrowed from the path, or owned if they have a raw `+`, which means a space.
//!
//! Allocates once for each name or value with a raw `+`.

ghost use Rattle.std.specs.Prelude.{◌≡◌, ◌==◌, if◌then◌else◌, IfOk};
ghost use Rattle.git_syntax.specs.Bytes.{FreeOf, plus_sign, space};
ghost use Rattle.gix_url.specs.Internal.ComponentPieces.{BorrowsPair, BorrowsTerm};
ghost use Rattle.git_laws.specs.Components.{SplitsField, with_spaces};
ghost use Rattle.gix_url.specs.Internal.Meanings.{denoted_by};

use super::QueryText;
use crate::components::cuts::EscapedText;
use bstr::{BStr, BString};
use git_syntax::bytes::{append_within, is_free_of};
use std::alloc::{AllocError, Global};

/// The name and the value of a field, borrowed from the path.
#[inline(always)]
pub(super) fn borrowed_pair<'a>(field: EscapedText<'a>) -> (QueryText<'a>, QueryText<'a>)
    requires { FreeOf plus_sign field.text.now }
    ensures { BorrowsPair field.entry.escaped field.entry.text.now result }
{
    let (name, value) = split_field(field);
    (
        QueryText::Borrowed(BStr::new(name.denoted)),
        QueryText::Borrowed(BStr::new(value.denoted)),
    )
}

/// The name and the value of a field, each borrowed if it has no raw `+`.
pub(super) fn borrow_pair<'a>(
    alloc: Global,
    field: EscapedText<'a>,
) -> Result<(QueryText<'a>, QueryText<'a>), AllocError>
    ensures { IfOk result (λ pair. BorrowsPair field.entry.escaped field.entry.text.now pair) }
{
    let (name, value) = split_field(field);
    Ok((borrow_term(alloc, name)?, borrow_term(alloc, value)?))
}

/// The pieces of a field before and after its first `=`; without one, the whole field and the empty text.
#[inline(always)]
fn split_field<'a>(field: EscapedText<'a>) -> (EscapedText<'a>, EscapedText<'a>)
    ensures split { SplitsField field.entry.text.now result.0.text.now result.1.text.now }
    ensures name { result.0.escaped ≡ field.entry.escaped }
    ensures value { result.1.escaped ≡ field.entry.escaped }
{
    match field.cut_near(b'=') {
        Some((name, value)) => (name, value),
        None => (field, field.nothing()),
    }
}

/// The name or the value that the piece denotes.
fn borrow_term<'a>(alloc: Global, piece: EscapedText<'a>) -> Result<QueryText<'a>, AllocError>
    ensures { IfOk result (λ text. BorrowsTerm piece.entry.escaped piece.entry.text.now text) }
{
    if is_free_of(piece.text, b'+') {
        return Ok(QueryText::Borrowed(BStr::new(piece.denoted)));
    }
    Ok(QueryText::Owned(BString::new(with_spaces(alloc, piece)?)))
}

/// The decoding of the piece, with each raw `+` as a space.
fn with_spaces(alloc: Global, piece: EscapedText<'_>) -> Result<Vec<u8>, AllocError>
    ensures { IfOk result
        (λ bytes. bytes.items ≡ denoted_by piece.entry.escaped (with_spaces piece.entry.text.now)) }
{
    if !piece.escaped {
        return spaced_raw(alloc, piece.text);
    }
    let mut bytes = Vec::with_capacity(alloc, piece.denoted.len())?;
    let mut rest = piece;
    while let Some((front, suffix)) = rest.cut_near(b'+') {
        append_within(&mut bytes, front.denoted);
        append_within(&mut bytes, b" ");
        rest = suffix;
    }
    append_within(&mut bytes, rest.denoted);
    Ok(bytes)
}

/// The text with each `+` as a space.
fn spaced_raw(alloc: Global, text: &[u8]) -> Result<Vec<u8>, AllocError>
    ensures { IfOk result (λ bytes. bytes.items ≡ with_spaces text.now) }
{
    let mut bytes = Vec::from_slice(alloc, text)?;
    for byte in bytes.iter_mut() {
        *byte = spaced_byte(*byte);
    }
    Ok(bytes)
}

/// A space for a `+`, and any other byte unchanged.
fn spaced_byte(byte: u8) -> u8
    ensures { result ≡ (if byte == plus_sign then space else byte) }
{
    if byte == b'+' { b' ' } else { byte }
}
