//! Texts as they are shown, with the word `redacted` in place of each possible secret.
//!
//! A definition of `git_audit` decides which pieces of a text may be secrets. By [`law_shown`] the shown text doesn't
//! depend on the bytes that are replaced.

ghost use Rattle.std.specs.Prelude.{◌≡◌, ◌++◌, IfOk, IsTrue, OnOk, option_map, string_bytes};
ghost use Rattle.explain_report.specs.Secrets.{LeavesSecretsOut, has_secret, is_hidden, part_shown, password_shown, shown_of, text_shown};
ghost use Rattle.git_audit.specs.Secrets.{piece_part};

use crate::text::lossy;
use bstr::ByteSlice;
use git_audit::secret::{Piece, secrets};
use std::alloc::{AllocError, Global};

/// The word in place of a possible secret.
pub const REDACTED: &[u8] = b"redacted";

/// Texts that differ only in bytes that may be secrets are shown as the same text.
pub fn law_shown()
    ensures { LeavesSecretsOut }
{}

/// Whether a part of the text may be a secret.
pub fn has_secret(text: &[u8]) -> bool
    ensures { result ≡ has_secret text.now }
{
    for piece in secrets(text) {
        if is_hidden(piece) {
            return true;
        }
    }
    false
}

/// Whether a piece may be a secret.
fn is_hidden(piece: Piece<'_>) -> bool
    ensures { result ≡ is_hidden (piece_part piece.entry) }
{
    match piece {
        Piece::Shown(_) => false,
        Piece::Hidden(_) => true,
    }
}

/// Returns the text as it is shown, byte for byte. Allocates the result.
pub fn shown_bytes(alloc: Global, text: &[u8]) -> Result<Vec<u8>, AllocError>
    ensures { IfOk result (λ shown. shown.items ≡ shown_of text.now) }
{
    let mut out = Vec::new(alloc);
    for piece in secrets(text) {
        push_piece(&mut out, piece)?;
    }
    Ok(out)
}

/// Appends a piece as it is shown.
fn push_piece(out: &mut Vec<u8>, piece: Piece<'_>) -> Result<(), AllocError>
    ensures { OnOk result (out.new.items ≡ out.old.items ++ part_shown (piece_part piece.entry)) }
{
    match piece {
        Piece::Shown(bytes) => out.extend_from_slice(bytes),
        Piece::Hidden(_) => out.extend_from_slice(b"redacted"),
    }
}

/// Returns the text as it is shown, with U+FFFD for bytes that aren't UTF-8. Allocates the result.
pub fn shown_text(alloc: Global, text: &[u8]) -> Result<String, AllocError>
    ensures { IfOk result (λ shown. string_bytes shown ≡ text_shown text.now) }
{
    let bytes = shown_bytes(alloc, text)?;
    let shown = lossy(alloc, bytes.as_slice());
    drop(bytes);
    shown
}

/// Returns a part as it is shown, if it is present.
pub fn shown_part(alloc: Global, part: Option<&[u8]>) -> Result<Option<String>, AllocError>
    ensures { IfOk result (λ shown. option_map string_bytes shown ≡ option_map (λ it. text_shown it.now) part.entry) }
{
    match part {
        None => Ok(None),
        Some(part) => Ok(Some(shown_text(alloc, part)?)),
    }
}

/// Returns a part of a text, or `redacted` if the part doesn't occur in a shown piece of the text.
pub fn part_of_shown<'a>(text: &[u8], part: &'a [u8]) -> &'a [u8] {
    if is_in_shown(text, part) {
        part
    } else {
        REDACTED
    }
}

/// Whether the bytes occur in the text before, between or after its hidden pieces.
fn is_in_shown(text: &[u8], bytes: &[u8]) -> bool {
    let (mut begin, mut at) = (0usize, 0usize);
    for piece in secrets(text) {
        let (len, is_hidden) = size_of(piece);
        if is_hidden {
            if between(text, begin, at).contains_str(bytes) {
                return true;
            }
            begin = at.saturating_add(len);
        }
        at = at.saturating_add(len);
    }
    between(text, begin, text.len()).contains_str(bytes)
}

/// The length of a piece in bytes, and whether it is hidden.
pub(crate) fn size_of(piece: Piece<'_>) -> (usize, bool) {
    match piece {
        Piece::Shown(bytes) => (bytes.len(), false),
        Piece::Hidden(bytes) => (bytes.len(), true),
    }
}

/// The bytes between two offsets of a text, or none if there are no such offsets.
pub(crate) fn between(text: &[u8], from: usize, to: usize) -> &[u8] {
    match text.get(from..to) {
        Some(bytes) => bytes,
        None => b"",
    }
}

/// The word for a password, which is empty for an empty password.
pub(crate) fn word_for(password: &[u8]) -> &'static [u8]
    ensures { result.now ≡ password_shown password.now }
{
    match password {
        [] => b"",
        _ => REDACTED,
    }
}

/// Whether both texts are equal.
pub(crate) fn is_same(text: &[u8], other: &[u8]) -> bool
    ensures { IsTrue result → text.now ≡ other.now }
{
    text == other
}
