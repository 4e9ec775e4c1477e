//! The places of malformed escapes, and of bytes that aren't UTF-8 or don't decode to it.

ghost use Rattle.std.specs.Prelude.{◌≡◌, IsUtf8, drop, false};
ghost use Rattle.percent_encoding.specs.Percent.{percent_decode};
ghost use Rattle.git_syntax.specs.Escapes as escape;
ghost use Rattle.git_refusals.specs.Characters as spec;
ghost use Rattle.git_refusals.specs.Characters.{IsBrokenAt, spelled_len, undecodable_at};
ghost use Rattle.git_refusals.specs.Internal.Readable.{Checks};
ghost use Rattle.git_refusals.specs.Reasons.{NotText, Undecodable};

use crate::place::Place;
use crate::reason::Reason;
use bstr::{ByteSlice, decode_utf8};
use git_syntax::bytes::cut;
use git_syntax::escape::{begins_with_digits, decodes_to_utf8, front, split_decoded};

/// The number of bytes before the first `%` that two hexadecimal digits don't follow.
pub(crate) fn broken_escape(bytes: &[u8]) -> usize
    requires { escape.is_sound bytes.now ≡ false }
    ensures { IsBrokenAt bytes.now result }
{
    let mut rest = bytes;
    while let Some((_, suffix)) = cut(rest, b'%') {
        if !begins_with_digits(suffix) {
            return bytes.len() - suffix.len() - 1;
        }
        rest = suffix;
    }
    0
}

/// The first bytes that are not UTF-8.
pub(crate) fn not_text(bytes: &[u8]) -> Option<Place>
    ensures { Checks bytes.now (NotText bytes.now) (IsUtf8 bytes.now) result }
{
    match bytes.to_str() {
        Ok(_) => None,
        Err(error) => {
            let at = error.valid_up_to();
            let len = match error.error_len() {
                Some(len) => len,
                None => bytes.len() - at,
            };
            Some(Place {
                reason: Reason::NotUtf8,
                at,
                len,
            })
        }
    }
}

/// The first bytes or escapes of a piece that don't decode to UTF-8.
pub(crate) fn undecodable(piece: &[u8]) -> Option<Place>
    ensures { Checks piece.now (Undecodable piece.now) (IsUtf8 (percent_decode piece.now)) result }
{
    if decodes_to_utf8(piece) {
        return None;
    }
    let left = undecodable_end(piece);
    let (window, count) = front(left);
    let (_, size) = decode_utf8(&window[..count]);
    Some(Place {
        reason: Reason::EscapesNotUtf8,
        at: piece.len() - left.len(),
        len: left.len() - suffix(left, size).len(),
    })
}

/// The end of a piece, from the place at which its decoding stops being UTF-8.
fn undecodable_end(piece: &[u8]) -> &[u8]
    requires { ¬ IsUtf8 (percent_decode piece.now) }
    ensures { result.now ≡ drop (undecodable_at piece.now) piece.now }
{
    let mut rest = piece;
    while let Some((first, _)) = split_decoded(rest) {
        if first < 128 {
            rest = suffix(rest, 1);
        } else {
            let (window, count) = front(rest);
            let (found, size) = decode_utf8(&window[..count]);
            if found.is_none() {
                return rest;
            }
            rest = suffix(rest, size);
        }
    }
    rest
}

/// The rest of a text after the bytes that spell the next `count` bytes of its decoding.
fn suffix(text: &[u8], count: usize) -> &[u8]
    ensures { result.now ≡ drop (spelled_len count text.now) text.now }
{
    let mut rest = text;
    for _turn in 0..count {
        rest = &rest[unit_len(rest)..];
    }
    rest
}

/// The number of bytes of a text that spell the first byte of its decoding.
fn unit_len(text: &[u8]) -> usize
    ensures { result ≡ spec.unit_len text.now }
{
    let Some((first, suffix)) = text.split_first() else {
        return 0;
    };
    if *first != b'%' {
        return 1;
    }
    if begins_with_digits(suffix) {
        return 3;
    }
    1
}
