//! The length test of a location's text, piece by piece. The lengths of the fields decide nearly all cases.

ghost use Rattle.std.specs.Prelude.{◌≡◌, ◌≤◌, ◌*◌, ◌^◌, ◌↔◌, ◌+◌, IsTrue, Ok, drop, length, option_map};
ghost use Rattle.git_syntax.specs.Bytes.{FreeOf, begins_by, colon};
ghost use Rattle.git_location.specs.Internal.Pieces.{AreOwn, pieces_text};
ghost use Rattle.git_syntax.specs.Schemes.{scheme_text};
ghost use Rattle.git_location.specs.Settled.{HasFittingText};
ghost use Rattle.git_location.specs.Text.{canonical_text, text};
ghost use Rattle.git_syntax.specs.Schemes as spec;
ghost use Rattle.git_syntax.specs.Internal.LengthChecks.{is_rest_short, is_skipped, is_text_in_time};
ghost use Rattle.git_syntax.specs.Internal.FoundPieces.{optional_length};
ghost use Rattle.git_location.specs.Internal.SettledPieces.{IsRootedWithoutUser, IsShortHost, IsPiecesShort};
ghost use Rattle.git_location.specs.Internal.Sinks.{ChecksPast, checks_joined, checks_nothing};

use crate::url_ref::UrlRef;
use crate::value::law_borrowed_value;
use crate::writer::piece::Pieces;
use crate::writer::sink::Sink;
use git_syntax::bytes::starts_with_byte;
use git_syntax::length::{LIMIT, LengthCheck, is_skipped};
use itoa::Buffer;
use std::convert::Infallible;

/// Whether the text of the location, which is a URL, is short enough. It is laid out only if the caller doesn't
/// have its pieces and the fields aren't short.
pub(crate) fn has_fitting_text(url: &UrlRef<'_>, laid: Option<&Pieces<'_>>) -> bool
    requires no_colon { FreeOf colon (scheme_text url.now.scheme) }
    requires canonical { text url.now ≡ Ok (canonical_text url.now) }
    ensures { AreOwn laid.entry url.now → (IsTrue result ↔ HasFittingText url.now) }
{
    match laid {
        Some(pieces) => are_short(url.scheme.as_str().as_bytes(), pieces),
        None => has_short_parts(url) || has_short_front(url) || is_own_short(url),
    }
}

/// Whether the fields of the location are so short that its text is, however much of them is written as
/// escapes.
fn has_short_parts(url: &UrlRef<'_>) -> bool
    requires no_colon { FreeOf colon (scheme_text url.now.scheme) }
    requires canonical { text url.now ≡ Ok (canonical_text url.now) }
    ensures { IsTrue result → HasFittingText url.now }
{
    longest_len(url) <= LIMIT as u128
}

/// Whether the path of the location starts in time, however long it is: there is no user, and however much of the host is written
/// as escapes, the path begins within the limit.
fn has_short_front(url: &UrlRef<'_>) -> bool
    requires no_colon { FreeOf colon (scheme_text url.now.scheme) }
    requires canonical { text url.now ≡ Ok (canonical_text url.now) }
    ensures { IsTrue result → HasFittingText url.now }
{
    law_borrowed_value(url);
    if !is_rooted_without_user(url) || url.scheme.as_str().len() > LIMIT {
        return false;
    }
    match url.host {
        None => false,
        Some(host) => is_short_host(host.as_bytes()),
    }
}

/// Whether there is no user, and the path and its spelling, if there is one, begin with `/`.
fn is_rooted_without_user(url: &UrlRef<'_>) -> bool
    ensures { IsTrue result → IsRootedWithoutUser url.now }
{
    if url.user.is_some() || !starts_with_byte(url.path, b'/') {
        return false;
    }
    match url.spelling {
        None => true,
        Some(spelling) => starts_with_byte(spelling, b'/'),
    }
}

/// Whether the host begins with a byte that the length test doesn't skip, and is so short that it fits with each byte as an escape.
fn is_short_host(host: &[u8]) -> bool
    ensures { IsTrue result → IsShortHost host.now }
{
    !host.is_empty() && !begins_skipped(host) && host.len() <= 300
}

/// Whether the text begins with a byte that the length test skips.
fn begins_skipped(text: &[u8]) -> bool
    ensures { result ≡ begins_by is_skipped text.now }
{
    match text {
        [] => false,
        [first, ..] => is_skipped(*first),
    }
}

/// An upper bound for the length of the location's text as a URL: an escape has three bytes, and the marks and
/// the port have at most 14.
fn longest_len(url: &UrlRef<'_>) -> u128
    ensures { length (canonical_text url.now) ≤ result }
{
    law_borrowed_value(url);
    let kept = url.scheme.as_str().len() as u128 + longest_path_len(url.path, url.spelling);
    let escaped = part_len(url.user) + part_len(url.password) + part_len(url.host);
    kept + 3 * escaped + 14
}

/// An upper bound for the length of a written path without a mark: the spelling or the path, of which each byte
/// may be an escape.
fn longest_path_len(path: &[u8], spelling: Option<&[u8]>) -> u128
    ensures spelled { optional_length (option_map (λ t. t.now) spelling.entry) ≤ result }
    ensures escaped { 3 * length path.now ≤ result }
    ensures bound { result ≤ 3 * 2 ^ 64 }
{
    let spelled = spelling_len(spelling);
    let escaped = 3 * path.len() as u128;
    if spelled < escaped { escaped } else { spelled }
}

/// The length of the text, or 0 if it is missing.
fn part_len(part: Option<&str>) -> u128
    ensures exact { result ≡ optional_length (option_map (λ t. t.now) part.entry) }
    ensures bound { result ≤ 2 ^ 64 }
{
    match part {
        None => 0,
        Some(text) => text.len() as u128,
    }
}

/// The length of the spelling, or 0 if it is missing.
fn spelling_len(spelling: Option<&[u8]>) -> u128
    ensures exact { result ≡ optional_length (option_map (λ t. t.now) spelling.entry) }
    ensures bound { result ≤ 2 ^ 64 }
{
    match spelling {
        None => 0,
        Some(bytes) => bytes.len() as u128,
    }
}

/// Whether the text of the location, which is laid out here, is short enough. Few locations come here; the
/// function is separate so that the common code stays small.
#[inline(never)]
fn is_own_short(url: &UrlRef<'_>) -> bool
    requires no_colon { FreeOf colon (scheme_text url.now.scheme) }
    requires canonical { text url.now ≡ Ok (canonical_text url.now) }
    ensures { IsTrue result ↔ HasFittingText url.now }
{
    let mut digits = Buffer::new();
    match url.own_pieces(&mut digits) {
        Ok(pieces) => are_short(url.scheme.as_str().as_bytes(), &pieces),
        Err(_) => false,
    }
}

/// Whether a scheme and the pieces of a text with that scheme are short enough.
fn are_short(scheme: &[u8], pieces: &Pieces<'_>) -> bool
    ensures { IsTrue result ↔ IsPiecesShort scheme.now (pieces_text pieces.now) }
{
    scheme.len() <= LIMIT && is_rest_short(scheme, pieces)
}

/// Whether the text after the scheme is short enough. If it is no longer than the limit, it isn't read.
fn is_rest_short(scheme: &[u8], pieces: &Pieces<'_>) -> bool
    ensures { result ≡ is_rest_short (spec.is_web_scheme scheme.now)
        (drop (length scheme.now + 3) (pieces_text pieces.now)) }
{
    if pieces.len() <= scheme.len() as u128 + 3 + LIMIT as u128 {
        return true;
    }
    is_in_time(LengthCheck::over(scheme), pieces)
}

/// Whether a path starts in time in the text of the pieces.
fn is_in_time(walk: LengthCheck, pieces: &Pieces<'_>) -> bool
    ensures { result ≡ is_text_in_time walk (pieces_text pieces.now) }
{
    let mut walk = walk;
    let Ok(()) = pieces.put::<LengthCheck, LengthSink>(&mut walk);
    walk.is_in_time()
}

/// The sink that advances the length check.
struct LengthSink;

impl Sink<LengthCheck> for LengthSink {
    type Fault = Infallible;

    ghost takes = { ChecksPast };

    ghost ends = { ChecksPast };

    fn put(place: &mut LengthCheck, slice: &str) -> Result<(), Infallible> {
        LengthSink::write_end(place, slice.as_bytes())
    }

    fn write_end(place: &mut LengthCheck, end: &[u8]) -> Result<(), Infallible> {
        *place = place.advance(end);
        Ok(())
    }

    ghost takes_nothing = { checks_nothing };

    ghost takes_joined = { checks_joined };

    ghost ends_joined = { checks_joined };
}
