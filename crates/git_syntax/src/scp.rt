//! The scp form, from the pieces that the classifier cut. Its host has no escapes: a `%` in it is a literal
//! character.

ghost use Rattle.std.specs.Prelude.{◌≡◌, ◌↔◌, ◌∷◌, IfErr, IfOk, IsTrue, IsUtf8, false, length, ◌+◌, ◌<◌, ◌≤◌, true};
ghost use Rattle.git_syntax.specs.Addresses.{IsZone};
ghost use Rattle.git_syntax.specs.Bytes.{FreeOf, LacksWhiteSpace, at_sign, begins_with, left_bracket};
ghost use Rattle.git_syntax.specs.Escapes as spec;
ghost use Rattle.git_syntax.specs.Flaws.{NamesFlaw};
ghost use Rattle.git_syntax.specs.Internal.FoundPieces.{IsReady, denoted, buffer_length_for, scp_slice};
ghost use Rattle.git_syntax.specs.Grammar.{AddressedForm, SpellsScpAddressed, SpellsScpBefore};
ghost use Rattle.git_syntax.specs.Hosts.{IsLiteral};
ghost use Rattle.git_syntax.specs.Internal.Forms.{PlainScp};
ghost use Rattle.git_syntax.specs.Internal.ScpPieces.{ColonsInside, CutsUser, ReadsScpHost, ReadsScpPiece};

use crate::bytes::{after, cut, is_free_of, last_cut};
use crate::escape::lacks_white_space;
use crate::found::{Found, ScpHost};
use crate::host::bytes::are_zone_bytes;
use crate::host::is_simple_host;
use crate::ipv6::is_address;
use crate::refusal::{Refusal, UrlFault, UrlKind};
use crate::text::{self, as_text, is_plain, is_text};

/// Finds the slices of the scp form: a user if there is one, a host, a colon and a path.
#[inline(always)]
pub(crate) fn find_scp<'a>(
    input: &'a [u8],
    front: &'a [u8],
    path: &'a [u8],
) -> Result<Found<'a>, Refusal>
    requires { PlainScp input.now front.now path.now }
    ensures found { IfOk result (λ found. SpellsScpBefore input.now (denoted found)) }
    ensures ready { IfOk result (λ found. IsReady found) }
    ensures buffer { IfOk result (λ found. buffer_length_for found ≤ length input.now) }
    ensures flaw { IfErr result (λ refusal. NamesFlaw input.now refusal) }
{
    let plain = is_plain(input);
    if !is_utf8(plain, input) {
        return Err(Refusal::NotUtf8 { kind: UrlKind::Scp });
    }
    if path.is_empty() {
        return Err(Refusal::MissingPath { kind: UrlKind::Scp });
    }
    let (user, host) = cut_front_user(front);
    match find_host(plain, host) {
        Ok(host) => Ok(Found::Scp { user, host, path }),
        Err(fault) => Err(Refusal::BadUrl {
            kind: UrlKind::Scp,
            fault,
        }),
    }
}

/// Whether the text is UTF-8. A plain text always is.
fn is_utf8(plain: bool, text: &[u8]) -> bool
    requires { plain ≡ true → spec.is_plain text.now ≡ true }
    ensures { IsTrue result ↔ IsUtf8 text.now }
{
    plain || text::is_utf8(text)
}

/// Finds the slices of the scp form with an IPv6 text in brackets after the user.
#[inline(always)]
pub(crate) fn find_addressed<'a>(
    input: &'a [u8],
    user: &'a [u8],
    address: &'a [u8],
    path: &'a [u8],
) -> Result<Found<'a>, Refusal>
    requires { AddressedForm input.now user.now address.now path.now }
    ensures found { IfOk result (λ found. SpellsScpAddressed input.now (denoted found)) }
    ensures ready { IfOk result (λ found. IsReady found) }
    ensures buffer { IfOk result (λ found. buffer_length_for found ≤ length input.now) }
    ensures flaw { IfErr result (λ refusal. NamesFlaw input.now refusal) }
{
    if !is_text(input) {
        return Err(Refusal::NotUtf8 { kind: UrlKind::Scp });
    }
    if path.is_empty() {
        return Err(Refusal::MissingPath { kind: UrlKind::Scp });
    }
    Ok(Found::Scp {
        user: Some(user),
        host: ScpHost::Literal(address),
        path,
    })
}

/// The user and the host of a front: the user ends at the last `@`.
fn cut_front_user(front: &[u8]) -> (Option<&[u8]>, &[u8])
    ensures { CutsUser front.now result.0 result.1.now }
{
    match last_cut(front, b'@') {
        Some((user, host)) => (Some(user), host),
        None => (None, front),
    }
}

/// Finds the host of the scp form. A host that is known to be plain isn't searched for white space.
#[inline(always)]
fn find_host(plain: bool, host: &[u8]) -> Result<ScpHost<'_>, UrlFault>
    requires plain { plain ≡ true → spec.is_plain host.now ≡ true }
    requires text { IsUtf8 host.now }
    requires no_at { FreeOf at_sign host.now }
    requires colons { ColonsInside host.now }
    ensures read { ReadsScpHost host.now result }
    ensures within { IfOk result (λ found. length (scp_slice found) ≤ length host.now) }
{
    if is_simple_host(host) {
        return Ok(ScpHost::Kept(host));
    }
    if !has_no_white_space(plain, host) {
        return Err(UrlFault::BadCharacter);
    }
    if !is_free_of(host, b'\\') {
        return Err(UrlFault::BadCharacter);
    }
    if host.is_empty() {
        return Err(UrlFault::HostRequired);
    }
    match after(host, b'[') {
        Some(suffix) => find_in_brackets(suffix),
        None => find_name(host),
    }
}

/// Whether the text has no white space. A plain text never has.
fn has_no_white_space(plain: bool, text: &[u8]) -> bool
    requires plain { plain ≡ true → spec.is_plain text.now ≡ true }
    requires text { IsUtf8 text.now }
    ensures { IsTrue result ↔ LacksWhiteSpace text.now }
{
    plain || lacks_white_space(as_text(text))
}

/// Finds a host that doesn't begin with a bracket. If it has a colon, a bracket follows that, so it has no
/// port.
#[inline(always)]
fn find_name(host: &[u8]) -> Result<ScpHost<'_>, UrlFault>
    requires some { 0 < length host.now }
    requires open_front { begins_with left_bracket host.now ≡ false }
    requires text { IsUtf8 host.now }
    requires colons { ColonsInside host.now }
    ensures read { ReadsScpPiece host.now result }
    ensures within { IfOk result (λ found. length (scp_slice found) ≤ length host.now) }
{
    let Some((front, suffix)) = cut(host, b':') else {
        return Ok(ScpHost::Name(host));
    };
    if front.is_empty() || !is_free_of(suffix, b':') {
        return Ok(ScpHost::Name(host));
    }
    Err(UrlFault::BadPort)
}

/// Finds a host that begins with a bracket, from the text after it. The last byte is the bracket that closes
/// it.
#[inline(always)]
fn find_in_brackets(suffix: &[u8]) -> Result<ScpHost<'_>, UrlFault>
    requires text { IsUtf8 (left_bracket ∷ suffix.now) }
    requires colons { ColonsInside (left_bracket ∷ suffix.now) }
    ensures read { ReadsScpPiece (left_bracket ∷ suffix.now) result }
    ensures within { IfOk result (λ found. length (scp_slice found) ≤ length suffix.now) }
{
    let Some((inner, rest)) = cut(suffix, b']') else {
        return Err(UrlFault::BadCharacter);
    };
    if !rest.is_empty() {
        return Err(UrlFault::BadCharacter);
    }
    if is_literal(inner) {
        Ok(ScpHost::Literal(inner))
    } else {
        Ok(ScpHost::Kept(inner))
    }
}

/// Whether the text is an IPv6 literal with its `%` unescaped: an address, or one that a `%` and a zone follow.
fn is_literal(text: &[u8]) -> bool
    ensures { IsTrue result ↔ IsLiteral (spec.escaped_percents text.now) }
{
    match cut(text, b'%') {
        Some((address, zone)) => is_address(address) && is_zone(zone),
        None => is_address(text),
    }
}

/// Whether the text is the zone of an address with its `%` unescaped.
fn is_zone(text: &[u8]) -> bool
    ensures { IsTrue result ↔ IsZone (spec.escaped_percents text.now) }
{
    !text.is_empty() && are_zone_bytes(text)
}
