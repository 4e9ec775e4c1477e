//! The reader of simple texts, which most remotes are.

ghost use Rattle.std.specs.Prelude.{◌≡◌, ◌≤◌, ◌∷◌, IfSome, IsTrue, IsUtf8, List, decimal, length, option_map, true, ℕ};
ghost use Rattle.git_syntax.specs.Bytes.{is_helper_name, slash};
ghost use Rattle.git_syntax.specs.Flaws.{UrlForm};
ghost use Rattle.git_syntax.specs.Grammar.{Spells, helper_scheme};
ghost use Rattle.git_syntax.specs.Internal.Forms.{ColonCut};
ghost use Rattle.git_syntax.specs.Internal.HostPieces.{IsSimpleHost};
ghost use Rattle.git_syntax.specs.Internal.Masks.{IsMarked, is_common};
ghost use Rattle.git_syntax.specs.Internal.SimplePieces.{CutsSimpleUser, IsSimplePlace, simple_location};
ghost use Rattle.git_syntax.specs.Location.{Location, path_alone};
ghost use Rattle.git_syntax.specs.Schemes.{scheme_text};
ghost use Rattle.git_syntax.specs.SimpleTexts.{IsRemoteScheme, IsSimplePort, IsSimpleText};
ghost use Rattle.git_syntax.specs.Views.{borrowed_scheme};

use crate::bytes::{after, is_helper_name, is_scheme_text, starts_with_byte};
use crate::home::begins_at_home;
use crate::host::HostSyntax;
use crate::host::port::read_port;
use crate::masks::marked::{Marked, mark_common};
use crate::scheme::{KnownScheme, SchemeRef, helper_scheme, scheme_of};
use crate::text::as_text;

/// The fields of the location that a simple text spells, as slices of the text. There is no password and no spelling.
#[derive(Clone, Copy)]
pub struct SimplePieces<'a> {
    /// The scheme.
    pub scheme: SchemeRef<'a>,
    /// The user.
    pub user: Option<&'a str>,
    /// The host.
    pub host: Option<&'a str>,
    /// Whether the text is not a URL.
    pub flag: bool,
    /// The port.
    pub port: Option<u16>,
    /// The path.
    pub path: &'a [u8],
}

/// Whether the text is known to be a simple one, by [`simple_pieces`]. If the result is `false`, nothing is known.
pub fn is_simple_text(bytes: &[u8]) -> bool
    ensures { IsTrue result → (v : Location) × IsSimpleText bytes.now v }
{
    matches!(simple_pieces::<true>(bytes), Some(_))
}

/// Returns the fields of the location that the text spells, if the text is known to be a simple one. Such a
/// location is settled, and the text is its own. If the result is `None`, nothing is known.
///
/// The code accepts only texts of 16 to 64 bytes, each of which is a letter, a digit, or one of `+`, `,`, `-`,
/// `.`, `/`, `:`, `@`, `_` and `~`. For each value of `OWNED`, which is `false` for the reader into a buffer, the
/// compiler makes a function of its own, which it inlines if only one caller has that value.
#[inline(always)]
pub fn simple_pieces<const OWNED: bool>(bytes: &[u8]) -> Option<SimplePieces<'_>>
    ensures { IfSome result (λ pieces. IsSimpleText bytes.now (simple_location pieces)) }
{
    cut_simple(mark_common(bytes)?)
}

/// The fields of the location that such a text spells.
#[inline(always)]
fn cut_simple(text: Marked<'_>) -> Option<SimplePieces<'_>>
    requires marked { IsMarked text }
    requires long { 16 ≤ length text.text.now }
    requires common { is_common text.text.now ≡ true }
    ensures { IfSome result (λ pieces. IsSimpleText text.entry.text.now (simple_location pieces)) }
{
    let Some((front, rest)) = text.cut_at_colon() else {
        return Some(path_pieces(SchemeRef::File, true, text.text));
    };
    match rest.after_slashes() {
        Some(suffix) => url_pieces(text.text, front.text, suffix),
        None => other_pieces(text.text, front, rest),
    }
}

/// The fields of a location of a scheme, the flag and a path only.
#[inline(always)]
fn path_pieces<'a>(scheme: SchemeRef<'a>, flag: bool, path: &'a [u8]) -> SimplePieces<'a>
    ensures { simple_location result ≡ path_alone (borrowed_scheme scheme.entry) flag path.now }
{
    SimplePieces {
        scheme,
        user: None,
        host: None,
        flag,
        port: None,
        path,
    }
}

/// The fields of a URL. The text is only for the contract.
#[inline(always)]
fn url_pieces<'a>(input: &[u8], scheme: &'a [u8], rest: Marked<'a>) -> Option<SimplePieces<'a>>
    requires form { UrlForm input.now scheme.now rest.text.now }
    requires marked { IsMarked rest }
    requires short { length input.now ≤ 64 }
    requires common { is_common input.now ≡ true }
    ensures { IfSome result (λ pieces. IsSimpleText input.now (simple_location pieces)) }
{
    let (authority, path) = rest.cut_at_slash();
    if path.text.is_empty() {
        return None;
    }
    if let Some(scheme) = remote_scheme(scheme) {
        if begins_at_home(path.text) {
            return None;
        }
        let (user, piece) = cut_simple_user(authority)?;
        let (host, port) = simple_place(piece)?;
        return Some(SimplePieces {
            scheme,
            user,
            host: Some(host),
            flag: false,
            port,
            path: path.text,
        });
    }
    if !authority.text.is_empty() {
        return None;
    }
    match scheme {
        b"file" => Some(path_pieces(SchemeRef::File, false, path.text)),
        _ => None,
    }
}

/// The scheme, if it is one of HTTP, Secure Shell or Git's own protocol, or the URL is for a remote helper.
#[inline(always)]
fn remote_scheme(scheme: &[u8]) -> Option<SchemeRef<'_>>
    requires { IsUtf8 scheme.now }
    ensures remote { IfSome result (λ known. IsRemoteScheme (borrowed_scheme known)) }
    ensures text { IfSome result (λ known. scheme.now ≡ scheme_text (borrowed_scheme known)) }
{
    match scheme {
        b"https" => Some(SchemeRef::Https),
        b"ssh" => Some(SchemeRef::Ssh),
        b"http" => Some(SchemeRef::Http),
        b"git" => Some(SchemeRef::Git),
        b"file" => None,
        _ => helper_url_scheme(scheme),
    }
}

/// The scheme of a URL for a remote helper, if it is the text.
fn helper_url_scheme(name: &[u8]) -> Option<SchemeRef<'_>>
    requires { IsUtf8 name.now }
    ensures remote { IfSome result (λ known. IsRemoteScheme (borrowed_scheme known)) }
    ensures text { IfSome result (λ known. name.now ≡ scheme_text (borrowed_scheme known)) }
{
    match scheme_of(name) {
        KnownScheme::Other if is_scheme_text(name) => Some(SchemeRef::HelperUrl(as_text(name))),
        _ => None,
    }
}

/// Cuts a simple user and `@` off the front, if there is an `@`.
#[inline(always)]
fn cut_simple_user(text: Marked<'_>) -> Option<(Option<&str>, Marked<'_>)>
    requires { IsMarked text }
    ensures cut { IfSome result (λ p. CutsSimpleUser text.entry.text.now (option_map (λ t. t.now) p.0) p.1.text.now) }
    ensures masks { IfSome result (λ p. IsMarked p.1) }
{
    let Some((user, rest)) = text.cut_at_last_at() else {
        return Some((None, text));
    };
    let user = simple_name(user)?;
    Some((Some(user), rest))
}

/// The text, if it is a simple host.
#[inline(always)]
fn simple_name(text: Marked<'_>) -> Option<&str>
    requires { IsMarked text }
    ensures same { IfSome result (λ name. name.now ≡ text.entry.text.now) }
    ensures simple { IfSome result (λ name. IsSimpleHost name.now) }
{
    if text.is_simple_host() {
        Some(as_text(text.text))
    } else {
        None
    }
}

/// The host and the port of a text that is a simple host, perhaps before a port.
#[inline(always)]
fn simple_place(text: Marked<'_>) -> Option<(&str, Option<u16>)>
    requires { IsMarked text }
    ensures { IfSome result (λ p. IsSimplePlace text.entry.text.now p.0.now p.1) }
{
    let Some((host, digits)) = text.cut_at_colon() else {
        return Some((simple_name(text)?, None));
    };
    let host = simple_name(host)?;
    let port = simple_port(digits.text)?;
    Some((host, Some(port)))
}

/// The port that the digits spell, if it is written with these digits and isn't 0.
fn simple_port(digits: &[u8]) -> Option<u16>
    ensures allowed { IfSome result IsSimplePort }
    ensures digits { IfSome result (λ port. digits.now ≡ decimal port) }
{
    if starts_with_byte(digits, b'0') {
        return None;
    }
    read_port(HostSyntax::Http, digits)
}

/// The fields of a remote helper, a local path or the scp form, by the texts before and after the first colon.
#[inline(always)]
fn other_pieces<'a>(
    input: &'a [u8],
    front: Marked<'a>,
    rest: Marked<'a>,
) -> Option<SimplePieces<'a>>
    requires cut { ColonCut input.now front.text.now rest.text.now }
    requires no_mark { (suffix : List ℕ) → ¬ (rest.text.now ≡ slash ∷ (slash ∷ suffix)) }
    requires front { IsMarked front }
    requires rest { IsMarked rest }
    requires common { is_common input.now ≡ true }
    ensures { IfSome result (λ pieces. IsSimpleText input.now (simple_location pieces)) }
{
    if let Some(address) = after(rest.text, b':') {
        return helper_pieces(front.text, address);
    }
    if !rest.lacks_colons() {
        return None;
    }
    if !front.lacks_slashes() {
        return Some(path_pieces(SchemeRef::File, true, input));
    }
    if rest.text.is_empty() || begins_at_home(rest.text) {
        return None;
    }
    let (user, piece) = cut_simple_user(front)?;
    let host = simple_name(piece)?;
    Some(SimplePieces {
        scheme: SchemeRef::Ssh,
        user,
        host: Some(host),
        flag: true,
        port: None,
        path: rest.text,
    })
}

/// The fields of a remote helper with this name and this address.
#[inline(always)]
fn helper_pieces<'a>(name: &'a [u8], address: &'a [u8]) -> Option<SimplePieces<'a>>
    requires { IsUtf8 name.now }
    ensures { IfSome result (λ pieces. (is_helper_name name.now ≡ true)
        × (simple_location pieces ≡ path_alone (helper_scheme name.now) true address.now)) }
{
    if is_helper_name(name) {
        Some(path_pieces(helper_scheme(as_text(name)), true, address))
    } else {
        None
    }
}

/// A simple text spells the location that its definition names.
pub fn law_simple_texts()
    ensures spelled { (b : List ℕ) (v : Location) → IsSimpleText b v → Spells b v }
{}
