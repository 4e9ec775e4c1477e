//! The reader of URLs: scheme, user information, host, port and path, as slices of the text.

ghost use Rattle.std.specs.Prelude.{◌≡◌, ◌↔◌, ◌⊎◌, IfErr, IfOk, IsTrue, IsUtf8};
ghost use Rattle.percent_encoding.specs.Percent.{percent_decode};
ghost use Rattle.git_syntax.specs.Authority as authority;
ghost use Rattle.git_syntax.specs.Authority.{Fits};
ghost use Rattle.git_syntax.specs.Escapes as escape;
ghost use Rattle.git_syntax.specs.Flaws.{AuthorityFlaw, OtherUrlForm, UrlFlaw};
ghost use Rattle.git_syntax.specs.Grammar.{HasUrlSyntax, UrlSyntax};
ghost use Rattle.git_syntax.specs.Internal.HostPieces.{host_syntax};
ghost use Rattle.git_syntax.specs.Internal.ByteClasses.{HasByteClass};
ghost use Rattle.git_syntax.specs.Internal.SchemeRules.{AreRulesOf};
ghost use Rattle.git_syntax.specs.Bytes as bytes;
ghost use Rattle.git_syntax.specs.Bytes.{FreeOf, LacksWhiteSpace, at_sign, backslash, colon};
ghost use Rattle.git_syntax.specs.Internal.UrlPieces.{HoldsAuthority, IsNoAuthority, ReadsCredentials, decoded_option, syntax_of};

use crate::byte_class::ByteClass;
use crate::bytes::{cut, cut_before_path, is_free_of, is_scheme_text, last_cut};
use crate::escape::{decodes_to_utf8, decoding_is_utf8, has_percent, is_sound, lacks_white_space};
use crate::host::{HostPort, HostSyntax, read_host, simple_host};
use crate::refusal::UrlFault;
use crate::rules::Rules;

/// The fields of a URL, as slices of its text. Nothing is decoded or copied.
#[derive(Clone, Copy)]
pub struct ParsedUrl<'a> {
    /// The scheme.
    pub scheme: &'a [u8],
    /// The user, if there is one, with its escapes.
    pub user: Option<&'a [u8]>,
    /// The password, if there is one, with its escapes. It isn't empty.
    pub password: Option<&'a [u8]>,
    /// The host and the port.
    pub host: Option<HostPort<'a>>,
    /// The path with its escapes, and in HTTP with the query and the fragment.
    pub path: &'a [u8],
    /// Whether the path has a `%`.
    pub escaped: bool,
}

/// The fields of an authority, as slices of it.
#[derive(Clone, Copy)]
struct AuthoritySlices<'a> {
    /// The user and the password.
    credentials: CredentialSlices<'a>,
    /// The host and the port.
    host: Option<HostPort<'a>>,
}

/// The fields of user information, as slices of it.
#[derive(Clone, Copy)]
struct CredentialSlices<'a> {
    /// The user, if there is one, with its escapes.
    user: Option<&'a [u8]>,
    /// The password, if there is one, with its escapes. It isn't empty.
    password: Option<&'a [u8]>,
}

/// Reads the URL with this scheme, the rules of the scheme, and this text after `://`. It is not a file URL and
/// not a remote helper. Known facts about the text aren't tested again.
#[inline(always)]
pub(crate) fn read_url_syntax<'a>(
    text: &'a str,
    byte_class: ByteClass,
    rules: Rules,
    scheme: &'a [u8],
    rest: &'a [u8],
) -> Result<ParsedUrl<'a>, UrlFault>
    requires byte_class { HasByteClass byte_class text.now }
    requires form { OtherUrlForm text.now scheme.now rest.now }
    requires rules { AreRulesOf scheme.now rules }
    requires fits { Fits scheme.now rest.now }
    ensures read { IfOk result (λ url. HasUrlSyntax text.now (syntax_of url)) }
    ensures same_scheme { IfOk result (λ url. url.scheme.now ≡ scheme.now) }
    ensures escaped { IfOk result (λ url. url.escaped ≡ escape.has_percent url.path.now) }
    ensures refused { IfErr result (λ fault. (parts : UrlSyntax) → ¬ HasUrlSyntax text.now parts) }
    ensures flaw { IfErr result (λ fault. UrlFlaw text.now fault) }
{
    if !has_no_white_space(byte_class, text) {
        return Err(UrlFault::BadCharacter);
    }
    if !has_sound_escapes(byte_class, text) {
        return Err(UrlFault::BadCharacter);
    }
    if !is_scheme(rules, scheme) {
        return Err(UrlFault::NoScheme);
    }
    let (authority, path) = cut_before_path(rest, rules.web);
    if !means_text(byte_class, path) {
        return Err(UrlFault::BadCharacter);
    }
    let parts = read_authority(rules.syntax, rules.needs_host, authority)?;
    Ok(join_parts(scheme, parts, path, holds_escape(byte_class, path)))
}

/// Whether the text, whose rules these are, is a scheme. Each name of HTTP is.
#[inline(always)]
fn is_scheme(rules: Rules, scheme: &[u8]) -> bool
    requires { AreRulesOf scheme.now rules }
    ensures { result ≡ bytes.is_scheme_text scheme.now }
{
    rules.web || is_scheme_text(scheme)
}

/// The fields of a URL, from those of its authority.
#[inline(always)]
fn join_parts<'a>(
    scheme: &'a [u8],
    parts: AuthoritySlices<'a>,
    path: &'a [u8],
    escaped: bool,
) -> ParsedUrl<'a>
    ensures scheme { result.scheme.now ≡ scheme.now }
    ensures user { result.user ≡ parts.entry.credentials.user }
    ensures password { result.password ≡ parts.entry.credentials.password }
    ensures host { result.host ≡ parts.entry.host }
    ensures path { result.path.now ≡ path.now }
    ensures escaped { result.escaped ≡ escaped }
{
    ParsedUrl {
        scheme,
        user: parts.credentials.user,
        password: parts.credentials.password,
        host: parts.host,
        path,
        escaped,
    }
}

/// Whether the text has no white space. A printable text never has.
#[inline(always)]
fn has_no_white_space(byte_class: ByteClass, text: &str) -> bool
    requires { HasByteClass byte_class text.now }
    ensures { IsTrue result ↔ LacksWhiteSpace text.now }
{
    byte_class.is_printable() || lacks_white_space(text)
}

/// Whether two hexadecimal digits follow every `%` of the text.
#[inline(always)]
fn has_sound_escapes(byte_class: ByteClass, text: &str) -> bool
    requires { HasByteClass byte_class text.now }
    ensures { result ≡ escape.is_sound text.now }
{
    byte_class.is_printable() || is_sound(text.as_bytes())
}

/// Whether the text decodes to UTF-8. A text that decodes to ASCII always does.
#[inline(always)]
fn means_text(byte_class: ByteClass, piece: &[u8]) -> bool
    requires { HasByteClass byte_class piece.now }
    ensures { IsTrue result ↔ IsUtf8 (percent_decode piece.now) }
{
    if byte_class.is_ascii() {
        return true;
    }
    if byte_class.is_printable() {
        return decoding_is_utf8(piece);
    }
    decodes_to_utf8(piece)
}

/// Whether the text has a `%`. A plain text never has.
#[inline(always)]
fn holds_escape(byte_class: ByteClass, piece: &[u8]) -> bool
    requires { HasByteClass byte_class piece.now }
    ensures { result ≡ escape.has_percent piece.now }
{
    if byte_class.is_plain() {
        return false;
    }
    has_percent(piece)
}

/// Reads an authority, which may need a host. Most are a simple host.
#[inline(always)]
fn read_authority(
    syntax: HostSyntax,
    needed: bool,
    authority: &[u8],
) -> Result<AuthoritySlices<'_>, UrlFault>
    ensures read { IfOk result (λ parts. HoldsAuthority (host_syntax syntax) needed authority.now parts) }
    ensures clean { IfOk result (λ parts. FreeOf backslash authority.now) }
    ensures refused { IfErr result (λ fault. (¬ FreeOf backslash authority.now)
        ⊎ IsNoAuthority (host_syntax syntax) needed authority.now) }
    ensures flaw { IfErr result
        (λ fault. AuthorityFlaw (host_syntax syntax) needed authority.now fault) }
{
    if let Some(host) = simple_host(authority) {
        return Ok(AuthoritySlices {
            credentials: CredentialSlices {
                user: None,
                password: None,
            },
            host: Some(host),
        });
    }
    if !is_free_of(authority, b'\\') {
        return Err(UrlFault::BadCharacter);
    }
    read_marked(syntax, needed, authority)
}

/// Reads an authority that may have user information, brackets and a port.
#[inline(always)]
fn read_marked(
    syntax: HostSyntax,
    needed: bool,
    authority: &[u8],
) -> Result<AuthoritySlices<'_>, UrlFault>
    ensures read { IfOk result (λ parts. HoldsAuthority (host_syntax syntax) needed authority.now parts) }
    ensures refused { IfErr result (λ fault. IsNoAuthority (host_syntax syntax) needed authority.now) }
    ensures flaw { IfErr result
        (λ fault. AuthorityFlaw (host_syntax syntax) needed authority.now fault) }
{
    let Some((information, piece)) = last_cut(authority, b'@') else {
        return read_host_alone(syntax, needed, authority);
    };
    let credentials = read_credentials(information)?;
    let host = read_host(syntax, piece)?;
    if host.is_none() {
        return Err(UrlFault::BadCharacter);
    }
    Ok(AuthoritySlices { credentials, host })
}

/// Reads an authority without user information.
#[inline(always)]
fn read_host_alone(
    syntax: HostSyntax,
    needed: bool,
    authority: &[u8],
) -> Result<AuthoritySlices<'_>, UrlFault>
    requires { FreeOf at_sign authority.now }
    ensures read { IfOk result (λ parts. HoldsAuthority (host_syntax syntax) needed authority.now parts) }
    ensures refused { IfErr result (λ fault. IsNoAuthority (host_syntax syntax) needed authority.now) }
    ensures flaw { IfErr result
        (λ fault. AuthorityFlaw (host_syntax syntax) needed authority.now fault) }
{
    let host = read_host(syntax, authority)?;
    if needed && host.is_none() {
        return Err(UrlFault::HostRequired);
    }
    Ok(AuthoritySlices {
        credentials: CredentialSlices {
            user: None,
            password: None,
        },
        host,
    })
}

/// Reads user information: a user, or a user and a password, which decode to text.
#[inline(always)]
fn read_credentials(information: &[u8]) -> Result<CredentialSlices<'_>, UrlFault>
    ensures { ReadsCredentials information.now result }
{
    let Some((user, password)) = cut(information, b':') else {
        return read_user(information);
    };
    if !decodes_to_utf8(password) {
        return Err(UrlFault::BadCharacter);
    }
    if !decodes_to_utf8(user) {
        return Err(UrlFault::BadCharacter);
    }
    let password = unless_empty(password);
    Ok(CredentialSlices {
        user: user_beside(password, user),
        password,
    })
}

/// Reads user information without a password.
#[inline(always)]
fn read_user(information: &[u8]) -> Result<CredentialSlices<'_>, UrlFault>
    requires { FreeOf colon information.now }
    ensures { ReadsCredentials information.now result }
{
    if !decodes_to_utf8(information) {
        return Err(UrlFault::BadCharacter);
    }
    Ok(CredentialSlices {
        user: unless_empty(information),
        password: None,
    })
}

/// The text, unless it is empty.
#[inline(always)]
fn unless_empty(text: &[u8]) -> Option<&[u8]>
    ensures { decoded_option result ≡ authority.unless_empty (percent_decode text.now) }
{
    if text.is_empty() { None } else { Some(text) }
}

/// The user of a password, or without one: an empty user counts only beside a password.
#[inline(always)]
fn user_beside<'a>(password: Option<&'a [u8]>, user: &'a [u8]) -> Option<&'a [u8]>
    ensures { decoded_option result
        ≡ authority.user_beside (decoded_option password.entry) (percent_decode user.now) }
{
    match password {
        Some(_) => Some(user),
        None => unless_empty(user),
    }
}
