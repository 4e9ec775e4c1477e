//! The host and the port of a URL, as Git compares them.
//!
//! The host is a slice of the text; `write` converts it to lower case.

ghost use Rattle.std.specs.Prelude.{◌≡◌, ◌↔◌, ℕ, IsTrue, MatchOption, MatchResult, bytes_eq, codes};
ghost use Rattle.std.specs.Char.{is_ascii_digit};
ghost use Rattle.std.specs.List.{list_all};
ghost use Rattle.git_rules.specs.NormalPieces.{ReadsHost};
ghost use Rattle.git_syntax.specs.Hosts.{Number};
ghost use Rattle.git_syntax.specs.Hosts.HostSyntax.{http_hosts};
ghost use Rattle.git_syntax.specs.Flaws.{IsNoPort};
ghost use Rattle.git_rules.specs.Normal as spec;
ghost use Rattle.git_rules.specs.Normal.{CutsPort, PortFor};
ghost use Rattle.git_rules.specs.NormalFlaws.{HostFlaw};

use crate::normal::NormalError;
use git_syntax::bytes::{is_free_of, last_cut};
use git_syntax::text::as_text;

/// The host at the start of a text, not yet in lower case, and the port. A byte that no host has is refused first.
pub(super) fn read_host<'a>(
    globs: bool,
    scheme: &[u8],
    text: &'a [u8],
) -> Result<(&'a [u8], Option<u16>), NormalError>
    ensures { MatchResult result
        (λ p. ReadsHost globs scheme.now text.now p.0.now p.1)
        (λ e. HostFlaw globs scheme.now text.now e) }
{
    let (name, digits) = cut_port(text);
    if !are_host_bytes(globs, name) {
        return Err(NormalError::BadHost);
    }
    if lacks_host(text) {
        if scheme != b"file".as_slice() {
            return Err(NormalError::NoHost);
        }
        if !digits.is_empty() {
            return Err(NormalError::BadPort);
        }
        return Ok((b"".as_slice(), None));
    }
    match read_port(scheme, digits) {
        None => Err(NormalError::BadPort),
        Some(port) => Ok((name, port)),
    }
}

/// Splits a text at the colon before its port; the port is empty if there isn't one.
fn cut_port(text: &[u8]) -> (&[u8], &[u8])
    ensures { CutsPort text.now result.0.now result.1.now }
{
    match last_cut(text, b':') {
        None => (text, b"".as_slice()),
        Some((front, back)) => {
            if is_free_of(back, b']') {
                (front, back)
            } else {
                (text, b"".as_slice())
            }
        }
    }
}

/// Whether the text begins without a host.
fn lacks_host(text: &[u8]) -> bool
    ensures { result ≡ spec.lacks_host text.now }
{
    match text {
        [] => true,
        [first, ..] => *first == b':',
    }
}

/// Whether each byte is allowed in a host.
fn are_host_bytes(globs: bool, name: &[u8]) -> bool
    ensures { result ≡ list_all (spec.is_host_byte globs) name.now }
{
    name.iter().all(|byte| is_host_byte(globs, *byte))
}

/// Whether the byte is allowed in a host.
fn is_host_byte(globs: bool, byte: u8) -> bool
    ensures { result ≡ spec.is_host_byte globs byte }
{
    byte.is_ascii_alphanumeric() || is_host_mark(byte) || (globs && byte == b'*')
}

/// Whether the byte is a punctuation mark that is allowed in a host.
fn is_host_mark(byte: u8) -> bool
    ensures { result ≡ spec.is_host_mark byte }
{
    byte == b'.' || byte == b'-' || byte == b'_' || byte == b'[' || byte == b':' || byte == b']'
}

/// The port in the text after a host's colon, if that text is empty or a port number.
fn read_port(scheme: &[u8], digits: &[u8]) -> Option<Option<u16>>
    ensures { MatchOption result (IsNoPort http_hosts digits.now) (λ port. PortFor scheme.now digits.now port) }
{
    if digits.is_empty() {
        return Some(None);
    }
    let port = number(digits)?;
    if is_own_port(scheme, port) {
        Some(None)
    } else {
        Some(Some(port))
    }
}

/// Whether the port is the scheme's default port.
fn is_own_port(scheme: &[u8], port: u16) -> bool
    ensures { result ≡ spec.is_own_port scheme.now port }
{
    match port {
        80 => scheme == b"http".as_slice(),
        443 => scheme == b"https".as_slice(),
        _ => false,
    }
}

/// The number from 1 to 65,535 that the text spells.
fn number(digits: &[u8]) -> Option<u16>
    ensures { MatchOption result ((port : ℕ) → ¬ Number http_hosts digits.now port)
        (λ port. Number http_hosts digits.now port) }
{
    if !are_digits(digits) {
        return None;
    }
    let Ok(port) = as_text(digits).parse::<u16>() else {
        return None;
    };
    if port > 0 { Some(port) } else { None }
}

/// Whether each byte is a decimal digit.
fn are_digits(text: &[u8]) -> bool
    ensures { result ≡ list_all is_ascii_digit text.now }
{
    text.iter().all(|byte| byte.is_ascii_digit())
}
