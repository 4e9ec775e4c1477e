//! Ports as Git reads them, with C's `strtol`.

ghost use Rattle.std.specs.Prelude.{◌≡◌, ℕ};
ghost use Rattle.std.specs.Char.{is_ascii_digit};
ghost use Rattle.std.specs.List.{list_all};
ghost use Rattle.git_reads.specs.Git.{BeforePort, digits_port, git_port, signed_port};
ghost use Rattle.git_syntax.specs.Bytes.{is_c_space};

use git_syntax::bytes::cut;
use git_syntax::text::as_text;

/// The text before a port, and the port: only the first colon begins one.
pub(crate) fn before_port(text: &[u8]) -> (&[u8], Option<u16>)
    ensures { BeforePort text.now result.0.now result.1 }
{
    match cut(text, b':') {
        Some((front, [])) => (front, None),
        Some((front, digits)) => match port_of(digits) {
            Some(port) => (front, Some(port)),
            None => (text, None),
        },
        None => (text, None),
    }
}

/// The port that a text spells: `strtol` skips white space and reads a sign.
pub(crate) fn port_of(text: &[u8]) -> Option<u16>
    ensures { result ≡ git_port text.now }
{
    let mut rest = text;
    while let Some((first, tail)) = rest.split_first() {
        if !is_c_space(*first) {
            return signed_port(rest);
        }
        rest = tail;
    }
    None
}

/// Whether C regards the byte as white space.
fn is_c_space(byte: u8) -> bool
    ensures { result ≡ is_c_space byte }
{
    byte == b' ' || (b'\t' <= byte && byte <= b'\r')
}

/// The port that digits spell after a sign, or without one. The only negative number that is a port is `-0`.
fn signed_port(text: &[u8]) -> Option<u16>
    ensures { result ≡ signed_port text.now }
{
    match text {
        [b'+', digits @ ..] => digits_port(digits),
        [b'-', digits @ ..] => match digits_port(digits) {
            Some(0) => Some(0),
            _ => None,
        },
        digits => digits_port(digits),
    }
}

/// The port that digits spell.
pub fn digits_port(digits: &[u8]) -> Option<u16>
    ensures { result ≡ digits_port digits.now }
{
    if !are_digits(digits) {
        return None;
    }
    as_text(digits).parse::<u16>().ok()
}

/// Whether each byte is a decimal digit.
fn are_digits(text: &[u8]) -> bool
    ensures { result ≡ list_all is_ascii_digit text.now }
{
    text.iter().all(|byte| byte.is_ascii_digit())
}
