//! Tests of the bytes of a host: those of HTTP, those of a domain name, and IPv6 literals with their zones.

ghost use Rattle.std.specs.Prelude.{◌≡◌, ◌↔◌, IsTrue};
ghost use Rattle.std.specs.List.{list_all};
ghost use Rattle.git_syntax.specs.Addresses as address;
ghost use Rattle.git_syntax.specs.Hosts as spec;
ghost use Rattle.git_syntax.specs.Hosts.{IsLiteral};
ghost use Rattle.git_syntax.specs.Internal.HostPieces.{IsEscapedZone, is_simple_byte};

use crate::bytes::{after, cut};
use crate::escape::{decodes_to_utf8, is_sound};
use crate::ipv6::is_address;

/// Whether each byte may be in the host of an HTTP location.
pub fn are_http_host_bytes(text: &[u8]) -> bool
    ensures { result ≡ list_all spec.is_http_host_byte text.now }
{
    // A loop without an early exit is compiled to test many bytes at once.
    let mut all = true;
    for byte in text {
        all &= is_http_host_byte(*byte);
    }
    all
}

/// Whether the byte is a letter, a digit or one of `-._~!$&'()*+,;=%`.
fn is_http_host_byte(byte: u8) -> bool
    ensures { result ≡ spec.is_http_host_byte byte }
{
    byte.is_ascii_alphanumeric()
        || (b'$' <= byte && byte <= b'.')
        || byte == b'!'
        || byte == b';'
        || byte == b'='
        || byte == b'_'
        || byte == b'~'
}

/// Whether each byte is a lower-case letter, a digit, `-` or `.`.
pub(super) fn are_simple_bytes(text: &[u8]) -> bool
    ensures { result ≡ list_all is_simple_byte text.now }
{
    text.iter().all(|byte| is_simple_byte(*byte))
}

/// Whether the byte is a lower-case letter, a digit, `-` or `.`.
fn is_simple_byte(byte: u8) -> bool
    ensures { result ≡ is_simple_byte byte }
{
    byte.is_ascii_lowercase() || byte.is_ascii_digit() || byte == b'-' || byte == b'.'
}

/// Whether the text is an IPv6 literal: an address, or one that `%25` and a zone follow.
pub fn is_literal(text: &[u8]) -> bool
    ensures { IsTrue result ↔ IsLiteral text.now }
{
    match cut(text, b'%') {
        Some((address, escaped)) => is_address(address) && is_escaped_zone(escaped),
        None => is_address(text),
    }
}

/// Whether the text, which follows a `%`, is `25` and a zone.
pub fn is_escaped_zone(text: &[u8]) -> bool
    ensures { IsTrue result ↔ IsEscapedZone text.now }
{
    let Some(rest) = after(text, b'2') else {
        return false;
    };
    match after(rest, b'5') {
        Some(zone) => is_zone(zone),
        None => false,
    }
}

/// Whether the text is the zone of an address.
fn is_zone(text: &[u8]) -> bool
    ensures { IsTrue result ↔ address.IsZone text.now }
{
    !text.is_empty() && is_sound(text) && are_zone_bytes(text) && decodes_to_utf8(text)
}

/// Whether each byte may be in a zone.
pub(crate) fn are_zone_bytes(text: &[u8]) -> bool
    ensures { result ≡ list_all address.is_zone_byte text.now }
{
    text.iter().all(|byte| is_zone_byte(*byte))
}

/// Whether the byte is a letter, a digit, `-`, `.`, `_`, `~` or `%`.
fn is_zone_byte(byte: u8) -> bool
    ensures { result ≡ address.is_zone_byte byte }
{
    byte.is_ascii_alphanumeric()
        || byte == b'-'
        || byte == b'.'
        || byte == b'_'
        || byte == b'~'
        || byte == b'%'
}

/// Whether each byte is a letter, a digit, `-`, `.`, `_` or `*`.
pub fn is_like_domain(host: &[u8]) -> bool
    ensures { result ≡ list_all spec.is_dns_byte host.now }
{
    // A loop without an early exit is compiled to test many bytes at once.
    let mut all = true;
    for byte in host {
        all &= is_dns_byte(*byte);
    }
    all
}

/// Whether the byte is a letter, a digit, `-`, `.`, `_` or `*`.
fn is_dns_byte(byte: u8) -> bool
    ensures { result ≡ spec.is_dns_byte byte }
{
    byte.is_ascii_alphanumeric() || byte == b'-' || byte == b'.' || byte == b'_' || byte == b'*'
}
