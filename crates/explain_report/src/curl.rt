//! The host and the port that curl connects to for the text of a location of HTTP, and the path that it requests.
//!
//! No definition says how libcurl reads a text: each function here is a step of libcurl 7.88.1. The stored run compares
//! the results with `curl_reads` of `tools/web_reads.py`, a second implementation, which `tests/witnesses/test_web.py`
//! compares with libcurl itself.

ghost use Rattle.std.specs.Prelude.{◌≤◌};

use crate::marks::{before, halves, holds};
use crate::memory::both;
use crate::text::lossy;
use bstr::{BStr, ByteSlice};
use git_reads::decode::append_decoded;
use git_reads::port::digits_port;
use git_syntax::bytes::cut_before_path;
use gix_url::Url;
use percent_encoding::percent_decode;
use serde::Serialize;
use std::alloc::{AllocError, Global};
use std::fmt::Write;
use std::net::{Ipv4Addr, Ipv6Addr};

/// The largest number of bytes in a zone.
const LONGEST_ZONE: usize = 15;

/// The host, the port and the path that curl uses. It has neither user nor password.
#[derive(Drop, Serialize)]
pub struct Curl {
    /// A name without escapes, or an address: four decimal numbers, or IPv6 in brackets.
    pub host: String,
    /// The port, if the text has one.
    pub port: Option<u16>,
    /// The path and the query as they are sent.
    pub path: String,
}

/// The pieces of the text. The query is empty if there is none.
#[derive(Clone, Copy)]
struct Pieces<'a> {
    host: &'a [u8],
    port: Option<u16>,
    path: &'a [u8],
    query: &'a [u8],
}

impl Curl {
    /// Returns curl's reading of this text, or `None` if curl refuses the text.
    pub fn in_text(alloc: Global, text: &[u8]) -> Result<Option<Curl>, AllocError> {
        let Some(pieces) = cut(text) else {
            return Ok(None);
        };
        let mut buffer = Vec::new(alloc);
        let found = read(alloc, pieces, &mut buffer);
        drop(buffer);
        found
    }

    /// Whether curl connects to the host and the port of this location, whose text it reads. An IPv6 address may be
    /// written differently.
    pub fn has_own_host(&self, url: &Url) -> bool {
        let host = url.host().unwrap_or("");
        let is_address = host.starts_with('[') && !host.contains('%');
        url.port == self.port && (is_address || self.host.as_str() == host)
    }

    /// Whether curl requests the path of this location, escaped or not.
    pub fn has_own_path(&self, url: &Url) -> bool {
        decodes_to(self.path.as_str().as_bytes(), url.path.as_bytes())
    }
}

/// The pieces of a text, or `None` if curl refuses one of them. A third slash after the scheme is skipped.
fn cut(text: &[u8]) -> Option<Pieces<'_>> {
    let (_, rest) = halves(text, b"://")?;
    let rest = rest.strip_prefix(b"/").unwrap_or(rest);
    let (authority, rest) = cut_before_path(rest, true);
    let (host, port) = host_and_port(after_user(authority)?)?;
    let (path, query) = path_and_query(rest)?;
    Some(Pieces {
        host,
        port,
        path,
        query,
    })
}

/// The text after the user information, which the first `@` ends. A user without a password must not contain an escaped
/// byte 0.
fn after_user(authority: &[u8]) -> Option<&[u8]> {
    let Some((information, named)) = halves(authority, b"@") else {
        return Some(authority);
    };
    let is_user_alone = !information.contains(&b':');
    if has_control(information) || (is_user_alone && holds(information, b"%00")) {
        return None;
    }
    Some(named)
}

/// The host, which ends at a colon or after its brackets, and the port.
fn host_and_port(named: &[u8]) -> Option<(&[u8], Option<u16>)> {
    let (host, suffix) = match named {
        [b'[', ..] => named.split_at(named.find_byte(b']')? + 1),
        _ => match named.find_byte(b':') {
            Some(at) => named.split_at(at),
            None => (named, b"".as_slice()),
        },
    };
    match suffix {
        [] | [b':'] => Some((host, None)),
        [b':', digits @ ..] => Some((host, Some(digits_port(digits)?))),
        _ => None,
    }
}

/// The path and the query, without the fragment. None of the three may contain a space or a control character.
fn path_and_query(rest: &[u8]) -> Option<(&[u8], &[u8])> {
    if has_control(rest) {
        return None;
    }
    let front = before(rest, b"#");
    match halves(front, b"?") {
        None => Some((front, b"")),
        found => found,
    }
}

/// Whether the bytes contain a space or an ASCII control character.
fn has_control(part: &[u8]) -> bool {
    part.iter().any(|byte| matches!(byte, 0..=b' ' | 0x7f))
}

/// Reads the pieces of a text.
fn read(
    alloc: Global,
    pieces: Pieces<'_>,
    buffer: &mut Vec<u8>,
) -> Result<Option<Curl>, AllocError> {
    let Some(host) = host_of(alloc, pieces.host, buffer)? else {
        return Ok(None);
    };
    let (host, path) = both(host, target(alloc, pieces, buffer))?;
    Ok(Some(Curl {
        host,
        port: pieces.port,
        path,
    }))
}

// ---- hosts

/// The host that curl connects to, or `None` if curl refuses it.
fn host_of(alloc: Global, host: &[u8], buffer: &mut Vec<u8>) -> Result<Option<String>, AllocError> {
    if has_control(host) {
        return Ok(None);
    }
    if host.starts_with(b"[") {
        return literal(alloc, host);
    }
    match ipv4_if_digit(host) {
        Some(address) => Ok(Some(address.to_string(alloc)?)),
        None if is_plain(host) && !host.is_empty() => Ok(Some(lossy(alloc, host)?)),
        None => name(alloc, host, buffer),
    }
}

/// Whether each byte is a letter, a digit, `.`, `-` or `_`, which curl keeps in a name.
fn is_plain(text: &[u8]) -> bool {
    text.iter().all(|byte| byte.is_ascii_alphanumeric() || matches!(*byte, b'.' | b'-' | b'_'))
}

/// The address written as one to four numbers, the first of which begins with a digit.
fn ipv4_if_digit(host: &[u8]) -> Option<Ipv4Addr> {
    match host {
        [b'0'..=b'9', ..] => ipv4(host),
        _ => None,
    }
}

/// A decoded name. Each `%` that remains is escaped again, because curl formats the whole URL before a transfer.
fn name(alloc: Global, host: &[u8], buffer: &mut Vec<u8>) -> Result<Option<String>, AllocError> {
    buffer.clear();
    append_decoded(buffer, host)?;
    let is_name = !buffer.is_empty() && buffer.iter().all(|byte| is_in_names(*byte));
    if !is_name || holds(host, b"%00") {
        return Ok(None);
    }
    let decoded = buffer.as_slice().replace(alloc, b"%", b"%25")?;
    let name = decoded.as_slice().as_bstr().to_string(alloc);
    drop(decoded);
    Ok(Some(name?))
}

/// Whether a decoded name may contain the byte.
fn is_in_names(byte: u8) -> bool {
    b' ' < byte && !b"\"/:#?!@{}[]\\$'^`*<>=;,+&()".contains(&byte)
}

/// The address written as one to four numbers, read as by C's `inet_aton`: the last number fills all remaining bytes.
fn ipv4(host: &[u8]) -> Option<Ipv4Addr> {
    let (mut fronts, mut limit, mut rest) = (0u64, 0x1_0000_0000u64, host);
    for _number in 0..3 {
        let Some((front, suffix)) = halves(rest, b".") else {
            break;
        };
        limit /= 256;
        let byte = u8::try_from(number(front)?).ok()?;
        fronts = fronts.saturating_add(u64::from(byte).saturating_mul(limit));
        rest = suffix;
    }
    let last = number(rest)?;
    if limit <= last {
        return None;
    }
    let bits = u32::try_from(fronts.saturating_add(last)).ok()?;
    Some(Ipv4Addr::from_bits(bits))
}

/// The number that a text writes, read as by C's `strtoul`: its prefix gives the base.
fn number(text: &[u8]) -> Option<u64> {
    match text {
        [] => None,
        [b'0', b'x' | b'X', digits @ ..] if !digits.is_empty() => number_in(16, digits),
        [b'0', ..] => number_in(8, text),
        _ => number_in(10, text),
    }
}

/// The number with these digits in a base, or the largest `u64` if it is larger.
fn number_in(base: u32, digits: &[u8]) -> Option<u64>
    requires least { 2 ≤ base }
    requires most { base ≤ 36 }
{
    let mut value = 0u64;
    for byte in digits {
        let digit = char::from(*byte).to_digit(base)?;
        value = value
            .saturating_mul(u64::from(base))
            .saturating_add(u64::from(digit));
    }
    Some(value)
}

/// An IPv6 address in brackets, in its shortest form, or as it is written if that isn't longer.
fn literal(alloc: Global, host: &[u8]) -> Result<Option<String>, AllocError> {
    let Some((written, zone)) = address_and_zone(host) else {
        return Ok(None);
    };
    let Ok(address) = Ipv6Addr::parse_ascii(written) else {
        return Ok(None);
    };
    let mut text = String::new(alloc);
    let spelled = write_literal(&mut text, address, written, zone);
    let (text, ()) = both(text, spelled)?;
    Ok(Some(text))
}

/// The texts inside of the brackets before and after the first `%`, which may be written `%25`.
fn address_and_zone(host: &[u8]) -> Option<(&[u8], &[u8])> {
    let inside = host.strip_prefix(b"[")?.strip_suffix(b"]")?;
    let (address, zone) = match halves(inside, b"%") {
        None => (inside, b"".as_slice()),
        Some((_, [])) => return None,
        Some((address, [b'2', b'5', zone @ ..])) if !zone.is_empty() => (address, zone),
        Some(found) => found,
    };
    (zone.len() <= LONGEST_ZONE).then_some((address, zone))
}

/// Appends an address with its zone, in brackets. `written` is the address as the text has it. An IPv4 address at the
/// end is written with dots.
fn write_literal(
    out: &mut String,
    address: Ipv6Addr,
    written: &[u8],
    zone: &[u8],
) -> Result<(), AllocError> {
    match (address.segments(), address.to_ipv4()) {
        ([0, 0, 0, 0, 0, 0, (1..), _], Some(ipv4)) => write!(out, "[::{ipv4}"),
        _ => write!(out, "[{address}"),
    }?;
    if written.len() < out.len() {
        let written = BStr::new(written);
        out.clear();
        write!(out, "[{written}")?;
    }
    if !zone.is_empty() {
        let zone = BStr::new(zone);
        write!(out, "%{zone}")?;
    }
    out.push(']')
}

// ---- paths

/// Whether a text is this one once its escapes are decoded.
fn decodes_to(text: &[u8], decoded: &[u8]) -> bool {
    let mut rest = decoded;
    for byte in percent_decode(text) {
        match rest.split_first() {
            Some((first, tail)) if byte == *first => rest = tail,
            _ => return false,
        }
    }
    rest.is_empty()
}

/// The path and the query that curl requests.
fn target(alloc: Global, pieces: Pieces<'_>, buffer: &mut Vec<u8>) -> Result<String, AllocError> {
    buffer.clear();
    without_dots(buffer, pieces.path)?;
    let mut text = String::new(alloc);
    let written = write_target(&mut text, buffer.as_slice(), pieces.query);
    let (text, ()) = both(text, written)?;
    Ok(text)
}

/// Appends a path without its segments `.` and `..`. Each `..` also removes the segment before it.
fn without_dots(out: &mut Vec<u8>, path: &[u8]) -> Result<(), AllocError> {
    let mut ends_with_dots = false;
    for segment in path.split(|byte| *byte == b'/').skip(1) {
        ends_with_dots = matches!(segment, b"." | b"..");
        match segment {
            b"." => {}
            b".." => out.truncate(out.as_slice().rfind_byte(b'/').unwrap_or(0)),
            _ => {
                out.push(b'/')?;
                out.extend_from_slice(segment)?;
            }
        }
    }
    if ends_with_dots || out.is_empty() {
        out.push(b'/')?;
    }
    Ok(())
}

/// Appends a path and a query.
fn write_target(out: &mut String, path: &[u8], query: &[u8]) -> Result<(), AllocError> {
    write_escaped(out, path)?;
    if query.is_empty() {
        return Ok(());
    }
    out.push('?')?;
    write_escaped(out, query)
}

/// Appends a text, with escapes in place of the bytes above 127.
fn write_escaped(out: &mut String, text: &[u8]) -> Result<(), AllocError> {
    if text.is_ascii()
        && let Ok(ascii) = text.to_str()
    {
        return out.push_str(ascii);
    }
    for byte in text {
        match byte {
            0..0x80 => out.push(char::from(*byte))?,
            _ => write!(out, "%{byte:02x}")?,
        }
    }
    Ok(())
}
