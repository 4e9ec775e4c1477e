//! Texts that are decoded into a caller's buffer.
//!
//! Each function returns the text that a slice denotes: the slice itself if a quick test shows that it has the
//! same bytes, and else the front of the buffer. It also returns the unused rest of the buffer.

ghost use Rattle.std.specs.Prelude.{◌≡◌, ◌+◌, ◌≤◌, IfSome, length};
ghost use Rattle.std.specs.Option.{option_copied};
ghost use Rattle.percent_encoding.specs.Percent as percent;
ghost use Rattle.git_syntax.specs.Bytes.{IsLowercase};
ghost use Rattle.git_syntax.specs.Internal.FoundPieces.{optional_length, scp_host_of, scp_slice};
ghost use Rattle.git_syntax.specs.Internal.HostPieces.{host_of, denoted_host, named_text};
ghost use Rattle.git_syntax.specs.Internal.UrlPieces.{decoded_option};

use git_syntax::bytes::is_lowercase;
use git_syntax::escape::{decode_into, has_percent};
use git_syntax::found::ScpHost;
use git_syntax::host::build::{lowercase_address, normalize};
use git_syntax::host::{HostPiece, HostPort};

/// The decoding of a text.
#[inline(always)]
fn decoded_in<'a>(text: &'a [u8], buffer: &'a mut [u8]) -> (&'a [u8], &'a mut [u8])
    requires { length (percent.percent_decode text.now) ≤ length buffer.old }
    ensures text { result.0.now ≡ percent.percent_decode text.now }
    ensures left { length buffer.old
        ≤ length result.1.now + length (percent.percent_decode text.now) }
{
    if !has_percent(text) {
        return (text, buffer);
    }
    let size = decode_into(buffer, text);
    let (decoded, left) = buffer.split_at_mut(size);
    (decoded, left)
}

/// The decoding of a text that may be missing.
#[inline(always)]
pub(crate) fn optional_in<'a>(
    text: Option<&'a [u8]>,
    buffer: &'a mut [u8],
) -> (Option<&'a [u8]>, &'a mut [u8])
    requires { optional_length (decoded_option text) ≤ length buffer.old }
    ensures text { option_copied result.0 ≡ decoded_option text.entry }
    ensures left { length buffer.old
        ≤ length result.1.now + optional_length (decoded_option text.entry) }
{
    match text {
        None => (None, buffer),
        Some(text) => {
            let (decoded, left) = decoded_in(text, buffer);
            (Some(decoded), left)
        }
    }
}

/// The text of a host that may be missing.
#[inline(always)]
pub(crate) fn host_in<'a>(
    host: Option<HostPort<'a>>,
    buffer: &'a mut [u8],
) -> (Option<&'a [u8]>, &'a mut [u8])
    requires { optional_length (host_of host) ≤ length buffer.old }
    ensures text { option_copied result.0 ≡ host_of host.entry }
    ensures left { length buffer.old ≤ length result.1.now + optional_length (host_of host.entry) }
{
    match host {
        None => (None, buffer),
        Some(host) => {
            let (text, left) = named_in(host, buffer);
            (Some(text), left)
        }
    }
}

/// The text of a host.
#[inline(always)]
fn named_in<'a>(host: HostPort<'a>, buffer: &'a mut [u8]) -> (&'a [u8], &'a mut [u8])
    requires { length (named_text host) ≤ length buffer.old }
    ensures text { result.0.now ≡ named_text host.entry }
    ensures left { length buffer.old ≤ length result.1.now + length (named_text host.entry) }
{
    if let Some(text) = own_slice(host) {
        return (text, buffer);
    }
    let size = host.write_into(buffer);
    let (text, left) = buffer.split_at_mut(size);
    (text, left)
}

/// The slice of a host, if it is the host's text unchanged.
#[inline(always)]
fn own_slice(host: HostPort<'_>) -> Option<&[u8]>
    ensures { IfSome result (λ text. text.now ≡ named_text host.entry) }
{
    if host.keeps_colon {
        return None;
    }
    if let HostPiece::Simple(text) = host.piece {
        return Some(text);
    }
    let text = unescaped_slice(host.piece)?;
    if is_lowercase(text) { Some(text) } else { None }
}

/// The slice of a host without brackets that has no escape, or whose escapes stay.
fn unescaped_slice(piece: HostPiece<'_>) -> Option<&[u8]>
    ensures { IfSome result
        (λ text. IsLowercase text.now → text.now ≡ denoted_host piece.entry) }
{
    match piece {
        HostPiece::Simple(text) | HostPiece::Address(text) | HostPiece::Kept(text) => Some(text),
        HostPiece::Decoded(text) => { if has_percent(text) { None } else { Some(text) } }
        HostPiece::Literal(_) | HostPiece::DecodedLiteral(_) | HostPiece::Bracketed(_) => None,
    }
}

/// A copy of the text at the front of the buffer.
fn copied_in<'a>(text: &[u8], buffer: &'a mut [u8]) -> &'a mut [u8]
    requires { length text.now ≤ length buffer.old }
    ensures { result.now ≡ text.now }
{
    let (front, _) = buffer.split_at_mut(text.len());
    front.copy_from_slice(text);
    front
}

/// The text of a host of the scp form.
pub(crate) fn scp_host_in<'a>(host: ScpHost<'a>, buffer: &'a mut [u8]) -> &'a [u8]
    requires { length (scp_slice host) ≤ length buffer.old }
    ensures { result.now ≡ scp_host_of host.entry }
{
    match host {
        ScpHost::Kept(text) => text,
        ScpHost::Literal(text) => {
            if is_lowercase(text) {
                return text;
            }
            let text = copied_in(text, buffer);
            lowercase_address(text);
            text
        }
        ScpHost::Name(text) => {
            if is_lowercase(text) {
                return text;
            }
            let text = copied_in(text, buffer);
            normalize(text);
            text
        }
    }
}
