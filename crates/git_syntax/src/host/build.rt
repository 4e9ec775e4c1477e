//! The text of a host, from the slices that were read.
//!
//! It is written into the caller's buffer.

ghost use Rattle.std.specs.Prelude.{◌≡◌, ◌+◌, ◌≤◌, ◌++◌, drop, length, take};
ghost use Rattle.git_syntax.specs.Bytes.{lowercase};
ghost use Rattle.git_syntax.specs.Hosts as spec;
ghost use Rattle.git_syntax.specs.Internal.HostPieces.{is_bracketed, lowercase_address, denoted_host, named_text, normal_case, unescaped_host};

use crate::bytes::{copy_into, cut};
use crate::escape::decode_into;
use crate::host::bytes::is_like_domain;
use crate::host::{HostPiece, HostPort};

impl HostPort<'_> {
    /// Writes the text of the host to the front of the buffer and returns its length in bytes.
    pub fn write_into(self, buffer: &mut [u8]) -> usize
        requires { length (named_text self) ≤ length buffer.old }
        ensures size { result ≡ length (named_text self.entry) }
        ensures bytes { take result buffer.new ≡ named_text self.entry }
    {
        let size = write_piece(buffer, self.piece);
        if !self.keeps_colon {
            return size;
        }
        buffer[size] = b':';
        size + 1
    }
}

/// Writes the host that a piece denotes to the front of the buffer and returns its length.
fn write_piece(buffer: &mut [u8], piece: HostPiece<'_>) -> usize
    requires { length (denoted_host piece) ≤ length buffer.old }
    ensures size { result ≡ length (denoted_host piece.entry) }
    ensures bytes { take result buffer.new ≡ denoted_host piece.entry }
{
    if !is_bracketed(piece) {
        return write_shown(buffer, piece);
    }
    let (front, suffix) = buffer.split_at_mut(1);
    front[0] = b'[';
    let size = write_shown(suffix, piece);
    suffix[size] = b']';
    size + 2
}

/// Whether the host is in brackets.
fn is_bracketed(piece: HostPiece<'_>) -> bool
    ensures { result ≡ is_bracketed piece.entry }
{
    match piece {
        HostPiece::Simple(_) | HostPiece::Address(_) | HostPiece::Kept(_) | HostPiece::Decoded(_) =>
            false,
        HostPiece::Literal(_) | HostPiece::DecodedLiteral(_) | HostPiece::Bracketed(_) => true,
    }
}

/// Writes the text that a piece denotes, without its brackets, to the front of the buffer and returns its
/// length.
fn write_shown(buffer: &mut [u8], piece: HostPiece<'_>) -> usize
    requires { length (unescaped_host piece) ≤ length buffer.old }
    ensures size { result ≡ length (unescaped_host piece.entry) }
    ensures bytes { take result buffer.new ≡ normal_case piece.entry (unescaped_host piece.entry) }
{
    let size = write_unescaped(buffer, piece);
    settle(&mut buffer[..size], piece);
    size
}

/// Writes the text of a piece, decoded if necessary, to the front of the buffer and returns its length.
fn write_unescaped(buffer: &mut [u8], piece: HostPiece<'_>) -> usize
    requires { length (unescaped_host piece) ≤ length buffer.old }
    ensures size { result ≡ length (unescaped_host piece.entry) }
    ensures bytes { take result buffer.new ≡ unescaped_host piece.entry }
{
    match piece {
        HostPiece::Simple(text)
        | HostPiece::Address(text)
        | HostPiece::Kept(text)
        | HostPiece::Literal(text) => copy_into(buffer, text),
        HostPiece::Decoded(text) | HostPiece::DecodedLiteral(text) | HostPiece::Bracketed(text) =>
            decode_into(buffer, text),
    }
}

/// Changes the letters of a host to the case in which they are written.
fn settle(host: &mut [u8], piece: HostPiece<'_>)
    ensures { host.new ≡ normal_case piece.entry host.old }
{
    match piece {
        HostPiece::Address(_) => host.make_ascii_lowercase(),
        HostPiece::Kept(_) | HostPiece::Decoded(_) => normalize(host),
        HostPiece::Literal(_) | HostPiece::DecodedLiteral(_) => lowercase_address(host),
        HostPiece::Simple(_) | HostPiece::Bracketed(_) => {}
    }
}

/// Lowercases a host that looks like a domain name.
pub fn normalize(host: &mut [u8])
    ensures { host.new ≡ spec.normal_host host.old }
{
    if is_like_domain(host) {
        host.make_ascii_lowercase();
    }
}

/// Lowercases the text before the first `%`, or the whole text if it has none.
pub fn lowercase_address(literal: &mut [u8])
    ensures { literal.new ≡ lowercase_address literal.old }
{
    let end = address_len(literal);
    literal[..end].make_ascii_lowercase();
}

/// The number of bytes before the first `%`.
fn address_len(literal: &[u8]) -> usize
    ensures within { result ≤ length literal.now }
    ensures cut { lowercase_address literal.now ≡ lowercase (take result literal.now)
        ++ drop result literal.now }
{
    match cut(literal, b'%') {
        Some((address, _)) => address.len(),
        None => literal.len(),
    }
}
