//! Tests of all bytes of a text of at least 16 bytes, which are read 16 at a time.
//!
//! The last block ends with the text, and may overlap the block before.

ghost use Rattle.std.specs.Prelude.{◌≡◌, ◌+◌, ◌≤◌, IsTrue, drop, length, take, true, ℕ};
ghost use Rattle.git_syntax.specs.Escapes.{is_plain, is_plain_byte, is_printable, is_printable_byte};
ghost use Rattle.git_syntax.specs.Internal.Masks.{is_common, is_common_byte, mask_of};

use crate::masks::bits::all;
use crate::masks::halves::{HIGH_BITS, by_high_half, by_low_half};
use std::simd::prelude::*;

/// The table of letters, digits, `+`, `,`, `-`, `.`, `/`, `:`, `@`, `_` and `~`.
const COMMON_TABLE: [u8; 16] = [
    184, 248, 248, 248, 248, 248, 248, 248, 248, 248, 248, 84, 84, 84, 212, 116,
];

/// The distance from `!` to `~`.
const SHOWN_SPAN: u8 = 93;

/// Whether the 16 bytes at an offset are common.
#[inline(always)]
pub(crate) fn is_common_block(text: &[u8], at: usize) -> bool
    requires { at + 16 ≤ length text.now }
    ensures { IsTrue result → is_common (take 16 (drop at text.now)) ≡ true }
{
    all(commons(u8x16::from_slice(&text[at..])), 16)
}

/// Which bytes are a letter, a digit, or one of `+`, `,`, `-`, `.`, `/`, `:`, `@`, `_` and `~`.
#[inline(always)]
fn commons(bytes: u8x16) -> u64
    ensures { result ≡ mask_of is_common_byte bytes }
{
    let high = by_high_half(HIGH_BITS, bytes);
    (by_low_half(COMMON_TABLE, bytes) & high)
        .simd_eq(high)
        .to_bitmask()
}

/// Whether each byte is printable ASCII and isn't `%`.
pub(crate) fn are_plain(text: &[u8]) -> bool
    requires { 16 ≤ length text.now }
    ensures { result ≡ is_plain text.now }
{
    let mut done = 0;
    while done + 64 < text.len() {
        if !are_plain_blocks(text, done) {
            return false;
        }
        done += 64;
    }
    while done + 16 < text.len() {
        if !is_plain_block(text, done) {
            return false;
        }
        done += 16;
    }
    is_plain_block(text, text.len() - 16)
}

/// Whether the 64 bytes at an offset are printable ASCII and no `%`. The compiler joins the four blocks, and
/// tests them by one branch.
#[inline(always)]
fn are_plain_blocks(text: &[u8], at: usize) -> bool
    requires { at + 64 ≤ length text.now }
    ensures { result ≡ is_plain (take 64 (drop at text.now)) }
{
    is_plain_block(text, at)
        & is_plain_block(text, at + 16)
        & is_plain_block(text, at + 32)
        & is_plain_block(text, at + 48)
}

/// Whether the 16 bytes at an offset are printable ASCII and no `%`.
#[inline(always)]
fn is_plain_block(text: &[u8], at: usize) -> bool
    requires { at + 16 ≤ length text.now }
    ensures { result ≡ is_plain (take 16 (drop at text.now)) }
{
    all(plains(u8x16::from_slice(&text[at..])), 16)
}

/// Which bytes are printable ASCII and not `%`.
#[inline(always)]
fn plains(bytes: u8x16) -> u64
    ensures { result ≡ mask_of is_plain_byte bytes }
{
    let printable = (bytes - u8x16::splat(b'!')).simd_le(u8x16::splat(SHOWN_SPAN));
    (printable & bytes.simd_ne(u8x16::splat(b'%'))).to_bitmask()
}

/// Whether each byte is printable ASCII.
pub(crate) fn are_printable(text: &[u8]) -> bool
    requires { 16 ≤ length text.now }
    ensures { result ≡ is_printable text.now }
{
    let mut done = 0;
    while done + 16 < text.len() {
        if !is_printable_block(text, done) {
            return false;
        }
        done += 16;
    }
    is_printable_block(text, text.len() - 16)
}

/// Whether the 16 bytes at an offset are printable ASCII.
#[inline(always)]
fn is_printable_block(text: &[u8], at: usize) -> bool
    requires { at + 16 ≤ length text.now }
    ensures { result ≡ is_printable (take 16 (drop at text.now)) }
{
    all(printables(u8x16::from_slice(&text[at..])), 16)
}

/// Which bytes are printable ASCII.
#[inline(always)]
fn printables(bytes: u8x16) -> u64
    ensures { result ≡ mask_of is_printable_byte bytes }
{
    (bytes - u8x16::splat(b'!'))
        .simd_le(u8x16::splat(SHOWN_SPAN))
        .to_bitmask()
}
