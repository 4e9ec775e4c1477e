//! The masks of 16 bytes, computed by vector operations.

ghost use Rattle.std.specs.Prelude.{◌≡◌, ◌==◌};
ghost use Rattle.git_syntax.specs.Internal.HostPieces.{is_simple_byte};
ghost use Rattle.git_syntax.specs.Internal.Masks.{AreMasksOf, mask_of};

use super::Masks;
use super::halves::{HIGH_BITS, by_high_half, by_low_half};
use std::simd::prelude::*;

/// The table of lower-case letters, digits, `-` and `.`.
const HOST_TABLE: [u8; 16] = [
    136, 200, 200, 200, 200, 200, 200, 200, 200, 200, 192, 64, 64, 68, 68, 64,
];

/// The masks of 16 bytes.
#[inline(always)]
pub(super) fn block(bytes: u8x16) -> Masks
    ensures { AreMasksOf bytes result }
{
    Masks {
        colon: equal_to(bytes, b':'),
        slash: equal_to(bytes, b'/'),
        at: equal_to(bytes, b'@'),
        host: hosts(bytes),
    }
}

/// Which bytes are the byte.
#[inline(always)]
fn equal_to(bytes: u8x16, byte: u8) -> u64
    ensures { result ≡ mask_of (λ b. b == byte) bytes }
{
    bytes.simd_eq(u8x16::splat(byte)).to_bitmask()
}

/// Which bytes are a lower-case letter, a digit, `-` or `.`.
#[inline(always)]
fn hosts(bytes: u8x16) -> u64
    ensures { result ≡ mask_of is_simple_byte bytes }
{
    let high = by_high_half(HIGH_BITS, bytes);
    (by_low_half(HOST_TABLE, bytes) & high)
        .simd_eq(high)
        .to_bitmask()
}
