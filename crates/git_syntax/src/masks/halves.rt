//! Looks up 16 bytes in tables of 16 entries, by the low and the high half of each byte.
//!
//! A table of a class has an entry for each low half, with a bit for each high half: bit `h` of entry `l` is set
//! if the byte `16 * h + l` is of the class. All bytes of a class are ASCII, so `h` is below 8.

ghost use Rattle.std.specs.Prelude.{◌≡◌, ◌/◌, bit_and, map, slice_index};

use std::simd::prelude::*;

/// The bit of each high half. Bytes beyond ASCII have all bits, which no entry of a table of a class has.
pub(crate) const HIGH_BITS: [u8; 16] = [
    1, 2, 4, 8, 16, 32, 64, 128, 255, 255, 255, 255, 255, 255, 255, 255,
];

/// For each byte the entry at its low half.
#[inline(always)]
pub(crate) fn by_low_half(table: [u8; 16], bytes: u8x16) -> u8x16
    ensures { result ≡ map (λ b. slice_index table (bit_and b 15)) bytes }
{
    u8x16::from_array(table).swizzle_dyn(bytes & u8x16::splat(15))
}

/// For each byte the entry at its high half.
#[inline(always)]
pub(crate) fn by_high_half(table: [u8; 16], bytes: u8x16) -> u8x16
    ensures { result ≡ map (λ b. slice_index table (b / 16)) bytes }
{
    u8x16::from_array(table).swizzle_dyn(bytes >> u8x16::splat(4))
}
