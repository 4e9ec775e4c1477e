//! Masks of short texts: a mask is a number with a bit for each byte of a text, which is set if the byte is of a class,
//! such as `:` or `/`.
//!
//! [`masks_of`] reads the bytes once, 16 at a time. The last block ends with the text, and may overlap the block
//! before. The modules below cut and test a text by operations on the bits of its masks. Each cut has the clauses of
//! the equivalent function of [`crate::bytes`]. No function here allocates.

ghost use Rattle.std.specs.Prelude.{◌≡◌, ◌+◌, ◌<◌, ◌≤◌, ℕ, Bool, IfSome, List, drop, length, take, true};
ghost use Rattle.git_syntax.specs.Internal.Masks.{AreMasksOf, is_common, mask_of};

pub(crate) mod bits;
mod block;
pub(crate) mod halves;
pub(crate) mod marked;

use crate::blocks::is_common_block;
use bits::{front, rest};
use block::block;
use std::simd::prelude::*;

/// The masks of a text, one for each class of bytes: the lowest bit is for the first byte. The mask of `:` in `h:22:`
/// is 2 + 16.
#[derive(Clone, Copy)]
pub(crate) struct Masks {
    /// `:`.
    pub(crate) colon: u64,
    /// `/`.
    pub(crate) slash: u64,
    /// `@`.
    pub(crate) at: u64,
    /// Bytes of a simple host.
    pub(crate) host: u64,
}

impl Masks {
    /// The masks of the front up to the offset.
    #[inline(always)]
    pub(crate) fn front(&self, place: usize) -> Masks
        ensures { (text : List ℕ) → AreMasksOf text self.now → AreMasksOf (take place text) result }
    {
        Masks {
            colon: front(self.colon, place),
            slash: front(self.slash, place),
            at: front(self.at, place),
            host: front(self.host, place),
        }
    }

    /// The masks of the rest from the offset on.
    #[inline(always)]
    pub(crate) fn rest(&self, place: usize) -> Masks
        ensures { (text : List ℕ) → AreMasksOf text self.now → AreMasksOf (drop place text) result }
    {
        Masks {
            colon: rest(self.colon, place),
            slash: rest(self.slash, place),
            at: rest(self.at, place),
            host: rest(self.host, place),
        }
    }
}

/// The masks of a text of 16 to 64 bytes, if each byte is common. The last block is tested first, since most queries end
/// in one.
#[inline(always)]
pub(crate) fn masks_of(text: &[u8]) -> Option<Masks>
    requires { (16 ≤ length text.now) × (length text.now ≤ 64) }
    ensures masks { IfSome result (λ masks. AreMasksOf text.now masks) }
    ensures common { IfSome result (λ masks. is_common text.now ≡ true) }
{
    let last = text.len() - 16;
    if !is_common_block(text, last) || !is_common_block(text, 0) {
        return None;
    }
    let mut masks = block_at(text, 0);
    let mut done = 16;
    while done < last {
        if !is_common_block(text, done) {
            return None;
        }
        masks = join(text, done, masks, done, block_at(text, done));
        done += 16;
    }
    Some(join(text, done, masks, last, block_at(text, last)))
}

/// The masks of the 16 bytes at an offset.
#[inline(always)]
fn block_at(text: &[u8], at: usize) -> Masks
    requires { at + 16 ≤ length text.now }
    ensures { AreMasksOf (take 16 (drop at text.now)) result }
{
    block(u8x16::from_slice(&text[at..]))
}

/// The masks of the front of a text, computed from those of a shorter front and of the 16 bytes at an offset. The text
/// and the length of the shorter front are only for the contract.
#[inline(always)]
fn join(text: &[u8], done: usize, front: Masks, at: usize, block: Masks) -> Masks
    requires places { (at ≤ done) × (done ≤ at + 16) × (at + 16 ≤ length text.now) }
    requires short { length text.now ≤ 64 }
    requires front { AreMasksOf (take done text.now) front }
    requires block { AreMasksOf (take 16 (drop at text.now)) block }
    ensures { AreMasksOf (take (at + 16) text.now) result }
{
    Masks {
        colon: join_mask(text, done, front.colon, at, block.colon),
        slash: join_mask(text, done, front.slash, at, block.slash),
        at: join_mask(text, done, front.at, at, block.at),
        host: join_mask(text, done, front.host, at, block.host),
    }
}

/// One mask of the front of a text, computed in the same way.
#[inline(always)]
fn join_mask(text: &[u8], done: usize, front: u64, at: usize, block: u64) -> u64
    requires places { (at ≤ done) × (done ≤ at + 16) × (at + 16 ≤ length text.now) }
    requires short { length text.now ≤ 64 }
    ensures { (test : ℕ → Bool) → front ≡ mask_of test (take done text.now)
        → block ≡ mask_of test (take 16 (drop at text.now))
        → result ≡ mask_of test (take (at + 16) text.now) }
{
    front | (block << at)
}
