//! The facts that follow from the mask of a class: the first and the last byte of the class, whether all bytes or none
//! are of the class, and the masks of a front and of the rest.

ghost use Rattle.std.specs.Prelude.{◌≡◌, ◌↔◌, ◌-◌, ◌^◌, ◌≤◌, ℕ, Bool, List, IsTrue, drop, length, take, true};
ghost use Rattle.std.specs.List.{list_all};
ghost use Rattle.memchr.specs.Find.{IsFirstByte, IsLastByte};
ghost use Rattle.git_syntax.specs.Bytes.{Lacks};
ghost use Rattle.git_syntax.specs.Internal.Masks.{mask_of};

/// Returns the offset of the first byte of the class, if there is one.
#[inline(always)]
pub(crate) fn first(mask: u64) -> Option<usize>
    ensures { (test : ℕ → Bool) (text : List ℕ) → length text ≤ 64
        → mask ≡ mask_of test text → IsFirstByte test text result }
{
    if mask == 0 {
        return None;
    }
    Some(mask.trailing_zeros() as usize)
}

/// Returns the offset of the last byte of the class, if there is one.
#[inline(always)]
pub(crate) fn last(mask: u64) -> Option<usize>
    ensures { (test : ℕ → Bool) (text : List ℕ) → length text ≤ 64
        → mask ≡ mask_of test text → IsLastByte test text result }
{
    if mask == 0 {
        return None;
    }
    Some(63 - mask.leading_zeros() as usize)
}

/// Whether no byte is of the class.
#[inline(always)]
pub(crate) fn none(mask: u64) -> bool
    ensures { (test : ℕ → Bool) (text : List ℕ) → mask ≡ mask_of test text
        → (IsTrue result ↔ Lacks test text) }
{
    mask == 0
}

/// Whether each byte of a text of this many bytes is of the class.
#[inline(always)]
pub(crate) fn all(mask: u64, count: usize) -> bool
    ensures { (test : ℕ → Bool) (text : List ℕ) → count ≡ length text → length text ≤ 64
        → mask ≡ mask_of test text → (IsTrue result ↔ (list_all test text ≡ true)) }
{
    mask == ones(count)
}

/// The mask of the front up to the offset.
#[inline(always)]
pub(crate) fn front(mask: u64, place: usize) -> u64
    ensures { (test : ℕ → Bool) (text : List ℕ) → length text ≤ 64
        → mask ≡ mask_of test text → result ≡ mask_of test (take place text) }
{
    if place < 64 {
        mask & ((1 << place) - 1)
    } else {
        mask
    }
}

/// The mask of the rest from the offset on.
#[inline(always)]
pub(crate) fn rest(mask: u64, place: usize) -> u64
    ensures { (test : ℕ → Bool) (text : List ℕ) → length text ≤ 64
        → mask ≡ mask_of test text → result ≡ mask_of test (drop place text) }
{
    if place < 64 { mask >> place } else { 0 }
}

/// The mask of a class that contains each of this many bytes.
#[inline(always)]
fn ones(count: usize) -> u64
    ensures { count ≤ 64 → result ≡ 2 ^ count - 1 }
{
    if count < 64 {
        (1 << count) - 1
    } else {
        u64::MAX
    }
}
