//! Texts with their masks, whose pieces have masks too.
//!
//! The functions are inlined, so the masks of a piece cost nothing if they aren't used.

ghost use Rattle.std.specs.Prelude.{◌≡◌, ◌↔◌, ◌≤◌, ◌++◌, ◌∷◌, ◌⊎◌, [], ℕ, IfSome, IsTrue, List, MatchOption, drop, length, option_map, take, true};
ghost use Rattle.std.specs.List.{list_all};
ghost use Rattle.git_syntax.specs.Bytes.{FreeOf, at_sign, begins_with, colon, slash};
ghost use Rattle.git_syntax.specs.Internal.Cuts.{CutsAt, CutsAtLast};
ghost use Rattle.git_syntax.specs.Internal.HostPieces.{IsSimpleHost, is_simple_byte};
ghost use Rattle.git_syntax.specs.Internal.Masks.{IsMarked, is_common, texts_of};

use super::bits::{all, first, last, none};
use super::{Masks, masks_of};
use crate::classify::after_slashes;

/// A text with its masks.
#[derive(Clone, Copy)]
pub(crate) struct Marked<'a> {
    /// The text.
    pub(crate) text: &'a [u8],
    /// Its masks.
    pub(crate) masks: Masks,
}

/// Returns the text with its masks, if it has 16 to 64 bytes and they are common.
#[inline(always)]
pub(crate) fn mark_common(text: &[u8]) -> Option<Marked<'_>>
    ensures masks { IfSome result (λ found. IsMarked found) }
    ensures same { IfSome result (λ found. found.text.now ≡ text.now) }
    ensures long { IfSome result (λ found. 16 ≤ length text.now) }
    ensures common { IfSome result (λ found. is_common text.now ≡ true) }
{
    if text.len() < 16 || text.len() > 64 {
        return None;
    }
    let masks = masks_of(text)?;
    Some(Marked { text, masks })
}

impl<'a> Marked<'a> {
    /// Returns the texts before and after the first `:`: of `h:22:p` `h` and `22:p`.
    #[inline(always)]
    pub(crate) fn cut_at_colon(&self) -> Option<(Marked<'a>, Marked<'a>)>
        requires { IsMarked self.now }
        ensures cut { CutsAt colon self.now.text.now (option_map texts_of result) }
        ensures masks { IfSome result (λ p. IsMarked p.0 × IsMarked p.1) }
    {
        let at = first(self.masks.colon)?;
        Some((self.front(at), self.rest(at + 1)))
    }

    /// Returns the texts before and after the last `@`: of `a@b@h` `a@b` and `h`.
    #[inline(always)]
    pub(crate) fn cut_at_last_at(&self) -> Option<(Marked<'a>, Marked<'a>)>
        requires { IsMarked self.now }
        ensures cut { CutsAtLast at_sign self.now.text.now (option_map texts_of result) }
        ensures masks { IfSome result (λ p. IsMarked p.0 × IsMarked p.1) }
    {
        let at = last(self.masks.at)?;
        Some((self.front(at), self.rest(at + 1)))
    }

    /// Returns the text after two slashes at the front: `h/p` for `//h/p`, and `None` for `/h`.
    #[inline(always)]
    pub(crate) fn after_slashes(&self) -> Option<Marked<'a>>
        requires { IsMarked self.now }
        ensures cut { MatchOption result
            ((suffix : List ℕ) → ¬ (self.now.text.now ≡ slash ∷ (slash ∷ suffix)))
            (λ suffix. self.now.text.now ≡ slash ∷ (slash ∷ suffix.text.now)) }
        ensures masks { IfSome result (λ suffix. IsMarked suffix) }
    {
        after_slashes(self.text)?;
        Some(self.rest(2))
    }

    /// Returns the front up to the first `/`, and the rest: of `h/p` `h` and `/p`.
    #[inline(always)]
    pub(crate) fn cut_at_slash(&self) -> (Marked<'a>, Marked<'a>)
        requires { IsMarked self.now }
        ensures joined { self.now.text.now ≡ result.0.text.now ++ result.1.text.now }
        ensures front { FreeOf slash result.0.text.now }
        ensures rest { (result.1.text.now ≡ []) ⊎ (begins_with slash result.1.text.now ≡ true) }
        ensures masks { IsMarked result.0 × IsMarked result.1 }
    {
        match first(self.masks.slash) {
            Some(at) => (self.front(at), self.rest(at)),
            None => (*self, self.rest(self.text.len())),
        }
    }

    /// Whether no byte is `:`.
    #[inline(always)]
    pub(crate) fn lacks_colons(&self) -> bool
        requires { IsMarked self.now }
        ensures { IsTrue result ↔ FreeOf colon self.now.text.now }
    {
        none(self.masks.colon)
    }

    /// Whether no byte is `/`.
    #[inline(always)]
    pub(crate) fn lacks_slashes(&self) -> bool
        requires { IsMarked self.now }
        ensures { IsTrue result ↔ FreeOf slash self.now.text.now }
    {
        none(self.masks.slash)
    }

    /// Whether each byte is a lower-case letter, a digit, `-` or `.`, as in `a-1.b` but not in `a_b`.
    #[inline(always)]
    pub(crate) fn are_simple_bytes(&self) -> bool
        requires { IsMarked self.now }
        ensures { IsTrue result ↔ (list_all is_simple_byte self.now.text.now ≡ true) }
    {
        all(self.masks.host, self.text.len())
    }

    /// Whether the text is a simple host.
    #[inline(always)]
    pub(crate) fn is_simple_host(&self) -> bool
        requires { IsMarked self.now }
        ensures { IsTrue result → IsSimpleHost self.now.text.now }
    {
        !self.text.is_empty() && self.are_simple_bytes()
    }

    /// The bytes before the offset, with their masks.
    #[inline(always)]
    fn front(&self, at: usize) -> Marked<'a>
        requires masks { IsMarked self.now }
        requires within { at ≤ length self.now.text.now }
        ensures text { result.text.now ≡ take at self.now.text.now }
        ensures masks { IsMarked result }
    {
        Marked {
            text: self.text.split_at(at).0,
            masks: self.masks.front(at),
        }
    }

    /// The bytes from the offset on, with their masks.
    #[inline(always)]
    fn rest(&self, at: usize) -> Marked<'a>
        requires masks { IsMarked self.now }
        requires within { at ≤ length self.now.text.now }
        ensures text { result.text.now ≡ drop at self.now.text.now }
        ensures masks { IsMarked result }
    {
        Marked {
            text: self.text.split_at(at).1,
            masks: self.masks.rest(at),
        }
    }
}
