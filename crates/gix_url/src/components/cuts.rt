//! A text together with its decoding, and cuts of both at once.
//!
//! The pieces of a text are cut together with their decodings, so no piece has to be decoded into a buffer.

ghost use Rattle.std.specs.Prelude.{◌≡◌, ◌==◌, ◌++◌, [], ◌∷◌, false, true};
ghost use Rattle.std.specs.Char.{is_digit};
ghost use Rattle.percent_encoding.specs.Percent.{percent_decode};
ghost use Rattle.git_syntax.specs.Bytes.{FreeOf};
ghost use Rattle.gix_url.specs.Internal.Meanings.{denoted_by};

use crate::components::measure::denoted_len;
use crate::components::near::cut_near;
use git_syntax::bytes::cut;

/// A text as it is spelled, together with its decoding.
#[derive(Clone, Copy)]
pub(super) struct EscapedText<'a> {
    /// The text.
    pub(super) text: &'a [u8],
    /// Its decoding.
    pub(super) denoted: &'a [u8],
    /// Whether an escape in the text is decoded, or is literal text.
    pub(super) escaped: bool,
    ghost meaning: { denoted.now ≡ denoted_by escaped text.now },
}

impl<'a> EscapedText<'a> {
    ghost use Rattle.gix_url.specs.Internal.ComponentPieces.{CutsAround, CutsOff, CutsSpelled};

    /// The unescaped text: an escape in it is literal text.
    pub(super) fn raw(text: &'a [u8]) -> EscapedText<'a>
        ensures text { result.text.now ≡ text.now }
        ensures denoted { result.denoted.now ≡ text.now }
        ensures escaped { result.escaped ≡ false }
    {
        EscapedText {
            text,
            denoted: text,
            escaped: false,
        }
    }

    /// The spelling of `denoted`, to which it decodes.
    pub(super) fn spelling(text: &'a [u8], denoted: &'a [u8]) -> EscapedText<'a>
        requires { percent_decode text.now ≡ denoted.now }
        ensures text { result.text.now ≡ text.now }
        ensures denoted { result.denoted.now ≡ denoted.now }
        ensures escaped { result.escaped ≡ true }
    {
        EscapedText {
            text,
            denoted,
            escaped: true,
        }
    }

    /// The pieces before and after the first `c`, which is neither `%` nor a hexadecimal digit.
    pub(super) fn cut(self, c: u8) -> Option<(EscapedText<'a>, EscapedText<'a>)>
        requires digit { is_digit c 16 ≡ false }
        requires percent { (c == 37) ≡ false }
        ensures { CutsSpelled c self.entry result }
    {
        let (front, suffix) = cut(self.text, c)?;
        Some(self.around(c, front, suffix))
    }

    /// The pieces before and after the first `c`, for a `c` that is likely to be near the front.
    #[inline(always)]
    pub(super) fn cut_near(self, c: u8) -> Option<(EscapedText<'a>, EscapedText<'a>)>
        requires digit { is_digit c 16 ≡ false }
        requires percent { (c == 37) ≡ false }
        ensures { CutsSpelled c self.entry result }
    {
        let (front, suffix) = cut_near(self.text, c)?;
        Some(self.around(c, front, suffix))
    }

    /// The pieces around the first `c`, from their texts.
    #[inline(always)]
    fn around(self, c: u8, front: &'a [u8], suffix: &'a [u8]) -> (EscapedText<'a>, EscapedText<'a>)
        requires digit { is_digit c 16 ≡ false }
        requires percent { (c == 37) ≡ false }
        requires free { FreeOf c front.now }
        requires joined { self.text.now ≡ front.now ++ c ∷ suffix.now }
        ensures { CutsAround c self.entry result.0 result.1 }
    {
        let at = denoted_len(front, self.escaped);
        (
            EscapedText {
                text: front,
                denoted: self.denoted.split_at(at).0,
                escaped: self.escaped,
            },
            EscapedText {
                text: suffix,
                denoted: self.denoted.split_at(at + 1).1,
                escaped: self.escaped,
            },
        )
    }

    /// The piece before the first `c`, and the piece after it, if there is one.
    pub(super) fn cut_off(self, c: u8) -> (EscapedText<'a>, Option<EscapedText<'a>>)
        requires digit { is_digit c 16 ≡ false }
        requires percent { (c == 37) ≡ false }
        ensures { CutsOff c self.entry result.0 result.1 }
    {
        match self.cut(c) {
            Some((front, suffix)) => (front, Some(suffix)),
            None => (self, None),
        }
    }

    /// The empty text, as a piece of this one.
    pub(super) fn nothing(self) -> EscapedText<'a>
        ensures text { result.text.now ≡ [] }
        ensures escaped { result.escaped ≡ self.entry.escaped }
    {
        EscapedText {
            text: b"",
            denoted: b"",
            escaped: self.escaped,
        }
    }
}
