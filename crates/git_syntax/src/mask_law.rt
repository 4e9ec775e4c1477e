//! The law about the bits of a mask.

ghost use Rattle.std.specs.Prelude.{ℕ, Bool, List};
ghost use Rattle.git_syntax.specs.Internal.Masks.{HasBit};

/// A bit of a mask is set exactly if the byte of the text is of the class.
///
/// A mask is defined over the list of test results, as the vector operations compute it. This law states the
/// meaning of each bit, and that no bit after the text is set.
pub fn law_masks()
    ensures bits { (test : ℕ → Bool) (text : List ℕ) (i : ℕ) → HasBit test text i }
{}
