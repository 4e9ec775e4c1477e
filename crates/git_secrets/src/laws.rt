//! The laws on the pieces of a text.

ghost use Rattle.git_secrets.specs.Laws.{AreWhole};
ghost use Rattle.git_secrets.specs.OnlyLaws.{OnlySecrets};
ghost use Rattle.git_secrets.specs.PasswordLaws.{HidesPasswords};
ghost use Rattle.git_secrets.specs.TokenLaws.{HidesTokens};

/// The pieces of a text joined are the text. The password of a text that spells a location lies in a piece that is
/// hidden as a password, unless it is empty. Each word of letters, digits, `_` and `-` that begins as a token and has
/// at least 24 bytes lies in a hidden piece. Nothing else is hidden than words that may be tokens, and what is
/// between a `:` and an `@`, or their escapes.
pub fn law_secrets()
    ensures whole { AreWhole }
    ensures passwords { HidesPasswords }
    ensures tokens { HidesTokens }
    ensures only { OnlySecrets }
{}
