//! The law on the pieces of a text.

ghost use Rattle.git_audit.specs.SecretLaws.{AreWhole};

/// The pieces of a text joined are the text.
pub fn law_secrets()
    ensures whole { AreWhole }
{}
