//! The laws of refusals and of parts, over the definitions alone.

ghost use Rattle.git_refusals.specs.Laws.{OneRefusal, RefusedFlaw, RefusedUnspelled, RefusedWithin};
ghost use Rattle.git_parts.specs.Parts.{OneCut, PasswordIsPart, PortIsPart};

/// A text has at most one refusal, whose place is in the text. The flaw that its error names is in the text,
/// and a text with a refusal spells no location.
pub fn law_refused()
    ensures one { OneRefusal }
    ensures flaw { RefusedFlaw }
    ensures unspelled { RefusedUnspelled }
    ensures within { RefusedWithin }
{}

/// A text has at most one cut into parts. If it spells a location with a password, the part `password` decodes
/// to it; if it spells one with a port, the part `port` has its digits.
pub fn law_parts()
    ensures one { OneCut }
    ensures password { PasswordIsPart }
    ensures port { PortIsPart }
{}
