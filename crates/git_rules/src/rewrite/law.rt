//! The law that the contracts of [`Rewrites`](crate::rewrite::Rewrites) determine the outcome for a text.

ghost use Rattle.git_rules.specs.RewriteLaws.{OneOutcome, OneOutcomeToPush};

/// Rules have one outcome for a text, for fetching and for pushing.
pub fn law_one_outcome()
    ensures fetching { OneOutcome }
    ensures pushing { OneOutcomeToPush }
{}
