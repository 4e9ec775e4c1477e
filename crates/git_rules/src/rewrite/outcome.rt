//! The outcome of rewriting a text: a [`Rewritten`] of two slices, whose text is the base, if there is one,
//! followed by the rest.

ghost use Rattle.std.specs.Prelude.{◌≡◌, ◌++◌, IfOk, is_some};
ghost use Rattle.bstr.specs.Owned.{bstring_bytes};
ghost use Rattle.git_rules.specs.Rewrites.{outcome_text};

use bstr::BString;
use git_syntax::bytes::append_within;
use std::alloc::{AllocError, Global};
use std::marker::Model;

/// The outcome of rewriting a text: the base of the rule that won, and the text after that rule's front; or no base
/// and the text itself. Both are borrowed.
///
/// ```
/// /// The front that a rule takes off a text, if one wins.
/// fn front<'a>(rules: &Rewrites<'_>, text: &'a [u8]) -> Option<&'a [u8]> {
///     let outcome = rules.rewrite_fetch(text);
///     outcome.base?;
///     text.strip_suffix(outcome.rest)
/// }
/// ```
#[derive(Drop)]
pub struct Rewritten<'a> {
    /// The new beginning of the text, if a rule won. It may be empty.
    pub base: Option<&'a [u8]>,
    /// The text after the front of that rule; the whole text if no rule won.
    pub rest: &'a [u8],
}

impl<'a> Model for Rewritten<'a> {
    ghost use Rattle.git_rules.specs.Rewrites.{Outcome};

    ghost Value = { Outcome };

    ghost use Rattle.git_rules.specs.RuleOutcome.{outcome};

    ghost view = { outcome };
}

impl Rewritten<'_> {
    /// Whether a rule won. If its base equals the front that it replaces, the text is still the same.
    ///
    /// ```
    /// /// How many of the locations a configuration rewrites.
    /// fn rewritten(rules: &Rewrites<'_>, locations: &[&[u8]]) -> usize {
    ///     let mut count: usize = 0;
    ///     for location in locations {
    ///         if rules.rewrite_fetch(location).is_rewritten() {
    ///             count = count.saturating_add(1);
    ///         }
    ///     }
    ///     count
    /// }
    /// ```
    pub fn is_rewritten(&self) -> bool
        ensures { result ≡ is_some self.now.base }
    {
        self.base.is_some()
    }

    /// Returns the whole text: the base, if there is one, and the rest.
    ///
    /// Allocates once, exactly the length of the text, and not at all if it is empty.
    /// [`Rewrites`](crate::rewrite::Rewrites) has an example.
    ///
    /// # Errors
    ///
    /// Returns `AllocError` if the allocation fails, or if the length of the text overflows.
    pub fn to_bstring(&self, alloc: Global) -> Result<BString, AllocError>
        ensures { IfOk result (λ text. bstring_bytes text ≡ outcome_text self.now) }
    {
        match self.base {
            None => join(alloc, b"", self.rest),
            Some(base) => join(alloc, base, self.rest),
        }
    }
}

/// Concatenates two texts.
fn join(alloc: Global, front: &[u8], rest: &[u8]) -> Result<BString, AllocError>
    ensures { IfOk result (λ text. bstring_bytes text ≡ front.now ++ rest.now) }
{
    let Some(size) = front.len().checked_add(rest.len()) else {
        return Err(AllocError);
    };
    let mut text = Vec::with_capacity(alloc, size)?;
    append_within(&mut text, front);
    append_within(&mut text, rest);
    Ok(BString::new(text))
}
