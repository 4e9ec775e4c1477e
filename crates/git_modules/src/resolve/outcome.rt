//! A resolved URL: a [`Resolved`] of three slices, whose text is their concatenation.

ghost use Rattle.std.specs.Prelude.{◌≡◌, ◌++◌, IfOk};
ghost use Rattle.bstr.specs.Owned.{bstring_bytes};
ghost use Rattle.git_modules.specs.Resolve.{resolved_text};

use bstr::BString;
use git_syntax::bytes::append_within;
use std::alloc::{AllocError, Global};
use std::marker::Model;

/// A resolved URL, as [`resolve`](super::resolve) returns it. It borrows the parent and the URL.
///
/// ```
/// /// Whether a resolved URL has nothing of its parent.
/// fn is_alone(resolved: &Resolved<'_>) -> bool {
///     resolved.separator.is_empty() || resolved.front == b".".as_slice()
/// }
/// ```
#[derive(Drop)]
pub struct Resolved<'a> {
    /// The rest of the parent, or `.` if nothing is left and a `:` was removed.
    pub front: &'a [u8],
    /// `/`, or `:` if one was removed from the parent. Empty if nothing else is left of the parent, or if the URL
    /// isn't relative.
    pub separator: &'a [u8],
    /// The text after the steps in the URL, without one trailing `/`; all of a URL that isn't relative.
    pub rest: &'a [u8],
}

impl<'a> Model for Resolved<'a> {
    ghost use Rattle.git_modules.specs.Resolve.{Resolution};

    ghost Value = { Resolution };

    ghost use Rattle.git_modules.specs.ResolveViews.{parts};

    ghost view = { parts };
}

impl Resolved<'_> {
    /// Returns the whole text: the front, the separator and the rest.
    ///
    /// Allocates once, exactly the length of the text, and not at all if it is empty. [`resolve`](super::resolve)
    /// has an example.
    ///
    /// # Errors
    ///
    /// Returns `AllocError` if the allocation fails, or if the length of the text overflows.
    pub fn to_bstring(&self, alloc: Global) -> Result<BString, AllocError>
        ensures { IfOk result (λ text. bstring_bytes text ≡ resolved_text self.now) }
    {
        let Some(tail) = self.separator.len().checked_add(self.rest.len()) else {
            return Err(AllocError);
        };
        let Some(size) = self.front.len().checked_add(tail) else {
            return Err(AllocError);
        };
        let mut text = Vec::with_capacity(alloc, size)?;
        append_within(&mut text, self.front);
        append_within(&mut text, self.separator);
        append_within(&mut text, self.rest);
        Ok(BString::new(text))
    }
}
