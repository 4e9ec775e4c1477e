//! A line, and whether a part of it may be a secret, which is found once.

ghost use Rattle.std.specs.Prelude.{◌≡◌, IfOk, false, string_bytes};
ghost use Rattle.explain_report.specs.Secrets as spec;
ghost use Rattle.explain_report.specs.Secrets.{shown_of, text_shown};

use crate::text::lossy;
use crate::text::secret::{has_secret, shown_text};
use git_audit::secret::law::law_secrets;
use std::alloc::{AllocError, Global};

/// A line, and whether a part of it may be a secret.
#[derive(Clone, Copy)]
pub struct MarkedLine<'a> {
    /// The line.
    pub bytes: &'a [u8],
    has_secret: bool,
    ghost marked: { has_secret ≡ spec.has_secret bytes.now },
}

impl<'a> MarkedLine<'a> {
    /// Finds whether a part of the line may be a secret.
    pub fn of(line: &'a [u8]) -> MarkedLine<'a>
        ensures { result.bytes.now ≡ line.now }
    {
        MarkedLine {
            bytes: line,
            has_secret: has_secret(line),
        }
    }

    /// Whether a part of the line may be a secret.
    pub fn has_secret(self) -> bool
        ensures { result ≡ spec.has_secret self.entry.bytes.now }
    {
        self.has_secret
    }

    /// Returns the line as it is shown, with U+FFFD for bytes that aren't UTF-8. Allocates the result.
    pub fn shown_text(self, alloc: Global) -> Result<String, AllocError>
        ensures { IfOk result (λ shown. string_bytes shown ≡ text_shown self.entry.bytes.now) }
    {
        if self.has_secret {
            shown_text(alloc, self.bytes)
        } else {
            lossy(alloc, plain(self))
        }
    }
}

/// The line, which is shown as it is.
pub(crate) fn plain<'a>(line: MarkedLine<'a>) -> &'a [u8]
    requires { spec.has_secret line.bytes.now ≡ false }
    ensures { result.now ≡ shown_of line.entry.bytes.now }
{
    law_secrets();
    line.bytes
}
