//! Refusals: why a text spells no location, the form that it was read as, and the place of the flaw.

ghost use Rattle.std.specs.Prelude.{◌≡◌};
ghost use Rattle.git_refusals.specs.Kinds as spec;

use crate::place::Place;
use crate::reason::{Reason, RefusalKind};
use git_syntax::refusal::{UrlFault, UrlKind};
use thiserror::Error;

/// Why a text spells no location, and the place of its flaw: `len` bytes of the text from index `at`.
///
/// If the text has several flaws, the first in the order of checks is returned, so each text has at most one
/// refusal. A refusal owns nothing and contains no byte of the text. `Display` writes the reason in words.
///
/// ```
/// /// The end of the text that is wrong, from the flaw on.
/// fn from_flaw<'a>(text: &'a [u8], refusal: &Refusal) -> Option<&'a [u8]> {
///     text.get(refusal.at..)
/// }
/// ```
#[derive(Clone, Copy, Debug, Error, PartialEq, Eq)]
#[error("{reason}")]
pub struct Refusal {
    /// The form that the text was read as. For the empty text it is the local path.
    pub form: UrlKind,
    /// The reason.
    pub reason: Reason,
    /// The number of bytes of the text before the flaw.
    pub at: usize,
    /// The length of the flaw, in bytes. It is 0 if something is missing.
    pub len: usize,
}

impl Refusal {
    /// The refusal of a text that was read as this form.
    pub(crate) fn new(form: UrlKind, place: Place) -> Refusal
        ensures { result ≡ spec.refusal_of form place }
    {
        Refusal {
            form,
            reason: place.reason,
            at: place.at,
            len: place.len,
        }
    }

    /// The fault of the URL, or of the host of the scp form: `None` if the error isn't `BadUrl`.
    ///
    /// ```
    /// fn has_no_host(refusal: &Refusal) -> bool {
    ///     refusal.fault() == Some(UrlFault::HostRequired)
    /// }
    /// ```
    pub fn fault(&self) -> Option<UrlFault>
        ensures { result ≡ spec.fault_of self.now.reason }
    {
        match self.reason.kind() {
            RefusalKind::BadUrl(fault) => Some(fault),
            RefusalKind::EmptyLocal
            | RefusalKind::MissingPath
            | RefusalKind::NotUtf8
            | RefusalKind::TooLong => None,
        }
    }
}
