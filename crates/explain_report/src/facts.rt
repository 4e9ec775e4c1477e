//! The facts of a location that several parts of a report need: its text, whether the location is read again from this
//! text, and whether Git is known to read the same.

ghost use Rattle.std.specs.Prelude.{IfOk};
ghost use Rattle.explain_report.specs.Facts.{AreFactsOf};

use bstr::BString;
use gix_url::{Error, Url, WriteFault};
use std::alloc::{AllocError, Global};

/// The facts of a location.
#[derive(Drop)]
pub(crate) struct Facts {
    /// The location's text, with the password, or the reason why there is none.
    pub(crate) text: Result<BString, WriteFault>,
    /// Whether the location's text is read as the location again.
    pub(crate) is_settled: bool,
    /// Whether Git is known to read the same place in the text.
    pub(crate) agrees_with_git: bool,
}

impl Facts {
    /// Returns the facts of this location.
    pub(crate) fn of(alloc: Global, url: &Url) -> Result<Facts, AllocError>
        ensures { IfOk result (AreFactsOf url.now) }
    {
        let text = match url.to_bstring(alloc) {
            Ok(text) => Ok(text),
            Err(Error::Unwritable(fault)) => Err(fault),
            Err(error) => {
                drop(error);
                return Err(AllocError);
            }
        };
        Ok(Facts {
            text,
            is_settled: url.is_settled(),
            agrees_with_git: url.agrees_with_git(),
        })
    }
}
