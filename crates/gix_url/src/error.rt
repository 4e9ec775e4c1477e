//! The errors of the library.
//!
//! A call returns only errors that its contract names. The words of an error contain no byte of the text that
//! was refused, which may have a password; those of `TooLong` report its length.

ghost use Rattle.std.specs.Prelude.{◌≡◌, ◌≢◌, ◌↔◌, ℕ, IsTrue, List, None};
ghost use Rattle.gix_url.specs.Flaws.{Flaw, IsNotOfReading, ReturnsRefusal};

use crate::home_user::ForUser;
use bstr::BString;
use git_location::write_error::WriteFault;
use git_parts::front::refusal_of_front;
use git_refusals::read::refusal_of;
use git_refusals::refusal::Refusal;
use git_syntax::refusal::{UrlFault, UrlKind};
use std::alloc::AllocError;
use thiserror::Error;

/// The error of a call: a text or a value was refused, or an allocation failed.
///
/// `Display` writes it in words, `Debug` by its fields. Neither shows bytes of a text that was refused, which
/// may have a password (tested, not proved). `Debug` shows the number of these bytes, but the user of
/// `NoHome` unchanged. The bytes are in the fields.
///
/// [`Error::refusal`] returns the place and the reason of the flaw in the text of a parse error.
///
/// ```
/// /// Whether the same text can be read at another time: nothing is wrong with it.
/// fn is_passing(error: &Error) -> bool {
///     matches!(error, Error::Memory)
/// }
/// ```
#[derive(Drop, Error)]
pub enum Error {
    /// An allocation failed.
    #[error("out of memory")]
    Memory,
    /// The text is empty.
    #[error("the location is empty")]
    EmptyLocal,
    /// The text needs a path and has none.
    #[error("the {kind} has no path")]
    MissingPath {
        /// The form that the text was read as.
        kind: UrlKind,
        /// The text.
        input: BString,
    },
    /// The text is not UTF-8.
    #[error("the {kind} is not UTF-8")]
    NotUtf8 {
        /// The form that the text was read as.
        kind: UrlKind,
        /// The text.
        input: BString,
    },
    /// The scheme or the authority is too long.
    #[error("the scheme or the authority of the URL is longer than 1024 bytes, in a text of {total} bytes")]
    TooLong {
        /// The front of the text: the scheme, `://` and the 1,024 bytes after it, or the whole text if it is
        /// shorter.
        shown: BString,
        /// The length of the text, in bytes.
        total: usize,
    },
    /// The text isn't a URL, or the host of the scp form isn't valid.
    #[error("the {kind} has {fault}")]
    BadUrl {
        /// The form that the text was read as.
        kind: UrlKind,
        /// The fault.
        fault: UrlFault,
        /// The text.
        input: BString,
    },
    /// The name of the remote helper isn't valid.
    #[error("the remote helper has no valid name")]
    HelperName {
        /// The name.
        name: BString,
    },
    /// The location has no text.
    #[error("the location can't be written: {0}")]
    Unwritable(WriteFault),
    /// No home folder is known for the user.
    #[error("no home folder is known for the user")]
    NoHome(ForUser),
    /// A path that must be text isn't UTF-8.
    #[error("the path isn't UTF-8")]
    PathNotUtf8,
    /// The path could not be resolved.
    #[error("the path can't be resolved")]
    Unresolved,
}

impl Error {
    /// Whether an allocation failed. No other error is returned for that, and this one says nothing about the
    /// input: the same call can succeed later. Allocates nothing.
    ///
    /// ```
    /// /// Whether something is wrong with what was given, and not that memory was refused.
    /// fn is_refusal(error: &Error) -> bool {
    ///     !error.is_memory()
    /// }
    /// ```
    pub fn is_memory(&self) -> bool
        ensures { IsTrue result ↔ (self.now ≡ Error.Memory) }
    {
        matches!(self, Error::Memory)
    }
}

impl Error {
    /// The reason and the place of the flaw in the text of a parse error: the one [`Refusal`] of that text,
    /// even if the text is too long and the error has only its front. `None` for any other error, and for one
    /// that a program built with a text that spells a location. The text is read again. Allocates nothing.
    ///
    /// ```
    /// /// How many bytes of a text are before what is wrong with it.
    /// fn place_of(error: &Error) -> Option<usize> {
    ///     let refusal = error.refusal()?;
    ///     Some(refusal.at) // 9 of `http://h:abc/`, whose port is no number
    /// }
    /// ```
    pub fn refusal(&self) -> Option<Refusal>
        ensures read { (b : List ℕ) → self.now ≢ Error.Memory → Flaw b self.now → ReturnsRefusal b result }
        ensures none { IsNotOfReading self.now → result ≡ None }
    {
        match self {
            Error::EmptyLocal => refusal_of(b""),
            Error::MissingPath { input, .. }
            | Error::NotUtf8 { input, .. }
            | Error::BadUrl { input, .. } => refusal_of(input.as_bytes()),
            Error::TooLong { shown, .. } => refusal_of_front(shown.as_bytes()),
            Error::Memory
            | Error::HelperName { .. }
            | Error::Unwritable(_)
            | Error::NoHome(_)
            | Error::PathNotUtf8
            | Error::Unresolved => None,
        }
    }
}

impl From<AllocError> for Error {
    ghost use Rattle.gix_url.specs.declared.error.Error.TheVariants.{Memory};

    ghost from_gives = { λ _ e. e ≡ Memory };

    fn from(_: AllocError) -> Error {
        Error::Memory
    }
}
