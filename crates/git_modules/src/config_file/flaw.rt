//! The reasons why a text is not the text of a configuration file.

use std::alloc::AllocError;
use thiserror::Error;

/// The reason why Git can't read a text as a configuration ("bad config line" in `config.c` of Git 2.39.5).
/// [`Flaw::ZeroByte`] is only an error here.
///
/// ```
/// /// Whether Git reads the text up to a byte 0 and goes on.
/// fn is_cut_by_git(error: FileError) -> bool {
///     matches!(error, FileError::Refused { flaw: Flaw::ZeroByte, at: _, line: _ })
/// }
/// ```
#[derive(Clone, Copy, Debug, Drop, PartialEq, Eq, Error)]
pub enum Flaw {
    /// The text begins with an incomplete byte order mark.
    #[error("a part of a byte order mark")]
    PartialMark,
    /// A byte begins neither a header, a name, a comment nor white space.
    #[error("a byte that begins neither a header nor a name")]
    NoStart,
    /// The header has neither a section nor a subsection.
    #[error("a header without a section")]
    NoSection,
    /// The byte after the section in a header is neither `]` nor white space nor a byte of a section; or the text
    /// ends there.
    #[error("a byte that can't be in a section")]
    BadSection,
    /// The byte after the section and white space in a header isn't `"`.
    #[error("a subsection without a quote")]
    NoQuote,
    /// The line ends within the subsection.
    #[error("a subsection without an end")]
    OpenSubsection,
    /// The byte after the subsection in a header isn't `]`.
    #[error("a header without an end")]
    OpenHeader,
    /// The byte after a name isn't `=`, and the line doesn't end there.
    #[error("a name without an equals sign")]
    NoEquals,
    /// A `\` in a value doesn't begin a valid escape.
    #[error("an unknown escape")]
    BadEscape,
    /// The line ends within quotes in a value.
    #[error("a value without its last quote")]
    OpenQuote,
    /// A subsection or a value contains a byte 0, at which Git truncates it and reads on.
    #[error("a byte 0")]
    ZeroByte,
}

/// An error of [`entries`](super::entries). [`Flaw`] has an example.
#[derive(Clone, Copy, Debug, Drop, PartialEq, Eq, Error)]
pub enum FileError {
    /// An allocation failed.
    #[error("memory was refused")]
    Memory,
    /// The buffer is shorter than the text.
    #[error("the buffer is shorter than the text")]
    ShortBuffer,
    /// The text isn't that of a configuration file, from its first error on.
    #[error("line {line}: {flaw}")]
    Refused {
        /// The reason.
        flaw: Flaw,
        /// The byte offset of the faulty byte, or the length of the text if something is missing at its end.
        at: usize,
        /// The number of the line, counted from 1, that Git names. It is the line of the byte, or the next one: for
        /// [`Flaw::PartialMark`] and [`Flaw::OpenHeader`] if a line ends at the byte, for [`Flaw::BadSection`] if
        /// the text ends there, and for [`Flaw::OpenQuote`] if the text ends after a `\`.
        line: usize,
    },
}

impl From<AllocError> for FileError {
    ghost use Rattle.std.specs.Prelude.{◌≡◌};
    ghost use Rattle.git_modules.specs.declared.config_file.flaw.FileError.TheVariants.{Memory};

    ghost from_gives = { λ _ e. e ≡ Memory };

    fn from(_error: AllocError) -> FileError {
        FileError::Memory
    }
}
