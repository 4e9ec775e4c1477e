//! Parse errors: why a text spells no location, the form that it was read as, and its flaw. They contain
//! no byte of the text.

/// The form that a text was read as. `Display` names it, as in `the URL has no path`.
///
/// ```
/// fn is_scp(error: &Error) -> bool {
///     matches!(
///         error,
///         Error::MissingPath {
///             kind: UrlKind::Scp,
///             ..
///         }
///     )
/// }
/// ```
#[derive(Clone, Copy, Debug, PartialEq, Eq)]
pub enum UrlKind {
    /// A URL: the text has a `://`.
    Url,
    /// The form `user@host:path` of `scp`.
    Scp,
    /// A path of the local file system. The Rust crate's type has it too; no error of this library does.
    Local,
}

/// The flaw in a URL, or in the host of the scp form. `Display` writes it in words.
///
/// ```
/// fn has_bad_port(error: &Error) -> bool {
///     matches!(
///         error,
///         Error::BadUrl {
///             fault: UrlFault::BadPort,
///             ..
///         }
///     )
/// }
/// ```
#[derive(Clone, Copy, Debug, PartialEq, Eq)]
pub enum UrlFault {
    /// The text before `://` isn't a scheme.
    NoScheme,
    /// The text after the colon of a port isn't a port.
    BadPort,
    /// A byte or a character is not allowed, or an escape is malformed or doesn't decode to text.
    BadCharacter,
    /// The scheme, or the scp form, needs a host.
    HostRequired,
}

/// Why a text spells no location: a flaw of the text. If the text has several flaws, no clause says which one
/// is returned; `git_refusals` determines one reason and one place.
#[derive(Clone, Copy)]
pub enum Refusal {
    /// The text is empty.
    EmptyLocal,
    /// The text needs a path and has none.
    MissingPath {
        /// The form that the text was read as.
        kind: UrlKind,
    },
    /// The text is not UTF-8.
    NotUtf8 {
        /// The form that the text was read as.
        kind: UrlKind,
    },
    /// The scheme or the authority is too long.
    TooLong,
    /// The text isn't a URL, or the host of the scp form isn't valid.
    BadUrl {
        /// The form that the text was read as.
        kind: UrlKind,
        /// The flaw.
        fault: UrlFault,
    },
}
