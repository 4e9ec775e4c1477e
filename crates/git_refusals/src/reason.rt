//! The reasons for which a text spells no location, and the error that each belongs to.

ghost use Rattle.std.specs.Prelude.{◌≡◌};
ghost use Rattle.git_refusals.specs.Kinds as spec;

use git_syntax::refusal::UrlFault;

/// The reason for which a text spells no location. `Display` writes it in one sentence, without a byte of the
/// text.
///
/// ```
/// fn wants_brackets(reason: Reason) -> bool {
///     matches!(reason, Reason::AddressWithoutBrackets)
/// }
/// ```
#[derive(Clone, Copy, Debug, PartialEq, Eq)]
pub enum Reason {
    /// The text is empty.
    Empty,
    /// The scheme is longer than 1,024 bytes.
    SchemeTooLong,
    /// More than 1,024 bytes follow `://` before the path.
    AuthorityTooLong,
    /// The text is not UTF-8.
    NotUtf8,
    /// A URL has white space.
    WhiteSpace,
    /// A `%` doesn't begin an escape.
    BrokenEscape,
    /// No scheme comes before `://`.
    SchemeMissing,
    /// A scheme doesn't begin with a letter of ASCII.
    SchemeStart,
    /// A scheme has a character other than a letter, a digit, `+`, `-` and `.`.
    SchemeCharacter,
    /// The host of the scp form has white space.
    WhiteSpaceInHost,
    /// An authority has a backslash.
    Backslash,
    /// The host of the scp form has a backslash.
    BackslashInHost,
    /// Bytes or escapes don't decode to UTF-8.
    EscapesNotUtf8,
    /// A bracket is not closed.
    UnclosedBracket,
    /// A closed bracket is followed by something other than a colon.
    BehindBracket,
    /// The text in the brackets of HTTP isn't an IPv6 literal.
    NotAnAddress,
    /// An IPv6 address of HTTP is not in brackets.
    AddressWithoutBrackets,
    /// The host of HTTP has a second colon.
    SecondColon,
    /// No host comes before the colon of a port of HTTP.
    HostBeforePort,
    /// A port isn't a decimal number.
    PortNotANumber,
    /// The host of HTTP has a character that isn't allowed.
    HostCharacter,
    /// A port is greater than 65,535.
    PortTooLarge,
    /// The port of HTTP is 0.
    PortZero,
    /// No host follows the user information.
    HostBehindUser,
    /// The scheme, or the scp form, needs a host.
    HostMissing,
    /// A URL of Git's own transports has no path.
    PathMissing,
    /// A file URL has no path.
    FilePathMissing,
    /// Nothing follows the colon of the scp form.
    ScpPathMissing,
}

/// The kind of the error with which a text is refused.
///
/// ```
/// fn has_bad_port(refusal: &Refusal) -> bool {
///     refusal.reason.kind() == RefusalKind::BadUrl(UrlFault::BadPort)
/// }
/// ```
#[derive(Clone, Copy, Debug, PartialEq, Eq)]
pub enum RefusalKind {
    /// The text is empty.
    EmptyLocal,
    /// The text needs a path and has none.
    MissingPath,
    /// The text is not UTF-8.
    NotUtf8,
    /// The scheme or the authority is too long.
    TooLong,
    /// The text isn't a URL, or the host of the scp form isn't valid.
    BadUrl(UrlFault),
}

impl Reason {
    /// The kind of the error with which a text is refused for this reason.
    ///
    /// ```
    /// fn is_of_a_port(reason: Reason) -> bool {
    ///     reason.kind() == RefusalKind::BadUrl(UrlFault::BadPort)
    /// }
    /// ```
    pub fn kind(self) -> RefusalKind
        ensures { result ≡ spec.kind_of self }
    {
        match self {
            Reason::Empty => RefusalKind::EmptyLocal,
            Reason::PathMissing | Reason::FilePathMissing | Reason::ScpPathMissing => {
                RefusalKind::MissingPath
            }
            Reason::NotUtf8 => RefusalKind::NotUtf8,
            Reason::SchemeTooLong | Reason::AuthorityTooLong => RefusalKind::TooLong,
            Reason::SchemeMissing | Reason::SchemeStart | Reason::SchemeCharacter => {
                RefusalKind::BadUrl(UrlFault::NoScheme)
            }
            Reason::PortNotANumber | Reason::PortTooLarge | Reason::PortZero => {
                RefusalKind::BadUrl(UrlFault::BadPort)
            }
            Reason::HostMissing => RefusalKind::BadUrl(UrlFault::HostRequired),
            Reason::WhiteSpace
            | Reason::BrokenEscape
            | Reason::WhiteSpaceInHost
            | Reason::Backslash
            | Reason::BackslashInHost
            | Reason::EscapesNotUtf8
            | Reason::UnclosedBracket
            | Reason::BehindBracket
            | Reason::NotAnAddress
            | Reason::AddressWithoutBrackets
            | Reason::SecondColon
            | Reason::HostBeforePort
            | Reason::HostCharacter
            | Reason::HostBehindUser => RefusalKind::BadUrl(UrlFault::BadCharacter),
        }
    }
}
