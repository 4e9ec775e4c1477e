//! The reasons in words: the table that every program and every binding shows.

ghost use Rattle.std.specs.Prelude.{◌≡◌, Some};
ghost use Rattle.git_refusals.specs.Words.{reason_name, reason_words};

use crate::reason::Reason;
use std::fmt;

impl Reason {
    /// The name of the reason, for output that programs read.
    ///
    /// ```
    /// fn is_listed(reason: Reason, name: &str) -> bool {
    ///     reason.name() == name // `PortZero` is one
    /// }
    /// ```
    pub fn name(self) -> &'static str
        ensures { result.now ≡ reason_name self }
    {
        match self {
            Reason::Empty => "Empty",
            Reason::SchemeTooLong => "SchemeTooLong",
            Reason::AuthorityTooLong => "AuthorityTooLong",
            Reason::NotUtf8 => "NotUtf8",
            Reason::WhiteSpace => "WhiteSpace",
            Reason::BrokenEscape => "BrokenEscape",
            Reason::SchemeMissing => "SchemeMissing",
            Reason::SchemeStart => "SchemeStart",
            Reason::SchemeCharacter => "SchemeCharacter",
            Reason::WhiteSpaceInHost => "WhiteSpaceInHost",
            Reason::Backslash => "Backslash",
            Reason::BackslashInHost => "BackslashInHost",
            Reason::EscapesNotUtf8 => "EscapesNotUtf8",
            Reason::UnclosedBracket => "UnclosedBracket",
            Reason::BehindBracket => "BehindBracket",
            Reason::NotAnAddress => "NotAnAddress",
            Reason::AddressWithoutBrackets => "AddressWithoutBrackets",
            Reason::SecondColon => "SecondColon",
            Reason::HostBeforePort => "HostBeforePort",
            Reason::PortNotANumber => "PortNotANumber",
            Reason::HostCharacter => "HostCharacter",
            Reason::PortTooLarge => "PortTooLarge",
            Reason::PortZero => "PortZero",
            Reason::HostBehindUser => "HostBehindUser",
            Reason::HostMissing => "HostMissing",
            Reason::PathMissing => "PathMissing",
            Reason::FilePathMissing => "FilePathMissing",
            Reason::ScpPathMissing => "ScpPathMissing",
        }
    }

    /// The reason in one sentence, without a byte of the text.
    ///
    /// ```
    /// fn are_long(reason: Reason) -> bool {
    ///     reason.words().len() > 80
    /// }
    /// ```
    pub fn words(self) -> &'static str
        ensures { result.now ≡ reason_words self }
    {
        match self {
            Reason::Empty => "the text is empty",
            Reason::SchemeTooLong => "the scheme is longer than 1024 bytes",
            Reason::AuthorityTooLong => {
                "more than 1024 bytes follow `://` before the path; slashes directly after `://` do not start one"
            }
            Reason::NotUtf8 => "these bytes are not UTF-8",
            Reason::WhiteSpace =>
                "white space is not allowed in a URL: remove it, or write a space as `%20`",
            Reason::BrokenEscape => "a `%` must be followed by two hexadecimal digits",
            Reason::SchemeMissing => "the scheme before `://` is missing",
            Reason::SchemeStart => "a scheme must begin with a letter from a to z",
            Reason::SchemeCharacter => {
                "only letters, digits, `+`, `-` and `.` are allowed in a scheme"
            }
            Reason::WhiteSpaceInHost => "white space is not allowed in a host",
            Reason::Backslash => "a backslash is not allowed in the authority",
            Reason::BackslashInHost => "a backslash is not allowed in a host",
            Reason::EscapesNotUtf8 => "these escapes decode to bytes that are not UTF-8",
            Reason::UnclosedBracket => "the host has a `[` and no `]`",
            Reason::BehindBracket => "only a `:` may follow the `]` of a host",
            Reason::NotAnAddress => {
                "the brackets must contain an IPv6 address, which may be followed by `%25` and a zone"
            }
            Reason::AddressWithoutBrackets => "an IPv6 address must be in brackets",
            Reason::SecondColon => {
                "a host can't contain a `:`: only the one before the port is allowed"
            }
            Reason::HostBeforePort => "the host before the `:` is missing",
            Reason::PortNotANumber => "a port must be a decimal number",
            Reason::HostCharacter => "this character is not allowed in the host of HTTP",
            Reason::PortTooLarge => "a port must be at most 65535",
            Reason::PortZero => "the port of HTTP must not be 0",
            Reason::HostBehindUser => "the host after the `@` is missing",
            Reason::HostMissing => "a host is required and there is none",
            Reason::PathMissing => "a path is required: write `/` and the path after the host",
            Reason::FilePathMissing => "a file URL needs a path: write `file:///path`",
            Reason::ScpPathMissing => "the path after the `:` is missing",
        }
    }
}

impl fmt::Display for Reason {
    ghost output = { λ reason. Some (reason_words reason) };

    ghost styled_output = { λ reason _. Some (reason_words reason) };

    /// Writes the reason in one sentence.
    fn fmt<W: fmt::Write>(&self, f: &mut fmt::Formatter<W>) -> fmt::Result {
        f.write_str(self.words())
    }
}
