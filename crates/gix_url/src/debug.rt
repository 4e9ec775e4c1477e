//! `Debug` of locations and of errors, without the field `password` and without the texts in errors.
//!
//! A location shows every field except that one, which has the same replacement as in `Display`; an error shows
//! the length of the text that was refused, and never its bytes. Otherwise the format is that of a derived
//! `Debug`. Allocates nothing. The builders of std have no contract, so tests check their output.
//!
//! Nothing else is hidden. A secret may also be in a place that the grammar doesn't read as a password, and
//! `Debug` shows it there: as the user of `https://token@h/p`; in the host of `file://u:secret@h/p`, which is
//! `u:secret@h`; in the path of `u:secret@h:p`, which is `secret@h:p` on the host `u`; in the path of
//! `https://h/?token=secret`, and with escapes in the retained spelling too; in a local path and in the address
//! of a remote helper.

ghost use Rattle.std.specs.Prelude.{◌≡◌, length};
ghost use Rattle.bstr.specs.Owned.{bstring_bytes};

use crate::error::Error;
use crate::location::Url;
use bstr::BString;
use git_location::display::hidden_password;
use git_syntax::debug::Length;
use std::fmt;

impl fmt::Debug for Url {
    /// Writes all fields, with `redacted` in place of the field `password`.
    fn fmt<W: fmt::Write>(&self, f: &mut fmt::Formatter<W>) -> fmt::Result {
        f.debug_struct("Url")
            .field("scheme", &self.scheme)
            .field("user", &self.user)
            .field("password", &hidden_password(self.password.as_deref()))
            .field("host", &self.host)
            .field(
                "serialize_alternative_form",
                &self.serialize_alternative_form,
            )
            .field("port", &self.port)
            .field("path", &self.path)
            .field("spelling", &self.spelling)
            .finish()
    }
}

impl fmt::Debug for Error {
    /// Writes the fields, with the length of a text in place of its bytes.
    fn fmt<W: fmt::Write>(&self, f: &mut fmt::Formatter<W>) -> fmt::Result {
        match self {
            Error::Memory => f.write_str("Memory"),
            Error::EmptyLocal => f.write_str("EmptyLocal"),
            Error::MissingPath { .. }
            | Error::NotUtf8 { .. }
            | Error::TooLong { .. }
            | Error::BadUrl { .. } => show_refused(self, f),
            Error::HelperName { name } => f
                .debug_struct("HelperName")
                .field("name", &length_of(name))
                .finish(),
            Error::Unwritable(fault) => f.debug_tuple("Unwritable").field(fault).finish(),
            Error::NoHome(user) => f.debug_tuple("NoHome").field(user).finish(),
            Error::PathNotUtf8 => f.write_str("PathNotUtf8"),
            Error::Unresolved => f.write_str("Unresolved"),
        }
    }
}

/// Writes the fields of a parse error, and nothing for any other error.
fn show_refused<W: fmt::Write>(error: &Error, f: &mut fmt::Formatter<W>) -> fmt::Result {
    match error {
        Error::MissingPath { kind, input } => f
            .debug_struct("MissingPath")
            .field("kind", kind)
            .field("input", &length_of(input))
            .finish(),
        Error::NotUtf8 { kind, input } => f
            .debug_struct("NotUtf8")
            .field("kind", kind)
            .field("input", &length_of(input))
            .finish(),
        Error::TooLong { shown, total } => f
            .debug_struct("TooLong")
            .field("shown", &length_of(shown))
            .field("total", total)
            .finish(),
        Error::BadUrl { kind, fault, input } => f
            .debug_struct("BadUrl")
            .field("kind", kind)
            .field("fault", fault)
            .field("input", &length_of(input))
            .finish(),
        _ => Ok(()),
    }
}

/// The length of the bytes.
fn length_of(bytes: &BString) -> Length
    ensures { result.0 ≡ length (bstring_bytes bytes.now) }
{
    Length(bytes.len())
}
