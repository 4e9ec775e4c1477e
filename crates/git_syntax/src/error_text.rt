//! The words of forms and faults in error messages.
//!
//! The words are those of the definitions, whatever width, precision and flags the formatter has.

ghost use Rattle.std.specs.Prelude.{Some};
ghost use Rattle.git_syntax.specs.ErrorText.{kind_words, url_fault_words};

use crate::refusal::{UrlFault, UrlKind};
use std::fmt;

impl fmt::Display for UrlKind {
    ghost output = { λ kind. Some (kind_words kind) };

    ghost styled_output = { λ kind _. Some (kind_words kind) };

    /// Writes `URL`, `scp form` or `local path`.
    fn fmt<W: fmt::Write>(&self, f: &mut fmt::Formatter<W>) -> fmt::Result {
        match self {
            UrlKind::Url => f.write_str("URL"),
            UrlKind::Scp => f.write_str("scp form"),
            UrlKind::Local => f.write_str("local path"),
        }
    }
}

impl fmt::Display for UrlFault {
    ghost output = { λ fault. Some (url_fault_words fault) };

    ghost styled_output = { λ fault _. Some (url_fault_words fault) };

    /// Writes the end of a sentence that begins with `the URL has` or `the scp form has`.
    fn fmt<W: fmt::Write>(&self, f: &mut fmt::Formatter<W>) -> fmt::Result {
        match self {
            UrlFault::NoScheme => f.write_str("no valid scheme"),
            UrlFault::BadPort => f.write_str("an invalid port"),
            UrlFault::BadCharacter => f.write_str("a character or an escape that is not allowed"),
            UrlFault::HostRequired => f.write_str("no host where one is required"),
        }
    }
}
