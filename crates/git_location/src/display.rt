//! `Display` of borrowed locations: the text, with the field `password` hidden.
//!
//! If formatting succeeds, the output is the location's text with another password in place of its own, whatever
//! width, precision and flags the formatter has, if it doesn't indent. Two locations that differ only in their
//! passwords have the same output. If the location has no text, formatting fails and writes nothing.
//!
//! No contract says how much was written before a formatter failed: `fmt::Write` specifies a call only if it
//! returns `Ok`. Tests check that the output is a front of the right text.

ghost use Rattle.std.specs.Prelude.{◌≡◌, None, IsErr, option_map};
ghost use Rattle.std.specs.Fmt.{DisplaysOnOk, DisplaysStyledOnOk};
ghost use Rattle.git_location.specs.Display.{display, hidden_password};
ghost use Rattle.git_location.specs.Safeguards.{HidesPassword};

use crate::url_ref::UrlRef;
use crate::writer::show::show_pieces;
use itoa::Buffer;
use std::fmt;

impl fmt::Display for UrlRef<'_> {
    ghost output = { display };

    ghost styled_output = { λ url _. display url };

    /// Writes the output of `Display` of [`Url`], and fails if that does. Allocates nothing.
    ///
    /// ```
    /// fn log_line(alloc: Global, url: &UrlRef<'_>) -> Result<String, AllocError> {
    ///     format!(in alloc; "fetching {url}") // `fetching ssh://u:redacted@h/p`
    /// }
    /// ```
    fn fmt<W: fmt::Write>(&self, f: &mut fmt::Formatter<W>) -> fmt::Result
        ensures writes { DisplaysOnOk W.write_str_gives f.old result (display self.now) f.new }
        ensures styled { DisplaysStyledOnOk W.write_str_gives f.old result
            (display self.now) f.new }
        ensures fault { display self.now ≡ None → IsErr result }
        ensures untouched { display self.now ≡ None → f.new ≡ f.old }
    {
        let mut digits = Buffer::new();
        let password = hidden_password(self.password);
        match self.pieces(password, &mut digits) {
            Ok(pieces) => show_pieces(f, &pieces),
            Err(_) => Err(fmt::Error),
        }
    }
}

/// The text that is written in place of a password, or `None` if there is no password.
pub fn hidden_password(password: Option<&str>) -> Option<&str>
    ensures { option_map (λ p. p.now) result
        ≡ hidden_password (option_map (λ p. p.now) password.entry) }
{
    match password {
        None => None,
        Some(_) => Some("redacted"),
    }
}

/// Locations that differ only in their fields `password` have the same output, so if `Display` returns `Ok`,
/// the output says nothing about that field. The law doesn't cover the other fields, which may contain a
/// secret too.
pub fn law_hidden_password()
    ensures hidden { HidesPassword }
{}
