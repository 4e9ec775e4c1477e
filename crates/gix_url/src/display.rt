//! `Display` of locations, with the output of the borrowed location.

ghost use Rattle.std.specs.Prelude.{◌≡◌, None, IsErr};
ghost use Rattle.std.specs.Fmt.{DisplaysOnOk, DisplaysStyledOnOk};
ghost use Rattle.git_location.specs.Display.{display};

use crate::location::Url;
use std::fmt;

impl fmt::Display for Url {
    ghost output = { display };

    ghost styled_output = { λ url _. display url };

    /// Writes the text of the location with `redacted` in place of the field `password`, and U+FFFD in place of
    /// invalid UTF-8. A secret in another field is shown. Width, precision and flags have no effect. Fails if
    /// there is no such text, and then writes nothing; and if the formatter fails. Allocates nothing.
    ///
    /// ```
    /// fn log_line(alloc: Global, url: &Url) -> Result<String, AllocError> {
    ///     format!(in alloc; "fetching {url}") // `fetching ssh://u:redacted@h/p`
    /// }
    /// ```
    fn fmt<W: fmt::Write>(&self, f: &mut fmt::Formatter<W>) -> fmt::Result
        ensures writes { DisplaysOnOk W.write_str_gives f.old result (display self.now) f.new }
        ensures styled { DisplaysStyledOnOk W.write_str_gives f.old result
            (display self.now) f.new }
        ensures fault { display self.now ≡ None → IsErr result }
        ensures untouched { display self.now ≡ None → f.new ≡ f.old }
    {
        let borrowed = self.as_ref();
        borrowed.fmt(f)
    }
}
