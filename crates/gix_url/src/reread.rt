//! Reads a location again from its own text.

ghost use Rattle.std.specs.Prelude.{◌≡◌, ℕ, List, Ok, Err};
ghost use Rattle.git_location.specs.declared.write_error.WriteFault.{WriteFault};
ghost use Rattle.gix_url.specs.Readings.{Reads, ReadsAgain};
ghost use Rattle.git_location.specs.Settled.{IsSettled};
ghost use Rattle.git_location.specs.Text.{text};

use crate::error::Error;
use crate::location::Url;
use crate::parse::parse;
use std::alloc::Global;

impl Url {
    /// Reads the text of the location by [`parse`].
    ///
    /// A settled location (see [`Url::is_settled`]) is read as a location with the same public fields and the
    /// same text, which is settled again. Any other may be read as another location or be refused: after a
    /// program changed a field, the text can name another host, or there may be no text. The retained
    /// spelling of the path is that of the text, so the result need not be equal to the location:
    /// `http://h/a<b` is read without a spelling, and its text `http://h/a%3Cb` with one.
    ///
    /// Allocates once for the text, and then like [`parse`].
    ///
    /// ```
    /// /// Whether this library reads the path of the location again in its text.
    /// fn keeps_path(alloc: Global, url: &Url) -> Result<bool, Error> {
    ///     let read = url.reread(alloc)?;
    ///     Ok(read.path.as_bytes() == url.path.as_bytes())
    /// }
    /// ```
    ///
    /// # Errors
    ///
    /// - [`Error::Unwritable`] exactly if the location has no text. Allocates nothing.
    /// - The error of [`parse`] for the text, if that spells no location.
    /// - [`Error::Memory`] if an allocation fails. For a settled location this is the only error.
    pub fn reread(&self, alloc: Global) -> Result<Url, Error>
        ensures read { (t : List ℕ) → text self.now ≡ Ok t → Reads t result }
        ensures fault { (f : WriteFault) → text self.now ≡ Err f → result
            ≡ Err (Error.Unwritable f) }
        ensures settled { IsSettled self.now → ReadsAgain self.now result }
    {
        match self.to_bstring(alloc) {
            Ok(text) => parse(alloc, text.as_bstr()),
            Err(error) => Err(error),
        }
    }
}
