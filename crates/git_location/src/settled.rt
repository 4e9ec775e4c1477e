//! The test of the settled class. The text of a location of this class is read as a location with the same
//! public fields and the same text.

ghost use Rattle.std.specs.Prelude.{◌≡◌, ◌↔◌, IsTrue, List, Ok, ℕ};
ghost use Rattle.git_syntax.specs.Location.{Location};
ghost use Rattle.git_syntax.specs.Location.Scheme.{helper};
ghost use Rattle.git_syntax.specs.SimpleTexts.{IsSimpleText};
ghost use Rattle.git_location.specs.Internal.Pieces.{AreOwn};
ghost use Rattle.git_location.specs.Settled.{IsSettled, IsSettledBy, IsValue};
ghost use Rattle.git_location.specs.Text.{text};

pub mod fields;
pub mod host;
mod length_check;
mod local;
mod scp;
pub mod url;

use crate::url_ref::UrlRef;
use crate::value::law_borrowed_value;
use crate::writer::piece::Pieces;
use git_syntax::scheme::SchemeRef;
use local::{is_settled_file, is_settled_helper, is_settled_local};
use scp::is_settled_scp;
use url::{is_settled_git, is_settled_helper_url, is_settled_secure, is_settled_web};

impl UrlRef<'_> {
    /// Whether the location is of the settled class, like [`Url::is_settled`].
    ///
    /// ```
    /// /// Writes the location if this library reads it as the same.
    /// fn write_settled(out: &mut Vec<u8>, url: &UrlRef<'_>) -> Result<bool, WriteError> {
    ///     if !url.is_settled() {
    ///         return Ok(false);
    ///     }
    ///     url.write_to(out)?;
    ///     Ok(true)
    /// }
    /// ```
    pub fn is_settled(&self) -> bool
        ensures decided { IsTrue result ↔ IsSettled self.now }
        ensures value { IsValue self.now }
    {
        law_borrowed_value(self);
        self.is_settled_as(None)
    }

    /// Whether the location is of the settled class. `laid` has the pieces of its text, if the caller has
    /// already laid them out. The result is unspecified if `laid` has the pieces of another text.
    pub fn is_settled_as(&self, laid: Option<&Pieces<'_>>) -> bool
        ensures { AreOwn laid.entry self.now → (IsTrue result ↔ IsSettled self.now) }
    {
        match self.scheme {
            SchemeRef::File => is_settled_local(self) || is_settled_file(self),
            SchemeRef::Ssh => is_settled_scp(self) || is_settled_secure(self, laid),
            SchemeRef::Git => is_settled_git(self, laid),
            SchemeRef::Http | SchemeRef::Https => is_settled_web(self, laid),
            SchemeRef::Ext => is_settled_helper(self, b"ext"),
            SchemeRef::Helper(name) => is_settled_named(self, name.as_bytes()),
            SchemeRef::HelperUrl(name) => is_settled_helper_url(self, laid, name.as_bytes()),
        }
    }
}

/// Whether the location is a settled remote helper of this name, which isn't `ext`.
fn is_settled_named(url: &UrlRef<'_>, name: &[u8]) -> bool
    ensures { IsTrue result ↔ IsSettledBy (helper name.now) url.now }
{
    is_settled_helper(url, name) && name != b"ext".as_slice()
}

/// The location of a simple text is settled, and the simple text is its text.
pub fn law_simple_texts()
    ensures settled { (b : List ℕ) (v : Location) → IsSimpleText b v → IsSettled v }
    ensures unchanged { (b : List ℕ) (v : Location) → IsSimpleText b v → text v ≡ Ok b }
{}
