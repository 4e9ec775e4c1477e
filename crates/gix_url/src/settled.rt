//! The test of the settled class, like that of the borrowed location.

ghost use Rattle.std.specs.Prelude.{◌↔◌, IsTrue};
ghost use Rattle.git_location.specs.Settled.{IsSettled, IsValue};

use crate::location::Url;

impl Url {
    /// Whether the location is of the settled class. Allocates nothing.
    ///
    /// The text of a settled location is read as a location with the same public fields and the same text
    /// ([`law_separation`](git_laws::laws::law_separation)). For local files, HTTP, `ext` and remote helpers
    /// no other location has this property, if its spelling isn't its path. For the other kinds some have: a
    /// location of `git` with the host `]` and the path `/p` is not settled, though its text is read as the
    /// same fields.
    ///
    /// This is a promise of this library's own reading, and none of Git's: `ssh://github.com/@[evil.com]/a` is
    /// settled with the host `github.com`, and Git connects to `evil.com`. Before a location is passed on, ask
    /// [`Url::is_unambiguous`], or for Git alone [`Url::agrees_with_git`].
    ///
    /// Most locations that are read are settled. Exceptions are `[host]::path`, whose text `host::path` names
    /// a remote helper, and locations that a program changed so that their text names another place.
    ///
    /// The clause `value` is the premise of `law_separation` and of the other laws.
    ///
    /// ```
    /// /// The text to store for a location, if this library reads it as the same.
    /// fn to_store(alloc: Global, url: &Url) -> Result<Option<BString>, Error> {
    ///     if !url.is_settled() {
    ///         return Ok(None);
    ///     }
    ///     Ok(Some(url.to_bstring(alloc)?))
    /// }
    /// ```
    pub fn is_settled(&self) -> bool
        ensures decided { IsTrue result ↔ IsSettled self.now }
        ensures value { IsValue self.now }
    {
        self.as_ref().is_settled()
    }
}
