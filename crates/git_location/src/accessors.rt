//! Methods on the port and the path of a borrowed location.

ghost use Rattle.std.specs.Prelude.{◌≡◌, ◌↔◌, IsTrue, [], ◌∷◌};
ghost use Rattle.std.specs.Option.{option_or};
ghost use Rattle.git_syntax.specs.Bytes.{slash};
ghost use Rattle.git_syntax.specs.Schemes.{default_port_of};

use crate::url_ref::UrlRef;

impl UrlRef<'_> {
    /// The port, or the default port of the scheme, like [`Url::port_or_default`]; `None` if there is
    /// neither.
    ///
    /// ```
    /// fn has_usual_port(url: &UrlRef<'_>) -> bool {
    ///     url.port_or_default() == url.scheme.default_port() // of `https://host/repo` and `https://host:443/repo`
    /// }
    /// ```
    #[inline(always)]
    pub fn port_or_default(&self) -> Option<u16>
        ensures { result ≡ option_or self.now.port (default_port_of self.now.scheme) }
    {
        match self.port {
            Some(port) => Some(port),
            None => self.scheme.default_port(),
        }
    }

    /// Whether the path is `/`, like [`Url::path_is_root`].
    ///
    /// ```
    /// fn names_a_repository(url: &UrlRef<'_>) -> bool {
    ///     !url.path_is_root()
    /// }
    /// ```
    #[inline(always)]
    pub fn path_is_root(&self) -> bool
        ensures { IsTrue result ↔ (self.now.path ≡ slash ∷ []) }
    {
        self.path == b"/".as_slice()
    }
}
