//! The fields of a location: getters, setters, and the empty location. A setter changes no other field and
//! returns the old value.

ghost use Rattle.std.specs.Prelude.{◌≡◌, ◌↔◌, IsSome, IsTrue, [], ◌∷◌, false, option_map, string_bytes};
ghost use Rattle.std.specs.Option.{option_or};
ghost use Rattle.git_syntax.specs.Bytes.{slash};
ghost use Rattle.git_syntax.specs.Schemes.{default_port_of};
ghost use Rattle.git_syntax.specs.Location.{fields, path_alone};
ghost use Rattle.git_syntax.specs.Location.Scheme.{ssh};

use crate::location::Url;
use crate::scheme::Scheme;
use bstr::BString;
use std::alloc::Global;
use std::mem;

impl Url {
    /// The empty location: the scheme is Secure Shell, the path is empty, all other fields are missing, and the
    /// flag isn't set. Allocates nothing.
    ///
    /// Set its fields before use: unchanged it isn't settled, and its text is `ssh:///`.
    ///
    /// ```
    /// fn at_host(alloc: Global, host: String) -> Url {
    ///     let mut url = Url::default_in(alloc);
    ///     url.host = Some(host);
    ///     url
    /// }
    /// ```
    pub fn default_in(alloc: Global) -> Url
        ensures { result ≡ path_alone ssh false [] }
    {
        Url {
            scheme: Scheme::Ssh,
            user: None,
            password: None,
            host: None,
            serialize_alternative_form: false,
            port: None,
            path: BString::new(Vec::new(alloc)),
            spelling: None,
        }
    }

    /// The user, decoded, if there is one. It may be empty. Allocates nothing.
    ///
    /// A user may begin with `-`: pass it to a command by [`Url::user_as_argument`].
    ///
    /// ```
    /// fn is_git(url: &Url) -> bool {
    ///     url.user() == Some("git") // of `ssh://git@host/repo`
    /// }
    /// ```
    pub fn user(&self) -> Option<&str>
        ensures { option_map (λ t. t.now) result ≡ self.now.user }
    {
        self.user.as_deref()
    }

    /// The password, decoded, if there is one. Allocates nothing.
    ///
    /// Neither `Display` nor `Debug` shows this field, as [`Url`] describes. The text of the location contains it,
    /// unless there is no user.
    ///
    /// ```
    /// fn asks_for_password(url: &Url) -> bool {
    ///     url.user().is_some() && url.password().is_none() // of `https://user@host/repo`
    /// }
    /// ```
    pub fn password(&self) -> Option<&str>
        ensures { option_map (λ t. t.now) result ≡ self.now.password }
    {
        self.password.as_deref()
    }

    /// The host, if there is one. Allocates nothing.
    ///
    /// An IPv6 text has brackets as the field `host` of [`Url`] describes. A host may begin with `-`: pass it to a
    /// command by [`Url::host_as_argument`].
    ///
    /// ```
    /// fn is_on_github(url: &Url) -> bool {
    ///     url.is_unambiguous() && url.host() == Some("github.com") // not of `ssh://github.com/@[evil.com]/a`
    /// }
    /// ```
    pub fn host(&self) -> Option<&str>
        ensures { option_map (λ t. t.now) result ≡ self.now.host }
    {
        self.host.as_deref()
    }

    /// The port, or the default port of the scheme, if it has one. Allocates nothing.
    ///
    /// It may be 0: reading refuses that port only for HTTP.
    ///
    /// ```
    /// fn has_usual_port(url: &Url) -> bool {
    ///     url.port_or_default() == url.scheme.default_port() // of `https://host/repo` and `https://host:443/repo`
    /// }
    /// ```
    pub fn port_or_default(&self) -> Option<u16>
        ensures { result ≡ option_or self.now.port (default_port_of self.now.scheme) }
    {
        self.as_ref().port_or_default()
    }

    /// Whether the path is `/`. Allocates nothing.
    ///
    /// The path of `https://host`, whose text has none, is `/`. That of `https://host/?x` isn't: an HTTP path
    /// includes the query and the fragment.
    ///
    /// ```
    /// fn names_a_repository(url: &Url) -> bool {
    ///     !url.path_is_root()
    /// }
    /// ```
    pub fn path_is_root(&self) -> bool
        ensures { IsTrue result ↔ (self.now.path ≡ slash ∷ []) }
    {
        self.as_ref().path_is_root()
    }

    /// Whether the location retains an escaped spelling of its path. Allocates nothing.
    ///
    /// Reading retains the escaped path if it has an escape. The spelling isn't a public field, but equality,
    /// order and hash depend on it, and the text of the location contains it if it still decodes to the path.
    /// Without a spelling, the location is determined by its public fields: two such locations with the same
    /// fields are equal.
    ///
    /// ```
    /// fn is_plain(alloc: Global, text: &str) -> Result<bool, Error> {
    ///     let url = Url::from_text(alloc, text)?;
    ///     Ok(!url.has_spelling()) // of `https://host/my`, but not of `https://host/%6dy`
    /// }
    /// ```
    pub fn has_spelling(&self) -> bool
        ensures retained { IsTrue result ↔ IsSome self.now.spelling }
        ensures bare { result ≡ false → fields self.now ≡ self.now }
    {
        self.spelling.is_some()
    }

    /// Stores another user, or none, and returns the old one. Allocates nothing. No other field changes.
    ///
    /// Afterwards the location may have no text: a user without a host has none.
    ///
    /// ```
    /// fn as_git(alloc: Global, url: &mut Url) -> Result<Option<String>, AllocError> {
    ///     let git = String::from_str(alloc, "git")?;
    ///     Ok(url.set_user(Some(git)))
    /// }
    /// ```
    pub fn set_user(&mut self, user: Option<String>) -> Option<String>
        ensures stored { self.new ≡ record self.old { user = option_map string_bytes user } }
        ensures before { option_map string_bytes result ≡ self.old.user }
    {
        mem::replace(&mut self.user, user)
    }

    /// Stores another password, or none, and returns the old one. Allocates nothing. No other field changes.
    ///
    /// A password without a user is not written.
    ///
    /// ```
    /// fn without_password(url: &mut Url) {
    ///     let _ = url.set_password(None);
    /// }
    /// ```
    pub fn set_password(&mut self, password: Option<String>) -> Option<String>
        ensures stored { self.new
            ≡ record self.old { password = option_map string_bytes password } }
        ensures before { option_map string_bytes result ≡ self.old.password }
    {
        mem::replace(&mut self.password, password)
    }

    /// The same location with this flag for the alternative form, which is not a URL. Allocates nothing.
    ///
    /// `file:///path` is then written as `/path`, and `ssh://host/path` as `host:/path`. If a location has no
    /// such form, as with a port, its text stays the same.
    ///
    /// ```
    /// fn as_path(alloc: Global) -> Result<BString, Error> {
    ///     let url = Url::from_text(alloc, "file:///path")?.with_request_alternate_form(true);
    ///     url.to_bstring(alloc) // `/path`
    /// }
    /// ```
    pub fn with_request_alternate_form(mut self, flag: bool) -> Url
        ensures { result ≡ record self { flag = flag } }
    {
        self.serialize_alternative_form = flag;
        self
    }
}
