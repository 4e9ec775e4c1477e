//! Schemes: the known ones, and all others by name. Names are compared exactly.

ghost use Rattle.std.specs.Prelude.{◌≡◌, bytes_eq};
ghost use Rattle.git_syntax.specs.Grammar.{helper_scheme};
ghost use Rattle.git_syntax.specs.Internal.SchemeRules.{scheme_named};
ghost use Rattle.git_syntax.specs.Schemes.{scheme_of, scheme_text, default_port_of, is_known_scheme, is_ssh_scheme, is_web_scheme};
ghost use Rattle.git_syntax.specs.Schemes.{is_ftp};
ghost use Rattle.git_syntax.specs.Views.{borrowed_scheme};

/// The scheme of a borrowed location: a [`Scheme`] whose name is a slice.
///
/// ```
/// fn is_encrypted(scheme: SchemeRef<'_>) -> bool {
///     matches!(scheme, SchemeRef::Ssh | SchemeRef::Https)
/// }
/// ```
#[derive(Clone, Copy)]
pub enum SchemeRef<'a> {
    /// A path of the local file system, or a `file` URL.
    File,
    /// Git's own protocol.
    Git,
    /// Secure Shell.
    Ssh,
    /// HTTP.
    Http,
    /// HTTP, encrypted.
    Https,
    /// The remote helper `ext`, which runs a command.
    Ext,
    /// Another remote helper, by its name, as in `name::address`.
    Helper(&'a str),
    /// The scheme of any other URL, which Git passes to the remote helper of that name.
    HelperUrl(&'a str),
}

impl<'a> SchemeRef<'a> {
    /// The scheme with this text, which names the known scheme `named`.
    pub fn of_known_scheme(named: KnownScheme, text: &'a str) -> SchemeRef<'a>
        ensures { borrowed_scheme result ≡ scheme_named named text.now }
    {
        match named {
            KnownScheme::File => SchemeRef::File,
            KnownScheme::Git => SchemeRef::Git,
            KnownScheme::Ssh => SchemeRef::Ssh,
            KnownScheme::Http => SchemeRef::Http,
            KnownScheme::Https => SchemeRef::Https,
            KnownScheme::Ext => SchemeRef::Ext,
            KnownScheme::Other => SchemeRef::HelperUrl(text),
        }
    }

    /// The text that the scheme is written with, like [`Scheme::as_str`].
    ///
    /// ```
    /// /// The protocol of a location, for as long as the location is borrowed.
    /// fn scheme_of<'a>(url: &UrlRef<'a>) -> &'a str {
    ///     url.scheme.as_str() // `ssh` of `git@host:repo`
    /// }
    /// ```
    pub fn as_str(self) -> &'a str
        ensures { result.now ≡ scheme_text (borrowed_scheme self.entry) }
    {
        match self {
            SchemeRef::File => "file",
            SchemeRef::Git => "git",
            SchemeRef::Ssh => "ssh",
            SchemeRef::Http => "http",
            SchemeRef::Https => "https",
            SchemeRef::Ext => "ext",
            SchemeRef::Helper(name) => name,
            SchemeRef::HelperUrl(name) => name,
        }
    }

    /// The default port of the scheme, if it has one, like [`Scheme::default_port`].
    ///
    /// ```
    /// fn port_of(scheme: SchemeRef<'_>) -> u16 {
    ///     scheme.default_port().unwrap_or(0) // 9418 of `SchemeRef::Git`, 0 of `SchemeRef::File`
    /// }
    /// ```
    #[inline(always)]
    pub fn default_port(self) -> Option<u16>
        ensures { result ≡ default_port_of (borrowed_scheme self.entry) }
    {
        match self {
            SchemeRef::Http => Some(80),
            SchemeRef::Https => Some(443),
            SchemeRef::Ssh => Some(22),
            SchemeRef::Git => Some(9418),
            SchemeRef::File | SchemeRef::Ext | SchemeRef::Helper(_) | SchemeRef::HelperUrl(_) =>
                None,
        }
    }
}

/// Returns the scheme of a remote helper with this name.
pub fn helper_scheme(name: &str) -> SchemeRef<'_>
    ensures { borrowed_scheme result ≡ helper_scheme name.now }
{
    match name.as_bytes() {
        b"ext" => SchemeRef::Ext,
        _ => SchemeRef::Helper(name),
    }
}

/// The known schemes, and one variant for all others. Names are compared byte for byte.
#[derive(Clone, Copy)]
pub enum KnownScheme {
    /// The local file system.
    File,
    /// Git's own protocol.
    Git,
    /// Secure Shell.
    Ssh,
    /// HTTP.
    Http,
    /// HTTP, encrypted.
    Https,
    /// The remote helper `ext`.
    Ext,
    /// Any other scheme: its text is its name.
    Other,
}

/// The known scheme of which the text is the name, or `Other`.
pub fn scheme_of(text: &[u8]) -> KnownScheme
    ensures { scheme_named result text.now ≡ scheme_of text.now }
{
    match text {
        b"https" => KnownScheme::Https,
        b"ssh" => KnownScheme::Ssh,
        b"file" => KnownScheme::File,
        b"git" => KnownScheme::Git,
        b"http" => KnownScheme::Http,
        b"ext" => KnownScheme::Ext,
        _ if is_ssh_scheme(text) => KnownScheme::Ssh,
        _ => KnownScheme::Other,
    }
}

/// Whether the text is the name of a known scheme.
pub fn is_known_scheme(text: &[u8]) -> bool
    ensures { result ≡ is_known_scheme text.now }
{
    is_ssh_scheme(text)
        || is_web_scheme(text)
        || is_named(text, "file")
        || is_named(text, "git")
        || is_named(text, "ext")
}

/// Whether the text is one of the names of Secure Shell.
fn is_ssh_scheme(text: &[u8]) -> bool
    ensures { result ≡ is_ssh_scheme text.now }
{
    is_named(text, "ssh") || is_named(text, "ssh+git") || is_named(text, "git+ssh")
}

/// Whether the text is a name of HTTP, with or without encryption.
pub(crate) fn is_web_scheme(text: &[u8]) -> bool
    ensures { result ≡ is_web_scheme text.now }
{
    is_named(text, "http") || is_named(text, "https")
}

/// Whether the text is one of the names of FTP, whose URLs need a host.
pub fn is_ftp(text: &[u8]) -> bool
    ensures { result ≡ is_ftp text.now }
{
    is_named(text, "ftp") || is_named(text, "ftps")
}

/// Whether the text is exactly the name.
fn is_named(text: &[u8], name: &str) -> bool
    ensures { result ≡ bytes_eq text.now name.now }
{
    text == name.as_bytes()
}
