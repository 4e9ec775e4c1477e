//! Schemes that own their name. Names are compared exactly.

ghost use Rattle.std.specs.Prelude.{◌≡◌, IfErr, IfOk, IsOk, true};
ghost use Rattle.git_syntax.specs.Internal.SchemeRules.{scheme_named};
ghost use Rattle.git_syntax.specs.Schemes.{scheme_of, scheme_text, default_port_of, is_known_scheme};
ghost use Rattle.git_syntax.specs.Views.{borrowed_scheme};
ghost use Rattle.gix_url.specs.Views.{owned_scheme};

use crate::error::Error;
use git_syntax::scheme::{KnownScheme, SchemeRef, scheme_of};
use serde::{Deserialize, Serialize};
use std::alloc::{AllocError, Global};
use std::fmt;

/// The scheme of a location.
///
/// ```
/// fn is_encrypted(scheme: &Scheme) -> bool {
///     matches!(scheme, Scheme::Ssh | Scheme::Https)
/// }
/// ```
#[derive(Debug, Drop, Serialize, Deserialize)]
pub enum Scheme {
    /// A path of the local file system, or a `file` URL.
    File,
    /// Git's own protocol.
    Git,
    /// Secure Shell.
    Ssh,
    /// HTTP.
    Http,
    /// HTTP, encrypted.
    Https,
    /// The remote helper `ext`, which runs a command.
    Ext,
    /// Another remote helper, by its name, as in `name::address`.
    Helper(String),
    /// The scheme of any other URL, which Git passes to the remote helper of that name.
    HelperUrl(String),
}

impl Scheme {
    /// The scheme of this text; letter case matters. `ssh+git` and `git+ssh` are `Ssh`; a text that isn't a known
    /// scheme is a `HelperUrl`. Allocates nothing for a known scheme, and else once for the text.
    ///
    /// # Errors
    ///
    /// [`Error::Memory`] if the text can't be copied.
    ///
    /// ```
    /// fn is_web(alloc: Global, name: &str) -> Result<bool, Error> {
    ///     let scheme = Scheme::from_text(alloc, name)?;
    ///     Ok(matches!(scheme, Scheme::Http | Scheme::Https)) // of `https`, but not of `HTTPS`
    /// }
    /// ```
    pub fn from_text(alloc: Global, text: &str) -> Result<Scheme, Error>
        ensures found { IfOk result (λ scheme. owned_scheme scheme ≡ scheme_of text.now) }
        ensures memory { IfErr result (λ e. e ≡ Error.Memory) }
        ensures known { is_known_scheme text.now ≡ true → IsOk result }
    {
        Ok(Scheme::of_known_scheme(alloc, scheme_of(text.as_bytes()), text)?)
    }

    /// The scheme with this text, which names the known scheme `named`. Allocates only for a scheme that isn't
    /// known.
    pub(crate) fn of_known_scheme(
        alloc: Global,
        named: KnownScheme,
        text: &str,
    ) -> Result<Scheme, AllocError>
        ensures found { IfOk result (λ scheme. owned_scheme scheme ≡ scheme_named named text.now) }
        ensures known { IfErr result (λ e. named ≡ KnownScheme.Other) }
    {
        match named {
            KnownScheme::File => Ok(Scheme::File),
            KnownScheme::Git => Ok(Scheme::Git),
            KnownScheme::Ssh => Ok(Scheme::Ssh),
            KnownScheme::Http => Ok(Scheme::Http),
            KnownScheme::Https => Ok(Scheme::Https),
            KnownScheme::Ext => Ok(Scheme::Ext),
            KnownScheme::Other => Ok(Scheme::HelperUrl(String::from_str(alloc, text)?)),
        }
    }

    /// The text that the scheme is written with. Allocates nothing. `ssh+git` and `git+ssh` are read as `ssh`.
    ///
    /// ```
    /// fn scheme_of(url: &Url) -> &str {
    ///     url.scheme.as_str() // `ssh` of `git@host:repo` and of `ssh+git://host/repo`
    /// }
    /// ```
    pub fn as_str(&self) -> &str
        ensures { result.now ≡ scheme_text (owned_scheme self.now) }
    {
        self.as_ref().as_str()
    }

    /// The port of a location with this scheme that names none: 80, 443, 22 or 9418. Allocates nothing.
    ///
    /// ```
    /// fn port_of(scheme: &Scheme) -> u16 {
    ///     scheme.default_port().unwrap_or(0) // 9418 of `Scheme::Git`, 0 of `Scheme::File`
    /// }
    /// ```
    pub fn default_port(&self) -> Option<u16>
        ensures { result ≡ default_port_of (owned_scheme self.now) }
    {
        self.as_ref().default_port()
    }

    /// The same scheme, borrowed. Allocates nothing.
    ///
    /// ```
    /// /// The place of a scheme and a host, the other parts of a location left out.
    /// fn service<'a>(scheme: &'a Scheme, host: &'a str) -> UrlRef<'a> {
    ///     UrlRef {
    ///         scheme: scheme.as_ref(),
    ///         user: None,
    ///         password: None,
    ///         host: Some(host),
    ///         serialize_alternative_form: false,
    ///         port: scheme.default_port(),
    ///         path: b"/",
    ///         spelling: None,
    ///     }
    /// }
    /// ```
    #[inline(always)]
    pub fn as_ref(&self) -> SchemeRef<'_>
        ensures { borrowed_scheme result ≡ owned_scheme self.now }
    {
        match self {
            Scheme::File => SchemeRef::File,
            Scheme::Git => SchemeRef::Git,
            Scheme::Ssh => SchemeRef::Ssh,
            Scheme::Http => SchemeRef::Http,
            Scheme::Https => SchemeRef::Https,
            Scheme::Ext => SchemeRef::Ext,
            Scheme::Helper(name) => SchemeRef::Helper(name.as_str()),
            Scheme::HelperUrl(name) => SchemeRef::HelperUrl(name.as_str()),
        }
    }
}

impl fmt::Display for Scheme {
    ghost use Rattle.std.specs.Prelude.{Some};

    ghost output = { λ scheme. Some (scheme_text (owned_scheme scheme)) };

    ghost styled_output = { λ scheme _. Some (scheme_text (owned_scheme scheme)) };

    /// Writes the text of [`Scheme::as_str`]. Width, precision and flags have no effect.
    fn fmt<W: fmt::Write>(&self, f: &mut fmt::Formatter<W>) -> fmt::Result {
        f.write_str(self.as_str())
    }
}
