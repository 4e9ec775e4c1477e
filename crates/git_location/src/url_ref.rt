//! The type of borrowed locations, [`UrlRef`]. In contracts it is the same value of eight fields as a
//! [`Url`].

use git_syntax::scheme::SchemeRef;
use std::marker::Model;

/// A Git location whose fields are borrowed, from a [`Url`] or from any other texts.
///
/// In contracts it is a value of eight fields, as a `Url` is: the fields below. A program may set them
/// itself; [`UrlRef::is_settled`] reports whether the location is settled. A `UrlRef` owns nothing, and none
/// of its methods allocates. Slices that they return live for `'a`. `Display` writes `redacted` in place of
/// the field `password`, like that of `Url`; there is no `Debug`.
///
/// ```
/// /// Writes the location of a repository on a host, without a copy of either, if Git reads the same place in it.
/// fn write_remote(out: &mut Vec<u8>, host: &str, path: &str) -> Result<bool, WriteError> {
///     let remote = UrlRef {
///         scheme: SchemeRef::Https,
///         user: None,
///         password: None,
///         host: Some(host),
///         serialize_alternative_form: false,
///         port: None,
///         path: path.as_bytes(),
///         spelling: None,
///     };
///     if !agrees_with_git(&remote) {
///         return Ok(false); // of `github.com/@evil.com`, which no text names
///     }
///     remote.write_to(out)?; // `https://host/my%20repo` of `host` and `/my repo`
///     Ok(true)
/// }
/// ```
#[derive(Drop)]
pub struct UrlRef<'a> {
    /// The scheme.
    pub scheme: SchemeRef<'a>,
    /// The user, decoded.
    pub user: Option<&'a str>,
    /// The password, decoded. It is not written without a user.
    pub password: Option<&'a str>,
    /// The host, with or without brackets as in a `Url`.
    pub host: Option<&'a str>,
    /// Whether to write the alternative form, which is not a URL.
    pub serialize_alternative_form: bool,
    /// The port.
    pub port: Option<u16>,
    /// The path, decoded. It may be any bytes.
    pub path: &'a [u8],
    /// The escaped spelling of the path, if there is one. It is used while it decodes to the path.
    pub spelling: Option<&'a [u8]>,
}

impl<'a> Model for UrlRef<'a> {
    ghost use Rattle.git_syntax.specs.Location.{Location};

    ghost Value = { Location };

    ghost use Rattle.git_location.specs.UrlRef.{borrowed_location};

    ghost view = { borrowed_location };
}
