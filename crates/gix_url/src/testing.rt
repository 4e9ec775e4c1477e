//! Values for tests: a location from its fields, without a check.

ghost use Rattle.std.specs.Prelude.{◌≡◌, option_map, string_bytes};
ghost use Rattle.bstr.specs.Owned.{bstring_bytes};
ghost use Rattle.gix_url.specs.FromParts.{of_parts};
ghost use Rattle.gix_url.specs.Views.{owned_scheme};

use crate::location::Url;
use crate::scheme::Scheme;
use bstr::BString;

/// Constructors of [`Url`] for tests only.
pub trait TestUrlExtension {
    /// The location with these fields and no retained spelling. Nothing is read, nothing is refused, and the
    /// location may have no text. Allocates nothing.
    ///
    /// ```
    /// fn without_host(path: BString) -> Url {
    ///     <Url as TestUrlExtension>::from_parts_unchecked(
    ///         Scheme::Https,
    ///         None,
    ///         None,
    ///         None,
    ///         None,
    ///         path,
    ///         false,
    ///     )
    /// }
    /// ```
    fn from_parts_unchecked(
        scheme: Scheme,
        user: Option<String>,
        password: Option<String>,
        host: Option<String>,
        port: Option<u16>,
        path: BString,
        serialize_alternative_form: bool,
    ) -> Url
        ensures { result ≡ of_parts (owned_scheme scheme) (option_map string_bytes user)
            (option_map string_bytes password) (option_map string_bytes host)
            port (bstring_bytes path) serialize_alternative_form };
}

impl TestUrlExtension for Url {
    fn from_parts_unchecked(
        scheme: Scheme,
        user: Option<String>,
        password: Option<String>,
        host: Option<String>,
        port: Option<u16>,
        path: BString,
        serialize_alternative_form: bool,
    ) -> Url {
        Url {
            scheme,
            user,
            password,
            host,
            serialize_alternative_form,
            port,
            path,
            spelling: None,
        }
    }
}
