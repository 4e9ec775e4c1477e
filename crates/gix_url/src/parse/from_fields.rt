//! Builds a [`Url`] from its fields. All other modules of `parse` call these functions for that.

ghost use Rattle.std.specs.Prelude.{◌≡◌, option_map, string_bytes};
ghost use Rattle.bstr.specs.Owned.{bstring_bytes};
ghost use Rattle.git_syntax.specs.Location.{path_alone};
ghost use Rattle.gix_url.specs.Views.{owned_scheme};

use crate::location::Url;
use crate::scheme::Scheme;
use bstr::BString;

/// A location with these fields.
#[allow(clippy::too_many_arguments)]
pub(super) fn from_fields(
    scheme: Scheme,
    user: Option<String>,
    password: Option<String>,
    host: Option<String>,
    flag: bool,
    port: Option<u16>,
    path: BString,
    spelling: Option<BString>,
) -> Url
    ensures { result ≡ record {
      scheme = owned_scheme scheme;
      user = option_map string_bytes user;
      password = option_map string_bytes password;
      host = option_map string_bytes host;
      flag = flag;
      port = port;
      path = bstring_bytes path;
      spelling = option_map bstring_bytes spelling;
    } }
{
    Url {
        scheme,
        user,
        password,
        host,
        serialize_alternative_form: flag,
        port,
        path,
        spelling,
    }
}

/// A location without a password, a port and a spelling.
pub(super) fn plain_location(
    scheme: Scheme,
    user: Option<String>,
    host: Option<String>,
    flag: bool,
    path: BString,
) -> Url
    ensures { result ≡ record (path_alone (owned_scheme scheme) flag (bstring_bytes path)) {
      user = option_map string_bytes user;
      host = option_map string_bytes host;
    } }
{
    Url {
        scheme,
        user,
        password: None,
        host,
        serialize_alternative_form: flag,
        port: None,
        path,
        spelling: None,
    }
}

/// A location of this scheme, flag and path only.
pub(super) fn path_alone(scheme: Scheme, flag: bool, path: BString) -> Url
    ensures { result ≡ path_alone (owned_scheme scheme) flag (bstring_bytes path) }
{
    plain_location(scheme, None, None, flag, path)
}
