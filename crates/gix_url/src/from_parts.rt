//! A location from its fields, whose text is written and then read.

ghost use Rattle.std.specs.Prelude.{◌≡◌, None, Some, IfErr, IfOk, option_map, string_bytes};
ghost use Rattle.bstr.specs.Owned.{bstring_bytes};
ghost use Rattle.gix_url.specs.FromParts.{BuiltFrom, ReportsName, invalid_name, keeping, of_parts, with_kept_path};
ghost use Rattle.gix_url.specs.Views.{owned_scheme};

use crate::error::Error;
use crate::location::{Url, law_value};
use crate::scheme::Scheme;
use bstr::BString;
use git_syntax::bytes::is_helper_name;
use std::alloc::Global;

impl Url {
    /// Writes the fields as one text, and returns the location that this text spells.
    ///
    /// The result may have other fields than the arguments: a `https` host `h` with the path `repo` is written
    /// `https://hrepo`, which names the host `hrepo`. Settled fields are returned unchanged, without a
    /// spelling. For `Http` and `Https` the path of the result is `path`, unless that is empty, and it has no
    /// spelling. If the text spells another path, the result may be unsettled (see [`Url::is_settled`]). The
    /// last argument requests the alternative form, which is not a URL, if the scheme has one; the result has
    /// the form of the text.
    ///
    /// A path of HTTP includes the query and the fragment. An IPv6 text of Secure Shell has no brackets. The
    /// port can be 0 except in HTTP. The user and the host can begin with `-`, so test them before they are
    /// passed to a command.
    ///
    /// Allocates once for the text, and then like [`crate::parse::parse`]. The arguments are consumed, even if
    /// an error is returned.
    ///
    /// ```
    /// /// A remote of a user on this host, by Secure Shell.
    /// fn remote(alloc: Global, user: String, host: String, path: BString) -> Result<Url, Error> {
    ///     Url::from_parts(alloc, Scheme::Ssh, Some(user), None, Some(host), None, path, false)
    /// }
    /// ```
    ///
    /// # Errors
    ///
    /// - [`Error::HelperName`] exactly for a remote helper whose name isn't valid, with that name. Allocates
    ///   nothing.
    /// - [`Error::Unwritable`] otherwise, exactly if the fields have no text. Allocates nothing.
    /// - The error of [`crate::parse::parse`] for the text, if that spells no location.
    /// - [`Error::Memory`] if an allocation fails. For settled fields this is the only error.
    #[allow(clippy::too_many_arguments)]
    pub fn from_parts(
        alloc: Global,
        scheme: Scheme,
        user: Option<String>,
        password: Option<String>,
        host: Option<String>,
        port: Option<u16>,
        path: BString,
        serialize_alternative_form: bool,
    ) -> Result<Url, Error>
        ensures { let input = of_parts (owned_scheme scheme) (option_map string_bytes user)
            (option_map string_bytes password)
            (option_map string_bytes host) port (bstring_bytes path) serialize_alternative_form in
            BuiltFrom input result }
    {
        let input = Url {
            scheme: check_scheme(scheme)?,
            user,
            password,
            host,
            serialize_alternative_form,
            port,
            path,
            spelling: None,
        };
        law_value(&input);
        let read = input.reread(alloc)?;
        Ok(keep_path(input, read))
    }
}

/// The scheme, unless it is a remote helper whose name is not a valid one.
fn check_scheme(scheme: Scheme) -> Result<Scheme, Error>
    ensures ok { IfOk result (λ s. s ≡ scheme) }
    ensures valid { IfOk result (λ s. invalid_name (owned_scheme s) ≡ None) }
    ensures named { IfErr result
        (λ e. (name : _) × (invalid_name (owned_scheme scheme) ≡ Some name) × ReportsName name e) }
{
    match scheme {
        Scheme::Helper(name) => {
            if is_helper_name(name.as_bytes()) {
                Ok(Scheme::Helper(name))
            } else {
                Err(invalid(name))
            }
        }
        other => Ok(other),
    }
}

/// The error that reports the name of a remote helper.
fn invalid(name: String) -> Error
    ensures { ReportsName (string_bytes name) result }
{
    let name = BString::new(name.into_bytes());
    Error::HelperName { name }
}

/// The location that was read from the text of the fields, with their path if it is kept.
fn keep_path(input: Url, read: Url) -> Url
    ensures { result ≡ keeping input.scheme input.path read }
{
    match input.scheme {
        Scheme::Http | Scheme::Https => with_kept_path(input.path, read),
        _ => read,
    }
}

/// The location that was read, with this path unless that is empty, and without a spelling.
fn with_kept_path(path: BString, mut read: Url) -> Url
    ensures { result ≡ with_kept_path (bstring_bytes path) read }
{
    read.spelling = None;
    if !path.is_empty() {
        read.path = path;
    }
    read
}
