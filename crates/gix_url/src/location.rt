//! The type of locations, [`Url`], and the same location borrowed. In contracts both are one value of eight
//! fields.

ghost use Rattle.std.specs.Prelude.{◌≡◌};
ghost use Rattle.git_location.specs.Settled.{IsValue};

use crate::scheme::Scheme;
use bstr::BString;
use git_location::url_ref::UrlRef;
use git_location::value::law_borrowed_value;
use std::marker::Model;

/// A Git location: a URL, a location in the scp form, a local path or the address of a remote helper.
///
/// In contracts it is one value of eight fields: those below, and the retained spelling of the path.
///
/// A program may change the fields. Afterwards a location may have no text, or one that is read as something else:
/// [`Url::is_settled`] reports this. `Display` shows `redacted` in place of the field `password`
/// ([`law_hidden_password`](crate::laws::law_hidden_password), for a formatter that doesn't indent), and so does
/// `Debug` (tested). They hide nothing else: a secret in a path or a query, or in the place of the user, is
/// shown.
///
/// ```
/// /// Whether a command of Secure Shell needs the option for a port.
/// fn names_port(url: &Url) -> bool {
///     matches!(&url.scheme, Scheme::Ssh) && url.port.is_some()
/// }
/// ```
#[derive(Drop)]
pub struct Url {
    /// The scheme.
    pub scheme: Scheme,
    /// The user, decoded. It may be empty, and may begin with `-` ([`Url::user_as_argument`]). A location with a
    /// user and without a host has no text.
    pub user: Option<String>,
    /// The password, decoded. It is not written without a user.
    pub password: Option<String>,
    /// The host. It may be empty, and may begin with `-` ([`Url::host_as_argument`]). For Secure Shell an IPv6
    /// text has no brackets, for other schemes it has them if the text had them. A `:` can be at its end, if the
    /// text had one without a port.
    pub host: Option<String>,
    /// Whether to write the alternative form, which is not a URL: `host:path` for Secure Shell, or a path for
    /// local files. With a password or a port the text is a URL anyway, a relative path of Secure Shell is
    /// always written as `host:path`, and locations of other schemes have only one form.
    pub serialize_alternative_form: bool,
    /// The port. It may be 0: reading refuses that only for HTTP.
    pub port: Option<u16>,
    /// The path, decoded. It may be any bytes, and may begin with `-`. The path of an HTTP location includes
    /// its query and its fragment, and a decoded `?` or `#` in it looks like a delimiter:
    /// [`Url::path_query_fragment`] distinguishes them. A home folder of Secure Shell and Git is at its front
    /// without a `/`, as in `~user/repo`.
    pub path: BString,
    /// The escaped spelling of the path, if the text had one. It is used while it decodes to the path.
    pub(crate) spelling: Option<BString>,
}

impl Model for Url {
    ghost use Rattle.git_syntax.specs.Location.{Location};

    ghost Value = { Location };

    ghost use Rattle.gix_url.specs.Url.{location};

    ghost view = { location };
}

impl Url {
    /// The same location, borrowed. Allocates nothing.
    ///
    /// ```
    /// /// Whether the location is settled without its password.
    /// fn is_settled_without_password(url: &Url) -> bool {
    ///     let mut bare = url.as_ref();
    ///     bare.password = None; // the password of `url` stays
    ///     bare.is_settled()
    /// }
    /// ```
    #[inline(always)]
    pub fn as_ref(&self) -> UrlRef<'_>
        ensures { result ≡ self.now }
    {
        UrlRef {
            scheme: self.scheme.as_ref(),
            user: self.user.as_deref(),
            password: self.password.as_deref(),
            host: self.host.as_deref(),
            serialize_alternative_form: self.serialize_alternative_form,
            port: self.port,
            path: self.path.as_bytes(),
            spelling: match &self.spelling {
                None => None,
                Some(spelling) => Some(spelling.as_bytes()),
            },
        }
    }
}

/// Every location is a value in the sense of the laws: its texts are UTF-8, its bytes are below 256 and its
/// port is below 65,536.
///
/// By this law users of `law_separation` meet that premise, whatever they assign to the public fields.
pub fn law_value(url: &Url)
    ensures value { IsValue url.now }
{
    law_borrowed_value(&url.as_ref());
}
