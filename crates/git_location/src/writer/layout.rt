//! The layout of a text: its pieces and their order.

ghost use Rattle.std.specs.Prelude.{◌≡◌, ℕ, List, ◌++◌, option_map, unwrap_or};
ghost use Rattle.git_syntax.specs.Hosts.{port_part, raw_user};
ghost use Rattle.git_syntax.specs.Location.Scheme.{ssh};
ghost use Rattle.git_syntax.specs.Views.{borrowed_scheme};
ghost use Rattle.git_syntax.specs.AddressTest.{is_ipv6_text};
ghost use Rattle.git_location.specs.Text as spec;
ghost use Rattle.git_location.specs.Text.{text, helper_text, path_form_text, scp_text, canonical_text};
ghost use Rattle.git_location.specs.Internal.Pieces.{host_text, path_end_text, piece_text, pieces_text, port_text, text_of_pieces, user_text, with_password};

use crate::url_ref::UrlRef;
use crate::write_error::WriteFault;
use crate::writer::form::Form;
use crate::writer::piece::{HostPieces, PathPieces, Piece, Pieces, SchemePieces, UserPieces};
use git_syntax::scheme::SchemeRef;
use git_syntax::{bytes, escape, ipv6};
use itoa::Buffer;

impl<'a> UrlRef<'a> {
    /// The pieces of the text that the location has with this password in place of its own, or the fault if it
    /// has none. `digits` is the buffer for the digits of the port.
    pub fn pieces<'b>(
        &'b self,
        password: Option<&'b str>,
        digits: &'b mut Buffer,
    ) -> Result<Pieces<'b>, WriteFault>
        ensures { text_of_pieces result ≡ text (with_password self.now password.entry) }
    {
        match self.form(password)? {
            Form::Helper => Ok(self.helper_pieces()),
            Form::Path => Ok(self.path_pieces()),
            Form::Scp => Ok(self.scp_pieces()),
            Form::Canonical => Ok(self.canonical_pieces(password, digits)),
        }
    }

    /// The pieces of the helper form.
    pub fn helper_pieces(&self) -> Pieces<'_>
        ensures { pieces_text result ≡ helper_text self.now }
    {
        Pieces {
            scheme: SchemePieces::Marked(self.scheme.as_str(), "::"),
            user: UserPieces::None,
            host: HostPieces::None,
            port: None,
            path: PathPieces::Raw("", self.path),
        }
    }

    /// The pieces of the path form.
    pub fn path_pieces(&self) -> Pieces<'_>
        ensures { pieces_text result ≡ path_form_text self.now }
    {
        Pieces {
            scheme: SchemePieces::None,
            user: self.raw_user(),
            host: self.raw_host(),
            port: None,
            path: PathPieces::Raw("", self.path),
        }
    }

    /// The pieces of the scp form.
    pub fn scp_pieces(&self) -> Pieces<'_>
        ensures { pieces_text result ≡ scp_text self.now }
    {
        Pieces {
            scheme: SchemePieces::None,
            user: self.raw_user(),
            host: self.raw_host(),
            port: None,
            path: PathPieces::Raw(":", self.path),
        }
    }

    /// The pieces of a URL.
    #[inline(always)]
    pub fn canonical_pieces<'b>(
        &'b self,
        password: Option<&'b str>,
        digits: &'b mut Buffer,
    ) -> Pieces<'b>
        ensures { pieces_text result ≡ canonical_text (with_password self.now password.entry) }
    {
        Pieces {
            scheme: SchemePieces::Marked(self.scheme.as_str(), "://"),
            user: self.user_information(password),
            host: self.canonical_host(),
            port: port_digits(self.port, digits),
            path: self.canonical_path(),
        }
    }

    /// The user and `@`, unescaped.
    fn raw_user(&self) -> UserPieces<'_>
        ensures { user_text result ≡ raw_user self.now.user }
    {
        match self.user {
            None => UserPieces::None,
            Some(user) => UserPieces::User(Piece::Raw(user)),
        }
    }

    /// The host, unescaped, in brackets if it needs them.
    fn raw_host(&self) -> HostPieces<'_>
        ensures { host_text result ≡ spec.raw_host self.now.host }
    {
        match self.host {
            None => HostPieces::None,
            Some(host) => {
                if wants_brackets(host.as_bytes()) {
                    HostPieces::Bracketed(Piece::Raw(host))
                } else {
                    HostPieces::Open(Piece::Raw(host))
                }
            }
        }
    }

    /// The user, this password and their marks, with escapes. Without a user, the password is left out.
    #[inline(always)]
    fn user_information<'b>(&'b self, password: Option<&'b str>) -> UserPieces<'b>
        ensures { user_text result
            ≡ spec.user_information self.now.user (option_map (λ p. p.now) password.entry) }
    {
        let Some(user) = self.user else {
            return UserPieces::None;
        };
        match password {
            None => UserPieces::User(Piece::user(user)),
            Some(password) => UserPieces::Both(Piece::user(user), Piece::password(password)),
        }
    }

    /// The host of a URL.
    #[inline(always)]
    fn canonical_host(&self) -> HostPieces<'_>
        ensures { host_text result ≡ spec.host_part self.now self.now.host }
    {
        let Some(host) = self.host else {
            return HostPieces::None;
        };
        if needs_brackets(self.port, host.as_bytes()) {
            HostPieces::Bracketed(Piece::Percents(host))
        } else {
            HostPieces::Open(open_host(self.scheme, host))
        }
    }

    /// The path of a URL: the spelling if it matches, and else the path as it is written for the scheme.
    #[inline(always)]
    fn canonical_path(&self) -> PathPieces<'_>
        ensures { path_end_text result ≡ spec.canonical_path self.now }
    {
        let mark = self.root();
        match self.matching_spelling() {
            Some(spelling) => PathPieces::Raw(mark, spelling),
            None => self.plain_path(mark),
        }
    }

    /// The path without a spelling, after a mark: with escapes for HTTP, unescaped for any other scheme.
    fn plain_path<'b>(&'b self, mark: &'b str) -> PathPieces<'b>
        ensures { path_end_text result ≡ mark.now ++ spec.plain_path self.now.scheme self.now.path }
    {
        match self.scheme {
            SchemeRef::Http | SchemeRef::Https => PathPieces::escaped(mark, self.path),
            SchemeRef::File
            | SchemeRef::Git
            | SchemeRef::Ssh
            | SchemeRef::Ext
            | SchemeRef::Helper(_)
            | SchemeRef::HelperUrl(_) => PathPieces::Raw(mark, self.path),
        }
    }

    /// The `/` before a path that lacks it, if one is needed.
    fn root(&self) -> &str
        ensures { result.now ≡ spec.root_part self.now }
    {
        match self.scheme {
            SchemeRef::Ssh | SchemeRef::Git => {
                if bytes::starts_with_byte(self.path, b'/') {
                    ""
                } else {
                    "/"
                }
            }
            SchemeRef::File
            | SchemeRef::Http
            | SchemeRef::Https
            | SchemeRef::Ext
            | SchemeRef::Helper(_)
            | SchemeRef::HelperUrl(_) => "",
        }
    }

    /// The retained spelling of the path, if it decodes to the path.
    #[inline(always)]
    pub fn matching_spelling(&self) -> Option<&'a [u8]>
        ensures { (other : List ℕ) → unwrap_or (option_map (λ s. s.now) result) other
            ≡ spec.matching_or self.now.spelling self.now.path other }
    {
        match self.spelling {
            None => None,
            Some(spelling) => {
                if escape::decodes_to(spelling, self.path) {
                    Some(spelling)
                } else {
                    None
                }
            }
        }
    }
}

/// The port in decimal.
fn port_digits<'a>(port: Option<u16>, digits: &'a mut Buffer) -> Option<&'a str>
    ensures { port_text result ≡ port_part port }
{
    match port {
        None => None,
        Some(port) => Some(digits.format(port)),
    }
}

/// A host outside brackets: unescaped, or escaped except for the colons of an address.
#[inline(always)]
fn open_host<'a>(scheme: SchemeRef<'_>, host: &'a str) -> Piece<'a>
    ensures { piece_text result ≡ spec.open_host (borrowed_scheme scheme.entry) host.now }
{
    match scheme {
        SchemeRef::File | SchemeRef::Http | SchemeRef::Https => Piece::Raw(host),
        SchemeRef::Git
        | SchemeRef::Ssh
        | SchemeRef::Ext
        | SchemeRef::Helper(_)
        | SchemeRef::HelperUrl(_) => escaped_host(host),
    }
}

/// A host outside brackets, escaped except for the colons of an address, as most schemes have it.
#[inline(never)]
fn escaped_host(host: &str) -> Piece<'_>
    ensures { piece_text result ≡ spec.open_host ssh host.now }
{
    if is_address(host.as_bytes()) {
        Piece::password(host)
    } else {
        Piece::user(host)
    }
}

/// Whether the host is an IPv6 text. It has a colon then, as few hosts have.
fn is_address(host: &[u8]) -> bool
    ensures { result ≡ is_ipv6_text host.now }
{
    has_colon(host) && ipv6::is_address(host)
}

/// Whether the host has a `:` and doesn't begin with `[`.
fn wants_brackets(host: &[u8]) -> bool
    ensures { result ≡ spec.wants_brackets host.now }
{
    has_colon(host) && !bytes::starts_with_byte(host, b'[')
}

/// Whether the host has a `:`.
fn has_colon(host: &[u8]) -> bool
    ensures { result ≡ spec.has_colon host.now }
{
    host.contains(&b':')
}

/// Whether the host of a URL is written in brackets: it needs them, and there is a port or the host has a `%`.
fn needs_brackets(port: Option<u16>, host: &[u8]) -> bool
    ensures { result ≡ spec.needs_brackets port host.now }
{
    wants_brackets(host) && (port.is_some() || escape::has_percent(host))
}
