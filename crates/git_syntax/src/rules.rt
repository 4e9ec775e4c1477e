//! The rules that the scheme of a URL sets for the rest of the URL. They are determined once for each URL.

ghost use Rattle.std.specs.Prelude.{◌≡◌, false, true};
ghost use Rattle.git_syntax.specs.Internal.HostPieces.{host_syntax};
ghost use Rattle.git_syntax.specs.Internal.SchemeRules.{scheme_named};
ghost use Rattle.git_syntax.specs.Schemes.{is_web_scheme, host_syntax_of, scheme_of, requires_host, requires_path};

use crate::host::HostSyntax;
use crate::scheme::{KnownScheme, is_ftp, scheme_of};

/// The rules that the scheme of a URL sets for the rest of the URL.
#[derive(Clone, Copy)]
pub struct Rules {
    /// The known scheme, or `Other`.
    pub known: KnownScheme,
    /// The syntax of the host.
    pub syntax: HostSyntax,
    /// Whether the URL needs a host.
    pub needs_host: bool,
    /// Whether the scheme is one of HTTP: a path may then begin with `?` or `#`, and an empty one is `/`.
    pub web: bool,
    /// Whether the URL needs a path. The `/` before a home folder in it is then removed.
    pub needs_path: bool,
}

/// The rules of the scheme with this text.
pub fn rules_of(scheme: &[u8]) -> Rules
    ensures known { scheme_named result.known scheme.now ≡ scheme_of scheme.now }
    ensures syntax { host_syntax result.syntax ≡ host_syntax_of scheme.now }
    ensures host { result.needs_host ≡ requires_host scheme.now }
    ensures web { result.web ≡ is_web_scheme scheme.now }
    ensures path { result.needs_path ≡ requires_path (scheme_of scheme.now) }
{
    let known = scheme_of(scheme);
    match known {
        KnownScheme::Http => web(known),
        KnownScheme::Https => web(known),
        KnownScheme::Git => transport(known, true),
        KnownScheme::Ssh => transport(known, matches!(scheme, b"ssh")),
        KnownScheme::File => plain(known, false),
        KnownScheme::Ext => plain(known, false),
        KnownScheme::Other => plain(known, is_ftp(scheme)),
    }
}

/// The rules of HTTP.
fn web(known: KnownScheme) -> Rules
    ensures { result ≡ record {
      known = known;
      syntax = HostSyntax.Http;
      needs_host = true;
      web = true;
      needs_path = false;
    } }
{
    Rules {
        known,
        syntax: HostSyntax::Http,
        needs_host: true,
        web: true,
        needs_path: false,
    }
}

/// The rules of Git's own transports.
fn transport(known: KnownScheme, needs_host: bool) -> Rules
    ensures { result ≡ record {
      known = known;
      syntax = HostSyntax.Git;
      needs_host = needs_host;
      web = false;
      needs_path = true;
    } }
{
    Rules {
        known,
        syntax: HostSyntax::Git,
        needs_host,
        web: false,
        needs_path: true,
    }
}

/// The rules of any other scheme.
fn plain(known: KnownScheme, needs_host: bool) -> Rules
    ensures { result ≡ record {
      known = known;
      syntax = HostSyntax.Other;
      needs_host = needs_host;
      web = false;
      needs_path = false;
    } }
{
    Rules {
        known,
        syntax: HostSyntax::Other,
        needs_host,
        web: false,
        needs_path: false,
    }
}
