//! The text after a host: nothing, a colon that stays with it, or a colon and a port.

ghost use Rattle.std.specs.Prelude.{◌≡◌, ◌↔◌, ◌∷◌, ℕ, IsTrue, MatchOption, Some};
ghost use Rattle.std.specs.Char.{is_ascii_digit};
ghost use Rattle.std.specs.List.{list_all};
ghost use Rattle.git_syntax.specs.Bytes.{colon};
ghost use Rattle.git_syntax.specs.Flaws.{IsNoPort};
ghost use Rattle.git_syntax.specs.Hosts as spec;
ghost use Rattle.git_syntax.specs.Hosts.{Number, EndsHost};
ghost use Rattle.git_syntax.specs.Internal.HostPieces.{Follows, IsBadPort, denoted_host, named_text, host_syntax};

use crate::bytes::{after, starts_with_byte};
use crate::host::{HostPiece, HostPort, HostSyntax, alone};
use crate::text::as_text;

/// A host and the text after it: nothing, or a colon and perhaps a port.
pub(super) fn with_rest<'a>(
    syntax: HostSyntax,
    piece: HostPiece<'a>,
    rest: &[u8],
) -> Option<HostPort<'a>>
    requires { EndsHost rest.now }
    ensures { MatchOption result (IsBadPort (host_syntax syntax) rest.now)
        (λ named. Follows (host_syntax syntax) (denoted_host piece.entry) rest.now
        (Some (named_text named)) named.port) }
{
    match after(rest, b':') {
        Some(digits) => with_port(syntax, piece, digits),
        None => Some(alone(piece)),
    }
}

/// Whether a host may end before the text: the text is empty or begins with a colon.
pub(super) fn ends_host(rest: &[u8]) -> bool
    ensures { IsTrue result ↔ EndsHost rest.now }
{
    rest.is_empty() || starts_with_byte(rest, b':')
}

/// A host that a colon and this text follow: the colon stays if the text is empty, else the text is the port.
pub(super) fn with_port<'a>(
    syntax: HostSyntax,
    piece: HostPiece<'a>,
    digits: &[u8],
) -> Option<HostPort<'a>>
    ensures { MatchOption result (IsNoPort (host_syntax syntax) digits.now)
        (λ named. Follows (host_syntax syntax) (denoted_host piece.entry) (colon ∷ digits.now)
        (Some (named_text named)) named.port) }
{
    if digits.is_empty() {
        return Some(HostPort {
            piece,
            keeps_colon: true,
            port: None,
        });
    }
    let port = read_port(syntax, digits)?;
    Some(HostPort {
        piece,
        keeps_colon: false,
        port: Some(port),
    })
}

/// The port that the digits spell.
pub(crate) fn read_port(syntax: HostSyntax, digits: &[u8]) -> Option<u16>
    ensures { MatchOption result ((port : ℕ) → ¬ Number (host_syntax syntax) digits.now port)
        (λ port. Number (host_syntax syntax) digits.now port) }
{
    if !are_digits(digits) {
        return None;
    }
    let Ok(port) = as_text(digits).parse::<u16>() else {
        return None;
    };
    if allows_port(syntax, port) {
        Some(port)
    } else {
        None
    }
}

/// Whether each byte is a decimal digit.
pub(super) fn are_digits(text: &[u8]) -> bool
    ensures { result ≡ list_all is_ascii_digit text.now }
{
    text.iter().all(|byte| byte.is_ascii_digit())
}

/// Whether the port is allowed.
fn allows_port(syntax: HostSyntax, port: u16) -> bool
    ensures { IsTrue result ↔ spec.AllowsPort (host_syntax syntax) port }
{
    match syntax {
        HostSyntax::Http => port > 0,
        HostSyntax::Git | HostSyntax::Other => true,
    }
}
