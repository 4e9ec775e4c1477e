//! The flaw of an authority: a backslash, or one in the user information, the host or the port.

ghost use Rattle.std.specs.Prelude.{IsUtf8};
ghost use Rattle.git_syntax.specs.Bytes.{FreeOf, at_sign, backslash};
ghost use Rattle.git_syntax.specs.Internal.HostPieces.{host_syntax};
ghost use Rattle.git_refusals.specs.Internal.Readable.{Checks, HoldsParts, HoldsUser};
ghost use Rattle.git_refusals.specs.Reasons.{BadAuthority, BadParts, BadUser, HasBackslash};

use crate::escapes::undecodable;
use crate::host::bad_host;
use crate::place::Place;
use crate::reason::Reason;
use git_syntax::bytes::{cut, last_cut};
use git_syntax::host::HostSyntax;

/// The flaw of an authority, which may need a host.
pub(crate) fn bad_authority(syntax: HostSyntax, needed: bool, authority: &[u8]) -> Option<Place>
    requires { IsUtf8 authority.now }
    ensures { Checks authority.now (BadAuthority (host_syntax syntax) needed authority.now)
        (HoldsParts (host_syntax syntax) needed authority.now) result }
{
    match backslash(Reason::Backslash, authority) {
        Some(place) => Some(place),
        None => bad_parts(syntax, needed, authority),
    }
}

/// The first backslash.
pub(crate) fn backslash(reason: Reason, text: &[u8]) -> Option<Place>
    ensures { Checks text.now (HasBackslash reason text.now) (FreeOf backslash text.now) result }
{
    let (before, _) = cut(text, b'\\')?;
    Some(Place {
        reason,
        at: before.len(),
        len: 1,
    })
}

/// The flaw of an authority without a backslash.
fn bad_parts(syntax: HostSyntax, needed: bool, authority: &[u8]) -> Option<Place>
    requires text { IsUtf8 authority.now }
    requires clean { FreeOf backslash authority.now }
    ensures { Checks authority.now (BadParts (host_syntax syntax) needed authority.now)
        (HoldsParts (host_syntax syntax) needed authority.now) result }
{
    let Some((information, piece)) = last_cut(authority, b'@') else {
        return bad_alone(syntax, needed, authority);
    };
    if let Some(place) = bad_user(information) {
        return Some(place);
    }
    if let Some(place) = bad_host(syntax, piece) {
        return Some(Place {
            reason: place.reason,
            at: information.len() + 1 + place.at,
            len: place.len,
        });
    }
    if piece.is_empty() {
        return Some(Place {
            reason: Reason::HostBehindUser,
            at: authority.len(),
            len: 0,
        });
    }
    None
}

/// The flaw of an authority that consists of a host and a port.
fn bad_alone(syntax: HostSyntax, needed: bool, authority: &[u8]) -> Option<Place>
    requires text { IsUtf8 authority.now }
    requires clean { FreeOf backslash authority.now }
    requires no_user { FreeOf at_sign authority.now }
    ensures { Checks authority.now (BadParts (host_syntax syntax) needed authority.now)
        (HoldsParts (host_syntax syntax) needed authority.now) result }
{
    if let Some(place) = bad_host(syntax, authority) {
        return Some(place);
    }
    if needed && authority.is_empty() {
        return Some(Place {
            reason: Reason::HostMissing,
            at: 0,
            len: 0,
        });
    }
    None
}

/// The flaw of user information. The password is checked before the user.
fn bad_user(information: &[u8]) -> Option<Place>
    ensures { Checks information.now (BadUser information.now) (HoldsUser information.now) result }
{
    let Some((user, password)) = cut(information, b':') else {
        return undecodable(information);
    };
    match undecodable(password) {
        Some(place) => Some(Place {
            reason: place.reason,
            at: user.len() + 1 + place.at,
            len: place.len,
        }),
        None => undecodable(user),
    }
}
