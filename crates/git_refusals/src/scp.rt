//! The flaw of the scp form, in which nothing is escaped.

ghost use Rattle.std.specs.Prelude.{◌≡◌, ◌<◌, IsUtf8, false, length};
ghost use Rattle.git_syntax.specs.Bytes.{FreeOf, at_sign, begins_with, left_bracket};
ghost use Rattle.git_syntax.specs.Grammar.{AddressedForm};
ghost use Rattle.git_syntax.specs.Internal.Forms.{PlainScp};
ghost use Rattle.git_syntax.specs.Internal.ScpPieces.{ColonsInside};
ghost use Rattle.git_refusals.specs.Internal.Readable.{Checks, IsAddressedScp, IsScp, IsScpFront, NamesScpHost, DenotesScpHost};
ghost use Rattle.git_refusals.specs.Reasons.{BadAddressed, BadFront, BadScp, BadScpHost, BadScpName, IsAt};

use crate::authority::backslash;
use crate::escapes::not_text;
use crate::place::Place;
use crate::reason::Reason;
use crate::url::white_space;
use git_syntax::bytes::{after, cut, is_free_of, last_cut};
use git_syntax::text::as_text;

/// The flaw of the scp form.
pub(crate) fn bad_scp(text: &[u8], front: &[u8], path: &[u8]) -> Option<Place>
    requires { PlainScp text.now front.now path.now }
    ensures { Checks text.now (BadScp text.now front.now path.now) (IsScp text.now) result }
{
    if let Some(place) = not_text(text) {
        return Some(place);
    }
    if path.is_empty() {
        return Some(no_path(text));
    }
    bad_front(front)
}

/// The end of the text, which lacks a path.
fn no_path(text: &[u8]) -> Place
    ensures { IsAt Reason.ScpPathMissing (length text.now) 0 result }
{
    Place {
        reason: Reason::ScpPathMissing,
        at: text.len(),
        len: 0,
    }
}

/// The flaw of the form `user@[address]:path`.
pub(crate) fn bad_addressed(text: &[u8], user: &[u8], address: &[u8], path: &[u8]) -> Option<Place>
    requires { AddressedForm text.now user.now address.now path.now }
    ensures { Checks text.now (BadAddressed text.now path.now) (IsAddressedScp text.now) result }
{
    if let Some(place) = not_text(text) {
        return Some(place);
    }
    if path.is_empty() {
        return Some(no_path(text));
    }
    None
}

/// The flaw of the front of the scp form: of the host after its last `@`, or of the whole front.
fn bad_front(front: &[u8]) -> Option<Place>
    requires text { IsUtf8 front.now }
    requires colons { ColonsInside front.now }
    ensures { Checks front.now (BadFront front.now) (IsScpFront front.now) result }
{
    let Some((user, host)) = last_cut(front, b'@') else {
        return bad_host(front);
    };
    let place = bad_host(host)?;
    Some(Place {
        reason: place.reason,
        at: user.len() + 1 + place.at,
        len: place.len,
    })
}

/// The flaw of the host of the scp form.
fn bad_host(host: &[u8]) -> Option<Place>
    requires text { IsUtf8 host.now }
    requires no_at { FreeOf at_sign host.now }
    requires colons { ColonsInside host.now }
    ensures { Checks host.now (BadScpHost host.now) (DenotesScpHost host.now) result }
{
    if let Some(place) = white_space(Reason::WhiteSpaceInHost, as_text(host)) {
        return Some(place);
    }
    if let Some(place) = backslash(Reason::BackslashInHost, host) {
        return Some(place);
    }
    if host.is_empty() {
        return Some(Place {
            reason: Reason::HostMissing,
            at: 0,
            len: 0,
        });
    }
    bad_name(host)
}

/// The flaw of the brackets of a host, or of the text in a port's place.
fn bad_name(host: &[u8]) -> Option<Place>
    requires some { 0 < length host.now }
    requires text { IsUtf8 host.now }
    requires colons { ColonsInside host.now }
    ensures { Checks host.now (BadScpName host.now) (NamesScpHost host.now) result }
{
    if let Some(suffix) = after(host, b'[') {
        let Some((inner, rest)) = cut(suffix, b']') else {
            return Some(Place {
                reason: Reason::UnclosedBracket,
                at: 0,
                len: 1,
            });
        };
        if rest.is_empty() {
            return None;
        }
        return Some(Place {
            reason: Reason::BehindBracket,
            at: inner.len() + 2,
            len: rest.len(),
        });
    }
    bad_port(host)
}

/// The text in the place of a port, after a host that doesn't begin with a bracket. The scp form has no port.
fn bad_port(host: &[u8]) -> Option<Place>
    requires some { 0 < length host.now }
    requires open_front { begins_with left_bracket host.now ≡ false }
    requires text { IsUtf8 host.now }
    requires colons { ColonsInside host.now }
    ensures { Checks host.now (BadScpName host.now) (NamesScpHost host.now) result }
{
    let (front, suffix) = cut(host, b':')?;
    if front.is_empty() || !is_free_of(suffix, b':') {
        return None;
    }
    Some(Place {
        reason: Reason::PortNotANumber,
        at: front.len() + 1,
        len: suffix.len(),
    })
}
