//! The flaw of a host and a port, by the marks in their text.

ghost use Rattle.std.specs.Prelude.{◌≡◌, ◌<◌, ◌++◌, ◌∷◌, IsUtf8, false, length, true};
ghost use Rattle.std.specs.List.{list_all};
ghost use Rattle.std.specs.Char.{is_ascii_digit};
ghost use Rattle.git_syntax.specs.Bytes.{FreeOf, begins_with, colon, left_bracket, right_bracket};
ghost use Rattle.git_syntax.specs.Hosts.{IsManyColoned, IsPlainHost};
ghost use Rattle.git_syntax.specs.Internal.HostPieces.{host_syntax};
ghost use Rattle.git_refusals.specs.Internal.Hosts.{IsBeforeColon, IsPortText, DenotesHost, DenotesInner};
ghost use Rattle.git_refusals.specs.Internal.Readable.{Checks, NamesHost};
ghost use Rattle.git_refusals.specs.Reasons.{BadHost, NoDigits, NoHostText, NoInner, PortOutside, Then, WebColons};

use crate::characters::{Wrong, first_wrong};
use crate::escapes::undecodable;
use crate::place::Place;
use crate::reason::Reason;
use git_syntax::bytes::{after, before, cut, is_free_of};
use git_syntax::host::bytes::is_literal;
use git_syntax::host::{HostSyntax, is_address_piece};
use git_syntax::ipv6::is_address;
use git_syntax::text::as_text;

/// The flaw of the host and the port of a URL.
pub(crate) fn bad_host(syntax: HostSyntax, piece: &[u8]) -> Option<Place>
    requires { IsUtf8 piece.now }
    ensures { Checks piece.now (BadHost (host_syntax syntax) piece.now)
        (NamesHost (host_syntax syntax) piece.now) result }
{
    if piece.is_empty() {
        return None;
    }
    match after(piece, b'[') {
        Some(suffix) => bad_bracketed(syntax, suffix),
        None => bad_unbracketed(syntax, piece),
    }
}

/// The flaw of a piece that begins with a bracket, from the text after it.
fn bad_bracketed(syntax: HostSyntax, suffix: &[u8]) -> Option<Place>
    ensures { Checks (left_bracket ∷ suffix.now) (BadHost (host_syntax syntax) (left_bracket ∷ suffix.now))
        (NamesHost (host_syntax syntax) (left_bracket ∷ suffix.now)) result }
{
    match cut(suffix, b']') {
        Some((inner, rest)) => bad_brackets(syntax, inner, rest),
        None => Some(Place {
            reason: Reason::UnclosedBracket,
            at: 0,
            len: 1,
        }),
    }
}

/// The flaw of the text between brackets, or of the text after them.
fn bad_brackets(syntax: HostSyntax, inner: &[u8], rest: &[u8]) -> Option<Place>
    requires { FreeOf right_bracket inner.now }
    ensures { Checks (left_bracket ∷ (inner.now ++ right_bracket ∷ rest.now))
        (BadHost (host_syntax syntax) (left_bracket ∷ (inner.now ++ right_bracket ∷ rest.now)))
        (NamesHost (host_syntax syntax) (left_bracket ∷ (inner.now ++ right_bracket ∷ rest.now))) result }
{
    let wrong = before_colon(rest);
    if !wrong.is_empty() {
        return Some(Place {
            reason: Reason::BehindBracket,
            at: inner.len() + 2,
            len: wrong.len(),
        });
    }
    if let Some(place) = bad_inner(syntax, inner) {
        return Some(Place {
            reason: place.reason,
            at: 1 + place.at,
            len: place.len,
        });
    }
    let digits = after(rest, b':')?;
    let place = bad_port(syntax, digits)?;
    Some(Place {
        reason: place.reason,
        at: inner.len() + 3 + place.at,
        len: place.len,
    })
}

/// The text up to the first colon, or the whole.
fn before_colon(text: &[u8]) -> &[u8]
    ensures { IsBeforeColon text.now result.now }
{
    match cut(text, b':') {
        Some((front, _)) => front,
        None => text,
    }
}

/// The flaw of the text between brackets.
fn bad_inner(syntax: HostSyntax, text: &[u8]) -> Option<Place>
    ensures { Checks text.now (NoInner (host_syntax syntax) text.now) (DenotesInner (host_syntax syntax) text.now) result }
{
    if is_literal(text) {
        return None;
    }
    match syntax {
        HostSyntax::Http => Some(Place {
            reason: Reason::NotAnAddress,
            at: 0,
            len: text.len(),
        }),
        HostSyntax::Git | HostSyntax::Other => undecodable(text),
    }
}

/// The flaw of a piece that doesn't begin with a bracket.
fn bad_unbracketed(syntax: HostSyntax, piece: &[u8]) -> Option<Place>
    requires text { IsUtf8 piece.now }
    requires some { 0 < length piece.now }
    requires no_bracket { begins_with left_bracket piece.now ≡ false }
    ensures { Checks piece.now (BadHost (host_syntax syntax) piece.now) (NamesHost (host_syntax syntax) piece.now) result }
{
    let Some((text, digits)) = cut(piece, b':') else {
        return bad_name(syntax, piece);
    };
    if text.is_empty() || !is_free_of(digits, b':') {
        return bad_colons(syntax, piece);
    }
    bad_pair(syntax, text, digits)
}

/// The flaw of a host, a colon and the text in a port's place.
fn bad_pair(syntax: HostSyntax, text: &[u8], digits: &[u8]) -> Option<Place>
    requires text { IsUtf8 text.now }
    requires plain { IsPlainHost text.now }
    requires no_colon { FreeOf colon digits.now }
    ensures { Checks (text.now ++ colon ∷ digits.now) (BadHost (host_syntax syntax) (text.now ++ colon ∷ digits.now))
        (NamesHost (host_syntax syntax) (text.now ++ colon ∷ digits.now)) result }
{
    let found = match no_digits(digits) {
        Some(place) => place,
        None => match bad_name(syntax, text) {
            Some(place) => return Some(place),
            None => port_outside(syntax, digits)?,
        },
    };
    Some(Place {
        reason: found.reason,
        at: text.len() + 1 + found.at,
        len: found.len,
    })
}

/// The flaw of a piece whose colons don't begin a port.
fn bad_colons(syntax: HostSyntax, piece: &[u8]) -> Option<Place>
    requires no_bracket { begins_with left_bracket piece.now ≡ false }
    requires colons { IsManyColoned piece.now }
    ensures { Checks piece.now (BadHost (host_syntax syntax) piece.now) (NamesHost (host_syntax syntax) piece.now) result }
{
    match syntax {
        HostSyntax::Http => web_colons(piece),
        HostSyntax::Git => {
            if is_address_piece(piece) {
                None
            } else {
                undecodable(piece)
            }
        }
        HostSyntax::Other => undecodable(piece),
    }
}

/// The flaw of a piece of HTTP whose colons don't begin a port. Each such piece has one.
fn web_colons(piece: &[u8]) -> Option<Place>
    requires { IsManyColoned piece.now }
    ensures { Checks piece.now (WebColons piece.now) ⊥ result }
{
    if is_address(piece) {
        return Some(Place {
            reason: Reason::AddressWithoutBrackets,
            at: 0,
            len: piece.len(),
        });
    }
    if let Some(address) = before(piece, b':') {
        if is_address(address) {
            return Some(Place {
                reason: Reason::AddressWithoutBrackets,
                at: 0,
                len: address.len(),
            });
        }
    }
    let (front, suffix) = cut(piece, b':')?;
    match cut(suffix, b':') {
        None => Some(Place {
            reason: Reason::HostBeforePort,
            at: 0,
            len: 0,
        }),
        Some((between, _)) => Some(Place {
            reason: Reason::SecondColon,
            at: front.len() + 1 + between.len(),
            len: 1,
        }),
    }
}

/// The flaw of a text outside brackets as a host.
fn bad_name(syntax: HostSyntax, text: &[u8]) -> Option<Place>
    requires { IsUtf8 text.now }
    ensures { Checks text.now (NoHostText (host_syntax syntax) text.now) (DenotesHost (host_syntax syntax) text.now) result }
{
    match syntax {
        HostSyntax::Http => {
            let (at, len) = first_wrong(as_text(text), Wrong::InWebHost)?;
            Some(Place {
                reason: Reason::HostCharacter,
                at,
                len,
            })
        }
        HostSyntax::Git | HostSyntax::Other => undecodable(text),
    }
}

/// The flaw of the text after a host and a colon.
fn bad_port(syntax: HostSyntax, digits: &[u8]) -> Option<Place>
    ensures { Checks digits.now (Then (NoDigits digits.now) (PortOutside (host_syntax syntax) digits.now))
        (IsPortText (host_syntax syntax) digits.now) result }
{
    match no_digits(digits) {
        Some(place) => Some(place),
        None => port_outside(syntax, digits),
    }
}

/// The whole text, if it is neither empty nor a decimal number.
fn no_digits(text: &[u8]) -> Option<Place>
    ensures { Checks text.now (NoDigits text.now) (list_all is_ascii_digit text.now ≡ true) result }
{
    if text.iter().all(|byte| byte.is_ascii_digit()) {
        return None;
    }
    Some(Place {
        reason: Reason::PortNotANumber,
        at: 0,
        len: text.len(),
    })
}

/// The digits, if they are not a port.
fn port_outside(syntax: HostSyntax, digits: &[u8]) -> Option<Place>
    requires { list_all is_ascii_digit digits.now ≡ true }
    ensures { Checks digits.now (PortOutside (host_syntax syntax) digits.now) (IsPortText (host_syntax syntax) digits.now) result }
{
    if digits.is_empty() {
        return None;
    }
    let Ok(port) = as_text(digits).parse::<u16>() else {
        return Some(Place {
            reason: Reason::PortTooLarge,
            at: 0,
            len: digits.len(),
        });
    };
    if port == 0 && matches!(syntax, HostSyntax::Http) {
        return Some(Place {
            reason: Reason::PortZero,
            at: 0,
            len: digits.len(),
        });
    }
    None
}
