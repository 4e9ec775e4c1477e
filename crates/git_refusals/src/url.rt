//! The flaw of a URL: its length, a character anywhere in it, its scheme, its path or its authority.

ghost use Rattle.std.specs.Prelude.{◌≡◌, ◌+◌, ◌≤◌, IfSome, IsUtf8, MatchOption, codes, length, true};
ghost use Rattle.git_syntax.specs.Authority.{Fits};
ghost use Rattle.git_syntax.specs.Bytes.{LacksWhiteSpace};
ghost use Rattle.git_syntax.specs.Escapes as spec;
ghost use Rattle.std.specs.Char.{is_whitespace};
ghost use Rattle.git_syntax.specs.Flaws.{OtherUrlForm, UrlForm};
ghost use Rattle.git_syntax.specs.Internal.SchemeRules.{AreRulesOf};
ghost use Rattle.git_refusals.specs.Internal.Readable.{Checks, HoldsRest, IsFileUrl, IsScheme, IsUrl};
ghost use Rattle.git_refusals.specs.Reasons.{BadFile, BadRest, BadScheme, BadUrl, HasBrokenEscape, HasCharacter, TooLong};

use crate::authority::bad_authority;
use crate::characters::{Wrong, first_wrong};
use crate::escapes::{broken_escape, not_text, undecodable};
use crate::place::Place;
use crate::reason::Reason;
use git_syntax::bytes::{cut_before_path, is_free_of};
use git_syntax::escape::is_sound;
use git_syntax::length::fits;
use git_syntax::rules::{Rules, rules_of};
use git_syntax::text::as_text;

/// The flaw of a URL that isn't a file URL.
pub(crate) fn bad_url(text: &[u8], scheme: &[u8], rest: &[u8]) -> Option<Place>
    requires { OtherUrlForm text.now scheme.now rest.now }
    ensures { Checks text.now (BadUrl text.now scheme.now rest.now) (IsUrl text.now) result }
{
    let rules = rules_of(scheme);
    if let Some(place) = too_long(scheme, rest) {
        return Some(place);
    }
    if let Some(place) = not_text(text) {
        return Some(place);
    }
    if let Some(place) = white_space(Reason::WhiteSpace, as_text(text)) {
        return Some(place);
    }
    if let Some(place) = unsound(text) {
        return Some(place);
    }
    if let Some(place) = bad_scheme(as_text(scheme)) {
        return Some(place);
    }
    bad_rest(text, rules, scheme, rest)
}

/// The scheme, or the text after `://`, if it is too long.
fn too_long(scheme: &[u8], rest: &[u8]) -> Option<Place>
    ensures found { MatchOption result (Fits scheme.now rest.now) (λ p. TooLong scheme.now rest.now p) }
    ensures within { IfSome result (λ p. p.at + p.len ≤ length scheme.now + 3 + length rest.now) }
{
    if fits(scheme, rest) {
        return None;
    }
    if scheme.len() > 1024 {
        return Some(Place {
            reason: Reason::SchemeTooLong,
            at: 0,
            len: scheme.len(),
        });
    }
    Some(Place {
        reason: Reason::AuthorityTooLong,
        at: scheme.len() + 3,
        len: rest.len().min(1024),
    })
}

/// The first character that is white space.
pub(crate) fn white_space(reason: Reason, text: &str) -> Option<Place>
    ensures { Checks text.now (HasCharacter reason is_whitespace text.now) (LacksWhiteSpace text.now) result }
{
    let (at, len) = first_wrong(text, Wrong::WhiteSpace)?;
    Some(Place { reason, at, len })
}

/// The first `%` that doesn't begin an escape.
fn unsound(text: &[u8]) -> Option<Place>
    ensures { Checks text.now (HasBrokenEscape text.now) (spec.is_sound text.now ≡ true) result }
{
    if is_sound(text) {
        return None;
    }
    Some(Place {
        reason: Reason::BrokenEscape,
        at: broken_escape(text),
        len: 1,
    })
}

/// The flaw of the text in a scheme's place.
fn bad_scheme(scheme: &str) -> Option<Place>
    ensures { Checks scheme.now (BadScheme scheme.now) (IsScheme scheme.now) result }
{
    let Some(first) = scheme.as_bytes().first() else {
        return Some(Place {
            reason: Reason::SchemeMissing,
            at: 0,
            len: 0,
        });
    };
    if first.is_ascii_alphabetic() {
        let (at, len) = first_wrong(scheme, Wrong::InScheme)?;
        return Some(Place {
            reason: Reason::SchemeCharacter,
            at,
            len,
        });
    }
    let (at, len) = first_wrong(scheme, Wrong::Any)?;
    Some(Place {
        reason: Reason::SchemeStart,
        at,
        len,
    })
}

/// The flaw after the scheme: of the path, then of the authority, then the missing path.
fn bad_rest(text: &[u8], rules: Rules, scheme: &[u8], rest: &[u8]) -> Option<Place>
    requires form { OtherUrlForm text.now scheme.now rest.now }
    requires utf8 { IsUtf8 text.now }
    requires rules { AreRulesOf scheme.now rules }
    ensures { Checks text.now (BadRest text.now scheme.now rest.now) (HoldsRest scheme.now rest.now) result }
{
    let (authority, path) = cut_before_path(rest, rules.web);
    let front = scheme.len() + 3;
    if let Some(place) = undecodable(path) {
        return Some(Place {
            reason: place.reason,
            at: front + authority.len() + place.at,
            len: place.len,
        });
    }
    if let Some(place) = bad_authority(rules.syntax, rules.needs_host, authority) {
        return Some(Place {
            reason: place.reason,
            at: front + place.at,
            len: place.len,
        });
    }
    if rules.needs_path && path.is_empty() {
        return Some(Place {
            reason: Reason::PathMissing,
            at: text.len(),
            len: 0,
        });
    }
    None
}

/// The flaw of a file URL.
pub(crate) fn bad_file(text: &[u8], rest: &[u8]) -> Option<Place>
    requires { UrlForm text.now (codes "file") rest.now }
    ensures { Checks text.now (BadFile text.now rest.now) (IsFileUrl text.now) result }
{
    if let Some(place) = not_text(text) {
        return Some(place);
    }
    if is_free_of(rest, b'/') {
        return Some(Place {
            reason: Reason::FilePathMissing,
            at: text.len(),
            len: 0,
        });
    }
    None
}
