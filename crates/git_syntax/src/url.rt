//! URLs, from the pieces that the classifier cut: file URLs, URLs of the helper `ext`, and all others.
//!
//! The scheme is read once, here; its rules are passed on.

ghost use Rattle.std.specs.Prelude.{◌≡◌, ◌≤◌, ◌↔◌, ◌++◌, IfErr, IfOk, IsTrue, MatchOption, codes, length, true};
ghost use Rattle.git_syntax.specs.Authority.{Fits};
ghost use Rattle.git_syntax.specs.Bytes.{FreeOf, begins_with, slash};
ghost use Rattle.git_syntax.specs.Escapes.{has_percent};
ghost use Rattle.git_syntax.specs.Flaws.{NamesFlaw, OtherUrlForm, UrlForm};
ghost use Rattle.git_syntax.specs.Internal.FoundPieces.{IsReady, denoted, buffer_length_for};
ghost use Rattle.git_syntax.specs.Grammar.{Spells, SpellsFile, HasUrlSyntax, SpellsUrl};
ghost use Rattle.git_syntax.specs.Internal.ByteClasses.{HasByteClass};
ghost use Rattle.git_syntax.specs.Internal.SchemeRules.{AreRulesOf};
ghost use Rattle.git_syntax.specs.Internal.UrlPieces.{syntax_of};

use crate::byte_class::{ByteClass, byte_class_of};
use crate::bytes::{cut, starts_with_byte};
use crate::found::Found;
use crate::length::fits;
use crate::refusal::{Refusal, UrlKind};
use crate::rules::{Rules, rules_of};
use crate::scheme::KnownScheme;
use crate::text::{as_text, is_text, is_utf8};
use crate::url_syntax::{ParsedUrl, read_url_syntax};

/// Finds the slices of a URL.
#[inline(always)]
pub(crate) fn find_url<'a>(
    input: &'a [u8],
    scheme: &'a [u8],
    rest: &'a [u8],
) -> Result<Found<'a>, Refusal>
    requires { UrlForm input.now scheme.now rest.now }
    ensures found { IfOk result (λ found. Spells input.now (denoted found)) }
    ensures ready { IfOk result (λ found. IsReady found) }
    ensures buffer { IfOk result (λ found. buffer_length_for found ≤ length input.now) }
    ensures flaw { IfErr result (λ refusal. NamesFlaw input.now refusal) }
{
    let rules = rules_of(scheme);
    if is_file(rules.known) {
        find_file(input, rest)
    } else {
        find_other(input, rules, scheme, rest)
    }
}

/// Whether the scheme is that of file URLs.
fn is_file(known: KnownScheme) -> bool
    ensures { IsTrue result ↔ (known ≡ KnownScheme.File) }
{
    matches!(known, KnownScheme::File)
}

/// Whether the scheme is that of the helper `ext`.
fn is_ext(known: KnownScheme) -> bool
    ensures { IsTrue result ↔ (known ≡ KnownScheme.Ext) }
{
    matches!(known, KnownScheme::Ext)
}

/// Finds the slices of a file URL. The host ends at the first `/`, at which the path begins.
#[inline(always)]
fn find_file<'a>(input: &'a [u8], rest: &'a [u8]) -> Result<Found<'a>, Refusal>
    requires { UrlForm input.now (codes "file") rest.now }
    ensures found { IfOk result (λ found. SpellsFile input.now (denoted found)) }
    ensures ready { IfOk result (λ found. IsReady found) }
    ensures buffer { IfOk result (λ found. buffer_length_for found ≤ length input.now) }
    ensures flaw { IfErr result (λ refusal. NamesFlaw input.now refusal) }
{
    if !is_text(input) {
        return Err(Refusal::NotUtf8 { kind: UrlKind::Url });
    }
    match cut_at_path(rest) {
        None => Err(Refusal::MissingPath { kind: UrlKind::Url }),
        Some((host, path)) => Ok(Found::File { host, path }),
    }
}

/// The host and the path of a file URL, from the text after `://`. Most such URLs have no host.
fn cut_at_path(rest: &[u8]) -> Option<(&[u8], &[u8])>
    ensures { MatchOption result (FreeOf slash rest.now)
        (λ p. FreeOf slash p.0.now
        × (rest.now ≡ p.0.now ++ p.1.now)
        × (begins_with slash p.1.now ≡ true)) }
{
    if starts_with_byte(rest, b'/') {
        return Some(rest.split_at(0));
    }
    let (host, _) = cut(rest, b'/')?;
    Some(rest.split_at(host.len()))
}

/// Finds the slices of a URL that isn't a file URL, by the rules of its scheme.
#[inline(always)]
fn find_other<'a>(
    input: &'a [u8],
    rules: Rules,
    scheme: &'a [u8],
    rest: &'a [u8],
) -> Result<Found<'a>, Refusal>
    requires form { OtherUrlForm input.now scheme.now rest.now }
    requires rules { AreRulesOf scheme.now rules }
    ensures found { IfOk result (λ found. SpellsUrl input.now (denoted found)) }
    ensures ready { IfOk result (λ found. IsReady found) }
    ensures buffer { IfOk result (λ found. buffer_length_for found ≤ length input.now) }
    ensures flaw { IfErr result (λ refusal. NamesFlaw input.now refusal) }
{
    if !fits(scheme, rest) {
        return Err(Refusal::TooLong);
    }
    let byte_class = byte_class_of(input);
    if byte_class.is_printable() {
        return find_parts(as_text(input), byte_class, rules, scheme, rest);
    }
    find_in_text(input, rules, scheme, rest)
}

/// Finds the slices of a URL, as `find_other` does, if nothing is known of its bytes.
#[inline(always)]
fn find_in_text<'a>(
    input: &'a [u8],
    rules: Rules,
    scheme: &'a [u8],
    rest: &'a [u8],
) -> Result<Found<'a>, Refusal>
    requires form { OtherUrlForm input.now scheme.now rest.now }
    requires rules { AreRulesOf scheme.now rules }
    requires fits { Fits scheme.now rest.now }
    ensures found { IfOk result (λ found. SpellsUrl input.now (denoted found)) }
    ensures ready { IfOk result (λ found. IsReady found) }
    ensures buffer { IfOk result (λ found. buffer_length_for found ≤ length input.now) }
    ensures flaw { IfErr result (λ refusal. NamesFlaw input.now refusal) }
{
    if is_utf8(input) {
        find_parts(as_text(input), ByteClass::Other, rules, scheme, rest)
    } else {
        Err(Refusal::NotUtf8 { kind: UrlKind::Url })
    }
}

/// Finds the slices of a URL that is text and isn't a file URL, with the class `byte_class` of its bytes.
#[inline(always)]
fn find_parts<'a>(
    text: &'a str,
    byte_class: ByteClass,
    rules: Rules,
    scheme: &'a [u8],
    rest: &'a [u8],
) -> Result<Found<'a>, Refusal>
    requires byte_class { HasByteClass byte_class text.now }
    requires form { OtherUrlForm text.now scheme.now rest.now }
    requires rules { AreRulesOf scheme.now rules }
    requires fits { Fits scheme.now rest.now }
    ensures found { IfOk result (λ found. SpellsUrl text.now (denoted found)) }
    ensures ready { IfOk result (λ found. IsReady found) }
    ensures buffer { IfOk result (λ found. buffer_length_for found ≤ length text.now) }
    ensures flaw { IfErr result (λ refusal. NamesFlaw text.now refusal) }
{
    match read_url_syntax(text, byte_class, rules, scheme, rest) {
        Ok(url) => found_of_url(text.as_bytes(), rules, url),
        Err(fault) => Err(Refusal::BadUrl {
            kind: UrlKind::Url,
            fault,
        }),
    }
}

/// The slices of a parsed URL. The path of a URL of the helper `ext` is its whole text.
fn found_of_url<'a>(input: &'a [u8], rules: Rules, url: ParsedUrl<'a>) -> Result<Found<'a>, Refusal>
    requires spelled { HasUrlSyntax input.now (syntax_of url) }
    requires rules { AreRulesOf url.scheme.now rules }
    requires escaped { url.escaped ≡ has_percent url.path.now }
    ensures found { IfOk result (λ found. SpellsUrl input.now (denoted found)) }
    ensures ready { IfOk result (λ found. IsReady found) }
    ensures buffer { IfOk result (λ found. buffer_length_for found ≤ length input.now) }
    ensures flaw { IfErr result (λ refusal. NamesFlaw input.now refusal) }
{
    if is_ext(rules.known) {
        return Ok(Found::Ext { text: input });
    }
    if rules.needs_path && url.path.is_empty() {
        return Err(Refusal::MissingPath { kind: UrlKind::Url });
    }
    Ok(Found::Url { rules, url })
}
