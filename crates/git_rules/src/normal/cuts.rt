//! Splits a URL into its parts.

ghost use Rattle.std.specs.Prelude.{◌≡◌, List, ℕ, MatchOption, true};
ghost use Rattle.memchr.specs.Find.{IsFirstByte};
ghost use Rattle.git_syntax.specs.Bytes.{is_path_start, is_query_start, unrooted};
ghost use Rattle.git_rules.specs.Normal.{UrlCut};
ghost use Rattle.git_rules.specs.NormalPieces.{CutsBefore};

use git_syntax::bytes::{after, cut, is_scheme_text};
use memchr::{memchr2, memchr3};

/// The scheme, the authority and the text after them, if the text is a URL.
pub(super) fn cut_url(text: &[u8]) -> Option<(&[u8], &[u8], &[u8])>
    ensures { MatchOption result ((s a b : List ℕ) → ¬ UrlCut text.now s a b)
        (λ p. UrlCut text.now p.0.now p.1.now p.2.now) }
{
    let (scheme, suffix) = cut(text, b':')?;
    if !is_scheme_text(scheme) {
        return None;
    }
    let more = after(suffix, b'/')?;
    let rest = after(more, b'/')?;
    let (authority, suffix) = cut_before_path(rest);
    Some((scheme, authority, suffix))
}

/// Splits a text before the first byte that ends an authority.
fn cut_before_path(text: &[u8]) -> (&[u8], &[u8])
    ensures { CutsBefore (is_path_start true) text.now result.0.now result.1.now }
{
    match path_start(text) {
        Some(at) => text.split_at(at),
        None => text.split_at(text.len()),
    }
}

/// The index of the first byte that ends an authority.
fn path_start(text: &[u8]) -> Option<usize>
    ensures { IsFirstByte (is_path_start true) text.now result }
{
    memchr3(b'/', b'?', b'#', text)
}

/// Splits a text before its query or fragment.
pub(super) fn cut_before_rest(text: &[u8]) -> (&[u8], &[u8])
    ensures { CutsBefore is_query_start text.now result.0.now result.1.now }
{
    match rest_start(text) {
        Some(at) => text.split_at(at),
        None => text.split_at(text.len()),
    }
}

/// The index of the first byte that begins a query or a fragment.
fn rest_start(text: &[u8]) -> Option<usize>
    ensures { IsFirstByte is_query_start text.now result }
{
    memchr2(b'?', b'#', text)
}

/// The text without a leading `/`.
pub(super) fn unrooted(text: &[u8]) -> &[u8]
    ensures { result.now ≡ unrooted text.now }
{
    match text {
        [] => text,
        [first, rest @ ..] => { if *first == b'/' { rest } else { text } }
    }
}
