//! The rest of a parent after the steps of a URL: each `../` removes the part that Git removes, in turn.

ghost use Rattle.std.specs.Prelude.{◌≡◌, MatchOption, None, Some, option_map};
ghost use Rattle.git_syntax.specs.Bytes.{colon};
ghost use Rattle.git_modules.specs.ResolveParents.{before_last, chop, chop_element, chopped, form_of, is_remote, left_of, whole_of, without_colon};
ghost use Rattle.git_modules.specs.ResolveSteps.{after_steps, ups};

use super::step::{after_here, after_up};
use super::without_last_slash;
use git_syntax::bytes::{last_cut, starts_with_byte};
use std::marker::Model;

/// The form of a parent, which decides how elements are removed from it.
#[derive(Clone, Copy)]
pub enum ParentForm {
    /// A URL, a remote in the scp form, or an absolute path.
    Rooted,
    /// A relative path that begins with `../`.
    Upward,
    /// Any other relative path.
    Downward,
}

/// The rest of a parent.
#[derive(Drop)]
pub struct Left<'a> {
    /// The text, or `None` if all of it is removed.
    pub text: Option<&'a [u8]>,
    /// Whether a `:` was removed.
    pub by_colon: bool,
}

impl<'a> Model for Left<'a> {
    ghost use Rattle.git_modules.specs.ResolveParents.{LeftOver};

    ghost Value = { LeftOver };

    ghost use Rattle.git_modules.specs.ResolveViews.{left_over};

    ghost view = { left_over };
}

/// Returns the rest of a parent after the steps of a URL, and the rest of the URL, or `None` if Git stops.
pub fn left_of<'a, 'b>(parent: &'a [u8], url: &'b [u8]) -> Option<(Left<'a>, &'b [u8])>
    ensures { MatchOption result (left_of parent.now (ups url.now) ≡ None)
        (λ p. (left_of parent.now (ups url.now) ≡ Some p.0) × (p.1.now ≡ after_steps url.now)) }
{
    climb(without_last_slash(parent), url)
}

/// The whole parent.
fn whole_of(parent: &[u8]) -> Left<'_>
    ensures { result ≡ whole_of parent.now }
{
    let text = match after_here(parent) {
        Some(suffix) => suffix,
        None => parent,
    };
    Left {
        text: Some(text),
        by_colon: false,
    }
}

/// The form of a parent.
fn form_of(parent: &[u8]) -> ParentForm
    ensures { result ≡ form_of parent.now }
{
    if is_remote(parent) || starts_with_byte(parent, b'/') {
        ParentForm::Rooted
    } else if after_up(parent).is_some() {
        ParentForm::Upward
    } else {
        ParentForm::Downward
    }
}

/// Whether the text has a colon before each `/`.
pub fn is_remote(text: &[u8]) -> bool
    ensures { result ≡ is_remote text.now }
{
    for byte in text {
        if *byte == b':' {
            return true;
        }
        if *byte == b'/' {
            return false;
        }
    }
    false
}

/// As `left_of`, for a parent without a trailing `/`.
fn climb<'a, 'b>(parent: &'a [u8], url: &'b [u8]) -> Option<(Left<'a>, &'b [u8])>
    ensures { MatchOption result (chopped (form_of parent.now) (ups url.now) (whole_of parent.now) ≡ None)
        (λ p. (chopped (form_of parent.now) (ups url.now) (whole_of parent.now) ≡ Some p.0)
        × (p.1.now ≡ after_steps url.now)) }
{
    let form = form_of(parent);
    let mut left = whole_of(parent);
    let mut rest = url;
    loop {
        if let Some(next) = after_up(rest) {
            left = chop(form, &left)?;
            rest = next;
        } else if let Some(next) = after_here(rest) {
            rest = next;
        } else {
            return Some((left, rest));
        }
    }
}

/// The rest after a `../`.
fn chop<'a>(form: ParentForm, left: &Left<'a>) -> Option<Left<'a>>
    ensures { result ≡ chop form left.now }
{
    let text = left.text?;
    match before_last(text, b'/') {
        Some(front) => Some(Left {
            text: Some(front),
            by_colon: left.by_colon,
        }),
        None => chop_element(form, text, left.by_colon),
    }
}

/// The rest of a text without a `/` after a `../`.
fn chop_element(form: ParentForm, text: &[u8], by_colon: bool) -> Option<Left<'_>>
    ensures { result ≡ chop_element form text.now by_colon }
{
    match form {
        ParentForm::Upward => None,
        ParentForm::Downward => Some(Left {
            text: None,
            by_colon,
        }),
        ParentForm::Rooted => without_colon(text, by_colon),
    }
}

/// The text before its last `:`; nothing is left of a text without one, unless it is `.`.
fn without_colon(text: &[u8], by_colon: bool) -> Option<Left<'_>>
    ensures { result ≡ without_colon (before_last colon text.now) text.now by_colon }
{
    match before_last(text, b':') {
        Some(front) => Some(Left {
            text: Some(front),
            by_colon: true,
        }),
        None => all_of(text, by_colon),
    }
}

/// Nothing is left of a text, unless it is `.`.
fn all_of(text: &[u8], by_colon: bool) -> Option<Left<'_>>
    ensures { result ≡ without_colon None text.now by_colon }
{
    if text == b".".as_slice() {
        None
    } else {
        Some(Left {
            text: None,
            by_colon,
        })
    }
}

/// The text before its last `c`.
fn before_last(text: &[u8], c: u8) -> Option<&[u8]>
    ensures { option_map (λ t. t.now) result ≡ before_last c text.now }
{
    match last_cut(text, c) {
        Some((front, _)) => Some(front),
        None => None,
    }
}
