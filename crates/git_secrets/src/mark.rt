//! Marks and classes of bytes, and the search for the first and the last one in a text.

ghost use Rattle.std.specs.Prelude.{◌≡◌, ◌<◌, ◌≤◌, ◌||◌, IfSome, codes, drop, length};
ghost use Rattle.git_secrets.specs.Secrets as spec;

use crate::token::{has_front, is_gap};
use git_syntax::bytes::{is_path_start, starts_with_byte};

/// A mark that ends or begins a part of a text.
#[derive(Clone, Copy)]
pub(super) enum Mark {
    /// `:`, or its escape.
    Colon,
    /// `@`, or its escape.
    At,
    /// `://`
    Authority,
    /// `::`
    Helper,
    /// `:` or `@`, or the escape of one.
    UserEnd,
}

impl Mark {
    /// Whether the text begins with the mark.
    fn begins(self, text: &[u8]) -> bool
        ensures { result ≡ spec.begins_as self text.now }
    {
        match self {
            Mark::Colon => begins_as_colon(text),
            Mark::At => begins_as_at(text),
            Mark::Authority => has_front(text, "://"),
            Mark::Helper => has_front(text, "::"),
            Mark::UserEnd => begins_as_colon(text) || begins_as_at(text),
        }
    }

    /// The length of the mark at the front of a text, in bytes.
    fn width(self, text: &[u8]) -> usize
        ensures { result ≡ spec.mark_width self text.now }
    {
        match self {
            Mark::Colon if starts_with_byte(text, b':') => 1,
            Mark::At if starts_with_byte(text, b'@') => 1,
            Mark::UserEnd if starts_with_byte(text, b':') || starts_with_byte(text, b'@') => 1,
            Mark::Colon | Mark::At | Mark::UserEnd | Mark::Authority => 3,
            Mark::Helper => 2,
        }
    }

    /// The index of the first mark.
    pub(super) fn first(self, text: &[u8]) -> Option<usize>
        ensures place { result ≡ spec.first_mark self text.now }
        ensures within { IfSome result (λ n. spec.mark_end self text.now n ≤ length text.now) }
    {
        for at in 0..text.len() {
            if self.begins(text.split_at(at).1) {
                return Some(at);
            }
        }
        None
    }

    /// The index after the first mark, which is at index `at`.
    pub(super) fn end(self, text: &[u8], at: usize) -> usize
        requires { spec.mark_end self text.now at ≤ length text.now }
        ensures { result ≡ spec.mark_end self text.now at }
    {
        at + self.width(text.split_at(at).1)
    }

    /// The index of the last mark.
    pub(super) fn last(self, text: &[u8]) -> Option<usize>
        ensures place { result ≡ spec.last_mark self text.now }
        ensures within { IfSome result (λ n. spec.mark_end self text.now n ≤ length text.now) }
    {
        for at in (0..text.len()).rev() {
            if self.begins(text.split_at(at).1) {
                return Some(at);
            }
        }
        None
    }
}

/// Whether the text begins with `:`, or with its escape.
fn begins_as_colon(text: &[u8]) -> bool
    ensures { result ≡ spec.begins_as_colon text.now }
{
    starts_with_byte(text, b':') || has_front(text, "%3A") || has_front(text, "%3a")
}

/// Whether the text begins with `@`, or with its escape.
fn begins_as_at(text: &[u8]) -> bool
    ensures { result ≡ spec.begins_as_at text.now }
{
    starts_with_byte(text, b'@') || has_front(text, "%40")
}

/// A class of bytes that separate the runs of a text.
#[derive(Clone, Copy)]
pub(super) enum Class {
    /// The bytes that no token contains.
    Gap,
    /// The bytes at which a path may start, in an HTTP URL or in another text.
    Path(bool),
    /// `]`
    Bracket,
}

impl Class {
    /// Whether the byte is of the class.
    fn has(self, byte: u8) -> bool
        ensures { result ≡ spec.is_of self byte }
    {
        match self {
            Class::Gap => is_gap(byte),
            Class::Path(web) => is_path_start(byte, web),
            Class::Bracket => byte == b']',
        }
    }

    /// The index of the first byte of the class.
    pub(super) fn first(self, text: &[u8]) -> Option<usize>
        ensures place { result ≡ spec.first_of self text.now }
        ensures within { IfSome result (λ n. n < length text.now) }
    {
        for at in 0..text.len() {
            if self.has(text[at]) {
                return Some(at);
            }
        }
        None
    }
}
