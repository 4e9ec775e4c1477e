//! The length test of URLs.
//!
//! A check receives the text after the `://` of a URL in any number of pieces, so it also works for a text
//! that isn't in one buffer. It reads no further byte once the outcome is fixed, and none if the text is at
//! most as long as the limit.

ghost use Rattle.std.specs.Prelude.{◌≡◌, ◌↔◌, ◌++◌, [], List, ℕ, IsTrue, not};
ghost use Rattle.std.specs.List.{count_by};
ghost use Rattle.std.specs.Char.{is_ascii_whitespace};
ghost use Rattle.git_syntax.specs.Authority.{Fits};
ghost use Rattle.git_syntax.specs.Bytes.{Lacks};
ghost use Rattle.git_syntax.specs.Internal.LengthChecks.{is_skipped, is_in_time, is_text_in_time, length_check_for};

use crate::bytes::cut_before_path;
use crate::scheme::is_web_scheme;
use memchr::{memchr2, memchr3};

/// The maximal length of a scheme, in bytes, and the maximal number of bytes after `://` that may count.
pub const LIMIT: usize = 1024;

/// The state of a check over the text after the `://` of a URL.
#[derive(Clone, Copy)]
enum Stage {
    /// So far only slashes, backslashes and white space, which are skipped.
    Slashes,
    /// The front. A path starts in time if it starts within this number of further bytes that count.
    Front(usize),
    /// Whether a path started in time. No further byte changes this.
    Fixed(bool),
}

impl Stage {
    /// The stage after these bytes.
    fn advance(self, web: bool, bytes: &[u8]) -> Stage
        ensures { (suffix : List ℕ)
            → is_in_time web result suffix ≡ is_in_time web self (bytes.now ++ suffix) }
    {
        match self {
            Stage::Slashes => advance_slashes(web, bytes),
            Stage::Front(within) => advance_front(web, within, bytes),
            Stage::Fixed(in_time) => Stage::Fixed(in_time),
        }
    }

    /// Whether a path started in time, if nothing follows.
    fn is_in_time(self, web: bool) -> bool
        ensures { result ≡ is_in_time web self [] }
    {
        matches!(self, Stage::Fixed(true))
    }
}

/// The stage after these bytes, if only skipped bytes came before them.
fn advance_slashes(web: bool, bytes: &[u8]) -> Stage
    ensures { (suffix : List ℕ)
        → is_in_time web result suffix ≡ is_in_time web Stage.Slashes (bytes.now ++ suffix) }
{
    let mut rest = bytes;
    while let [first, suffix @ ..] = rest {
        if !is_skipped(*first) {
            return advance_front(web, LIMIT + 1, rest);
        }
        rest = suffix;
    }
    Stage::Slashes
}

/// The stage after these bytes of the front. They are read in windows, as few as fix the outcome.
fn advance_front(web: bool, within: usize, bytes: &[u8]) -> Stage
    ensures { (suffix : List ℕ)
        → is_in_time web result suffix ≡ is_in_time web (Stage.Front within) (bytes.now ++ suffix) }
{
    let mut left = within;
    let mut rest = bytes;
    while !rest.is_empty() {
        let (window, suffix) = rest.split_at(rest.len().min(LIMIT + 1));
        let (front, path) = cut_before_path(window, web);
        left = left.saturating_sub(count_visible(front));
        if left == 0 {
            return Stage::Fixed(false);
        }
        if !path.is_empty() {
            return Stage::Fixed(true);
        }
        rest = suffix;
    }
    Stage::Front(left)
}

/// The number of bytes that count: those that aren't white space.
fn count_visible(bytes: &[u8]) -> usize
    ensures { result ≡ count_by (λ b. not (is_ascii_whitespace b)) bytes.now }
{
    // Few texts have white space, and searching for it is faster than testing each byte.
    if lacks_white_space(bytes) {
        return bytes.len();
    }
    bytes
        .iter()
        .filter(|byte| !byte.is_ascii_whitespace())
        .count()
}

/// Whether no byte is white space.
fn lacks_white_space(bytes: &[u8]) -> bool
    ensures { IsTrue result ↔ Lacks is_ascii_whitespace bytes.now }
{
    memchr3(b' ', b'\t', b'\n', bytes).is_none() && memchr2(b'\r', b'\x0c', bytes).is_none()
}

/// Whether the byte is skipped at the front: `/`, `\` and white space.
pub fn is_skipped(byte: u8) -> bool
    ensures { result ≡ is_skipped byte }
{
    byte == b'/' || byte == b'\\' || byte.is_ascii_whitespace()
}

/// A check over the whole text of a URL, which skips the scheme and the `://` after it.
#[derive(Clone, Copy)]
pub struct LengthCheck {
    left: usize,
    web: bool,
    stage: Stage,
}

impl LengthCheck {
    /// A check over the text of a URL with this scheme, before its first byte.
    pub fn over(scheme: &[u8]) -> LengthCheck
        ensures { result ≡ length_check_for scheme.now }
    {
        LengthCheck {
            left: scheme.len() + 3,
            web: is_web_scheme(scheme),
            stage: Stage::Slashes,
        }
    }

    /// The check after these bytes.
    pub fn advance(self, bytes: &[u8]) -> LengthCheck
        ensures { (suffix : List ℕ)
            → is_text_in_time result suffix ≡ is_text_in_time self (bytes.now ++ suffix) }
    {
        if bytes.len() <= self.left {
            return LengthCheck {
                left: self.left - bytes.len(),
                web: self.web,
                stage: self.stage,
            };
        }
        LengthCheck {
            left: 0,
            web: self.web,
            stage: self.stage.advance(self.web, bytes.split_at(self.left).1),
        }
    }

    /// Whether a path started in time after the scheme, if nothing follows.
    pub fn is_in_time(self) -> bool
        ensures { result ≡ is_text_in_time self [] }
    {
        self.stage.is_in_time(self.web)
    }
}

/// Whether a scheme and the text after its `://` are short enough.
pub fn fits(scheme: &[u8], rest: &[u8]) -> bool
    ensures { IsTrue result ↔ Fits scheme.now rest.now }
{
    if scheme.len() > LIMIT {
        return false;
    }
    // At most all bytes count, so a short rest need not be read.
    if rest.len() <= LIMIT {
        return true;
    }
    let web = is_web_scheme(scheme);
    advance_slashes(web, rest).is_in_time(web)
}
