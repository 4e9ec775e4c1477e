//! Conditions on the bytes of a line that may contain a mistake, however they are read.
//!
//! Each has a definition in `specs/Slips.antt`, and `hint` chooses the hint. [`place`] has those on hosts and ports.

ghost use Rattle.std.specs.Prelude.{◌≡◌, option_map};
ghost use Rattle.std.specs.List.{list_all, list_any};
ghost use Rattle.std.specs.Char.{is_ascii_alphanumeric, is_ascii_uppercase};
ghost use Rattle.explain_report.specs.Hints.{is_remote_name, is_word_byte};
ghost use Rattle.explain_report.specs.Slips as spec;

mod edit;
pub(crate) mod place;

use crate::advice::host_name::is_user;
use crate::advice::slip::edit::is_near_one_of;
use crate::marks::{begins_with_some, halves, is_among, is_among_in_any_case};

/// Whether the line is a word that may be the name of a remote.
pub(crate) fn is_remote_name(line: &[u8]) -> bool
    ensures { result ≡ is_remote_name line.now }
{
    match line {
        [] => false,
        [first, rest @ ..] => {
            (first.is_ascii_alphanumeric() || *first == b'_') && are_word_bytes(rest)
        }
    }
}

/// Whether the byte is a letter, a digit, `-` or `_`.
fn is_word_byte(byte: u8) -> bool
    ensures { result ≡ is_word_byte byte }
{
    byte.is_ascii_alphanumeric() || byte == b'-' || byte == b'_'
}

/// Whether each byte is a letter, a digit, `-` or `_`.
fn are_word_bytes(bytes: &[u8]) -> bool
    ensures { result ≡ list_all is_word_byte bytes.now }
{
    bytes.iter().all(|byte| is_word_byte(*byte))
}

/// The first element of a relative path, if something follows it.
pub(crate) fn first_element(path: &[u8]) -> Option<&[u8]>
    ensures { option_map (λ first. first.now) result ≡ spec.first_element path.now }
{
    match halves(path, b"/") {
        Some((first, rest)) if !rest.is_empty() => Some(first),
        _ => None,
    }
}

// ---- schemes

/// Whether a word is the name of a transport that Git has or had.
fn is_transport(word: &[u8]) -> bool
    ensures { result ≡ spec.is_transport word.now }
{
    is_among(
        word,
        &[
            "ssh", "git", "http", "https", "file", "ftp", "ftps", "git+ssh", "ssh+git",
        ],
    )
}

/// Whether a word is the name of a transport, ignoring letter case.
fn is_transport_in_any_case(word: &[u8]) -> bool
    ensures { result ≡ spec.is_transport_in_any_case word.now }
{
    is_among_in_any_case(
        word,
        &[
            "ssh", "git", "http", "https", "file", "ftp", "ftps", "git+ssh", "ssh+git",
        ],
    )
}

/// Whether the scheme is one of Git's except for its capital letters.
pub(crate) fn has_capital_scheme(line: &[u8]) -> bool
    ensures { result ≡ spec.has_capital_scheme line.now }
{
    match halves(line, b"://") {
        Some((scheme, _)) => has_capital(scheme) && is_transport_in_any_case(scheme),
        None => false,
    }
}

/// Whether the text has a capital letter.
fn has_capital(text: &[u8]) -> bool
    ensures { result ≡ list_any is_ascii_uppercase text.now }
{
    text.iter().any(|byte| byte.is_ascii_uppercase())
}

/// Whether the colon of a transport other than `git` is followed by only one `/`.
pub(crate) fn has_one_slash(line: &[u8]) -> bool
    ensures { result ≡ spec.has_one_slash line.now }
{
    match halves(line, b":/") {
        Some((scheme, rest)) => {
            is_transport(scheme) && scheme != b"git".as_slice() && !rest.starts_with(b"/")
        }
        None => false,
    }
}

/// Whether the line begins with the scheme of a package manager.
pub(crate) fn begins_with_package_scheme(line: &[u8]) -> bool
    ensures { result ≡ spec.begins_with_package_scheme line.now }
{
    begins_with_some(
        line,
        &[
            "git+http://",
            "git+https://",
            "git+file://",
            "git+git://",
            "git::",
        ],
    )
}

/// Whether a user precedes the scheme of a transport.
pub(crate) fn has_scheme_after_user(line: &[u8]) -> bool
    ensures { result ≡ spec.has_scheme_after_user line.now }
{
    let Some((front, _)) = halves(line, b"://") else {
        return false;
    };
    match halves(front, b"@") {
        Some((user, scheme)) => is_user(user) && is_transport(scheme),
        None => false,
    }
}

/// Whether a local path begins with the name of a transport and two slashes, without a colon.
pub(crate) fn lacks_colon(path: &[u8]) -> bool
    ensures { result ≡ spec.lacks_colon path.now }
{
    match halves(path, b"//") {
        Some((scheme, _)) => is_transport(scheme),
        None => false,
    }
}

/// Whether the name of a transport is followed by two colons and two slashes.
pub(crate) fn has_two_colons(line: &[u8]) -> bool
    ensures { result ≡ spec.has_two_colons line.now }
{
    match halves(line, b":://") {
        Some((scheme, _)) => is_transport(scheme),
        None => false,
    }
}

/// Whether the scheme of a transport directly precedes that of another URL.
pub(crate) fn has_scheme_twice(line: &[u8]) -> bool
    ensures { result ≡ spec.has_scheme_twice line.now }
{
    let Some((first, rest)) = halves(line, b"://") else {
        return false;
    };
    match halves(rest, b"://") {
        Some((second, _)) => is_transport(first) && is_transport(second),
        None => false,
    }
}

/// Whether the scheme isn't a transport, but is close to one.
pub(crate) fn has_near_scheme(line: &[u8]) -> bool
    ensures { result ≡ spec.has_near_scheme line.now }
{
    match halves(line, b"://") {
        Some((scheme, _)) => {
            are_letters_and_digits(scheme)
                && !is_transport_in_any_case(scheme)
                && is_near_one_of(scheme, &["ssh", "git", "http", "https", "file"])
        }
        None => false,
    }
}

/// Whether each byte is a letter or a digit.
fn are_letters_and_digits(text: &[u8]) -> bool
    ensures { result ≡ list_all is_ascii_alphanumeric text.now }
{
    text.iter().all(|byte| byte.is_ascii_alphanumeric())
}
