//! Hosts, users and passwords that every reader reads unchanged.

ghost use Rattle.std.specs.Prelude.{◌≡◌, ◌↔◌, ◌&&◌, ◌||◌, ◌==◌, ◌++◌, ◌∷◌, [], List, ℕ, IsTrue, not, true, bytes_eq, IfSome};
ghost use Rattle.std.specs.List.{list_all};
ghost use Rattle.std.specs.Char.{is_ascii_digit, is_ascii_lowercase};
ghost use Rattle.git_syntax.specs.Bytes.{begins_by, dot, hyphen};
ghost use Rattle.git_readers.specs.Conditions.{Meets};
ghost use Rattle.git_readers.specs.Unambiguous as spec;
ghost use Rattle.git_readers.specs.Unambiguous.{AreLabels, BeginsWithNumbers, IsCommonHost, IsPlainLabel, IsPlainName, IsPlainScpHost, IsPlainWord, IsPunycode};
ghost use Rattle.git_readers.specs.declared.unambiguous.Condition.TheVariants as condition;

use crate::classes::are_unreserved;
use crate::unambiguous::{Form, form_of};
use git_location::url_ref::UrlRef;
use git_syntax::bytes::{before, cut, starts_with_byte};
use git_syntax::ipv6::is_dotted;
use git_syntax::scheme::{is_ftp, is_known_scheme};

/// Whether the host is missing or read alike.
pub(crate) fn has_plain_host(url: &UrlRef<'_>) -> bool
    ensures { IsTrue result ↔ Meets condition.Host url.now }
{
    match url.host {
        None => true,
        Some(host) => is_plain_host(host.as_bytes()),
    }
}

/// Whether the text is a plain name or an IPv4 address. Most are common names, which one pass finds.
fn is_plain_host(host: &[u8]) -> bool
    ensures { IsTrue result ↔ IsCommonHost host.now }
{
    is_common_name(host) || is_dotted(host) || is_plain_name(host)
}

/// Whether the text is a name of at most 63 bytes, in which each byte may follow the one before it.
fn is_common_name(host: &[u8]) -> bool
    ensures { IsTrue result → IsPlainName host.now }
{
    let mut before = b'.';
    for byte in host {
        if !may_follow(before, *byte) {
            return false;
        }
        before = *byte;
    }
    is_label_end(before) && host.len() <= 63
}

/// Whether the byte is a lower-case letter; a digit that isn't the first byte of a label; or `-` or `.` after a
/// letter or a digit.
fn may_follow(before: u8, byte: u8) -> bool
    ensures { result ≡ (is_ascii_lowercase byte || (is_ascii_digit byte && not (before == dot)
        || (byte == hyphen || byte == dot) && spec.is_label_end before)) }
{
    byte.is_ascii_lowercase()
        || (byte.is_ascii_digit() && before != b'.')
        || ((byte == b'-' || byte == b'.') && is_label_end(before))
}

/// Whether the text is a name that every reader reads as the same name.
fn is_plain_name(host: &[u8]) -> bool
    ensures { IsTrue result ↔ IsPlainName host.now }
{
    host.len() <= 253 && are_labels(host) && !begins_with_numbers(host)
}

/// Whether the text is plain labels joined by dots, of which the last begins with a letter.
fn are_labels(host: &[u8]) -> bool
    ensures { IsTrue result ↔ AreLabels host.now }
{
    let mut rest = host;
    while let Some((label, suffix)) = cut(rest, b'.') {
        if !is_plain_label(label) {
            return false;
        }
        rest = suffix;
    }
    is_plain_label(rest) && begins_with_letter(rest)
}

/// Whether the text begins with a lower-case letter.
fn begins_with_letter(text: &[u8]) -> bool
    ensures { result ≡ begins_by is_ascii_lowercase text.now }
{
    match text {
        [] => false,
        [first, ..] => first.is_ascii_lowercase(),
    }
}

/// Whether the text is a plain label.
fn is_plain_label(label: &[u8]) -> bool
    ensures { IsTrue result ↔ IsPlainLabel label.now }
{
    are_label_bytes(label)
        && begins_as_label(label)
        && before(label, b'-').is_none()
        && label.len() <= 63
        && !is_punycode(label)
}

/// Whether the text begins with `xn--`.
fn is_punycode(label: &[u8]) -> bool
    ensures { IsTrue result ↔ IsPunycode label.now }
{
    label.starts_with(b"xn--")
}

/// Whether each byte is a lower-case letter, a digit or `-`.
fn are_label_bytes(label: &[u8]) -> bool
    ensures { result ≡ list_all spec.is_label_byte label.now }
{
    label.iter().all(|byte| is_label_byte(*byte))
}

/// Whether the byte is a lower-case letter, a digit or `-`.
fn is_label_byte(byte: u8) -> bool
    ensures { result ≡ spec.is_label_byte byte }
{
    is_label_end(byte) || byte == b'-'
}

/// Whether the byte is a lower-case letter or a digit.
fn is_label_end(byte: u8) -> bool
    ensures { result ≡ spec.is_label_end byte }
{
    byte.is_ascii_lowercase() || byte.is_ascii_digit()
}

/// Whether the text begins with a lower-case letter or a digit.
fn begins_as_label(text: &[u8]) -> bool
    ensures { result ≡ begins_by spec.is_label_end text.now }
{
    match text {
        [] => false,
        [first, ..] => is_label_end(*first),
    }
}

/// Whether the host begins with two labels of digits.
fn begins_with_numbers(host: &[u8]) -> bool
    ensures { IsTrue result ↔ BeginsWithNumbers host.now }
{
    match cut(host, b'.') {
        None => false,
        Some((first, rest)) => are_digits(first) && begins_with_number(rest),
    }
}

/// Whether a label of digits and a dot begin the text.
fn begins_with_number(text: &[u8]) -> bool
    ensures { IsTrue result ↔ ((digits : List ℕ) × (rest : List ℕ)
        × (list_all is_ascii_digit digits ≡ true) × (text.now ≡ digits ++ dot ∷ rest)) }
{
    match cut(text, b'.') {
        None => false,
        Some((digits, _)) => are_digits(digits),
    }
}

/// Whether each byte is a digit.
pub(crate) fn are_digits(text: &[u8]) -> bool
    ensures { result ≡ list_all is_ascii_digit text.now }
{
    text.iter().all(|byte| byte.is_ascii_digit())
}

/// Whether the text isn't empty and has only digits.
pub(crate) fn is_number(text: &[u8]) -> bool
    ensures { IsTrue result
        ↔ ((begins_by is_ascii_digit text.now ≡ true) × (list_all is_ascii_digit text.now ≡ true)) }
{
    match text {
        [] => false,
        [first, ..] => first.is_ascii_digit() && are_digits(text),
    }
}

/// Whether the user is missing or read alike.
pub(crate) fn has_plain_user(url: &UrlRef<'_>) -> bool
    ensures { IsTrue result ↔ Meets condition.User url.now }
{
    match url.user {
        None => true,
        Some(user) => is_plain_word(user.as_bytes()) && !starts_with_byte(user.as_bytes(), b'-'),
    }
}

/// Whether the password is missing or read alike.
pub(crate) fn has_plain_password(url: &UrlRef<'_>) -> bool
    ensures { IsTrue result ↔ Meets condition.Password url.now }
{
    match url.password {
        None => true,
        Some(password) => is_plain_word(password.as_bytes()),
    }
}

/// Whether the text isn't empty, and each byte is an unreserved one.
fn is_plain_word(word: &[u8]) -> bool
    ensures { IsTrue result ↔ IsPlainWord word.now }
{
    !word.is_empty() && are_unreserved(word)
}

/// Whether a host of the scp form is read alike.
pub(crate) fn has_plain_scp_host(url: &UrlRef<'_>) -> bool
    ensures { IsTrue result ↔ Meets condition.ScpHost url.now }
{
    match form_of(url) {
        Form::Scp => is_plain_scp_host(url),
        Form::Web | Form::Transport | Form::Local => true,
    }
}

/// Whether the host is missing, or has at least two bytes and, without a user, is not a scheme.
fn is_plain_scp_host(url: &UrlRef<'_>) -> bool
    ensures { IsTrue result ↔ IfSome url.now.host (IsPlainScpHost url.now.user) }
{
    match url.host {
        None => true,
        Some(host) => { host.len() > 1 && (url.user.is_some() || !is_scheme_word(host.as_bytes())) }
    }
}

/// Whether the word is a scheme that readers of URLs know.
fn is_scheme_word(word: &[u8]) -> bool
    ensures { result ≡ spec.is_scheme_word word.now }
{
    is_known_scheme(word)
        || is_ftp(word)
        || is_named(word, "rsync")
        || is_named(word, "svn")
        || is_named(word, "sftp")
        || is_named(word, "ws")
        || is_named(word, "wss")
}

/// Whether the word is this one.
pub(crate) fn is_named(word: &[u8], name: &str) -> bool
    ensures { result ≡ bytes_eq word.now name.now }
{
    word == name.as_bytes()
}
