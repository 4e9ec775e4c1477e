//! Host names as people write them, with or without a user.

ghost use Rattle.std.specs.Prelude.{◌≡◌, codes};
ghost use Rattle.std.specs.List.{list_all, list_any};
ghost use Rattle.std.specs.Char.{is_ascii_alphabetic};
ghost use Rattle.bstr.specs.Utf8.{lossy_chars};
ghost use Rattle.explain_report.specs.HostNames as spec;
ghost use Rattle.explain_report.specs.Scripts.{is_drawn_alike, is_mixed, is_mixed_label};
ghost use Rattle.explain_report.specs.Hints.{is_label, is_label_byte, is_user, is_user_byte};
ghost use Rattle.explain_report.specs.Marks.{is_among, last_halves, passes};

use crate::advice::slip::place::is_wide;
use crate::marks::{halves, is_among, last_halves};
use bstr::ByteSlice;
use unicode::properties::Script;

/// Whether the bytes are a host name with a `.` in it.
pub(crate) fn is_host_name(name: &[u8]) -> bool
    ensures { result ≡ spec.is_host_name name.now }
{
    match last_halves(name, b".") {
        Some((front, last)) => is_last_label(last) && are_labels(front),
        None => false,
    }
}

/// Whether the bytes are labels separated by `.`.
fn are_labels(front: &[u8]) -> bool
    ensures { result ≡ list_all is_label (spec.labels front.now) }
{
    front
        .split(|byte| is_dot(*byte))
        .all(|label| is_label(label))
}

/// Whether the byte separates labels.
fn is_dot(byte: u8) -> bool
    ensures { result ≡ spec.is_dot byte }
{
    byte == b'.'
}

/// Whether the bytes are a host name that ends as those of services do.
pub(crate) fn is_name_of_service(name: &[u8]) -> bool
    ensures { result ≡ spec.is_name_of_service name.now }
{
    is_host_name(name) && ends_like_service(name)
}

/// Whether the last label is one of those of most services.
fn ends_like_service(name: &[u8]) -> bool
    ensures { result ≡ passes (λ front last. is_among spec.services last) (last_halves (codes ".") name.now) }
{
    match last_halves(name, b".") {
        Some((_, last)) => is_among(
            last,
            &[
                "com", "org", "net", "io", "dev", "app", "edu", "gov", "info", "cloud",
            ],
        ),
        None => false,
    }
}

/// Whether the bytes may be a label of a host.
fn is_label(label: &[u8]) -> bool
    ensures { result ≡ is_label label.now }
{
    match label {
        [] => false,
        [first, rest @ ..] => is_label_byte(*first) && are_label_bytes(rest),
    }
}

/// Whether the byte is a letter, a digit or `-`.
fn is_label_byte(byte: u8) -> bool
    ensures { result ≡ is_label_byte byte }
{
    byte.is_ascii_alphanumeric() || byte == b'-'
}

/// Whether each byte is a letter, a digit or `-`.
fn are_label_bytes(bytes: &[u8]) -> bool
    ensures { result ≡ list_all is_label_byte bytes.now }
{
    bytes.iter().all(|byte| is_label_byte(*byte))
}

/// Whether the bytes may be the last label of a host, and aren't the end of the name of a bare repository.
fn is_last_label(label: &[u8]) -> bool
    ensures { result ≡ spec.is_last_label label.now }
{
    label.len() > 1 && label != b"git".as_slice() && are_letters(label)
}

/// Whether each byte is a letter.
fn are_letters(label: &[u8]) -> bool
    ensures { result ≡ list_all is_ascii_alphabetic label.now }
{
    label.iter().all(|byte| byte.is_ascii_alphabetic())
}

/// Whether the bytes are a plain user, `@` and a host name.
pub(crate) fn is_user_and_host(bytes: &[u8]) -> bool
    ensures { result ≡ spec.is_user_and_host bytes.now }
{
    match halves(bytes, b"@") {
        Some((user, host)) => is_user(user) && is_host_name(host),
        None => false,
    }
}

/// Whether the bytes are a user without unusual characters.
pub(crate) fn is_user(user: &[u8]) -> bool
    ensures { result ≡ is_user user.now }
{
    match user {
        [] => false,
        [first, rest @ ..] => is_user_byte(*first) && are_user_bytes(rest),
    }
}

/// Whether the byte is a letter, a digit, `-`, `_` or `.`.
fn is_user_byte(byte: u8) -> bool
    ensures { result ≡ is_user_byte byte }
{
    byte.is_ascii_alphanumeric() || byte == b'-' || byte == b'_' || byte == b'.'
}

/// Whether each byte is a letter, a digit, `-`, `_` or `.`.
fn are_user_bytes(bytes: &[u8]) -> bool
    ensures { result ≡ list_all is_user_byte bytes.now }
{
    bytes.iter().all(|byte| is_user_byte(*byte))
}

/// Whether a label of the host has an ASCII letter, and a character of another script with letters that look alike.
pub(crate) fn is_mixed(host: &[u8]) -> bool
    ensures { result ≡ is_mixed host.now }
{
    is_wide(host) && has_mixed_label(host)
}

/// Whether a label of the host has an ASCII letter, and a character of another script with letters that look alike.
fn has_mixed_label(host: &[u8]) -> bool
    ensures { result ≡ list_any is_mixed_label (spec.labels host.now) }
{
    host.split(|byte| is_dot(*byte))
        .any(|label| is_mixed_label(label))
}

/// Whether the label has an ASCII letter, and a character of another script with letters that look alike.
fn is_mixed_label(label: &[u8]) -> bool
    ensures { result ≡ is_mixed_label label.now }
{
    has_letter(label) && has_letter_alike(label)
}

/// Whether the label has an ASCII letter.
fn has_letter(label: &[u8]) -> bool
    ensures { result ≡ list_any is_ascii_alphabetic label.now }
{
    label.iter().any(|byte| byte.is_ascii_alphabetic())
}

/// Whether the label has a character of another script with letters that look like ASCII letters.
fn has_letter_alike(label: &[u8]) -> bool
    ensures { result ≡ list_any is_drawn_alike (lossy_chars label.now) }
{
    for character in label.chars() {
        if is_drawn_alike(character) {
            return true;
        }
    }
    false
}

/// Whether the character is of a script with letters that look like ASCII letters.
fn is_drawn_alike(character: char) -> bool
    ensures { result ≡ is_drawn_alike character }
{
    matches!(
        Script::for_char(character),
        Script::Greek | Script::Cyrillic | Script::Armenian | Script::Cherokee
    )
}
