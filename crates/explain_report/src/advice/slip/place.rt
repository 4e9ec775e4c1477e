//! Conditions on the host and the port of a line that may contain a mistake.

ghost use Rattle.std.specs.Prelude.{◌≡◌, option_map};
ghost use Rattle.std.specs.List.{list_all, list_any};
ghost use Rattle.std.specs.Char.{is_ascii, is_ascii_digit};
ghost use Rattle.git_syntax.specs.Bytes.{begins_by};
ghost use Rattle.explain_report.specs.Marks.{some_passes};
ghost use Rattle.explain_report.specs.Slips as spec;

use crate::marks::{before, begins_with_some, halves, holds, is_among, last_halves, suffix};

/// The text after the `://` of a URL that names a host.
fn rest_of_url(line: &[u8]) -> Option<&[u8]>
    ensures { option_map (λ rest. rest.now) result ≡ spec.rest_of_url line.now }
{
    match halves(line, b"://") {
        Some((scheme, rest)) if is_among(scheme, &["ssh", "git", "http", "https"]) => Some(rest),
        _ => None,
    }
}

/// The text of a URL in the place of its host and port.
fn place_of(rest: &[u8]) -> &[u8]
    ensures { result.now ≡ spec.place_of rest.now }
{
    suffix(before(rest, b"/"), b"@")
}

/// Whether a URL has a host, and a text other than a port after its colon.
pub(crate) fn has_colon_for_slash(line: &[u8]) -> bool
    ensures { result ≡ spec.has_colon_for_slash line.now }
{
    match rest_of_url(line) {
        Some(rest) => is_host_and_word(place_of(rest)),
        None => false,
    }
}

/// Whether the bytes are a host, one colon, and a word that begins with a letter or `~`.
fn is_host_and_word(bytes: &[u8]) -> bool
    ensures { result ≡ spec.is_host_and_word bytes.now }
{
    match halves(bytes, b":") {
        Some((host, word)) => {
            is_word(word) && !has_bracket(host) && !host.is_empty() && !holds(word, b":")
        }
        None => false,
    }
}

/// Whether the text begins with a letter or `~`.
fn is_word(text: &[u8]) -> bool
    ensures { result ≡ begins_by spec.begins_word text.now }
{
    match text {
        [first, ..] => first.is_ascii_alphabetic() || *first == b'~',
        [] => false,
    }
}

/// Whether the text contains a bracket.
fn has_bracket(text: &[u8]) -> bool
    ensures { result ≡ list_any spec.is_bracket text.now }
{
    text.iter().any(|byte| is_bracket(*byte))
}

/// Whether the byte is a bracket.
fn is_bracket(byte: u8) -> bool
    ensures { result ≡ spec.is_bracket byte }
{
    byte == b'[' || byte == b']'
}

/// Whether a URL has an escaped `@`, and no other one, before a possible host.
pub(crate) fn has_escaped_at(line: &[u8]) -> bool
    ensures { result ≡ spec.has_escaped_at line.now }
{
    match rest_of_url(line) {
        Some(rest) => is_escaped_user(before(before(before(rest, b"/"), b"?"), b"#")),
        None => false,
    }
}

/// Whether a text has an escaped `@`, and no other one, before a possible host.
fn is_escaped_user(front: &[u8]) -> bool
    ensures { result ≡ spec.is_escaped_user front.now }
{
    match last_halves(front, b"%40") {
        Some((_, host)) => !host.is_empty() && !holds(front, b"@"),
        None => false,
    }
}

/// Whether a URL has a colon and no `@` before its first `/`, and an `@` and the beginning of a place after it.
pub(crate) fn has_slash_in_password(line: &[u8]) -> bool
    ensures { result ≡ spec.has_slash_in_password line.now }
{
    match rest_of_url(line) {
        Some(rest) => is_cut_in_password(rest),
        None => false,
    }
}

/// Whether a text has a colon and no `@` before its first `/`, and an `@` and the beginning of a place after it.
fn is_cut_in_password(rest: &[u8]) -> bool
    ensures { result ≡ spec.is_cut_in_password rest.now }
{
    match halves(rest, b"/") {
        Some((front, below)) => {
            holds(front, b":") && !holds(front, b"@") && has_place_after_user(below)
        }
        None => false,
    }
}

/// Whether the bytes contain an `@`, and at least one byte and then a `/` follow the last one.
fn has_place_after_user(bytes: &[u8]) -> bool
    ensures { result ≡ spec.has_place_after_user bytes.now }
{
    match last_halves(bytes, b"@") {
        Some((_, place)) => has_host(place),
        None => false,
    }
}

/// Whether the bytes contain a `/` after their first byte.
fn has_host(place: &[u8]) -> bool
    ensures { result ≡ spec.has_host place.now }
{
    match halves(place, b"/") {
        Some((host, _)) => !host.is_empty(),
        None => false,
    }
}

/// The text of a refused URL in the place of a host without brackets.
pub(crate) fn host_of_refused(line: &[u8]) -> Option<&[u8]>
    ensures { option_map (λ host. host.now) result ≡ spec.host_of_refused line.now }
{
    match halves(line, b"://") {
        Some((_, rest)) => Some(before(place_of(rest), b":")),
        None => None,
    }
}

/// Whether a refused URL of HTTP has a byte beyond ASCII in the place of its host.
pub(crate) fn has_wide_host_of_web(line: &[u8]) -> bool
    ensures { result ≡ spec.has_wide_host_of_web line.now }
{
    begins_with_some(line, &["http://", "https://"]) && has_wide_host(line)
}

/// Whether a refused URL has a byte beyond ASCII in the place of its host.
fn has_wide_host(line: &[u8]) -> bool
    ensures { result ≡ some_passes spec.is_wide (spec.host_of_refused line.now) }
{
    match host_of_refused(line) {
        Some(host) => is_wide(host),
        None => false,
    }
}

/// Whether the text has a byte beyond ASCII.
pub(crate) fn is_wide(text: &[u8]) -> bool
    ensures { result ≡ spec.is_wide text.now }
{
    !is_narrow(text)
}

/// Whether each byte is ASCII.
fn is_narrow(text: &[u8]) -> bool
    ensures { result ≡ list_all is_ascii text.now }
{
    text.iter().all(|byte| byte.is_ascii())
}

/// Whether the text isn't a URL, and has a host and a port in brackets, with or without a user before them.
pub(crate) fn has_port_in_brackets(line: &[u8]) -> bool
    ensures { result ≡ spec.has_port_in_brackets line.now }
{
    let Some((front, _)) = halves(line, b"]:") else {
        return false;
    };
    match halves(front, b"[") {
        Some((user, inside)) => is_before_brackets(user) && is_host_and_port(inside),
        None => false,
    }
}

/// Whether the bytes may precede the brackets of a host that isn't in a URL.
fn is_before_brackets(front: &[u8]) -> bool
    ensures { result ≡ spec.is_before_brackets front.now }
{
    (front.is_empty() || front.ends_with(b"@")) && !holds(front, b"://")
}

/// Whether the bytes are a host, a colon and digits.
fn is_host_and_port(bytes: &[u8]) -> bool
    ensures { result ≡ spec.is_host_and_port bytes.now }
{
    match halves(bytes, b":") {
        Some((host, port)) => !host.is_empty() && !port.is_empty() && is_number(port),
        None => false,
    }
}

/// Whether the bytes are digits.
fn is_number(bytes: &[u8]) -> bool
    ensures { result ≡ list_all is_ascii_digit bytes.now }
{
    bytes.iter().all(|byte| byte.is_ascii_digit())
}

/// Whether a path begins with a possible port and `/`.
pub(crate) fn begins_with_port(path: &[u8]) -> bool
    ensures { result ≡ spec.begins_with_port path.now }
{
    match halves(path, b"/") {
        Some((port, _)) => may_be_port(port),
        None => false,
    }
}

/// Whether the bytes are one to five digits.
fn may_be_port(port: &[u8]) -> bool
    ensures { result ≡ spec.may_be_port port.now }
{
    !port.is_empty() && port.len() <= 5 && is_number(port)
}

/// Whether the line begins like a Windows path with a drive.
pub(crate) fn begins_with_drive(line: &[u8]) -> bool
    ensures { result ≡ spec.begins_with_drive line.now }
{
    match line {
        [letter, b':', rest @ ..] => letter.is_ascii_alphabetic() && begins_on_drive(rest),
        _ => false,
    }
}

/// Whether the text begins with `\`, or with a `/` that no `~` follows.
fn begins_on_drive(rest: &[u8]) -> bool
    ensures { result ≡ spec.begins_on_drive rest.now }
{
    match rest {
        [b'/', b'~', ..] => false,
        [b'\\' | b'/', ..] => true,
        _ => false,
    }
}

/// Whether the host of a file URL is the letter of a drive and a colon.
pub(crate) fn is_drive(host: &str) -> bool
    ensures { result ≡ spec.is_drive host.now }
{
    match host.as_bytes() {
        [letter, rest @ ..] => letter.is_ascii_alphabetic() && rest == b":".as_slice(),
        [] => false,
    }
}
