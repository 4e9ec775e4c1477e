//! Paths that no reader cuts differently or changes.

ghost use Rattle.std.specs.Prelude.{◌≡◌, ◌↔◌, ◌++◌, ◌⊎◌, IsTrue, codes};
ghost use Rattle.std.specs.List.{list_any};
ghost use Rattle.git_class.specs.GitClass.{AgreesWithGit, is_tilde_second};
ghost use Rattle.git_location.specs.Settled.{begins_with_slashes};
ghost use Rattle.git_class.specs.WebClass.{IsDots};
ghost use Rattle.git_syntax.specs.Bytes.{Holds, unrooted};
ghost use Rattle.git_readers.specs.Conditions.{BeginsPlainly, HasPlainBytes, Meets};
ghost use Rattle.git_readers.specs.Unambiguous as byte;
ghost use Rattle.git_readers.specs.Unambiguous.{BeginsWithPort, HasDots, HasInnerSlash, HasSlashBefore, IsPlainLocal, slashes};
ghost use Rattle.git_readers.specs.declared.unambiguous.Condition.TheVariants as condition;
ghost use Rattle.git_readers.specs.declared.unambiguous.Form.TheVariants as form;

use crate::classes::{are_path_bytes, are_scp_bytes};
use crate::host::is_number;
use crate::unambiguous::{Form, form_of};
use git_location::url_ref::UrlRef;
use git_syntax::bytes::{cut, is_free_of, starts_with_byte};
use git_syntax::text::is_text;

/// Whether no reader cuts the path at one of its bytes or changes one.
pub(crate) fn has_plain_bytes(url: &UrlRef<'_>) -> bool
    ensures { IsTrue result ↔ Meets condition.PathBytes url.now }
{
    match form_of(url) {
        Form::Web | Form::Transport => are_path_bytes(url.path),
        Form::Scp => are_scp_bytes(url.path),
        Form::Local => are_local_bytes(url.path),
    }
}

/// Whether the path is text without a byte for which readers don't regard it as a local path.
fn are_local_bytes(path: &[u8]) -> bool
    ensures { IsTrue result ↔ HasPlainBytes form.Local path.now }
{
    are_scp_bytes(path) || (is_text(path) && !has_odd_local(path))
}

/// Whether the local path has a byte for which readers don't regard it as one.
fn has_odd_local(path: &[u8]) -> bool
    ensures { result ≡ list_any byte.is_odd_local path.now }
{
    path.iter().any(|it| is_odd_local(*it))
}

/// Whether the byte is a control character, `:` or `\`.
fn is_odd_local(it: u8) -> bool
    ensures { result ≡ byte.is_odd_local it }
{
    it < b' ' || it == 127 || it == b':' || it == b'\\'
}

/// Whether the path begins in a way that no reader changes. In a URL of HTTP it does if Git agrees.
pub(crate) fn begins_plainly(url: &UrlRef<'_>) -> bool
    requires { AgreesWithGit url.now }
    ensures { IsTrue result ↔ Meets condition.PathStart url.now }
{
    match form_of(url) {
        Form::Web => true,
        Form::Local => is_plain_local(url.path),
        Form::Transport => begins_as_transport(url.path),
        Form::Scp => !begins_with_port(url.path),
    }
}

/// Whether the path of a transport doesn't begin with `//`, `/~~`, `/-` or `/x:` in the text; that of a file doesn't
/// begin with `/~` either.
fn begins_as_transport(path: &[u8]) -> bool
    ensures { IsTrue result ↔ BeginsPlainly form.Transport path.now }
{
    !begins_with_slashes(path) && !is_tilde_second(path) && !is_odd_start(after_slash(path))
}

/// Whether the text begins with `//`.
fn begins_with_slashes(text: &[u8]) -> bool
    ensures { result ≡ begins_with_slashes text.now }
{
    match text {
        [first, second, ..] => *first == b'/' && *second == b'/',
        _ => false,
    }
}

/// Whether the second byte is `~`.
fn is_tilde_second(text: &[u8]) -> bool
    ensures { result ≡ is_tilde_second text.now }
{
    match text {
        [_, second, ..] => *second == b'~',
        _ => false,
    }
}

/// The path without a `/` at its front.
fn after_slash(path: &[u8]) -> &[u8]
    ensures { result.now ≡ unrooted path.now }
{
    match path {
        [b'/', rest @ ..] => rest,
        _ => path,
    }
}

/// Whether the text begins with `-`, or with a byte and `:`.
fn is_odd_start(text: &[u8]) -> bool
    ensures { result ≡ byte.is_odd_start text.now }
{
    match text {
        [] => false,
        [first, rest @ ..] => *first == b'-' || starts_with_byte(rest, b':'),
    }
}

/// Whether the path begins with digits and `/`.
fn begins_with_port(path: &[u8]) -> bool
    ensures { IsTrue result ↔ BeginsWithPort path.now }
{
    match cut(path, b'/') {
        None => false,
        Some((digits, _)) => is_number(digits),
    }
}

/// Whether the path has no segment `.` or `..`, or is a local one. A URL of HTTP has none if Git agrees.
pub(crate) fn lacks_dots(url: &UrlRef<'_>) -> bool
    requires { AgreesWithGit url.now }
    ensures { IsTrue result ↔ Meets condition.DotSegment url.now }
{
    match form_of(url) {
        Form::Web => true,
        Form::Transport | Form::Scp => is_dotless(url.path) || !has_dots(url.path),
        Form::Local => true,
    }
}

/// Whether the path has no `.`, except for that of `.git` at its end. Most paths are such, and have no segment
/// `.` or `..`.
fn is_dotless(path: &[u8]) -> bool
    ensures { IsTrue result → ¬ HasDots path.now }
{
    is_free_of(without_git(path), b'.')
}

/// The path without `.git` at its end.
fn without_git(path: &[u8]) -> &[u8]
    ensures { (path.now ≡ result.now ++ codes ".git") ⊎ (path.now ≡ result.now) }
{
    match path {
        [front @ .., b'.', b'g', b'i', b't'] => front,
        _ => path,
    }
}

/// Whether a segment of the path is `.` or `..`.
fn has_dots(path: &[u8]) -> bool
    ensures { IsTrue result ↔ HasDots path.now }
{
    let mut rest = path;
    while let Some((segment, suffix)) = cut(rest, b'/') {
        if is_dots(segment) {
            return true;
        }
        rest = suffix;
    }
    is_dots(rest)
}

/// Whether the segment is `.` or `..`.
fn is_dots(segment: &[u8]) -> bool
    ensures { IsTrue result ↔ IsDots segment.now }
{
    match segment {
        [b'.'] | [b'.', b'.'] => true,
        _ => false,
    }
}

/// Whether a path in the scp form has a `/` between two bytes.
pub(crate) fn has_scp_slash(url: &UrlRef<'_>) -> bool
    ensures { IsTrue result ↔ Meets condition.ScpPath url.now }
{
    match form_of(url) {
        Form::Scp => has_inner_slash(url.path),
        Form::Web | Form::Transport | Form::Local => true,
    }
}

/// Whether the path has a `/` between two bytes.
fn has_inner_slash(path: &[u8]) -> bool
    ensures { IsTrue result ↔ HasInnerSlash path.now }
{
    match path {
        [] => false,
        [_, rest @ ..] => has_slash_before(rest),
    }
}

/// Whether the text has a `/` that a byte follows.
fn has_slash_before(text: &[u8]) -> bool
    ensures { IsTrue result ↔ HasSlashBefore text.now }
{
    match cut(text, b'/') {
        None => false,
        Some((_, suffix)) => !suffix.is_empty(),
    }
}

/// Whether no reader reads the local path as a host and a path.
fn is_plain_local(path: &[u8]) -> bool
    ensures { IsTrue result ↔ IsPlainLocal path.now }
{
    !has_slashes(path) && !is_root(path) && (starts_with_byte(path, b'/') || is_free_of(path, b'@'))
}

/// Whether the path is `/`.
fn is_root(path: &[u8]) -> bool
    ensures { IsTrue result ↔ (path.now ≡ codes "/") }
{
    matches!(path, [b'/'])
}

/// Whether the path has a `//`.
fn has_slashes(path: &[u8]) -> bool
    ensures { IsTrue result ↔ Holds slashes path.now }
{
    let mut rest = path;
    while let Some((_, suffix)) = cut(rest, b'/') {
        if starts_with_byte(suffix, b'/') {
            return true;
        }
        rest = suffix;
    }
    false
}
