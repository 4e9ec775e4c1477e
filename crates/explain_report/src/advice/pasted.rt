//! Texts that people paste together with a location: commands, quotes, links, lines of a configuration, the end of a
//! sentence.

ghost use Rattle.std.specs.Prelude.{◌≡◌};
ghost use Rattle.std.specs.List.{list_all};
ghost use Rattle.explain_report.specs.Pasted as spec;

use crate::marks::{begins_with_some, halves, holds, is_among_in_any_case, last_halves};

/// Whether the line begins with a command of Git, with or without a prompt before it.
pub(crate) fn begins_with_command(line: &[u8]) -> bool
    ensures { result ≡ spec.begins_with_command line.now }
{
    begins_with_some(
        without_prompt(line),
        &[
            "git clone ",
            "git fetch ",
            "git pull ",
            "git push ",
            "git ls-remote ",
            "git remote add ",
            "git remote set-url ",
            "git submodule add ",
        ],
    )
}

/// The line without a prompt before it.
fn without_prompt(line: &[u8]) -> &[u8]
    ensures { result.now ≡ spec.without_prompt line.now }
{
    match line {
        [b'$' | b'%' | b'#' | b'>', b' ', typed @ ..] => typed,
        _ => line,
    }
}

/// Whether the line is in quotes or in angle brackets.
pub(crate) fn is_quoted(line: &[u8]) -> bool
    ensures { result ≡ spec.is_quoted line.now }
{
    is_within(line, b'"', b'"')
        || is_within(line, b'\'', b'\'')
        || is_within(line, b'`', b'`')
        || is_within(line, b'<', b'>')
}

/// Whether a text begins with one byte, and the rest of it ends with the other.
fn is_within(text: &[u8], begin: u8, end: u8) -> bool
    ensures { result ≡ spec.is_within begin end text.now }
{
    match text {
        [first, rest @ ..] => *first == begin && rest.ends_with(&[end]),
        [] => false,
    }
}

/// Whether the line is a Markdown link.
pub(crate) fn is_markdown_link(line: &[u8]) -> bool
    ensures { result ≡ spec.is_markdown_link line.now }
{
    line.starts_with(b"[") && line.ends_with(b")") && holds(line, b"](")
}

/// Whether the line is a remote as `git remote -v` lists it.
pub(crate) fn is_listed_remote(line: &[u8]) -> bool
    ensures { result ≡ spec.is_listed_remote line.now }
{
    line.ends_with(b" (fetch)") || line.ends_with(b" (push)")
}

/// Whether the line sets the URL of a remote or of a submodule.
pub(crate) fn is_setting(line: &[u8]) -> bool
    ensures { result ≡ spec.is_setting line.now }
{
    match halves(line, b"=") {
        Some((key, _)) => is_key_of_url(without_end_blanks(without_front_blanks(key))),
        None => false,
    }
}

/// The text without white space at its front.
fn without_front_blanks(text: &[u8]) -> &[u8]
    ensures { result.now ≡ spec.without_front_blanks text.now }
{
    text.trim_ascii_start()
}

/// The text without white space at its end.
fn without_end_blanks(text: &[u8]) -> &[u8]
    ensures { result.now ≡ spec.without_end_blanks text.now }
{
    text.trim_ascii_end()
}

/// Whether a key is that of a URL, alone or after its section.
fn is_key_of_url(key: &[u8]) -> bool
    ensures { result ≡ spec.is_key_of_url key.now }
{
    match last_halves(key, b".") {
        Some((section, name)) => {
            begins_with_some(section, &["remote.", "submodule."]) && is_name_of_url(name)
        }
        None => is_name_of_url(key),
    }
}

/// Whether a name is that of a URL in a configuration.
fn is_name_of_url(name: &[u8]) -> bool
    ensures { result ≡ spec.is_name_of_url name.now }
{
    is_among_in_any_case(name, &["url", "pushurl"])
}

/// Whether the line ends with the name of a bare repository, followed by punctuation. Few lines end with punctuation, and
/// only these are searched.
pub(crate) fn ends_like_sentence(line: &[u8]) -> bool
    ensures { result ≡ spec.ends_like_sentence line.now }
{
    match line {
        [.., last] if ends_clause(*last) => ends_after_repository(line),
        _ => false,
    }
}

/// Whether nothing but punctuation follows the last `.git` of the line, and at least one byte does.
fn ends_after_repository(line: &[u8]) -> bool
    ensures { result ≡ spec.ends_like_sentence line.now }
{
    match last_halves(line, b".git") {
        Some((_, rest)) => !rest.is_empty() && end_clause(rest),
        None => false,
    }
}

/// Whether each byte ends a part of a sentence.
fn end_clause(bytes: &[u8]) -> bool
    ensures { result ≡ list_all spec.ends_clause bytes.now }
{
    bytes.iter().all(|byte| ends_clause(*byte))
}

/// Whether the byte ends a part of a sentence.
fn ends_clause(byte: u8) -> bool
    ensures { result ≡ spec.ends_clause byte }
{
    matches!(byte, b',' | b';' | b')' | b'.')
}
