//! A command as a line for a POSIX shell: a variable, a program and words, each in quotes if a shell needs them.
//!
//! `tests/programs/test_ssh_commands.py` runs the lines in a shell.

ghost use Rattle.std.specs.Prelude.{◌≡◌};
ghost use Rattle.explain.specs.ShellWords as spec;

use crate::client::Client;
use bstr::BString;
use explain_report::text::line::{ShellWord, Shown};
use std::alloc::{AllocError, Global};
use std::fmt::{self, Write};

/// The line of a command: the value of `GIT_PROTOCOL` if there is one, the program, and the words.
pub fn line_of(
    alloc: Global,
    client: Client<'_>,
    git_protocol: Option<&str>,
    words: &[BString],
) -> Result<String, AllocError> {
    let mut out = String::new(alloc);
    push_variable(&mut out, git_protocol)?;
    push_program(alloc, &mut out, client)?;
    for word in words {
        let word = Word(word.as_bytes());
        write!(out, " {word}")?;
    }
    out.push('\n')?;
    Ok(out)
}

/// Appends the variable, if it has a value, which is a plain word.
fn push_variable(out: &mut String, value: Option<&str>) -> Result<(), AllocError> {
    match value {
        None => Ok(()),
        Some(value) => write!(out, "GIT_PROTOCOL={value} "),
    }
}

/// Appends the program, or a command line in the form in which Git has a shell run it, with the words after it.
fn push_program(alloc: Global, out: &mut String, client: Client<'_>) -> Result<(), AllocError> {
    if client.text == b"ssh".as_slice() {
        return out.push_str("ssh");
    }
    let program = ShellWord(client.text);
    if !client.is_command_line || is_plain(client.text) {
        return write!(out, "{program}");
    }
    let line = with_words(alloc, client.text)?;
    let script = ShellWord(line.as_slice());
    let written = write!(out, "sh -c {script} {program}");
    drop(line);
    written
}

/// A command line, followed by the words that a shell gets.
fn with_words(alloc: Global, line: &[u8]) -> Result<Vec<u8>, AllocError> {
    let mut script = Vec::new(alloc);
    script.extend_from_slice(line)?;
    script.extend_from_slice(b" \"$@\"")?;
    Ok(script)
}

/// A word for a shell: unquoted if each of its bytes is plain, otherwise in quotes.
#[derive(Clone, Copy)]
struct Word<'a>(&'a [u8]);

impl fmt::Display for Word<'_> {
    fn fmt<W: fmt::Write>(&self, f: &mut fmt::Formatter<W>) -> fmt::Result {
        if is_plain(self.0) {
            return write!(f, "{}", Shown(self.0));
        }
        write!(f, "{}", ShellWord(self.0))
    }
}

/// Whether a word isn't empty, and a shell takes each of its bytes literally.
fn is_plain(word: &[u8]) -> bool
    ensures { result ≡ spec.is_plain word.now }
{
    match word {
        [] => false,
        _ => are_plain(word),
    }
}

/// Whether a shell takes each byte literally in each word except the first.
fn are_plain(bytes: &[u8]) -> bool
    ensures { result ≡ spec.are_plain bytes.now }
{
    bytes.iter().all(|byte| is_plain_byte(*byte))
}

/// Whether a shell takes a byte literally in each word except the first.
fn is_plain_byte(byte: u8) -> bool
    ensures { result ≡ spec.is_plain_byte byte }
{
    byte.is_ascii_alphanumeric() || b"%+,-./:=@_".contains(&byte)
}
