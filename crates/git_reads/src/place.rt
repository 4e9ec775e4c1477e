//! The host and the port that Git finds in a text: the end of a host in brackets, and the digits that are a
//! port.

ghost use Rattle.std.specs.Prelude.{◌≡◌, ◌++◌, ◌∷◌, ℕ, IfErr, IfOk, List, MatchOption};
ghost use Rattle.git_reads.specs.Git.{CutsPlace, HostAndPort, HostEnd, BracketCut, LacksHostBrackets, OpensHost};
ghost use Rattle.git_reads.specs.Internal.{CutsPlaceAt, LacksOpened};
ghost use Rattle.git_reads.specs.Unread.{HasHostBrackets};

use crate::port::before_port;
use bstr::ByteSlice;
use git_syntax::bytes::{after, cut};
use std::alloc::AllocError;

/// A host in brackets: the texts before, in and after them.
#[derive(Clone, Copy)]
struct Bracketed<'a> {
    front: &'a [u8],
    inside: &'a [u8],
    suffix: &'a [u8],
}

/// The host of a place without its brackets, and the port after it. `named` is the buffer for a host that has
/// brackets.
pub(crate) fn host_and_port<'a>(
    place: &'a [u8],
    named: &'a mut Vec<u8>,
) -> Result<(&'a [u8], Option<u16>), AllocError>
    ensures found { IfOk result (λ it. HostAndPort place.now it.0.now it.1) }
    ensures memory { IfErr result (λ _. HasHostBrackets place.now) }
{
    let Some(found) = in_brackets(place) else {
        return Ok(before_port(place));
    };
    named.clear();
    named.extend_from_slice(found.front)?;
    named.extend_from_slice(found.inside)?;
    Ok((named.as_slice(), before_port(found.suffix).1))
}

/// The text before the first `mark` that follows a host in brackets, and the text from that mark on.
pub(crate) fn cut_place(text: &[u8], mark: u8) -> Option<(&[u8], &[u8])>
    ensures { MatchOption result ((place rest : List ℕ) → ¬ CutsPlace mark text.now place rest)
        (λ it. CutsPlaceAt mark text.now it.0.now it.1.now) }
{
    let (passed, rest) = past_brackets(text);
    let (between, _) = cut(rest, mark)?;
    Some(text.split_at(passed.len() + between.len()))
}

/// The text up to the `]` that closes a host's brackets, and the text from that on.
pub(crate) fn past_brackets(text: &[u8]) -> (&[u8], &[u8])
    ensures end { HostEnd text.now result.0.now result.1.now }
    ensures joined { text.now ≡ result.0.now ++ result.1.now }
{
    match in_brackets(text) {
        Some(found) => text.split_at(found.front.len() + 1 + found.inside.len()),
        None => text.split_at(0),
    }
}

/// The host in brackets, which the next `]` closes.
fn in_brackets(text: &[u8]) -> Option<Bracketed<'_>>
    ensures { MatchOption result (LacksHostBrackets text.now)
        (λ it. BracketCut text.now it.front.now it.inside.now it.suffix.now) }
{
    let (front, rest) = opened_host(text)?;
    let (inside, suffix) = cut(rest, b']')?;
    Some(Bracketed {
        front,
        inside,
        suffix,
    })
}

/// The text before a bracket that opens a host, and the text after it: the bracket of the first `@[`, or else
/// one that begins the text.
fn opened_host(text: &[u8]) -> Option<(&[u8], &[u8])>
    ensures { MatchOption result (LacksOpened text.now) (λ it. OpensHost text.now it.0.now it.1.now) }
{
    match text.find(b"@[") {
        Some(at) => Some((text.split_at(at + 1).0, text.split_at(at + 2).1)),
        None => match after(text, b'[') {
            Some(rest) => Some((text.split_at(0).0, rest)),
            None => None,
        },
    }
}
