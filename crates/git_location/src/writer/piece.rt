//! The pieces of a text, in their order: slices of the location, each with the way that it is written.
//!
//! They are the only description of a text: `len` adds up their lengths, and `put` puts them into any sink.

ghost use Rattle.std.specs.Prelude.{◌≡◌, ◌≤◌, ◌*◌, ◌^◌, ◌==◌, ◌++◌, IsTrue, OnOk, length, [], count_by, not};
ghost use Rattle.std.specs.List.{list_all};
ghost use Rattle.percent_encoding.specs.AsciiSet.{should_percent_encode};
ghost use Rattle.percent_encoding.specs.Percent.{percent_encode};
ghost use Rattle.git_syntax.specs.declared.escape.TheConstants.{PATH, PASSWORD, USER};
ghost use Rattle.git_syntax.specs.Bytes.{percent_sign};
ghost use Rattle.git_location.specs.Internal.Pieces.{host_text, path_end_text, piece_text, pieces_text, port_text, scheme_piece_text, user_text};

use crate::writer::escaped::write_escaped;
use crate::writer::sink::{Sink, write_percents};
use crate::writer::unescaped::{needs_no_escape, user_needs_no_escape};
use git_syntax::escape::{PASSWORD, PATH, USER};
use percent_encoding::AsciiSet;

/// The number of bytes in a block in which `%` is counted.
const COUNTED: usize = 128;

/// A slice and the way in which it is written. The written text is UTF-8.
#[derive(Clone, Copy)]
pub enum Piece<'a> {
    /// The slice, unescaped.
    Raw(&'a str),
    /// The slice with the escapes of a user.
    User(&'a str),
    /// The slice with the escapes of a password.
    Password(&'a str),
    /// The slice with each `%` escaped.
    Percents(&'a str),
}

/// A scheme or a helper's name, and the mark after it.
#[derive(Clone, Copy)]
pub enum SchemePieces<'a> {
    /// No scheme.
    None,
    /// The name and its mark.
    Marked(&'a str, &'a str),
}

/// A user, a password and the marks after them.
#[derive(Clone, Copy)]
pub enum UserPieces<'a> {
    /// No user.
    None,
    /// A user and `@`.
    User(Piece<'a>),
    /// A user, `:`, a password and `@`.
    Both(Piece<'a>, Piece<'a>),
}

/// A host, perhaps in brackets.
#[derive(Clone, Copy)]
pub enum HostPieces<'a> {
    /// No host.
    None,
    /// The host.
    Open(Piece<'a>),
    /// The host in brackets.
    Bracketed(Piece<'a>),
}

/// The mark before a path, and the path: any bytes, unescaped or with escapes.
#[derive(Clone, Copy)]
pub enum PathPieces<'a> {
    /// The mark, and the path unescaped.
    Raw(&'a str, &'a [u8]),
    /// The mark, and the path with the escapes of HTTP.
    Escaped(&'a str, &'a [u8]),
}

/// A text, as its pieces in their order.
#[derive(Clone, Copy)]
pub struct Pieces<'a> {
    /// The scheme.
    pub scheme: SchemePieces<'a>,
    /// The user information.
    pub user: UserPieces<'a>,
    /// The host.
    pub host: HostPieces<'a>,
    /// The digits of the port, which follow a colon.
    pub port: Option<&'a str>,
    /// The path.
    pub path: PathPieces<'a>,
}

impl<'a> Piece<'a> {
    /// The slice with the escapes of a user, if it needs any.
    pub fn user(text: &'a str) -> Piece<'a>
        ensures { piece_text result ≡ percent_encode USER text.now }
    {
        if user_needs_no_escape(text.as_bytes()) || is_kept(text.as_bytes(), USER) {
            Piece::Raw(text)
        } else {
            Piece::User(text)
        }
    }

    /// The slice with the escapes of a password, if it needs any.
    pub fn password(text: &'a str) -> Piece<'a>
        ensures { piece_text result ≡ percent_encode PASSWORD text.now }
    {
        if user_needs_no_escape(text.as_bytes()) || is_kept(text.as_bytes(), PASSWORD) {
            Piece::Raw(text)
        } else {
            Piece::Password(text)
        }
    }

    /// The length of the text of the piece.
    #[inline(always)]
    fn len(self) -> u128
        ensures exact { result ≡ length (piece_text self.entry) }
        ensures bound { result ≤ 3 * 2 ^ 64 }
    {
        match self {
            Piece::Raw(text) => text.len() as u128,
            Piece::User(text) => escaped_len(text.as_bytes(), USER),
            Piece::Password(text) => escaped_len(text.as_bytes(), PASSWORD),
            Piece::Percents(text) => text.len() as u128
                + 2 * count_percents(text.as_bytes()) as u128,
        }
    }

    /// Puts the text of the piece into the sink.
    #[inline(always)]
    fn put<T, S: Sink<T>>(self, place: &mut T) -> Result<(), S::Fault>
        ensures { OnOk result (S.takes place.old (piece_text self.entry) place.new) }
    {
        match self {
            Piece::Raw(text) => S::put(place, text),
            Piece::User(text) => write_escaped::<T, S>(place, text.as_bytes(), USER),
            Piece::Password(text) => write_escaped::<T, S>(place, text.as_bytes(), PASSWORD),
            Piece::Percents(text) => write_percents::<T, S>(place, text),
        }
    }
}

impl<'a> SchemePieces<'a> {
    /// The length of the text.
    #[inline(always)]
    fn len(self) -> u128
        ensures exact { result ≡ length (scheme_piece_text self.entry) }
        ensures bound { result ≤ 2 * 2 ^ 64 }
    {
        match self {
            SchemePieces::None => 0,
            SchemePieces::Marked(name, mark) => name.len() as u128 + mark.len() as u128,
        }
    }

    /// Puts the text into the sink.
    #[inline(always)]
    fn put<T, S: Sink<T>>(self, place: &mut T) -> Result<(), S::Fault>
        ensures { OnOk result (S.takes place.old (scheme_piece_text self.entry) place.new) }
    {
        match self {
            SchemePieces::None => Ok(()),
            SchemePieces::Marked(name, mark) => {
                S::put(place, name)?;
                S::put(place, mark)
            }
        }
    }
}

impl<'a> UserPieces<'a> {
    /// The length of the text.
    #[inline(always)]
    fn len(self) -> u128
        ensures exact { result ≡ length (user_text self.entry) }
        ensures bound { result ≤ 7 * 2 ^ 64 }
    {
        match self {
            UserPieces::None => 0,
            UserPieces::User(user) => user.len() + 1,
            UserPieces::Both(user, password) => user.len() + password.len() + 2,
        }
    }

    /// Puts the text into the sink.
    #[inline(always)]
    fn put<T, S: Sink<T>>(self, place: &mut T) -> Result<(), S::Fault>
        ensures { OnOk result (S.takes place.old (user_text self.entry) place.new) }
    {
        match self {
            UserPieces::None => Ok(()),
            UserPieces::User(user) => {
                user.put::<T, S>(place)?;
                S::put(place, "@")
            }
            UserPieces::Both(user, password) => {
                user.put::<T, S>(place)?;
                S::put(place, ":")?;
                password.put::<T, S>(place)?;
                S::put(place, "@")
            }
        }
    }
}

impl<'a> HostPieces<'a> {
    /// The length of the text.
    #[inline(always)]
    fn len(self) -> u128
        ensures exact { result ≡ length (host_text self.entry) }
        ensures bound { result ≤ 4 * 2 ^ 64 }
    {
        match self {
            HostPieces::None => 0,
            HostPieces::Open(host) => host.len(),
            HostPieces::Bracketed(host) => host.len() + 2,
        }
    }

    /// Puts the text into the sink.
    #[inline(always)]
    fn put<T, S: Sink<T>>(self, place: &mut T) -> Result<(), S::Fault>
        ensures { OnOk result (S.takes place.old (host_text self.entry) place.new) }
    {
        match self {
            HostPieces::None => Ok(()),
            HostPieces::Open(host) => host.put::<T, S>(place),
            HostPieces::Bracketed(host) => {
                S::put(place, "[")?;
                host.put::<T, S>(place)?;
                S::put(place, "]")
            }
        }
    }
}

impl<'a> PathPieces<'a> {
    /// The path after a mark, with the escapes of HTTP if it needs any.
    pub fn escaped(mark: &'a str, path: &'a [u8]) -> PathPieces<'a>
        ensures { path_end_text result ≡ mark.now ++ percent_encode PATH path.now }
    {
        if needs_no_escape(path) || is_kept(path, PATH) {
            PathPieces::Raw(mark, path)
        } else {
            PathPieces::Escaped(mark, path)
        }
    }

    /// The length of the text.
    #[inline(always)]
    fn len(self) -> u128
        ensures exact { result ≡ length (path_end_text self.entry) }
        ensures bound { result ≤ 4 * 2 ^ 64 }
    {
        match self {
            PathPieces::Raw(mark, path) => mark.len() as u128 + path.len() as u128,
            PathPieces::Escaped(mark, path) => mark.len() as u128 + escaped_len(path, PATH),
        }
    }

    /// Puts the text, which ends the whole text, into the sink.
    #[inline(always)]
    fn put<T, S: Sink<T>>(self, place: &mut T) -> Result<(), S::Fault>
        ensures { OnOk result (S.ends place.old (path_end_text self.entry) place.new) }
    {
        match self {
            PathPieces::Raw(mark, path) => {
                if !mark.is_empty() {
                    S::put(place, mark)?;
                }
                S::write_end(place, path)
            }
            PathPieces::Escaped(mark, path) => {
                S::put(place, mark)?;
                write_escaped::<T, S>(place, path, PATH)?;
                S::write_end(place, b"")
            }
        }
    }
}

impl<'a> Pieces<'a> {
    /// The length of the whole text.
    #[inline(always)]
    pub fn len(&self) -> u128
        ensures { result ≡ length (pieces_text self.now) }
    {
        self.scheme.len()
            + self.user.len()
            + self.host.len()
            + port_len(self.port)
            + self.path.len()
    }

    /// Puts the whole text into the sink.
    #[inline(always)]
    pub fn put<T, S: Sink<T>>(&self, place: &mut T) -> Result<(), S::Fault>
        ensures { OnOk result (S.ends place.old (pieces_text self.now) place.new) }
    {
        self.scheme.put::<T, S>(place)?;
        self.user.put::<T, S>(place)?;
        self.host.put::<T, S>(place)?;
        write_port::<T, S>(place, self.port)?;
        self.path.put::<T, S>(place)
    }
}

/// The length of a port and its colon.
fn port_len(digits: Option<&str>) -> u128
    ensures exact { result ≡ length (port_text digits.entry) }
    ensures bound { result ≤ 2 * 2 ^ 64 }
{
    match digits {
        None => 0,
        Some(digits) => digits.len() as u128 + 1,
    }
}

/// Puts a colon and a port into the sink.
#[inline(always)]
fn write_port<T, S: Sink<T>>(place: &mut T, digits: Option<&str>) -> Result<(), S::Fault>
    ensures { OnOk result (S.takes place.old (port_text digits.entry) place.new) }
{
    match digits {
        None => Ok(()),
        Some(digits) => {
            S::put(place, ":")?;
            S::put(place, digits)
        }
    }
}

/// Whether no byte of the text is written as an escape.
fn is_kept(text: &[u8], set: AsciiSet) -> bool
    ensures { IsTrue result → percent_encode set text.now ≡ text.now }
{
    are_kept(text, set)
}

/// Whether no byte of the text is in the set, and all are ASCII.
fn are_kept(text: &[u8], set: AsciiSet) -> bool
    ensures { result ≡ list_all (λ b. not (should_percent_encode set b)) text.now }
{
    text.iter().all(|byte| !set.should_percent_encode(*byte))
}

/// The length of the text with the bytes of the set, and those that aren't ASCII, as escapes.
fn escaped_len(text: &[u8], set: AsciiSet) -> u128
    ensures exact { result ≡ length (percent_encode set text.now) }
    ensures bound { result ≤ 3 * 2 ^ 64 }
{
    text.len() as u128 + 2 * count_escaped(text, set) as u128
}

/// The number of bytes of the text that are written as escapes.
pub fn count_escaped(text: &[u8], set: AsciiSet) -> usize
    ensures { result ≡ count_by (should_percent_encode set) text.now }
{
    text.iter()
        .filter(|byte| set.should_percent_encode(**byte))
        .count()
}

/// The number of `%` in the text. They are counted block by block.
pub(crate) fn count_percents(text: &[u8]) -> usize
    ensures { result ≡ count_by (λ b. b == percent_sign) text.now }
{
    let mut count = 0;
    let mut rest = text;
    while !rest.is_empty() {
        let (block, suffix) = rest.split_at(rest.len().min(COUNTED));
        count += count_in_block(block) as usize;
        rest = suffix;
    }
    count
}

/// The number of `%` in a block. It is a byte, so a loop is compiled to count in many bytes at once.
fn count_in_block(block: &[u8]) -> u8
    requires { length block.now ≤ 128 }
    ensures { result ≡ count_by (λ b. b == percent_sign) block.now }
{
    let mut count = 0u8;
    for byte in block {
        if *byte == b'%' {
            count += 1;
        }
    }
    count
}
