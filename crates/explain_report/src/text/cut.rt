//! A line cut into named pieces, which show how it is read.
//!
//! The parts of a location are those of `git_parts`, and the text between two parts is a mark. In a line without
//! parts, `git_audit` finds the possible secrets. A secret can't be read from a piece: outside of this module there is
//! only the word `redacted` in its place.

ghost use Rattle.std.specs.Prelude.{◌≡◌};
ghost use Rattle.explain_report.specs.Pieces.{cut_shown, piece_shown, pieces_shown, text_shown_as};
ghost use Rattle.explain_report.specs.Secrets.{password_shown};

use crate::marks::{halves, holds};
use crate::text::secret::{between, size_of, word_for};
use bstr::ByteSlice;
use git_audit::secret::secrets;
use git_parts::parts::{PartForm, Parts, Span};

/// The kind of a piece.
#[derive(Clone, Copy)]
pub enum Part {
    Scheme,
    User,
    /// A password, or another possible secret.
    Password,
    Host,
    Port,
    Path,
    Query,
    Fragment,
    /// The name of a remote helper.
    Helper,
    /// The text that Git passes to a remote helper.
    Address,
    /// A text between other parts, such as `://`.
    Mark,
    Unknown,
}

/// A piece of a line. Its secret, if it is one, can't be read from it.
#[derive(Clone, Copy)]
pub struct Piece<'a> {
    part: Part,
    text: &'a [u8],
}

/// The pieces of a line in their order. Some of them may be empty.
#[derive(Clone, Copy)]
pub struct Cut<'a> {
    pieces: [Piece<'a>; PIECES],
}

/// The largest number of pieces of a URL.
pub const PIECES: usize = 17;

/// The largest number of pieces before the last one: eight pairs of a shown text and a secret.
const FILLED: usize = 16;

impl<'a> Piece<'a> {
    /// A piece of a line.
    fn new(part: Part, text: &'a [u8]) -> Piece<'a>
        ensures { piece_shown result ≡ text_shown_as part text.now }
    {
        Piece { part, text }
    }

    /// A piece that separates other pieces.
    fn mark(text: &'a [u8]) -> Piece<'a>
        ensures { piece_shown result ≡ text.now }
    {
        Piece::new(Part::Mark, text)
    }

    /// Returns the kind of the piece.
    pub fn part(&self) -> Part {
        self.part
    }

    /// Returns the text to show: that of the piece, or `redacted` in place of a secret.
    pub fn shown(&self) -> &'a [u8]
        ensures { result.now ≡ piece_shown self.now }
    {
        match self.part {
            Part::Password => word_for(self.text),
            Part::Scheme
            | Part::User
            | Part::Host
            | Part::Port
            | Part::Path
            | Part::Query
            | Part::Fragment
            | Part::Helper
            | Part::Address
            | Part::Mark
            | Part::Unknown => self.text,
        }
    }

    /// Returns the length of the piece in the line, in bytes.
    pub fn len(&self) -> usize {
        self.text.len()
    }

    /// Whether the piece is a scheme of HTTP.
    fn is_of_web(&self) -> bool {
        matches!(self.part, Part::Scheme) && matches!(self.text, b"http" | b"https")
    }

    /// Whether the piece is a scheme of Secure Shell.
    fn is_of_ssh(&self) -> bool {
        matches!(self.part, Part::Scheme) && matches!(self.text, b"ssh" | b"ssh+git" | b"git+ssh")
    }
}

impl<'a> Cut<'a> {
    /// Returns the pieces.
    pub fn pieces(&self) -> &[Piece<'a>]
        ensures { pieces_shown result.now ≡ cut_shown self.now }
    {
        self.pieces.as_slice()
    }

    /// A line that is hidden as a whole.
    pub(crate) fn hidden(line: &'a [u8]) -> Cut<'a>
        ensures { cut_shown result ≡ password_shown line.now }
    {
        let (first, empty) = (Piece::new(Part::Password, line), Piece::mark(b""));
        Cut {
            pieces: [
                first, empty, empty, empty, empty, empty, empty, empty, empty, empty, empty, empty,
                empty, empty, empty, empty, empty,
            ],
        }
    }

    /// A line without parts: its possible secrets, and the text between them. The text after the eighth secret is one
    /// piece, which is hidden if it contains a secret.
    pub(crate) fn of_secrets(line: &'a [u8]) -> Cut<'a> {
        let mut filling = Filling::of(line);
        let mut at = 0usize;
        for piece in secrets(line) {
            let (len, is_hidden) = size_of(piece);
            let end = at.saturating_add(len);
            if is_hidden {
                filling.hide(at, end);
            }
            at = end;
        }
        filling.ended()
    }

    /// Cuts a text into these parts.
    pub fn of_parts(text: &'a [u8], parts: &Parts) -> Cut<'a> {
        let (front, end) = match parts.form {
            PartForm::RemoteHelper => (Part::Helper, Part::Address),
            PartForm::Url | PartForm::Scp | PartForm::Local => (Part::Scheme, Part::Path),
        };
        let mut walk = Walk {
            taken: 0,
            rest: text,
        };
        let (_, scheme) = walk.part(front, parts.scheme);
        let (before_user, user) = walk.part(Part::User, parts.user);
        let (before_password, password) = walk.part(Part::Password, parts.password);
        let (before_host, host) = walk.part(Part::Host, parts.host);
        let is_of_ssh = scheme.is_of_ssh() || matches!(parts.form, PartForm::Scp);
        let (open, host, close) = host_alone(host.text, is_of_ssh);
        let (before_port, port) = walk.part(Part::Port, parts.port);
        let (before_path, path) = walk.part(end, Some(parts.path));
        let is_web = scheme.is_of_web();
        let (front, hash, fragment) = halves_at(path.text, b"#", is_web);
        let (path, question, query) = halves_at(front, b"?", is_web);
        Cut {
            pieces: [
                scheme,
                before_user,
                user,
                before_password,
                password,
                before_host,
                Piece::mark(open),
                Piece::new(Part::Host, host),
                Piece::mark(close),
                before_port,
                port,
                before_path,
                Piece::new(end, path),
                Piece::mark(question),
                Piece::new(Part::Query, query),
                Piece::mark(hash),
                Piece::new(Part::Fragment, fragment),
            ],
        }
    }
}

/// The pieces of a line so far, their number, and the offset at which they end.
#[derive(Drop)]
struct Filling<'a> {
    line: &'a [u8],
    pieces: [Piece<'a>; PIECES],
    filled: usize,
    at: usize,
    /// Whether a secret follows them.
    hides_more: bool,
}

impl<'a> Filling<'a> {
    /// Begins with no piece of this line.
    fn of(line: &'a [u8]) -> Filling<'a> {
        Filling {
            line,
            pieces: [Piece::mark(b""); PIECES],
            filled: 0,
            at: 0,
            hides_more: false,
        }
    }

    /// Appends the shown text before a secret, and the secret, as long as there is space for both.
    fn hide(&mut self, begin: usize, end: usize) {
        if FILLED <= self.filled {
            self.hides_more = true;
            return;
        }
        self.push(Part::Unknown, begin);
        self.push(Part::Password, end);
    }

    /// Appends the text up to this offset as a piece.
    fn push(&mut self, part: Part, end: usize) {
        let (text, filled) = (between(self.line, self.at, end), self.filled);
        if let Some(piece) = self.pieces.get_mut(filled) {
            *piece = Piece::new(part, text);
        }
        self.filled = filled.saturating_add(1);
        self.at = end;
    }

    /// Ends the line: the last piece is the remaining text.
    fn ended(self) -> Cut<'a> {
        let mut all = self;
        let part = if all.hides_more {
            Part::Password
        } else {
            Part::Unknown
        };
        let len = all.line.len();
        all.push(part, len);
        Cut { pieces: all.pieces }
    }
}

/// A cursor on a text: the number of bytes taken, and the remaining bytes.
#[derive(Drop)]
struct Walk<'a> {
    taken: usize,
    rest: &'a [u8],
}

impl<'a> Walk<'a> {
    /// The mark before a part, and the part. Both are empty if the part is absent.
    fn part(&mut self, part: Part, span: Option<Span>) -> (Piece<'a>, Piece<'a>) {
        let Some(span) = span else {
            return (Piece::mark(b""), Piece::new(part, b""));
        };
        let mark = Piece::mark(self.take_to(span.at));
        let end = span.at.saturating_add(span.len);
        (mark, Piece::new(part, self.take_to(end)))
    }

    /// Takes the bytes before an offset of the text.
    fn take_to(&mut self, place: usize) -> &'a [u8] {
        let count = place.saturating_sub(self.taken).min(self.rest.len());
        let (front, rest) = self.rest.split_at(count);
        self.taken = self.taken.saturating_add(count);
        self.rest = rest;
        front
    }
}

/// A host without the marks before and after it, which occur only with Secure Shell: brackets, and a colon at the end
/// if there is no other colon, escaped or not.
fn host_alone(text: &[u8], is_of_ssh: bool) -> (&[u8], &[u8], &[u8]) {
    if !is_of_ssh {
        return (b"", text, b"");
    }
    let (bracketed, close) = match text.strip_suffix(b":") {
        Some(front) => (front, b"]:".as_slice()),
        None => (text, b"]".as_slice()),
    };
    if let Some(host) = in_brackets(bracketed) {
        return (b"[", host, close);
    }
    match halves(text, b":") {
        Some((host, [])) if !has_escaped_colon(host) => (b"", host, b":"),
        _ => (b"", text, b""),
    }
}

/// Whether a text contains an escaped colon.
fn has_escaped_colon(text: &[u8]) -> bool {
    holds(text, b"%3A") || holds(text, b"%3a")
}

/// The text inside of brackets.
fn in_brackets(text: &[u8]) -> Option<&[u8]> {
    text.strip_prefix(b"[")?.strip_suffix(b"]")
}

/// The text before the first mark, the mark, and the text after it, if the mark is looked for and found.
fn halves_at<'a>(
    text: &'a [u8],
    mark: &'static [u8],
    is_looked_for: bool,
) -> (&'a [u8], &'a [u8], &'a [u8]) {
    if !is_looked_for {
        return (text, b"", b"");
    }
    match halves(text, mark) {
        Some((front, back)) => (front, mark, back),
        None => (text, b"", b""),
    }
}
