//! The rest of a text that is split into pieces.

ghost use Rattle.std.specs.Prelude.{◌≡◌, ◌≢◌, ◌∷◌, [], MatchOption};
ghost use Rattle.git_audit.specs.Left.{left};
ghost use Rattle.git_audit.specs.Secrets as spec;

use crate::danger::token::is_token_word;
use crate::secret::Piece;
use crate::secret::mark::Class;
use crate::secret::place::{helper_len, is_web, password, wide_password};
use git_syntax::bytes::is_path_start;

/// The rest of a text, in its order.
#[derive(Clone, Copy)]
pub(super) struct Left<'a> {
    /// Whether the text is an HTTP URL.
    web: bool,
    /// Shown, except for its tokens.
    words: &'a [u8],
    /// Hidden.
    secret: &'a [u8],
    /// Shown, except for its tokens.
    more: &'a [u8],
    /// May contain passwords between bytes at which a path may start.
    plain: &'a [u8],
    /// Hidden, except for the bytes at which a path may start.
    wide: &'a [u8],
    /// Shown, except for its tokens.
    end: &'a [u8],
}

impl<'a> Left<'a> {
    /// A whole text.
    pub(super) fn of(text: &'a [u8]) -> Left<'a>
        ensures { left result ≡ spec.parts_of text.now }
    {
        let (helper, url) = text.split_at(helper_len(text));
        Left {
            words: helper,
            ..Left::of_url(is_web(url), url)
        }
    }

    /// A whole text without the name of a helper.
    fn of_url(web: bool, text: &'a [u8]) -> Left<'a>
        ensures parts { left result ≡ spec.authority_parts web (spec.wide_password web text.now) text.now }
        ensures words { result.words.now ≡ [] }
    {
        let Some(found) = wide_password(web, text) else {
            return Left::plain(web, text);
        };
        let (front, rest) = text.split_at(found.at);
        let (wide, end) = rest.split_at(found.len);
        Left {
            wide,
            end,
            ..Left::plain(web, front)
        }
    }

    /// A text that may contain passwords between bytes at which a path may start.
    fn plain(web: bool, text: &'a [u8]) -> Left<'a>
        ensures plain { (result.web ≡ web) × (result.plain.now ≡ text.now) }
        ensures rest { (result.words.now ≡ []) × (result.secret.now ≡ []) × (result.more.now ≡ [])
            × (result.wide.now ≡ []) × (result.end.now ≡ []) }
    {
        Left {
            web,
            words: b"",
            secret: b"",
            more: b"",
            plain: text,
            wide: b"",
            end: b"",
        }
    }

    /// Returns the next piece, and the rest after it.
    pub(super) fn next(self) -> Option<(Piece<'a>, Left<'a>)>
        ensures { MatchOption result (left self.entry ≡ []) (λ p. left self.entry ≡ spec.piece_part p.0 ∷ left p.1) }
    {
        self.filled().taken()
    }

    /// Returns the next piece, if the first part is already split.
    fn taken(self) -> Option<(Piece<'a>, Left<'a>)>
        requires { self.words.now ≡ [] → self.secret.now ≡ []
            → (self.more.now ≡ []) × (self.plain.now ≡ []) × (self.wide.now ≡ [] → self.end.now ≡ []) }
        ensures { MatchOption result (left self.entry ≡ []) (λ p. left self.entry ≡ spec.piece_part p.0 ∷ left p.1) }
    {
        if !self.words.is_empty() {
            let (word, words) = cut_run(Class::Gap, self.words);
            return Some((word_piece(word), Left { words, ..self }));
        }
        if !self.secret.is_empty() {
            return Some((
                Piece::Hidden(self.secret),
                Left {
                    secret: b"",
                    ..self
                },
            ));
        }
        if self.wide.is_empty() {
            return None;
        }
        let (run, wide) = cut_run(Class::Path(self.web), self.wide);
        Some((wide_piece(self.web, run), Left { wide, ..self }))
    }

    /// The same rest, with its first part split.
    fn filled(self) -> Left<'a>
        ensures same { left result ≡ left self.entry }
        ensures filled { result.words.now ≡ [] → result.secret.now ≡ []
            → (result.more.now ≡ []) × (result.plain.now ≡ []) × (result.wide.now ≡ [] → result.end.now ≡ []) }
    {
        if !self.words.is_empty() || !self.secret.is_empty() {
            return self;
        }
        if !self.more.is_empty() {
            return Left {
                words: self.more,
                more: b"",
                ..self
            };
        }
        if !self.plain.is_empty() {
            return self.with_run();
        }
        if self.wide.is_empty() {
            return Left {
                words: self.end,
                end: b"",
                ..self
            };
        }
        self
    }

    /// The same rest, with the first run split that may contain a password.
    fn with_run(self) -> Left<'a>
        requires words { self.words.now ≡ [] }
        requires secret { self.secret.now ≡ [] }
        requires more { self.more.now ≡ [] }
        requires plain { self.plain.now ≢ [] }
        ensures same { left result ≡ left self.entry }
        ensures filled { result.words.now ≢ [] }
    {
        let (run, plain) = cut_run(Class::Path(self.web), self.plain);
        let Some(found) = password(run) else {
            return Left {
                words: run,
                plain,
                ..self
            };
        };
        let (words, rest) = run.split_at(found.at);
        let (secret, more) = rest.split_at(found.len);
        Left {
            words,
            secret,
            more,
            plain,
            ..self
        }
    }
}

/// The first run of a text, and the rest.
fn cut_run(class: Class, text: &[u8]) -> (&[u8], &[u8])
    requires { text.now ≢ [] }
    ensures cut { spec.runs class text.now ≡ result.0.now ∷ spec.runs class result.1.now }
    ensures some { result.0.now ≢ [] }
{
    match class.first(text) {
        None => text.split_at(text.len()),
        Some(0) => text.split_at(1),
        Some(at) => text.split_at(at),
    }
}

/// A word as a piece: hidden if it is a token.
fn word_piece(word: &[u8]) -> Piece<'_>
    ensures { spec.piece_part result ≡ spec.word_part word.now }
{
    if is_token_word(word) {
        Piece::Hidden(word)
    } else {
        Piece::Shown(word)
    }
}

/// A run of a password with a `/` as a piece: shown if a path may start at it.
fn wide_piece(web: bool, run: &[u8]) -> Piece<'_>
    ensures { spec.piece_part result ≡ spec.wide_part web run.now }
{
    match run {
        [first, ..] if is_path_start(*first, web) => Piece::Shown(run),
        _ => Piece::Hidden(run),
    }
}
