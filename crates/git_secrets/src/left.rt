//! The rest of a text that is split into pieces.

ghost use Rattle.std.specs.Prelude.{◌≡◌, ◌≢◌, ◌+◌, ◌≤◌, ◌∷◌, [], IfSome, MatchOption, length};
ghost use Rattle.git_secrets.specs.Left.{left, run_left};
ghost use Rattle.git_secrets.specs.Secrets as spec;

use crate::mark::{Class, Mark};
use crate::place::{
    Place, bare_scheme_len, before_path, ends_as_web, helper_len, is_web, password, scp_len,
    token_len, wide_in,
};
use crate::token::is_token_word;
use crate::{Piece, Secret};
use git_syntax::bytes::is_path_start;

/// The rest of a run of bytes at which no path starts, in its order.
#[derive(Clone, Copy)]
struct Run<'a> {
    /// Shown, except for its tokens.
    words: &'a [u8],
    /// Hidden.
    password: &'a [u8],
    /// Shown, except for its tokens.
    more: &'a [u8],
}

/// The rest of a text, in its order.
#[derive(Clone, Copy)]
pub(crate) struct Left<'a> {
    /// Whether the text is an HTTP URL.
    web: bool,
    /// The first run.
    run: Run<'a>,
    /// May contain passwords between bytes at which a path may start.
    front: &'a [u8],
    /// Hidden.
    token: &'a [u8],
    /// Shown, except for its tokens.
    scp: &'a [u8],
    /// May contain passwords between bytes at which a path may start.
    plain: &'a [u8],
    /// Hidden, except for the bytes at which a path may start.
    wide: &'a [u8],
    /// Shown, except for its tokens.
    end: &'a [u8],
}

/// No run.
const NO_RUN: Run<'static> = Run {
    words: b"",
    password: b"",
    more: b"",
};

impl<'a> Left<'a> {
    /// A whole text.
    pub(crate) fn of(text: &'a [u8]) -> Left<'a>
        ensures { left result ≡ spec.parts_of text.now }
    {
        let helper = helper_len(text);
        let url = text.split_at(helper).1;
        match Mark::Authority.first(url) {
            None => Left::from(is_web(url), false, helper + bare_scheme_len(url), text),
            Some(at) => {
                Left::from(
                    is_web(url),
                    true,
                    helper + Mark::Authority.end(url, at),
                    text,
                )
            }
        }
    }

    /// A text whose authority, or whose user or path if it has no `://`, begins at this index.
    fn from(web: bool, is_url: bool, at: usize, text: &'a [u8]) -> Left<'a>
        requires { at ≤ length text.now }
        ensures { left result ≡ spec.parts_at web is_url at text.now }
    {
        let (front, rest) = text.split_at(at);
        let (token, rest) = rest.split_at(token_len(ends_as_web(front), before_path(web, rest)));
        Left {
            front,
            token,
            ..Left::named(web, is_url, rest)
        }
    }

    /// A text after a token in place of a user, and after the front of an authority or of another text.
    fn named(web: bool, is_url: bool, text: &'a [u8]) -> Left<'a>
        ensures parts { left result ≡ spec.named_parts web is_url text.now }
        ensures empty { (result.run.words.now ≡ []) × (result.run.password.now ≡ []) × (result.run.more.now ≡ [])
            × (result.front.now ≡ []) × (result.token.now ≡ []) }
        ensures web { result.web ≡ web }
    {
        if is_url {
            return Left::authority(web, wide_in(before_path(web, text), text), text);
        }
        let (scp, plain) = text.split_at(scp_len(before_path(web, text)));
        Left {
            scp,
            ..Left::plain(web, plain)
        }
    }

    /// A text that may have a password with a `/` in it.
    fn authority(web: bool, found: Option<Place>, text: &'a [u8]) -> Left<'a>
        requires { IfSome found (λ s. s.at + s.len ≤ length text.now) }
        ensures parts { left result ≡ spec.wide_around web found text.now }
        ensures empty { (result.run.words.now ≡ []) × (result.run.password.now ≡ []) × (result.run.more.now ≡ [])
            × (result.front.now ≡ []) × (result.token.now ≡ []) }
        ensures web { result.web ≡ web }
    {
        let Some(found) = found else {
            return Left::plain(web, text);
        };
        let (plain, rest) = text.split_at(found.at);
        let (wide, end) = rest.split_at(found.len);
        Left {
            wide,
            end,
            ..Left::plain(web, plain)
        }
    }

    /// A text that may contain passwords between bytes at which a path may start.
    fn plain(web: bool, text: &'a [u8]) -> Left<'a>
        ensures plain { (result.web ≡ web) × (result.plain.now ≡ text.now) }
        ensures rest { (result.run.words.now ≡ []) × (result.run.password.now ≡ []) × (result.run.more.now ≡ [])
            × (result.front.now ≡ []) × (result.token.now ≡ []) × (result.scp.now ≡ [])
            × (result.wide.now ≡ []) × (result.end.now ≡ []) }
    {
        Left {
            web,
            run: NO_RUN,
            front: b"",
            token: b"",
            scp: b"",
            plain: text,
            wide: b"",
            end: b"",
        }
    }

    /// Returns the next piece, and the rest after it.
    pub(crate) fn next(self) -> Option<(Piece<'a>, Left<'a>)>
        ensures { MatchOption result (left self.entry ≡ []) (λ p. left self.entry ≡ spec.piece_part p.0 ∷ left p.1) }
    {
        self.filled().taken()
    }

    /// Returns the next piece, if the first run is already split.
    fn taken(self) -> Option<(Piece<'a>, Left<'a>)>
        requires { self.run.words.now ≡ [] → self.run.password.now ≡ []
            → (self.run.more.now ≡ []) × (self.front.now ≡ [])
            × (self.token.now ≡ [] → (self.scp.now ≡ []) × (self.plain.now ≡ [])
            × (self.wide.now ≡ [] → self.end.now ≡ [])) }
        ensures { MatchOption result (left self.entry ≡ []) (λ p. left self.entry ≡ spec.piece_part p.0 ∷ left p.1) }
    {
        let run = self.run;
        if !run.words.is_empty() {
            let (word, words) = cut_run(Class::Gap, run.words);
            let run = Run { words, ..run };
            return Some((word_piece(word), Left { run, ..self }));
        }
        if !run.password.is_empty() {
            let rest = Run {
                password: b"",
                ..run
            };
            return Some((
                Piece::Hidden(Secret::Password, run.password),
                Left { run: rest, ..self },
            ));
        }
        self.taken_after_run()
    }

    /// Returns the next piece, if nothing of the first run is left.
    fn taken_after_run(self) -> Option<(Piece<'a>, Left<'a>)>
        requires run { (self.run.words.now ≡ []) × (self.run.password.now ≡ []) × (self.run.more.now ≡ []) }
        requires front { self.front.now ≡ [] }
        requires filled { self.token.now ≡ [] → (self.scp.now ≡ []) × (self.plain.now ≡ [])
            × (self.wide.now ≡ [] → self.end.now ≡ []) }
        ensures { MatchOption result (left self.entry ≡ []) (λ p. left self.entry ≡ spec.piece_part p.0 ∷ left p.1) }
    {
        if !self.token.is_empty() {
            return Some((
                Piece::Hidden(Secret::Token, self.token),
                Left { token: b"", ..self },
            ));
        }
        if self.wide.is_empty() {
            return None;
        }
        let (run, wide) = cut_run(Class::Path(self.web), self.wide);
        Some((wide_piece(self.web, run), Left { wide, ..self }))
    }

    /// The same rest, with its first run split.
    fn filled(self) -> Left<'a>
        ensures same { left result ≡ left self.entry }
        ensures filled { result.run.words.now ≡ [] → result.run.password.now ≡ []
            → (result.run.more.now ≡ []) × (result.front.now ≡ [])
            × (result.token.now ≡ [] → (result.scp.now ≡ []) × (result.plain.now ≡ [])
            × (result.wide.now ≡ [] → result.end.now ≡ [])) }
    {
        if !self.run.words.is_empty() || !self.run.password.is_empty() {
            return self;
        }
        if !self.run.more.is_empty() {
            let run = Run {
                words: self.run.more,
                ..NO_RUN
            };
            return Left { run, ..self };
        }
        if !self.front.is_empty() {
            let (run, front) = cut_run(Class::Path(self.web), self.front);
            let run = split_run(run);
            return Left { run, front, ..self };
        }
        if !self.token.is_empty() {
            return self;
        }
        self.filled_after_token()
    }

    /// The same rest after a token, with its first run split.
    fn filled_after_token(self) -> Left<'a>
        requires run { (self.run.words.now ≡ []) × (self.run.password.now ≡ []) × (self.run.more.now ≡ []) }
        requires front { (self.front.now ≡ []) × (self.token.now ≡ []) }
        ensures same { left result ≡ left self.entry }
        ensures filled { result.run.words.now ≡ [] → (result.run.password.now ≡ []) × (result.run.more.now ≡ [])
            × (result.front.now ≡ []) × (result.scp.now ≡ []) × (result.plain.now ≡ [])
            × (result.wide.now ≡ [] → result.end.now ≡ []) }
    {
        if !self.scp.is_empty() {
            let run = Run {
                words: self.scp,
                ..NO_RUN
            };
            return Left {
                run,
                scp: b"",
                ..self
            };
        }
        if !self.plain.is_empty() {
            let (run, plain) = cut_run(Class::Path(self.web), self.plain);
            let run = split_run(run);
            return Left { run, plain, ..self };
        }
        if self.wide.is_empty() {
            let run = Run {
                words: self.end,
                ..NO_RUN
            };
            return Left {
                run,
                end: b"",
                ..self
            };
        }
        self
    }
}

/// A run that may contain a password, split.
fn split_run(run: &[u8]) -> Run<'_>
    requires { run.now ≢ [] }
    ensures same { run_left result ≡ spec.run_parts (spec.password run.now) run.now }
    ensures some { result.words.now ≢ [] }
{
    let Some(found) = password(run) else {
        return Run {
            words: run,
            ..NO_RUN
        };
    };
    let (words, rest) = run.split_at(found.at);
    let (password, more) = rest.split_at(found.len);
    Run {
        words,
        password,
        more,
    }
}

/// The first run of a text, and the rest.
fn cut_run(class: Class, text: &[u8]) -> (&[u8], &[u8])
    requires { text.now ≢ [] }
    ensures cut { spec.runs class text.now ≡ result.0.now ∷ spec.runs class result.1.now }
    ensures some { result.0.now ≢ [] }
{
    match class.first(text) {
        None => text.split_at(text.len()),
        Some(0) => text.split_at(1),
        Some(at) => text.split_at(at),
    }
}

/// A word as a piece: hidden if it is a token.
fn word_piece(word: &[u8]) -> Piece<'_>
    ensures { spec.piece_part result ≡ spec.word_part word.now }
{
    if is_token_word(word) {
        Piece::Hidden(Secret::Token, word)
    } else {
        Piece::Shown(word)
    }
}

/// A run of a password with a `/` as a piece: shown if a path may start at it.
fn wide_piece(web: bool, run: &[u8]) -> Piece<'_>
    ensures { spec.piece_part result ≡ spec.wide_part web run.now }
{
    match run {
        [first, ..] if is_path_start(*first, web) => Piece::Shown(run),
        _ => Piece::Hidden(Secret::Password, run),
    }
}
