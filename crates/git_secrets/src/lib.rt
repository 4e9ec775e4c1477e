//! The secrets in a text, which are hidden when it is shown.
//!
//! The pieces of a text are those of one definition (`specs/Secrets.antt`), and joined they are the text. No function
//! here allocates.
#![tactic(auto)]

ghost use Rattle.std.specs.Prelude.{◌≡◌, ◌||◌};
ghost use Rattle.git_secrets.specs.Secrets.{is_hidden_as, kinds_of, parts_of, piece_part};

pub mod laws;
mod left;
mod mark;
pub mod place;
mod token;

use left::Left;
use std::marker::Model;

/// The kind of a secret. [`secrets`] has an example.
#[derive(Clone, Copy, Debug, PartialEq, Eq)]
pub enum Secret {
    /// It may be a password.
    Password,
    /// It may be a token: a secret that replaces a user, or a user and a password.
    Token,
}

/// A piece of a text. [`secrets`] has an example.
#[derive(Clone, Copy, Debug, PartialEq, Eq)]
pub enum Piece<'a> {
    /// It may be shown.
    Shown(&'a [u8]),
    /// It may be a secret of this kind.
    Hidden(Secret, &'a [u8]),
}

/// An iterator over the pieces of a text, in their order. [`secrets`] has an example.
#[derive(Drop)]
pub struct Pieces<'a> {
    left: Left<'a>,
}

impl<'a> Model for Pieces<'a> {
    ghost use Rattle.std.specs.Prelude.{List};
    ghost use Rattle.git_secrets.specs.Secrets.{Part};

    ghost Value = { List Part };

    ghost use Rattle.git_secrets.specs.Left.{pieces_left};

    ghost view = { pieces_left };
}

/// Splits a text into pieces, some of which may be secrets. Joined, the pieces are the text. The text may be any
/// text, for example a location, or a key or a value of a configuration.
///
/// These parts are hidden:
///
/// - In each run between bytes at which a path may start (`/`, and in an HTTP URL also `?` and `#`): everything
///   between the first `:` and the last `@`. The user and the host of the scp form (`git@host:`) and a scheme with no
///   `//` (`ssh:`) are looked at apart.
/// - If the authority after the first `://` has no address in brackets, and its first `:` begins neither a port nor a
///   password that ends in the authority: everything from there to the last `@` of the text, except the bytes at
///   which a path may start.
/// - A user at the front of the authority, or of a text with no `://`, that begins as a token of GitHub, GitLab or
///   Bitbucket; and one of at least 20 bytes in an HTTP URL, if its password is missing, empty or `x-oauth-basic`.
/// - Each word of letters, digits, `_` and `-` that begins as such a token and has at least 24 bytes.
///
/// The escapes of `:` and `@` count as these bytes. The name of a remote helper and its `::` are split off first.
/// The time is linear in the length of the text.
///
/// ```
/// /// A text with a word in place of what may be a secret.
/// fn shown(alloc: Global, text: &[u8]) -> Result<Vec<u8>, AllocError> {
///     let mut out = Vec::new(alloc);
///     for piece in secrets(text) {
///         match piece {
///             Piece::Shown(bytes) => out.extend_from_slice(bytes)?,
///             Piece::Hidden(_, _) => out.extend_from_slice(b"redacted")?, // `https://u:redacted@h/p`
///         }
///     }
///     Ok(out)
/// }
/// ```
pub fn secrets(text: &[u8]) -> Pieces<'_>
    ensures { result ≡ parts_of text.now }
{
    Pieces {
        left: Left::of(text),
    }
}

/// The kinds of secrets in a text. [`kinds_of`] has an example.
#[derive(Clone, Copy, Debug, PartialEq, Eq)]
pub struct Kinds {
    /// A part may be a password.
    pub password: bool,
    /// A part may be a token.
    pub token: bool,
}

/// Returns the kinds of the secrets that [`secrets`] hides in a text.
///
/// ```
/// /// Whether a text may be shown as it is.
/// fn is_open(text: &[u8]) -> bool {
///     let found = kinds_of(text);
///     !found.password && !found.token
/// }
/// ```
pub fn kinds_of(text: &[u8]) -> Kinds
    ensures { result ≡ kinds_of text.now }
{
    let mut found = Kinds {
        password: false,
        token: false,
    };
    for piece in secrets(text) {
        found = found.with(piece);
    }
    found
}

impl Kinds {
    /// These kinds, and that of the piece if it is hidden.
    fn with(self, piece: Piece<'_>) -> Kinds
        ensures password { result.password ≡ (self.password || is_hidden_as Secret.Password (piece_part piece.entry)) }
        ensures token { result.token ≡ (self.token || is_hidden_as Secret.Token (piece_part piece.entry)) }
    {
        match piece {
            Piece::Hidden(Secret::Password, _) => Kinds {
                password: true,
                ..self
            },
            Piece::Hidden(Secret::Token, _) => Kinds {
                token: true,
                ..self
            },
            Piece::Shown(_) => self,
        }
    }
}

impl<'a> Iterator for Pieces<'a> {
    ghost use Rattle.std.specs.Prelude.{length};
    ghost use Rattle.std.specs.Iterator.{at_most};
    ghost use Rattle.git_secrets.specs.Secrets.{GivesPart};

    type Item = Piece<'a>;

    ghost next_gives = { GivesPart };

    ghost remaining = { λ from. at_most (length from) };

    fn next(&mut self) -> Option<Piece<'a>> {
        let (piece, left) = self.left.next()?;
        self.left = left;
        Some(piece)
    }
}
