//! The secrets in a text, which are hidden when it is shown.
//!
//! The pieces of a text are those of one definition (`specs/Secrets.antt`), and joined they are the text.

ghost use Rattle.std.specs.Prelude.{◌≡◌};
ghost use Rattle.git_audit.specs.Secrets.{parts_of};

pub mod law;
mod left;
mod mark;
mod place;

use left::Left;
use std::marker::Model;

/// A piece of a text. [`secrets`] has an example.
#[derive(Clone, Copy, Debug, PartialEq, Eq)]
pub enum Piece<'a> {
    /// It may be shown.
    Shown(&'a [u8]),
    /// It may be a secret.
    Hidden(&'a [u8]),
}

/// An iterator over the pieces of a text, in their order. [`secrets`] has an example.
#[derive(Drop)]
pub struct Pieces<'a> {
    left: Left<'a>,
}

impl<'a> Model for Pieces<'a> {
    ghost use Rattle.std.specs.Prelude.{List};
    ghost use Rattle.git_audit.specs.Secrets.{Part};

    ghost Value = { List Part };

    ghost use Rattle.git_audit.specs.Left.{pieces_left};

    ghost view = { pieces_left };
}

/// Splits a text into pieces, some of which may be secrets. Joined, the pieces are the text. The text may be any
/// text, for example a location, or a key or a value of a configuration.
///
/// These parts are hidden:
///
/// - In each run between bytes at which a path may start (`/`, and in an HTTP URL also `?` and `#`): everything
///   between the first `:` and the last `@`.
/// - If the authority after the first `://` isn't in brackets, and its first `:` begins neither a port nor a
///   password that ends in the authority: everything from there to the last `@` of the text, except the bytes at
///   which a path may start.
/// - Each word of letters, digits, `_` and `-` that begins as a token of GitHub, GitLab or Bitbucket and has at
///   least 24 bytes.
///
/// The escapes of `:` and `@` count as these bytes. The name of a remote helper and its `::` are split off first.
/// The time is linear in the length of the text.
///
/// ```
/// /// A text with a word in place of what may be a secret.
/// fn shown(alloc: Global, text: &[u8]) -> Result<Vec<u8>, AllocError> {
///     let mut out = Vec::new(alloc);
///     for piece in secrets(text) {
///         match piece {
///             Piece::Shown(bytes) => out.extend_from_slice(bytes)?,
///             Piece::Hidden(_) => out.extend_from_slice(b"redacted")?, // `https://u:redacted@h/p`
///         }
///     }
///     Ok(out)
/// }
/// ```
pub fn secrets(text: &[u8]) -> Pieces<'_>
    ensures { result ≡ parts_of text.now }
{
    Pieces {
        left: Left::of(text),
    }
}

impl<'a> Iterator for Pieces<'a> {
    ghost use Rattle.std.specs.Prelude.{length};
    ghost use Rattle.std.specs.Iterator.{at_most};
    ghost use Rattle.git_audit.specs.Secrets.{GivesPart};

    type Item = Piece<'a>;

    ghost next_gives = { GivesPart };

    ghost remaining = { λ from. at_most (length from) };

    fn next(&mut self) -> Option<Piece<'a>> {
        let (piece, left) = self.left.next()?;
        self.left = left;
        Some(piece)
    }
}
