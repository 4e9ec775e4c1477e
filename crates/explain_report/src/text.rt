//! Texts as `explain` shows them.
//!
//! [`secret`] replaces possible secrets in a text, [`marked`] finds whether a line has one, and [`seen`] decides how to
//! show a line that is read as a location, with the offsets of `place`. [`cut`] cuts a line into named pieces, which
//! `joined` compares with the shown text.
//! [`line`] writes texts for a terminal, with `printed` and `shell_word`.

pub mod cut;
mod joined;
pub mod line;
pub mod marked;
mod place;
mod printed;
pub mod secret;
pub mod seen;
mod shell_word;

ghost use Rattle.std.specs.Prelude.{◌≡◌, IfOk, option_map, string_bytes};
ghost use Rattle.git_syntax.specs.Bytes.{lossy_text};

use bstr::ByteSlice;
use std::alloc::{AllocError, Global};

/// Decodes bytes as text, with U+FFFD for bytes that aren't UTF-8.
pub(crate) fn lossy(alloc: Global, bytes: &[u8]) -> Result<String, AllocError>
    ensures { IfOk result (λ text. string_bytes text ≡ lossy_text bytes.now) }
{
    bytes.to_str_lossy(alloc)?.into_owned(alloc)
}

/// Decodes a part as text, if it is present.
pub(crate) fn lossy_part(alloc: Global, part: Option<&[u8]>) -> Result<Option<String>, AllocError>
    ensures { IfOk result (λ text. option_map string_bytes text ≡ option_map (λ it. lossy_text it.now) part.entry) }
{
    match part {
        None => Ok(None),
        Some(part) => Ok(Some(lossy(alloc, part)?)),
    }
}
