//! Decoding into owned bytes and texts. Each call allocates once, and nothing if the text is empty.

ghost use Rattle.std.specs.Prelude.{◌≡◌, IfOk, IsUtf8, string_bytes};
ghost use Rattle.percent_encoding.specs.Percent.{percent_decode};

use git_syntax::escape::{decode_into, has_percent};
use git_syntax::text::into_text;
use std::alloc::{AllocError, Global};

/// The decoding of the text. A text without `%` is copied unchanged.
pub(crate) fn decode(alloc: Global, text: &[u8]) -> Result<Vec<u8>, AllocError>
    ensures { IfOk result (λ v. v.items ≡ percent_decode text.now) }
{
    if !has_percent(text) {
        return Vec::from_slice(alloc, text);
    }
    let mut bytes = Vec::from_slice(alloc, text)?;
    let size = decode_into(bytes.as_mut_slice(), text);
    bytes.truncate(size);
    Ok(bytes)
}

/// The decoding of the text, which is UTF-8.
pub(crate) fn decoded_text(alloc: Global, text: &[u8]) -> Result<String, AllocError>
    requires { IsUtf8 (percent_decode text.now) }
    ensures { IfOk result (λ s. string_bytes s ≡ percent_decode text.now) }
{
    let bytes = decode(alloc, text)?;
    Ok(into_text(bytes))
}
