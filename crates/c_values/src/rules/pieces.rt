//! Texts that are joined.

ghost use Rattle.std.specs.Prelude.{◌≡◌, IfOk, length, map};
ghost use Rattle.std.specs.List.{concat};

use std::alloc::{AllocError, Global};

/// The bytes of the texts, one after the other.
pub(crate) fn joined(alloc: Global, texts: &[&[u8]]) -> Result<Vec<u8>, AllocError>
    ensures { IfOk result (λ bytes. bytes.items ≡ concat (map (λ t. t.now) texts.now)) }
{
    let mut bytes = Vec::new(alloc);
    for text in texts {
        bytes.extend_from_slice(text)?;
    }
    Ok(bytes)
}

/// The lengths of the texts.
pub(crate) fn lengths_of(alloc: Global, texts: &[&[u8]]) -> Result<Vec<usize>, AllocError>
    ensures { IfOk result (λ lengths. lengths.items ≡ map (λ t. length t.now) texts.now) }
{
    let mut lengths = Vec::with_capacity(alloc, texts.len())?;
    for text in texts {
        lengths.push(text.len())?;
    }
    Ok(lengths)
}
