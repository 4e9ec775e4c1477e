//! Examples of texts with hidden parts.

use git_audit::secret::{Piece, secrets};
use std::alloc::{AllocError, Global};

/// A text with a word in place of what may be a secret.
fn shown(alloc: Global, text: &[u8]) -> Result<Vec<u8>, AllocError> {
    let mut out = Vec::new(alloc);
    for piece in secrets(text) {
        match piece {
            Piece::Shown(bytes) => out.extend_from_slice(bytes)?,
            Piece::Hidden(_) => out.extend_from_slice(b"redacted")?, // `https://u:redacted@h/p`
        }
    }
    Ok(out)
}
