//! Offsets of a text in the text as it is shown.

use crate::text::secret::{REDACTED, size_of};
use git_audit::secret::secrets;
use git_parts::parts::Span;

/// Whether a part of a text has this span in the text as it is shown, or is absent from both.
pub(crate) fn is_moved(text: &[u8], part: Option<Span>, shown: Option<Span>) -> bool {
    match (part, shown) {
        (None, None) => true,
        (Some(part), Some(shown)) => is_between(text, part, shown),
        (None, Some(_)) | (Some(_), None) => false,
    }
}

/// Whether a part of a text has this span in the text as it is shown.
fn is_between(text: &[u8], part: Span, shown: Span) -> bool {
    let end = part.at.saturating_add(part.len);
    let end_shown = shown.at.saturating_add(shown.len);
    moved(text, part.at) == Some(shown.at) && moved(text, end) == Some(end_shown)
}

/// The offset in the text as it is shown of an offset in the text, or `None` inside of a hidden piece.
fn moved(text: &[u8], place: usize) -> Option<usize> {
    let (mut at, mut shown) = (0usize, 0usize);
    for piece in secrets(text) {
        let (len, is_hidden) = size_of(piece);
        let end = at.saturating_add(len);
        if place < end {
            return within(is_hidden, place.saturating_sub(at), shown);
        }
        at = end;
        shown = shown.saturating_add(if is_hidden { REDACTED.len() } else { len });
    }
    Some(shown.saturating_add(place.saturating_sub(at)))
}

/// The offset `bytes` after the shown start of a piece, unless it is inside of a hidden piece.
fn within(is_hidden: bool, bytes: usize, shown: usize) -> Option<usize> {
    if is_hidden && 0 < bytes {
        None
    } else {
        Some(shown.saturating_add(bytes))
    }
}
