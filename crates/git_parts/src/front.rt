//! The front of a URL that is too long, which an error shows instead of the whole URL.

ghost use Rattle.std.specs.Prelude.{◌≡◌, ℕ, List, Some};
ghost use Rattle.git_refusals.specs.Kinds.{kind_of};
ghost use Rattle.git_refusals.specs.Reasons.{Refused};
ghost use Rattle.git_parts.specs.Fronts.{shown_front};
ghost use Rattle.git_parts.specs.Fronts as spec;

use git_refusals::reason::{Reason, RefusalKind};
use git_refusals::refusal::Refusal;
use git_syntax::bytes::cut_at_mark;
use git_syntax::refusal::UrlKind;

/// The front that the error shows of a text with this refusal: the scheme, `://` and the 1,024 bytes after it,
/// or the whole text if it is shorter.
pub fn shown_front<'a>(text: &'a [u8], refusal: &Refusal) -> &'a [u8]
    ensures { result.now ≡ spec.shown_front text.now refusal.now }
{
    let scheme = match refusal.reason {
        Reason::SchemeTooLong => refusal.len,
        _ => refusal.at.saturating_sub(3),
    };
    if text.len().saturating_sub(scheme) <= 1027 {
        return text;
    }
    text.split_at(scheme + 1027).0
}

/// The refusal of a text that is too long, from the front that an error shows.
pub fn refusal_of_front(shown: &[u8]) -> Option<Refusal>
    ensures { (b : List ℕ) (r : Refusal) → Refused b r → kind_of r.reason ≡ RefusalKind.TooLong
        → shown.now ≡ shown_front b r → result ≡ Some r }
{
    let (scheme, rest) = cut_at_mark(shown)?;
    if scheme.len() > 1024 {
        return Some(Refusal {
            form: UrlKind::Url,
            reason: Reason::SchemeTooLong,
            at: 0,
            len: scheme.len(),
        });
    }
    Some(Refusal {
        form: UrlKind::Url,
        reason: Reason::AuthorityTooLong,
        at: scheme.len() + 3,
        len: rest.len(),
    })
}
