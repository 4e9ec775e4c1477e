//! The refusal of a text, by its form.

ghost use Rattle.std.specs.Prelude.{◌+◌, ◌≤◌, IfSome, MatchOption, length};
ghost use Rattle.git_refusals.specs.Internal.Readable.{IsSpelled};
ghost use Rattle.git_refusals.specs.Reasons.{Refused, IsAt};

use crate::place::Place;
use crate::reason::Reason;
use crate::refusal::Refusal;
use crate::scp::{bad_addressed, bad_scp};
use crate::url::{bad_file, bad_url};
use git_syntax::classify::{Form, classify};
use git_syntax::refusal::UrlKind;

/// The refusal of the text: `None` if it spells a location.
#[inline(never)]
pub fn refusal_of(text: &[u8]) -> Option<Refusal>
    ensures found { MatchOption result (IsSpelled text.now) (λ refusal. Refused text.now refusal) }
    ensures within { IfSome result (λ refusal. refusal.at + refusal.len ≤ length text.now) }
{
    match classify(text) {
        Form::Empty => Some(Refusal::new(UrlKind::Local, empty())),
        Form::Helper { .. } | Form::Local => None,
        Form::Url { scheme, rest } => {
            let place = if scheme == b"file".as_slice() {
                bad_file(text, rest)?
            } else {
                bad_url(text, scheme, rest)?
            };
            Some(Refusal::new(UrlKind::Url, place))
        }
        Form::Addressed {
            user,
            address,
            path,
        } => {
            let place = bad_addressed(text, user, address, path)?;
            Some(Refusal::new(UrlKind::Scp, place))
        }
        Form::Scp { front, path } => {
            let place = bad_scp(text, front, path)?;
            Some(Refusal::new(UrlKind::Scp, place))
        }
    }
}

/// The place of the refusal of the empty text.
fn empty() -> Place
    ensures { IsAt Reason.Empty 0 0 result }
{
    Place {
        reason: Reason::Empty,
        at: 0,
        len: 0,
    }
}
