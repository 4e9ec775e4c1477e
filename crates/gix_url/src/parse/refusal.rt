//! Builds the error of a refusal, with a copy of the text. Allocates once, for the copy; if that fails, the
//! error is `Memory`.

ghost use Rattle.std.specs.Prelude.{◌≡◌, IfOk, Ok};
ghost use Rattle.git_refusals.specs.Kinds.{empty_refusal};
ghost use Rattle.git_refusals.specs.Reasons.{Refused};
ghost use Rattle.gix_url.specs.Flaws.{Flaw};

use crate::error::Error;
use crate::parse::copies::copy;
use git_parts::front::shown_front;
use git_refusals::reason::RefusalKind;
use git_refusals::refusal::Refusal;
use std::alloc::{AllocError, Global};

/// The error of a text with this refusal.
pub(super) fn error_of(alloc: Global, input: &[u8], refusal: Refusal) -> Error
    requires { Refused input.now refusal }
    ensures flaw { Flaw input.now result }
    ensures empty { refusal ≡ empty_refusal → result ≡ Error.EmptyLocal }
{
    match error_with_copy(alloc, input, refusal) {
        Ok(error) => error,
        Err(_) => Error::Memory,
    }
}

/// The error of a text with this refusal, if the allocation succeeds.
fn error_with_copy(alloc: Global, input: &[u8], refusal: Refusal) -> Result<Error, AllocError>
    requires { Refused input.now refusal }
    ensures flaw { IfOk result (λ error. Flaw input.now error) }
    ensures empty { refusal ≡ empty_refusal → result ≡ Ok Error.EmptyLocal }
{
    let kind = refusal.form;
    match refusal.reason.kind() {
        RefusalKind::EmptyLocal => Ok(Error::EmptyLocal),
        RefusalKind::MissingPath => Ok(Error::MissingPath {
            kind,
            input: copy(alloc, input)?,
        }),
        RefusalKind::NotUtf8 => Ok(Error::NotUtf8 {
            kind,
            input: copy(alloc, input)?,
        }),
        RefusalKind::TooLong => Ok(Error::TooLong {
            shown: copy(alloc, shown_front(input, &refusal))?,
            total: input.len(),
        }),
        RefusalKind::BadUrl(fault) => Ok(Error::BadUrl {
            kind,
            fault,
            input: copy(alloc, input)?,
        }),
    }
}
