//! Finds the form of a text and the slices that its location consists of.
//!
//! If an error is returned, the text spells no location, and it has the flaw that the error names.

ghost use Rattle.std.specs.Prelude.{◌≡◌, ◌≤◌, [], Err, IfErr, IfOk, length};
ghost use Rattle.git_syntax.specs.Flaws.{NamesFlaw};
ghost use Rattle.git_syntax.specs.Internal.FoundPieces.{IsReady, denoted, buffer_length_for};
ghost use Rattle.git_syntax.specs.Grammar.{Spells};
ghost use Rattle.git_syntax.specs.Location.{Location};

use crate::classify::{Form, classify};
use crate::found::Found;
use crate::refusal::Refusal;
use crate::scp::{find_addressed, find_scp};
use crate::url::find_url;

/// Returns the slices of the one location that the bytes spell, or a flaw of the bytes.
///
/// Each caller has a number of its own for `READER`. So it has an instance of its own, which the compiler inlines.
#[inline(always)]
pub fn find<const READER: u8>(bytes: &[u8]) -> Result<Found<'_>, Refusal>
    ensures found { IfOk result (λ found. Spells bytes.now (denoted found)) }
    ensures ready { IfOk result (λ found. IsReady found) }
    ensures buffer { IfOk result (λ found. buffer_length_for found ≤ length bytes.now) }
    ensures refused { IfErr result (λ refusal. (v : Location) → ¬ Spells bytes.now v) }
    ensures flaw { IfErr result (λ refusal. NamesFlaw bytes.now refusal) }
    ensures empty { bytes.now ≡ [] → result ≡ Err Refusal.EmptyLocal }
{
    match classify(bytes) {
        Form::Empty => Err(Refusal::EmptyLocal),
        Form::Helper { name, address } => Ok(Found::Helper { name, address }),
        Form::Url { scheme, rest } => find_url(bytes, scheme, rest),
        Form::Addressed {
            user,
            address,
            path,
        } => find_addressed(bytes, user, address, path),
        Form::Scp { front, path } => find_scp(bytes, front, path),
        Form::Local => Ok(Found::Local { path: bytes }),
    }
}
