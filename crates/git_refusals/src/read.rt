//! Reads a text: its slices, or its refusal. The reason is searched for only in texts that spell no location.

ghost use Rattle.std.specs.Prelude.{◌≡◌, ◌+◌, ◌≤◌, [], Err, IfErr, IfOk, length};
ghost use Rattle.git_refusals.specs.Kinds.{empty_refusal};
ghost use Rattle.git_syntax.specs.Internal.FoundPieces.{IsReady, denoted, buffer_length_for};
ghost use Rattle.git_syntax.specs.Grammar.{Spells};
ghost use Rattle.git_syntax.specs.Location.{Location};
ghost use Rattle.git_refusals.specs.Reasons.{Refused};

pub use crate::form::refusal_of;
use crate::reason::Reason;
use crate::refusal::Refusal;
use git_syntax::find::find;
use git_syntax::found::Found;
use git_syntax::refusal::UrlKind;

/// The slices of the one location that the bytes spell, or the one refusal of the bytes.
pub fn read(bytes: &[u8]) -> Result<Found<'_>, Refusal>
    ensures found { IfOk result (λ found. Spells bytes.now (denoted found)) }
    ensures ready { IfOk result (λ found. IsReady found) }
    ensures buffer { IfOk result (λ found. buffer_length_for found ≤ length bytes.now) }
    ensures unspelled { IfErr result (λ refusal. (v : Location) → ¬ Spells bytes.now v) }
    ensures refused { IfErr result (λ refusal. Refused bytes.now refusal) }
    ensures empty { bytes.now ≡ [] → result ≡ Err empty_refusal }
    ensures within { IfErr result (λ refusal. refusal.at + refusal.len ≤ length bytes.now) }
{
    match find::<2>(bytes) {
        Ok(found) => Ok(found),
        Err(_) => Err(refusal(bytes)),
    }
}

/// The refusal of bytes that spell no location. For other bytes it is unspecified, but its place is in them.
pub fn refusal(bytes: &[u8]) -> Refusal
    ensures refused { ((v : Location) → ¬ Spells bytes.now v) → Refused bytes.now result }
    ensures empty { bytes.now ≡ [] → result ≡ empty_refusal }
    ensures within { result.at + result.len ≤ length bytes.now }
{
    match refusal_of(bytes) {
        Some(refusal) => refusal,
        // Every text that spells no location has a refusal.
        None => Refusal {
            form: UrlKind::Local,
            reason: Reason::Empty,
            at: 0,
            len: 0,
        },
    }
}
