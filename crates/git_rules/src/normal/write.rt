//! Writes the normal form of a URL. A part that is equal to its text stays a slice of the text; the others are
//! written to a buffer.

ghost use Rattle.std.specs.Prelude.{◌≡◌, ◌+◌, ◌*◌, ◌≤◌, MatchResult, length, option_map};
ghost use Rattle.std.specs.Option.{option_copied};
ghost use Rattle.git_syntax.specs.Bytes.{lowercase};
ghost use Rattle.git_rules.specs.Normal.{normal_text};
ghost use Rattle.git_rules.specs.NormalFlaws.{PathFlaw};
ghost use Rattle.git_rules.specs.NormalPieces.{HasSoundUser, HoldsParts, user_length};

use crate::normal::authority::Authority;
use crate::normal::escapes::normal_in;
use crate::normal::path::path_in;
use crate::normal::{NormalError, NormalUrl};
use git_syntax::bytes::is_lowercase;

/// Returns the normal form of a URL with these parts. The scheme is already in lower case.
pub(super) fn write_parts<'a>(
    scheme: &'a [u8],
    authority: Authority<'a>,
    suffix: &[u8],
    buffer: &'a mut [u8],
) -> Result<NormalUrl<'a>, NormalError>
    requires sound { HasSoundUser (option_copied authority.user) }
    requires buffer { 3 * user_length (option_copied authority.user) + length authority.host.now
        + 3 * length suffix.now + 1 ≤ length buffer.old }
    ensures { MatchResult result
        (λ n. HoldsParts scheme.now (option_copied authority.entry.user) authority.entry.host.now
        authority.entry.port suffix.now n)
        (λ e. PathFlaw suffix.now e) }
{
    let (user, buffer) = user_in(authority.user, buffer);
    let (host, buffer) = lowered_in(authority.host, buffer);
    let path = path_in(suffix, buffer)?;
    Ok(NormalUrl {
        scheme,
        user,
        host,
        port: authority.port,
        path,
    })
}

/// Returns a text in lower case, and the rest of the buffer.
pub(super) fn lowered_in<'a>(text: &'a [u8], buffer: &'a mut [u8]) -> (&'a [u8], &'a mut [u8])
    requires { length text.now ≤ length buffer.old }
    ensures text { result.0.now ≡ lowercase text.now }
    ensures left { length buffer.old ≤ length result.1.now + length text.now }
{
    if is_lowercase(text) {
        return (text, buffer);
    }
    let (front, left) = buffer.split_at_mut(text.len());
    front.copy_from_slice(text);
    front.make_ascii_lowercase();
    (front, left)
}

/// Returns the normal form of an optional user, and the rest of the buffer.
fn user_in<'a>(user: Option<&[u8]>, buffer: &'a mut [u8]) -> (Option<&'a [u8]>, &'a mut [u8])
    requires sound { HasSoundUser (option_copied user) }
    requires buffer { 3 * user_length (option_copied user) ≤ length buffer.old }
    ensures text { option_copied result.0 ≡ option_map normal_text (option_copied user.entry) }
    ensures left { length buffer.old
        ≤ length result.1.now + 3 * user_length (option_copied user.entry) }
{
    match user {
        None => (None, buffer),
        Some(user) => {
            let (text, left) = normal_in(user, buffer);
            (Some(text), left)
        }
    }
}
