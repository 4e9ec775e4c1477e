//! The authority of a URL, as Git compares it: the user, the host and the port.
//!
//! The user and the host are slices of the text; `write` writes their normal form.

ghost use Rattle.std.specs.Prelude.{◌≡◌, ◌≤◌, MatchResult, length};
ghost use Rattle.std.specs.Option.{option_copied};
ghost use Rattle.git_rules.specs.Normal.{IsUserOf};
ghost use Rattle.git_rules.specs.NormalFlaws.{AuthorityFlaw};
ghost use Rattle.git_rules.specs.NormalPieces.{ReadsAuthority};

use crate::normal::NormalError;
use crate::normal::host::read_host;
use git_syntax::bytes::cut;
use git_syntax::escape::is_sound;

/// The compared parts of an authority, as slices of it.
#[derive(Clone, Copy)]
pub(super) struct Authority<'a> {
    /// The user, still escaped.
    pub user: Option<&'a [u8]>,
    /// The host, not yet in lower case.
    pub host: &'a [u8],
    /// The port, unless it is the scheme's default port.
    pub port: Option<u16>,
}

/// Reads the parts of an authority.
pub(super) fn read_authority<'a>(
    globs: bool,
    scheme: &[u8],
    text: &'a [u8],
) -> Result<Authority<'a>, NormalError>
    ensures { MatchResult result
        (λ a. ReadsAuthority globs scheme.now text.now (option_copied a.user) a.host.now a.port)
        (λ e. AuthorityFlaw globs scheme.now text.now e) }
{
    let Some((info, rest)) = cut(text, b'@') else {
        let (host, port) = read_host(globs, scheme, text)?;
        return Ok(Authority {
            user: None,
            host,
            port,
        });
    };
    if !is_sound(info) {
        return Err(NormalError::BrokenEscape);
    }
    let (host, port) = read_host(globs, scheme, rest)?;
    Ok(Authority {
        user: Some(user_of(info)),
        host,
        port,
    })
}

/// The user in user information.
fn user_of(info: &[u8]) -> &[u8]
    ensures { IsUserOf info.now result.now }
{
    match cut(info, b':') {
        None => info,
        Some((user, _)) => user,
    }
}
