//! The settings of Git's credential code by a configuration, for a text of HTTP.

ghost use Rattle.std.specs.Prelude.{IfErr, IfOk};
ghost use Rattle.git_reads.specs.Views.{credential_reading};
ghost use Rattle.git_rules.specs.Credentials.{AreCredentials, RefusesCredentials};

use crate::memory::both;
use crate::rules::setting::Setting;
use crate::text::secret::{has_secret, part_of_shown, shown_part};
use git_rules::config::Entry;
use git_rules::credentials::{self, CredentialsError, credentials_for};
use gix_url::credential::{Buffers, Request, reading};
use serde::Serialize;
use std::alloc::{AllocError, Global};

/// The settings of Git's credential code.
#[derive(Drop, Serialize)]
pub struct Credentials {
    /// The entries whose values are the helpers, in the order in which Git calls them.
    pub helpers: Vec<Setting>,
    /// The user in the request to helpers, with `redacted` in place of possible secrets.
    pub user: Option<String>,
    /// Whether the request to helpers has the path.
    pub use_http_path: bool,
}

impl Credentials {
    /// Returns the settings for a text. Returns `None` if Git asks for no credentials, or stops at an entry.
    pub fn of(
        alloc: Global,
        entries: &[Entry<'_>],
        text: &[u8],
    ) -> Result<Option<Credentials>, AllocError> {
        let mut buffers = Buffers::new(alloc);
        let Some(request) = reading(text, &mut buffers)? else {
            return Ok(None);
        };
        match used_for(alloc, entries, &request) {
            Ok(used) => {
                let user = user_of(text, request.user, used.user);
                Ok(Some(Credentials::shown(alloc, entries, &used, user)?))
            }
            Err(CredentialsError::Memory) => Err(AllocError),
            Err(CredentialsError::NoValue { at: _ } | CredentialsError::NoBoolean { at: _ }) => {
                Ok(None)
            }
        }
    }

    /// The settings by these entries for this user, as they are shown.
    fn shown(
        alloc: Global,
        entries: &[Entry<'_>],
        used: &credentials::Credentials<'_>,
        user: Option<&[u8]>,
    ) -> Result<Credentials, AllocError> {
        let mut helpers = Vec::new(alloc);
        for entry in used.helpers.iter().filter_map(|i| entries.get(*i)) {
            helpers.push(Setting::of(alloc, entry)?)?;
        }
        let (helpers, user) = both(helpers, shown_part(alloc, user))?;
        Ok(Credentials {
            helpers,
            user,
            use_http_path: used.use_http_path,
        })
    }
}

/// The settings that Git uses for a request. Without an entry they are those of the request alone, and the URL by which
/// Git compares entries isn't built.
fn used_for<'a>(
    alloc: Global,
    entries: &[Entry<'a>],
    request: &Request<'a>,
) -> Result<credentials::Credentials<'a>, CredentialsError>
    ensures used { IfOk result
        (λ used. AreCredentials (credential_reading request.now) entries.now used) }
    ensures refused { IfErr result
        (λ error. RefusesCredentials (credential_reading request.now) entries.now error) }
{
    match entries {
        [] => Ok(credentials::Credentials {
            helpers: Vec::new(alloc),
            user: request.user,
            use_http_path: false,
        }),
        [_, ..] => credentials_for(alloc, entries, request),
    }
}

/// The user of the request. A user that is read in a text with a possible secret is shown only if the text as it is
/// shown contains it.
fn user_of<'a>(text: &[u8], asked: Option<&[u8]>, used: Option<&'a [u8]>) -> Option<&'a [u8]> {
    match used {
        Some(user) if asked.is_some() && has_secret(text) => Some(part_of_shown(text, user)),
        _ => used,
    }
}
