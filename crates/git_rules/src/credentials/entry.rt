//! Whether an entry applies to a request.

ghost use Rattle.std.specs.Prelude.{◌≡◌, ◌↔◌, false, IfOk, IsTrue, option_map};
ghost use Rattle.git_reads.specs.Views.{credential_reading};
ghost use Rattle.git_rules.specs.CredentialEntries.{AppliesTo, DecidesUrl, FitsSubsection, IsFormOf, MatchesForm};
ghost use Rattle.git_rules.specs.CredentialUrls.{credential_url};
ghost use Rattle.git_rules.specs.OtherHosts.{IsElsewhere};

use crate::config::Entry;
use crate::credentials::partial::fits_partly;
use crate::normal::{NormalUrl, needed_buffer_len};
use crate::pattern::UrlPattern;
use crate::pattern::entries::is_short_buffer;
use crate::pattern::other_host::names_other_host;
use git_reads::credential::Request;
use std::alloc::{AllocError, Global};

/// Whether the entry applies to the request, with the user that Git uses. `place` is the normal form of the URL
/// that Git writes for the request, if that URL has one.
pub(super) fn applies(
    alloc: Global,
    entry: &Entry<'_>,
    request: &Request<'_>,
    place: Option<&NormalUrl<'_>>,
    user: Option<&[u8]>,
) -> Result<bool, AllocError>
    requires { IsFormOf false (credential_url (credential_reading request.now))
        (option_map (λ p. p.now) place) }
    ensures { IfOk result (λ applies. IsTrue applies ↔ AppliesTo (credential_reading request.now)
        (option_map (λ t. t.now) user.entry) entry.now) }
{
    if !entry.is_section("credential") {
        return Ok(false);
    }
    match entry.subsection {
        None => Ok(true),
        Some(url) => fits(alloc, url, request, place, user),
    }
}

/// Whether a subsection fits the request, with the user that Git uses.
fn fits(
    alloc: Global,
    url: &[u8],
    request: &Request<'_>,
    place: Option<&NormalUrl<'_>>,
    user: Option<&[u8]>,
) -> Result<bool, AllocError>
    requires { IsFormOf false (credential_url (credential_reading request.now))
        (option_map (λ p. p.now) place) }
    ensures { IfOk result (λ fits. IsTrue fits ↔ FitsSubsection (Some url.now)
        (credential_reading request.now) (option_map (λ t. t.now) user.entry)) }
{
    if is_elsewhere(url, request.host, place) {
        return Ok(false);
    }
    match matches_url(alloc, url, place)? {
        Some(matches) => Ok(matches),
        None => fits_partly(alloc, url, request, user),
    }
}

/// Whether the URL names another host than the request and than its place. False says nothing.
fn is_elsewhere(url: &[u8], host: &[u8], place: Option<&NormalUrl<'_>>) -> bool
    ensures { IsTrue result → IsElsewhere url.now host.now (option_map (λ p. p.now) place.entry) }
{
    if !names_other_host(url, host) {
        return false;
    }
    match place {
        None => true,
        Some(place) => place.host == host || names_other_host(url, place.host),
    }
}

/// Whether the URL matches the place as a pattern, or `None` if it has no normal form.
fn matches_url(
    alloc: Global,
    url: &[u8],
    place: Option<&NormalUrl<'_>>,
) -> Result<Option<bool>, AllocError>
    ensures { IfOk result (λ matches. DecidesUrl url.now (option_map (λ p. p.now) place.entry) matches) }
{
    let mut buffer = vec![in alloc; 0u8; needed_buffer_len(url.len())]?;
    matches_in(url, &mut buffer, place)
}

/// As `matches_url`, with a buffer for the normal form. A buffer that is too short counts as a failed allocation.
fn matches_in(
    url: &[u8],
    buffer: &mut [u8],
    place: Option<&NormalUrl<'_>>,
) -> Result<Option<bool>, AllocError>
    ensures { IfOk result (λ matches. DecidesUrl url.now (option_map (λ p. p.now) place.entry) matches) }
{
    match UrlPattern::parse_in(url, buffer) {
        Ok(pattern) => Ok(Some(matches_place(&pattern, place))),
        Err(error) => {
            if is_short_buffer(error) {
                Err(AllocError)
            } else {
                Ok(None)
            }
        }
    }
}

/// Whether the pattern matches the place; false if there is no place.
fn matches_place(pattern: &UrlPattern<'_>, place: Option<&NormalUrl<'_>>) -> bool
    ensures { IsTrue result ↔ MatchesForm pattern.now (option_map (λ p. p.now) place.entry) }
{
    match place {
        None => false,
        Some(place) => pattern.matches(place),
    }
}
