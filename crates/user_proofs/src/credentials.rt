//! The headers for a location: the guarantees that a program that sends them needs, proved by the contracts of
//! `git_rules` alone.

ghost use Rattle.std.specs.Prelude.{◌↔◌, IfOk, IsTrue, length};
ghost use Rattle.gix_url.specs.Settled.{IsWeb};
ghost use Rattle.user_proofs.specs.Credentials.{AreOwn, AreSent};

use git_rules::config::Entry;
use git_rules::normal::law_normal_form;
use git_rules::pattern::law_patterns;
use git_rules::pattern::place::place_in;
use git_rules::pattern::settings::{SettingsError, settings_for};
use gix_url::laws::law_value;
use gix_url::{Scheme, Url};
use std::alloc::Global;

/// The indices of the entries of `extraHeader` whose headers Git sends for a location, in its order. No header of an
/// entry for another place is among them: each entry is for all places, or its header is sent to the scheme, the host
/// and the port of the entry's URL, to which Git and curl connect for the text of the location. There are none for a
/// location that is not of HTTP, for one in whose text Git may find another place, or if the first buffer is shorter
/// than four times the text and one byte. The second buffer is for the URLs of the entries.
pub fn headers_for(
    alloc: Global,
    url: &Url,
    entries: &[Entry<'_>],
    buffer: &mut [u8],
    other: &mut [u8],
) -> Result<Vec<usize>, SettingsError>
    ensures own { IfOk result (λ found. AreOwn url.now entries.now found.items) }
    ensures sent { IfOk result (λ found. AreSent url.now (length buffer.old) entries.now found.items) }
{
    if !is_web(url) {
        return Ok(Vec::new(alloc));
    }
    if !url.agrees_with_git() {
        return Ok(Vec::new(alloc));
    }
    law_value(url);
    law_patterns();
    law_normal_form();
    let Ok(place) = place_in(&url.as_ref(), buffer) else {
        return Ok(Vec::new(alloc));
    };
    settings_for(alloc, entries, "extraHeader", &place, other)
}

/// Whether the location is of HTTP.
fn is_web(url: &Url) -> bool
    ensures { IsTrue result ↔ IsWeb url.now }
{
    matches!(url.scheme, Scheme::Http | Scheme::Https)
}
