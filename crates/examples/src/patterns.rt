//! Examples of patterns of places, by which Git chooses settings and credentials.

use git_rules::config::{self, Entry};
use git_rules::normal::{NormalError, NormalUrl};
use git_rules::pattern::entries::{best_entry, entry_rank};
use git_rules::pattern::place::place_in;
use git_rules::pattern::settings::{
    Kind, SettingsError, kind_of, settings_for, settings_without_place,
};
use git_rules::pattern::{Rank, UrlPattern, best};
use gix_url::{UrlRef, agrees_with_git};
use std::alloc::Global;

/// Whether a pattern stands for a place, each in a buffer of its own.
fn stands_for(pattern: &[u8], buffer: &mut [u8], place: &NormalUrl<'_>) -> bool {
    match UrlPattern::parse_in(pattern, buffer) {
        Ok(pattern) => pattern.matches(place), // `https://*.example.com` for `https://git.example.com/a`
        Err(_) => false,
    }
}

/// Whether a proxy that is set for a URL is used for a place.
fn is_used(pattern: &UrlPattern<'_>, place: &NormalUrl<'_>) -> bool {
    pattern.matches(place)
}

/// The value that is set for a place: the values are as many as the patterns.
fn picked<'a>(
    patterns: &[UrlPattern<'_>],
    values: &[&'a str],
    place: &NormalUrl<'_>,
) -> Option<&'a str> {
    values.get(best(patterns, place)?).copied()
}

/// Whether the secret that is kept for a URL may be sent with a location's request, which is made to that URL's host.
fn may_be_sent(url: &UrlRef<'_>, kept_for: &UrlPattern<'_>, place: &NormalUrl<'_>) -> bool {
    agrees_with_git(url) && kept_for.matches(place)
}

/// The helper that an entry of a configuration names for a place.
fn helper<'a>(
    entry: &Entry<'a>,
    place: &NormalUrl<'_>,
    buffer: &mut [u8],
) -> Result<Option<&'a [u8]>, NormalError> {
    match entry_rank(entry, "credential", "helper", place, buffer)? {
        None => Ok(None),
        Some(_) => Ok(entry.value),
    }
}

/// Whether an entry is set for a URL, and not for all places.
fn is_for_url(rank: Rank) -> bool {
    rank.path > 0 // 0 of `http.proxy`, 1 of `http.https://example.com.proxy`
}

/// The proxy that Git uses for a place.
fn proxy<'a>(
    entries: &[Entry<'a>],
    place: &NormalUrl<'_>,
    buffer: &mut [u8],
) -> Result<Option<&'a [u8]>, NormalError> {
    match best_entry(entries, "http", "proxy", place, buffer)? {
        None => Ok(None),
        Some(i) => Ok(entries.get(i).and_then(|entry| entry.value)),
    }
}

/// Whether a pattern stands for a location.
fn is_for(pattern: &UrlPattern<'_>, url: &UrlRef<'_>, buffer: &mut [u8]) -> bool {
    match place_in(url, buffer) {
        Ok(place) => pattern.matches(&place),
        Err(_) => false,
    }
}

/// Whether Git adds up the values of a name of `http.*`, as of `extraHeader`.
fn adds_up(name: &[u8]) -> bool {
    matches!(kind_of(name), Kind::List)
}

/// The headers that Git sends to a place beside its own, each with a line feed after it.
fn header_lines(
    alloc: Global,
    entries: &[Entry<'_>],
    place: &NormalUrl<'_>,
    buffer: &mut [u8],
) -> Result<Vec<u8>, SettingsError> {
    let mut lines = Vec::new(alloc);
    for i in &settings_for(alloc, entries, "extraHeader", place, buffer)? {
        if let Some(header) = entries.get(*i).and_then(|entry| entry.value) {
            lines.extend_from_slice(header)?; // `X-A: 1`, and `X-B: 2` of `http.https://h.extraHeader`
            lines.extend_from_slice(b"\n")?;
        }
    }
    Ok(lines)
}

/// The proxy that Git uses for a text: that of its place, or the one for all places.
fn proxy_of<'a>(
    alloc: Global,
    entries: &[Entry<'a>],
    text: &[u8],
    own: &mut [u8],
    buffer: &mut [u8],
) -> Result<Option<&'a [u8]>, SettingsError> {
    let found = match NormalUrl::parse_in(text, own) {
        Ok(place) => settings_for(alloc, entries, "proxy", &place, buffer)?,
        Err(NormalError::NoRoom) => return Err(SettingsError::NoRoom),
        Err(_) => settings_without_place(alloc, entries, "proxy")?, // of `https://h:0/`, a port that no host has
    };
    let best = found.first().and_then(|i| entries.get(*i));
    Ok(best.and_then(|entry| entry.value))
}
