//! Examples of Git's rules for a location by its configuration: its entries, its transports, and the places of
//! settings.

use bstr::BString;
use git_rules::boolean::read_boolean;
use git_rules::config::{self, Entry, EntryError, Reader, is_listing};
use git_rules::normal::{NormalUrl, needed_buffer_len};
use git_rules::number::{INT_MAX, read_number};
use git_rules::protocols::text::{NoTransport, transport_of};
use git_rules::protocols::{Permission, Protocols, Reason, transport};
use git_rules::stops::stop_at;
use gix_url::UrlRef;
use std::alloc::{AllocError, Global};

fn is_on(value: &[u8]) -> bool {
    read_boolean(value) == Some(true) // of `Yes`, `1`, `-0x10` and `2k`, but not of `off`, `00`, `2g` and `1 `
}

/// Whether an entry is `url.<base>.insteadOf`.
fn is_rewrite(entry: &Entry<'_>) -> bool {
    entry.is_section("url") && entry.is_name("insteadof") && entry.subsection.is_some()
}

/// Whether an entry is `http.sslVerify` or `http.<url>.sslVerify`.
fn is_of_certificates(entry: &Entry<'_>) -> bool {
    entry.sets("http", "sslverify")
}

/// At which bytes of a configuration there is something that is no entry.
fn bad_places(alloc: Global, text: &[u8]) -> Result<Vec<usize>, AllocError> {
    let mut places = Vec::new(alloc);
    for item in Reader::new(text) {
        match item {
            Ok(_) => {}
            Err(EntryError::NoKey { at } | EntryError::NoEnd { at }) => places.push(at)?,
        }
    }
    Ok(places)
}

/// The last value of `http.proxy`, which is the one that Git takes.
fn proxy(alloc: Global, text: &[u8]) -> Result<Option<&[u8]>, AllocError> {
    let mut found = None;
    for entry in &config::entries(alloc, text)? {
        if entry.is_section("http") && entry.subsection.is_none() && entry.is_name("proxy") {
            found = entry.value;
        }
    }
    Ok(found)
}

fn is_secure_shell(url: &UrlRef<'_>) -> bool {
    transport(url) == "ssh" // of `git@host:repo` and `ssh://host/repo`
}

/// Whether a location that the user didn't type may be fetched from.
fn may_follow(url: &UrlRef<'_>, entries: &[Entry<'_>]) -> bool {
    let protocols = Protocols {
        entries,
        allow_list: None,
        from_user: Some(b"0"),
    };
    protocols.permission(transport(url)).is_allowed() // of `ssh://host/repo`, but not of `/repo` and `ext::sh`
}

/// Whether Git may fetch from a text that the user didn't type.
fn may_fetch(text: &[u8], entries: &[Entry<'_>]) -> bool {
    let protocols = Protocols {
        entries,
        allow_list: None,
        from_user: Some(b"0"),
    };
    match transport_of(text) {
        Ok(name) => protocols.permission(name).is_allowed(), // `[evil:22]/x:p` is for `ssh`
        Err(_) => false, // `rsync://h/p` is refused by Git
    }
}

/// Whether a text is a location that older versions of Git fetched from.
fn is_outdated(why: NoTransport) -> bool {
    why == NoTransport::Rsync
}

fn is_helper_allowed(protocols: &Protocols<'_>) -> bool {
    protocols.permission("ext").is_allowed()
}

fn refusal_place(protocols: &Protocols<'_>, name: &str) -> Option<usize> {
    match protocols.permission(name) {
        Permission::Refused(Reason::Entry { at }) => Some(at),
        _ => None,
    }
}

/// The host whose settings apply to a text, in a buffer that is made for it.
fn host_text(alloc: Global, text: &[u8]) -> Result<Option<BString>, AllocError> {
    let mut buffer = vec![in alloc; 0u8; needed_buffer_len(text.len())]?;
    match NormalUrl::parse_in(text, &mut buffer) {
        Ok(place) => Ok(Some(BString::from_slice(alloc, place.host)?)),
        Err(_) => Ok(None),
    }
}

/// The host whose settings apply to a text.
fn host_of<'a>(text: &'a [u8], buffer: &'a mut [u8]) -> Option<&'a [u8]> {
    match NormalUrl::parse_in(text, buffer) {
        Ok(place) => Some(place.host), // `example.com` of `https://me@Example.com:443/a/../b`
        Err(_) => None,
    }
}

/// The entries of a text; none if it isn't the whole output of `git config --list -z`.
fn checked(alloc: Global, text: &[u8]) -> Result<Option<Vec<Entry<'_>>>, AllocError> {
    if !is_listing(text) {
        return Ok(None); // of `user.name=me` and a line feed
    }
    Ok(Some(config::entries(alloc, text)?))
}

/// Whether Git takes a value for the number of requests at once.
fn is_number(value: &[u8]) -> bool {
    read_number(value, INT_MAX).is_some() // of `5`, `-0x10` and `2k`, but not of `2g`, `1 ` and an empty text
}

/// The places of the entries at which Git stops.
fn stops(alloc: Global, entries: &[Entry<'_>]) -> Result<Vec<usize>, AllocError> {
    let mut places = Vec::new(alloc);
    for entry in entries {
        if stop_at(entry).is_some() {
            places.push(entry.at)?; // of `http.postBuffer=x`, and of `http.extraHeader` without a value
        }
    }
    Ok(places)
}
