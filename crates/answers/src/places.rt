//! Calls of `git_rules` over places: normal forms, patterns, and entries that apply to a place.
//!
//! Each normal form is written into a buffer, whose size is the one that the call needs, or that of the
//! member `buffer`.

use crate::halt::Halt;
use crate::order::{Order, unknown};
use crate::report::{Out, report_borrowed, report_owned};
use bstr::{BStr, ByteSlice};
use git_rules::config::Entry;
use git_rules::normal::{NormalError, NormalUrl, needed_buffer_len};
use git_rules::pattern::entries::{best_entry, entry_rank};
use git_rules::pattern::place::place_in;
use git_rules::pattern::settings::{settings_for, settings_without_place};
use git_rules::pattern::{UrlPattern, best};
use gix_url::UrlRef;
use std::alloc::Global;

/// A buffer for a normal form: its size is the number in the order, or else the size that a text of this length needs.
/// The buffer is filled with `#`: bytes that the library doesn't write aren't part of a place.
fn buffer_of(alloc: Global, order: Order<'_>, len: usize) -> Result<Vec<u8>, Halt> {
    let size = match order.number("buffer") {
        Some(size) => usize::try_from(size).unwrap_or(0),
        None => needed_buffer_len(len),
    };
    Ok(vec![in alloc; b'#'; size]?)
}

/// Calls over the length of a text.
pub fn over_len(order: Order<'_>, len: u64, out: &mut Out) -> Result<(), Halt> {
    let len = usize::try_from(len).unwrap_or(0);
    match order.call() {
        "normal::needed_buffer_len" => report_borrowed(out, &needed_buffer_len(len)),
        call => unknown(call),
    }
}

/// Calls over a text, or over a text and a pattern.
pub fn over_text(alloc: Global, order: Order<'_>, text: &[u8], out: &mut Out) -> Result<(), Halt> {
    let mut buffer = buffer_of(alloc, order, text.len())?;
    let outcome = match order.name() {
        "NormalUrl::parse_in" | "UrlPattern::parse_in" => read_apart(order, text, &mut buffer, out),
        _ => over_place(alloc, order, NormalUrl::parse_in(text, &mut buffer), out),
    };
    drop(buffer);
    outcome
}

/// Parses a text, and checks that the buffer doesn't have its password, whatever the result: the password isn't in a
/// normal form.
fn read_apart(order: Order<'_>, text: &[u8], buffer: &mut [u8], out: &mut Out) -> Result<(), Halt> {
    read(order, text, buffer, out)?;
    match order.text("password") {
        Some(password) if holds(&*buffer, password) => Err(Halt::Changed),
        _ => Ok(()),
    }
}

/// Whether bytes hold a text.
fn holds(bytes: &[u8], text: &str) -> bool {
    bytes.contains_str(text.as_bytes())
}

/// Reports the normal form of a text, or whether it is a pattern. If the text isn't a URL or the buffer is too short, the
/// buffer has to be unchanged.
fn read(order: Order<'_>, text: &[u8], buffer: &mut [u8], out: &mut Out) -> Result<(), Halt> {
    let is_kept = match order.call() {
        "NormalUrl::parse_in" => {
            let read = NormalUrl::parse_in(text, buffer);
            let is_kept = keeps_buffer(&read);
            report_owned(out, read)?;
            is_kept
        }
        "UrlPattern::parse_in" => {
            let read = UrlPattern::parse_in(text, buffer).map(is_pattern);
            let is_kept = keeps_buffer(&read);
            report_owned(out, read)?;
            is_kept
        }
        call => return unknown(call),
    };
    if is_kept && !buffer.iter().all(|&byte| byte == b'#') {
        return Err(Halt::Changed);
    }
    Ok(())
}

/// Whether nothing was written into the buffer.
fn keeps_buffer<T>(read: &Result<T, NormalError>) -> bool {
    matches!(read, Err(NormalError::NoRoom | NormalError::NoUrl))
}

/// True for each pattern.
fn is_pattern(pattern: UrlPattern<'_>) -> bool {
    drop(pattern);
    true
}

/// Calls over a place and a pattern. If a text has no normal form, that is reported.
fn over_place(
    alloc: Global,
    order: Order<'_>,
    place: Result<NormalUrl<'_>, NormalError>,
    out: &mut Out,
) -> Result<(), Halt> {
    let text = order.bytes(alloc, "pattern")?;
    let mut buffer = buffer_of(alloc, order, text.len())?;
    let outcome = match place {
        Err(error) => refused(order, error, out),
        Ok(place) => {
            let pattern = UrlPattern::parse_in(text.as_slice(), &mut buffer);
            let outcome = over_pattern(order, &place, pattern, out);
            drop(place);
            outcome
        }
    };
    drop(buffer);
    drop(text);
    outcome
}

/// Reports why a text isn't a place, if a call is made.
fn refused(order: Order<'_>, error: NormalError, out: &mut Out) -> Result<(), Halt> {
    match order.call() {
        "" => Ok(()),
        _ => report_borrowed(out, &error),
    }
}

/// Calls over a place and a pattern. A text that isn't a pattern matches nothing.
fn over_pattern(
    order: Order<'_>,
    place: &NormalUrl<'_>,
    pattern: Result<UrlPattern<'_>, NormalError>,
    out: &mut Out,
) -> Result<(), Halt> {
    let (is_match, found) = match pattern {
        Ok(pattern) => {
            let is_match = pattern.matches(place);
            (is_match, best(&[pattern], place))
        }
        Err(_) => (false, None),
    };
    match order.call() {
        "UrlPattern::matches" => report_borrowed(out, &is_match),
        "pattern::best" => report_borrowed(out, &found),
        call => unknown(call),
    }
}

/// Calls over the entries of a configuration, whose text has this length, and a text.
pub fn over_entries(
    alloc: Global,
    order: Order<'_>,
    entries: &[Entry<'_>],
    len: usize,
    out: &mut Out,
) -> Result<(), Halt> {
    let text = order.bytes(alloc, "text")?;
    let mut own = buffer_of(alloc, order, text.len())?;
    let mut buffer = buffer_of(alloc, order, len)?;
    let outcome = match NormalUrl::parse_in(text.as_slice(), &mut own) {
        Err(error) => refused(order, error, out),
        Ok(place) => {
            let outcome = over_place_of(alloc, order, entries, &place, &mut buffer, out);
            drop(place);
            outcome
        }
    };
    drop(buffer);
    drop(own);
    drop(text);
    outcome
}

/// Reports which entries are used for a place, or the entry that is chosen of them.
fn over_place_of(
    alloc: Global,
    order: Order<'_>,
    entries: &[Entry<'_>],
    place: &NormalUrl<'_>,
    buffer: &mut [u8],
    out: &mut Out,
) -> Result<(), Halt> {
    match order.name() {
        "settings::settings_for" => settle(alloc, order, entries, place, buffer, out),
        _ => pick(order, entries, place, buffer, out),
    }
}

/// Reports the indices of the entries whose values are used for a place.
fn settle(
    alloc: Global,
    order: Order<'_>,
    entries: &[Entry<'_>],
    place: &NormalUrl<'_>,
    buffer: &mut [u8],
    out: &mut Out,
) -> Result<(), Halt> {
    let name = order.needed("name")?;
    match order.call() {
        "settings::settings_for" => {
            report_owned(out, settings_for(alloc, entries, name, place, buffer))
        }
        call => unknown(call),
    }
}

/// Reports the indices of the entries whose values are used for a text without a normal form.
pub fn over_no_place(
    alloc: Global,
    order: Order<'_>,
    entries: &[Entry<'_>],
    out: &mut Out,
) -> Result<(), Halt> {
    let name = order.needed("name")?;
    match order.call() {
        "settings::settings_without_place" => {
            report_owned(out, settings_without_place(alloc, entries, name))
        }
        call => unknown(call),
    }
}

/// Reports the value of the best entry for a place, or the rank of the first one.
fn pick(
    order: Order<'_>,
    entries: &[Entry<'_>],
    place: &NormalUrl<'_>,
    buffer: &mut [u8],
    out: &mut Out,
) -> Result<(), Halt> {
    let (section, name) = (order.needed("section")?, order.needed("name")?);
    match (order.call(), entries.first()) {
        ("entries::best_entry", _) => {
            value_of(
                entries,
                best_entry(entries, section, name, place, buffer),
                out,
            )
        }
        ("entries::entry_rank", Some(entry)) => {
            report_borrowed(out, &entry_rank(entry, section, name, place, buffer))
        }
        ("entries::entry_rank", None) => Err(Halt::Unprepared),
        (call, _) => unknown(call),
    }
}

/// Reports the value of the entry at an index.
fn value_of(
    entries: &[Entry<'_>],
    found: Result<Option<usize>, NormalError>,
    out: &mut Out,
) -> Result<(), Halt> {
    match found {
        Err(error) => report_borrowed(out, &error),
        Ok(at) => {
            let entry = at.and_then(|at| entries.get(at));
            let value = entry.and_then(|entry| entry.value);
            report_borrowed(out, &value.map(|value| BStr::new(value)))
        }
    }
}

/// Reports the place of a location.
pub fn over_location(
    alloc: Global,
    order: Order<'_>,
    url: &UrlRef<'_>,
    out: &mut Out,
) -> Result<(), Halt> {
    let len = match url.text_len() {
        Ok(len) => usize::try_from(len).unwrap_or(0),
        Err(_) => 0,
    };
    let mut buffer = buffer_of(alloc, order, len.saturating_mul(2))?;
    let outcome = match order.call() {
        "place::place_in" => report_owned(out, place_in(url, &mut buffer)),
        call => unknown(call),
    };
    drop(buffer);
    outcome
}
