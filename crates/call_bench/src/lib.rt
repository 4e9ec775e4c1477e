//! Exports for programs in C, each of which makes one call of the library over a location, or over a text and the rules
//! of a configuration, so that the instructions of that call alone can be counted.
//!
//! This library is separate from `url_bench`, so that the calls of that are compiled as in a program without others.
//! `counted` has the counted calls; the exports make them over the location of a text. The program that calls the
//! exports is `driver.c` of `url_bench`, and `scripts/instructions` counts.
#![tactic(auto)]

ghost use Rattle.std.specs.Prelude.{◌≡◌, ◌<◌, ◌↔◌, IsTrue, fold};
ghost use Rattle.std.specs.Hash.DefaultHasher.{finish, initial, write};
ghost use Rattle.std.specs.declared.cmp.Ordering.TheVariants.{Equal};
ghost use Rattle.gix_url.specs.GitClass.{AgreesWithGit};
ghost use Rattle.git_readers.specs.Conditions.{IsUnambiguous};
ghost use Rattle.gix_url.specs.Grammar.{Spells};
ghost use Rattle.gix_url.specs.Order.{fed_location, location_cmp, location_eq};
ghost use Rattle.gix_url.specs.Settled.{IsSettled};
ghost use Rattle.gix_url.specs.Location.{Location};
ghost use Rattle.call_bench.specs.Answers.{IsCompactLength, IsComponentLength, IsExpandedLength, IsFetchedLength, IsMadeLength, IsPathLength, IsRereadLength, IsRestoredLength, IsShownLength, IsTextLength, SaysOf};

mod counted;

use bstr::BStr;
use git_rules::config;
use git_rules::rewrite::Rewrites;
use gix_url::{ParseError, RefusalKind, Url, UrlRef, expand_path};
use std::alloc::Global;
use std::cmp::Ordering;

/// The length of the text of the location, without building the text.
#[unsafe(no_mangle)]
pub extern "C" fn call_bench_text_len(alloc: Global, bytes: &[u8]) -> usize
    ensures { SaysOf IsTextLength bytes.now result }
{
    match Url::from_bytes(alloc, BStr::new(bytes)) {
        Ok(url) => counted::text_len(&url),
        Err(_) => 0,
    }
}

/// The length of the text of the location, which is written into existing memory.
#[unsafe(no_mangle)]
pub extern "C" fn call_bench_write_to(alloc: Global, bytes: &[u8]) -> usize
    ensures { SaysOf IsTextLength bytes.now result }
{
    let Ok(url) = Url::from_bytes(alloc, BStr::new(bytes)) else {
        return 0;
    };
    let Ok(mut out) = Vec::with_capacity(alloc, bytes.len().saturating_mul(3)) else {
        return 0;
    };
    if counted::write_to(&url, &mut out) {
        out.len()
    } else {
        0
    }
}

/// The length of the text of the location.
#[unsafe(no_mangle)]
pub extern "C" fn call_bench_to_bstring(alloc: Global, bytes: &[u8]) -> usize
    ensures { SaysOf IsTextLength bytes.now result }
{
    match Url::from_bytes(alloc, BStr::new(bytes)) {
        Ok(url) => counted::to_bstring(alloc, &url),
        Err(_) => 0,
    }
}

/// The length of the text that shows the location.
#[unsafe(no_mangle)]
pub extern "C" fn call_bench_to_string(alloc: Global, bytes: &[u8]) -> usize
    ensures { SaysOf IsShownLength bytes.now result }
{
    match Url::from_bytes(alloc, BStr::new(bytes)) {
        Ok(url) => counted::to_string(alloc, &url),
        Err(_) => 0,
    }
}

/// Whether the bytes are a settled location.
#[unsafe(no_mangle)]
pub extern "C" fn call_bench_is_settled(alloc: Global, bytes: &[u8], settled: &mut bool) -> bool
    ensures { IsTrue result → (v : Location) × Spells bytes.now v
        × (IsTrue settled.new ↔ IsSettled v) }
{
    match Url::from_bytes(alloc, BStr::new(bytes)) {
        Ok(url) => {
            *settled = counted::is_settled(&url);
            true
        }
        Err(_) => false,
    }
}

/// Whether the bytes are a location in whose text Git finds the same place.
#[unsafe(no_mangle)]
pub extern "C" fn call_bench_agrees_with_git(alloc: Global, bytes: &[u8], agrees: &mut bool) -> bool
    ensures { IsTrue result → (v : Location) × Spells bytes.now v
        × (IsTrue agrees.new ↔ AgreesWithGit v) }
{
    match Url::from_bytes(alloc, BStr::new(bytes)) {
        Ok(url) => {
            *agrees = counted::agrees_with_git(&url);
            true
        }
        Err(_) => false,
    }
}

/// Whether the bytes are a location in whose text every reader of a family finds the same parts.
#[unsafe(no_mangle)]
pub extern "C" fn call_bench_is_unambiguous(
    alloc: Global,
    bytes: &[u8],
    unambiguous: &mut bool,
) -> bool
    ensures { IsTrue result → (v : Location) × Spells bytes.now v
        × (IsTrue unambiguous.new ↔ IsUnambiguous v) }
{
    match Url::from_bytes(alloc, BStr::new(bytes)) {
        Ok(url) => {
            *unambiguous = counted::is_unambiguous(&url);
            true
        }
        Err(_) => false,
    }
}

/// The length of the path of the location without query and fragment.
#[unsafe(no_mangle)]
pub extern "C" fn call_bench_path_query_fragment(alloc: Global, bytes: &[u8]) -> usize
    ensures { SaysOf IsComponentLength bytes.now result }
{
    match Url::from_bytes(alloc, BStr::new(bytes)) {
        Ok(url) => counted::path_query_fragment(alloc, &url),
        Err(_) => 0,
    }
}

/// The length of the path of the location, expanded by a home folder.
#[unsafe(no_mangle)]
pub extern "C" fn call_bench_expand_path(alloc: Global, bytes: &[u8]) -> usize
    ensures { SaysOf IsExpandedLength bytes.now result }
{
    match Url::from_bytes(alloc, BStr::new(bytes)) {
        Ok(url) => expand(alloc, &url),
        Err(_) => 0,
    }
}

/// The length of the path of a location, which is split first and then expanded by a home folder.
fn expand(alloc: Global, url: &Url) -> usize
    ensures { 0 < result → IsExpandedLength url.now result }
{
    match expand_path::parse(alloc, url.path.as_bstr()) {
        Ok((user, rest)) => counted::expand_path(alloc, user.as_ref(), rest.as_bstr()),
        Err(_) => 0,
    }
}

/// The length of the path of a copy of the location.
#[unsafe(no_mangle)]
pub extern "C" fn call_bench_clone(alloc: Global, bytes: &[u8]) -> usize
    ensures { SaysOf IsPathLength bytes.now result }
{
    match Url::from_bytes(alloc, BStr::new(bytes)) {
        Ok(url) => counted::clone(alloc, &url),
        Err(_) => 0,
    }
}

/// Whether the location is equal to the location that the bytes are parsed as again.
#[unsafe(no_mangle)]
pub extern "C" fn call_bench_eq(alloc: Global, bytes: &[u8]) -> bool
    ensures { IsTrue result → (v : Location) × (w : Location) × Spells bytes.now v
        × Spells bytes.now w
        × IsTrue (location_eq v w) }
{
    let Ok(url) = Url::from_bytes(alloc, BStr::new(bytes)) else {
        return false;
    };
    match Url::from_bytes(alloc, BStr::new(bytes)) {
        Ok(again) => counted::eq(&url, &again),
        Err(_) => false,
    }
}

/// Whether the location has no order relative to the location that the bytes are parsed as again.
#[unsafe(no_mangle)]
pub extern "C" fn call_bench_cmp(alloc: Global, bytes: &[u8]) -> bool
    ensures { IsTrue result → (v : Location) × (w : Location) × Spells bytes.now v
        × Spells bytes.now w
        × (location_cmp v w ≡ Equal) }
{
    let Ok(url) = Url::from_bytes(alloc, BStr::new(bytes)) else {
        return false;
    };
    match Url::from_bytes(alloc, BStr::new(bytes)) {
        Ok(again) => matches!(counted::cmp(&url, &again), Ordering::Equal),
        Err(_) => false,
    }
}

/// The hash of the location by the default hasher, if the bytes are a location.
#[unsafe(no_mangle)]
pub extern "C" fn call_bench_hash(alloc: Global, bytes: &[u8], hash: &mut u64) -> bool
    ensures { IsTrue result → (v : Location) × Spells bytes.now v
        × (hash.new ≡ finish (fold write initial (fed_location v))) }
{
    match Url::from_bytes(alloc, BStr::new(bytes)) {
        Ok(url) => {
            *hash = counted::hash(&url);
            true
        }
        Err(_) => false,
    }
}

/// The length of the path of the location's record.
#[unsafe(no_mangle)]
pub extern "C" fn call_bench_to_stored(alloc: Global, bytes: &[u8]) -> usize
    ensures { SaysOf IsPathLength bytes.now result }
{
    match Url::from_bytes(alloc, BStr::new(bytes)) {
        Ok(url) => counted::to_stored(alloc, &url),
        Err(_) => 0,
    }
}

/// The length of the JSON of the location's record.
#[unsafe(no_mangle)]
pub extern "C" fn call_bench_to_json(alloc: Global, bytes: &[u8]) -> usize
    ensures { 0 < result → IsCompactLength result }
{
    match Url::from_bytes(alloc, BStr::new(bytes)) {
        Ok(url) => counted::to_json(alloc, &url),
        Err(_) => 0,
    }
}

/// The length of the path that is restored from the JSON of the location's record.
#[unsafe(no_mangle)]
pub extern "C" fn call_bench_from_json(alloc: Global, bytes: &[u8]) -> usize
    ensures { 0 < result → IsRestoredLength result }
{
    let Ok(url) = Url::from_bytes(alloc, BStr::new(bytes)) else {
        return 0;
    };
    match counted::json_of(alloc, &url) {
        Some(json) => counted::from_json(alloc, &json),
        None => 0,
    }
}

/// The length of the path of the location that the text of the location is parsed as.
#[unsafe(no_mangle)]
pub extern "C" fn call_bench_reread(alloc: Global, bytes: &[u8]) -> usize
    ensures { SaysOf IsRereadLength bytes.now result }
{
    match Url::from_bytes(alloc, BStr::new(bytes)) {
        Ok(url) => counted::reread(alloc, &url),
        Err(_) => 0,
    }
}

/// The length of the path of the location that the parts of the location denote.
#[unsafe(no_mangle)]
pub extern "C" fn call_bench_from_parts(alloc: Global, bytes: &[u8]) -> usize
    ensures { SaysOf IsMadeLength bytes.now result }
{
    match Url::from_bytes(alloc, BStr::new(bytes)) {
        Ok(url) => counted::from_parts(alloc, url),
        Err(_) => 0,
    }
}

/// Whether the bytes are refused, without allocation, because their scheme or their authority is too long.
#[unsafe(no_mangle)]
pub extern "C" fn call_bench_refuse_in(bytes: &[u8], buffer: &mut [u8]) -> bool
    ensures { IsTrue result → (v : Location) → ¬ Spells bytes.now v }
{
    match UrlRef::parse_in(bytes, buffer) {
        Err(ParseError::Refused(refusal)) => refusal.reason.kind() == RefusalKind::TooLong,
        Err(ParseError::NoRoom) | Ok(_) => false,
    }
}

/// The length of the text that Git fetches from in place of the bytes, by a configuration.
#[unsafe(no_mangle)]
pub extern "C" fn call_bench_rewrite_fetch(alloc: Global, config: &[u8], bytes: &[u8]) -> usize
    ensures { 0 < result → IsFetchedLength config.now bytes.now result }
{
    let Ok(entries) = config::entries(alloc, config) else {
        return 0;
    };
    match Rewrites::from_entries(alloc, &entries) {
        Ok(rules) => counted::rewrite_fetch(alloc, &rules, bytes),
        Err(_) => 0,
    }
}
