//! One call of the library in each function, so that the instructions of this call alone can be counted.
//!
//! No function is inlined into its caller: the count begins when it is entered and ends when it returns. The function
//! drops the values that the call builds, so dropping them is counted too.

ghost use Rattle.std.specs.Prelude.{◌≡◌, ◌<◌, ◌↔◌, ◌++◌, ℕ, List, IfSome, IsTrue, Ok, fold, option_map, string_bytes};
ghost use Rattle.std.specs.Hash.DefaultHasher.{finish, initial, write};
ghost use Rattle.std.specs.Option.{option_copied};
ghost use Rattle.bstr.specs.BStr.{bstr_bytes};
ghost use Rattle.gix_url.specs.HomeReadings.{user_of};
ghost use Rattle.gix_url.specs.GitClass.{AgreesWithGit};
ghost use Rattle.gix_url.specs.Order.{fed_location, location_cmp, location_eq};
ghost use Rattle.gix_url.specs.Settled.{IsSettled};
ghost use Rattle.gix_url.specs.Text as spec;
ghost use Rattle.git_readers.specs.Conditions.{IsUnambiguous};
ghost use Rattle.call_bench.specs.Answers.{IsCompact, IsCompactLength, IsComponentLength, IsExpansionLength, IsMadeLength, IsPathLength, IsRereadLength, IsRestoredLength, IsRewrittenLength, IsShownLength, IsTextLength};

use bstr::BStr;
use git_rules::rewrite::Rewrites;
use gix_url::Url;
use gix_url::expand_path::{self, ForUser};
use gix_url::stored::StoredUrl;
use std::alloc::Global;
use std::cmp::Ordering;
use std::hash::{DefaultHasher, Hash, Hasher};

/// The length of the text, without building the text; 0 if there is none.
#[inline(never)]
pub fn text_len(url: &Url) -> usize
    ensures { 0 < result → IsTextLength url.now result }
{
    match url.text_len() {
        Ok(length) => usize::try_from(length).unwrap_or(0),
        Err(_) => 0,
    }
}

/// The length of the text in memory; 0 if there is none.
#[inline(never)]
pub fn to_bstring(alloc: Global, url: &Url) -> usize
    ensures { 0 < result → IsTextLength url.now result }
{
    match url.to_bstring(alloc) {
        Ok(text) => text.as_bytes().len(),
        Err(_) => 0,
    }
}

/// Appends the text, and returns whether it was appended.
#[inline(never)]
pub fn write_to(url: &Url, out: &mut Vec<u8>) -> bool
    ensures { IsTrue result → (t : List ℕ) × (spec.text url.now ≡ Ok t) × (out.new.items
        ≡ out.old.items ++ t) }
{
    url.write_to(out).is_ok()
}

/// The length of the text that shows the location; 0 if there is none.
#[inline(never)]
pub fn to_string(alloc: Global, url: &Url) -> usize
    ensures { 0 < result → IsShownLength url.now result }
{
    match url.to_string(alloc) {
        Ok(text) => text.len(),
        Err(_) => 0,
    }
}

/// Whether the location is settled.
#[inline(never)]
pub fn is_settled(url: &Url) -> bool
    ensures { IsTrue result ↔ IsSettled url.now }
{
    url.is_settled()
}

/// Whether Git finds the same place.
#[inline(never)]
pub fn agrees_with_git(url: &Url) -> bool
    ensures { IsTrue result ↔ AgreesWithGit url.now }
{
    url.agrees_with_git()
}

/// Whether every reader of a family finds the same parts.
#[inline(never)]
pub fn is_unambiguous(url: &Url) -> bool
    ensures { IsTrue result ↔ IsUnambiguous url.now }
{
    url.is_unambiguous()
}

/// The length of the path without query and fragment; 0 if memory is refused.
#[inline(never)]
pub fn path_query_fragment(alloc: Global, url: &Url) -> usize
    ensures { 0 < result → IsComponentLength url.now result }
{
    match url.path_query_fragment(alloc) {
        Ok(parts) => parts.path.as_bytes().len(),
        Err(_) => 0,
    }
}

/// The length of the path of this user, expanded by the home folder `/home/ann` of the current user; 0 if it isn't
/// expanded.
#[inline(never)]
pub fn expand_path(alloc: Global, user: Option<&ForUser>, path: BStr<'_>) -> usize
    ensures { 0 < result → IsExpansionLength (option_map user_of (option_copied user.entry))
        (bstr_bytes path.entry) result }
{
    match expand_path::expand_path(alloc, user, path, Some("/home/ann")) {
        Ok(text) => text.len(),
        Err(_) => 0,
    }
}

/// The length of the path of a copy; 0 if memory is refused.
#[inline(never)]
pub fn clone(alloc: Global, url: &Url) -> usize
    ensures { 0 < result → IsPathLength url.now result }
{
    match url.clone(alloc) {
        Ok(copy) => copy.path.as_bytes().len(),
        Err(_) => 0,
    }
}

/// Whether the locations are equal.
#[inline(never)]
pub fn eq(a: &Url, b: &Url) -> bool
    ensures { result ≡ location_eq a.now b.now }
{
    a == b
}

/// The order of the locations.
#[inline(never)]
pub fn cmp(a: &Url, b: &Url) -> Ordering
    ensures { result ≡ location_cmp a.now b.now }
{
    a.cmp(b)
}

/// The hash of the location by the default hasher.
#[inline(never)]
pub fn hash(url: &Url) -> u64
    ensures { result ≡ finish (fold write initial (fed_location url.now)) }
{
    let mut hasher = DefaultHasher::new();
    url.hash(&mut hasher);
    hasher.finish()
}

/// The length of the path of a record; 0 if memory is refused.
#[inline(never)]
pub fn to_stored(alloc: Global, url: &Url) -> usize
    ensures { 0 < result → IsPathLength url.now result }
{
    match url.to_stored(alloc) {
        Ok(stored) => stored.path.len(),
        Err(_) => 0,
    }
}

/// The length of the JSON of its record; 0 if memory is refused.
#[inline(never)]
pub fn to_json(alloc: Global, url: &Url) -> usize
    ensures { 0 < result → IsCompactLength result }
{
    match json_of(alloc, url) {
        Some(json) => json.len(),
        None => 0,
    }
}

/// The JSON of the record of a location, if memory isn't refused.
pub fn json_of(alloc: Global, url: &Url) -> Option<String>
    ensures { IfSome result (λ json. IsCompact (string_bytes json)) }
{
    let stored = url.to_stored(alloc).ok()?;
    serde_json::to_string(alloc, &stored).ok()
}

/// The length of the path of the location that is restored from JSON; 0 if there is none.
#[inline(never)]
pub fn from_json(alloc: Global, json: &str) -> usize
    ensures { 0 < result → IsRestoredLength result }
{
    let Ok(stored) = serde_json::from_str::<StoredUrl>(alloc, json) else {
        return 0;
    };
    match Url::from_stored(alloc, stored) {
        Ok(url) => url.path.as_bytes().len(),
        Err(_) => 0,
    }
}

/// The length of the path of the location that the text is parsed as; 0 if there is none.
#[inline(never)]
pub fn reread(alloc: Global, url: &Url) -> usize
    ensures { 0 < result → IsRereadLength url.now result }
{
    match url.reread(alloc) {
        Ok(again) => again.path.as_bytes().len(),
        Err(_) => 0,
    }
}

/// The length of the path of the location that the parts denote; 0 if they denote none.
#[inline(never)]
pub fn from_parts(alloc: Global, url: Url) -> usize
    ensures { 0 < result → IsMadeLength url result }
{
    let built = Url::from_parts(
        alloc,
        url.scheme,
        url.user,
        url.password,
        url.host,
        url.port,
        url.path,
        url.serialize_alternative_form,
    );
    match built {
        Ok(built) => built.path.as_bytes().len(),
        Err(_) => 0,
    }
}

/// The length of the text that Git fetches from in place of a text; 0 if memory is refused.
#[inline(never)]
pub fn rewrite_fetch(alloc: Global, rules: &Rewrites<'_>, text: &[u8]) -> usize
    ensures { 0 < result → IsRewrittenLength rules.now text.now result }
{
    match rules.rewrite_fetch(text).to_bstring(alloc) {
        Ok(text) => text.as_bytes().len(),
        Err(_) => 0,
    }
}
