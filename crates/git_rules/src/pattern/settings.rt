//! The entries of `http.*` whose values Git uses for a place, or for a text without a normal form: one entry for
//! most names, several for a list.

ghost use Rattle.std.specs.Prelude.{◌≡◌, ◌↔◌, ◌++◌, ◌∷◌, [], IfErr, IfOk, IsTrue, None, OnOk, Some, length, option_copied};
ghost use Rattle.git_rules.specs.Settings.{AddsBest, AddsValue, AreSettings, HasKind, IsBestIndex, IsListName, IsOfFirst, RefusesSettings};

pub mod law;

use crate::config::Entry;
use crate::normal::NormalUrl;
use crate::pattern::entries::{best_in, rank_in};
use crate::pattern::{Rank, better};
use crate::word::is_word;
use std::alloc::{AllocError, Global};
use thiserror::Error;

/// How Git combines several values of a name of `http.*`. [`kind_of`] has an example.
#[derive(Clone, Copy, Debug, PartialEq, Eq)]
pub enum Kind {
    /// Only the value of the best entry is used.
    Single,
    /// The values accumulate, and an empty value clears those before it.
    List,
}

/// Returns the kind of a name of `http.*`, by the table of git-config(1).
///
/// `extraHeader` and `curloptResolve` are lists, ignoring letter case (ASCII). Every other name is single, even one
/// that Git doesn't know.
///
/// ```
/// /// Whether Git adds up the values of a name of `http.*`, as of `extraHeader`.
/// fn adds_up(name: &[u8]) -> bool {
///     matches!(kind_of(name), Kind::List)
/// }
/// ```
pub fn kind_of(name: &[u8]) -> Kind
    ensures { HasKind name.now result }
{
    if is_list(name) {
        Kind::List
    } else {
        Kind::Single
    }
}

/// Whether the name is that of a list.
fn is_list(name: &[u8]) -> bool
    ensures { IsTrue result ↔ IsListName name.now }
{
    is_word(name, "extraheader") || is_word(name, "curloptresolve")
}

/// An error of [`settings_for`] and [`settings_without_place`], which have examples.
#[derive(Clone, Copy, Debug, PartialEq, Eq, Error)]
pub enum SettingsError {
    /// An allocation failed.
    #[error("out of memory")]
    Memory,
    /// The buffer is shorter than three times the URL of one of the entries plus one byte.
    #[error("the buffer is too short")]
    NoRoom,
    /// An entry of a list has no value. Git stops there.
    #[error("the setting at byte {at} has no value")]
    NoValue {
        /// The byte offset of the entry in the text of the configuration.
        at: usize,
    },
}

impl From<AllocError> for SettingsError {
    ghost use Rattle.git_rules.specs.declared.pattern.settings.SettingsError.TheVariants.{Memory};

    ghost from_gives = { λ _ e. e ≡ Memory };

    fn from(_: AllocError) -> SettingsError {
        SettingsError::Memory
    }
}

/// Returns the indices of the entries of `http.<url>.name` and `http.name` whose values Git uses for the place, in
/// ascending order, which is Git's order.
///
/// Git goes through the entries in their order (`urlmatch.c` of Git 2.39.5). It takes an entry that sets the
/// variable for the place ([`entry_rank`](crate::pattern::entries::entry_rank)), unless an earlier entry sets it
/// with a higher [`Rank`]. The [`Kind`] of the name decides which of the taken entries it uses:
///
/// - List: all taken entries, except one with an empty value and those before it (`http_options` in `http.c`).
/// - Single: the last entry that is taken, which is the best entry
///   ([`best_entry`](crate::pattern::entries::best_entry)). It may have no value. At most one index is returned.
///
/// So in a list an entry for all places is used if it comes before an entry for a URL that matches, and not if it
/// comes after it. `buffer` is used for one URL after the other, as for
/// [`entry_rank`](crate::pattern::entries::entry_rank). Allocates as the list of indices grows.
///
/// # Errors
///
/// [`SettingsError::NoRoom`] if the buffer is too short for the URL of an entry that sets the variable.
/// [`SettingsError::NoValue`] if the name is a list and an entry that is taken has no value; it names the
/// first such entry, at which Git stops. [`SettingsError::Memory`] if an allocation fails. If there are
/// several errors, the first entry's is returned.
///
/// ```
/// /// The headers that Git sends to a place beside its own, each with a line feed after it.
/// fn header_lines(
///     alloc: Global,
///     entries: &[Entry<'_>],
///     place: &NormalUrl<'_>,
///     buffer: &mut [u8],
/// ) -> Result<Vec<u8>, SettingsError> {
///     let mut lines = Vec::new(alloc);
///     for i in &settings_for(alloc, entries, "extraHeader", place, buffer)? {
///         if let Some(header) = entries.get(*i).and_then(|entry| entry.value) {
///             lines.extend_from_slice(header)?; // `X-A: 1`, and `X-B: 2` of `http.https://h.extraHeader`
///             lines.extend_from_slice(b"\n")?;
///         }
///     }
///     Ok(lines)
/// }
/// ```
pub fn settings_for(
    alloc: Global,
    entries: &[Entry<'_>],
    name: &str,
    place: &NormalUrl<'_>,
    buffer: &mut [u8],
) -> Result<Vec<usize>, SettingsError>
    ensures found { IfOk result
        (λ found. AreSettings name.now (Some place.now) entries.now found.items) }
    ensures refused { IfErr result
        (λ error. RefusesSettings name.now (Some place.now) (length buffer.old) entries.now error) }
    ensures first { IfErr result
        (λ error. IsOfFirst name.now (Some place.now) (length buffer.old) entries.now error) }
{
    settings_in(alloc, entries, name, Some(place), buffer)
}

/// Returns the indices of the entries of `http.name` whose values Git uses for a text without a normal form, in
/// ascending order, which is Git's order.
///
/// [`NormalUrl::parse_in`] refuses such a text. Git matches no `<url>` with it (`match_urls` in `urlmatch.c` of Git
/// 2.39.5), so it never uses an entry of `http.<url>.name`. The entries without a subsection apply to all places
/// and have equal rank: Git takes each of them. The [`Kind`] of the name decides which of them it uses:
///
/// - List: all entries, except one with an empty value and those before it (`http_options` in `http.c`).
/// - Single: the last entry. It may have no value. At most one index is returned.
///
/// No URL is read, so no buffer is needed. Allocates as the list of indices grows.
///
/// # Errors
///
/// [`SettingsError::NoValue`] if the name is a list and an entry without a subsection has no value; it names
/// the first such entry, at which Git stops. [`SettingsError::Memory`] if an allocation fails. No other error
/// occurs.
///
/// ```
/// /// The proxy that Git uses for a text: that of its place, or the one for all places.
/// fn proxy_of<'a>(
///     alloc: Global,
///     entries: &[Entry<'a>],
///     text: &[u8],
///     own: &mut [u8],
///     buffer: &mut [u8],
/// ) -> Result<Option<&'a [u8]>, SettingsError> {
///     let found = match NormalUrl::parse_in(text, own) {
///         Ok(place) => settings_for(alloc, entries, "proxy", &place, buffer)?,
///         Err(NormalError::NoRoom) => return Err(SettingsError::NoRoom),
///         Err(_) => settings_without_place(alloc, entries, "proxy")?, // of `https://h:0/`, a port that no host has
///     };
///     let best = found.first().and_then(|i| entries.get(*i));
///     Ok(best.and_then(|entry| entry.value))
/// }
/// ```
pub fn settings_without_place(
    alloc: Global,
    entries: &[Entry<'_>],
    name: &str,
) -> Result<Vec<usize>, SettingsError>
    ensures found { IfOk result (λ found. AreSettings name.now None entries.now found.items) }
    ensures refused { IfErr result (λ error. RefusesSettings name.now None 0 entries.now error) }
    ensures first { IfErr result (λ error. IsOfFirst name.now None 0 entries.now error) }
    ensures no_room { IfErr result (λ error. ¬ (error ≡ SettingsError.NoRoom)) }
{
    settings_in(alloc, entries, name, None, &mut [])
}

/// The indices of the entries whose values Git uses, with a place or without one.
fn settings_in(
    alloc: Global,
    entries: &[Entry<'_>],
    name: &str,
    place: Option<&NormalUrl<'_>>,
    buffer: &mut [u8],
) -> Result<Vec<usize>, SettingsError>
    ensures found { IfOk result
        (λ found. AreSettings name.now (option_copied place.entry) entries.now found.items) }
    ensures refused { IfErr result
        (λ error. RefusesSettings name.now (option_copied place.entry) (length buffer.old) entries.now
        error) }
    ensures first { IfErr result
        (λ error. IsOfFirst name.now (option_copied place.entry) (length buffer.old) entries.now error) }
{
    match kind_of(name.as_bytes()) {
        Kind::Single => best_alone(alloc, entries, name, place, buffer),
        Kind::List => all_used(alloc, entries, name, place, buffer),
    }
}

/// The index of the best entry alone, for a name that isn't a list.
fn best_alone(
    alloc: Global,
    entries: &[Entry<'_>],
    name: &str,
    place: Option<&NormalUrl<'_>>,
    buffer: &mut [u8],
) -> Result<Vec<usize>, SettingsError>
    requires { ¬ IsListName name.now }
    ensures found { IfOk result
        (λ found. AreSettings name.now (option_copied place.entry) entries.now found.items) }
    ensures refused { IfErr result
        (λ error. RefusesSettings name.now (option_copied place.entry) (length buffer.old) entries.now
        error) }
    ensures first { IfErr result
        (λ error. IsOfFirst name.now (option_copied place.entry) (length buffer.old) entries.now error) }
{
    match best_in(entries, "http", name, place, buffer) {
        Err(_) => Err(SettingsError::NoRoom),
        Ok(None) => Ok(Vec::new(alloc)),
        Ok(Some(best)) => {
            let mut found = Vec::new(alloc);
            push(&mut found, best)?;
            Ok(found)
        }
    }
}

/// The indices of the entries whose values Git accumulates, for a name that is a list.
fn all_used(
    alloc: Global,
    entries: &[Entry<'_>],
    name: &str,
    place: Option<&NormalUrl<'_>>,
    buffer: &mut [u8],
) -> Result<Vec<usize>, SettingsError>
    requires { IsListName name.now }
    ensures found { IfOk result
        (λ found. AreSettings name.now (option_copied place.entry) entries.now found.items) }
    ensures refused { IfErr result
        (λ error. RefusesSettings name.now (option_copied place.entry) (length buffer.old) entries.now
        error) }
    ensures first { IfErr result
        (λ error. IsOfFirst name.now (option_copied place.entry) (length buffer.old) entries.now error) }
{
    let mut found = Vec::new(alloc);
    let mut best = None;
    for (i, entry) in entries.iter().enumerate() {
        let Ok(rank) = rank_in(entry, "http", name, place, buffer) else {
            return Err(SettingsError::NoRoom);
        };
        best = better(best, i, rank);
        add_best(&mut found, best, i, entry)?;
    }
    Ok(found)
}

/// Appends the index to the list if it is that of the best entry so far: then Git takes it.
fn add_best(
    found: &mut Vec<usize>,
    best: Option<(usize, Rank)>,
    i: usize,
    entry: &Entry<'_>,
) -> Result<(), SettingsError>
    ensures { AddsBest best entry.now i found.old.items found.new.items result }
{
    if !is_best_index(best, i) {
        return Ok(());
    }
    add_value(found, i, entry)
}

/// Whether the entry at this index is the best so far.
fn is_best_index(best: Option<(usize, Rank)>, i: usize) -> bool
    ensures { IsTrue result ↔ IsBestIndex best i }
{
    match best {
        None => false,
        Some((at, _)) => at == i,
    }
}

/// Appends the index to the list, or clears the list if the entry's value is empty.
fn add_value(found: &mut Vec<usize>, i: usize, entry: &Entry<'_>) -> Result<(), SettingsError>
    ensures { AddsValue entry.now i found.old.items found.new.items result }
{
    let Some(value) = entry.value else {
        return Err(SettingsError::NoValue { at: entry.at });
    };
    if value.is_empty() {
        found.clear();
        return Ok(());
    }
    push(found, i)?;
    Ok(())
}

/// Appends an index to the list.
fn push(found: &mut Vec<usize>, i: usize) -> Result<(), AllocError>
    ensures { OnOk result (found.new.items ≡ found.old.items ++ i ∷ []) }
{
    found.push(i)?;
    Ok(())
}
