//! The entries of a configuration that apply to a place, and the best of them.
//!
//! The caller supplies one buffer, into which each URL is read in turn.

ghost use Rattle.std.specs.Prelude.{◌≡◌, ◌≤◌, ◌+◌, ◌*◌, ◌↔◌, All, IsTrue, OnErr, OnOk, Some, length, option_copied};
ghost use Rattle.git_rules.specs.OtherHosts.{NamesOtherHost};
ghost use Rattle.git_rules.specs.PatternEntries.{BufferSuffices, IsBestIn, LacksBufferFirst, RanksIn, RanksUrlIn};

use crate::config::Entry;
use crate::normal::{NormalError, NormalUrl, is_enough};
use crate::pattern::other_host::names_other_host;
use crate::pattern::{Rank, UrlPattern, better};

/// The rank of an entry for all places.
const LOWEST: Rank = Rank {
    host: 0,
    path: 0,
    user: 0,
};

/// The rank with which the entry sets the variable `section.<url>.name` for the place, or `None` if it doesn't set
/// it.
///
/// The entry sets it if its section and name match, ignoring letter case, and if it either has no subsection or its
/// subsection is a URL that matches the place as a [`UrlPattern`]. An entry without a subsection applies to all
/// places and has the lowest rank. `buffer` needs three bytes for each byte of the entry's URL, and one more.
///
/// For `http.*` Git uses the entries that [`settings_for`](crate::pattern::settings::settings_for) returns: the
/// best one, as [`best_entry`] finds it, or for two of the names several. For `credential.*` Git goes through all
/// entries that apply, and compares them differently; [`credentials_for`](crate::credentials::credentials_for) does
/// that. The comparison here differs in two ways:
///
/// - Git also uses an entry whose subsection isn't a whole URL, such as `credential.example.com.helper`, and
///   compares the parts that it has with those of the request. This function ignores such an entry, even an empty
///   `helper`, which clears the helpers before it.
/// - Git compares with a URL that it composes from the parts of the request: it decodes the path, removes its
///   trailing slashes, and escapes it again, including `?` and `=`. So an entry whose URL has a path may apply only
///   in one of the two comparisons if the path of the place has a query, an escaped delimiter or trailing slashes.
///   For a URL without a path the two agree.
///
/// # Errors
///
/// [`NormalError::NoRoom`] if the entry sets the variable for a URL and the buffer is too short for it. No other
/// error occurs.
///
/// ```
/// /// The helper that an entry of a configuration names for a place.
/// fn helper<'a>(entry: &Entry<'a>, place: &NormalUrl<'_>, buffer: &mut [u8]) -> Result<Option<&'a [u8]>, NormalError> {
///     match entry_rank(entry, "credential", "helper", place, buffer)? {
///         None => Ok(None),
///         Some(_) => Ok(entry.value),
///     }
/// }
/// ```
pub fn entry_rank(
    entry: &Entry<'_>,
    section: &str,
    name: &str,
    place: &NormalUrl<'_>,
    buffer: &mut [u8],
) -> Result<Option<Rank>, NormalError>
    ensures { RanksIn section.now name.now (Some place.now) (length buffer.old) entry.now result }
{
    rank_in(entry, section, name, Some(place), buffer)
}

/// The rank of an entry for a place. Without a place an entry with a URL doesn't set the variable, and no buffer is
/// needed.
pub(crate) fn rank_in(
    entry: &Entry<'_>,
    section: &str,
    name: &str,
    place: Option<&NormalUrl<'_>>,
    buffer: &mut [u8],
) -> Result<Option<Rank>, NormalError>
    ensures rank { RanksIn section.now name.now (option_copied place.entry) (length buffer.old) entry.now
        result }
    ensures buffer { OnOk result
        (BufferSuffices section.now name.now (option_copied place.entry) (length buffer.old) entry.now) }
{
    match entry.subsection {
        None => {
            if entry.sets(section, name) {
                Ok(Some(LOWEST))
            } else {
                Ok(None)
            }
        }
        Some(url) => match place {
            None => Ok(None),
            Some(place) => {
                // The test of the host takes less than the comparison of the names.
                if is_elsewhere(url, place.host, buffer.len()) || !entry.sets(section, name) {
                    return Ok(None);
                }
                url_rank(url, place, buffer)
            }
        },
    }
}

/// The rank of a URL, if it matches the place.
fn url_rank(
    url: &[u8],
    place: &NormalUrl<'_>,
    buffer: &mut [u8],
) -> Result<Option<Rank>, NormalError>
    ensures rank { RanksUrlIn place.now (length buffer.old) url.now result }
    ensures buffer { OnOk result (3 * length url.now + 1 ≤ length buffer.old) }
{
    match UrlPattern::parse_in(url, buffer) {
        Ok(pattern) => Ok(pattern.rank_for(place)),
        Err(error) => {
            if is_short_buffer(error) {
                Err(error)
            } else {
                Ok(None)
            }
        }
    }
}

/// Whether the URL names another host, and a buffer of this length suffices for it. False says nothing.
fn is_elsewhere(url: &[u8], host: &[u8], buffer_len: usize) -> bool
    ensures { IsTrue result → ((3 * length url.now + 1 ≤ buffer_len) × NamesOtherHost url.now host.now) }
{
    if !is_enough(url.len(), buffer_len) {
        return false;
    }
    names_other_host(url, host)
}

/// Whether the error is that the buffer is too short.
pub(crate) fn is_short_buffer(error: NormalError) -> bool
    ensures { IsTrue result ↔ (error ≡ NormalError.NoRoom) }
{
    match error {
        NormalError::NoRoom => true,
        _ => false,
    }
}

/// The index of the best entry that sets the variable `section.<url>.name` for the place, or `None` if no entry
/// does. Tests each entry once.
///
/// The entry with the highest [`Rank`] is the best, and among equal ranks the last: for `http.*`, Git uses the
/// value of this entry, unless the name is a list ([`settings_for`](crate::pattern::settings::settings_for)). The
/// buffer is used for one URL after the other, and has to suffice for each, as described at [`entry_rank`].
///
/// # Errors
///
/// [`NormalError::NoRoom`] if the buffer is too short for the URL of an entry that sets the variable. No other
/// error occurs.
///
/// ```
/// /// The proxy that Git uses for a place.
/// fn proxy<'a>(
///     entries: &[Entry<'a>],
///     place: &NormalUrl<'_>,
///     buffer: &mut [u8],
/// ) -> Result<Option<&'a [u8]>, NormalError> {
///     match best_entry(entries, "http", "proxy", place, buffer)? {
///         None => Ok(None),
///         Some(i) => Ok(entries.get(i).and_then(|entry| entry.value)),
///     }
/// }
/// ```
pub fn best_entry(
    entries: &[Entry<'_>],
    section: &str,
    name: &str,
    place: &NormalUrl<'_>,
    buffer: &mut [u8],
) -> Result<Option<usize>, NormalError>
    ensures { IsBestIn section.now name.now (Some place.now) (length buffer.old) entries.now result }
{
    best_in(entries, section, name, Some(place), buffer)
}

/// The index of the best entry for a place, by [`rank_in`].
pub(crate) fn best_in(
    entries: &[Entry<'_>],
    section: &str,
    name: &str,
    place: Option<&NormalUrl<'_>>,
    buffer: &mut [u8],
) -> Result<Option<usize>, NormalError>
    ensures best { IsBestIn section.now name.now (option_copied place.entry) (length buffer.old) entries.now
        result }
    ensures buffer { OnOk result
        (All (BufferSuffices section.now name.now (option_copied place.entry) (length buffer.old)) entries.now) }
    ensures first { OnErr result
        (LacksBufferFirst section.now name.now (option_copied place.entry) (length buffer.old) entries.now) }
{
    let mut best = None;
    for (i, entry) in entries.iter().enumerate() {
        let rank = rank_in(entry, section, name, place, buffer)?;
        best = better(best, i, rank);
    }
    match best {
        None => Ok(None),
        Some((i, _)) => Ok(Some(i)),
    }
}
