//! The configuration of `--config`, which is read once for all lines, and its faults.

use crate::memory::both;
use bstr::ByteSlice;
use git_rules::config::{Entry, entries_of};
use git_rules::normal::needed_buffer_len;
use git_rules::pattern::UrlPattern;
use git_rules::protocols::Protocols;
use git_rules::rewrite::{RewriteError, Rewrites};
use git_rules::stops::{Stop, stop_at};
use std::alloc::{AllocError, Global};
use std::collections::BTreeMap;

/// The configuration, and two variables of the environment.
#[derive(Drop)]
pub struct Config<'a> {
    /// The entries of `protocol.*`, and the variables.
    pub protocols: Protocols<'a>,
    pub rewrites: Rewrites<'a>,
    /// The entries of `remote.*`.
    pub remotes: Vec<Entry<'a>>,
    /// The entries of `credential.*`.
    pub credentials: Vec<Entry<'a>>,
    /// The entries of `http.*`, in the order in which their names first occur.
    pub http: Vec<Variable<'a>>,
    /// The buffer size in bytes that suffices for the URL of each entry.
    pub buffer_len: usize,
}

/// The entries of `http.*` with one name, in their order.
#[derive(Drop)]
pub struct Variable<'a> {
    pub name: &'a str,
    pub entries: Vec<Entry<'a>>,
}

impl<'a> Config<'a> {
    /// Returns the configuration of these entries. `protocols` contains those of `protocol.*` too. Rules that are not
    /// understood are left out.
    pub fn of(
        alloc: Global,
        entries: &[Entry<'a>],
        protocols: Protocols<'a>,
    ) -> Result<Config<'a>, AllocError> {
        let (rewrites, http) = both(rewrites_of(alloc, entries)?, variables_of(alloc, entries))?;
        let (found, remotes) = both((rewrites, http), entries_of(alloc, entries, "remote"))?;
        let (found, credentials) = both(
            (found, remotes),
            entries_of(alloc, entries, "credential"),
        )?;
        let ((rewrites, http), remotes) = found;
        let longest = entries.iter().map(url_len).max().unwrap_or(0);
        Ok(Config {
            protocols,
            rewrites,
            remotes,
            credentials,
            http,
            buffer_len: needed_buffer_len(longest),
        })
    }
}

/// The length of the subsection of an entry, in bytes.
fn url_len(entry: &Entry<'_>) -> usize {
    match entry.subsection {
        None => 0,
        Some(url) => url.len(),
    }
}

/// The rules that rewrite locations. A rule without a value, at which Git stops, is left out.
fn rewrites_of<'a>(alloc: Global, entries: &[Entry<'a>]) -> Result<Rewrites<'a>, AllocError> {
    let mut rules = Rewrites::new(alloc);
    for entry in entries {
        match rules.add_entry(entry) {
            Ok(()) | Err(RewriteError::NoValue { at: _ }) => {}
            Err(RewriteError::Memory) => return Err(AllocError),
        }
    }
    Ok(rules)
}

/// The entries of `http.*`, grouped by name.
fn variables_of<'a>(alloc: Global, entries: &[Entry<'a>]) -> Result<Vec<Variable<'a>>, AllocError> {
    let mut found = Vec::new(alloc);
    let mut places = BTreeMap::new(alloc);
    for entry in entries {
        if entry.is_section("http") {
            put(alloc, &mut found, &mut places, entry)?;
        }
    }
    Ok(found)
}

/// Adds an entry to those with its name. `places` maps names in lower case to indices.
fn put<'a>(
    alloc: Global,
    found: &mut Vec<Variable<'a>>,
    places: &mut BTreeMap<String, usize>,
    entry: &Entry<'a>,
) -> Result<(), AllocError> {
    let Ok(name) = entry.name.to_str() else {
        return Ok(());
    };
    let next = found.len();
    let place = *places
        .entry(name.to_ascii_lowercase(alloc)?)?
        .or_insert(next);
    match found.get_mut(place) {
        Some(variable) => variable.entries.push(entry.clone()?)?,
        None => found.push(Variable::of(alloc, name, entry)?)?,
    }
    Ok(())
}

impl<'a> Variable<'a> {
    /// The name, with its first entry.
    fn of(alloc: Global, name: &'a str, entry: &Entry<'a>) -> Result<Variable<'a>, AllocError> {
        let mut entries = Vec::new(alloc);
        entries.push(entry.clone()?)?;
        Ok(Variable { name, entries })
    }
}

/// A fault of a configuration: its place and its words.
#[derive(Clone, Copy)]
pub struct Fault {
    pub at: usize,
    pub words: &'static str,
}

/// Returns all faults of the entries of a configuration, in their order.
pub fn faults(alloc: Global, entries: &[Entry<'_>]) -> Result<Vec<Fault>, AllocError> {
    let longest = entries.iter().map(url_len).max().unwrap_or(0);
    let mut buffer = vec![in alloc; 0u8; needed_buffer_len(longest)]?;
    let mut found = Vec::new(alloc);
    for entry in entries {
        if let Some(words) = words_of(entry, buffer.as_mut_slice()) {
            found.push(Fault {
                at: entry.at,
                words,
            })?;
        }
    }
    Ok(found)
}

/// The fault of an entry, in words.
fn words_of(entry: &Entry<'_>, buffer: &mut [u8]) -> Option<&'static str> {
    match words_of_url(entry, buffer) {
        None => stop_at(entry).map(words_of_stop),
        words => words,
    }
}

/// The fault of the URL of an entry of `http.*`, in words.
fn words_of_url(entry: &Entry<'_>, buffer: &mut [u8]) -> Option<&'static str> {
    if !entry.is_section("http") || UrlPattern::parse_in(entry.subsection?, buffer).is_ok() {
        return None;
    }
    Some("has no URL that Git takes: it is for no location")
}

/// The reason why Git stops at an entry, in words.
fn words_of_stop(stop: Stop) -> &'static str {
    match stop {
        Stop::NoValue => "has no value: Git stops at it",
        Stop::NoBoolean => "is no boolean value: Git stops at it",
        Stop::NoNumber => "is no number that Git takes: it stops at it",
        Stop::NoAllowance => "is none of always, user and never: Git stops where it decides",
    }
}
