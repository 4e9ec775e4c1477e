//! The entries of a configuration, as `git config --list -z` writes them.
//!
//! The contract of `Reader` describes reading as a concatenation: the texts of the entries, each followed by a byte
//! 0, make up the text.

ghost use Rattle.std.specs.Prelude.{◌≡◌, ◌↔◌, ◌==◌, ◌++◌, ◌∷◌, [], IfOk, IsTrue, OnOk, count_by};
ghost use Rattle.git_rules.specs.Config.{has_name, is_of_section, of_section, sets};
ghost use Rattle.git_rules.specs.ConfigItems.{CutsKey, CutsName, CutsValue, HasEntries, IsEntry, IsListing, MeansItem, entries_of, start};

pub mod law;

use crate::word::is_word;
use git_syntax::bytes::{cut, last_cut};
use std::alloc::{AllocError, Global};
use std::marker::Model;
use thiserror::Error;

/// An entry of a configuration: `section.subsection.name` and its value. All parts are slices of the text that was
/// read.
///
/// A program may also build one from its fields. In contracts an entry is a plain value of five fields.
///
/// ```
/// /// Whether an entry is `url.<base>.insteadOf`.
/// fn is_rewrite(entry: &Entry<'_>) -> bool {
///     entry.is_section("url") && entry.is_name("insteadof") && entry.subsection.is_some()
/// }
/// ```
#[derive(Clone, Drop)]
pub struct Entry<'a> {
    /// The part of the key before its first dot. Git writes it in lower case; [`Entry::is_section`] ignores letter
    /// case.
    pub section: &'a [u8],
    /// The part of the key between its first and its last dot, unchanged, or `None` if the key has a single dot. It
    /// may contain dots, and may be empty.
    pub subsection: Option<&'a [u8]>,
    /// The part of the key after its last dot. Git writes it in lower case; [`Entry::is_name`] ignores letter case.
    pub name: &'a [u8],
    /// The value, unchanged, or `None` if the key has no `=`. Git reads such a key as `true` if it expects a
    /// boolean value, and otherwise refuses it.
    pub value: Option<&'a [u8]>,
    /// The byte offset of the entry in the text that was read.
    pub at: usize,
}

impl<'a> Model for Entry<'a> {
    ghost use Rattle.git_rules.specs.Config.{ConfigEntry};

    ghost Value = { ConfigEntry };

    ghost use Rattle.git_rules.specs.ConfigView.{config_entry};

    ghost view = { config_entry };
}

impl Entry<'_> {
    /// Whether the entry is in the section, ignoring letter case (ASCII), as Git compares sections. [`Entry`]
    /// has an example.
    pub fn is_section(&self, section: &str) -> bool
        ensures { result ≡ is_of_section section.now self.now }
    {
        is_word(self.section, section)
    }

    /// Whether the entry has the name, ignoring letter case (ASCII), as Git compares names. [`Entry`] has an
    /// example.
    pub fn is_name(&self, name: &str) -> bool
        ensures { result ≡ has_name name.now self.now }
    {
        is_word(self.name, name)
    }

    /// Whether the entry sets the variable `section.name`, with or without a subsection. [`Entry::is_section`]
    /// compares the section, [`Entry::is_name`] the name; the other fields are ignored.
    ///
    /// ```
    /// /// Whether an entry is `http.sslVerify` or `http.<url>.sslVerify`.
    /// fn is_of_certificates(entry: &Entry<'_>) -> bool {
    ///     entry.sets("http", "sslverify")
    /// }
    /// ```
    pub fn sets(&self, section: &str, name: &str) -> bool
        ensures { result ≡ sets section.now name.now self.now }
    {
        self.is_section(section) && self.is_name(name)
    }
}

/// An error in the text, with the byte offset of the faulty entry, as a [`Reader`] returns it. [`Reader`] has
/// an example.
#[derive(Clone, Copy, Debug, Drop, PartialEq, Eq, Error)]
pub enum EntryError {
    /// The key has no section or no name: it has no dot, begins with a dot or ends in one. The reader
    /// continues with the next entry.
    #[error("the key at byte {at} has no section or no name")]
    NoKey {
        /// The byte offset of the key in the text.
        at: usize,
    },
    /// The text doesn't end in the byte 0 that ends an entry. It is incomplete, and its last entry may be cut off.
    #[error("the entry at byte {at} has no end")]
    NoEnd {
        /// The byte offset of the entry in the text.
        at: usize,
    },
}

/// An iterator over the entries and the errors of a text, in its order.
///
/// Each entry ends in a byte 0. Its key ends before its first line feed, and its value is everything after that; an
/// entry without a line feed has no value. For an entry that can't be read the item is an [`EntryError`], and the
/// reader continues after it.
///
/// ```
/// /// At which bytes of a configuration there is something that is no entry.
/// fn bad_places(alloc: Global, text: &[u8]) -> Result<Vec<usize>, AllocError> {
///     let mut places = Vec::new(alloc);
///     for item in Reader::new(text) {
///         match item {
///             Ok(_) => {}
///             Err(EntryError::NoKey { at } | EntryError::NoEnd { at }) => places.push(at)?,
///         }
///     }
///     Ok(places)
/// }
/// ```
#[derive(Drop)]
pub struct Reader<'a> {
    text: &'a [u8],
    rest: &'a [u8],
}

impl<'a> Model for Reader<'a> {
    ghost use Rattle.git_rules.specs.ConfigItems.{Place};

    ghost Value = { Place };

    ghost use Rattle.git_rules.specs.ConfigReader.{IsWithin, place};

    ghost view = { place };

    ghost invariant = { IsWithin };
}

impl<'a> Reader<'a> {
    /// Returns a reader of the text that `git config --list -z` writes. [`Reader`] has an example.
    pub fn new(text: &'a [u8]) -> Reader<'a>
        ensures { result ≡ start text.now }
    {
        Reader { text, rest: text }
    }
}

impl<'a> Iterator for Reader<'a> {
    ghost use Rattle.std.specs.Prelude.{length};
    ghost use Rattle.std.specs.Iterator.{at_most};
    ghost use Rattle.git_rules.specs.ConfigItems.{GivesItem};

    type Item = Result<Entry<'a>, EntryError>;

    ghost next_gives = { GivesItem };

    ghost remaining = { λ from. at_most (length from.rest) };

    fn next(&mut self) -> Option<Result<Entry<'a>, EntryError>> {
        if self.rest.is_empty() {
            return None;
        }
        let at = self.text.len() - self.rest.len();
        match cut(self.rest, 0) {
            Some((line, suffix)) => {
                self.rest = suffix;
                Some(read_line(line, at))
            }
            None => {
                self.rest = self.rest.split_at(self.rest.len()).1;
                Some(Err(EntryError::NoEnd { at }))
            }
        }
    }
}

/// Returns the entry that a line spells, or an error. The line begins at this byte of the text.
fn read_line(line: &[u8], at: usize) -> Result<Entry<'_>, EntryError>
    ensures { MeansItem at line.now result }
{
    let (key, value) = cut_value(line);
    match read_key(key) {
        Some((section, subsection, name)) => Ok(Entry {
            section,
            subsection,
            name,
            value,
            at,
        }),
        None => Err(EntryError::NoKey { at }),
    }
}

/// Returns the key of a line, and its value if it has one.
fn cut_value(line: &[u8]) -> (&[u8], Option<&[u8]>)
    ensures { CutsValue line.now result }
{
    match cut(line, b'\n') {
        Some((key, value)) => (key, Some(value)),
        None => (line, None),
    }
}

/// Returns the section, the subsection and the name of a key.
fn read_key(key: &[u8]) -> Option<(&[u8], Option<&[u8]>, &[u8])>
    ensures { CutsKey key.now result }
{
    let (section, suffix) = cut(key, b'.')?;
    let (subsection, name) = cut_name(suffix);
    if section.is_empty() {
        return None;
    }
    if name.is_empty() {
        return None;
    }
    Some((section, subsection, name))
}

/// Returns the subsection, if any, and the name in the part of a key after its first dot.
fn cut_name(suffix: &[u8]) -> (Option<&[u8]>, &[u8])
    ensures { CutsName suffix.now result }
{
    match last_cut(suffix, b'.') {
        Some((subsection, name)) => (Some(subsection), name),
        None => (None, suffix),
    }
}

/// Whether the text may be the whole output of `git config --list -z`: it is empty or ends in a byte 0, and each key
/// has a section and a name.
///
/// So the output of `git config --list`, a configuration file, or a listing that is cut off in an entry isn't
/// mistaken for a configuration without these entries. A [`Reader`] returns the error and its place.
///
/// ```
/// /// The entries of a text; none if it isn't the whole output of `git config --list -z`.
/// fn checked(alloc: Global, text: &[u8]) -> Result<Option<Vec<Entry<'_>>>, AllocError> {
///     if !is_listing(text) {
///         return Ok(None); // of `user.name=me` and a line feed
///     }
///     Ok(Some(config::entries(alloc, text)?))
/// }
/// ```
pub fn is_listing(text: &[u8]) -> bool
    ensures { IsTrue result ↔ IsListing text.now }
{
    for item in Reader::new(text) {
        if !is_entry(item) {
            return false;
        }
    }
    true
}

/// Whether the item is an entry.
fn is_entry(item: Result<Entry<'_>, EntryError>) -> bool
    ensures { IsTrue result ↔ IsEntry item.entry }
{
    matches!(item, Ok(_))
}

/// Returns the entries of a text that `git config --list -z` writes, in its order. It skips everything that isn't
/// an entry; a [`Reader`] reports those errors, with their byte offsets.
///
/// Allocates once, for as many entries as the text has bytes 0. The entries borrow from the text.
///
/// ```
/// /// The last value of `http.proxy`, which is the one that Git takes.
/// fn proxy(alloc: Global, text: &[u8]) -> Result<Option<&[u8]>, AllocError> {
///     let mut found = None;
///     for entry in &config::entries(alloc, text)? {
///         if entry.is_section("http") && entry.subsection.is_none() && entry.is_name("proxy") {
///             found = entry.value;
///         }
///     }
///     Ok(found)
/// }
/// ```
///
/// # Errors
///
/// Returns `AllocError` if the allocation fails.
pub fn entries(alloc: Global, text: &[u8]) -> Result<Vec<Entry<'_>>, AllocError>
    ensures { IfOk result (λ found. HasEntries text.now found.items) }
{
    let mut found = Vec::with_capacity(alloc, count_ends(text))?;
    for item in Reader::new(text) {
        keep(&mut found, item)?;
    }
    Ok(found)
}

/// Appends an item that is an entry.
fn keep<'a>(
    found: &mut Vec<Entry<'a>>,
    item: Result<Entry<'a>, EntryError>,
) -> Result<(), AllocError>
    ensures { OnOk result (found.new.items ≡ found.old.items ++ entries_of (item.entry ∷ [])) }
{
    match item {
        Ok(entry) => {
            found.push(entry)?;
            Ok(())
        }
        Err(_) => Ok(()),
    }
}

/// Returns the entries of one section, unchanged and in their order: those for which [`Entry::is_section`] is true.
///
/// A program that checks many texts against one configuration can filter it once and then search the shorter list.
/// The byte offsets `at` stay the same; an index into this list isn't an index into `entries`. With the entries of
/// `protocol` alone, [`Protocols::permission`](crate::protocols::Protocols::permission) returns the same as with
/// all entries.
///
/// Allocates as the list grows. The entries borrow from the same text.
///
/// ```
/// /// How many of the locations may be used, by the entries of `protocol` alone, which are found once.
/// fn usable(
///     alloc: Global,
///     entries: &[Entry<'_>],
///     urls: &[UrlRef<'_>],
/// ) -> Result<usize, AllocError> {
///     let of_protocol = config::entries_of(alloc, entries, "protocol")?;
///     Ok(usable_by(&of_protocol, urls))
/// }
///
/// /// How many of the locations may be used.
/// fn usable_by(entries: &[Entry<'_>], urls: &[UrlRef<'_>]) -> usize {
///     let protocols = Protocols {
///         entries,
///         allow_list: None,
///         from_user: None,
///     };
///     let mut count: usize = 0;
///     for url in urls {
///         if protocols.permission(transport(url)).is_allowed() {
///             count = count.saturating_add(1);
///         }
///     }
///     count
/// }
/// ```
///
/// # Errors
///
/// Returns `AllocError` if an allocation fails.
pub fn entries_of<'a>(
    alloc: Global,
    entries: &[Entry<'a>],
    section: &str,
) -> Result<Vec<Entry<'a>>, AllocError>
    ensures { IfOk result (λ found. found.items ≡ of_section section.now entries.now) }
{
    let mut found = Vec::new(alloc);
    for entry in entries {
        if entry.is_section(section) {
            found.push(entry.clone()?)?;
        }
    }
    Ok(found)
}

/// The number of bytes 0 in the text, each of which ends an entry.
fn count_ends(text: &[u8]) -> usize
    ensures { result ≡ count_by (λ b. b == 0) text.now }
{
    text.iter().filter(|byte| **byte == 0).count()
}
