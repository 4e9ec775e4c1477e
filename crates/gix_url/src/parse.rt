//! Reads the location that bytes spell into an owned value.

ghost use Rattle.std.specs.Prelude.{◌≡◌, [], Err, IfErr, IfOk};
ghost use Rattle.bstr.specs.BStr.{bstr_bytes};
ghost use Rattle.gix_url.specs.Flaws.{Flaw};
ghost use Rattle.git_syntax.specs.Grammar.{Spells};
ghost use Rattle.gix_url.specs.Readings.{Reads, Refuses};

mod build;
mod copies;
mod from_fields;
mod host;
mod refusal;
mod to_location;

use crate::error::Error;
use crate::location::Url;
use bstr::BStr;
use build::{build, build_simple};
use git_refusals::read;
use git_syntax::find::find;
pub use git_syntax::refusal::UrlKind;
use git_syntax::simple::simple_pieces;
use refusal::error_of;
use std::alloc::Global;

/// Reads the one location that the bytes spell.
///
/// They are a remote helper's address (`name::address`), a URL, the scp form (`user@host:path`) or a local
/// path. If they spell no location, the error names a flaw that is in them. `docs/GRAMMAR.md` describes the
/// forms, after gitremote-helpers, git-clone's "GIT URLS" and RFC 3986.
///
/// Allocates a copy of each field. For an error, allocates a copy of the bytes, or of their front if they are
/// too long, and nothing for the empty text.
///
/// # Errors
///
/// - [`Error::EmptyLocal`], [`Error::MissingPath`], [`Error::NotUtf8`], [`Error::TooLong`] and
///   [`Error::BadUrl`], each if its flaw is in the bytes.
/// - [`Error::Memory`] if an allocation fails.
///
/// ```
/// /// Whether bytes that somebody sent spell a location; where memory is refused there is no answer.
/// fn is_location(alloc: Global, bytes: &[u8]) -> Result<bool, Error>
///     ensures decided { IfOk result (λ is. IsTrue is ↔ (v : Location) × Spells bytes.now v) }
///     ensures memory { IfErr result (λ e. e ≡ error.Memory) }
/// {
///     match parse(alloc, BStr::new(bytes)) {
///         Ok(_) => Ok(true),
///         Err(error) => {
///             if error.is_memory() {
///                 Err(error)
///             } else {
///                 Ok(false)
///             }
///         }
///     }
/// }
/// ```
pub fn parse(alloc: Global, input: BStr<'_>) -> Result<Url, Error>
    ensures { Reads (bstr_bytes input.entry) result }
{
    read(alloc, input.as_bytes())
}

impl Url {
    /// Reads the one location that the bytes spell: [`parse`], with its errors.
    ///
    /// ```
    /// fn of_line(alloc: Global, line: &[u8]) -> Result<Url, Error> {
    ///     Url::from_bytes(alloc, BStr::new(line))
    /// }
    /// ```
    pub fn from_bytes(alloc: Global, input: BStr<'_>) -> Result<Url, Error>
        ensures { Reads (bstr_bytes input.entry) result }
    {
        parse(alloc, input)
    }

    /// Reads the one location that the text spells: [`parse`] of its bytes, with its errors.
    ///
    /// ```
    /// fn port_of(alloc: Global, text: &str) -> Result<Option<u16>, Error> {
    ///     Ok(Url::from_text(alloc, text)?.port) // 22 of `ssh://h:22/p`, none of `h:22/p`
    /// }
    /// ```
    pub fn from_text(alloc: Global, text: &str) -> Result<Url, Error>
        ensures { Reads text.now result }
    {
        read(alloc, text.as_bytes())
    }
}

/// Reads the one location that the bytes spell: the slices that are found in them, copied.
// Inlined, it would copy the location once more.
#[inline(never)]
fn read(alloc: Global, bytes: &[u8]) -> Result<Url, Error>
    ensures found { IfOk result (λ v. Spells bytes.now v) }
    ensures refused { IfErr result (λ e. Refuses bytes.now e) }
    ensures flaw { IfErr result (λ e. Flaw bytes.now e) }
    ensures empty { bytes.now ≡ [] → result ≡ Err Error.EmptyLocal }
{
    match simple_pieces::<true>(bytes) {
        Some(pieces) => Ok(build_simple(alloc, pieces)?),
        None => read_any(alloc, bytes),
    }
}

/// Reads any location by the general search.
#[inline(never)]
fn read_any(alloc: Global, bytes: &[u8]) -> Result<Url, Error>
    ensures found { IfOk result (λ v. Spells bytes.now v) }
    ensures refused { IfErr result (λ e. Refuses bytes.now e) }
    ensures flaw { IfErr result (λ e. Flaw bytes.now e) }
    ensures empty { bytes.now ≡ [] → result ≡ Err Error.EmptyLocal }
{
    match find::<1>(bytes) {
        Ok(found) => Ok(build(alloc, found)?),
        Err(_) => Err(error_of(alloc, bytes, read::refusal(bytes))),
    }
}
