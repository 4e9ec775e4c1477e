//! The normal form of a URL, by which Git compares places when it picks `http.<url>.*` and `credential.<url>.*`.
//!
//! A part whose normal form differs from its text is written to a buffer that the caller supplies.

mod authority;
mod cuts;
mod escapes;
mod host;
mod path;
mod write;

ghost use Rattle.std.specs.Prelude.{◌≡◌, ◌↔◌, ◌+◌, ◌-◌, ◌*◌, ◌^◌, ◌<◌, ◌≤◌, IsTrue, false, length, min};
ghost use Rattle.git_rules.specs.NormalFlaws.{NormalizesIn};
ghost use Rattle.git_rules.specs.NormalLaws.{KeepsPlace, OneNormalForm};

use crate::normal::authority::read_authority;
use crate::normal::cuts::cut_url;
use crate::normal::write::{lowered_in, write_parts};
use std::marker::Model;
use thiserror::Error;

/// The reason why a text has no normal form. [`NormalUrl::parse_in`] has an example.
#[derive(Clone, Copy, Debug, Error)]
pub enum NormalError {
    /// The buffer is shorter than three times the text plus one byte.
    #[error("the buffer is too short")]
    NoRoom,
    /// The text doesn't begin with a scheme and `://`.
    #[error("no scheme and `://` begin the text")]
    NoUrl,
    /// A `%` is not followed by two hexadecimal digits, in the user information or after the authority.
    #[error("a `%` without two hexadecimal digits")]
    BrokenEscape,
    /// There is no host; only a `file` URL may omit it.
    #[error("no host")]
    NoHost,
    /// The host contains a byte that is neither a letter nor a digit nor one of `.-_[:]`, nor, in a pattern, `*`.
    #[error("a byte that no host has")]
    BadHost,
    /// The port isn't a number from 1 to 65,535, or a `file` URL without a host has a port.
    #[error("no port")]
    BadPort,
    /// A segment `..` has no segment before it.
    #[error("a segment `..` above the root")]
    AboveRoot,
}

/// A URL in its normal form, as far as Git compares it, in slices of the text and of a buffer.
///
/// The password isn't part of it. [`NormalUrl::parse_in`] has an example.
#[derive(Drop)]
pub struct NormalUrl<'a> {
    /// The scheme, in lower case.
    pub scheme: &'a [u8],
    /// The user, if there is user information. It may be empty.
    pub user: Option<&'a [u8]>,
    /// The host, in lower case. It is empty only in a `file` URL.
    pub host: &'a [u8],
    /// The port, unless it is 80 for `http` or 443 for `https`.
    pub port: Option<u16>,
    /// The path, which begins with `/`, with the query and the fragment.
    pub path: &'a [u8],
}

impl<'a> Model for NormalUrl<'a> {
    ghost use Rattle.git_rules.specs.Normal.{NormalPlace};

    ghost Value = { NormalPlace };

    ghost use Rattle.git_rules.specs.NormalView.{normal_place};

    ghost view = { normal_place };
}

impl<'a> NormalUrl<'a> {
    /// Returns the normal form of a text, by which Git compares the places of `http.<url>.*` and
    /// `credential.<url>.*`.
    ///
    /// The host contains no `*`; [`UrlPattern::parse_in`](crate::pattern::UrlPattern::parse_in) reads a pattern,
    /// which may contain it. `buffer` needs three bytes for each byte of the text, and one more
    /// ([`needed_buffer_len`]).
    ///
    /// No clause states the contents of the buffer after the call. The code leaves it unchanged after
    /// [`NormalError::NoRoom`] and [`NormalError::NoUrl`]. After an error in the authority it may begin with
    /// the scheme in lower case. After an error in the path it may hold the scheme, the user, the host and a
    /// part of the path, in normal form. The password is never written to it (tested).
    ///
    /// # Errors
    ///
    /// [`NormalError::NoRoom`] if the buffer is too short. Every other error is the reason why the text has no
    /// normal form; Git then uses only the settings for all places
    /// ([`settings_without_place`](crate::pattern::settings::settings_without_place)). If there are several
    /// reasons, the first of these is returned: no URL, a malformed escape in the user information, a byte
    /// that no host has, no host, a bad port, a malformed escape after the authority, and a segment `..`
    /// above the root.
    ///
    /// ```
    /// /// The host whose settings apply to a text.
    /// fn host_of<'a>(text: &'a [u8], buffer: &'a mut [u8]) -> Option<&'a [u8]> {
    ///     match NormalUrl::parse_in(text, buffer) {
    ///         Ok(place) => Some(place.host), // `example.com` of `https://me@Example.com:443/a/../b`
    ///         Err(_) => None,
    ///     }
    /// }
    /// ```
    pub fn parse_in(text: &'a [u8], buffer: &'a mut [u8]) -> Result<NormalUrl<'a>, NormalError>
        ensures { NormalizesIn false text.now (length buffer.old) result }
    {
        NormalUrl::read_in(text, false, buffer)
    }

    /// Returns the normal form of a text; `globs` allows `*` in its host.
    pub(crate) fn read_in(
        text: &'a [u8],
        globs: bool,
        buffer: &'a mut [u8],
    ) -> Result<NormalUrl<'a>, NormalError>
        ensures { NormalizesIn globs text.now (length buffer.old) result }
    {
        if !is_enough(text.len(), buffer.len()) {
            return Err(NormalError::NoRoom);
        }
        let Some((scheme, authority, suffix)) = cut_url(text) else {
            return Err(NormalError::NoUrl);
        };
        let (scheme, buffer) = lowered_in(scheme, buffer);
        let authority = read_authority(globs, scheme, authority)?;
        write_parts(scheme, authority, suffix, buffer)
    }
}

/// The length in bytes of the buffer that [`NormalUrl::parse_in`],
/// [`UrlPattern::parse_in`](crate::pattern::UrlPattern::parse_in) and the functions of
/// [`entries`](crate::pattern::entries) need for a text of this many bytes: three times the length plus one, or the
/// greatest `usize` if that overflows.
///
/// ```
/// /// The host whose settings apply to a text, in a buffer that is made for it.
/// fn host_text(alloc: Global, text: &[u8]) -> Result<Option<BString>, AllocError> {
///     let mut buffer = vec![in alloc; 0u8; needed_buffer_len(text.len())]?;
///     match NormalUrl::parse_in(text, &mut buffer) {
///         Ok(place) => Ok(Some(BString::from_slice(alloc, place.host)?)),
///         Err(_) => Ok(None),
///     }
/// }
/// ```
pub fn needed_buffer_len(len: usize) -> usize
    ensures buffer { result ≡ min (3 * len + 1) (2 ^ 64 - 1) }
    ensures enough { len < 2 ^ 62 → result ≡ 3 * len + 1 }
{
    len.saturating_mul(3).saturating_add(1)
}

/// Whether a buffer of this length suffices for a text of this length.
pub(crate) fn is_enough(text: usize, buffer_len: usize) -> bool
    ensures { IsTrue result ↔ (3 * text + 1 ≤ buffer_len) }
{
    0 < buffer_len && text <= (buffer_len - 1) / 3
}

/// A text has at most one normal form. If all readers agree on the text of an HTTP location
/// ([`git_location::url_ref::UrlRef::agrees_with_git`]), the normal form has the location's scheme and host, its
/// port unless that is the scheme's default port, and its user as written.
pub fn law_normal_form()
    ensures one { OneNormalForm }
    ensures place { KeepsPlace }
{}
