//! Stored locations: a record of every field of a location for `serde`, in the format of the Rust crate
//! `gix-url`. Legacy records are migrated. `Debug` hides the password like `Display`.

ghost use Rattle.std.specs.Prelude.{◌≡◌, ◌↔◌, [], IfErr, IfOk, IsOk, IsTrue, MatchOption, length};
ghost use Rattle.git_laws.specs.Records.{IsLegacy, SpellsFront, begins_escape, from_legacy, migrated, new_spelling};
ghost use Rattle.gix_url.specs.Stored.{recorded_location};

use crate::copy::copy_text;
use crate::decoded::decode;
use crate::error::Error;
use crate::location::Url;
use crate::scheme::Scheme;
use bstr::BString;
use git_location::display::hidden_password;
use git_syntax::bytes::append_within;
use git_syntax::escape::{PATH, begins_with_digits};
use percent_encoding::percent_encode_byte;
use serde::{Deserialize, Serialize};
use std::alloc::{AllocError, Global};
use std::fmt;

/// Every field of a location, to be stored and restored with `serde`. [`Url::to_stored`] and
/// [`Url::from_stored`] have examples.
///
/// The format is that of the Rust crate `gix-url` with its feature `serde`: the fields by the names below, in
/// this order, and bytes as lists of numbers. As JSON:
///
/// ```json
/// {"scheme":"Https","user":null,"password":null,"host":"h","serialize_alternative_form":false,"port":null,
///  "path":[47,97,47,98],"path_with_percent_escapes":[47,97,37,50,70,98]}
/// ```
///
/// A scheme is `"File"`, `"Git"`, `"Ssh"`, `"Http"`, `"Https"`, `"Ext"`, `{"Helper":"name"}` or
/// `{"HelperUrl":"name"}`. An optional field that is missing is `null`, and a record may leave it out. A field
/// of another name is skipped. The reader of the format refuses a record that lacks the scheme, the form or the
/// path, that has a field twice, or one of another type; its error names the field or its place.
///
/// The password is stored in the clear. `Debug` shows `redacted` in its place (tested), and hides no other field.
/// All fields are public and are not checked: a program may make a record itself.
#[derive(Drop, Serialize, Deserialize)]
pub struct StoredUrl {
    /// The scheme.
    pub scheme: Scheme,
    /// The user, decoded.
    pub user: Option<String>,
    /// The password, decoded.
    pub password: Option<String>,
    /// The host.
    pub host: Option<String>,
    /// Whether to write the alternative form, which is not a URL, if the location has one.
    pub serialize_alternative_form: bool,
    /// The port.
    pub port: Option<u16>,
    /// The path, decoded. It may be any bytes. In legacy records it is the spelling.
    pub path: Vec<u8>,
    /// The escaped spelling of the path, if the text had one. Records from before spellings were stored lack
    /// it.
    #[serde(default)]
    pub path_with_percent_escapes: Option<Vec<u8>>,
}

impl fmt::Debug for StoredUrl {
    /// Writes all fields, with `redacted` in place of the field `password`.
    fn fmt<W: fmt::Write>(&self, f: &mut fmt::Formatter<W>) -> fmt::Result {
        f.debug_struct("StoredUrl")
            .field("scheme", &self.scheme)
            .field("user", &self.user)
            .field("password", &hidden_password(self.password.as_deref()))
            .field("host", &self.host)
            .field(
                "serialize_alternative_form",
                &self.serialize_alternative_form,
            )
            .field("port", &self.port)
            .field("path", &self.path)
            .field("path_with_percent_escapes", &self.path_with_percent_escapes)
            .finish()
    }
}

impl Url {
    /// A record of the location, with all of its fields, including the retained spelling of its path.
    ///
    /// Each field is copied once: allocates once for each text and each list of bytes that isn't empty. The
    /// password is copied as well, so keep the record as secret as the location.
    ///
    /// ```
    /// fn json_of(alloc: Global, url: &Url) -> Option<String> {
    ///     let stored = url.to_stored(alloc).ok()?;
    ///     serde_json::to_string(alloc, &stored).ok()
    /// }
    /// ```
    ///
    /// # Errors
    ///
    /// [`Error::Memory`] if an allocation fails.
    #[inline(always)] // so that the record, which is large, is not copied once more for the caller
    pub fn to_stored(&self, alloc: Global) -> Result<StoredUrl, Error>
        ensures stored { IfOk result (λ stored. recorded_location stored ≡ self.now) }
        ensures memory { IfErr result (λ e. e ≡ Error.Memory) }
    {
        Ok(StoredUrl {
            scheme: self.scheme.clone(alloc)?,
            user: copy_text(alloc, &self.user)?,
            password: copy_text(alloc, &self.password)?,
            host: copy_text(alloc, &self.host)?,
            serialize_alternative_form: self.serialize_alternative_form,
            port: self.port,
            path: Vec::from_slice(alloc, self.path.as_bytes())?,
            path_with_percent_escapes: match &self.spelling {
                None => None,
                Some(spelling) => Some(Vec::from_slice(alloc, spelling.as_bytes())?),
            },
        })
    }

    /// The location of a record. The fields are moved into it unchanged and unchecked, so an edited record may
    /// give a location without a text.
    ///
    /// A record whose spelling is its path, byte for byte, is a legacy one, in which the path was stored as it
    /// was spelled. Its path is decoded. Its new spelling is the old path with its escapes unchanged (`%` and
    /// two hexadecimal digits, RFC 3986 section 2.1) and every other byte as it is written in a path, so that
    /// both decode to the same bytes: `laws::law_stored`. A location that was read from a text is never
    /// mistaken for a legacy record: it is restored exactly as [`Url::to_stored`] stored it.
    ///
    /// Allocates twice for a legacy record, once for each of the two, and nothing for any other.
    ///
    /// ```
    /// fn url_of(alloc: Global, json: &str) -> Option<Url> {
    ///     let stored = serde_json::from_str(alloc, json).ok()?;
    ///     Url::from_stored(alloc, stored).ok()
    /// }
    /// ```
    ///
    /// # Errors
    ///
    /// [`Error::Memory`] if an allocation for a legacy record fails.
    pub fn from_stored(alloc: Global, stored: StoredUrl) -> Result<Url, Error>
        ensures restored { IfOk result (λ url. url ≡ migrated (recorded_location stored)) }
        ensures current { ¬ IsLegacy (recorded_location stored) → IsOk result }
        ensures memory { IfErr result (λ e. e ≡ Error.Memory) }
    {
        let url = Url {
            scheme: stored.scheme,
            user: stored.user,
            password: stored.password,
            host: stored.host,
            serialize_alternative_form: stored.serialize_alternative_form,
            port: stored.port,
            path: BString::new(stored.path),
            spelling: stored.path_with_percent_escapes.map(BString::new),
        };
        if url.is_legacy() {
            url.migrate(alloc)
        } else {
            Ok(url)
        }
    }

    /// Whether the spelling is the path.
    fn is_legacy(&self) -> bool
        ensures { IsTrue result ↔ IsLegacy self.now }
    {
        match &self.spelling {
            None => false,
            Some(spelling) => spelling.as_bytes() == self.path.as_bytes(),
        }
    }

    /// The location with its path read as a spelling: decoded, and spelled again.
    fn migrate(self, alloc: Global) -> Result<Url, Error>
        ensures migrated { IfOk result (λ url. url ≡ from_legacy self) }
        ensures memory { IfErr result (λ e. e ≡ Error.Memory) }
    {
        let spelling = respell(alloc, self.path.as_bytes())?;
        let path = decode(alloc, self.path.as_bytes())?;
        Ok(Url {
            path: BString::new(path),
            spelling: Some(BString::new(spelling)),
            ..self
        })
    }
}

/// The new spelling of a path: its escapes unchanged, and every other byte as it is written in a path.
/// Allocates once. A length that no memory has counts as a failed allocation.
fn respell(alloc: Global, path: &[u8]) -> Result<Vec<u8>, AllocError>
    ensures { IfOk result (λ spelling. spelling.items ≡ new_spelling path.now) }
{
    let Ok(len) = usize::try_from(respelled_len(path)) else {
        return Err(AllocError);
    };
    let mut spelling = Vec::with_capacity(alloc, len)?;
    let mut rest = path;
    while let Some((front, suffix)) = spelled_front(rest) {
        append_within(&mut spelling, front);
        rest = suffix;
    }
    Ok(spelling)
}

/// The length of the new spelling of a path.
fn respelled_len(path: &[u8]) -> u128
    ensures { result ≡ length (new_spelling path.now) }
{
    let mut total = 0;
    let mut rest = path;
    while let Some((front, suffix)) = spelled_front(rest) {
        total += front.len() as u128;
        rest = suffix;
    }
    total
}

/// The new spelling of the first byte of a path, and the rest of the path after it.
fn spelled_front(path: &[u8]) -> Option<(&[u8], &[u8])>
    ensures { MatchOption result (path.now ≡ []) (λ p. SpellsFront path.now p.0.now p.1.now) }
{
    let (first, suffix) = path.split_first()?;
    if begins_escape(*first, suffix) {
        return Some(path.split_at(1));
    }
    if PATH.should_percent_encode(*first) {
        return Some((percent_encode_byte(*first).as_bytes(), suffix));
    }
    Some(path.split_at(1))
}

/// Whether the byte is a `%` that two hexadecimal digits follow.
fn begins_escape(byte: u8, suffix: &[u8]) -> bool
    ensures { result ≡ begins_escape byte suffix.now }
{
    byte == b'%' && begins_with_digits(suffix)
}
