//! Copies of locations, of schemes, and of the fields that own memory.
//!
//! A copy is an equal value that shares nothing with the original. Each copy of a field allocates once, and not
//! at all if the field is empty.

ghost use Rattle.std.specs.Prelude.{◌≡◌, None, IfErr, IfOk, IsOk, option_map, string_bytes};
ghost use Rattle.bstr.specs.Owned.{bstring_bytes};
ghost use Rattle.git_laws.specs.Order.{held_name};
ghost use Rattle.gix_url.specs.Views.{owned_scheme};

use crate::error::Error;
use crate::location::Url;
use crate::scheme::Scheme;
use bstr::BString;
use std::alloc::{AllocError, Global};

impl Scheme {
    /// A copy of the scheme. Allocates once for a name that isn't empty, and nothing for a known scheme.
    ///
    /// The copy is equal to the scheme and independent of it.
    ///
    /// # Errors
    ///
    /// [`Error::Memory`] if the allocation fails; never for a known scheme.
    ///
    /// ```
    /// fn twice(alloc: Global, scheme: Scheme) -> Result<(Scheme, Scheme), Error> {
    ///     let copy = scheme.clone(alloc)?;
    ///     Ok((scheme, copy))
    /// }
    /// ```
    pub fn clone(&self, alloc: Global) -> Result<Scheme, Error>
        ensures equal { IfOk result (λ copy. owned_scheme copy ≡ owned_scheme self.now) }
        ensures memory { IfErr result (λ e. e ≡ Error.Memory) }
        ensures known { held_name (owned_scheme self.now) ≡ None → IsOk result }
    {
        match self {
            Scheme::File => Ok(Scheme::File),
            Scheme::Git => Ok(Scheme::Git),
            Scheme::Ssh => Ok(Scheme::Ssh),
            Scheme::Http => Ok(Scheme::Http),
            Scheme::Https => Ok(Scheme::Https),
            Scheme::Ext => Ok(Scheme::Ext),
            Scheme::Helper(name) => Ok(Scheme::Helper(String::from_str(alloc, name)?)),
            Scheme::HelperUrl(name) => Ok(Scheme::HelperUrl(String::from_str(alloc, name)?)),
        }
    }
}

impl Url {
    /// A copy of the location, including the retained spelling of its path. Allocates once for each text that
    /// isn't empty: the name in the scheme, the user, the password, the host, the path and the spelling.
    ///
    /// The copy is equal to the location and independent of it. It contains the password, too.
    ///
    /// # Errors
    ///
    /// [`Error::Memory`] if an allocation fails.
    ///
    /// ```
    /// /// The same location on another host.
    /// fn mirror(alloc: Global, url: &Url, host: String) -> Result<Url, Error> {
    ///     let mut copy = url.clone(alloc)?;
    ///     copy.host = Some(host);
    ///     Ok(copy)
    /// }
    /// ```
    pub fn clone(&self, alloc: Global) -> Result<Url, Error>
        ensures equal { IfOk result (λ copy. copy ≡ self.now) }
        ensures memory { IfErr result (λ e. e ≡ Error.Memory) }
    {
        Ok(Url {
            scheme: self.scheme.clone(alloc)?,
            user: copy_text(alloc, &self.user)?,
            password: copy_text(alloc, &self.password)?,
            host: copy_text(alloc, &self.host)?,
            serialize_alternative_form: self.serialize_alternative_form,
            port: self.port,
            path: copy_bytes(alloc, &self.path)?,
            spelling: copy_spelling(alloc, &self.spelling)?,
        })
    }
}

/// A copy of a text that may be missing.
pub(crate) fn copy_text(alloc: Global, text: &Option<String>) -> Result<Option<String>, AllocError>
    ensures { IfOk result
        (λ copy. option_map string_bytes copy ≡ option_map string_bytes text.now) }
{
    match text {
        None => Ok(None),
        Some(text) => Ok(Some(String::from_str(alloc, text)?)),
    }
}

/// A copy of bytes.
fn copy_bytes(alloc: Global, bytes: &BString) -> Result<BString, AllocError>
    ensures { IfOk result (λ copy. bstring_bytes copy ≡ bstring_bytes bytes.now) }
{
    BString::from_slice(alloc, bytes.as_bytes())
}

/// A copy of a spelling that may be missing.
fn copy_spelling(alloc: Global, spelling: &Option<BString>) -> Result<Option<BString>, AllocError>
    ensures { IfOk result
        (λ copy. option_map bstring_bytes copy ≡ option_map bstring_bytes spelling.now) }
{
    match spelling {
        None => Ok(None),
        Some(bytes) => Ok(Some(copy_bytes(alloc, bytes)?)),
    }
}
