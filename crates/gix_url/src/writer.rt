//! Writes a location into an owned text. The pieces that the writer of `git_location` lays out are collected
//! with one allocation.

ghost use Rattle.std.specs.Prelude.{◌≡◌, [], Ok, Err, IsOk, IfOk, IfErr, length};
ghost use Rattle.bstr.specs.BStr.{bstr_bytes};
ghost use Rattle.bstr.specs.Owned.{bstring_bytes};
ghost use Rattle.git_location.specs.declared.write_error.WriteFault.{WriteFault};
ghost use Rattle.git_location.specs.Text.{canonical_text, original_path, text, text_in};
ghost use Rattle.git_location.specs.Internal.Pieces.{form_of, pieces_text, text_length};
ghost use Rattle.git_location.specs.Readings.{Written};
ghost use Rattle.gix_url.specs.Readings.{IsUnwritten, WritesAgain};
ghost use Rattle.git_location.specs.Settled.{IsSettled};

use crate::error::Error;
use crate::location::Url;
use bstr::{BStr, BString};
use git_location::url_ref::UrlRef;
use git_location::value::law_borrowed_value;
use git_location::write_error::{WriteError, WriteFault};
use git_location::writer::fill::fill;
use git_location::writer::form::Form;
use git_location::writer::piece::Pieces;
use itoa::Buffer;
use std::alloc::{AllocError, Global};
use std::io::Write;

impl Url {
    /// Writes the text of the location, including the password. Allocates nothing.
    ///
    /// ```
    /// fn append(out: &mut Vec<u8>, url: &Url) -> Result<(), WriteError> {
    ///     url.write_to(out)
    /// }
    /// ```
    ///
    /// # Errors
    ///
    /// - [`WriteError::Fault`] exactly if the location has no text. Nothing was written then.
    /// - [`WriteError::Io`] if the writer failed. How much it wrote is unspecified.
    pub fn write_to<W: Write>(&self, out: &mut W) -> Result<(), WriteError>
        ensures { Written W.contents out.old out.new (text self.now) result }
    {
        self.as_ref().write_to(out)
    }

    /// The length of the text of the location, in bytes. Allocates nothing.
    ///
    /// ```
    /// /// Whether the text fits into a field of so many bytes.
    /// fn fits(url: &Url, capacity: u128) -> bool {
    ///     url.text_len().is_ok_and(|length| length <= capacity)
    /// }
    /// ```
    ///
    /// # Errors
    ///
    /// The fault, exactly if the location has no text.
    pub fn text_len(&self) -> Result<u128, WriteFault>
        ensures { result ≡ text_length (text self.now) }
    {
        self.as_ref().text_len()
    }

    /// The text of the location. Allocates once, for the whole text, and nothing if there is none.
    ///
    /// The text of a settled location spells a location with the same public fields and the same text. It
    /// contains the password if there is a user: `Display` hides that field.
    ///
    /// ```
    /// /// A text in the form that this library writes, if all readers find the same place in it.
    /// fn rewritten(alloc: Global, text: &str) -> Result<Option<BString>, Error> {
    ///     let url = Url::from_text(alloc, text)?;
    ///     if !url.is_unambiguous() {
    ///         return Ok(None);
    ///     }
    ///     Ok(Some(url.to_bstring(alloc)?)) // `ssh://h/p` of `ssh://H:/p`
    /// }
    /// ```
    ///
    /// # Errors
    ///
    /// - [`Error::Unwritable`] exactly if the location has no text.
    /// - [`Error::Memory`] if the allocation fails, or if the text is longer than any memory. For a settled
    ///   location this is the only error.
    pub fn to_bstring(&self, alloc: Global) -> Result<BString, Error>
        ensures text { IfOk result (λ s. text self.now ≡ Ok (bstring_bytes s)) }
        ensures fault { (f : WriteFault) → text self.now ≡ Err f → result
            ≡ Err (Error.Unwritable f) }
        ensures refused { IfErr result (λ e. IsUnwritten (text self.now) e) }
        ensures empty { text self.now ≡ Ok [] → IsOk result }
        ensures settled { IsSettled self.now → WritesAgain self.now result }
    {
        Url::text_of(alloc, &self.as_ref())
    }

    /// The escaped path as it was written, if it still decodes to `path`; otherwise `path`. Allocates nothing.
    ///
    /// ```
    /// fn spelled(url: &Url) -> BStr<'_> {
    ///     url.original_path() // `/my%20repo` of `https://host/my%20repo`, whose path is `/my repo`
    /// }
    /// ```
    pub fn original_path(&self) -> BStr<'_>
        ensures { bstr_bytes result ≡ original_path self.now }
    {
        self.as_ref().original_path()
    }

    /// The text of a borrowed location, like [`Url::to_bstring`]. Allocates once, for the whole text, and
    /// nothing if there is none.
    ///
    /// ```
    /// /// The text of a location without its password, which stays as it is.
    /// fn without_password(alloc: Global, url: &Url) -> Result<BString, Error> {
    ///     let mut bare = url.as_ref();
    ///     bare.password = None;
    ///     Url::text_of(alloc, &bare) // `https://u@h/p` of `https://u:p@h/p`
    /// }
    /// ```
    ///
    /// # Errors
    ///
    /// Those of [`Url::to_bstring`].
    pub fn text_of(alloc: Global, url: &UrlRef<'_>) -> Result<BString, Error>
        ensures text { IfOk result (λ s. text url.now ≡ Ok (bstring_bytes s)) }
        ensures fault { (f : WriteFault) → text url.now ≡ Err f → result
            ≡ Err (Error.Unwritable f) }
        ensures refused { IfErr result (λ e. IsUnwritten (text url.now) e) }
        ensures empty { text url.now ≡ Ok [] → IsOk result }
        ensures settled { IsSettled url.now → WritesAgain url.now result }
    {
        law_borrowed_value(url);
        match url.own_form() {
            Ok(form) => collect_in(alloc, url, form),
            Err(fault) => Err(Error::Unwritable(fault)),
        }
    }
}

/// The text in this form.
#[inline(always)]
fn collect_in(alloc: Global, url: &UrlRef<'_>, form: Form) -> Result<BString, Error>
    ensures text { IfOk result (λ s. bstring_bytes s ≡ text_in (form_of form) url.now) }
    ensures memory { IfErr result (λ e. e ≡ Error.Memory) }
    ensures empty { text_in (form_of form) url.now ≡ [] → IsOk result }
{
    match collect_form(alloc, url, form) {
        Ok(text) => Ok(BString::new(text)),
        Err(_) => Err(Error::Memory),
    }
}

/// The bytes in this form. Each form has its own call of `collect`, so that the compiler knows which pieces it
/// lacks.
#[inline(always)]
fn collect_form(alloc: Global, url: &UrlRef<'_>, form: Form) -> Result<Vec<u8>, AllocError>
    ensures text { IfOk result (λ s. s.items ≡ text_in (form_of form) url.now) }
    ensures empty { text_in (form_of form) url.now ≡ [] → IsOk result }
{
    match form {
        Form::Helper => collect(alloc, &url.helper_pieces()),
        Form::Path => collect(alloc, &url.path_pieces()),
        Form::Scp => collect(alloc, &url.scp_pieces()),
        Form::Canonical => collect_canonical(alloc, url),
    }
}

/// The text as a URL.
#[inline(always)]
fn collect_canonical(alloc: Global, url: &UrlRef<'_>) -> Result<Vec<u8>, AllocError>
    ensures text { IfOk result (λ s. s.items ≡ canonical_text url.now) }
    ensures empty { canonical_text url.now ≡ [] → IsOk result }
{
    let mut digits = Buffer::new();
    collect(alloc, &url.canonical_pieces(url.password, &mut digits))
}

/// The text of the pieces. Allocates once. A length that no memory has counts as a failed allocation.
#[inline(always)]
fn collect(alloc: Global, pieces: &Pieces<'_>) -> Result<Vec<u8>, AllocError>
    ensures text { IfOk result (λ s. s.items ≡ pieces_text pieces.now) }
    ensures empty { pieces_text pieces.now ≡ [] → IsOk result }
{
    match usize::try_from(pieces.len()) {
        Ok(0) => Ok(Vec::new(alloc)),
        Ok(len) => text_of_pieces(alloc, pieces, len),
        Err(_) => Err(AllocError),
    }
}

/// The text of the pieces, which has this length.
#[inline(always)]
fn text_of_pieces(alloc: Global, pieces: &Pieces<'_>, len: usize) -> Result<Vec<u8>, AllocError>
    requires { len ≡ length (pieces_text pieces.now) }
    ensures { IfOk result (λ s. s.items ≡ pieces_text pieces.now) }
{
    let mut text = vec![in alloc; 0_u8; len]?;
    fill(text.as_mut_slice(), pieces);
    Ok(text)
}
