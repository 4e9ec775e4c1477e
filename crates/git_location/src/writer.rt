//! Writes a location: its text, the text's length, and the spelling of its path.
//!
//! The text is laid out once, as pieces: slices of the location, each with the way in which it is written.
//! `form` chooses the form, `layout` the pieces, `piece` adds up their lengths and puts them into a sink,
//! `unescaped` finds texts that need no escape, `escaped` writes the others, and `sink`, `fill` and `show`
//! are the sinks.

ghost use Rattle.std.specs.Prelude.{◌≡◌, [], Ok, Err, IsOk, IfOk, IfErr, length};
ghost use Rattle.bstr.specs.BStr.{bstr_bytes};
ghost use Rattle.git_location.specs.declared.write_error.WriteFault.{WriteFault};
ghost use Rattle.git_location.specs.Internal.Fills.{Placed};
ghost use Rattle.git_location.specs.Text.{canonical_text, in_form, original_path, text, text_in};
ghost use Rattle.git_location.specs.Internal.Pieces.{form_chosen, form_of, pieces_text, text_length, text_of_pieces};
ghost use Rattle.git_location.specs.Readings.{Written};

mod escaped;
pub mod fill;
pub mod form;
mod layout;
pub mod piece;
pub mod show;
pub mod sink;
mod unescaped;

use crate::url_ref::UrlRef;
use crate::write_error::{WriteError, WriteFault};
use crate::writer::fill::fill;
use crate::writer::form::Form;
use crate::writer::piece::Pieces;
use crate::writer::sink::Output;
use bstr::BStr;
use itoa::Buffer;
use std::io::Write;

impl<'a> UrlRef<'a> {
    /// Writes the text of the location, including the password, like [`Url::write_to`].
    ///
    /// ```
    /// fn append(out: &mut Vec<u8>, url: &UrlRef<'_>) -> Result<(), WriteError> {
    ///     url.write_to(out)
    /// }
    /// ```
    ///
    /// # Errors
    ///
    /// - [`WriteError::Fault`] exactly if the location has no text. Nothing was written then.
    /// - [`WriteError::Io`] if the writer failed. How much it wrote is unspecified.
    pub fn write_to<W: Write>(&self, out: &mut W) -> Result<(), WriteError>
        ensures { Written W.contents out.old out.new (text self.now) result }
    {
        let mut digits = Buffer::new();
        match self.own_pieces(&mut digits) {
            Ok(pieces) => match pieces.put::<W, Output>(out) {
                Ok(()) => Ok(()),
                Err(error) => Err(WriteError::Io(error)),
            },
            Err(fault) => Err(WriteError::Fault(fault)),
        }
    }

    /// The length of the text of the location, in bytes.
    ///
    /// ```
    /// /// Whether the text fits into a field of so many bytes.
    /// fn fits(url: &UrlRef<'_>, capacity: u128) -> bool {
    ///     url.text_len().is_ok_and(|length| length <= capacity)
    /// }
    /// ```
    ///
    /// # Errors
    ///
    /// The fault, exactly if the location has no text.
    pub fn text_len(&self) -> Result<u128, WriteFault>
        ensures { result ≡ text_length (text self.now) }
    {
        let mut digits = Buffer::new();
        let pieces = self.own_pieces(&mut digits)?;
        Ok(pieces.len())
    }

    /// Writes the text of the location to the front of the buffer, if it fits, and returns the length of the
    /// text in bytes, whether or not it fits. The rest of the buffer is unchanged. If the text doesn't fit,
    /// or the location has none, the whole buffer is unchanged.
    ///
    /// ```
    /// /// The text of a location in a buffer, if it fits.
    /// fn in_buffer<'a>(url: &UrlRef<'_>, buffer: &'a mut [u8]) -> Result<Option<&'a [u8]>, WriteFault> {
    ///     let length = url.write_into(buffer)?;
    ///     Ok(usize::try_from(length).ok().and_then(|length| buffer.get(..length)))
    /// }
    /// ```
    ///
    /// # Errors
    ///
    /// The fault, exactly if the location has no text.
    pub fn write_into(&self, buffer: &mut [u8]) -> Result<u128, WriteFault>
        ensures length { result ≡ text_length (text self.now) }
        ensures placed { Placed (text self.now) buffer.old buffer.new }
    {
        match self.own_form() {
            Ok(form) => Ok(self.place_in(form, buffer)),
            Err(fault) => Err(fault),
        }
    }

    /// The escaped path as it was written, if it still decodes to `path`; otherwise `path`.
    ///
    /// ```
    /// fn spelled<'a>(url: &UrlRef<'a>) -> BStr<'a> {
    ///     url.original_path() // `/my%20repo` of `https://host/my%20repo`, whose path is `/my repo`
    /// }
    /// ```
    pub fn original_path(&self) -> BStr<'a>
        ensures { bstr_bytes result ≡ original_path self.now }
    {
        match self.matching_spelling() {
            Some(spelling) => BStr::new(spelling),
            None => BStr::new(self.path),
        }
    }

    /// The form of the text, or the fault if the location has none.
    pub fn own_form(&self) -> Result<Form, WriteFault>
        ensures { in_form (form_chosen result) self.now ≡ text self.now }
    {
        self.form(self.password)
    }

    /// Writes the text in this form to the buffer, if it fits, and returns its length. A URL is written by
    /// another function.
    fn place_in(&self, form: Form, buffer: &mut [u8]) -> u128
        ensures length { result ≡ length (text_in (form_of form) self.now) }
        ensures placed { Placed (Ok (text_in (form_of form) self.now)) buffer.old buffer.new }
    {
        match form {
            Form::Helper => place(&self.helper_pieces(), buffer),
            Form::Path => place(&self.path_pieces(), buffer),
            Form::Scp => place(&self.scp_pieces(), buffer),
            Form::Canonical => self.place_canonical(buffer),
        }
    }

    /// Writes the text as a URL to the buffer, if it fits, and returns its length.
    #[inline(never)]
    fn place_canonical(&self, buffer: &mut [u8]) -> u128
        ensures length { result ≡ length (canonical_text self.now) }
        ensures placed { Placed (Ok (canonical_text self.now)) buffer.old buffer.new }
    {
        let mut digits = Buffer::new();
        place(&self.canonical_pieces(self.password, &mut digits), buffer)
    }

    /// The pieces of the text, or the fault if the location has none. `digits` is the buffer for the digits of the
    /// port.
    pub fn own_pieces<'b>(&'b self, digits: &'b mut Buffer) -> Result<Pieces<'b>, WriteFault>
        ensures { text_of_pieces result ≡ text self.now }
    {
        self.pieces(self.password, digits)
    }
}

/// Writes the text of the pieces to the front of the buffer, if it fits, and returns its length.
#[inline(always)]
fn place(pieces: &Pieces<'_>, buffer: &mut [u8]) -> u128
    ensures length { result ≡ length (pieces_text pieces.now) }
    ensures placed { Placed (Ok (pieces_text pieces.now)) buffer.old buffer.new }
{
    let len = pieces.len();
    if len <= buffer.len() as u128 {
        fill(buffer, pieces);
    }
    len
}
