//! The normal form of the text of a location, in a buffer that the caller supplies.

ghost use Rattle.std.specs.Prelude.{◌≤◌, length, take};
ghost use Rattle.git_location.specs.Text.{text};
ghost use Rattle.git_rules.specs.Places.{FrontPlacesIn, PlacesIn};

use crate::normal::{NormalError, NormalUrl};
use git_location::url_ref::UrlRef;
use git_location::write_error::WriteFault;
use thiserror::Error;

/// The reason why a location has no normal form. [`place_in`] has an example.
#[derive(Clone, Copy, Debug, Error)]
pub enum PlaceError {
    /// The location has no text.
    #[error("the location has no text")]
    Fault(WriteFault),
    /// The text has no normal form, or the buffer is shorter than four times the text plus one byte.
    #[error("the text has no normal form: {0}")]
    Normal(NormalError),
}

/// Returns the place of the location: the normal form of its text, by which Git picks settings for it.
///
/// The function writes the text to the front of `buffer`, and its normal form after it. The buffer needs four bytes
/// for each byte of the text ([`UrlRef::text_len`]), and one more.
///
/// **Afterwards the buffer holds the whole text of the location, including its password**, after an error as
/// well as after success. It is unchanged only if the location has no text, or if the buffer is shorter than
/// the text. No clause states its contents: treat the buffer as secret after each call.
///
/// # Errors
///
/// [`PlaceError::Fault`] if the location has no text. [`PlaceError::Normal`] with [`NormalError::NoRoom`] if the
/// buffer is too short, otherwise with the reason why the text has no normal form; Git then uses only the settings
/// for all places ([`settings_without_place`](crate::pattern::settings::settings_without_place)).
///
/// ```
/// /// Whether a pattern stands for a location.
/// fn is_for(pattern: &UrlPattern<'_>, url: &UrlRef<'_>, buffer: &mut [u8]) -> bool {
///     match place_in(url, buffer) {
///         Ok(place) => pattern.matches(&place),
///         Err(_) => false,
///     }
/// }
/// ```
pub fn place_in<'a>(url: &UrlRef<'_>, buffer: &'a mut [u8]) -> Result<NormalUrl<'a>, PlaceError>
    ensures { PlacesIn (text url.now) (length buffer.old) result }
{
    match url.write_into(buffer) {
        Err(fault) => Err(PlaceError::Fault(fault)),
        Ok(len) => {
            if len > buffer.len() as u128 {
                return Err(PlaceError::Normal(NormalError::NoRoom));
            }
            normalize_front(buffer, len as usize)
        }
    }
}

/// Returns the normal form of the text at the front of the buffer, written to the rest of the buffer.
fn normalize_front(buffer: &mut [u8], len: usize) -> Result<NormalUrl<'_>, PlaceError>
    requires { len ≤ length buffer.old }
    ensures { FrontPlacesIn (take len buffer.old) (length buffer.old) result }
{
    let (text, rest) = buffer.split_at_mut(len);
    match NormalUrl::parse_in(text, rest) {
        Ok(url) => Ok(url),
        Err(error) => Err(PlaceError::Normal(error)),
    }
}
