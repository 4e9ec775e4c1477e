//! The location that borrows from a text and from the caller's buffer, in C's form.

ghost use Rattle.c_values.specs.Borrowed.{IsBorrowed};

use crate::input::{PartBytes, reload};
use crate::output::{name, numbers, part, text};
use gix_url::UrlRef;

/// The numbers and the parts of the location.
pub fn borrowed_of<'a>(url: &UrlRef<'a>) -> PartBytes<'a>
    ensures { IsBorrowed url.now result }
{
    PartBytes {
        numbers: numbers(url),
        name: name(url.scheme),
        user: text(url.user),
        password: text(url.password),
        host: text(url.host),
        path: reload(url.path),
        spelling: part(url.spelling),
    }
}
