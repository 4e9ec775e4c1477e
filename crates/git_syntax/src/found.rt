//! The slices of a text that a location consists of.
//!
//! [`crate::find::find`] returns them. The definitions in `specs/Internal/FoundPieces.antt` say which location
//! they denote.

use crate::rules::Rules;
use crate::url_syntax::ParsedUrl;

/// The slices that a location consists of, by its form.
#[derive(Clone, Copy)]
pub enum Found<'a> {
    /// A remote helper: both slices are used unchanged.
    Helper {
        name: &'a [u8],
        address: &'a [u8],
    },
    /// A local path, which is used unchanged.
    Local {
        path: &'a [u8],
    },
    /// A file URL: both slices are used unchanged. An empty host counts as a missing one.
    File {
        host: &'a [u8],
        path: &'a [u8],
    },
    /// A URL of the helper `ext`: the path is the whole text.
    Ext {
        text: &'a [u8],
    },
    /// Any other URL, and the rules of its scheme.
    Url {
        rules: Rules,
        url: ParsedUrl<'a>,
    },
    /// The scp form: the user is used unchanged, and so is the path, except for a `/` before a `~`.
    Scp {
        user: Option<&'a [u8]>,
        host: ScpHost<'a>,
        path: &'a [u8],
    },
}

/// The host of the scp form, without brackets around it. A `%` in it is a literal character.
#[derive(Clone, Copy)]
pub enum ScpHost<'a> {
    /// An IPv6 text, perhaps with a `%` and a zone: the text before the `%` is lowercased.
    Literal(&'a [u8]),
    /// A host outside brackets: it is lowercased if it looks like a domain name.
    Name(&'a [u8]),
    /// A simple host, or any other text that was in brackets: it is used unchanged.
    Kept(&'a [u8]),
}
