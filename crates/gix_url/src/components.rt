//! The components of a location's path: over HTTP a path, a query and a fragment, borrowed from the location.
//!
//! Pieces are cut first and decoded afterwards, whatever is escaped in them. Allocates once for the list of a
//! query's names and values, if it isn't empty, and once for each of them that has a raw `+`. `cuts` cuts a
//! text together with its decoding, `measure` computes lengths of decodings, `fields` iterates over the fields
//! of a query, and `query_texts` returns their names and values.

ghost use Rattle.std.specs.Prelude.{◌≡◌, ◌⊎◌, [], ◌∷◌, None, IfErr, IfOk, IfSome, IsErr, IsOk, option_map};
ghost use Rattle.bstr.specs.BStr.{bstr_bytes};
ghost use Rattle.git_syntax.specs.Bytes.{Holds, slash};
ghost use Rattle.gix_url.specs.Internal.ComponentPieces.{HasQuery, BorrowsParts, SpellsPath};
ghost use Rattle.gix_url.specs.ComponentViews.{BorrowedQuery, components};
ghost use Rattle.git_laws.specs.Components.{Components, ComponentsOf};

mod cuts;
mod fields;
mod measure;
mod near;
mod query_texts;
mod same;

use crate::error::Error;
use crate::location::Url;
use bstr::{BStr, BString};
use cuts::EscapedText;
use fields::borrow_query;
use git_location::url_ref::UrlRef;
use git_syntax::home::or_root;
use git_syntax::scheme::SchemeRef;
use std::alloc::{AllocError, Global};

/// The path of a location, with its query and fragment. Escapes are decoded if they are in the location's
/// spelling. [`Url::path_query_fragment`] returns it.
///
/// ```
/// fn fragment_of<'a>(parts: &PathComponents<'a>) -> Option<BStr<'a>> {
///     parts.fragment
/// }
/// ```
#[derive(Debug, Drop)]
pub struct PathComponents<'a> {
    /// The path, without the query and the fragment.
    pub path: BStr<'a>,
    /// The names and values of the query, in order, if there is a query. A field without `=` has an empty
    /// value.
    pub query: Option<Vec<(QueryText<'a>, QueryText<'a>)>>,
    /// The fragment, if there is one.
    pub fragment: Option<BStr<'a>>,
}

/// A name or a value of a query. Two are equal if their bytes are, borrowed or owned.
///
/// ```
/// fn is_empty(value: &QueryText<'_>) -> bool {
///     value.as_bstr().as_bytes().is_empty()
/// }
/// ```
#[derive(Debug, Drop)]
pub enum QueryText<'a> {
    /// A slice of the location's path.
    Borrowed(BStr<'a>),
    /// An owned text, for a piece with a raw `+`, which means a space.
    Owned(BString),
}

impl Url {
    /// The path, the query and the fragment of a location of HTTP, with the delimiters of RFC 3986. For any
    /// other location, the path only.
    ///
    /// The [original path](Url::original_path) is cut first: the query begins after the first `?` that precedes
    /// any `#`, the fragment after the first `#`; `&` separates the fields of the query, and the first `=` of a
    /// field begins its value. Empty fields are skipped. Escapes are decoded afterwards, so `%26` separates
    /// nothing; if the original path is not a spelling, like a path that a program assigned, an escape is
    /// literal text. A raw `+` in a name or a value is a space, as in HTML forms. An empty path is `/`.
    ///
    /// Nothing else is checked: a name may occur twice, the path may have `..`, and any byte may be anywhere.
    ///
    /// The components are borrowed from the location. Allocates once for the list of names and values, if it
    /// isn't empty, and once for each name or value with a raw `+`.
    ///
    /// # Errors
    ///
    /// [`Error::Memory`] if an allocation fails. Without a query, nothing is allocated.
    ///
    /// ```
    /// /// Whether the query asks for the service of this name.
    /// fn asks_for(alloc: Global, url: &Url, service: &[u8]) -> Result<bool, Error> {
    ///     let parts = url.path_query_fragment(alloc)?;
    ///     let Some(query) = &parts.query else {
    ///         return Ok(false);
    ///     };
    ///     for (name, value) in query {
    ///         if name.as_bstr().as_bytes() == b"service".as_slice()
    ///             && value.as_bstr().as_bytes() == service
    ///         {
    ///             return Ok(true);
    ///         }
    ///     }
    ///     Ok(false)
    /// }
    /// ```
    pub fn path_query_fragment(&self, alloc: Global) -> Result<PathComponents<'_>, Error>
        ensures parts { IfOk result (λ c. ComponentsOf self.now (components c)) }
        ensures path { IfOk result
            (λ c. Holds (bstr_bytes c.path) self.now.path ⊎ (bstr_bytes c.path ≡ slash ∷ [])) }
        ensures query { IfOk result (λ c. BorrowedQuery self.now (option_map (λ q. q.items) c.query)) }
        ensures fragment { IfOk result
            (λ c. IfSome c.fragment (λ f. Holds (bstr_bytes f) self.now.path)) }
        ensures memory { IfErr result (λ e. e ≡ Error.Memory) }
        ensures no_query { (c : Components) → ComponentsOf self.now c → c.query ≡ None → IsOk result }
    {
        PathComponents::of(alloc, &self.as_ref())
    }
}

impl<'a> PathComponents<'a> {
    /// The path, the query and the fragment of a borrowed location, like [`Url::path_query_fragment`]. They
    /// live for `'a`.
    ///
    /// # Errors
    ///
    /// [`Error::Memory`] if an allocation fails. Without a query, nothing is allocated.
    ///
    /// ```
    /// fn fragment_of<'a>(alloc: Global, url: &UrlRef<'a>) -> Result<Option<BStr<'a>>, Error> {
    ///     Ok(PathComponents::of(alloc, url)?.fragment)
    /// }
    /// ```
    pub fn of(alloc: Global, url: &UrlRef<'a>) -> Result<PathComponents<'a>, Error>
        ensures parts { IfOk result (λ c. ComponentsOf url.now (components c)) }
        ensures path { IfOk result
            (λ c. Holds (bstr_bytes c.path) url.now.path ⊎ (bstr_bytes c.path ≡ slash ∷ [])) }
        ensures query { IfOk result (λ c. BorrowedQuery url.now (option_map (λ q. q.items) c.query)) }
        ensures fragment { IfOk result
            (λ c. IfSome c.fragment (λ f. Holds (bstr_bytes f) url.now.path)) }
        ensures memory { IfErr result (λ e. e ≡ Error.Memory) }
        ensures no_query { (c : Components) → ComponentsOf url.now c → c.query ≡ None → IsOk result }
    {
        match url.scheme {
            SchemeRef::Http | SchemeRef::Https => web_components(alloc, spelled_path(url)),
            SchemeRef::File
            | SchemeRef::Git
            | SchemeRef::Ssh
            | SchemeRef::Ext
            | SchemeRef::Helper(_)
            | SchemeRef::HelperUrl(_) => Ok(PathComponents {
                path: BStr::new(url.path),
                query: None,
                fragment: None,
            }),
        }
    }
}

/// The path as it is spelled, together with its decoding.
fn spelled_path<'a>(url: &UrlRef<'a>) -> EscapedText<'a>
    ensures { SpellsPath url.now result }
{
    match url.matching_spelling() {
        Some(spelling) => EscapedText::spelling(spelling, url.path),
        None => EscapedText::raw(url.path),
    }
}

/// The path, the query and the fragment of a path of HTTP.
fn web_components<'a>(alloc: Global, whole: EscapedText<'a>) -> Result<PathComponents<'a>, Error>
    ensures borrowed { IfOk result (λ c. BorrowsParts whole.entry.escaped whole.entry.text.now c) }
    ensures memory { IfErr result (λ e. e ≡ Error.Memory) }
    ensures query { IsErr result → HasQuery whole.entry.text.now }
{
    let (front, fragment) = whole.cut_off(b'#');
    let (path, query) = front.cut_off(b'?');
    let query = match query {
        None => None,
        Some(query) => Some(borrow_query(alloc, query)?),
    };
    Ok(PathComponents {
        path: BStr::new(or_root(path.denoted)),
        query,
        fragment: denoted_option(fragment),
    })
}

/// The decoding of the piece, if there is one.
fn denoted_option(piece: Option<EscapedText<'_>>) -> Option<BStr<'_>>
    ensures { option_map bstr_bytes result ≡ option_map (λ p. p.denoted.now) piece.entry }
{
    match piece {
        None => None,
        Some(piece) => Some(BStr::new(piece.denoted)),
    }
}
