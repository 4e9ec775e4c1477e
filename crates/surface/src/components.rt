//! The components of paths. A name or a value is a `QueryText`, in place of `Cow<BStr>`.

use bstr::{BStr, BString};
use gix_url::{Error, PathComponents, QueryText, Url};
use std::alloc::Global;

/// The names and values of a query.
pub type Query<'a> = Vec<(QueryText<'a>, QueryText<'a>)>;

/// Components, destructured and rebuilt.
pub fn same_components(components: PathComponents<'_>) -> PathComponents<'_> {
    let PathComponents {
        path,
        query,
        fragment,
    } = components;
    components_of(path, query, fragment)
}

/// The components of these parts.
pub fn components_of<'a>(
    path: BStr<'a>,
    query: Option<Query<'a>>,
    fragment: Option<BStr<'a>>,
) -> PathComponents<'a> {
    PathComponents {
        path,
        query,
        fragment,
    }
}

/// A name or a value, destructured and rebuilt.
pub fn same_text(text: QueryText<'_>) -> QueryText<'_> {
    match text {
        QueryText::Borrowed(text) => borrowed(text),
        QueryText::Owned(text) => owned(text),
    }
}

/// A borrowed name or value.
pub fn borrowed(text: BStr<'_>) -> QueryText<'_> {
    QueryText::Borrowed(text)
}

/// An owned name or value.
pub fn owned<'a>(text: BString) -> QueryText<'a> {
    QueryText::Owned(text)
}

/// Calls `Url::path_query_fragment`.
pub fn path_query_fragment(url: &Url, alloc: Global) -> Result<PathComponents<'_>, Error> {
    Url::path_query_fragment(url, alloc)
}

/// Calls `PathComponents::clone`.
pub fn copied<'a>(
    components: &PathComponents<'a>,
    alloc: Global,
) -> Result<PathComponents<'a>, Error> {
    PathComponents::clone(components, alloc)
}

/// Calls `QueryText::clone`.
pub fn copied_text<'a>(text: &QueryText<'a>, alloc: Global) -> Result<QueryText<'a>, Error> {
    QueryText::clone(text, alloc)
}

/// Calls `QueryText::as_bstr`.
pub fn as_bstr<'b>(text: &'b QueryText<'_>) -> BStr<'b> {
    QueryText::as_bstr(text)
}
