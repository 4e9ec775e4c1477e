//! Equality and copies of components, whose names and values are compared by their bytes.
//!
//! A copy borrows from the same texts as the original. Equality allocates nothing; a copy allocates once for
//! the list of a query and once for each owned name or value.

ghost use Rattle.std.specs.Prelude.{◌≡◌, ◌+◌, ◌<◌, ◌≤◌, ◌↔◌, ◌++◌, [], ◌∷◌, IfErr, IfOk, IsOk, IsTrue, bytes_eq, length, map, option_map, true};
ghost use Rattle.std.specs.Cmp.{on_equiv, on_per, partial_equiv_from_equiv};
ghost use Rattle.std.specs.Cmp.Lexicographic.{nat_list_eq_equiv, pointwise};
ghost use Rattle.bstr.specs.BStr.{bstr_bytes};
ghost use Rattle.git_laws.specs.ComponentEquality.{components_eq, components_equiv, pair_eq, query_eq};
ghost use Rattle.git_laws.specs.Order.{text_eq};
ghost use Rattle.gix_url.specs.ComponentViews.{components, is_borrowed, pair_bytes, pair_borrowed, text_bytes, what_is_borrowed};

use crate::components::fields::push_within;
use crate::components::{PathComponents, QueryText};
use crate::error::Error;
use bstr::{BStr, BString};
use std::alloc::{AllocError, Global};

impl<'a> QueryText<'a> {
    /// The bytes of the name or the value. Allocates nothing.
    ///
    /// ```
    /// fn is_empty(value: &QueryText<'_>) -> bool {
    ///     value.as_bstr().as_bytes().is_empty()
    /// }
    /// ```
    pub fn as_bstr(&self) -> BStr<'_>
        ensures { bstr_bytes result ≡ text_bytes self.now }
    {
        match self {
            QueryText::Borrowed(text) => *text,
            QueryText::Owned(text) => text.as_bstr(),
        }
    }

    /// A copy of the name or value: borrowed if this is borrowed, and else owned.
    ///
    /// ```
    /// fn kept<'a>(alloc: Global, value: &QueryText<'a>) -> Result<QueryText<'a>, Error> {
    ///     value.clone(alloc)
    /// }
    /// ```
    ///
    /// # Errors
    ///
    /// [`Error::Memory`] if an allocation for the copy fails. A borrowed text needs none.
    pub fn clone(&self, alloc: Global) -> Result<QueryText<'a>, Error>
        ensures equal { IfOk result (λ copy. text_bytes copy ≡ text_bytes self.now) }
        ensures alike { IfOk result (λ copy. is_borrowed copy ≡ is_borrowed self.now) }
        ensures memory { IfErr result (λ e. e ≡ Error.Memory) }
        ensures borrowed { is_borrowed self.now ≡ true → IsOk result }
    {
        match self {
            QueryText::Borrowed(text) => Ok(QueryText::Borrowed(*text)),
            QueryText::Owned(text) => Ok(QueryText::Owned(BString::from_slice(
                alloc,
                text.as_bytes(),
            )?)),
        }
    }
}

impl<'a> PathComponents<'a> {
    /// A copy of the components. Borrowed texts stay borrowed, owned texts are copied.
    ///
    /// ```
    /// fn both<'a>(alloc: Global, parts: &PathComponents<'a>) -> Result<PathComponents<'a>, Error> {
    ///     parts.clone(alloc)
    /// }
    /// ```
    ///
    /// # Errors
    ///
    /// [`Error::Memory`] if the allocation for the list of the query, or for an owned name or value, fails.
    /// Components without a query need none.
    pub fn clone(&self, alloc: Global) -> Result<PathComponents<'a>, Error>
        ensures equal { IfOk result (λ copy. components copy ≡ components self.now) }
        ensures alike { IfOk result (λ copy. what_is_borrowed copy ≡ what_is_borrowed self.now) }
        ensures memory { IfErr result (λ e. e ≡ Error.Memory) }
        ensures no_query { (components self.now).query ≡ None → IsOk result }
    {
        let query = match &self.query {
            None => None,
            Some(pairs) => Some(copied_pairs(alloc, pairs.as_slice())?),
        };
        Ok(PathComponents {
            path: self.path,
            query,
            fragment: self.fragment,
        })
    }
}

/// A copy of the pairs.
fn copied_pairs<'a>(
    alloc: Global,
    pairs: &[(QueryText<'a>, QueryText<'a>)],
) -> Result<Vec<(QueryText<'a>, QueryText<'a>)>, Error>
    ensures equal { IfOk result (λ copy. map pair_bytes copy.items ≡ map pair_bytes pairs.now) }
    ensures alike { IfOk result (λ copy. map pair_borrowed copy.items ≡ map pair_borrowed pairs.now) }
    ensures memory { IfErr result (λ e. e ≡ Error.Memory) }
{
    let mut copy = Vec::with_capacity(alloc, pairs.len())?;
    for pair in pairs {
        push_within(&mut copy, copied_pair(alloc, pair)?);
    }
    Ok(copy)
}

/// A copy of the pair.
fn copied_pair<'a>(
    alloc: Global,
    pair: &(QueryText<'a>, QueryText<'a>),
) -> Result<(QueryText<'a>, QueryText<'a>), Error>
    ensures equal { IfOk result (λ copy. pair_bytes copy ≡ pair_bytes pair.now) }
    ensures alike { IfOk result (λ copy. pair_borrowed copy ≡ pair_borrowed pair.now) }
    ensures memory { IfErr result (λ e. e ≡ Error.Memory) }
{
    Ok((pair.0.clone(alloc)?, pair.1.clone(alloc)?))
}

impl<'a> PartialEq for QueryText<'a> {
    ghost eq = { λ x y. bytes_eq (text_bytes x) (text_bytes y) };

    ghost laws = { on_per text_bytes (partial_equiv_from_equiv nat_list_eq_equiv) };

    /// Whether the bytes are the same, borrowed or owned.
    fn eq(&self, other: &Self) -> bool {
        self.as_bstr().as_bytes() == other.as_bstr().as_bytes()
    }
}

impl<'a> Eq for QueryText<'a> {
    ghost laws = { on_equiv text_bytes nat_list_eq_equiv };
}

impl<'a> PartialEq for PathComponents<'a> {
    ghost eq = { λ c d. components_eq (components c) (components d) };

    ghost laws = { on_per components (partial_equiv_from_equiv components_equiv) };

    /// Whether path, query and fragment have the same bytes, borrowed or owned.
    fn eq(&self, other: &Self) -> bool {
        self.path.as_bytes() == other.path.as_bytes()
            && are_queries_equal(&self.query, &other.query)
            && are_fragments_equal(self.fragment, other.fragment)
    }
}

impl<'a> Eq for PathComponents<'a> {
    ghost laws = { on_equiv components components_equiv };
}

/// Whether both queries are missing, or both have the same names and values.
fn are_queries_equal(
    first: &Option<Vec<(QueryText<'_>, QueryText<'_>)>>,
    second: &Option<Vec<(QueryText<'_>, QueryText<'_>)>>,
) -> bool
    ensures { result ≡ query_eq (option_map (λ q. map pair_bytes q.items) first.now)
        (option_map (λ q. map pair_bytes q.items) second.now) }
{
    match first {
        None => second.is_none(),
        Some(first) => match second {
            None => false,
            Some(second) => are_pairs_equal(first.as_slice(), second.as_slice()),
        },
    }
}

/// Whether the names and values are the same.
fn are_pairs_equal(
    first: &[(QueryText<'_>, QueryText<'_>)],
    second: &[(QueryText<'_>, QueryText<'_>)],
) -> bool
    ensures { result ≡ pointwise pair_eq (map pair_bytes first.now) (map pair_bytes second.now) }
{
    if first.len() != second.len() {
        return false;
    }
    for at in 0..first.len() {
        if !is_pair_equal(&first[at], &second[at]) {
            return false;
        }
    }
    true
}

/// Whether name and value are the same.
fn is_pair_equal(
    first: &(QueryText<'_>, QueryText<'_>),
    second: &(QueryText<'_>, QueryText<'_>),
) -> bool
    ensures { result ≡ pair_eq (pair_bytes first.now) (pair_bytes second.now) }
{
    first.0 == second.0 && first.1 == second.1
}

/// Whether both fragments are missing, or both have the same bytes.
fn are_fragments_equal(first: Option<BStr<'_>>, second: Option<BStr<'_>>) -> bool
    ensures { result ≡ text_eq (option_map bstr_bytes first.entry)
        (option_map bstr_bytes second.entry) }
{
    match first {
        None => second.is_none(),
        Some(first) => match second {
            None => false,
            Some(second) => first.as_bytes() == second.as_bytes(),
        },
    }
}
