//! The fields of a query, in two passes: the first counts them, so that their list is allocated once.
//!
//! A query whose escapes are literal is iterated over without its decoding.

ghost use Rattle.std.specs.Prelude.{◌≡◌, ◌==◌, ◌+◌, ◌≤◌, ◌<◌, ◌++◌, [], ◌∷◌, IfOk, IsTrue, OnOk, false, length, vec_capacity, vec_len};
ghost use Rattle.git_syntax.specs.Bytes.{FreeOf, ampersand, plus_sign};
ghost use Rattle.gix_url.specs.Internal.ComponentPieces.{AddsBorrowed, AddsPair, BorrowsFields, begun_by, begun_in, ends_in, field_count, one_field};

use super::QueryText;
use crate::components::cuts::EscapedText;
use crate::components::near::cut_near;
use crate::components::query_texts::{borrow_pair, borrowed_pair};
use git_syntax::bytes::is_free_of;
use std::alloc::{AllocError, Global};

/// The length of the pieces in which fields are counted, so that a count fits into one byte.
const PIECE: usize = 255;

/// The names and values of the query.
pub(super) fn borrow_query<'a>(
    alloc: Global,
    query: EscapedText<'a>,
) -> Result<Vec<(QueryText<'a>, QueryText<'a>)>, AllocError>
    ensures { IfOk result
        (λ pairs. BorrowsFields query.entry.escaped query.entry.text.now pairs.items) }
{
    if query.escaped {
        borrow_spelled(alloc, query)
    } else {
        borrow_raw(alloc, query.text)
    }
}

/// The names and values of a query whose escapes are decoded.
fn borrow_spelled<'a>(
    alloc: Global,
    query: EscapedText<'a>,
) -> Result<Vec<(QueryText<'a>, QueryText<'a>)>, AllocError>
    ensures { IfOk result
        (λ pairs. BorrowsFields query.entry.escaped query.entry.text.now pairs.items) }
{
    let mut pairs = Vec::with_capacity(alloc, count_fields(query.text))?;
    let plain = is_free_of(query.text, b'+');
    let mut rest = query;
    while let Some((field, suffix)) = rest.cut_near(b'&') {
        push_field(alloc, &mut pairs, field, plain)?;
        rest = suffix;
    }
    push_field(alloc, &mut pairs, rest, plain)?;
    Ok(pairs)
}

/// The names and values of a query whose escapes are literal text.
fn borrow_raw<'a>(
    alloc: Global,
    query: &'a [u8],
) -> Result<Vec<(QueryText<'a>, QueryText<'a>)>, AllocError>
    ensures { IfOk result (λ pairs. BorrowsFields false query.now pairs.items) }
{
    let mut pairs = Vec::with_capacity(alloc, count_fields(query))?;
    let plain = is_free_of(query, b'+');
    let mut rest = query;
    while let Some((field, suffix)) = cut_near(rest, b'&') {
        push_field(alloc, &mut pairs, EscapedText::raw(field), plain)?;
        rest = suffix;
    }
    push_field(alloc, &mut pairs, EscapedText::raw(rest), plain)?;
    Ok(pairs)
}

/// Appends the name and the value of the field to the pairs, within their capacity, unless the field is empty.
/// If the field is known to have no `+`, it is not searched for one.
#[inline(always)]
fn push_field<'a>(
    alloc: Global,
    pairs: &mut Vec<(QueryText<'a>, QueryText<'a>)>,
    field: EscapedText<'a>,
    plain: bool,
) -> Result<(), AllocError>
    requires reserved { vec_len pairs.old + one_field field.text.now ≤ vec_capacity pairs.old }
    requires plain { IsTrue plain → FreeOf plus_sign field.text.now }
    ensures pairs { OnOk result
        (AddsPair field.entry.escaped field.entry.text.now pairs.old.items pairs.new.items) }
    ensures len { OnOk result
        (vec_len pairs.new ≡ vec_len pairs.old + one_field field.entry.text.now) }
    ensures capacity { vec_capacity pairs.old ≤ vec_capacity pairs.new }
{
    if field.text.is_empty() {
        return Ok(());
    }
    if lacks_plus(field.text, plain) {
        push_within(pairs, borrowed_pair(field));
        return Ok(());
    }
    push_made(alloc, pairs, field)
}

/// Appends the name and the value of a field to the pairs, within their capacity. It is a separate function, so
/// that the loop over the fields need not clear the memory of its results.
#[inline(never)]
fn push_made<'a>(
    alloc: Global,
    pairs: &mut Vec<(QueryText<'a>, QueryText<'a>)>,
    field: EscapedText<'a>,
) -> Result<(), AllocError>
    requires { vec_len pairs.old < vec_capacity pairs.old }
    ensures pairs { OnOk result
        (AddsBorrowed field.entry.escaped field.entry.text.now pairs.old.items pairs.new.items) }
    ensures len { OnOk result (vec_len pairs.new ≡ vec_len pairs.old + 1) }
    ensures capacity { vec_capacity pairs.old ≤ vec_capacity pairs.new }
{
    let pair = borrow_pair(alloc, field)?;
    push_within(pairs, pair);
    Ok(())
}

/// Whether the field has no `+`, which may be known.
#[inline(always)]
fn lacks_plus(field: &[u8], known: bool) -> bool
    requires { IsTrue known → FreeOf plus_sign field.now }
    ensures { IsTrue result → FreeOf plus_sign field.now }
{
    known || is_free_of(field, b'+')
}

/// Appends the name and the value to the pairs, within their capacity.
#[inline(always)]
pub(super) fn push_within<'a>(
    pairs: &mut Vec<(QueryText<'a>, QueryText<'a>)>,
    pair: (QueryText<'a>, QueryText<'a>),
)
    requires { vec_len pairs.old < vec_capacity pairs.old }
    ensures items { pairs.new.items ≡ pairs.old.items ++ pair.entry ∷ [] }
    ensures len { vec_len pairs.new ≡ vec_len pairs.old + 1 }
    ensures capacity { vec_capacity pairs.old ≤ vec_capacity pairs.new }
{
    let pushed = pairs.push(pair);
    prove!(pushed.is_ok());
    let _ = pushed;
}

/// The number of fields that are not empty. They are counted in short pieces of the query, whose counts fit
/// into one byte.
fn count_fields(query: &[u8]) -> usize
    ensures { result ≡ field_count query.now }
{
    let mut count = 0;
    let mut before = b'&';
    let mut rest = query;
    while PIECE < rest.len() {
        let (piece, suffix) = rest.split_at(PIECE);
        let (begun, last) = count_begun(before, piece);
        count += usize::from(begun);
        before = last;
        rest = suffix;
    }
    count + usize::from(count_begun(before, rest).0)
}

/// The number of nonempty fields that begin in a piece after the byte `before`, and the last of these bytes.
fn count_begun(before: u8, piece: &[u8]) -> (u8, u8)
    requires { length piece.now ≤ 255 }
    ensures count { result.0 ≡ begun_in (before == ampersand) piece.now }
    ensures small { result.0 ≤ length piece.now }
    ensures last { (result.1 == ampersand) ≡ ends_in (before == ampersand) piece.now }
{
    let mut count = 0;
    let mut last = before;
    for byte in piece {
        count += begun_by(last, *byte);
        last = *byte;
    }
    (count, last)
}

/// The number of nonempty fields that begin with the byte: 1 if it is the first after an `&`.
#[inline(always)]
fn begun_by(before: u8, byte: u8) -> u8
    ensures { result ≡ begun_by (before == ampersand) (byte == ampersand) }
{
    if before == b'&' && byte != b'&' { 1 } else { 0 }
}
