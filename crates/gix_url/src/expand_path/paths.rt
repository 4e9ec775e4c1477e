//! Paths as text: their pieces, the parent of a path, and a path below a folder.
//!
//! The contracts are about pieces and concatenations, so no caller sees an index. A parent is a front of the
//! text; a joined path is appended in place.

ghost use Rattle.std.specs.Prelude.{◌≡◌, ◌++◌, List, ℕ, OnOk, string_bytes};
ghost use Rattle.std.specs.Option.{option_copied};
ghost use Rattle.git_syntax.specs.Bytes.{slash};
ghost use Rattle.git_syntax.specs.Internal.Cuts.{CutsAt, CutsAtLast};
ghost use Rattle.git_syntax.specs.Grammar.{or_root};
ghost use Rattle.gix_url.specs.HomeReadings.{CutsSegment, UpToLast};
ghost use Rattle.gix_url.specs.Paths.{IsParent, Joins, LiesBelow, Opens, WithoutFirst, counts};

use git_syntax::bytes::{before, starts_with_byte};
use std::alloc::AllocError;

/// The texts before and after the first `/`.
fn first_slash(text: &str) -> Option<(&str, &str)>
    ensures { CutsAt slash text.now result }
{
    text.split_once('/')
}

/// The texts before and after the last `/`.
fn last_slash(text: &str) -> Option<(&str, &str)>
    ensures { CutsAtLast slash text.now result }
{
    text.rsplit_once('/')
}

/// The first segment, and the text after the `/` that ends it, if one does.
fn first_segment(text: &str) -> (&str, Option<&str>)
    ensures { CutsSegment text.now result.0 result.1 }
{
    match first_slash(text) {
        Some((segment, suffix)) => (segment, Some(suffix)),
        None => (text, None),
    }
}

/// Whether a segment counts, because it is neither empty nor `.`.
fn counts(segment: &str) -> bool
    ensures { result ≡ counts segment.now }
{
    match segment.as_bytes() {
        [] => false,
        [only] => *only != b'.',
        _ => true,
    }
}

/// The front that ends with the last piece, or the empty text.
fn up_to_last(text: &str) -> &str
    ensures { UpToLast text.now result.now }
{
    let mut front = text;
    while let Some((before, segment)) = last_slash(front) {
        if counts(segment) {
            return front;
        }
        front = before;
    }
    front
}

/// The text, or `/` in place of an empty one.
fn or_root(text: &str) -> &str
    ensures { result.now ≡ or_root text.now }
{
    if text.is_empty() { "/" } else { text }
}

/// The parent of a path.
pub(super) fn parent(path: &str) -> Option<&str>
    ensures { IsParent path.now (option_copied result) }
{
    let whole = up_to_last(path);
    match last_slash(whole) {
        Some((above, _)) => Some(or_root(up_to_last(above))),
        None => { if whole.is_empty() { None } else { Some("") } }
    }
}

/// Appends the `/` between a folder and its contents, unless the folder ends with one.
fn push_slash(folder: &mut String) -> Result<(), AllocError>
    ensures { OnOk result (Opens (string_bytes folder.old) (string_bytes folder.new)) }
{
    if folder.is_empty() {
        return Ok(());
    }
    match before(folder.as_bytes(), b'/') {
        Some(_) => Ok(()),
        None => {
            folder.push('/')?;
            Ok(())
        }
    }
}

/// Joins a path to a folder.
pub(super) fn push_path(folder: &mut String, path: &str) -> Result<(), AllocError>
    ensures { OnOk result (Joins (string_bytes folder.old) path.now (string_bytes folder.new)) }
{
    if starts_with_byte(path.as_bytes(), b'/') {
        folder.clear();
        folder.push_str(path)?;
        return Ok(());
    }
    push_slash(folder)?;
    folder.push_str(path)?;
    Ok(())
}

/// Appends the pieces after the first segment, with a `/` between each two.
fn push_pieces(out: &mut String, path: &str) -> Result<(), AllocError>
    ensures { OnOk result
        ((rest : List ℕ) × WithoutFirst path.now rest
        × (string_bytes out.new ≡ string_bytes out.old ++ rest)) }
{
    let (_, mut rest) = first_segment(path);
    let mut separator = "";
    while let Some(suffix) = rest {
        let (segment, more) = first_segment(suffix);
        rest = more;
        if !counts(segment) {
            continue;
        }
        out.push_str(separator)?;
        out.push_str(segment)?;
        separator = "/";
    }
    Ok(())
}

/// Joins a path without its first component to a folder.
pub(super) fn push_below(folder: &mut String, path: &str) -> Result<(), AllocError>
    ensures { OnOk result (LiesBelow (string_bytes folder.old) path.now (string_bytes folder.new)) }
{
    push_slash(folder)?;
    push_pieces(folder, path)?;
    Ok(())
}
