//! Resolution of a submodule's URL against the URL of the superproject's remote.
//!
//! The resolved URL is the text that Git stores, and there is an error exactly if Git stops. `climbs` is true
//! exactly if the URL leaves the path of its parent. `step` reads the steps `./` and `../`, `left` computes the
//! rest of a parent after them, and `root` the part of a parent that a URL keeps unless it climbs.

ghost use Rattle.std.specs.Prelude.{◌≡◌, option_map};
ghost use Rattle.git_rules.specs.Patterns as pattern;
ghost use Rattle.git_modules.specs.Resolve.{join, resolution};
ghost use Rattle.git_modules.specs.ResolveRoots as spec;
ghost use Rattle.git_modules.specs.ResolveRoots.{keeps_root, root_of, text_left};
ghost use Rattle.git_modules.specs.ResolveSteps as steps;

pub mod law;
mod left;
pub mod outcome;
mod root;
mod step;

use crate::resolve::left::{Left, left_of};
use crate::resolve::outcome::Resolved;
use crate::resolve::root::root_of;
use crate::resolve::step::{after_here, after_up};
use git_syntax::bytes::before;
use thiserror::Error;

/// The reason why Git doesn't resolve a URL. [`resolve`] has an example.
#[derive(Clone, Copy, Debug, PartialEq, Eq, Error)]
pub enum ResolveError {
    /// The URL is relative, and the parent is empty.
    #[error("the URL of the remote is empty")]
    EmptyParent,
    /// The URL has more `../` than the parent has elements that Git can remove.
    #[error("the URL of the remote has too few elements")]
    NothingLeft,
}

/// Whether Git resolves a URL: whether it begins with `./` or `../`.
///
/// ```
/// /// How many of the URLs depend on where the superproject is fetched from.
/// fn relative(urls: &[&[u8]]) -> usize {
///     let mut count: usize = 0;
///     for url in urls {
///         if is_relative(url) {
///             count = count.saturating_add(1); // of `../b` and `./b`, and not of `b`
///         }
///     }
///     count
/// }
/// ```
pub fn is_relative(url: &[u8]) -> bool
    ensures { result ≡ steps.is_relative url.now }
{
    after_here(url).is_some() || after_up(url).is_some()
}

/// Returns the URL that `git submodule init` stores for a submodule, in `submodule.<name>.url`.
///
/// `url` is the URL of the submodule in `.gitmodules`. `parent` is the configured URL of the superproject's remote:
/// the last value of `remote.<name>.url`, to which no `url.<base>.insteadOf` is applied. The name is that of the
/// remote of the current branch, or `origin`. If the remote has no URL, Git takes the path of the superproject's
/// folder. The rules are those of `relative_url` in `remote.c` of Git 2.39.5:
///
/// 1. A URL that begins with neither `./` nor `../` stays unchanged, whatever the parent is.
/// 2. One trailing `/` of the parent is ignored. The parent is then a relative path if it doesn't begin with `/`
///    and has no colon before its first `/`. A leading `./` of a relative path is also ignored.
/// 3. Each leading `../` of the URL removes the last `/` of the parent and the text after it. If there is no `/`,
///    it removes the last `:` and the text after it, and the URL is then joined by `:`. If there is neither, it
///    removes all of the parent, unless that is `.`. A relative path isn't split at a colon: its last element is
///    all of it. Each `./` among the `../` is skipped.
/// 4. The resolved URL is the rest of the parent, the `/` or `:`, and the text after the steps in the URL, without
///    one trailing `/`. If nothing is left of the parent, it is the text after the steps, with `.:` before it if a
///    colon was removed.
///
/// So `./c` against the parent `./a:b`, a path, is `a:b/c`, which is a remote in the scp form.
///
/// The time is at most proportional to the number of `../` times the length of the parent.
///
/// ```
/// /// Whether all readers fetch a submodule from the host of the superproject; none where Git stores no URL, or
/// /// a URL isn't read, or is longer than 1,024 bytes.
/// fn stays_on_host(alloc: Global, parent: &[u8], url: &[u8]) -> Result<Option<bool>, AllocError> {
///     let Ok(resolved) = resolve(parent, url) else {
///         return Ok(None); // of `a`, `../../b`
///     };
///     let text = resolved.to_bstring(alloc)?; // `https://h/b` of `https://h/a`, `../b`
///     let mut buffer = [0u8; 1024];
///     let mut other = [0u8; 1024];
///     let Ok(from) = UrlRef::parse_in(parent, &mut buffer) else {
///         return Ok(None);
///     };
///     let Ok(to) = UrlRef::parse_in(text.as_bytes(), &mut other) else {
///         return Ok(None);
///     };
///     let alike = is_unambiguous(&from) && is_unambiguous(&to);
///     Ok(Some(alike && names_same_host(&from, &to)))
/// }
/// ```
///
/// # Errors
///
/// - [`ResolveError::EmptyParent`]: the URL is relative, and the parent is empty. Git aborts.
/// - [`ResolveError::NothingLeft`]: a `../` finds nothing to remove. All of the parent is already removed, or `.`
///   is left of a parent that isn't a relative path, or no `/` is left in one that begins with `../`. Git stops
///   with "cannot strip one component off url".
pub fn resolve<'a>(parent: &'a [u8], url: &'a [u8]) -> Result<Resolved<'a>, ResolveError>
    ensures { result ≡ resolution parent.now url.now }
{
    if !is_relative(url) {
        return Ok(Resolved {
            front: b"",
            separator: b"",
            rest: url,
        });
    }
    if parent.is_empty() {
        return Err(ResolveError::EmptyParent);
    }
    match left_of(parent, url) {
        None => Err(ResolveError::NothingLeft),
        Some((left, rest)) => Ok(join(&left, without_last_slash(rest))),
    }
}

/// Joins the rest of a parent and the rest of a URL.
fn join<'a>(left: &Left<'a>, rest: &'a [u8]) -> Resolved<'a>
    ensures { result ≡ join left.now.text left.now.by_colon rest.now }
{
    match (left.text, left.by_colon) {
        (Some(front), false) => Resolved {
            front,
            separator: b"/",
            rest,
        },
        (Some(front), true) => Resolved {
            front,
            separator: b":",
            rest,
        },
        (None, false) => Resolved {
            front: b"",
            separator: b"",
            rest,
        },
        (None, true) => Resolved {
            front: b".",
            separator: b":",
            rest,
        },
    }
}

/// The text without one trailing `/`.
fn without_last_slash(text: &[u8]) -> &[u8]
    ensures { result.now ≡ pattern.without_last_slash text.now }
{
    match before(text, b'/') {
        None => text,
        Some(front) => front,
    }
}

/// Whether a relative URL leaves the path of its parent: the rest of the parent doesn't begin with the parent's
/// root, or nothing is left.
///
/// The root of a URL is `scheme://authority`. In the scp form it is the text before the colon of the host, with the
/// colon if the path is absolute; that colon is the first one outside brackets. The root of a path is empty. A URL
/// that climbs may name another host: `../../h/b` against `https://example.com/a` is resolved to `https://h/b`, and
/// `../h:b` against the path `a` to `h:b`. If Git stores no URL for a relative URL, the URL climbs, or its parent
/// is empty.
///
/// ```
/// /// Whether a submodule is taken from where the superproject is, as far as its URL says.
/// fn is_below(parent: &[u8], url: &[u8]) -> bool {
///     is_relative(url) && !climbs(parent, url)
/// }
/// ```
pub fn climbs(parent: &[u8], url: &[u8]) -> bool
    ensures { result ≡ spec.climbs parent.now url.now }
{
    is_relative(url) && !keeps(parent, url)
}

/// Whether the rest of the parent begins with its root.
fn keeps(parent: &[u8], url: &[u8]) -> bool
    ensures { result ≡ keeps_root (root_of parent.now) (text_left parent.now url.now) }
{
    match left_text(parent, url) {
        None => false,
        Some(text) => begins_with(text, root_of(parent)),
    }
}

/// Whether the text begins with this front.
fn begins_with(text: &[u8], front: &[u8]) -> bool
    ensures { result ≡ keeps_root front.now (Some text.now) }
{
    text.starts_with(front)
}

/// The rest of the text of a parent, if any.
fn left_text<'a>(parent: &'a [u8], url: &[u8]) -> Option<&'a [u8]>
    ensures { option_map (λ t. t.now) result ≡ text_left parent.now url.now }
{
    let (left, _) = left_of(parent, url)?;
    left.text
}
