//! Addresses of web pages about a part of a repository, as forges write them.

ghost use Rattle.std.specs.Prelude.{◌≡◌, option_map};
ghost use Rattle.explain_report.specs.Marks.{is_among, some_passes};
ghost use Rattle.explain_report.specs.WebPages as spec;

use crate::marks::{before, halves, is_among};

/// Whether a path of HTTP names a page about a part of a repository, as forges write it. Either the path without query
/// and fragment has `/-/` followed by a page segment of GitLab; or the host is one of the forges, and two segments are
/// followed by one of their lists, or by a segment of their details and another segment.
pub(crate) fn is_page(host: Option<&str>, path: &[u8]) -> bool
    ensures { result ≡ spec.is_page (option_map (λ h. h.now) host.entry) path.now }
{
    let path = path_alone(path);
    is_page_of_gitlab(path) || (is_forge(host) && is_page_of_forge(path))
}

/// The path without its query and its fragment.
fn path_alone(path: &[u8]) -> &[u8]
    ensures { result.now ≡ spec.path_alone path.now }
{
    before(before(path, b"?"), b"#")
}

/// Whether the host is that of a forge at which each repository has a path of two segments.
fn is_forge(host: Option<&str>) -> bool
    ensures { result ≡ some_passes (is_among spec.forges) (option_map (λ h. h.now) host.entry) }
{
    match host {
        Some(host) => is_among(
            host.as_bytes(),
            &[
                "github.com",
                "codeberg.org",
                "gitea.com",
                "bitbucket.org",
                "git.sr.ht",
            ],
        ),
        None => false,
    }
}

/// Whether the first `/-/` precedes the name of a page.
fn is_page_of_gitlab(path: &[u8]) -> bool
    ensures { result ≡ spec.is_page_of_gitlab path.now }
{
    match halves(path, b"/-/") {
        Some((_, rest)) => is_named_by_gitlab(before(rest, b"/")),
        None => false,
    }
}

/// Whether a segment is one of GitLab's pages.
fn is_named_by_gitlab(segment: &[u8]) -> bool
    ensures { result ≡ is_among spec.pages_of_gitlab segment.now }
{
    is_among(
        segment,
        &[
            "tree",
            "blob",
            "raw",
            "blame",
            "commit",
            "commits",
            "compare",
            "merge_requests",
            "issues",
            "tags",
            "branches",
            "releases",
            "pipelines",
            "wikis",
        ],
    )
}

/// Whether the path names a page after an owner and a repository.
fn is_page_of_forge(path: &[u8]) -> bool
    ensures { result ≡ spec.is_page_of_forge path.now }
{
    let [b'/', path @ ..] = path else {
        return false;
    };
    match halves(path, b"/") {
        Some((owner, rest)) => !owner.is_empty() && is_below_owner(rest),
        None => false,
    }
}

/// Whether a path below an owner names a page after a repository.
fn is_below_owner(path: &[u8]) -> bool
    ensures { result ≡ spec.is_below_owner path.now }
{
    match halves(path, b"/") {
        Some((repository, rest)) => !repository.is_empty() && is_name_of_page(rest),
        None => false,
    }
}

/// Whether the first segment is one of the lists, or one of the details and another segment follows it.
fn is_name_of_page(path: &[u8]) -> bool
    ensures { result ≡ spec.is_name_of_page path.now }
{
    if is_list(before(path, b"/")) {
        return true;
    }
    match halves(path, b"/") {
        Some((kind, rest)) => begins_segment(rest) && is_detail(kind),
        None => false,
    }
}

/// Whether a text begins with a byte other than `/`.
fn begins_segment(rest: &[u8]) -> bool
    ensures { result ≡ spec.begins_segment rest.now }
{
    match rest {
        [first, ..] => *first != b'/',
        [] => false,
    }
}

/// Whether a segment names a list at a forge, and may be the last one.
fn is_list(segment: &[u8]) -> bool
    ensures { result ≡ is_among spec.lists segment.now }
{
    is_among(
        segment,
        &[
            "pulls",
            "pull-requests",
            "issues",
            "releases",
            "tags",
            "branches",
            "commits",
            "actions",
            "wiki",
            "refs",
        ],
    )
}

/// Whether a segment names a detail at a forge, and needs another segment after it.
fn is_detail(segment: &[u8]) -> bool
    ensures { result ≡ is_among spec.details segment.now }
{
    is_among(
        segment,
        &[
            "tree", "blob", "raw", "blame", "edit", "pull", "commit", "compare", "src", "branch",
            "log", "item",
        ],
    )
}
