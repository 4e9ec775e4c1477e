//! Examples of configuration files and of the submodules in them.

use git_modules::config_file;
use git_modules::config_file::flaw::{FileError, Flaw};
use git_modules::submodules::defect::defects_of;
use git_modules::submodules::refusal::check;
use git_modules::submodules::risk::{Risk, has_risk};
use git_modules::submodules::submodules;
use git_rules::config::Entry;
use std::alloc::{AllocError, Global};

/// The first line of a `.gitmodules` file that sets a URL.
fn first_line_of_url(
    alloc: Global,
    text: &[u8],
    buffer: &mut [u8],
) -> Result<Option<usize>, FileError> {
    for found in &config_file::entries(alloc, text, buffer)? {
        if found.entry.sets("submodule", "url") {
            return Ok(Some(found.line));
        }
    }
    Ok(None)
}

/// Whether Git reads the text up to a byte 0 and goes on.
fn is_cut_by_git(error: FileError) -> bool {
    matches!(
        error,
        FileError::Refused {
            flaw: Flaw::ZeroByte,
            at: _,
            line: _
        }
    )
}

/// The URL of the submodule at this path, and the index of the entry that gives it.
fn url_at<'a>(
    alloc: Global,
    entries: &[Entry<'a>],
    path: &[u8],
) -> Result<Option<(&'a [u8], usize)>, AllocError> {
    let mut found = None;
    for submodule in &submodules(alloc, entries)? {
        if let (Some(at), Some(url)) = (submodule.path, submodule.url) {
            if at.value == path {
                found = Some((url.value, url.index));
            }
        }
    }
    Ok(found)
}

/// What fsck says of the entries, by Git's names.
fn reasons(alloc: Global, entries: &[Entry<'_>]) -> Result<Vec<&'static str>, AllocError> {
    let mut found = Vec::new(alloc);
    for entry in entries {
        let refusals = check(entry);
        if let Some(reason) = refusals.name {
            found.push(reason.as_str())?; // of `submodule....url`, whose name is `..`
        }
        if let Some(reason) = refusals.value {
            found.push(reason.as_str())?; // of `submodule.a.url=https:///p`
        }
    }
    Ok(found)
}

/// Whether the entries have no risk in a path.
fn are_paths_safe(entries: &[Entry<'_>]) -> bool {
    for entry in entries {
        if has_risk(entry, Risk::AbsolutePath)
            || has_risk(entry, Risk::PathUpwards)
            || has_risk(entry, Risk::PathIntoGit)
        {
            return false; // of `/a`, of `a/../b` and of `a/.GIT`
        }
    }
    true
}

/// Whether each submodule of the entries has a path of its own and a URL.
fn are_whole(alloc: Global, entries: &[Entry<'_>]) -> Result<bool, AllocError> {
    let found = submodules(alloc, entries)?;
    for it in &defects_of(alloc, found.as_slice())? {
        if it.no_path || it.no_url || it.same_path {
            return Ok(false); // of `submodule.a.path=a` alone
        }
    }
    Ok(true)
}
