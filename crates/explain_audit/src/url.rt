//! The findings about the URL of a submodule.

ghost use Rattle.std.specs.Prelude.{◌≡◌, IfOk, option_map};
ghost use Rattle.bstr.specs.Owned.{bstring_bytes};
ghost use Rattle.explain_audit.specs.Resolved.{text_against};

use crate::item::{Item, add, add_text};
use crate::kind::Kind;
use bstr::BString;
use git_modules::resolve::{is_relative, resolve};
use gix_url::Url;
use std::alloc::{AllocError, Global};

/// The URL of the superproject, and its location.
#[derive(Clone, Copy)]
pub struct Parent<'a> {
    pub text: &'a [u8],
    pub url: &'a Url,
}

/// Appends the findings about the URL of a submodule. If the URL is relative, they are about the text to which it is
/// resolved.
pub fn add_url(
    alloc: Global,
    found: &mut Vec<Item>,
    url: &[u8],
    parent: Option<Parent<'_>>,
) -> Result<(), AllocError> {
    if !is_relative(url) {
        return add_text(alloc, found, url, None);
    }
    match parent {
        None => add(alloc, found, Kind::NoParent),
        Some(parent) => add_relative(alloc, found, url, parent),
    }
}

/// Appends the findings about the text to which a relative URL is resolved.
fn add_relative(
    alloc: Global,
    found: &mut Vec<Item>,
    url: &[u8],
    parent: Parent<'_>,
) -> Result<(), AllocError> {
    match resolve(parent.text, url) {
        Err(error) => add(alloc, found, Kind::Unresolved(error)),
        Ok(resolved) => {
            let text = resolved.to_bstring(alloc)?;
            let added = add_text(alloc, found, text.as_bytes(), Some(parent.url));
            drop(text);
            added
        }
    }
}

/// Returns the text to which a URL is resolved, if it is relative, the parent is given, and Git resolves it.
pub fn resolved(
    alloc: Global,
    url: &[u8],
    parent: Option<Parent<'_>>,
) -> Result<Option<BString>, AllocError>
    ensures { IfOk result (λ text. option_map bstring_bytes text
        ≡ text_against (option_map (λ it. it.text.now) parent.entry) url.now) }
{
    let Some(parent) = parent else {
        return Ok(None);
    };
    if !is_relative(url) {
        return Ok(None);
    }
    match resolve(parent.text, url) {
        Err(_) => Ok(None),
        Ok(resolved) => Ok(Some(resolved.to_bstring(alloc)?)),
    }
}
