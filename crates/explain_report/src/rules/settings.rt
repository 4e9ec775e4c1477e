//! The entries of `http.*` that Git uses for a text of HTTP.

ghost use Rattle.std.specs.Prelude.{IfOk, None, Some, length};
ghost use Rattle.explain_report.specs.Rules.{AreShown};

use crate::rules::config::{Config, Variable};
use crate::rules::setting::Setting;
use git_rules::config::Entry;
use git_rules::normal::{NormalUrl, needed_buffer_len};
use git_rules::pattern::settings::{self, SettingsError};
use std::alloc::{AllocError, Global};

/// Returns the entries that Git uses for a text of HTTP, of each name of `http.*`.
pub fn settings_for(
    alloc: Global,
    config: &Config<'_>,
    text: &[u8],
) -> Result<Vec<Setting>, AllocError> {
    let mut own = vec![in alloc; 0u8; needed_buffer_len(text.len())]?;
    let mut buffer = vec![in alloc; 0u8; config.buffer_len]?;
    let place = NormalUrl::parse_in(text, own.as_mut_slice()).ok();
    let mut found = Vec::new(alloc);
    for variable in &config.http {
        match &place {
            Some(place) => push_used(alloc, &mut found, variable, place, buffer.as_mut_slice())?,
            None => push_used_without_place(alloc, &mut found, variable)?,
        }
    }
    Ok(found)
}

/// Appends the entries of a name of `http.*` that Git uses for a place.
fn push_used(
    alloc: Global,
    found: &mut Vec<Setting>,
    variable: &Variable<'_>,
    place: &NormalUrl<'_>,
    buffer: &mut [u8],
) -> Result<(), AllocError> {
    let entries = variable.entries.as_slice();
    let used = used_of(alloc, entries, variable.name, place, buffer)?;
    push_entries(alloc, found, entries, used.as_slice())
}

/// Appends the entries of a name of `http.*` that Git uses for a text without a normal form.
fn push_used_without_place(
    alloc: Global,
    found: &mut Vec<Setting>,
    variable: &Variable<'_>,
) -> Result<(), AllocError> {
    let entries = variable.entries.as_slice();
    let used = used_without_place(alloc, entries, variable.name)?;
    push_entries(alloc, found, entries, used.as_slice())
}

/// Appends the entries at these indices.
fn push_entries(
    alloc: Global,
    found: &mut Vec<Setting>,
    entries: &[Entry<'_>],
    used: &[usize],
) -> Result<(), AllocError> {
    for i in used {
        if let Some(entry) = entries.get(*i) {
            found.push(Setting::of(alloc, entry)?)?;
        }
    }
    Ok(())
}

/// The indices of the entries of a name of `http.*` that Git uses for a place. There are none if Git stops at one of
/// them.
fn used_of(
    alloc: Global,
    entries: &[Entry<'_>],
    name: &str,
    place: &NormalUrl<'_>,
    buffer: &mut [u8],
) -> Result<Vec<usize>, AllocError>
    ensures { IfOk result
        (λ found. AreShown name.now (Some place.now) (length buffer.old) entries.now found.items) }
{
    match settings::settings_for(alloc, entries, name, place, buffer) {
        Ok(used) => Ok(used),
        Err(SettingsError::Memory) => Err(AllocError),
        Err(SettingsError::NoRoom | SettingsError::NoValue { at: _ }) => Ok(Vec::new(alloc)),
    }
}

/// The indices of the entries that Git uses for a text without a normal form. There are none if Git stops at one of
/// them.
fn used_without_place(
    alloc: Global,
    entries: &[Entry<'_>],
    name: &str,
) -> Result<Vec<usize>, AllocError>
    ensures { IfOk result (λ found. AreShown name.now None 0 entries.now found.items) }
{
    match settings::settings_without_place(alloc, entries, name) {
        Ok(used) => Ok(used),
        Err(SettingsError::Memory) => Err(AllocError),
        Err(SettingsError::NoRoom | SettingsError::NoValue { at: _ }) => Ok(Vec::new(alloc)),
    }
}
