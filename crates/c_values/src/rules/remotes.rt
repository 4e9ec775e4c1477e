//! A remote of a configuration. With 102 only the numbers are reported.

ghost use Rattle.std.specs.Prelude.{◌≡◌, ◌++◌, ◌⊎◌, IfOk, OnOk, length, map};
ghost use Rattle.std.specs.List.{concat};
ghost use Rattle.git_rules.specs.Rewrites.{outcome_text};
ghost use Rattle.c_values.specs.Codes.{UnlessMemory, memory, no_room, ok};
ghost use Rattle.c_values.specs.Left.{LeavesLengths, LeavesBuffer};
ghost use Rattle.c_values.specs.RemoteNumbers.{FindsRemote, PutsRemote, ReportsRemote, remote_bytes, remote_lengths, remote_numbers};
ghost use Rattle.c_values.specs.Stops.{LeavesStop, no_stop};

use crate::buffer::write_both;
use crate::codes::MEMORY;
use crate::output::part;
use crate::rules::stops::{NO_VALUE, Stop, no_stop, stop_at};
use git_rules::config::Entry;
use git_rules::remote::{Remote, RemoteError};
use git_rules::rewrite::outcome::Rewritten;
use git_rules::rewrite::{RewriteError, Rewrites};
use std::alloc::{AllocError, Global};

/// The report of `gix_url_c_remote`: numbers, and the lengths of its values in bytes. The caller's buffer
/// has the URLs, and then the values in this order.
#[repr(C)]
#[derive(Clone, Copy)]
pub struct RemoteNumbers {
    /// Whether there is a foreign helper.
    pub has_vcs: bool,
    /// Whether there is a proxy.
    pub has_proxy: bool,
    /// Whether there is a program that serves fetches.
    pub has_uploadpack: bool,
    /// Whether there is a program that takes pushes.
    pub has_receivepack: bool,
    /// The number of URLs to fetch from.
    pub urls: usize,
    /// The number of URLs to push to.
    pub push_urls: usize,
    /// The length of the foreign helper.
    pub vcs: usize,
    /// The length of the proxy.
    pub proxy: usize,
    /// The length of the program that serves fetches.
    pub uploadpack: usize,
    /// The length of the program that takes pushes.
    pub receivepack: usize,
    /// The length of all URLs and values together.
    pub bytes: usize,
}

/// Copies and reports the remote with this name, by the rules of the entries.
pub fn write_named<'a>(
    alloc: Global,
    entries: &[Entry<'a>],
    name: &'a [u8],
    built: &mut RemoteNumbers,
    buffer: &mut [u8],
    lengths: &mut [usize],
    stop: &mut Stop,
) -> u32
    ensures reported { UnlessMemory result (ReportsRemote entries.now name.now
        built.new buffer.old buffer.new lengths.old lengths.new stop.new result) }
    ensures buffer { LeavesBuffer result buffer.old buffer.new }
    ensures lengths { LeavesBuffer result lengths.old lengths.new }
    ensures numbers { LeavesLengths result built.old built.new }
    ensures stop { LeavesStop result stop.new }
{
    *stop = no_stop();
    match Rewrites::from_entries(alloc, entries) {
        Ok(rules) => write_by_rules(alloc, entries, &rules, name, built, buffer, lengths, stop),
        Err(RewriteError::Memory) => MEMORY,
        Err(RewriteError::NoValue { at }) => stop_at(NO_VALUE, at, stop),
    }
}

/// Copies and reports the remote with this name, by these rules.
fn write_by_rules<'a>(
    alloc: Global,
    entries: &[Entry<'a>],
    rules: &Rewrites<'a>,
    name: &'a [u8],
    built: &mut RemoteNumbers,
    buffer: &mut [u8],
    lengths: &mut [usize],
    stop: &mut Stop,
) -> u32
    ensures reported { UnlessMemory result (FindsRemote rules.now entries.now name.now
        built.new buffer.old buffer.new lengths.old lengths.new stop.new result) }
    ensures buffer { LeavesBuffer result buffer.old buffer.new }
    ensures lengths { LeavesBuffer result lengths.old lengths.new }
    ensures numbers { LeavesLengths result built.old built.new }
    ensures stop { LeavesStop result stop.new }
{
    *stop = no_stop();
    match Remote::of(alloc, entries, rules, name) {
        Ok(remote) => write_remote(alloc, &remote, built, buffer, lengths),
        Err(RemoteError::Memory) => MEMORY,
        Err(RemoteError::NoValue { at }) => stop_at(NO_VALUE, at, stop),
    }
}

/// Copies and reports the URLs and values of a remote.
fn write_remote(
    alloc: Global,
    remote: &Remote<'_>,
    built: &mut RemoteNumbers,
    buffer: &mut [u8],
    lengths: &mut [usize],
) -> u32
    ensures reported { UnlessMemory result
        (PutsRemote remote.now built.new buffer.old buffer.new lengths.old lengths.new result) }
    ensures buffer { LeavesBuffer result buffer.old buffer.new }
    ensures lengths { LeavesBuffer result lengths.old lengths.new }
    ensures numbers { LeavesLengths result built.old built.new }
    ensures code { (result ≡ memory) ⊎ ((result ≡ ok) ⊎ (result ≡ no_room)) }
{
    let Ok(bytes) = remote_bytes(alloc, remote) else {
        return MEMORY;
    };
    let Ok(measured) = remote_lengths(alloc, remote) else {
        return MEMORY;
    };
    *built = remote_numbers(remote, bytes.len());
    write_both(&bytes, &measured, buffer, lengths)
}

/// The bytes of the URLs and values of a remote.
fn remote_bytes(alloc: Global, remote: &Remote<'_>) -> Result<Vec<u8>, AllocError>
    ensures { IfOk result (λ bytes. bytes.items ≡ remote_bytes remote.now) }
{
    let mut bytes = Vec::new(alloc);
    append_texts(&mut bytes, &remote.urls)?;
    append_texts(&mut bytes, &remote.push_urls)?;
    bytes.extend_from_slice(part(remote.vcs))?;
    bytes.extend_from_slice(part(remote.proxy))?;
    bytes.extend_from_slice(part(remote.uploadpack))?;
    bytes.extend_from_slice(part(remote.receivepack))?;
    Ok(bytes)
}

/// Appends the rewritten texts.
fn append_texts(bytes: &mut Vec<u8>, outcomes: &[Rewritten<'_>]) -> Result<(), AllocError>
    ensures { OnOk result (bytes.new.items ≡ bytes.old.items ++ concat (map outcome_text outcomes.now)) }
{
    for outcome in outcomes {
        append_text(bytes, outcome)?;
    }
    Ok(())
}

/// Appends a rewritten text.
fn append_text(bytes: &mut Vec<u8>, outcome: &Rewritten<'_>) -> Result<(), AllocError>
    ensures { OnOk result (bytes.new.items ≡ bytes.old.items ++ outcome_text outcome.now) }
{
    bytes.extend_from_slice(part(outcome.base))?;
    bytes.extend_from_slice(outcome.rest)
}

/// The lengths of the URLs of a remote.
fn remote_lengths(alloc: Global, remote: &Remote<'_>) -> Result<Vec<usize>, AllocError>
    ensures { IfOk result (λ lengths. lengths.items ≡ remote_lengths remote.now) }
{
    let mut lengths = Vec::new(alloc);
    append_lengths(&mut lengths, &remote.urls)?;
    append_lengths(&mut lengths, &remote.push_urls)?;
    Ok(lengths)
}

/// Appends the lengths of the rewritten texts.
fn append_lengths(lengths: &mut Vec<usize>, outcomes: &[Rewritten<'_>]) -> Result<(), AllocError>
    ensures { OnOk result (lengths.new.items ≡ lengths.old.items ++ map length (map outcome_text outcomes.now)) }
{
    for outcome in outcomes {
        lengths.push(length_of(outcome))?;
    }
    Ok(())
}

/// The length of a rewritten text.
fn length_of(outcome: &Rewritten<'_>) -> usize
    ensures { result ≡ length (outcome_text outcome.now) }
{
    part(outcome.base).len() + outcome.rest.len()
}

/// The numbers of a remote whose URLs and values have so many bytes.
fn remote_numbers(remote: &Remote<'_>, bytes: usize) -> RemoteNumbers
    requires { bytes ≡ length (remote_bytes remote.now) }
    ensures { result ≡ remote_numbers remote.now }
{
    RemoteNumbers {
        has_vcs: remote.vcs.is_some(),
        has_proxy: remote.proxy.is_some(),
        has_uploadpack: remote.uploadpack.is_some(),
        has_receivepack: remote.receivepack.is_some(),
        urls: remote.urls.len(),
        push_urls: remote.push_urls.len(),
        vcs: part(remote.vcs).len(),
        proxy: part(remote.proxy).len(),
        uploadpack: part(remote.uploadpack).len(),
        receivepack: part(remote.receivepack).len(),
        bytes,
    }
}
