//! The settings of Git's credential code in a configuration, for a URL. With 102 only the numbers are reported.

ghost use Rattle.std.specs.Prelude.{◌≡◌, ◌⊎◌};
ghost use Rattle.git_reads.specs.Views.{credential_reading};
ghost use Rattle.c_values.specs.Codes.{UnlessMemory, no_room, ok};
ghost use Rattle.c_values.specs.CredentialNumbers.{FindsCredentials, PutsCredentials, ReportsCredentials, no_credentials};
ghost use Rattle.c_values.specs.Left.{LeavesLengths, LeavesBuffer};
ghost use Rattle.c_values.specs.Stops.{LeavesStop, no_stop};

use crate::buffer::write_both;
use crate::codes::{MEMORY, OK};
use crate::output::part;
use crate::rules::stops::{NO_BOOLEAN, NO_VALUE, Stop, no_stop, stop_at};
use git_rules::config::Entry;
use git_rules::credentials::{Credentials, CredentialsError, credentials_for};
use gix_url::credential::{Buffers, Request, reading};
use std::alloc::Global;

/// The report of `gix_url_c_credentials`: numbers, and the length of the user. The caller's buffer has the
/// user.
#[repr(C)]
#[derive(Clone, Copy)]
pub struct CredentialNumbers {
    /// Whether Git's credential code reads a request in the URL. If not, all else is 0.
    pub is_read: bool,
    /// Whether there is a user.
    pub has_user: bool,
    /// Whether helpers get the path of a URL of HTTP.
    pub use_http_path: bool,
    /// The number of helpers.
    pub helpers: usize,
    /// The length of the user.
    pub user: usize,
}

/// Copies and reports the settings that Git uses for a text.
pub fn write_for_text(
    alloc: Global,
    entries: &[Entry<'_>],
    text: &[u8],
    built: &mut CredentialNumbers,
    buffer: &mut [u8],
    indices: &mut [usize],
    stop: &mut Stop,
) -> u32
    ensures reported { UnlessMemory result (ReportsCredentials entries.now text.now
        built.new buffer.old buffer.new indices.old indices.new stop.new result) }
    ensures buffer { LeavesBuffer result buffer.old buffer.new }
    ensures indices { LeavesBuffer result indices.old indices.new }
    ensures numbers { LeavesLengths result built.old built.new }
    ensures stop { LeavesStop result stop.new }
{
    *stop = no_stop();
    let mut buffers = Buffers::new(alloc);
    match reading(text, &mut buffers) {
        Ok(Some(request)) => write_for_request(
            alloc, entries, &request, built, buffer, indices, stop,
        ),
        Ok(None) => {
            *built = no_credentials();
            OK
        }
        Err(_) => MEMORY,
    }
}

/// Copies and reports the settings that Git uses for a request.
fn write_for_request(
    alloc: Global,
    entries: &[Entry<'_>],
    request: &Request<'_>,
    built: &mut CredentialNumbers,
    buffer: &mut [u8],
    indices: &mut [usize],
    stop: &mut Stop,
) -> u32
    ensures reported { UnlessMemory result (FindsCredentials (credential_reading request.now) entries.now
        built.new buffer.old buffer.new indices.old indices.new stop.new result) }
    ensures buffer { LeavesBuffer result buffer.old buffer.new }
    ensures indices { LeavesBuffer result indices.old indices.new }
    ensures numbers { LeavesLengths result built.old built.new }
    ensures stop { LeavesStop result stop.new }
{
    *stop = no_stop();
    match credentials_for(alloc, entries, request) {
        Ok(found) => write_credentials(&found, built, buffer, indices),
        Err(CredentialsError::Memory) => MEMORY,
        Err(CredentialsError::NoValue { at }) => stop_at(NO_VALUE, at, stop),
        Err(CredentialsError::NoBoolean { at }) => stop_at(NO_BOOLEAN, at, stop),
    }
}

/// Copies and reports the user and the indices of the helpers.
fn write_credentials(
    found: &Credentials<'_>,
    built: &mut CredentialNumbers,
    buffer: &mut [u8],
    indices: &mut [usize],
) -> u32
    ensures reported { PutsCredentials found.now built.new buffer.old buffer.new indices.old indices.new result }
    ensures buffer { LeavesBuffer result buffer.old buffer.new }
    ensures indices { LeavesBuffer result indices.old indices.new }
    ensures numbers { LeavesLengths result built.old built.new }
    ensures code { (result ≡ ok) ⊎ (result ≡ no_room) }
{
    *built = CredentialNumbers {
        is_read: true,
        has_user: found.user.is_some(),
        use_http_path: found.use_http_path,
        helpers: found.helpers.len(),
        user: part(found.user).len(),
    };
    write_both(part(found.user), &found.helpers, buffer, indices)
}

/// The numbers of a text in which Git's credential code reads nothing.
fn no_credentials() -> CredentialNumbers
    ensures { result ≡ no_credentials }
{
    CredentialNumbers {
        is_read: false,
        has_user: false,
        use_http_path: false,
        helpers: 0,
        user: 0,
    }
}
