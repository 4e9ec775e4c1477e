//! What Git's transports and its credential code read in a text. With 102 only the numbers are reported.

ghost use Rattle.std.specs.Prelude.{◌≡◌, ◌⊎◌};
ghost use Rattle.git_reads.specs.Views.{credential_reading, git_reading, scheme_of_protocol};
ghost use Rattle.c_values.specs.Codes.{UnlessMemory, memory, no_room, ok};
ghost use Rattle.c_values.specs.Left.{LeavesLengths, LeavesBuffer};
ghost use Rattle.c_values.specs.ReadingNumbers.{PutsPlace, PutsRequest, ReportsUnread, no_request, place_numbers, protocol_number, request_numbers, unread_number, unread_numbers};

use crate::buffer::put;
use crate::codes::{MEMORY, OK};
use crate::output::part;
use crate::rules::pieces::joined;
use gix_url::credential::Request;
use gix_url::transport::{GitPlace, Protocol, Unread};
use std::alloc::Global;

/// The place that Git reads: numbers, and the lengths of its parts in bytes. The caller's buffer has the
/// parts in this order. `gix_url_c_git_reading` reports it.
#[repr(C)]
#[derive(Clone, Copy)]
pub struct PlaceNumbers {
    /// Why Git reads no place: 1 to 6, and then all else is 0; 0 if it reads one.
    pub why: u8,
    /// The transport: 1 Secure Shell, 2 that of `git://`, 3 a path of this machine.
    pub protocol: u8,
    /// Whether there is a user.
    pub has_user: bool,
    /// Whether there is a host.
    pub has_host: bool,
    /// Whether there is a port.
    pub has_port: bool,
    /// The port, or 0.
    pub port: u16,
    /// The length of the user.
    pub user: usize,
    /// The length of the host.
    pub host: usize,
    /// The length of the path.
    pub path: usize,
}

/// The request of Git's credential code to helpers: numbers, and the lengths of its parts in bytes. The
/// caller's buffer has the parts in this order. `gix_url_c_credential_reading` reports it.
#[repr(C)]
#[derive(Clone, Copy)]
pub struct RequestNumbers {
    /// Whether there is a request. If not, all else is 0.
    pub is_read: bool,
    /// Whether there is a user.
    pub has_user: bool,
    /// Whether there is a password.
    pub has_password: bool,
    /// Whether there is a path.
    pub has_path: bool,
    /// The length of the protocol.
    pub protocol: usize,
    /// The length of the user.
    pub user: usize,
    /// The length of the password.
    pub password: usize,
    /// The length of the host.
    pub host: usize,
    /// The length of the path.
    pub path: usize,
}

/// Reports why Git reads no place, or returns that memory was refused.
pub fn tell_unread(why: Unread, built: &mut PlaceNumbers) -> u32
    ensures reported { UnlessMemory result (ReportsUnread why built.new result) }
    ensures numbers { LeavesLengths result built.old built.new }
{
    match why {
        Unread::Memory => MEMORY,
        Unread::ByteZero | Unread::Option | Unread::RemoteHelper => {
            *built = unread_numbers(unread_number(why));
            OK
        }
        Unread::HomeOrHere | Unread::SecureShellUrl | Unread::Refused => {
            *built = unread_numbers(unread_number(why));
            OK
        }
    }
}

/// Copies and reports the parts of a place.
pub fn write_place(
    alloc: Global,
    place: &GitPlace<'_>,
    built: &mut PlaceNumbers,
    buffer: &mut [u8],
) -> u32
    ensures reported { UnlessMemory result (PutsPlace (git_reading place.now) built.new buffer.old buffer.new result) }
    ensures buffer { LeavesBuffer result buffer.old buffer.new }
    ensures numbers { LeavesLengths result built.old built.new }
    ensures code { (result ≡ memory) ⊎ ((result ≡ ok) ⊎ (result ≡ no_room)) }
{
    match joined(alloc, &[part(place.user), part(place.host), place.path]) {
        Ok(bytes) => {
            *built = place_numbers(place);
            put(&bytes, buffer)
        }
        Err(_) => MEMORY,
    }
}

/// Copies and reports the parts of a request.
pub fn write_request(
    alloc: Global,
    request: &Request<'_>,
    built: &mut RequestNumbers,
    buffer: &mut [u8],
) -> u32
    ensures reported { UnlessMemory result
        (PutsRequest (credential_reading request.now) built.new buffer.old buffer.new result) }
    ensures buffer { LeavesBuffer result buffer.old buffer.new }
    ensures numbers { LeavesLengths result built.old built.new }
    ensures code { (result ≡ memory) ⊎ ((result ≡ ok) ⊎ (result ≡ no_room)) }
{
    let (user, password, path) = (
        part(request.user),
        part(request.password),
        part(request.path),
    );
    match joined(
        alloc,
        &[request.protocol, user, password, request.host, path],
    ) {
        Ok(bytes) => {
            *built = request_numbers(request);
            put(&bytes, buffer)
        }
        Err(_) => MEMORY,
    }
}

/// The numbers of a place.
fn place_numbers(place: &GitPlace<'_>) -> PlaceNumbers
    ensures { result ≡ place_numbers (git_reading place.now) }
{
    PlaceNumbers {
        why: 0,
        protocol: protocol_number(place.protocol),
        has_user: place.user.is_some(),
        has_host: place.host.is_some(),
        has_port: place.port.is_some(),
        port: place.port.unwrap_or(0),
        user: part(place.user).len(),
        host: part(place.host).len(),
        path: place.path.len(),
    }
}

/// The number of a transport.
fn protocol_number(protocol: Protocol) -> u8
    ensures { result ≡ protocol_number (scheme_of_protocol protocol) }
{
    match protocol {
        Protocol::Ssh => 1,
        Protocol::Git => 2,
        Protocol::File => 3,
    }
}

/// The number of the reason why Git reads no place; 0 if memory was refused.
fn unread_number(why: Unread) -> u8
    ensures { result ≡ unread_number why }
{
    match why {
        Unread::Memory => 0,
        Unread::ByteZero => 1,
        Unread::Option => 2,
        Unread::RemoteHelper => 3,
        Unread::HomeOrHere => 4,
        Unread::SecureShellUrl => 5,
        Unread::Refused => 6,
    }
}

/// The numbers of a text without a place, for this reason.
fn unread_numbers(why: u8) -> PlaceNumbers
    ensures { result ≡ unread_numbers why }
{
    PlaceNumbers {
        why,
        protocol: 0,
        has_user: false,
        has_host: false,
        has_port: false,
        port: 0,
        user: 0,
        host: 0,
        path: 0,
    }
}

/// The numbers of a request.
fn request_numbers(request: &Request<'_>) -> RequestNumbers
    ensures { result ≡ request_numbers (credential_reading request.now) }
{
    RequestNumbers {
        is_read: true,
        has_user: request.user.is_some(),
        has_password: request.password.is_some(),
        has_path: request.path.is_some(),
        protocol: request.protocol.len(),
        user: part(request.user).len(),
        password: part(request.password).len(),
        host: request.host.len(),
        path: part(request.path).len(),
    }
}

/// The numbers of a text without a request.
pub fn no_request() -> RequestNumbers
    ensures { result ≡ no_request }
{
    RequestNumbers {
        is_read: false,
        has_user: false,
        has_password: false,
        has_path: false,
        protocol: 0,
        user: 0,
        password: 0,
        host: 0,
        path: 0,
    }
}
