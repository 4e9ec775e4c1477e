//! The facts about a location that a command line needs, its original path and its port, as numbers.

ghost use Rattle.std.specs.Prelude.{◌≡◌, if◌then◌else◌};
ghost use Rattle.gix_url.specs.Views.{judgement};
ghost use Rattle.gix_url.specs.Text.{original_path};
ghost use Rattle.c_values.specs.Output.{or_nothing};
ghost use Rattle.c_values.specs.SeenLocations.{IsSeenLocation, ReportsSpelling, judgement_number};

use gix_url::{ArgumentSafety, UrlRef};

/// The facts about a location that a command line needs, its original path and its port. `gix_url_c_look`
/// reports them.
#[repr(C)]
#[derive(Clone, Copy)]
pub struct Seen {
    /// The user as an argument of a command: 0 there is none, 1 it is safe, 2 a program may take it for an option.
    pub user: u8,
    /// The host as an argument of a command, with the same numbers.
    pub host: u8,
    /// Whether the path is safe as an argument of a command.
    pub path: bool,
    /// Whether the path is `/`.
    pub is_root: bool,
    /// Whether the original path is the retained spelling; else it is the path.
    pub is_spelled: bool,
    /// Whether the location has a port, or its scheme a default port.
    pub has_port: bool,
    /// That port, if there is one.
    pub port: u16,
}

/// The results for the location.
pub fn look(url: &UrlRef<'_>) -> Seen
    ensures { IsSeenLocation url.now result }
{
    let port = url.port_or_default();
    Seen {
        user: judgement_number(url.user_as_argument()),
        host: judgement_number(url.host_as_argument()),
        path: url.path_argument_safe().is_some(),
        is_root: url.path_is_root(),
        is_spelled: shows_spelling(url),
        has_port: port.is_some(),
        port: port.unwrap_or(0),
    }
}

/// Whether the original path is the retained spelling.
fn shows_spelling(url: &UrlRef<'_>) -> bool
    ensures original { original_path url.now
        ≡ (if result then or_nothing url.now.spelling else url.now.path) }
    ensures spelled { ReportsSpelling url.now result }
{
    match url.spelling {
        None => false,
        Some(spelling) => url.original_path().as_bytes() == spelling,
    }
}

/// The number that says whether a part is safe as an argument.
fn judgement_number(part: ArgumentSafety<'_>) -> u8
    ensures { result ≡ judgement_number (judgement part.entry) }
{
    match part {
        ArgumentSafety::Absent => 0,
        ArgumentSafety::Usable(_) => 1,
        ArgumentSafety::Dangerous(_) => 2,
    }
}
