//! Parts of locations as arguments of commands.

use bstr::BStr;
use gix_url::{ArgumentSafety, Url};

/// A judgement of a part as an argument, destructured and rebuilt.
pub fn same_safety(safety: ArgumentSafety<'_>) -> ArgumentSafety<'_> {
    match safety {
        ArgumentSafety::Absent => ArgumentSafety::Absent,
        ArgumentSafety::Usable(text) => usable(text),
        ArgumentSafety::Dangerous(text) => dangerous(text),
    }
}

/// A part that is safe as an argument of a command.
pub fn usable(text: &str) -> ArgumentSafety<'_> {
    ArgumentSafety::Usable(text)
}

/// A part that a command may take for an option.
pub fn dangerous(text: &str) -> ArgumentSafety<'_> {
    ArgumentSafety::Dangerous(text)
}

/// Calls `Url::user_as_argument`.
pub fn user_as_argument(url: &Url) -> ArgumentSafety<'_> {
    Url::user_as_argument(url)
}

/// Calls `Url::host_as_argument`.
pub fn host_as_argument(url: &Url) -> ArgumentSafety<'_> {
    Url::host_as_argument(url)
}

/// Calls `Url::user_argument_safe`.
pub fn user_argument_safe(url: &Url) -> Option<&str> {
    Url::user_argument_safe(url)
}

/// Calls `Url::host_argument_safe`.
pub fn host_argument_safe(url: &Url) -> Option<&str> {
    Url::host_argument_safe(url)
}

/// Calls `Url::path_argument_safe`.
pub fn path_argument_safe(url: &Url) -> Option<BStr<'_>> {
    Url::path_argument_safe(url)
}
