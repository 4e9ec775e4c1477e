//! Names and words for a location of HTTP whose text Git's credential code, curl and this library may read differently,
//! by the condition that it doesn't meet.

use crate::marks::suffix;
use gix_url::WebCondition;

/// The name of the unmet condition.
pub(crate) fn name(unmet: Option<WebCondition>) -> &'static str {
    match unmet {
        Some(WebCondition::Settled) => "NotSettled",
        Some(WebCondition::NoZone) => "Zone",
        Some(WebCondition::NoHostColon) => "HostColon",
        Some(WebCondition::HostBytes) => "HostByte",
        Some(WebCondition::LastLabel) => "LastLabel",
        Some(WebCondition::UserControl) => "UserControl",
        Some(WebCondition::UserColon) => "UserColon",
        Some(WebCondition::PasswordControl) => "PasswordControl",
        Some(WebCondition::PasswordColon) => "PasswordColon",
        Some(WebCondition::PathStart) => "PathStart",
        Some(WebCondition::PathSlashes) => "PathSlashes",
        Some(WebCondition::PathControl) => "PathControl",
        Some(WebCondition::NoFragment) => "Fragment",
        Some(WebCondition::NoDotSegment) => "DotSegment",
        Some(WebCondition::NoEmptyQuery) => "EmptyQuery",
        Some(WebCondition::PathBytes) => "PathByte",
        Some(WebCondition::PathColon) => "PathColon",
        None => "Other",
    }
}

/// The effect of the unmet condition on Git, which passes the text to curl, for a location with this host. The words
/// follow Git's name.
pub(crate) fn words(unmet: Option<WebCondition>, host: &str) -> &'static str {
    match unmet {
        Some(WebCondition::Settled) => {
            "may read another place in its text, which is not settled, and so may curl"
        }
        Some(WebCondition::NoZone) => "reads another host than curl: the address has a zone",
        Some(WebCondition::NoHostColon) => "reads another host than curl: the host ends in a colon",
        Some(WebCondition::HostBytes) => {
            "may read another host than curl: the host has an escape or an unusual character"
        }
        Some(WebCondition::LastLabel) => last_label_words(host.as_bytes()),
        Some(WebCondition::UserControl) => {
            "may refuse its text, or curl may: the user has a control character"
        }
        Some(WebCondition::UserColon) => {
            "sends a user that has a colon, and the server takes the rest of it for the password"
        }
        Some(WebCondition::PasswordControl) => {
            "may refuse its text, or curl may: the password has a control character"
        }
        Some(WebCondition::PasswordColon) => {
            "may send another password: the password has a colon and an escape"
        }
        Some(WebCondition::PathStart) => {
            "reads another path than curl: the path does not begin with /"
        }
        Some(WebCondition::PathSlashes) => {
            "reads another path than curl: the path begins with two slashes"
        }
        Some(WebCondition::PathControl) => {
            "may refuse its text, or curl may: the path has a control character"
        }
        Some(WebCondition::NoFragment) => "may read another path than curl: the path has a #",
        Some(WebCondition::NoDotSegment) => {
            "may read another path than curl: the path has a segment . or .."
        }
        Some(WebCondition::NoEmptyQuery) => {
            "may read another path than curl: the path ends in ?"
        }
        Some(WebCondition::PathBytes) => {
            "may read another path than curl: the path has a byte that no URI has"
        }
        Some(WebCondition::PathColon) => {
            "may ask for another path: the path has a colon and an escape"
        }
        None => "may read another place in its text, and so may curl",
    }
}

/// The effect of the host's last label on Git and curl.
fn last_label_words(host: &[u8]) -> &'static str {
    match suffix(host, b".") {
        [] => "may read another host than curl: the host ends in a dot",
        [b'-' | b'_', ..] => {
            "may read another host than curl: the last label of the host begins with - or _"
        }
        _ => "may read another host than curl: the host may be a number",
    }
}
