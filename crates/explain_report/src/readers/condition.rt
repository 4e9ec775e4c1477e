//! The conditions under which all programs read the same parts in a text: their names and their words.

use gix_url::unambiguous::Condition;

/// The name of the condition, as in `Condition`.
pub(crate) fn name(unmet: Condition) -> &'static str {
    match unmet {
        Condition::Git => "Git",
        Condition::Escapes => "Escapes",
        Condition::Host => "Host",
        Condition::User => "User",
        Condition::Password => "Password",
        Condition::Port => "Port",
        Condition::PathBytes => "PathBytes",
        Condition::PathStart => "PathStart",
        Condition::DotSegment => "DotSegment",
        Condition::ScpHost => "ScpHost",
        Condition::ScpPath => "ScpPath",
    }
}

/// The reason why programs may read other parts in the text of a location that doesn't meet the condition. The words
/// begin in lower case and have no full stop.
pub(crate) fn words(unmet: Condition) -> &'static str {
    match unmet {
        Condition::Git => "it isn't settled, or Git may read another place in it",
        Condition::Escapes => "the path has an escape",
        Condition::Host => "the host isn't a plain name or four numbers",
        Condition::User => {
            "the user has a byte other than letters, digits and ._~-, or begins with -"
        }
        Condition::Password => "the password has a byte other than letters, digits and ._~-",
        Condition::Port => "the port is 0",
        Condition::PathBytes => "the path has a byte that readers may cut at or change",
        Condition::PathStart => "the path begins in a way that readers may change",
        Condition::DotSegment => "the path has a segment . or ..",
        Condition::ScpHost => "the host is one byte, or the name of a scheme",
        Condition::ScpPath => "the path has no / between two bytes",
    }
}
