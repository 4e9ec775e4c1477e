//! The law that a URL that doesn't climb stays at the place of its parent.

ghost use Rattle.git_modules.specs.ResolveLaws.{SamePlace, SamePlaceOfScp};

/// A relative URL that doesn't climb is resolved to the place of its parent.
///
/// Suppose that [`climbs`](super::climbs) is false for a relative URL and its parent, and that the parent is parsed
/// as a location. If the resolved text is also parsed as a location, both have the same scheme, user, password,
/// host and port.
///
/// - `url`: this holds if the parent is a URL, `scheme://authority/path`.
/// - `scp`: this holds if the parent has the scp form, without a `[` in its user and its host, and the rest of the
///   resolved URL begins with neither `/` nor `:`. Git refuses most of those in a `.gitmodules` that it fetches.
///   `.//b/c` against `h:/` doesn't climb, and is resolved to `h://b/c`.
///
/// The law is about the locations that this library parses. It doesn't cover parents that are paths, or that are
/// for a remote helper: for these a resolved text may have another form than its parent.
pub fn law_same_place()
    ensures url { SamePlace }
    ensures scp { SamePlaceOfScp }
{}
