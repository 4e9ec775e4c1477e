//! Hosts that other programs read in a text, if they differ from the host of the location that is parsed from it.
//!
//! A host is returned exactly if it isn't the location's, by one definition (`specs/Misreadings.antt`).

ghost use Rattle.std.specs.Prelude.{◌≡◌, option_map};
ghost use Rattle.std.specs.List.{list_any};
ghost use Rattle.git_rules.specs.SameHost.{names_same};
ghost use Rattle.git_audit.specs.Misreadings.{has_other_host, is_misread, names_own_host, other_host, unless_own};

use git_location::url_ref::UrlRef;
pub use git_readers::groups::Group;
use git_rules::rewrite::host::is_same_host;

/// Every group of readers, in the order of [`Group`]. [`other_host`] has an example.
pub const GROUPS: [Group; 7] = [
    Group::Urls,
    Group::UrlStandard,
    Group::MadeUrls,
    Group::FirstColon,
    Group::FirstAt,
    Group::DigitsArePort,
    Group::FourNumbers,
];

/// Returns the host that the readers of a group find in a text, if it isn't the host of the location that is parsed
/// from it. It is a slice of the text, as [`Group::host_in`] returns it.
///
/// Hosts are compared by `git_rules::rewrite::host::is_same_host`: ignoring letter case, and brackets around them.
/// If the location has no host, like a local path, every host that a group finds is another one. For
/// [`Group::DigitsArePort`] the port is part of the host.
///
/// ```
/// /// The readers that take another host from a text, each group with a line feed after it.
/// fn misreaders(alloc: Global, text: &[u8], url: &UrlRef<'_>) -> Result<String, AllocError> {
///     let mut words = String::new(alloc);
///     for group in GROUPS.iter() {
///         if other_host(text, url, *group).is_some() {
///             words.push_str(group.words())?; // of `h:22/a/b` those that take digits for a port
///             words.push('\n')?;
///         }
///     }
///     Ok(words)
/// }
/// ```
pub fn other_host<'a>(text: &'a [u8], url: &UrlRef<'_>, group: Group) -> Option<&'a [u8]>
    ensures { option_map (λ t. t.now) result ≡ other_host group text.now url.now }
{
    unless_own(url, group.host_in(text))
}

/// Whether the readers of some group find another host in a text than that of the location that is parsed from it.
///
/// If no group does, other programs may still read another host, and so may Git: the groups only cover the known
/// readings of other programs. `gix_url::Url::is_unambiguous` decides whether all readers of a family agree on a
/// text, Git among them.
///
/// ```
/// /// Whether a forge may pass a text on: all readers of a family find the same place in it once it is written, and no
/// /// known reader takes another host from it.
/// fn may_be_passed_on(text: &[u8], buffer: &mut [u8]) -> bool {
///     match UrlRef::parse_in(text, buffer) {
///         Ok(url) => is_unambiguous(&url) && !is_misread(text, &url), // not `ssh://github.com?@evil.com/a/b`
///         Err(_) => false,
///     }
/// }
/// ```
pub fn is_misread(text: &[u8], url: &UrlRef<'_>) -> bool
    ensures { result ≡ is_misread text.now url.now }
{
    is_misread_by(
        text,
        url,
        &[
            Group::Urls,
            Group::UrlStandard,
            Group::MadeUrls,
            Group::FirstColon,
            Group::FirstAt,
            Group::DigitsArePort,
            Group::FourNumbers,
        ],
    )
}

/// Whether the readers of one of these groups find another host.
fn is_misread_by(text: &[u8], url: &UrlRef<'_>, some: &[Group]) -> bool
    ensures { result ≡ list_any (has_other_host text.now url.now) some.now }
{
    some.iter().any(|group| takes_other_host(text, url, *group))
}

/// Whether the readers of the group find another host.
fn takes_other_host(text: &[u8], url: &UrlRef<'_>, group: Group) -> bool
    ensures { result ≡ has_other_host text.now url.now group }
{
    match other_host(text, url, group) {
        None => false,
        Some(_) => true,
    }
}

/// The host, unless it is that of the location.
fn unless_own<'a>(url: &UrlRef<'_>, found: Option<&'a [u8]>) -> Option<&'a [u8]>
    ensures { option_map (λ t. t.now) result ≡ unless_own url.now.host (option_map (λ t. t.now) found.entry) }
{
    match found {
        None => None,
        Some(host) => {
            if names_own_host(url, host) {
                None
            } else {
                Some(host)
            }
        }
    }
}

/// Whether the text names the location's host.
fn names_own_host(url: &UrlRef<'_>, named: &[u8]) -> bool
    ensures { result ≡ names_own_host url.now.host named.now }
{
    match url.host {
        None => false,
        Some(own) => is_same(own.as_bytes(), named),
    }
}

/// Whether both texts name the same host.
fn is_same(own: &[u8], named: &[u8]) -> bool
    ensures { result ≡ names_same own.now named.now }
{
    is_same_host(own, named)
}
