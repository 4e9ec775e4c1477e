//! The other host that each group of readers takes from a line. Hosts are compared as `is_same_host` compares them.

ghost use Rattle.std.specs.Prelude.{◌≡◌, option_map};
ghost use Rattle.std.specs.List.{list_all, list_any};
ghost use Rattle.git_audit.specs.Misreadings.{names_own_host, unless_own};
ghost use Rattle.explain_report.specs.Hosts.{names_same, takes, takes_none};

use git_audit::misreading::{Group, other_host};
use git_rules::rewrite::host::is_same_host;
use gix_url::UrlRef;

/// The number of groups.
pub(crate) const GROUPS: usize = 7;

/// A group of readers, and the other host that it takes, if any.
#[derive(Clone, Copy)]
pub(crate) struct Taken<'a> {
    pub(crate) group: Group,
    pub(crate) host: Option<&'a [u8]>,
}

impl<'a> Taken<'a> {
    /// The host that a group takes from a line which is read as this location, unless it is the location's host.
    fn beside_location(line: &'a [u8], url: &UrlRef<'_>, group: Group) -> Taken<'a> {
        Taken {
            group,
            host: other_host(line, url, group),
        }
    }

    /// The host that a group takes from a line, unless it is this one.
    fn beside_host(line: &'a [u8], own: Option<&[u8]>, group: Group) -> Taken<'a> {
        Taken {
            group,
            host: unless_own(own, group.host_in(line)),
        }
    }

    /// Whether the group takes this host.
    pub(crate) fn has(&self, host: &[u8]) -> bool
        ensures { result ≡ takes host.now self.now }
    {
        match self.host {
            None => false,
            Some(taken) => is_same(taken, host),
        }
    }
}

/// The host, unless it is this one.
fn unless_own<'a>(own: Option<&[u8]>, found: Option<&'a [u8]>) -> Option<&'a [u8]>
    ensures { option_map (λ t. t.now) result
        ≡ unless_own (option_map (λ t. t.now) own.entry) (option_map (λ t. t.now) found.entry) }
{
    match found {
        None => None,
        Some(host) => { if is_own(own, host) { None } else { Some(host) } }
    }
}

/// Whether there is an own host, and the text names the same host.
fn is_own(own: Option<&[u8]>, host: &[u8]) -> bool
    ensures { result ≡ names_own_host (option_map (λ t. t.now) own.entry) host.now }
{
    match own {
        None => false,
        Some(own) => is_same(own, host),
    }
}

/// Whether both texts name the same host.
fn is_same(own: &[u8], named: &[u8]) -> bool
    ensures { result ≡ names_same own.now named.now }
{
    is_same_host(own, named)
}

/// The hosts that the groups take from a line which is read as this location.
pub(crate) fn beside_location<'a>(line: &'a [u8], url: &UrlRef<'_>) -> [Taken<'a>; GROUPS] {
    [
        Taken::beside_location(line, url, Group::Urls),
        Taken::beside_location(line, url, Group::UrlStandard),
        Taken::beside_location(line, url, Group::MadeUrls),
        Taken::beside_location(line, url, Group::FirstColon),
        Taken::beside_location(line, url, Group::FirstAt),
        Taken::beside_location(line, url, Group::DigitsArePort),
        Taken::beside_location(line, url, Group::FourNumbers),
    ]
}

/// The hosts that the groups take from a line for which Git connects to this host, or to none.
pub(crate) fn beside_host<'a>(line: &'a [u8], own: Option<&[u8]>) -> [Taken<'a>; GROUPS] {
    [
        Taken::beside_host(line, own, Group::Urls),
        Taken::beside_host(line, own, Group::UrlStandard),
        Taken::beside_host(line, own, Group::MadeUrls),
        Taken::beside_host(line, own, Group::FirstColon),
        Taken::beside_host(line, own, Group::FirstAt),
        Taken::beside_host(line, own, Group::DigitsArePort),
        Taken::beside_host(line, own, Group::FourNumbers),
    ]
}

/// Whether no group takes another host.
pub(crate) fn is_none(taken: &[Taken<'_>]) -> bool
    ensures { result ≡ list_all takes_none taken.now }
{
    taken.iter().all(|it| it.host.is_none())
}

/// Whether one of these groups takes this host.
pub(crate) fn has(taken: &[Taken<'_>], host: &[u8]) -> bool
    ensures { result ≡ list_any (takes host.now) taken.now }
{
    taken.iter().any(|it| it.has(host))
}
