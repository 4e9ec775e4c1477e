//! The host that Git connects to for a line.

ghost use Rattle.std.specs.Prelude.{◌≡◌, ◌≢◌, ◌↔◌, IfOk, IsTrue, MatchResult, false, option_map};
ghost use Rattle.explain_report.specs.GitHosts as spec;

use crate::curl::Curl;
use bstr::BString;
use git_rules::rewrite::host::is_same_host;
use gix_url::transport::{self, Buffers, GitPlace, Protocol, Unread};
use std::alloc::{AllocError, Global};

/// The host that Git connects to.
#[derive(Drop)]
pub(crate) enum GitHost {
    /// Git opens a local path.
    Local,
    /// A host with a name.
    Named(BString),
    /// Git connects to no host, or the host isn't known.
    Unknown,
}

impl GitHost {
    /// The host that Git connects to for this line.
    pub(crate) fn in_line(alloc: Global, line: &[u8]) -> Result<GitHost, AllocError>
        ensures { spec.is_for_curl line.now ≡ false
            → IfOk result (λ host. spec.IsTargetOf line.now (spec.target host)) }
    {
        if is_for_curl(line) {
            GitHost::by_curl(alloc, line)
        } else {
            GitHost::by_transport(alloc, line)
        }
    }

    /// The host that curl connects to, if it is valid text.
    fn by_curl(alloc: Global, line: &[u8]) -> Result<GitHost, AllocError> {
        match Curl::in_text(alloc, line)? {
            None => Ok(GitHost::Unknown),
            Some(read) => {
                let host = GitHost::of_text(alloc, read.host.as_str());
                drop(read);
                host
            }
        }
    }

    /// A host with this name. In the name U+FFFD replaces bytes that aren't valid text.
    fn of_text(alloc: Global, host: &str) -> Result<GitHost, AllocError>
        ensures { IfOk result (λ found. spec.target found ≡ spec.text_target host.now) }
    {
        if has_replacement(host) {
            Ok(GitHost::Unknown)
        } else {
            GitHost::named(alloc, host.as_bytes())
        }
    }

    /// The host that one of Git's transports reads.
    fn by_transport(alloc: Global, line: &[u8]) -> Result<GitHost, AllocError>
        ensures { IfOk result (λ host. spec.IsTargetOf line.now (spec.target host)) }
    {
        let mut buffers = Buffers::new(alloc);
        let found = GitHost::read_in(alloc, line, &mut buffers);
        drop(buffers);
        found
    }

    /// The host that one of Git's transports reads, with these buffers.
    fn read_in(alloc: Global, line: &[u8], buffers: &mut Buffers) -> Result<GitHost, AllocError>
        ensures { IfOk result (λ host. spec.IsTargetOf line.now (spec.target host)) }
    {
        match transport::reading(line, buffers) {
            Ok(place) => GitHost::of_place(alloc, &place),
            Err(why) => GitHost::of_unread(why),
        }
    }

    /// The host of a place that Git reads.
    fn of_place(alloc: Global, place: &GitPlace<'_>) -> Result<GitHost, AllocError>
        ensures { IfOk result (λ host. spec.target host ≡ spec.target_of place.now) }
    {
        match (place.protocol, place.host) {
            (Protocol::File, _) => Ok(GitHost::Local),
            (Protocol::Ssh | Protocol::Git, Some(host)) => GitHost::named(alloc, host),
            (Protocol::Ssh | Protocol::Git, None) => Ok(GitHost::Unknown),
        }
    }

    /// No known host, since Git reads no place in the line. An error means that memory was refused.
    fn of_unread(why: Unread) -> Result<GitHost, AllocError>
        ensures { MatchResult result (λ host. (why ≢ Unread.Memory) × (spec.target host ≡ spec.unknown))
            (λ _. why ≡ Unread.Memory) }
    {
        match why {
            Unread::Memory => Err(AllocError),
            Unread::ByteZero
            | Unread::Option
            | Unread::RemoteHelper
            | Unread::HomeOrHere
            | Unread::SecureShellUrl
            | Unread::Refused => Ok(GitHost::Unknown),
        }
    }

    /// A host with this name.
    fn named(alloc: Global, host: &[u8]) -> Result<GitHost, AllocError>
        ensures { IfOk result (λ found. spec.target found ≡ spec.named host.now) }
    {
        Ok(GitHost::Named(BString::from_slice(alloc, host)?))
    }

    /// Whether this is the host, or `host` is `None` and Git opens a local path.
    pub(crate) fn is_host(&self, host: Option<&str>) -> bool
        ensures { IsTrue result ↔ spec.IsTarget (option_map (λ name. name.now) host.entry) (spec.target self.now) }
    {
        match (self, host) {
            (GitHost::Local, None) => true,
            (GitHost::Named(found), Some(host)) => {
                is_same_host(found.as_bytes(), host.as_bytes())
            }
            (GitHost::Local, Some(_)) | (GitHost::Named(_), None) | (GitHost::Unknown, _) => false,
        }
    }
}

/// Whether U+FFFD is in the text.
fn has_replacement(text: &str) -> bool
    ensures { result ≡ spec.has_replacement text.now }
{
    text.chars().any(|character| character == '\u{fffd}')
}

/// Whether Git passes the line to curl.
fn is_for_curl(line: &[u8]) -> bool
    ensures { result ≡ spec.is_for_curl line.now }
{
    line.starts_with(b"http://") || line.starts_with(b"https://")
}
