//! Groups of readers that cut remotes differently from Git, and the host that each finds in a text.
//!
//! A group is a way to cut texts. Its programs were tested: in most texts in which such a program finds
//! another host than Git, that host is the group's. `docs/READERS.md` has the numbers, and the hosts in the
//! other texts. Whether a program refuses a text isn't modelled.

ghost use Rattle.std.specs.Prelude.{◌≡◌, option_map};
ghost use Rattle.git_readers.specs.Groups.{group_name, group_words, host_by};

mod cuts;
mod numbers;
mod scp;
mod urls;

use crate::groups::numbers::numbers_of;
use crate::groups::scp::{colon_host, made_host, port_host, user_host};
use crate::groups::urls::{standard_host, url_host};

/// A group of readers that cut remotes in one way, which isn't Git's. `other_host` of `git_audit` has an
/// example.
#[derive(Clone, Copy, PartialEq, Eq, Debug)]
pub enum Group {
    /// Readers of URLs by RFC 3986: an authority ends at `/`, `?` or `#`, its last `@` ends user information,
    /// and its last `:` begins a port. A text that begins with `//` is a relative URL with a host.
    Urls,
    /// Readers of the URL Standard of the WHATWG: over HTTP a `\` is a `/`, and any number of them may follow the
    /// scheme and its colon.
    UrlStandard,
    /// Readers that rewrite the scp form as a URL of Secure Shell, and read that URL.
    MadeUrls,
    /// Readers that end the host at the first `:`, whether a `/` precedes it or not.
    FirstColon,
    /// Readers that end the user at the first `@` of the whole text, and the host at the next `:`.
    FirstAt,
    /// Readers that read digits at the front of the path of an scp form as a port, if a `/` or `:` follows
    /// them. The host is Git's, and the port isn't. go-git accepts at most five digits, and requires a `/` in
    /// the path after them.
    DigitsArePort,
    /// Readers of URLs by RFC 3986 that end a host after four numbers, each followed by a `.`. Boost.URL
    /// accepts numbers up to 255 without leading zeros.
    FourNumbers,
}

impl Group {
    /// The name of the group, in lower case, for programs.
    ///
    /// ```
    /// fn is_named(group: Group, name: &str) -> bool {
    ///     group.name() == name // `first_at` is one
    /// }
    /// ```
    pub fn name(self) -> &'static str
        ensures { result.now ≡ group_name self }
    {
        match self {
            Group::Urls => "urls",
            Group::UrlStandard => "url_standard",
            Group::MadeUrls => "made_urls",
            Group::FirstColon => "first_colon",
            Group::FirstAt => "first_at",
            Group::DigitsArePort => "digits_are_port",
            Group::FourNumbers => "four_numbers",
        }
    }

    /// The readers of the group in a few words, which begin in lower case and have no full stop. `other_host`
    /// of `git_audit` has an example.
    pub fn words(self) -> &'static str
        ensures { result.now ≡ group_words self }
    {
        match self {
            Group::Urls => "readers of URLs (RFC 3986), as Go and Python",
            Group::UrlStandard => "readers of the URL Standard (WHATWG), as Node and Rust",
            Group::MadeUrls => "readers that make a URL of the scp form, as gh and pip",
            Group::FirstColon => "readers that cut at the first colon, as dulwich",
            Group::FirstAt => "readers that cut at the first @, as go-git",
            Group::DigitsArePort =>
                "readers that take digits after the colon for a port, as go-git",
            Group::FourNumbers => "readers that end a host after four numbers, as Boost.URL",
        }
    }

    /// The host that the group finds in a text, undecoded and without brackets, if it finds one. For
    /// [`Group::DigitsArePort`] the result includes the colon and the port, and the host before them may be
    /// empty.
    ///
    /// ```
    /// /// The host that readers of URLs by RFC 3986 find in a text.
    /// fn url_host(text: &[u8]) -> Option<&[u8]> {
    ///     Group::Urls.host_in(text) // `github.com` of `ssh://github.com?@evil.com/a/b`
    /// }
    /// ```
    pub fn host_in(self, text: &[u8]) -> Option<&[u8]>
        ensures { option_map (λ t. t.now) result ≡ host_by self text.now }
    {
        match self {
            Group::Urls => url_host(text),
            Group::UrlStandard => standard_host(text),
            Group::MadeUrls => made_host(text),
            Group::FirstColon => colon_host(text),
            Group::FirstAt => user_host(text),
            Group::DigitsArePort => port_host(text),
            Group::FourNumbers => numbers_of(url_host(text)?),
        }
    }
}
