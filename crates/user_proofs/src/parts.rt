//! The parts of a location: the guarantees that a program that uses them needs, proved by the contracts of
//! `gix_url` alone.

ghost use Rattle.std.specs.Prelude.{◌≡◌, ◌↔◌, IfErr, IfOk, IsSome, IsTrue, MatchOption, option_map, true};
ghost use Rattle.bstr.specs.Owned.{bstring_bytes};
ghost use Rattle.gix_url.specs.Addresses.{IsIpv6Text};
ghost use Rattle.gix_url.specs.Arguments.{judgement_of, usable_text};
ghost use Rattle.gix_url.specs.ComponentViews.{components};
ghost use Rattle.gix_url.specs.Flaws.{Refused};
ghost use Rattle.gix_url.specs.Grammar.{Spells};
ghost use Rattle.gix_url.specs.Homes.{ForShell};
ghost use Rattle.gix_url.specs.Location.{Location};
ghost use Rattle.gix_url.specs.Views.{judgement};
ghost use Rattle.gix_url.specs.declared.error.Error.TheVariants as error;

use bstr::{BStr, BString};
use gix_url::expand_path::for_shell;
use gix_url::ipv6::is_ipv6;
use gix_url::{ArgumentSafety, Error, PathComponents, Refusal, Url};
use std::alloc::{AllocError, Global};

/// The user as a word of a command. There is none if the location has no user, or one that begins with `-`.
pub fn user_word(url: &Url) -> Option<&str>
    ensures { option_map (λ t. t.now) result ≡ usable_text (judgement_of url.now.user) }
{
    word_of(url.user_as_argument())
}

/// The host as a word of a command. There is none if the location has no host, or one that begins with `-`.
pub fn host_word(url: &Url) -> Option<&str>
    ensures { option_map (λ t. t.now) result ≡ usable_text (judgement_of url.now.host) }
{
    word_of(url.host_as_argument())
}

/// The text, if a command can't read it as an option.
fn word_of(part: ArgumentSafety<'_>) -> Option<&str>
    ensures { option_map (λ t. t.now) result ≡ usable_text (judgement part.entry) }
{
    match part {
        ArgumentSafety::Usable(text) => Some(text),
        ArgumentSafety::Absent | ArgumentSafety::Dangerous(_) => None,
    }
}

/// Whether the location has a password.
pub fn has_password(url: &Url) -> bool
    ensures { IsTrue result ↔ IsSome url.now.password }
{
    url.password().is_some()
}

/// The location, which is then written in the alternative form if it has one. No other field changes.
pub fn in_alternate_form(url: Url) -> Url
    ensures { result ≡ record url { flag = true } }
{
    url.with_request_alternate_form(true)
}

/// The path of a location as a shell takes it.
pub fn path_for_shell(alloc: Global, url: Url) -> Result<BString, Error>
    ensures written { IfOk result (λ text. ForShell url.path (bstring_bytes text)) }
    ensures memory { IfErr result (λ e. e ≡ error.Memory) }
{
    for_shell(alloc, url.path)
}

/// The reason why the bytes spell no location, and its place. There is none if they spell one.
pub fn reason(alloc: Global, bytes: &[u8]) -> Result<Option<Refusal>, AllocError>
    ensures { IfOk result
        (λ found. MatchOption found ((v : Location) × Spells bytes.now v) (Refused bytes.now)) }
{
    match Url::from_bytes(alloc, BStr::new(bytes)) {
        Ok(_) => Ok(None),
        Err(error) => {
            if error.is_memory() {
                Err(AllocError)
            } else {
                Ok(error.refusal())
            }
        }
    }
}

/// A copy of the components, which is equal to them.
pub fn copy_of<'a>(alloc: Global, parts: &PathComponents<'a>) -> Result<PathComponents<'a>, Error>
    ensures { IfOk result (λ copy. components copy ≡ components parts.now) }
{
    parts.clone(alloc)
}

/// Whether a URL has the host in brackets: whether the host is an IPv6 text.
pub fn needs_brackets(host: &str) -> bool
    ensures { IsTrue result ↔ IsIpv6Text host.now }
{
    is_ipv6(host)
}
