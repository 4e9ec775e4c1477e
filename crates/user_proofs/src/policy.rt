//! The transports that Git uses: the guarantee that a program that fetches needs, proved by the contracts of
//! `git_rules` alone.

ghost use Rattle.std.specs.Prelude.{IfOk};
ghost use Rattle.gix_url.specs.Schemes.{scheme_text};
ghost use Rattle.user_proofs.specs.Policy.{DecidesUse};

use git_rules::config::{Entry, entries_of};
use git_rules::protocols::{Protocols, law_section, transport};
use gix_url::Url;
use std::alloc::{AllocError, Global};

/// Whether Git uses the transport of a location, by all entries of a configuration, if no variable of the
/// environment is set.
pub fn is_used(alloc: Global, entries: &[Entry<'_>], url: &Url) -> Result<bool, AllocError>
    ensures { IfOk result (DecidesUse entries.now (scheme_text url.now.scheme)) }
{
    law_section();
    let of_protocol = entries_of(alloc, entries, "protocol")?;
    Ok(is_used_by(&of_protocol, url))
}

/// Whether Git uses the transport of a location, by these entries.
fn is_used_by(entries: &[Entry<'_>], url: &Url) -> bool
    ensures { DecidesUse entries.now (scheme_text url.now.scheme) result }
{
    let protocols = Protocols {
        entries,
        allow_list: None,
        from_user: None,
    };
    protocols.permission(transport(&url.as_ref())).is_allowed()
}
