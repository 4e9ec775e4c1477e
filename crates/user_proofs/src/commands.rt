//! The words of a command of Secure Shell: the guarantees that a program that runs it needs, proved by the contracts of
//! `git_rules` alone.

ghost use Rattle.std.specs.Prelude.{IfErr, IfOk, IfSome, map};
ghost use Rattle.bstr.specs.Owned.{bstring_bytes};
ghost use Rattle.git_rules.specs.SshAnswers.{IsNotBuilt};
ghost use Rattle.git_rules.specs.SecureShell.{service_alone};
ghost use Rattle.git_rules.specs.declared.ssh.ProtocolVersion.TheVariants.{V2};
ghost use Rattle.git_rules.specs.declared.ssh.Service.TheVariants.{UploadPack};
ghost use Rattle.git_rules.specs.declared.ssh.SshVariant.TheVariants.{Ssh};
ghost use Rattle.user_proofs.specs.Commands.{FetchesFrom};

use bstr::BString;
use git_rules::ssh::{ProtocolVersion, Service, SshError, SshVariant, ssh_words};
use gix_url::Url;
use std::alloc::Global;

/// The words after `ssh` with which Git fetches from a location, if it reads the same place in the text; or why there
/// are none.
pub fn words_to_fetch(alloc: Global, url: &Url) -> Result<Option<Vec<BString>>, SshError>
    ensures words { IfOk result (λ words. IfSome words (λ w. FetchesFrom url.now (map bstring_bytes w.items))) }
    ensures refused { IfErr result (IsNotBuilt (service_alone UploadPack Ssh V2) url.now) }
{
    if !url.agrees_with_git() {
        return Ok(None); // of `ssh://github.com/@[evil.com]/a`, for which Git connects to `evil.com`
    }
    let (service, variant) = (Service::UploadPack, SshVariant::Ssh);
    let words = ssh_words(alloc, &url.as_ref(), service, variant, ProtocolVersion::V2)?;
    Ok(Some(words))
}
