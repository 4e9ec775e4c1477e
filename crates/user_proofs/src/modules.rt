//! The submodules of a repository: the guarantees that a program that lists them needs, proved by the
//! contracts of `git_modules` alone.

ghost use Rattle.std.specs.Prelude.{◌≡◌, ◌≢◌, IfErr, IfOk, List, MatchOption, length, option_map};
ghost use Rattle.std.specs.Result.{result_ok};
ghost use Rattle.bstr.specs.Owned.{bstring_bytes};
ghost use Rattle.git_modules.specs.ConfigFiles.{HasFileEntries};
ghost use Rattle.git_modules.specs.Resolve.{resolution, resolved_text};
ghost use Rattle.git_modules.specs.SubmoduleChecks.{IsRefused, git_name};
ghost use Rattle.git_modules.specs.declared.config_file.FileEntry.{FileEntry};
ghost use Rattle.git_modules.specs.declared.config_file.flaw.FileError.TheVariants as error;
ghost use Rattle.git_modules.specs.declared.submodules.refusal.Refused.{Refused};
ghost use Rattle.git_modules.specs.declared.submodules.refusal.Refused.TheVariants as refused;

use bstr::BString;
use git_modules::config_file::entries;
use git_modules::config_file::flaw::FileError;
use git_modules::resolve::resolve;
use git_modules::submodules::refusal::check;
use git_rules::config::Entry;
use std::alloc::{AllocError, Global};

/// The number of entries of a configuration file. An error is that of the text, or a failed allocation.
pub fn count_entries(alloc: Global, text: &[u8]) -> Result<usize, FileError>
    ensures counted { IfOk result (λ count. (found : List FileEntry)
        × HasFileEntries text.now found × (count ≡ length found)) }
    ensures buffer { IfErr result (λ e. e ≢ error.ShortBuffer) }
{
    let mut buffer = vec![in alloc; 0u8; text.len()]?;
    let found = entries(alloc, text, buffer.as_mut_slice())?;
    Ok(found.len())
}

/// The name of the message that `git fsck` prints for the value of an entry of a `.gitmodules` file. There is
/// none if it accepts the value.
pub fn message_of(entry: &Entry<'_>) -> Option<&'static str>
    ensures { MatchOption result
        ((reason : Refused) → reason ≢ refused.Name → ¬ IsRefused entry.now reason)
        (λ word. (reason : Refused) × (word.now ≡ git_name reason) × IsRefused entry.now reason) }
{
    let reason = check(entry).value?;
    Some(reason.as_str())
}

/// The URL that Git stores for a submodule, by the URL of the superproject's remote and its own. There is
/// none if Git stops.
pub fn url_against(alloc: Global, parent: &[u8], url: &[u8]) -> Result<Option<BString>, AllocError>
    ensures { IfOk result (λ stored. option_map bstring_bytes stored
        ≡ option_map resolved_text (result_ok (resolution parent.now url.now))) }
{
    let Ok(resolved) = resolve(parent, url) else {
        return Ok(None);
    };
    let text = resolved.to_bstring(alloc)?;
    Ok(Some(text))
}
