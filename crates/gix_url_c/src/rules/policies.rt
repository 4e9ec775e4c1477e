//! The exports for the transport of a text, and for whether Git may use it.

ghost use Rattle.std.specs.Prelude.{◌≡◌, IsUtf8};
ghost use Rattle.c_values.specs.Codes.{UnlessMemory, UnlessNone, memory};
ghost use Rattle.c_values.specs.Entries.{entries_passed};
ghost use Rattle.c_values.specs.Input.{present};
ghost use Rattle.c_values.specs.Left.{LeavesBuffer};
ghost use Rattle.c_values.specs.PolicyNumbers.{ReportsPermission, ReportsTransport, permission_numbers, policy_passed, transport_number};

use c_values::buffer::write_text;
use c_values::codes::{MEMORY, NO_LOCATION, OK};
use c_values::input::present;
use c_values::rules::entries::{EntryBytes, entries_of};
use c_values::rules::policies::{
    PermissionNumbers, PolicyBytes, permission_numbers, transport_number,
};
use git_rules::protocols::Protocols;
use git_rules::protocols::text::transport_of;
use std::alloc::Global;

/// Copies the name of the transport that Git uses for a text to the buffer, and reports its length:
/// [`git_rules::protocols::text::transport_of`]. If the text has no transport, the length is 0, the buffer is
/// unchanged, and `why` is the reason: 1 to 4. Otherwise `why` is 0.
///
/// Returns 0, or 102 if the name doesn't fit.
#[unsafe(no_mangle)]
pub extern "C" fn gix_url_c_transport(
    text: &[u8],
    buffer: &mut [u8],
    len: &mut usize,
    why: &mut u8,
) -> u32
    ensures reported { ReportsTransport text.now buffer.old buffer.new len.new why.new result }
    ensures buffer { LeavesBuffer result buffer.old buffer.new }
    ensures no_memory { ¬ (result ≡ memory) }
{
    match transport_of(text) {
        Ok(name) => {
            *why = 0;
            write_text(name.as_bytes(), buffer, len)
        }
        Err(reason) => {
            *why = transport_number(reason);
            *len = 0;
            OK
        }
    }
}

/// Reports whether Git uses the transport with this name: [`git_rules::protocols::Protocols::permission`].
///
/// Returns 0; 1 if memory is refused; 101 if the name isn't UTF-8.
#[unsafe(no_mangle)]
pub extern "C" fn gix_url_c_permission(
    alloc: Global,
    entries: &[EntryBytes<'_>],
    policy: &PolicyBytes<'_>,
    name: &[u8],
    built: &mut PermissionNumbers,
) -> u32
    ensures reported { UnlessNone result (¬ IsUtf8 name.now) (UnlessMemory result
        (ReportsPermission (policy_passed (entries_passed entries.now) policy.now) name.now built.new result)) }
    ensures left { LeavesBuffer result built.old built.new }
{
    let Ok(name) = str::from_utf8(name) else {
        return NO_LOCATION;
    };
    let Ok(entries) = entries_of(alloc, entries) else {
        return MEMORY;
    };
    let protocols = Protocols {
        entries: &entries,
        allow_list: present(policy.has_allow_list, policy.allow_list),
        from_user: present(policy.has_from_user, policy.from_user),
    };
    *built = permission_numbers(protocols.permission(name));
    OK
}
