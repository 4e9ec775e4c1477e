//! Transports that Git may use, by numbers.

ghost use Rattle.std.specs.Prelude.{◌≡◌};
ghost use Rattle.c_values.specs.PolicyNumbers.{permission_numbers, reason_place, decider_number, transport_number};

use git_rules::protocols::text::NoTransport;
use git_rules::protocols::{Permission, Reason};

/// Two environment variables, as `gix_url_c_permission` takes them. The bytes of a variable that isn't set
/// are ignored.
#[repr(C)]
#[derive(Clone, Copy)]
pub struct PolicyBytes<'a> {
    /// `GIT_ALLOW_PROTOCOL`.
    pub allow_list: &'a [u8],
    /// `GIT_PROTOCOL_FROM_USER`.
    pub from_user: &'a [u8],
    /// Whether `GIT_ALLOW_PROTOCOL` is set.
    pub has_allow_list: bool,
    /// Whether `GIT_PROTOCOL_FROM_USER` is set.
    pub has_from_user: bool,
}

/// Whether Git uses a transport, and the variable or entry that decides. `gix_url_c_permission` reports it.
#[repr(C)]
#[derive(Clone, Copy)]
pub struct PermissionNumbers {
    /// 1 Git uses it, 2 Git refuses it, 3 Git stops at the entry that decides, 4 Git stops at the second variable.
    pub decision: u8,
    /// The source of the decision: 1 the first variable, 2 an entry, 3 neither; 0 if Git stops at the second
    /// variable.
    pub by: u8,
    /// The place of the entry that decides; otherwise 0.
    pub at: usize,
}

/// The number of the reason why a text has no transport.
pub fn transport_number(why: NoTransport) -> u8
    ensures { result ≡ transport_number why }
{
    match why {
        NoTransport::ByteZero => 1,
        NoTransport::OptionLike => 2,
        NoTransport::Rsync => 3,
        NoTransport::UnknownScheme => 4,
    }
}

/// The numbers of a permission.
pub fn permission_numbers(permission: Permission) -> PermissionNumbers
    ensures { result ≡ permission_numbers permission }
{
    match permission {
        Permission::Allowed(by) => numbers(1, decider_number(by), reason_place(by)),
        Permission::Refused(by) => numbers(2, decider_number(by), reason_place(by)),
        Permission::UnknownAllowance { at } => numbers(3, decider_number(Reason::Entry { at }), at),
        Permission::UnknownFromUser => numbers(4, 0, 0),
    }
}

/// These numbers.
fn numbers(decision: u8, by: u8, at: usize) -> PermissionNumbers
    ensures decision { result.decision ≡ decision }
    ensures by { result.by ≡ by }
    ensures at { result.at ≡ at }
{
    PermissionNumbers { decision, by, at }
}

/// The number of the variable or entry that decides.
fn decider_number(by: Reason) -> u8
    ensures { result ≡ decider_number by }
{
    match by {
        Reason::AllowList => 1,
        Reason::Entry { .. } => 2,
        Reason::Default => 3,
    }
}

/// The place of the entry that decides, or 0.
fn reason_place(by: Reason) -> usize
    ensures { result ≡ reason_place by }
{
    match by {
        Reason::Entry { at } => at,
        Reason::AllowList | Reason::Default => 0,
    }
}
