//! The request: a service, a program that may replace it, and how it is run.

use crate::ssh::{ProtocolVersion, Service, SshVariant};
use std::marker::Model;

/// The address family for a connection, as with `git fetch -4` and `-6`.
///
/// `git fetch`, `git pull`, `git clone` and `git push` have these options; `git ls-remote` and `git archive` don't.
///
/// ```
/// fn family_of(is_ipv6_alone: bool) -> AddressFamily {
///     if is_ipv6_alone { AddressFamily::V6 } else { AddressFamily::Any }
/// }
/// ```
#[derive(Clone, Copy, Debug, PartialEq, Eq)]
pub enum AddressFamily {
    /// Any address.
    Any,
    /// Only IPv4 addresses: the option `-4`.
    V4,
    /// Only IPv6 addresses: the option `-6`.
    V6,
}

/// A request for a command, without the location. It borrows the program.
///
/// ```
/// /// What `git fetch` asks for where nothing is configured.
/// fn usual_fetch() -> SshRequest<'static> {
///     SshRequest {
///         service: Service::UploadPack,
///         program: None,
///         variant: SshVariant::Ssh,
///         version: ProtocolVersion::V2,
///         family: AddressFamily::Any,
///     }
/// }
/// ```
#[derive(Clone, Drop)]
pub struct SshRequest<'a> {
    /// The service that the server runs.
    pub service: Service,
    /// The program that the server runs instead of the service's, as `remote.<name>.uploadpack`,
    /// `remote.<name>.receivepack`, `--upload-pack`, `--receive-pack` and `--exec` set it. Its text may contain
    /// several words, and anything that the server's shell expands.
    pub program: Option<&'a [u8]>,
    /// The variant of the program that is run locally.
    pub variant: SshVariant,
    /// The requested version of Git's protocol.
    pub version: ProtocolVersion,
    /// The address family.
    pub family: AddressFamily,
}

impl<'a> Model for SshRequest<'a> {
    ghost use Rattle.git_rules.specs.SecureShell.{Request};

    ghost Value = { Request };

    ghost use Rattle.git_rules.specs.SshRequest.{borrowed_request};

    ghost view = { borrowed_request };
}
