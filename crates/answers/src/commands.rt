//! Calls of `git_rules` over commands of Secure Shell.
//!
//! `service`, `variant` and `version` are Git's names and numbers: `git-upload-pack`, `tortoiseplink`, 2. `program`
//! replaces that of the service, and `family` is 4 or 6.

use crate::halt::Halt;
use crate::order::{Order, unknown};
use crate::report::{Out, report_borrowed, report_owned};
use bstr::BString;
use git_rules::ssh::{
    AddressFamily, ProtocolVersion, Service, SshCommand, SshError, SshRefusal, SshRequest,
    SshVariant, ssh_command, ssh_command_for, ssh_words,
};
use gix_url::UrlRef;
use std::alloc::Global;

/// Whether a call is over commands, by the module or the type in its name.
pub fn has(owner: &str) -> bool {
    matches!(owner, "ssh" | "SshCommand" | "SshProgram" | "Service")
}

/// The service of an order.
fn service(order: Order<'_>) -> Result<Service, Halt> {
    match order.needed("service")? {
        "git-upload-pack" => Ok(Service::UploadPack),
        "git-receive-pack" => Ok(Service::ReceivePack),
        "git-upload-archive" => Ok(Service::UploadArchive),
        _ => Err(Halt::Unprepared),
    }
}

/// The variant of an order.
fn variant(order: Order<'_>) -> Result<SshVariant, Halt> {
    match order.needed("variant")? {
        "ssh" => Ok(SshVariant::Ssh),
        "simple" => Ok(SshVariant::Simple),
        "plink" => Ok(SshVariant::Plink),
        "putty" => Ok(SshVariant::Putty),
        "tortoiseplink" => Ok(SshVariant::TortoisePlink),
        _ => Err(Halt::Unprepared),
    }
}

/// The version of the protocol of an order.
fn version(order: Order<'_>) -> Result<ProtocolVersion, Halt> {
    match order.number("version") {
        Some(0) => Ok(ProtocolVersion::V0),
        Some(1) => Ok(ProtocolVersion::V1),
        Some(2) => Ok(ProtocolVersion::V2),
        _ => Err(Halt::Unprepared),
    }
}

/// Calls over a service alone.
pub fn over_service(order: Order<'_>, out: &mut Out) -> Result<(), Halt> {
    let service = service(order)?;
    match order.call() {
        "Service::as_str" => report_borrowed(out, &service.as_str()),
        call => unknown(call),
    }
}

/// The family of addresses of an order.
fn family(order: Order<'_>) -> Result<AddressFamily, Halt> {
    match order.number("family") {
        None => Ok(AddressFamily::Any),
        Some(4) => Ok(AddressFamily::V4),
        Some(6) => Ok(AddressFamily::V6),
        _ => Err(Halt::Unprepared),
    }
}

/// Calls over a location and a request for a command.
pub fn over_url(
    alloc: Global,
    order: Order<'_>,
    url: &UrlRef<'_>,
    out: &mut Out,
) -> Result<(), Halt> {
    let program = order.some_bytes(alloc, "program")?;
    let outcome = over_program(alloc, order, url, &program, out);
    drop(program);
    outcome
}

/// Calls over a location and a request whose program may replace that of the service.
fn over_program(
    alloc: Global,
    order: Order<'_>,
    url: &UrlRef<'_>,
    program: &Option<Vec<u8>>,
    out: &mut Out,
) -> Result<(), Halt> {
    let (service, variant, version) = (service(order)?, variant(order)?, version(order)?);
    let request = SshRequest {
        service,
        program: program.as_ref().map(|bytes| bytes.as_slice()),
        variant,
        version,
        family: family(order)?,
    };
    match order.call() {
        "" => Ok(()),
        "ssh::ssh_words" => report_owned(out, ssh_words(alloc, url, service, variant, version)),
        "ssh::ssh_command" => over_made(
            alloc,
            order,
            ssh_command(url, service, variant, version),
            out,
        ),
        _ => over_made(alloc, order, ssh_command_for(url, &request), out),
    }
}

/// Reports the words of a command or its variable, or why there is no command.
fn over_made(
    alloc: Global,
    order: Order<'_>,
    made: Result<SshCommand<'_>, SshRefusal>,
    out: &mut Out,
) -> Result<(), Halt> {
    match made {
        Err(refusal) => report_borrowed(out, &refusal),
        Ok(command) => over_command(alloc, order, command, out),
    }
}

/// Reports the words of a command, or its variable.
fn over_command(
    alloc: Global,
    order: Order<'_>,
    command: SshCommand<'_>,
    out: &mut Out,
) -> Result<(), Halt> {
    let outcome = match order.call() {
        "ssh::ssh_command" | "ssh::ssh_command_for" | "SshCommand::to_words" => {
            report_owned(out, words_of(alloc, &command))
        }
        "SshCommand::git_protocol" => report_borrowed(out, &command.git_protocol()),
        call => unknown(call),
    };
    drop(command);
    outcome
}

/// The words of a command.
fn words_of(alloc: Global, command: &SshCommand<'_>) -> Result<Vec<BString>, SshError> {
    Ok(command.to_words(alloc)?)
}
