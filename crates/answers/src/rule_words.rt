//! Shows the errors of `git_rules` and `git_modules`. Each error is built from its name, and from a position if it has
//! one.

use crate::halt::Halt;
use crate::order::{Order, unknown};
use crate::report::{Out, report_borrowed};
use crate::shown::show_display;
use git_modules::resolve::ResolveError;
use git_modules::submodules::refusal::Refused;
use git_rules::config::EntryError;
use git_rules::credentials::CredentialsError;
use git_rules::normal::NormalError;
use git_rules::pattern::place::PlaceError;
use git_rules::pattern::settings::SettingsError;
use git_rules::protocols::text::NoTransport;
use git_rules::remote::RemoteError;
use git_rules::rewrite::RewriteError;
use git_rules::ssh::program::SshProgramError;
use git_rules::ssh::{SshError, SshRefusal};
use git_rules::stops::Stop;
use gix_url::WriteFault;

/// Whether a call shows an error of `git_rules` or `git_modules`.
pub fn has(call: &str) -> bool {
    matches!(
        call,
        "CredentialsError:fmt"
            | "EntryError:fmt"
            | "NoTransport:fmt"
            | "NormalError:fmt"
            | "PlaceError:fmt"
            | "RemoteError:fmt"
            | "RewriteError:fmt"
            | "SettingsError:fmt"
            | "Refused::as_str"
            | "ResolveError:fmt"
            | "SshError:fmt"
            | "SshProgramError:fmt"
            | "SshRefusal:fmt"
            | "Stop:fmt"
    )
}

/// Shows the error of an order.
pub fn show(order: Order<'_>, out: &mut Out) -> Result<(), Halt> {
    let name = order.needed("error")?;
    let at = usize::try_from(order.number("at").unwrap_or(0)).unwrap_or(0);
    match order.call() {
        "NoTransport:fmt" => show_display(out, &no_transport(name)?),
        "NormalError:fmt" => show_display(out, &normal_error(name)?),
        "PlaceError:fmt" => show_display(out, &place_error(name)?),
        "SshRefusal:fmt" => show_display(out, &ssh_refusal(name)?),
        "SshError:fmt" => show_display(out, &ssh_error(name)?),
        "Refused::as_str" => report_borrowed(out, &refused(name)?.as_str()),
        "Stop:fmt" => show_display(out, &stop(name)?),
        _ => show_placed(order, name, at, out),
    }
}

/// Shows the error of an order, which may have a position.
fn show_placed(order: Order<'_>, name: &str, at: usize, out: &mut Out) -> Result<(), Halt> {
    match (order.call(), name) {
        ("CredentialsError:fmt", "Memory") => show_display(out, &CredentialsError::Memory),
        ("CredentialsError:fmt", "NoValue") => show_display(out, &CredentialsError::NoValue { at }),
        ("CredentialsError:fmt", _) => show_display(out, &CredentialsError::NoBoolean { at }),
        ("EntryError:fmt", "NoKey") => show_display(out, &EntryError::NoKey { at }),
        ("EntryError:fmt", _) => show_display(out, &EntryError::NoEnd { at }),
        ("RemoteError:fmt", "Memory") => show_display(out, &RemoteError::Memory),
        ("RemoteError:fmt", _) => show_display(out, &RemoteError::NoValue { at }),
        ("ResolveError:fmt", "EmptyParent") => show_display(out, &ResolveError::EmptyParent),
        ("ResolveError:fmt", _) => show_display(out, &ResolveError::NothingLeft),
        ("SshProgramError:fmt", _) => show_display(out, &SshProgramError::NoValue { at }),
        ("RewriteError:fmt", "Memory") => show_display(out, &RewriteError::Memory),
        ("RewriteError:fmt", _) => show_display(out, &RewriteError::NoValue { at }),
        ("SettingsError:fmt", "Memory") => show_display(out, &SettingsError::Memory),
        ("SettingsError:fmt", "NoRoom") => show_display(out, &SettingsError::NoRoom),
        ("SettingsError:fmt", _) => show_display(out, &SettingsError::NoValue { at }),
        (call, _) => unknown(call),
    }
}

/// The reason why a text has no transport, by its name.
fn no_transport(name: &str) -> Result<NoTransport, Halt> {
    match name {
        "ByteZero" => Ok(NoTransport::ByteZero),
        "OptionLike" => Ok(NoTransport::OptionLike),
        "Rsync" => Ok(NoTransport::Rsync),
        "UnknownScheme" => Ok(NoTransport::UnknownScheme),
        _ => Err(Halt::Unprepared),
    }
}

/// The reason why a text has no normal form, by its name.
fn normal_error(name: &str) -> Result<NormalError, Halt> {
    match name {
        "NoRoom" => Ok(NormalError::NoRoom),
        "NoUrl" => Ok(NormalError::NoUrl),
        "BrokenEscape" => Ok(NormalError::BrokenEscape),
        "NoHost" => Ok(NormalError::NoHost),
        "BadHost" => Ok(NormalError::BadHost),
        "BadPort" => Ok(NormalError::BadPort),
        "AboveRoot" => Ok(NormalError::AboveRoot),
        _ => Err(Halt::Unprepared),
    }
}

/// The reason why a location has no place, by its name.
fn place_error(name: &str) -> Result<PlaceError, Halt> {
    match name {
        "Fault" => Ok(PlaceError::Fault(WriteFault::RelativeSsh)),
        _ => Ok(PlaceError::Normal(normal_error(name)?)),
    }
}

/// The reason why a location has no command of Secure Shell, by its name.
fn ssh_refusal(name: &str) -> Result<SshRefusal, Halt> {
    match name {
        "NotSecureShell" => Ok(SshRefusal::NotSecureShell),
        "Password" => Ok(SshRefusal::Password),
        "EmptyUser" => Ok(SshRefusal::EmptyUser),
        "ByteZero" => Ok(SshRefusal::ByteZero),
        "OptionLikeUser" => Ok(SshRefusal::OptionLikeUser),
        "NoHost" => Ok(SshRefusal::NoHost),
        "OptionLikeHost" => Ok(SshRefusal::OptionLikeHost),
        "AtSignInHost" => Ok(SshRefusal::AtSignInHost),
        "UrlLikeDestination" => Ok(SshRefusal::UrlLikeDestination),
        "NoPath" => Ok(SshRefusal::NoPath),
        "OptionLikePath" => Ok(SshRefusal::OptionLikePath),
        "EmptyProgram" => Ok(SshRefusal::EmptyProgram),
        "ByteZeroInProgram" => Ok(SshRefusal::ByteZeroInProgram),
        "OptionLikeProgram" => Ok(SshRefusal::OptionLikeProgram),
        "FamilyOfSimple" => Ok(SshRefusal::FamilyOfSimple),
        "PortOfSimple" => Ok(SshRefusal::PortOfSimple),
        _ => Err(Halt::Unprepared),
    }
}

/// The reason why there are no words of a command, by its name.
fn ssh_error(name: &str) -> Result<SshError, Halt> {
    match name {
        "Memory" => Ok(SshError::Memory),
        _ => Ok(SshError::Refused(ssh_refusal(name)?)),
    }
}

/// The reason why fsck refuses an entry of `.gitmodules`, by its name.
fn refused(name: &str) -> Result<Refused, Halt> {
    match name {
        "Name" => Ok(Refused::Name),
        "Url" => Ok(Refused::Url),
        "Path" => Ok(Refused::Path),
        "Update" => Ok(Refused::Update),
        _ => Err(Halt::Unprepared),
    }
}

/// The reason why Git stops at an entry, by its name.
fn stop(name: &str) -> Result<Stop, Halt> {
    match name {
        "NoValue" => Ok(Stop::NoValue),
        "NoBoolean" => Ok(Stop::NoBoolean),
        "NoNumber" => Ok(Stop::NoNumber),
        "NoAllowance" => Ok(Stop::NoAllowance),
        _ => Err(Halt::Unprepared),
    }
}
