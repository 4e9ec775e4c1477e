//! Examples of the reasons and positions of parse errors, and of the positions of a text's parts.

use gix_url::{Error, PartForm, Parts, Reason, Refusal, RefusalKind, UrlFault, parts_of};

/// How many bytes of a text are before what is wrong with it.
fn place_of(error: &Error) -> Option<usize> {
    let refusal = error.refusal()?;
    Some(refusal.at) // 9 of `http://h:abc/`, whose port is no number
}

/// The end of the text that is wrong, from the flaw on.
fn from_flaw<'a>(text: &'a [u8], refusal: &Refusal) -> Option<&'a [u8]> {
    text.get(refusal.at..)
}

fn has_no_host(refusal: &Refusal) -> bool {
    refusal.fault() == Some(UrlFault::HostRequired)
}

fn has_bad_port(refusal: &Refusal) -> bool {
    refusal.reason.kind() == RefusalKind::BadUrl(UrlFault::BadPort)
}

fn is_of_a_port(reason: Reason) -> bool {
    reason.kind() == RefusalKind::BadUrl(UrlFault::BadPort)
}

fn wants_brackets(reason: Reason) -> bool {
    matches!(reason, Reason::AddressWithoutBrackets)
}

fn is_listed(reason: Reason, name: &str) -> bool {
    reason.name() == name // `PortZero` is one
}

fn are_long(reason: Reason) -> bool {
    reason.words().len() > 80
}

fn is_scp(parts: &Parts) -> bool {
    parts.form == PartForm::Scp // of `git@host:repo`
}

/// The port's digits in a text, leading zeros among them.
fn digits<'a>(text: &'a [u8], parts: &Parts) -> Option<&'a [u8]> {
    let port = parts.port?;
    text.get(port.at..)?.get(..port.len) // `0022` of `ssh://h:0022/p`
}

/// The front of a text that may be shown: all before its password, if it has one.
fn shown_front(text: &[u8]) -> Result<&[u8], Refusal> {
    match parts_of(text)?.password {
        Some(password) => Ok(text.split_at(password.at.min(text.len())).0),
        None => Ok(text),
    }
}
