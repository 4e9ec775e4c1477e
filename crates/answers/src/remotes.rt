//! Calls of `git_rules` over a remote of a configuration.

use crate::halt::Halt;
use crate::order::{Order, unknown};
use crate::report::{Out, report_borrowed, report_member, report_name, report_owned};
use bstr::{BStr, BString};
use git_rules::config::Entry;
use git_rules::remote::{Remote, RemoteError};
use git_rules::rewrite::Rewrites;
use git_rules::rewrite::outcome::Rewritten;
use std::alloc::{AllocError, Global};
use std::io::Write;

/// Calls over the entries of a configuration and the name of a remote.
pub fn over_entries(
    alloc: Global,
    order: Order<'_>,
    entries: &[Entry<'_>],
    out: &mut Out,
) -> Result<(), Halt> {
    let name = order.bytes(alloc, "name")?;
    let outcome = over_name(alloc, order, &*entries, name.as_slice(), out);
    drop(name);
    outcome
}

/// Builds the rules of entries, and makes a call over them and the name of a remote.
fn over_name<'a>(
    alloc: Global,
    order: Order<'_>,
    entries: &'a [Entry<'a>],
    name: &'a [u8],
    out: &mut Out,
) -> Result<(), Halt> {
    match Rewrites::from_entries(alloc, entries) {
        Err(error) => report_owned(out, error),
        Ok(rules) => {
            let outcome = over_rules(alloc, order, entries, &rules, name, out);
            drop(rules);
            outcome
        }
    }
}

/// Reports the remote with a name, by entries and their rules.
fn over_rules<'a>(
    alloc: Global,
    order: Order<'_>,
    entries: &[Entry<'a>],
    rules: &Rewrites<'a>,
    name: &'a [u8],
    out: &mut Out,
) -> Result<(), Halt> {
    match order.call() {
        "Remote::of" => report_remote(alloc, Remote::of(alloc, entries, rules, name), out),
        call => unknown(call),
    }
}

/// Reports a remote, or why there is none.
fn report_remote(
    alloc: Global,
    remote: Result<Remote<'_>, RemoteError>,
    out: &mut Out,
) -> Result<(), Halt> {
    match remote {
        Err(error) => report_borrowed(out, &error),
        Ok(remote) => {
            let outcome = match both_texts(alloc, &remote) {
                Err(_) => report_borrowed(out, &RemoteError::Memory),
                Ok(texts) => report_parts(&remote, texts, out),
            };
            drop(remote);
            outcome
        }
    }
}

/// Reports the parts of a remote: the texts of its lists, and its values.
fn report_parts(
    remote: &Remote<'_>,
    texts: (Vec<BString>, Vec<BString>),
    out: &mut Out,
) -> Result<(), Halt> {
    let (urls, push_urls) = texts;
    report_name(out, "{", "urls")?;
    report_owned(out, urls)?;
    report_name(out, ",", "push_urls")?;
    report_owned(out, push_urls)?;
    report_value(out, "vcs", remote.vcs)?;
    report_value(out, "proxy", remote.proxy)?;
    report_value(out, "uploadpack", remote.uploadpack)?;
    report_value(out, "receivepack", remote.receivepack)?;
    Ok(out.write_all(b"}")?)
}

/// Reports a value of a remote, if there is one.
fn report_value(out: &mut Out, name: &str, value: Option<&[u8]>) -> Result<(), Halt> {
    Ok(report_member(out, name, &value.map(|text| BStr::new(text)))?)
}

/// The texts of both lists of a remote.
fn both_texts(
    alloc: Global,
    remote: &Remote<'_>,
) -> Result<(Vec<BString>, Vec<BString>), AllocError> {
    let urls = texts(alloc, &remote.urls)?;
    let push_urls = texts(alloc, &remote.push_urls)?;
    Ok((urls, push_urls))
}

/// The texts of the results of rewriting.
fn texts(alloc: Global, outcomes: &[Rewritten<'_>]) -> Result<Vec<BString>, AllocError> {
    let mut texts = Vec::with_capacity(alloc, outcomes.len())?;
    for outcome in outcomes {
        texts.push(outcome.to_bstring(alloc)?)?;
    }
    Ok(texts)
}
