//! Calls of `git_rules` over the reading of a text by Git's credential code.

use crate::halt::Halt;
use crate::order::{Order, unknown};
use crate::report::{Out, Report, report_borrowed, report_member, report_owned};
use bstr::BStr;
use git_rules::config::Entry;
use git_rules::credentials::{Credentials, CredentialsError, credentials_for};
use gix_url::Error;
use gix_url::credential::{Buffers, Request, reading};
use std::alloc::Global;
use std::io::{self, Write};

impl Report for Credentials<'_> {
    fn report(&self, out: &mut Out) -> io::Result<()> {
        out.write_all(b"{\"helpers\":")?;
        self.helpers.report(out)?;
        report_member(out, "user", &self.user.map(|user| BStr::new(user)))?;
        report_member(out, "use_http_path", &Some(self.use_http_path))?;
        out.write_all(b"}")
    }
}

impl Report for CredentialsError {
    fn report(&self, out: &mut Out) -> io::Result<()> {
        match self {
            CredentialsError::Memory => out.write_all(b"{\"error\":\"Memory\"}"),
            CredentialsError::NoValue { at } => {
                write!(out, "{{\"error\":\"NoValue\",\"at\":{at}}}")
            }
            CredentialsError::NoBoolean { at } => {
                write!(out, "{{\"error\":\"NoBoolean\",\"at\":{at}}}")
            }
        }
    }
}

/// Calls over the entries of a configuration and the reading of a text. Reports it if nothing is found in the text.
pub fn over_entries(
    alloc: Global,
    order: Order<'_>,
    entries: &[Entry<'_>],
    out: &mut Out,
) -> Result<(), Halt> {
    let text = order.bytes(alloc, "text")?;
    let mut buffers = Buffers::new(alloc);
    let outcome = match reading(text.as_slice(), &mut buffers) {
        Ok(Some(request)) => over_request(alloc, order, entries, &request, out),
        Ok(None) => report_borrowed(out, &()),
        Err(_) => report_owned(out, Error::Memory),
    };
    drop(buffers);
    drop(text);
    outcome
}

/// Reports the entries that Git uses for a request.
fn over_request(
    alloc: Global,
    order: Order<'_>,
    entries: &[Entry<'_>],
    request: &Request<'_>,
    out: &mut Out,
) -> Result<(), Halt> {
    match order.call() {
        "credentials::credentials_for" => {
            report_owned(out, credentials_for(alloc, entries, request))
        }
        call => unknown(call),
    }
}
