//! Results of calls of `git_rules` as JSON: entries, normal forms, ranks, permissions and words, and their errors.

use crate::report::{Out, Report, report_member, report_name, report_pair};
use bstr::{BStr, BString};
use git_rules::config::{Entry, EntryError, Reader};
use git_rules::normal::{NormalError, NormalUrl};
use git_rules::pattern::Rank;
use git_rules::pattern::place::PlaceError;
use git_rules::pattern::settings::{Kind, SettingsError};
use git_rules::protocols::Permission;
use git_rules::protocols::text::NoTransport;
use git_rules::remote::RemoteError;
use git_rules::rewrite::RewriteError;
use git_rules::ssh::{SshError, SshRefusal};
use git_rules::stops::{Stop, ValueKind};
use std::alloc::AllocError;
use std::io::{self, Write};

impl Report for AllocError {
    fn report(&self, out: &mut Out) -> io::Result<()> {
        out.write_all(b"{\"error\":\"Memory\"}")
    }
}

impl Report for Entry<'_> {
    fn report(&self, out: &mut Out) -> io::Result<()> {
        report_name(out, "{", "section")?;
        BStr::new(self.section).report(out)?;
        report_member(
            out,
            "subsection",
            &self.subsection.map(|text| BStr::new(text)),
        )?;
        report_member(out, "name", &Some(BStr::new(self.name)))?;
        report_member(out, "value", &self.value.map(|text| BStr::new(text)))?;
        report_member(out, "at", &Some(self.at))?;
        out.write_all(b"}")
    }
}

impl Report for EntryError {
    fn report(&self, out: &mut Out) -> io::Result<()> {
        match self {
            EntryError::NoKey { at } => write!(out, "{{\"error\":\"NoKey\",\"at\":{at}}}"),
            EntryError::NoEnd { at } => write!(out, "{{\"error\":\"NoEnd\",\"at\":{at}}}"),
        }
    }
}

impl Report for Vec<Entry<'_>> {
    fn report(&self, out: &mut Out) -> io::Result<()> {
        report_list(out, self.as_slice())
    }
}

impl Report for Vec<BString> {
    fn report(&self, out: &mut Out) -> io::Result<()> {
        report_list(out, self.as_slice())
    }
}

impl Report for Vec<usize> {
    fn report(&self, out: &mut Out) -> io::Result<()> {
        report_list(out, self.as_slice())
    }
}

/// Reports a list.
fn report_list<T: Report>(out: &mut Out, items: &[T]) -> io::Result<()> {
    let mut before = "[";
    for item in items {
        write!(out, "{before}")?;
        item.report(out)?;
        before = ",";
    }
    out.write_all(if items.is_empty() { b"[]" } else { b"]" })
}

/// Reports the items of a reader, as a list.
pub fn report_items(out: &mut Out, reader: Reader<'_>) -> io::Result<()> {
    out.write_all(b"[")?;
    let mut is_first = true;
    for item in reader {
        if !is_first {
            out.write_all(b",")?;
        }
        is_first = false;
        item.report(out)?;
    }
    out.write_all(b"]")
}

impl Report for NormalUrl<'_> {
    fn report(&self, out: &mut Out) -> io::Result<()> {
        report_name(out, "{", "scheme")?;
        BStr::new(self.scheme).report(out)?;
        report_member(out, "user", &self.user.map(|text| BStr::new(text)))?;
        report_member(out, "host", &Some(BStr::new(self.host)))?;
        report_member(out, "port", &self.port)?;
        report_member(out, "path", &Some(BStr::new(self.path)))?;
        out.write_all(b"}")
    }
}

impl Report for NormalError {
    fn report(&self, out: &mut Out) -> io::Result<()> {
        write!(out, "{{\"error\":\"{self:?}\"}}")
    }
}

impl Report for PlaceError {
    fn report(&self, out: &mut Out) -> io::Result<()> {
        match self {
            PlaceError::Fault(fault) => fault.report(out),
            PlaceError::Normal(error) => error.report(out),
        }
    }
}

impl Report for Rank {
    fn report(&self, out: &mut Out) -> io::Result<()> {
        report_pair(out, &self.host, &(self.path, self.user))
    }
}

impl Report for Kind {
    fn report(&self, out: &mut Out) -> io::Result<()> {
        write!(out, "\"{self:?}\"")
    }
}

impl Report for ValueKind {
    fn report(&self, out: &mut Out) -> io::Result<()> {
        write!(out, "\"{self:?}\"")
    }
}

impl Report for Stop {
    fn report(&self, out: &mut Out) -> io::Result<()> {
        write!(out, "\"{self:?}\"")
    }
}

impl Report for SettingsError {
    fn report(&self, out: &mut Out) -> io::Result<()> {
        match self {
            SettingsError::NoValue { at } => write!(out, "{{\"error\":\"NoValue\",\"at\":{at}}}"),
            error => write!(out, "{{\"error\":\"{error:?}\"}}"),
        }
    }
}

impl Report for Permission {
    fn report(&self, out: &mut Out) -> io::Result<()> {
        out.write_all(match self {
            Permission::Allowed(_) => b"\"Allowed\"",
            Permission::Refused(_) => b"\"Refused\"",
            Permission::UnknownAllowance { .. } => b"\"UnknownAllowance\"",
            Permission::UnknownFromUser => b"\"UnknownFromUser\"",
        })
    }
}

impl Report for RewriteError {
    fn report(&self, out: &mut Out) -> io::Result<()> {
        match self {
            RewriteError::Memory => out.write_all(b"{\"error\":\"Memory\"}"),
            RewriteError::NoValue { at } => write!(out, "{{\"error\":\"NoValue\",\"at\":{at}}}"),
        }
    }
}

impl Report for RemoteError {
    fn report(&self, out: &mut Out) -> io::Result<()> {
        match self {
            RemoteError::Memory => out.write_all(b"{\"error\":\"Memory\"}"),
            RemoteError::NoValue { at } => write!(out, "{{\"error\":\"NoValue\",\"at\":{at}}}"),
        }
    }
}

impl Report for NoTransport {
    fn report(&self, out: &mut Out) -> io::Result<()> {
        write!(out, "{{\"error\":\"{self:?}\"}}")
    }
}

impl Report for SshRefusal {
    fn report(&self, out: &mut Out) -> io::Result<()> {
        write!(out, "{{\"error\":\"{self:?}\"}}")
    }
}

impl Report for SshError {
    fn report(&self, out: &mut Out) -> io::Result<()> {
        match self {
            SshError::Memory => out.write_all(b"{\"error\":\"Memory\"}"),
            SshError::Refused(refusal) => refusal.report(out),
        }
    }
}
