//! Calls of `git_modules` over the text of a configuration file.

use crate::halt::Halt;
use crate::order::{Order, unknown};
use crate::report::{Out, Report, report_member, report_name, report_owned};
use bstr::BStr;
use git_modules::config_file::flaw::{FileError, Flaw};
use git_modules::config_file::{FileEntry, entries};
use std::alloc::Global;
use std::io::{self, Write};

/// Calls over a file, each with a buffer as long as the file.
pub fn over_file(alloc: Global, order: Order<'_>, out: &mut Out) -> Result<(), Halt> {
    let text = order.bytes(alloc, "file")?;
    let mut buffer = order.bytes(alloc, "file")?;
    let outcome = match order.call() {
        "config_file::entries" => report_owned(out, entries(alloc, text.as_slice(), &mut buffer)),
        call => unknown(call),
    };
    drop(text);
    drop(buffer);
    outcome
}

impl Report for Vec<FileEntry<'_>> {
    fn report(&self, out: &mut Out) -> io::Result<()> {
        out.write_all(b"[")?;
        let mut before = "{";
        for it in self {
            report_name(out, before, "section")?;
            BStr::new(it.entry.section).report(out)?;
            report_text(out, "subsection", it.entry.subsection)?;
            report_text(out, "name", Some(it.entry.name))?;
            report_text(out, "value", it.entry.value)?;
            out.write_all(b"}")?;
            before = ",{";
        }
        out.write_all(b"]")
    }
}

/// Reports a text, if there is one.
fn report_text(out: &mut Out, name: &str, text: Option<&[u8]>) -> io::Result<()> {
    report_member(out, name, &text.map(|text| BStr::new(text)))
}

impl Report for FileError {
    fn report(&self, out: &mut Out) -> io::Result<()> {
        match self {
            FileError::Memory => out.write_all(b"{\"error\":\"Memory\"}"),
            FileError::ShortBuffer => out.write_all(b"{\"error\":\"ShortBuffer\"}"),
            FileError::Refused {
                flaw: Flaw::ZeroByte,
                at,
                line,
            } => {
                write!(
                    out,
                    "{{\"error\":\"ZeroByte\",\"at\":{at},\"line\":{line}}}"
                )
            }
            FileError::Refused {
                flaw: _,
                at: _,
                line,
            } => { write!(out, "{{\"error\":\"Refused\",\"line\":{line}}}") }
        }
    }
}
