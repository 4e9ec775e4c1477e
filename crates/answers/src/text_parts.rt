//! The positions of a location's parts in a text, as JSON: each is a pair of the number of bytes before it and its
//! length.

use crate::report::{Out, Report, report_member};
use gix_url::{Parts, Span};
use std::io::{self, Write};

impl Report for Parts {
    fn report(&self, out: &mut Out) -> io::Result<()> {
        let form = self.form;
        write!(out, "{{\"form\":\"{form:?}\"")?;
        report_member(out, "scheme", &self.scheme)?;
        report_member(out, "user", &self.user)?;
        report_member(out, "password", &self.password)?;
        report_member(out, "host", &self.host)?;
        report_member(out, "port", &self.port)?;
        report_member(out, "path", &Some(self.path))?;
        out.write_all(b"}")
    }
}

impl Report for Span {
    fn report(&self, out: &mut Out) -> io::Result<()> {
        let Span { at, len } = self;
        write!(out, "[{at},{len}]")
    }
}
