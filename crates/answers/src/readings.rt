//! Git's readings of a text, and why readers may differ, as JSON.

use crate::report::{Out, Report, report_member};
use bstr::BStr;
use gix_url::WebCondition;
use gix_url::credential::Request;
use gix_url::transport::{GitPlace, Unread};
use gix_url::unambiguous::Condition;
use std::io::{self, Write};

impl Report for GitPlace<'_> {
    fn report(&self, out: &mut Out) -> io::Result<()> {
        let protocol = self.protocol;
        write!(out, "{{\"protocol\":\"{protocol:?}\"")?;
        report_member(out, "user", &self.user.map(BStr::new))?;
        report_member(out, "host", &self.host.map(BStr::new))?;
        report_member(out, "port", &self.port)?;
        report_member(out, "path", &Some(BStr::new(self.path)))?;
        out.write_all(b"}")
    }
}

impl Report for Unread {
    fn report(&self, out: &mut Out) -> io::Result<()> {
        write!(out, "{{\"error\":\"{self:?}\"}}")
    }
}

impl Report for Request<'_> {
    fn report(&self, out: &mut Out) -> io::Result<()> {
        out.write_all(b"{\"protocol\":")?;
        BStr::new(self.protocol).report(out)?;
        report_member(out, "user", &self.user.map(BStr::new))?;
        report_member(out, "password", &self.password.map(BStr::new))?;
        report_member(out, "host", &Some(BStr::new(self.host)))?;
        report_member(out, "path", &self.path.map(BStr::new))?;
        out.write_all(b"}")
    }
}

impl Report for WebCondition {
    fn report(&self, out: &mut Out) -> io::Result<()> {
        write!(out, "\"{self:?}\"")
    }
}

impl Report for Condition {
    fn report(&self, out: &mut Out) -> io::Result<()> {
        write!(out, "\"{self:?}\"")
    }
}
