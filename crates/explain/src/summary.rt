//! The summary of all lines: how many lines there are of each form, verdict, danger and host.
//!
//! The memory of a summary grows with the number of different hosts, not with the number of lines.
//! `tests/programs/test_command_lines.py` tests summaries.

mod danger_counts;
mod table;

use crate::summary::danger_counts::DangerCounts;
use crate::summary::table::text_of;
use bstr::BStr;
use explain_report::finding::Findings;
use explain_report::form::Form;
use explain_report::rules::config::Config;
use explain_report::rules::findings_by;
use explain_report::text::marked::MarkedLine;
use explain_report::text::seen::Seen;
use git_audit::danger::dangers;
use gix_url::lines::RunError;
use gix_url::parse::parse;
use gix_url::{Error, Url};
use std::alloc::{AllocError, Global};
use std::collections::BTreeMap;
use std::io::Write;

/// The counts of all lines.
#[derive(Drop)]
pub struct Summary {
    alloc: Global,
    forms: Forms,
    verdicts: Verdicts,
    dangers: DangerCounts,
    hosts: BTreeMap<String, u64>,
    without_host: u64,
}

/// How many lines there are of each form.
#[derive(Clone, Copy)]
struct Forms {
    urls: u64,
    scp_forms: u64,
    local_paths: u64,
    helpers: u64,
}

/// How many lines have a finding, or none.
#[derive(Clone, Copy)]
struct Verdicts {
    settled: u64,
    unsettled: u64,
    refused: u64,
    dangerous: u64,
    git_differs: u64,
    policy: u64,
}

/// Adds 1 to a count, which saturates.
fn bump(count: &mut u64) {
    *count = count.saturating_add(1);
}

/// Adds 1 to a count if the line is counted in it.
fn bump_if(count: &mut u64, is_counted: bool) {
    if is_counted {
        bump(count);
    }
}

/// Counts a location with this host.
fn add_host(
    alloc: Global,
    hosts: &mut BTreeMap<String, u64>,
    host: &str,
) -> Result<(), AllocError> {
    let lines = hosts.get(host).copied().unwrap_or(0).saturating_add(1);
    let name = String::from_str(alloc, host)?;
    hosts.insert(name, lines)?;
    Ok(())
}

impl Forms {
    /// No line.
    fn none() -> Forms {
        Forms {
            urls: 0,
            scp_forms: 0,
            local_paths: 0,
            helpers: 0,
        }
    }

    /// Counts a line of this form.
    fn add(&mut self, form: Form) {
        match form {
            Form::Url => bump(&mut self.urls),
            Form::Scp => bump(&mut self.scp_forms),
            Form::Local => bump(&mut self.local_paths),
            Form::RemoteHelper => bump(&mut self.helpers),
        }
    }
}

impl Verdicts {
    /// No line.
    fn none() -> Verdicts {
        Verdicts {
            settled: 0,
            unsettled: 0,
            refused: 0,
            dangerous: 0,
            git_differs: 0,
            policy: 0,
        }
    }

    /// Counts a settled or an unsettled location.
    fn add_location(&mut self, is_settled: bool) {
        if is_settled {
            bump(&mut self.settled);
        } else {
            bump(&mut self.unsettled);
        }
    }

    /// Counts the other findings in a line.
    fn add(&mut self, found: Findings) {
        bump_if(&mut self.dangerous, found.danger);
        bump_if(&mut self.git_differs, found.git_differs);
        bump_if(&mut self.policy, found.policy);
    }

    /// The number of lines.
    fn lines(self) -> u64 {
        self.settled
            .saturating_add(self.unsettled)
            .saturating_add(self.refused)
    }
}

impl Summary {
    /// No line yet.
    pub fn new(alloc: Global) -> Summary {
        Summary {
            alloc,
            forms: Forms::none(),
            verdicts: Verdicts::none(),
            dangers: DangerCounts::none(),
            hosts: BTreeMap::new(alloc),
            without_host: 0,
        }
    }

    /// Counts a line, with Git's use of it by the configuration, if one is given. Returns the findings in it.
    pub fn add(
        &mut self,
        line: &[u8],
        config: Option<&Config<'_>>,
    ) -> Result<Findings, AllocError> {
        let read = parse(self.alloc, BStr::new(line));
        let added = match &read {
            Ok(url) => self.add_location(line, url, config),
            Err(Error::Memory) => Err(AllocError),
            Err(_) => self.add_refused(line, config),
        };
        drop(read);
        added
    }

    /// Counts a line that is parsed as this location.
    fn add_location(
        &mut self,
        line: &[u8],
        url: &Url,
        config: Option<&Config<'_>>,
    ) -> Result<Findings, AllocError> {
        let found = dangers(self.alloc, line, &url.as_ref())?;
        let own = Findings::of_location(url, found.as_slice());
        self.dangers.add(found.as_slice());
        drop(found);
        let findings = own.union(findings_by(self.alloc, config, line, own)?);
        self.forms.add(Form::of(url));
        self.verdicts.add_location(!own.unsettled);
        self.verdicts.add(findings);
        self.add_host(line, url)?;
        Ok(findings)
    }

    /// Counts the host of a line that is parsed as this location, in the form in which it is shown.
    fn add_host(&mut self, line: &[u8], url: &Url) -> Result<(), AllocError> {
        let Some(_) = url.host() else {
            bump(&mut self.without_host);
            return Ok(());
        };
        let line = MarkedLine::of(line);
        let seen = Seen::of(self.alloc, line, url)?;
        let host = match seen.shown(line, url) {
            Some((_, shown)) => shown.host().unwrap_or(""),
            None => "redacted",
        };
        let added = add_host(self.alloc, &mut self.hosts, host);
        drop(seen);
        added
    }

    /// Counts a line that is refused.
    fn add_refused(
        &mut self,
        line: &[u8],
        config: Option<&Config<'_>>,
    ) -> Result<Findings, AllocError> {
        let own = Findings::of_refused();
        let findings = own.union(findings_by(self.alloc, config, line, own)?);
        bump(&mut self.verdicts.refused);
        self.verdicts.add(findings);
        bump(&mut self.without_host);
        Ok(findings)
    }

    /// Writes the summary.
    pub fn write<W: Write>(&self, output: &mut W) -> Result<(), RunError> {
        let text = text_of(self.alloc, self)?;
        let written = output.write_all(text.as_str().as_bytes());
        drop(text);
        written.map_err(RunError::Write)
    }
}
