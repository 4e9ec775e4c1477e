//! The remotes of a configuration: the texts that Git fetches from and pushes to for each, and the findings about them.

ghost use Rattle.std.specs.Prelude.{◌≡◌, option_map};
ghost use Rattle.explain_report.specs.Rules.{remote_name};

use crate::finding::Findings;
use crate::memory::both;
use crate::rules::config::Config;
use crate::rules::route::Route;
use crate::text::secret::{shown_part, shown_text};
use git_rules::config::Entry;
use git_rules::remote::{Remote, RemoteError};
use git_rules::rewrite::outcome::Rewritten;
use serde::Serialize;
use std::alloc::{AllocError, Global};
use std::collections::BTreeMap;

/// A remote of a configuration, as Git reads it.
#[derive(Drop, Serialize)]
pub struct RemoteReport {
    /// Its name. Here and in each text below, `redacted` is in place of possible secrets.
    pub remote: String,
    /// The texts to fetch from. Git uses the first.
    pub fetch: Vec<Route>,
    /// The texts to push to. Git uses all of them.
    pub push: Vec<Route>,
    /// The helper that Git runs for it.
    pub vcs: Option<String>,
    /// Its proxy.
    pub proxy: Option<String>,
    /// The program that Git runs at the other end of a fetch.
    pub uploadpack: Option<String>,
    /// The program that Git runs at the other end of a push.
    pub receivepack: Option<String>,
    /// The offset of the entry at which Git stops, in bytes. If there is one, only the name is reported.
    pub stops_at: Option<usize>,
}

/// Returns the names of the remotes of these entries, in the order in which they first occur. A name that begins with
/// `/` is not that of a remote.
pub fn names<'a>(alloc: Global, entries: &[Entry<'a>]) -> Result<Vec<&'a [u8]>, AllocError> {
    let mut found = Vec::new(alloc);
    let mut seen = BTreeMap::new(alloc);
    for entry in entries {
        if let Some(name) = name_of(entry)
            && seen.insert(name, ())?.is_none()
        {
            found.push(name)?;
        }
    }
    drop(seen);
    Ok(found)
}

/// The name of the remote that an entry configures, if it configures one.
fn name_of<'a>(entry: &Entry<'a>) -> Option<&'a [u8]>
    ensures { option_map (λ it. it.now) result ≡ remote_name entry.now }
{
    match entry.subsection {
        Some(name) if entry.is_section("remote") && !name.is_empty() && !name.starts_with(b"/") => {
            Some(name)
        }
        _ => None,
    }
}

impl RemoteReport {
    /// Returns the report of the remote with this name.
    pub fn of<'a>(
        alloc: Global,
        config: &Config<'a>,
        name: &'a [u8],
    ) -> Result<RemoteReport, AllocError> {
        let shown = shown_text(alloc, name)?;
        match Remote::of(alloc, config.remotes.as_slice(), &config.rewrites, name) {
            Ok(remote) => RemoteReport::shown(alloc, config, shown, &remote),
            Err(RemoteError::NoValue { at }) => Ok(RemoteReport::stopped(alloc, shown, at)),
            Err(RemoteError::Memory) => Err(AllocError),
        }
    }

    /// The report of a remote with an entry at which Git stops.
    fn stopped(alloc: Global, remote: String, at: usize) -> RemoteReport {
        RemoteReport {
            remote,
            fetch: Vec::new(alloc),
            push: Vec::new(alloc),
            vcs: None,
            proxy: None,
            uploadpack: None,
            receivepack: None,
            stops_at: Some(at),
        }
    }

    /// The report of a remote with this name, as it is shown.
    fn shown(
        alloc: Global,
        config: &Config<'_>,
        name: String,
        remote: &Remote<'_>,
    ) -> Result<RemoteReport, AllocError> {
        let (name, fetch) = both(name, routes(alloc, config, remote.urls.as_slice()))?;
        let (named, push) = both(
            (name, fetch),
            routes(alloc, config, remote.push_urls.as_slice()),
        )?;
        let ways = both(
            shown_part(alloc, remote.vcs)?,
            shown_part(alloc, remote.proxy),
        );
        let (named, ways) = both((named, push), ways)?;
        let programs = programs(alloc, remote);
        let ((((remote, fetch), push), (vcs, proxy)), (uploadpack, receivepack)) = both(
            (named, ways),
            programs,
        )?;
        Ok(RemoteReport {
            remote,
            fetch,
            push,
            vcs,
            proxy,
            uploadpack,
            receivepack,
            stops_at: None,
        })
    }

    /// Returns the findings about all texts of the remote. An entry at which Git stops counts as refused.
    pub fn found(&self) -> Findings {
        let mut found = if self.stops_at.is_some() {
            Findings::of_refused()
        } else {
            Findings::none()
        };
        for route in &self.fetch {
            found = found.union(route.found);
        }
        for route in &self.push {
            found = found.union(route.found);
        }
        found
    }
}

/// The programs that Git runs at the other end of a fetch and of a push, if they are set, as they are shown.
fn programs(
    alloc: Global,
    remote: &Remote<'_>,
) -> Result<(Option<String>, Option<String>), AllocError> {
    both(
        shown_part(alloc, remote.uploadpack)?,
        shown_part(alloc, remote.receivepack),
    )
}

/// The routes to texts that are already rewritten.
fn routes(
    alloc: Global,
    config: &Config<'_>,
    texts: &[Rewritten<'_>],
) -> Result<Vec<Route>, AllocError> {
    let mut routes = Vec::new(alloc);
    for text in texts {
        routes.push(Route::of_rewritten(alloc, config, None, text)?)?;
    }
    Ok(routes)
}
