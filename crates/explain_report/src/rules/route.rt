//! A text that Git fetches from or pushes to, with its transport, its dangers and its findings.

ghost use Rattle.std.specs.Prelude.{option_map};
ghost use Rattle.explain_report.specs.Rules.{SaysSameHost};

use crate::advice::danger::names;
use crate::finding::Findings;
use crate::memory::both;
use crate::rules::ReadLine;
use crate::rules::config::Config;
use crate::rules::goal::Goal;
use crate::rules::transports::{Lack, Transport, transport_for};
use crate::text::secret::shown_text;
use git_audit::danger::Danger;
use git_rules::rewrite::host::names_same_host;
use git_rules::rewrite::outcome::Rewritten;
use gix_url::Url;
use serde::Serialize;
use std::alloc::{AllocError, Global};

/// A text that Git fetches from or pushes to.
#[derive(Drop, Serialize)]
pub struct Route {
    /// The text, with `redacted` in place of possible secrets.
    pub text: String,
    /// Whether a rule has rewritten it.
    pub rewritten: bool,
    /// Whether it names the same host as the line, if both are locations.
    pub same_host: Option<bool>,
    /// The transport that Git uses for the text, if it has one.
    pub transport: Option<Transport>,
    /// The reason why Git has no transport for the text.
    pub no_transport: Option<Lack>,
    /// The names of the dangers of the text.
    pub dangers: Vec<&'static str>,
    /// The dangers of the text.
    #[serde(skip)]
    pub found_dangers: Vec<Danger>,
    /// The findings about the text, for which a run may fail.
    #[serde(skip)]
    pub found: Findings,
}

impl Route {
    /// Returns the route to a rewritten text. `line` is the location of the line, unless the line is refused.
    pub fn of_rewritten(
        alloc: Global,
        config: &Config<'_>,
        line: Option<&Url>,
        text: &Rewritten<'_>,
    ) -> Result<Route, AllocError> {
        let goal = Goal::of(alloc, text)?;
        let route = Route::of(alloc, config, line, &goal);
        drop(goal);
        let mut route = route?;
        route.rewritten = text.is_rewritten();
        Ok(route)
    }

    /// The route to the line itself.
    pub(crate) fn of_line(
        alloc: Global,
        config: &Config<'_>,
        read: ReadLine<'_>,
    ) -> Result<Route, AllocError> {
        let text = read.line.shown_text(alloc)?;
        let (mut route, found) = both(
            Route::to(alloc, config, read.line.bytes, text)?,
            copied(alloc, read.dangers),
        )?;
        route.same_host = same_host(read.url, read.url);
        route.found = route.found.union(read.found);
        route.found_dangers = found;
        named(alloc, route)
    }

    /// The route to a text to which a rule rewrites a line. `line` is the location of the line, unless it is refused.
    pub(crate) fn of(
        alloc: Global,
        config: &Config<'_>,
        line: Option<&Url>,
        goal: &Goal,
    ) -> Result<Route, AllocError> {
        let bytes = goal.text.as_bytes();
        let text = shown_text(alloc, bytes)?;
        let (mut route, found) = both(Route::to(alloc, config, bytes, text)?, goal.dangers(alloc))?;
        route.rewritten = true;
        route.same_host = same_host(line, goal.url.as_ref());
        route.found = route.found.union(goal.found(found.as_slice()));
        route.found_dangers = found;
        named(alloc, route)
    }

    /// The route to a text, which is shown so, with its transport and nothing else.
    fn to(
        alloc: Global,
        config: &Config<'_>,
        bytes: &[u8],
        text: String,
    ) -> Result<Route, AllocError> {
        let (text, (transport, no_transport)) = both(
            text,
            transport_for(alloc, &config.protocols, bytes),
        )?;
        Ok(Route {
            text,
            rewritten: false,
            same_host: None,
            found: Findings::of_transport(transport.as_ref()),
            transport,
            no_transport,
            dangers: Vec::new(alloc),
            found_dangers: Vec::new(alloc),
        })
    }
}

/// A copy of these dangers.
fn copied(alloc: Global, dangers: &[Danger]) -> Result<Vec<Danger>, AllocError> {
    let mut copy = Vec::new(alloc);
    copy.extend_from_slice(dangers)?;
    Ok(copy)
}

/// A route with the names of the dangers of its text.
fn named(alloc: Global, route: Route) -> Result<Route, AllocError> {
    let names = names(alloc, route.found_dangers.as_slice());
    let (mut route, names) = both(route, names)?;
    route.dangers = names;
    Ok(route)
}

/// Whether a text names the same host as the line, if both are locations.
fn same_host(line: Option<&Url>, text: Option<&Url>) -> Option<bool>
    ensures { SaysSameHost (option_map (λ url. url.now) line.entry)
        (option_map (λ url. url.now) text.entry) result }
{
    match (line, text) {
        (Some(line), Some(url)) => Some(names_same_host(&line.as_ref(), &url.as_ref())),
        _ => None,
    }
}
