//! The way Git uses a line by a configuration: the texts that it fetches from and pushes to, with their transports and
//! settings.
//!
//! [`config`] is the configuration, which is read once for all lines. [`route`] has a rewritten text. [`transports`],
//! [`credentials`] and `settings` apply the configuration to it, [`setting`] shows an entry without secrets, and
//! [`rows`] puts the results in words.

ghost use Rattle.std.specs.Prelude.{◌≡◌, ◌↔◌, IfOk, IsNone, IsTrue, MatchOption, option_map};
ghost use Rattle.explain_report.specs.Findings.{none};
ghost use Rattle.explain_report.specs.Pushes.{found_by_rules, pushed_route};

pub mod config;
pub mod credentials;
mod goal;
pub mod route;
pub mod rows;
pub mod setting;
mod settings;
pub mod transports;

use crate::finding::Findings;
use crate::git_report::is_of_web;
use crate::memory::both;
use crate::rules::config::Config;
use crate::rules::credentials::Credentials;
use crate::rules::goal::Goal;
use crate::rules::route::Route;
use crate::rules::setting::Setting;
use crate::rules::settings::settings_for;
use crate::rules::transports::has_used_transport;
use crate::text::marked::MarkedLine;
use git_audit::danger::Danger;
use git_rules::rewrite::outcome::Rewritten;
use gix_url::Url;
use serde::{Described, Serialize, Serializer};
use std::alloc::{AllocError, Global};

/// How Git uses a line by a configuration.
#[derive(Drop)]
pub struct Rules {
    /// The text from which a remote with this URL is fetched.
    pub fetch: Route,
    /// The text to which it is pushed, unless that is the text from which it is fetched.
    pub own_push: Option<Route>,
    /// The settings of Git's credential code for the text to fetch from, if that is of HTTP.
    pub credential: Option<Credentials>,
    /// The entries of each name of `http.*` that Git uses for that text.
    pub http: Vec<Setting>,
}

/// A line as it is read.
#[derive(Clone, Copy)]
pub struct ReadLine<'b> {
    pub line: MarkedLine<'b>,
    /// Its location, unless it is refused.
    pub url: Option<&'b Url>,
    /// The dangers of the line and its location.
    pub dangers: &'b [Danger],
    /// The findings about the line, which has these dangers.
    pub found: Findings,
}

impl Described for Rules {}

impl Serialize for Rules {
    fn serialize<S: Serializer>(&self, out: &mut S) -> Result<(), S::Error> {
        out.begin_map(Some(4))?;
        out.key("fetch")?;
        self.fetch.serialize(out)?;
        out.key("push")?;
        self.push().serialize(out)?;
        out.key("credential")?;
        self.credential.serialize(out)?;
        out.key("http")?;
        self.http.serialize(out)?;
        out.end_map()
    }
}

impl Rules {
    /// Returns how Git uses a line by the configuration, if one is given.
    pub fn of_input(
        alloc: Global,
        config: Option<&Config<'_>>,
        read: ReadLine<'_>,
    ) -> Result<Option<Rules>, AllocError>
        ensures { IfOk result (λ rules. IsNone rules ↔ IsNone config.entry) }
    {
        match config {
            None => Ok(None),
            Some(config) => Ok(Some(Rules::of(alloc, config, read)?)),
        }
    }

    /// How Git uses a line by the configuration.
    fn of(alloc: Global, config: &Config<'_>, read: ReadLine<'_>) -> Result<Rules, AllocError> {
        let line = read.line.bytes;
        let (fetched, pushed) = (
            config.rewrites.rewrite_fetch(line),
            config.rewrites.rewrite_push(line, false),
        );
        let own_push = if is_same_text(&fetched, &pushed) {
            Ok(None)
        } else {
            Route::of_rewritten(alloc, config, read.url, &pushed).map(Some)
        };
        let (own_push, found) = both(own_push?, fetched_by(alloc, config, read, &fetched))?;
        let (fetch, (credential, http)) = found;
        Ok(Rules {
            fetch,
            own_push,
            credential,
            http,
        })
    }

    /// Returns the text to which a remote with this URL is pushed.
    pub fn push(&self) -> &Route
        ensures { result.now ≡ pushed_route self.now }
    {
        match &self.own_push {
            None => &self.fetch,
            Some(push) => push,
        }
    }

    /// Returns the findings about the texts to which the line is rewritten.
    pub fn found(&self) -> Findings
        ensures { result ≡ found_by_rules self.now }
    {
        self.fetch.found.union(self.push().found)
    }
}

/// Whether two rules, or none, rewrite a line to the same text.
fn is_same_text(fetched: &Rewritten<'_>, pushed: &Rewritten<'_>) -> bool
    ensures base { IsTrue result → fetched.now.base ≡ pushed.now.base }
    ensures rest { IsTrue result → fetched.now.rest ≡ pushed.now.rest }
{
    is_same_base(fetched.base, pushed.base) && fetched.rest == pushed.rest
}

/// Whether both rules put the same text in place of the front, or there is none.
fn is_same_base(fetched: Option<&[u8]>, pushed: Option<&[u8]>) -> bool
    ensures { IsTrue result
        → option_map (λ t. t.now) fetched.entry ≡ option_map (λ t. t.now) pushed.entry }
{
    match (fetched, pushed) {
        (None, None) => true,
        (Some(fetched), Some(pushed)) => fetched == pushed,
        (None, Some(_)) | (Some(_), None) => false,
    }
}

/// The route to the text from which Git fetches, with the settings for that text.
fn fetched_by(
    alloc: Global,
    config: &Config<'_>,
    read: ReadLine<'_>,
    fetched: &Rewritten<'_>,
) -> Result<(Route, (Option<Credentials>, Vec<Setting>)), AllocError> {
    if !fetched.is_rewritten() {
        return both(
            Route::of_line(alloc, config, read)?,
            settings_of(alloc, config, read.line.bytes, read.url),
        );
    }
    let goal = Goal::of(alloc, fetched)?;
    let route = Route::of(alloc, config, read.url, &goal);
    let settings = settings_of(alloc, config, goal.text.as_bytes(), goal.url.as_ref());
    drop(goal);
    both(route?, settings)
}

/// Returns the findings about the texts to which a line with these findings is rewritten by the configuration, if one
/// is given: those of [`Rules::found`], without the values that are reported.
pub fn findings_by(
    alloc: Global,
    config: Option<&Config<'_>>,
    line: &[u8],
    own: Findings,
) -> Result<Findings, AllocError> {
    let Some(config) = config else {
        return Ok(Findings::none());
    };
    let (fetched, pushed) = (
        config.rewrites.rewrite_fetch(line),
        config.rewrites.rewrite_push(line, false),
    );
    let found = text_findings(alloc, config, &fetched, own)?;
    if is_same_text(&fetched, &pushed) {
        return Ok(found);
    }
    Ok(found.union(text_findings(alloc, config, &pushed, own)?))
}

/// The findings about a text to which a line with these findings is rewritten.
fn text_findings(
    alloc: Global,
    config: &Config<'_>,
    text: &Rewritten<'_>,
    own: Findings,
) -> Result<Findings, AllocError> {
    if !text.is_rewritten() {
        return Ok(own.union(findings_of_use(config, text.rest)));
    }
    let goal = Goal::of(alloc, text)?;
    let dangers = goal.dangers(alloc);
    let (goal, dangers) = both(goal, dangers)?;
    let of_text = goal.found(dangers.as_slice());
    let of_use = findings_of_use(config, goal.text.as_bytes());
    drop(dangers);
    drop(goal);
    Ok(of_text.union(of_use))
}

/// The finding about the transport of a text.
fn findings_of_use(config: &Config<'_>, text: &[u8]) -> Findings {
    Findings::of_use(has_used_transport(&config.protocols, text))
}

/// Returns the findings about the texts to which a line is rewritten by the configuration, if one is given.
pub fn found_by(rules: Option<&Rules>) -> Findings
    ensures { MatchOption rules.entry (result ≡ none) (λ it. result ≡ found_by_rules it.now) }
{
    match rules {
        None => Findings::none(),
        Some(rules) => rules.found(),
    }
}

/// The settings of Git's credential code for a text with this location, if it is of HTTP, and the entries of `http.*`
/// that Git uses for it. Both are empty for another text.
fn settings_of(
    alloc: Global,
    config: &Config<'_>,
    text: &[u8],
    url: Option<&Url>,
) -> Result<(Option<Credentials>, Vec<Setting>), AllocError> {
    if !url.is_some_and(is_of_web) {
        return Ok((None, Vec::new(alloc)));
    }
    let credential = Credentials::of(alloc, config.credentials.as_slice(), text)?;
    if config.http.is_empty() {
        return Ok((credential, Vec::new(alloc)));
    }
    both(credential, settings_for(alloc, config, text))
}
