//! The results about lines and remotes in a SARIF log.
//!
//! The messages are the words that people see. `tests/programs/test_command_lines.py` tests logs.

use crate::answer::{Line, Notes};
use crate::results::{Origin, push_items};
use crate::rule_rows::Pieces;
use explain_audit::item::{self, Item, add_dangers, add_reading, add_refusal};
use explain_audit::kind::Kind;
use explain_audit::place::count;
use explain_audit::sarif::{Region, Spot};
use explain_report::refusal::Refusal;
use explain_report::remotes::RemoteReport;
use explain_report::rules::Rules;
use explain_report::rules::route::Route;
use explain_report::rules::rows::{Way, transport_pieces};
use explain_report::text::line::Quoted;
use gix_url::{Error, Url};
use std::alloc::{AllocError, Global};
use std::fmt::Write;

/// The results about a line that is parsed as this location.
pub fn location(
    alloc: Global,
    line: Line<'_, '_>,
    url: &Url,
    notes: Notes<'_>,
) -> Result<String, AllocError> {
    let mut items = Vec::new(alloc);
    add_dangers(alloc, &mut items, notes.dangers)?;
    add_reading(alloc, &mut items, line.bytes, url)?;
    add_rules(alloc, &mut items, notes.rules)?;
    at_line(alloc, line, whole(line), items.as_slice())
}

/// The results about a line that is refused.
pub fn refusal(
    alloc: Global,
    line: Line<'_, '_>,
    error: &Error,
    rules: Option<&Rules>,
) -> Result<String, AllocError> {
    let refusal = Refusal::of_line(alloc, error)?;
    let mut items = Vec::new(alloc);
    add_refusal(alloc, &mut items, &refusal)?;
    let region = region_of(line, &refusal);
    drop(refusal);
    add_rules(alloc, &mut items, rules)?;
    at_line(alloc, line, region, items.as_slice())
}

/// The results about a line, in a region of it.
fn at_line(
    alloc: Global,
    line: Line<'_, '_>,
    region: Region,
    items: &[Item],
) -> Result<String, AllocError> {
    let mut out = String::new(alloc);
    match line.origin.uri() {
        Some(uri) => push_items(
            alloc,
            &mut out,
            items,
            Spot {
                uri: Some(uri),
                region: Some(region),
                name: None,
            },
        )?,
        None => push_named(alloc, &mut out, line.origin, "argument", items)?,
    }
    Ok(out)
}

/// Appends results about an argument.
fn push_named(
    alloc: Global,
    out: &mut String,
    origin: &Origin,
    what: &str,
    items: &[Item],
) -> Result<(), AllocError> {
    let mut name = String::new(alloc);
    let number = origin.line();
    write!(name, "{what} {number}")?;
    let spot = Spot {
        uri: None,
        region: None,
        name: Some(name.as_str()),
    };
    let pushed = push_items(alloc, out, items, spot);
    drop(name);
    pushed
}

/// The whole line.
fn whole(line: Line<'_, '_>) -> Region {
    Region {
        start_line: line.origin.line(),
        start_column: 1,
        end_column: count(line.bytes).saturating_add(1),
    }
}

/// The part of a line that is refused, or the whole line if the part isn't known.
fn region_of(line: Line<'_, '_>, refusal: &Refusal) -> Region {
    let (Some(at), Some(len)) = (refusal.at, refusal.len) else {
        return whole(line);
    };
    let (front, rest) = line.bytes.split_at(at.min(line.bytes.len()));
    let (part, _) = rest.split_at(len.min(rest.len()));
    let start = count(front).saturating_add(1);
    Region {
        start_line: line.origin.line(),
        start_column: start,
        end_column: start.saturating_add(count(part)),
    }
}

/// Adds the findings by a configuration: about the transports, and about texts that a rule has rewritten.
fn add_rules(
    alloc: Global,
    items: &mut Vec<Item>,
    rules: Option<&Rules>,
) -> Result<(), AllocError> {
    let Some(rules) = rules else {
        return Ok(());
    };
    add_route(
        alloc,
        items,
        Way::Fetch,
        &rules.fetch,
        rules.fetch.rewritten,
    )?;
    let push = rules.push();
    add_route(alloc, items, Way::Push, push, push.rewritten)
}

/// Adds the findings about a text that Git connects to: about its transport, and with `with_text` about the text.
pub fn add_route(
    alloc: Global,
    items: &mut Vec<Item>,
    way: Way,
    route: &Route,
    with_text: bool,
) -> Result<(), AllocError> {
    if route.found.policy {
        let pieces = transport_pieces(alloc, route, "")?;
        let words = Pieces(pieces.as_slice()).to_string(alloc)?;
        add(alloc, items, Kind::Policy, way, route, words.as_str())?;
    }
    if !with_text {
        return Ok(());
    }
    for danger in &route.found_dangers {
        add(
            alloc,
            items,
            Kind::Danger(*danger),
            way,
            route,
            danger.words(),
        )?;
    }
    add_reading_of(alloc, items, way, route)
}

/// Adds the findings about how the text is parsed.
fn add_reading_of(
    alloc: Global,
    items: &mut Vec<Item>,
    way: Way,
    route: &Route,
) -> Result<(), AllocError> {
    for (kind, is_found) in [
        (Kind::NoLocation, route.found.refused),
        (Kind::Unsettled, route.found.unsettled),
        (Kind::GitDiffers, route.found.git_differs),
    ] {
        if is_found {
            let words = kind.words(alloc)?;
            add(alloc, items, kind, way, route, words.as_str())?;
        }
    }
    Ok(())
}

/// Adds a finding about a text that Git connects to, with the text before the words.
fn add(
    alloc: Global,
    items: &mut Vec<Item>,
    kind: Kind,
    way: Way,
    route: &Route,
    words: &str,
) -> Result<(), AllocError> {
    let mut front = String::new(alloc);
    let (name, text) = (way.name(), Quoted(route.text.as_str().as_bytes()));
    write!(front, "Git {name} {text}: ")?;
    item::add_words(alloc, items, kind, front.as_str(), words)
}

/// The results about a remote.
pub fn remote(alloc: Global, remote: &RemoteReport, origin: &Origin) -> Result<String, AllocError> {
    let mut items = Vec::new(alloc);
    if let Some(at) = remote.stops_at {
        add_stop(alloc, &mut items, at)?;
    }
    for way in &remote.fetch {
        add_route(alloc, &mut items, Way::Fetch, way, true)?;
    }
    for way in &remote.push {
        add_route(alloc, &mut items, Way::Push, way, true)?;
    }
    let mut out = String::new(alloc);
    let spot = Spot {
        uri: origin.uri(),
        region: None,
        name: Some(remote.remote.as_str()),
    };
    push_items(alloc, &mut out, items.as_slice(), spot)?;
    Ok(out)
}

/// Adds a finding that Git stops at an entry.
fn add_stop(alloc: Global, items: &mut Vec<Item>, at: usize) -> Result<(), AllocError> {
    let mut words = String::new(alloc);
    write!(
        words,
        "Git stops at the entry at byte {at}, which has no value"
    )?;
    items.push(Item {
        kind: Kind::NoLocation,
        words,
    })?;
    Ok(())
}
