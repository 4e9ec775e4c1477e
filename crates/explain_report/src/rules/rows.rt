//! The way Git uses a line by a configuration, as rows for people: each row has a name, and pieces of words and texts.
//!
//! A terminal and a page format the same rows, so each sentence is only here. A piece that shows a member of `rules` in
//! the JSON object names that member.

ghost use Rattle.std.specs.Prelude.{◌≡◌, option_map};
ghost use Rattle.explain_report.specs.Routes as spec;

use crate::rules::Rules;
use crate::rules::credentials::Credentials;
use crate::rules::route::Route;
use crate::rules::setting::Setting;
use crate::rules::transports::Transport;
use std::alloc::{AllocError, Global};

/// A row.
#[derive(Drop)]
pub struct Row<'a> {
    pub name: &'static str,
    /// The member of the JSON object that the row shows.
    pub of: &'static str,
    pub pieces: Vec<Piece<'a>>,
}

/// A piece of a row. If it shows a member of the JSON object, `below` is the end of the member's name, after that of
/// the row's member.
#[derive(Clone, Copy)]
pub enum Piece<'a> {
    /// Words of this program that show no member.
    Words(&'static str),
    /// Words of this program, and their name in the JSON object, if they have one.
    Named {
        below: &'static str,
        value: &'static str,
        words: &'a str,
    },
    /// A text of the line or of the configuration, and whether a rule has changed it.
    Text {
        below: &'static str,
        is_made: bool,
        text: &'a str,
    },
    /// An entry of the configuration.
    Entry {
        below: &'static str,
        setting: &'a Setting,
    },
}

/// The operation for which Git uses a text.
#[derive(Clone, Copy)]
pub enum Way {
    Fetch,
    Push,
}

impl Way {
    /// Returns the name of the operation's row.
    pub fn name(self) -> &'static str {
        match self {
            Way::Fetch => "fetches",
            Way::Push => "pushes",
        }
    }

    /// The member of the JSON object.
    fn of(self) -> &'static str {
        match self {
            Way::Fetch => "rules.fetch",
            Way::Push => "rules.push",
        }
    }
}

/// Returns the rows of a line.
pub fn of_line<'a>(alloc: Global, rules: &'a Rules) -> Result<Vec<Row<'a>>, AllocError> {
    let mut rows: Vec<Row<'a>> = Vec::new(alloc);
    line_route(alloc, &mut rows, Way::Fetch, &rules.fetch)?;
    line_route(alloc, &mut rows, Way::Push, rules.push())?;
    credential(alloc, &mut rows, &rules.credential)?;
    settings(
        alloc,
        &mut rows,
        "http",
        "rules.http",
        rules.http.as_slice(),
    )?;
    transports(alloc, &mut rows, rules)?;
    Ok(rows)
}

/// Returns the rows of a text that Git uses for a remote or a submodule: the text, its transport and its findings.
pub fn of_route<'a>(alloc: Global, way: Way, route: &'a Route) -> Result<Vec<Row<'a>>, AllocError> {
    let mut rows: Vec<Row<'a>> = Vec::new(alloc);
    text(alloc, &mut rows, way, route)?;
    transport(alloc, &mut rows, way, route, "")?;
    found(alloc, &mut rows, way, route)?;
    Ok(rows)
}

/// Appends the rows of a text that Git uses for a line. The findings are left out if the text is the line.
fn line_route<'a>(
    alloc: Global,
    rows: &mut Vec<Row<'a>>,
    way: Way,
    route: &'a Route,
) -> Result<(), AllocError> {
    text(alloc, rows, way, route)?;
    if route.rewritten {
        return found(alloc, rows, way, route);
    }
    Ok(())
}

/// Appends the row of a text that Git uses, with a warning if it names a host other than the line's.
fn text<'a>(
    alloc: Global,
    rows: &mut Vec<Row<'a>>,
    way: Way,
    route: &'a Route,
) -> Result<(), AllocError> {
    let mut pieces = Vec::new(alloc);
    pieces.push(Piece::Text {
        below: ".text",
        is_made: route.rewritten,
        text: route.text.as_str(),
    })?;
    if let Some(false) = route.same_host {
        pieces.push(Piece::Named {
            below: ".same_host",
            value: "false",
            words: ", on another host than the line's",
        })?;
    }
    add(rows, way.name(), way.of(), pieces)
}

/// Appends the rows of the findings about a text that Git uses.
fn found<'a>(
    alloc: Global,
    rows: &mut Vec<Row<'a>>,
    way: Way,
    route: &'a Route,
) -> Result<(), AllocError> {
    for danger in &route.found_dangers {
        let piece = Piece::Named {
            below: ".dangers",
            value: danger.name(),
            words: danger.words(),
        };
        add_one(alloc, rows, "danger", way.of(), piece)?;
    }
    for (is_found, name, value, words) in [
        (
            route.found.refused,
            "refused",
            "refused",
            "it is read as no location",
        ),
        (
            route.found.unsettled,
            "unsettled",
            "unsettled",
            "its own text is read otherwise",
        ),
        (
            route.found.git_differs,
            "git",
            "git-differs",
            "isn't known to read the same in it",
        ),
    ] {
        if is_found {
            let below = "";
            add_one(
                alloc,
                rows,
                name,
                way.of(),
                Piece::Named {
                    below,
                    value,
                    words,
                },
            )?;
        }
    }
    Ok(())
}

/// Appends a row.
fn add<'a>(
    rows: &mut Vec<Row<'a>>,
    name: &'static str,
    of: &'static str,
    pieces: Vec<Piece<'a>>,
) -> Result<(), AllocError> {
    rows.push(Row { name, of, pieces })?;
    Ok(())
}

/// Appends a row with one piece.
fn add_one<'a>(
    alloc: Global,
    rows: &mut Vec<Row<'a>>,
    name: &'static str,
    of: &'static str,
    piece: Piece<'a>,
) -> Result<(), AllocError> {
    let mut pieces = Vec::new(alloc);
    pieces.push(piece)?;
    add(rows, name, of, pieces)
}

/// Appends the rows of the settings of Git's credential code: its helpers, the user and the path in the request.
/// Without helpers there are no rows.
fn credential<'a>(
    alloc: Global,
    rows: &mut Vec<Row<'a>>,
    credential: &'a Option<Credentials>,
) -> Result<(), AllocError> {
    let Some(used) = credential else {
        return Ok(());
    };
    let helpers = used.helpers.as_slice();
    settings(
        alloc,
        rows,
        "credential",
        "rules.credential.helpers",
        helpers,
    )?;
    if helpers.is_empty() {
        return Ok(());
    }
    if let Some(user) = &used.user {
        let text = Piece::Text {
            below: ".user",
            is_made: false,
            text: user.as_str(),
        };
        let mut pieces = Vec::new(alloc);
        pieces.push(Piece::Words("for the user "))?;
        pieces.push(text)?;
        add(rows, "credential", "rules.credential", pieces)?;
    }
    if used.use_http_path {
        let path = Piece::Named {
            below: ".use_http_path",
            value: "true",
            words: "with the path",
        };
        add_one(alloc, rows, "credential", "rules.credential", path)?;
    }
    Ok(())
}

/// Appends the rows of entries.
fn settings<'a>(
    alloc: Global,
    rows: &mut Vec<Row<'a>>,
    name: &'static str,
    of: &'static str,
    found: &'a [Setting],
) -> Result<(), AllocError> {
    for setting in found {
        add_one(alloc, rows, name, of, Piece::Entry { below: "", setting })?;
    }
    Ok(())
}

/// Appends the rows of the transports. There is one row if fetching and pushing use the same.
fn transports<'a>(
    alloc: Global,
    rows: &mut Vec<Row<'a>>,
    rules: &'a Rules,
) -> Result<(), AllocError> {
    transport(alloc, rows, Way::Fetch, &rules.fetch, "")?;
    if is_same(&rules.fetch, rules.push()) {
        Ok(())
    } else {
        transport(alloc, rows, Way::Push, rules.push(), " for pushing")
    }
}

/// Whether both have the same transport, and thus the same verdict, or have none for the same reason.
fn is_same(fetch: &Route, push: &Route) -> bool
    ensures { result ≡ spec.have_same_transport fetch.now push.now }
{
    match (&fetch.transport, &push.transport) {
        (Some(fetch), Some(push)) => fetch.name.as_str() == push.name.as_str(),
        (None, None) => reason_name(fetch) == reason_name(push),
        _ => false,
    }
}

/// The name of the reason why Git has no transport.
fn reason_name(route: &Route) -> Option<&'static str>
    ensures { option_map (λ name. name.now) result ≡ spec.reason_name route.now }
{
    match &route.no_transport {
        Some(lack) => Some(lack.reason),
        None => None,
    }
}

/// Appends the row of a transport, or of the reason why Git has none.
fn transport<'a>(
    alloc: Global,
    rows: &mut Vec<Row<'a>>,
    way: Way,
    route: &'a Route,
    what_for: &'static str,
) -> Result<(), AllocError> {
    let pieces = transport_pieces(alloc, route, what_for)?;
    add(rows, "transport", way.of(), pieces)
}

/// Returns a transport, whether Git uses it, and the variable or entry that decides; or the reason why Git has no
/// transport.
pub fn transport_pieces<'a>(
    alloc: Global,
    route: &'a Route,
    what_for: &'static str,
) -> Result<Vec<Piece<'a>>, AllocError> {
    let mut pieces: Vec<Piece<'a>> = Vec::new(alloc);
    if let Some(transport) = &route.transport {
        push_transport(&mut pieces, transport, what_for)?;
    }
    if let Some(lack) = &route.no_transport {
        pieces.push(Piece::Words("none"))?;
        pieces.push(Piece::Words(what_for))?;
        pieces.push(Piece::Words(": "))?;
        pieces.push(Piece::Named {
            below: ".no_transport",
            value: lack.reason,
            words: lack.words.as_str(),
        })?;
    }
    Ok(pieces)
}

/// Appends a transport: its name, its operation, whether Git uses it, and the variable or entry that decides.
fn push_transport<'a>(
    pieces: &mut Vec<Piece<'a>>,
    transport: &'a Transport,
    what_for: &'static str,
) -> Result<(), AllocError> {
    pieces.push(Piece::Named {
        below: ".transport.name",
        value: "",
        words: transport.name.as_str(),
    })?;
    pieces.push(Piece::Words(what_for))?;
    pieces.push(Piece::Words(" "))?;
    pieces.push(Piece::Named {
        below: ".transport.permission",
        value: transport.permission.name(),
        words: transport.permission.words(),
    })?;
    push_reason(pieces, transport)
}

/// Appends the variable or the entry that decides on a transport.
fn push_reason<'a>(
    pieces: &mut Vec<Piece<'a>>,
    transport: &'a Transport,
) -> Result<(), AllocError> {
    match (transport.variable, &transport.entry) {
        (None, None) => pieces.push(Piece::Words(" by default"))?,
        (Some(variable), _) => {
            pieces.push(Piece::Words(" by "))?;
            pieces.push(Piece::Named {
                below: ".transport.variable",
                value: "",
                words: variable,
            })?;
        }
        (None, Some(_)) => {}
    }
    if let Some(setting) = &transport.entry {
        pieces.push(Piece::Words(": "))?;
        pieces.push(Piece::Entry {
            below: ".transport.entry",
            setting,
        })?;
    }
    Ok(())
}
