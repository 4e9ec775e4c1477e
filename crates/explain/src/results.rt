//! A SARIF log: its beginning with the tool and its rules, its results, and its end.
//!
//! Each result begins with a comma, which is omitted when the first one is written, so the log is written result by
//! result. `tests/programs/test_command_lines.py` tests logs.

use crate::options::VERSION;
use crate::style::{Layout, Style};
use explain_audit::item::Item;
use explain_audit::kind::Kind;
use explain_audit::sarif::{
    Artifact, Driver, Location, Logical, Message, Outcome, Physical, Rule, Spot, Tool, rules,
};
use explain_audit::uri::uri_of;
use gix_url::lines::RunError;
use std::alloc::{AllocError, Global};
use std::io::Write;

/// The text before the tool.
const BEFORE_TOOL: &str =
    "{\"$schema\":\"https://json.schemastore.org/sarif-2.1.0.json\",\"version\":\"2.1.0\",\"runs\":[{\"tool\":";
/// The text between the tool and the results.
const BEFORE_RESULTS: &str = ",\"columnKind\":\"unicodeCodePoints\",\"results\":[";

/// The origin of lines.
#[derive(Drop)]
pub struct Origin {
    /// The URI of the file; `None` for an argument, and if no log is written.
    uri: Option<String>,
    /// The number of the line of the file, or of the argument, from 1.
    line: u64,
}

impl Origin {
    /// No known origin. Allocates nothing.
    pub fn unknown() -> Origin {
        Origin { uri: None, line: 0 }
    }

    /// A file, before its first line.
    pub fn file(alloc: Global, layout: Layout, file: &str) -> Result<Origin, AllocError> {
        let uri = match layout {
            Layout::Sarif => Some(uri_of(alloc, file)?),
            _ => None,
        };
        Ok(Origin { uri, line: 0 })
    }

    /// An argument that follows this number of arguments.
    pub fn argument(before: usize) -> Origin {
        Origin {
            uri: None,
            line: before as u64,
        }
    }

    /// Counts a line.
    pub fn count(&mut self) {
        self.line = self.line.saturating_add(1);
    }

    /// The URI of the file, if there is one.
    pub fn uri(&self) -> Option<&str> {
        self.uri.as_deref()
    }

    /// The number of the line, or of the argument.
    pub fn line(&self) -> u64 {
        self.line
    }
}

/// Writes the text before the results, if a log is requested.
pub fn write_head<W: Write>(
    alloc: Global,
    style: Style<'_, '_>,
    output: &mut W,
) -> Result<(), RunError> {
    if !matches!(style.layout, Layout::Sarif) {
        return Ok(());
    }
    let head = head(alloc)?;
    output
        .write_all(head.as_str().as_bytes())
        .map_err(RunError::Write)
}

/// The text before the results.
fn head(alloc: Global) -> Result<String, AllocError> {
    let rules = rules(alloc)?;
    let tool = tool(alloc, rules.as_slice());
    drop(rules);
    let mut head = String::from_str(alloc, BEFORE_TOOL)?;
    head.push_str(tool?.as_str())?;
    head.push_str(BEFORE_RESULTS)?;
    Ok(head)
}

/// The tool with its rules.
fn tool(alloc: Global, rules: &[Rule]) -> Result<String, AllocError> {
    let driver = Driver {
        name: "explain",
        version: VERSION,
        rules,
    };
    let tool = Tool { driver };
    text_of(serde_json::to_string(alloc, &tool))
}

/// The text after the results, which records whether all input was read.
pub fn tail(is_whole: bool) -> &'static str {
    if is_whole {
        "\n],\"invocations\":[{\"executionSuccessful\":true}]}]}\n"
    } else {
        "\n],\"invocations\":[{\"executionSuccessful\":false}]}]}\n"
    }
}

/// Appends a result for each finding at a spot.
pub fn push_items(
    alloc: Global,
    out: &mut String,
    items: &[Item],
    spot: Spot<'_>,
) -> Result<(), AllocError> {
    for item in items {
        push(alloc, out, item.kind, item.words.as_str(), spot)?;
    }
    Ok(())
}

/// Appends a result: the finding, its words, and its place.
pub fn push(
    alloc: Global,
    out: &mut String,
    kind: Kind,
    words: &str,
    spot: Spot<'_>,
) -> Result<(), AllocError> {
    let logical = [Logical {
        name: spot.name.unwrap_or(""),
    }];
    let locations = [Location {
        physical_location: physical(spot),
        logical_locations: spot.name.map(|_| logical.as_slice()),
    }];
    let outcome = Outcome {
        rule_id: kind.name(),
        rule_index: kind.index(),
        level: kind.level(),
        message: Message { text: words },
        locations: locations.as_slice(),
    };
    let text = text_of(serde_json::to_string(alloc, &outcome))?;
    out.push_str(",\n")?;
    out.push_str(text.as_str())
}

/// The place of a spot in a file, if it is in one.
fn physical(spot: Spot<'_>) -> Option<Physical<'_>> {
    let uri = spot.uri?;
    Some(Physical {
        artifact_location: Artifact { uri },
        region: spot.region,
    })
}

/// The text of an object. The call fails only if memory is refused.
fn text_of<E: Drop>(written: Result<String, E>) -> Result<String, AllocError> {
    match written {
        Ok(text) => Ok(text),
        Err(_) => Err(AllocError),
    }
}
