//! The objects of SARIF 2.1.0 that are written: the tool with its rules, and results.

use crate::kind::{Kind, Level};
use serde::Serialize;
use std::alloc::{AllocError, Global};

/// A text.
#[derive(Clone, Copy, Serialize)]
pub struct Message<'a> {
    pub text: &'a str,
}

/// The program that wrote the file.
#[derive(Clone, Copy, Serialize)]
pub struct Tool<'a> {
    pub driver: Driver<'a>,
}

/// The program, its version and its rules.
#[derive(Clone, Copy, Serialize)]
pub struct Driver<'a> {
    pub name: &'a str,
    pub version: &'a str,
    pub rules: &'a [Rule],
}

/// A rule: a kind of finding.
#[derive(Drop, Serialize)]
#[serde(rename_all = "camelCase")]
pub struct Rule {
    pub id: &'static str,
    pub short_description: Words,
    pub default_configuration: Configuration,
}

/// A text, owned.
#[derive(Drop, Serialize)]
pub struct Words {
    pub text: String,
}

/// The level of a rule.
#[derive(Clone, Copy, Serialize)]
pub struct Configuration {
    pub level: Level,
}

/// Returns the rules, in the order of [`Kind::ALL`].
pub fn rules(alloc: Global) -> Result<Vec<Rule>, AllocError> {
    let mut rules = Vec::new(alloc);
    let all = Kind::ALL;
    for kind in &all {
        rules.push(Rule {
            id: kind.name(),
            short_description: Words {
                text: kind.words(alloc)?,
            },
            default_configuration: Configuration {
                level: kind.level(),
            },
        })?;
    }
    Ok(rules)
}

/// A result: a finding.
#[derive(Clone, Copy, Serialize)]
#[serde(rename_all = "camelCase")]
pub struct Outcome<'a> {
    pub rule_id: &'static str,
    pub rule_index: usize,
    pub level: Level,
    pub message: Message<'a>,
    pub locations: &'a [Location<'a>],
}

/// The place of a result.
#[derive(Clone, Copy, Serialize)]
#[serde(rename_all = "camelCase")]
pub struct Location<'a> {
    #[serde(skip_serializing_if = "Option::is_none")]
    pub physical_location: Option<Physical<'a>>,
    #[serde(skip_serializing_if = "Option::is_none")]
    pub logical_locations: Option<&'a [Logical<'a>]>,
}

/// A place in a file.
#[derive(Clone, Copy, Serialize)]
#[serde(rename_all = "camelCase")]
pub struct Physical<'a> {
    pub artifact_location: Artifact<'a>,
    #[serde(skip_serializing_if = "Option::is_none")]
    pub region: Option<Region>,
}

/// A file.
#[derive(Clone, Copy, Serialize)]
pub struct Artifact<'a> {
    pub uri: &'a str,
}

/// An item with a name.
#[derive(Clone, Copy, Serialize)]
pub struct Logical<'a> {
    pub name: &'a str,
}

/// A part of a line, with its columns in characters.
#[derive(Clone, Copy, Serialize)]
#[serde(rename_all = "camelCase")]
pub struct Region {
    pub start_line: u64,
    pub start_column: usize,
    pub end_column: usize,
}

/// The place of a result: in a file, at a named item, or both.
#[derive(Clone, Copy)]
pub struct Spot<'a> {
    pub uri: Option<&'a str>,
    pub region: Option<Region>,
    pub name: Option<&'a str>,
}
