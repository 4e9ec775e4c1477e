//! Calls of `git_audit` over dangers.
//!
//! `url` is a location, and `text` the text that Git gets if that differs; `danger` is the name of one.

use crate::build;
use crate::halt::Halt;
use crate::order::{Order, unknown};
use crate::report::{Out, Report, report_borrowed, report_owned};
use git_audit::danger::{Danger, dangers};
use std::alloc::Global;
use std::io::{self, Write};

/// Whether a call is over dangers, by the module or the type in its name.
pub fn has(name: &str) -> bool {
    name.starts_with("danger::") || name.starts_with("Danger::")
}

/// Makes the call of an order.
pub fn make(alloc: Global, order: Order<'_>, out: &mut Out) -> Result<(), Halt> {
    match order.text("danger") {
        None => over_url(alloc, order, out),
        Some(name) => over_danger(order, danger_named(name)?, out),
    }
}

/// Reports the dangers of a location.
fn over_url(alloc: Global, order: Order<'_>, out: &mut Out) -> Result<(), Halt> {
    let text = order.bytes(alloc, if order.has("text") { "text" } else { "url" })?;
    let url = build::url(alloc, order, "url")?;
    let outcome = match order.call() {
        "" => Ok(()),
        "danger::dangers" => report_owned(out, dangers(alloc, text.as_slice(), &url.as_ref())),
        call => unknown(call),
    };
    drop(url);
    drop(text);
    outcome
}

/// Reports the name of a danger, or its words.
fn over_danger(order: Order<'_>, danger: Danger, out: &mut Out) -> Result<(), Halt> {
    match order.call() {
        "Danger::name" => report_borrowed(out, &danger.name()),
        "Danger::words" => report_borrowed(out, &danger.words()),
        call => unknown(call),
    }
}

/// The danger with this name.
fn danger_named(name: &str) -> Result<Danger, Halt> {
    match name {
        "Command" => Ok(Danger::Command),
        "OptionLikeUser" => Ok(Danger::OptionLikeUser),
        "OptionLikeHost" => Ok(Danger::OptionLikeHost),
        "OptionLikePath" => Ok(Danger::OptionLikePath),
        "Password" => Ok(Danger::Password),
        "Token" => Ok(Danger::Token),
        "HostCharacter" => Ok(Danger::HostCharacter),
        "LineEnd" => Ok(Danger::LineEnd),
        "OtherHost" => Ok(Danger::OtherHost),
        "MisreadHost" => Ok(Danger::MisreadHost),
        _ => Err(Halt::Unprepared),
    }
}

impl Report for Vec<Danger> {
    fn report(&self, out: &mut Out) -> io::Result<()> {
        let mut before = "[\"";
        for danger in self {
            let name = danger.name();
            write!(out, "{before}{name}")?;
            before = "\",\"";
        }
        out.write_all(if self.is_empty() { b"[]" } else { b"\"]" })
    }
}
