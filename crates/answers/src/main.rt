//! Makes calls of the library and reports their results, which `tests/rows` compares with the rows of `vectors/`.
//!
//! Each line of the standard input is an order: one call, as JSON. Its result is one line of JSON. `order` parses
//! orders, `build` builds the inputs of calls, `calls` is the table of calls, `rules` that of calls of `git_rules`, and
//! `report` and `parts` report results.
//!
//! All memory except the call's own is allocated before the call is made, and an order can end there. So
//! `tests/hostile` can count the allocations of a call, and refuse each of them.
#![tactic(auto)]

mod build;
mod bytes;
mod calls;
mod commands;
mod config_files;
mod credentials;
mod dangers;
mod errors;
mod halt;
mod misreadings;
mod order;
mod parts;
mod places;
mod readings;
mod remotes;
mod report;
mod resolved;
mod rewriting;
mod rule_outcomes;
mod rule_words;
mod rules;
mod secrets;
mod shown;
mod ssh_programs;
mod submodules;
mod text_parts;

use halt::Halt;
use order::Order;
use report::Out;
use serde_json::Value;
use std::alloc::Global;
use std::io::{self, BufRead, BufReader, BufWriter, Write};

/// Executes the order on a line.
fn carry_out(alloc: Global, line: &[u8], out: &mut Out) -> Result<(), Halt> {
    let Ok(members) = Value::from_slice(alloc, line) else {
        return Err(Halt::Unread);
    };
    let outcome = calls::make(alloc, &Order::new(&members), out);
    drop(members);
    outcome
}

/// Writes the result of the order on a line.
fn answer(alloc: Global, line: &[u8], out: &mut Out) -> io::Result<()> {
    match carry_out(alloc, line, out) {
        Ok(()) => {}
        Err(Halt::NotReported(error)) => return Err(error),
        Err(halt) => write!(out, "{{\"halt\":\"{}\"}}", halt.words())?,
    }
    out.write_all(b"\n")
}

fn main(rt: HostRuntime) -> io::Result<()> {
    let alloc = rt.alloc();
    let mut out = BufWriter::new(alloc, rt.stdout())?;
    for line in BufReader::new(alloc, rt.reader())?.split(alloc, b'\n') {
        answer(alloc, line?.as_slice(), &mut out)?;
    }
    out.flush()
}
