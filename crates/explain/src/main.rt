//! The program `explain` reports the locations that texts spell, to people and to other programs.
//!
//! It calls only the public functions of `gix_url` and `git_rules`, directly or in the crates below: `explain_report`
//! finds the facts about a line, and `explain_page` writes the page. `options` parses the command line, `source` reads
//! a configuration, `input` reads the lines, `answer` builds the report about a line and `style` describes its layout.
//! Each report is written as soon as its line is read, except for a page or a summary, which is collected. Contracts
//! state which words a shell takes literally, and for which variant of a program and which version of Git's protocol a
//! command is. The other functions here have no contract, except that they can't abort.
//!
//! The status is 0 if no line has a finding that the run fails for, 1 if one has, and 2 if the run was cut short, a
//! file can't be opened or the options are wrong.
#![tactic(auto)]

mod answer;
mod client;
mod commands;
mod input;
mod line_end;
mod line_results;
mod module_rows;
mod modules;
mod object;
mod only;
mod options;
mod paint;
mod remote_rows;
mod results;
mod rule_rows;
mod shell_line;
mod shown;
mod source;
mod style;
mod summary;

use clap::ArgMatches;
use client::Client;
use explain_audit::module::configured;
use explain_report::remotes::{RemoteReport, names};
use explain_report::rules::config::{self, Config, Fault};
use explain_report::text::line::Shown;
use git_rules::config::{Entry, entries, entries_of};
use git_rules::protocols::Protocols;
use git_rules::ssh::program::SshSettings;
use gix_url::lines::RunError;
use input::answer_all;
use paint::Colors;
use results::Origin;
use source::{Source, SshVariables};
use std::alloc::{AllocError, Global};
use std::env;
use std::io::{ErrorKind, IsTerminal, Write};
use std::process::ExitCode;
use std::rt::Env;
use style::{Seen, Style};

/// Writes the reports that the command line requests. Returns the exit status.
fn explain(rt: &HostRuntime, given: &ArgMatches<'_>) -> u8 {
    let style = options::style(given, colors_of(rt));
    let mut output = rt.stdout();
    let mut seen = Seen::nothing(rt.alloc());
    let outcome = match results::write_head(rt.alloc(), style, &mut output) {
        Ok(()) => answer_input(rt, given, &mut output, style, &mut seen),
        Err(fault) => Err(fault),
    };
    let outcome = match outcome {
        Ok(()) => seen.write_end(style, options::title(given), &mut output),
        Err(fault) => Err(fault),
    };
    report(rt, &outcome);
    seen.status(style.fail_on, &outcome)
}

/// Reports about submodules, by a configuration, or about lines.
fn answer_input<W: Write>(
    rt: &HostRuntime,
    given: &ArgMatches<'_>,
    output: &mut W,
    style: Style<'_, '_>,
    seen: &mut Seen,
) -> Result<(), RunError> {
    if let Some(file) = options::module_file(given) {
        return modules::answer_file(rt, given, file, output, style, seen);
    }
    match options::config_file(given) {
        None => answer_all(rt, given, output, style, seen),
        Some(file) => answer_by_file(rt, given, file, output, style, seen),
    }
}

/// Writes the requested reports by the configuration in a file. If the file can't be read, prints that, and no reports.
fn answer_by_file<W: Write>(
    rt: &HostRuntime,
    given: &ArgMatches<'_>,
    file: &str,
    output: &mut W,
    style: Style<'_, '_>,
    seen: &mut Seen,
) -> Result<(), RunError> {
    if file == "-" && options::reads_input(given) && !given.get_flag("remotes") {
        let _ = rt.eprintln("explain: --config - needs the lines as arguments or in files");
        seen.lacks_file = true;
        return Ok(());
    }
    match Source::read(rt, file) {
        Ok(source) => {
            let outcome = answer_by_source(rt, given, &source, output, style, seen);
            drop(source);
            outcome
        }
        Err(error) => {
            let file = Shown(file.as_bytes());
            let _ = eprintln!(rt; "explain: cannot read {file}: {error}");
            drop(error);
            seen.lacks_file = true;
            Ok(())
        }
    }
}

/// Writes the requested reports by a configuration. Prints once which part of the configuration isn't understood.
fn answer_by_source<W: Write>(
    rt: &HostRuntime,
    given: &ArgMatches<'_>,
    source: &Source,
    output: &mut W,
    style: Style<'_, '_>,
    seen: &mut Seen,
) -> Result<(), RunError> {
    let entries = entries(rt.alloc(), source.text.as_slice())?;
    let of_protocols = entries_of(rt.alloc(), entries.as_slice(), "protocol")?;
    let config = config_of(
        rt.alloc(),
        source,
        entries.as_slice(),
        of_protocols.as_slice(),
    )?;
    for fault in &config::faults(rt.alloc(), entries.as_slice())? {
        report_fault(rt, *fault);
    }
    if given.get_flag("remotes") {
        let file = options::config_file(given).unwrap_or("-");
        seen.origin = Origin::file(rt.alloc(), style.layout, file)?;
        answer_remotes(rt.alloc(), &config, output, style, seen)?;
        let modules = configured(rt.alloc(), entries.as_slice(), &config)?;
        return modules::answer_reports(rt.alloc(), modules.as_slice(), output, style, seen);
    }
    if options::asks_for_commands(given) {
        return answer_commands(rt, given, entries.as_slice(), &config, output, style, seen);
    }
    answer_by_config(rt, given, &config, style.client, output, style, seen)
}

/// Writes the requested reports, with the program for Secure Shell by a configuration and the variables of the
/// environment. If Git stops at an entry that determines the program, prints that, and no reports.
fn answer_commands<W: Write>(
    rt: &HostRuntime,
    given: &ArgMatches<'_>,
    entries: &[Entry<'_>],
    config: &Config<'_>,
    output: &mut W,
    style: Style<'_, '_>,
    seen: &mut Seen,
) -> Result<(), RunError> {
    match SshVariables::read(rt) {
        Ok(variables) => {
            let outcome = match client_of(entries, config, &variables) {
                Ok(client) => answer_by_config(rt, given, config, client, output, style, seen),
                Err(at) => {
                    report_stop(rt, at);
                    seen.lacks_file = true;
                    Ok(())
                }
            };
            drop(variables);
            outcome
        }
        Err(error) => {
            let _ = eprintln!(rt; "explain: cannot read the environment: {error}");
            drop(error);
            seen.lacks_file = true;
            Ok(())
        }
    }
}

/// Reports on standard error that Git runs no command, since it stops at an entry.
fn report_stop(rt: &impl Eprint, at: usize) {
    let _ = eprintln!(rt;
        "explain: Git stops at the entry at byte {at} of the configuration, and runs no command"
    );
}

/// The program that Git runs by a configuration and these variables; or the position of the entry at which Git stops.
fn client_of<'e>(
    entries: &'e [Entry<'e>],
    config: &Config<'_>,
    variables: &'e SshVariables,
) -> Result<Client<'e>, usize> {
    let settings = SshSettings {
        entries,
        git_ssh_command: bytes_of(&variables.command),
        git_ssh: bytes_of(&variables.program),
        git_ssh_variant: bytes_of(&variables.variant),
    };
    let client = Client::of(&settings, &config.protocols);
    drop(settings);
    client
}

/// The configuration of these entries and of the variables of the environment. `of_protocols` has the entries of
/// `protocol.*` alone.
fn config_of<'e>(
    alloc: Global,
    source: &'e Source,
    entries: &'e [Entry<'e>],
    of_protocols: &'e [Entry<'e>],
) -> Result<Config<'e>, AllocError> {
    let protocols = Protocols {
        entries: of_protocols,
        allow_list: bytes_of(&source.allow_list),
        from_user: bytes_of(&source.from_user),
    };
    Config::of(alloc, entries, protocols)
}

/// Reports about each remote of the configuration.
fn answer_remotes<W: Write>(
    alloc: Global,
    config: &Config<'_>,
    output: &mut W,
    style: Style<'_, '_>,
    seen: &mut Seen,
) -> Result<(), RunError> {
    for name in &names(alloc, config.remotes.as_slice())? {
        let remote = RemoteReport::of(alloc, config, name)?;
        let found = remote.found();
        let answer = remote_rows::answer(alloc, &remote, style.layout, &seen.origin);
        drop(remote);
        seen.found = seen.found.union(found);
        seen.write(style, answer?.as_str(), output)?;
        if style.is_over(seen) {
            break;
        }
    }
    Ok(())
}

/// Writes the requested reports, with Git's use of lines by a configuration and the program that it runs for
/// Secure Shell.
fn answer_by_config<W: Write>(
    rt: &HostRuntime,
    given: &ArgMatches<'_>,
    config: &Config<'_>,
    client: Client<'_>,
    output: &mut W,
    style: Style<'_, '_>,
    seen: &mut Seen,
) -> Result<(), RunError> {
    let style = Style {
        layout: style.layout,
        colors: style.colors,
        end: style.end,
        config: Some(config),
        client,
        fail_on: style.fail_on,
    };
    answer_all(rt, given, output, style, seen)
}

/// Reports on standard error which part of a configuration isn't understood.
fn report_fault(rt: &impl Eprint, fault: Fault) {
    let Fault { at, words } = fault;
    let _ = eprintln!(rt; "explain: the entry at byte {at} of the configuration {words}");
}

/// Whether reports are coloured if the command line doesn't say it.
fn colors_of(rt: &HostRuntime) -> Colors {
    let (no_color, term) = (env::var(rt, "NO_COLOR").ok(), env::var(rt, "TERM").ok());
    let is_terminal = rt.stdout().is_terminal();
    let is_colored = paint::is_colored(is_terminal, bytes_of(&no_color), bytes_of(&term));
    if is_colored { Colors::On } else { Colors::Off }
}

/// The bytes of the value of a variable, if it is set.
fn bytes_of(value: &Option<String>) -> Option<&[u8]> {
    value.as_ref().map(|it| it.as_str().as_bytes())
}

fn main(rt: HostRuntime) -> ExitCode {
    let Ok(words) = options::words(&rt) else {
        // If standard error accepts no line, the status still reports the fault.
        let _ = rt.eprintln("explain: an argument is not UTF-8, or memory is refused");
        return ExitCode::from(2);
    };
    ExitCode::from(match options::parse_options(rt.alloc(), words.as_slice()) {
        Ok(given) => explain(&rt, &given),
        Err(error) => {
            let _ = error.print(&rt);
            if error.use_stderr() { 2 } else { 0 }
        }
    })
}

/// Reports on standard error why the run was cut short, unless the reader of the output has closed it, as `head` does.
fn report(rt: &impl Eprint, outcome: &Result<(), RunError>) {
    match outcome {
        Ok(()) => {}
        Err(RunError::Write(error)) if error.kind() == ErrorKind::BrokenPipe => {}
        Err(fault) => {
            let _ = eprintln!(rt; "explain: {fault}");
        }
    }
}
