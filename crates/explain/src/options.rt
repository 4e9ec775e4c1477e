//! The command line of `explain`, which `clap` parses.

use crate::client::Client;
use crate::line_end::LineEnd;
use crate::only::Part;
use crate::paint::Colors;
use crate::style::{Layout, Style};
use clap::{Arg, ArgAction, ArgGroup, ArgMatches, Command};
use explain_report::finding::Findings;
use std::alloc::{AllocError, Global};
use std::rt::Env;
use std::{env, io};

/// The text after the options in the output of `--help`.
const MORE: &str = "\
A location is settled if this library reads its own text as the same location again. Git may read another place there (git-differs), and so may other programs.

Examples:
  explain git@github.com:a/b.git
  git config --get-all remote.origin.url | explain --only host

These can't be given together:
  two of --json, --sarif, --html, --only, --ssh, --summary and --quiet
  --remotes, --gitmodules or --parent with TEXT, --file, --html, --only, --ssh or --summary
  --gitmodules or --parent with --config, --remotes, --null or --crlf
  --null with --sarif or --crlf

Exit status: 0 if nothing was found, 1 if something was, 2 for wrong arguments, a run that was cut short or, with --ssh, a line that is not of Secure Shell. What can be found: a danger, a location that is not settled, a refused line, a text that Git is not known to read the same (git-differs), and with --config a transport that Git does not use (policy).";

/// The version of the library and the program, as in the last title of the changes.
pub const VERSION: &str = "0.40.1+25";
/// The output of `--version`: that version, the version of the Rust crate whose behaviour the library has, and where
/// the commit is recorded.
const VERSIONS: &str = "0.40.1+25 (gix-url 0.40.1)
The file receipt of a bundle (share/gix_url/receipt) or of a Debian package has the commit and the toolchain.";

/// Options that exclude each other: each is a layout of its own.
const LAYOUTS: [&str; 7] = ["json", "sarif", "html", "only", "ssh", "summary", "quiet"];
/// Options that exclude a report about something other than lines.
const OF_LINES: [&str; 6] = ["text", "file", "html", "only", "ssh", "summary"];
/// Options that exclude a file of submodules.
const NOT_OF_MODULES: [&str; 4] = ["config", "remotes", "null", "crlf"];
/// Options that exclude a NUL byte as the end of lines.
const NOT_OF_NULL: [&str; 2] = ["sarif", "crlf"];

/// The title of a page if none is given.
const TITLE: &str = "Git remotes";

/// The words of the command line, the program's name first.
pub fn words(rt: &(impl Env + AllocGlobal)) -> io::Result<Vec<String>> {
    Ok(env::args(rt)?.collect(rt.alloc())?)
}

/// The options of the command line, or the text to print in place of reports.
pub fn parse_options<'a>(
    alloc: Global,
    words: &'a [String],
) -> Result<ArgMatches<'a>, clap::Error> {
    command(alloc)?.try_get_matches_from(words)
}

/// The layout and options of reports. `auto` says whether they are coloured if the command line doesn't.
pub fn style<'c, 'e: 'c>(given: &ArgMatches<'_>, auto: Colors) -> Style<'c, 'e> {
    Style {
        layout: layout(given),
        colors: match given.get_str("color") {
            Some("always") => Colors::On,
            Some("never") => Colors::Off,
            _ => auto,
        },
        end: line_end(given),
        config: None,
        client: Client::usual(),
        fail_on: fail_on(given),
    }
}

/// The end of a line of the input.
fn line_end(given: &ArgMatches<'_>) -> LineEnd {
    if given.get_flag("null") {
        LineEnd::Null
    } else if given.get_flag("crlf") {
        LineEnd::ReturnAndFeed
    } else {
        LineEnd::Feed
    }
}

/// The findings that the run fails for: all of them, unless the command line names some.
fn fail_on(given: &ArgMatches<'_>) -> Findings {
    let Some(names) = given.get_strs("fail-on") else {
        return Findings::all();
    };
    let mut wanted = Findings::none();
    for name in names {
        wanted = wanted.union(Findings::named(name));
    }
    wanted
}

/// Whether commands of Secure Shell are requested.
pub fn asks_for_commands(given: &ArgMatches<'_>) -> bool {
    given.get_flag("ssh")
}

/// The file of the configuration, if there is one. With `--remotes` it is standard input unless a file is named.
pub fn config_file<'a>(given: &ArgMatches<'a>) -> Option<&'a str> {
    match given.get_str("config") {
        None if given.get_flag("remotes") => Some("-"),
        file => file,
    }
}

/// The file of submodules, if one is named.
pub fn module_file<'a>(given: &ArgMatches<'a>) -> Option<&'a str> {
    given.get_str("gitmodules")
}

/// The URL of the superproject, if it is given.
pub fn parent<'a>(given: &ArgMatches<'a>) -> Option<&'a str> {
    given.get_str("parent")
}

/// Whether lines are read from standard input.
pub fn reads_input(given: &ArgMatches<'_>) -> bool {
    let files = given.get_strs("file").unwrap_or(&[]);
    let texts = given.get_strs("text").unwrap_or(&[]);
    if files.is_empty() && texts.is_empty() {
        return true;
    }
    files.iter().any(|it| *it == "-") || texts.iter().any(|it| *it == "-")
}

/// The title of the page.
pub fn title<'a>(given: &ArgMatches<'a>) -> &'a str {
    match given.get_str("html") {
        Some(title) if !title.is_empty() => title,
        _ => TITLE,
    }
}

/// The layout that the options request.
fn layout(given: &ArgMatches<'_>) -> Layout {
    if given.get_flag("json") {
        return Layout::Json;
    }
    if given.get_flag("sarif") {
        return Layout::Sarif;
    }
    if given.get_flag("quiet") {
        return Layout::Quiet;
    }
    if given.get_flag("ssh") {
        return Layout::Ssh;
    }
    if given.get_flag("summary") {
        return Layout::Summary;
    }
    if given.contains_id("html") {
        return Layout::Page;
    }
    match given.get_str("only").and_then(Part::named) {
        Some(part) => Layout::Only(part),
        None => Layout::People,
    }
}

/// The description of the program and of its command line.
fn command<'a>(alloc: Global) -> Result<Command<'a>, AllocError> {
    Command::new(alloc, "explain")
        .version(VERSIONS)
        .about(
            "Reports what Git locations mean: arguments, or each line of files or of standard input",
        )
        .after_help(MORE)
        .arg(texts(alloc))?
        .arg(files(alloc))?
        .arg(of_null(null(alloc))?)?
        .arg(crlf(alloc))?
        .arg(config(alloc))?
        .arg(of_remotes(remotes(alloc))?)?
        .arg(of_modules(gitmodules(alloc))?)?
        .arg(of_modules(parent_arg(alloc)?)?)?
        .arg(json(alloc))?
        .arg(sarif(alloc))?
        .arg(html(alloc))?
        .arg(only(alloc))?
        .arg(ssh(alloc))?
        .arg(summary(alloc))?
        .arg(quiet(alloc))?
        .arg(fail_on_arg(alloc))?
        .arg(color(alloc))?
        .group(of_layouts(ArgGroup::new(alloc, "layout"))?)
}

/// Adds the options of layouts to a group.
fn of_layouts<'a>(group: ArgGroup<'a>) -> Result<ArgGroup<'a>, AllocError> {
    group.args(LAYOUTS.as_slice())
}

/// Completes the option for the remotes of a configuration.
fn of_remotes<'a>(option: Arg<'a>) -> Result<Arg<'a>, AllocError> {
    option.conflicts_with_all(OF_LINES.as_slice())
}

/// Completes the option for a NUL byte as the end of a line.
fn of_null<'a>(option: Arg<'a>) -> Result<Arg<'a>, AllocError> {
    option.conflicts_with_all(NOT_OF_NULL.as_slice())
}

/// Completes an option for a file of submodules.
fn of_modules<'a>(option: Arg<'a>) -> Result<Arg<'a>, AllocError> {
    option
        .conflicts_with_all(OF_LINES.as_slice())?
        .conflicts_with_all(NOT_OF_MODULES.as_slice())
}

fn texts<'a>(alloc: Global) -> Arg<'a> {
    Arg::new(alloc, "text")
        .value_name("TEXT")
        .help("Texts to explain, after -- where one begins with -; - is standard input")
        .action(ArgAction::Append)
        .num_args(0..)
}

fn files<'a>(alloc: Global) -> Arg<'a> {
    Arg::new(alloc, "file")
        .short('f')
        .long("file")
        .value_name("FILE")
        .help("Explain each line of a file; - is standard input")
        .action(ArgAction::Append)
}

fn null<'a>(alloc: Global) -> Arg<'a> {
    Arg::new(alloc, "null")
        .short('0')
        .long("null")
        .help("Lines of the input end with a NUL byte")
        .action(ArgAction::SetTrue)
}

fn crlf<'a>(alloc: Global) -> Arg<'a> {
    Arg::new(alloc, "crlf")
        .long("crlf")
        .help("A carriage return before the line feed is part of the line's end")
        .action(ArgAction::SetTrue)
}

fn config<'a>(alloc: Global) -> Arg<'a> {
    Arg::new(alloc, "config")
        .long("config")
        .value_name("FILE")
        .help(
            "Show what Git does with each line by the output of git config --list -z; - is standard input",
        )
}

fn remotes<'a>(alloc: Global) -> Arg<'a> {
    Arg::new(alloc, "remotes")
        .long("remotes")
        .help(
            "Show what Git fetches from and pushes to for each remote of the configuration, which is that of --config or standard input",
        )
        .action(ArgAction::SetTrue)
}

fn gitmodules<'a>(alloc: Global) -> Arg<'a> {
    Arg::new(alloc, "gitmodules")
        .long("gitmodules")
        .value_name("FILE")
        .help(
            "Show what is found in each submodule of a file like .gitmodules; - is standard input",
        )
}

fn parent_arg<'a>(alloc: Global) -> Result<Arg<'a>, AllocError> {
    Arg::new(alloc, "parent")
        .long("parent")
        .value_name("URL")
        .help(
            "With --gitmodules: the URL of the superproject, against which relative URLs are resolved",
        )
        .requires_arg("gitmodules")
}

fn sarif<'a>(alloc: Global) -> Arg<'a> {
    Arg::new(alloc, "sarif")
        .long("sarif")
        .help("Print one log in SARIF 2.1.0 with what is found")
        .action(ArgAction::SetTrue)
}

fn json<'a>(alloc: Global) -> Arg<'a> {
    Arg::new(alloc, "json")
        .long("json")
        .help("Print one JSON object a line")
        .action(ArgAction::SetTrue)
}

fn html<'a>(alloc: Global) -> Arg<'a> {
    Arg::new(alloc, "html")
        .long("html")
        .value_name("TITLE")
        .help(
            "Print one page in HTML for all lines, with this title: what is directly after it is one",
        )
        .num_args(0..=1)
        .default_missing_value(TITLE)
}

fn only<'a>(alloc: Global) -> Arg<'a> {
    Arg::new(alloc, "only")
        .long("only")
        .value_name("PART")
        .help("Print this part of each location, or an empty line")
        .value_parser(Part::NAMES.as_slice())
}

fn ssh<'a>(alloc: Global) -> Arg<'a> {
    Arg::new(alloc, "ssh")
        .long("ssh")
        .help(
            "Print the command that git fetch runs for each location of Secure Shell, or an empty line, and on standard error why",
        )
        .action(ArgAction::SetTrue)
}

fn summary<'a>(alloc: Global) -> Arg<'a> {
    Arg::new(alloc, "summary")
        .long("summary")
        .help(
            "Print one summary of all lines: how many of each form, verdict and danger, and of the ten commonest hosts",
        )
        .action(ArgAction::SetTrue)
}

fn quiet<'a>(alloc: Global) -> Arg<'a> {
    Arg::new(alloc, "quiet")
        .short('q')
        .long("quiet")
        .help("Print nothing, and stop at the first line in which something is found")
        .action(ArgAction::SetTrue)
}

fn fail_on_arg<'a>(alloc: Global) -> Arg<'a> {
    Arg::new(alloc, "fail-on")
        .long("fail-on")
        .value_name("WHAT")
        .help(
            "End with status 1 for this alone; may be given more than once, and any, all of it, is the default",
        )
        .value_parser(Findings::NAMES.as_slice())
        .action(ArgAction::Append)
}

fn color<'a>(alloc: Global) -> Arg<'a> {
    Arg::new(alloc, "color")
        .long("color")
        .value_name("WHEN")
        .help("Colour the answers; auto does on a terminal, unless NO_COLOR is set or TERM is dumb")
        .value_parser(["auto", "always", "never"].as_slice())
        .default_value("auto")
}
