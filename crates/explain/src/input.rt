//! The lines of the input, and the report about each of them.
//!
//! The lines are those of files, of arguments or of standard input. Each report is written as soon as the line is read.
//! `tests/programs/test_command_lines.py` tests which lines are read.

use crate::answer::Line;
use crate::commands;
use crate::results::Origin;
use crate::style::{Layout, Seen, Style};
use clap::ArgMatches;
use explain_report::text::line::Shown;
use gix_url::lines::RunError;
use std::alloc::Global;
use std::fs::{self, File};
use std::io::{BufRead, BufReader, IsTerminal, Read, Write};

/// Reports about the lines of each file, then about each text; or about the lines of standard input if neither is
/// given.
pub fn answer_all<W: Write>(
    rt: &HostRuntime,
    given: &ArgMatches<'_>,
    output: &mut W,
    style: Style<'_, '_>,
    seen: &mut Seen,
) -> Result<(), RunError> {
    let files = given.get_strs("file").unwrap_or(&[]);
    let texts = given.get_strs("text").unwrap_or(&[]);
    if let ([], [text]) = (files, texts)
        && is_file(rt, text)
    {
        report_file(rt, text);
        seen.lacks_file = true;
        return Ok(());
    }
    for file in files {
        answer_file(rt, file, output, style, seen)?;
    }
    for (index, text) in texts.iter().enumerate() {
        if *text == "-" {
            answer_file(rt, text, output, style, seen)?;
        } else {
            seen.origin = Origin::argument(index);
            answer_line(rt, text.as_bytes(), output, style, seen)?;
        }
    }
    if files.is_empty() && texts.is_empty() {
        if rt.stdin().is_terminal() {
            let _ = rt.eprintln(
                "explain: reads a location a line from the terminal, to Ctrl-D (--help says more)",
            );
        }
        answer_file(rt, "-", output, style, seen)?;
    }
    Ok(())
}

/// Whether the text is the name of an existing file. `-` isn't one.
fn is_file(rt: &HostRuntime, text: &str) -> bool {
    match fs::metadata(rt, text) {
        Ok(found) => found.is_file(),
        Err(error) => {
            drop(error);
            false
        }
    }
}

/// Whether there is a folder of this name.
fn is_folder(rt: &HostRuntime, name: &str) -> bool {
    match fs::metadata(rt, name) {
        Ok(found) => found.is_dir(),
        Err(error) => {
            drop(error);
            false
        }
    }
}

/// Reports on standard error that a text is the name of a file, whose lines aren't read.
fn report_file(rt: &impl Eprint, text: &str) {
    let text = Shown(text.as_bytes());
    let _ = eprintln!(rt;
        "explain: {text} is a file; to read it: -f {text}; for its name alone give that as a line of standard input"
    );
}

/// Reports about the lines of a file; `-` is standard input. If the name is that of a folder, or the file can't be
/// opened, prints that and continues.
fn answer_file<W: Write>(
    rt: &HostRuntime,
    file: &str,
    output: &mut W,
    style: Style<'_, '_>,
    seen: &mut Seen,
) -> Result<(), RunError> {
    seen.origin = Origin::file(rt.alloc(), style.layout, file)?;
    if file == "-" {
        return answer_reader(rt, rt.reader(), output, style, seen);
    }
    if is_folder(rt, file) {
        let file = Shown(file.as_bytes());
        let _ = eprintln!(rt; "explain: cannot read {file}: it is a folder");
        seen.lacks_file = true;
        return Ok(());
    }
    match File::open(rt, file) {
        Ok(opened) => answer_reader(rt, opened, output, style, seen),
        Err(error) => {
            let file = Shown(file.as_bytes());
            let _ = eprintln!(rt; "explain: cannot read {file}: {error}");
            seen.lacks_file = true;
            Ok(())
        }
    }
}

/// Reports about the lines of a reader.
fn answer_reader<R: Read + Drop, W: Write>(
    rt: &HostRuntime,
    reader: R,
    output: &mut W,
    style: Style<'_, '_>,
    seen: &mut Seen,
) -> Result<(), RunError> {
    match BufReader::new(rt.alloc(), reader) {
        Ok(mut input) => answer_lines(rt, &mut input, output, style, seen),
        Err(_) => Err(RunError::Memory),
    }
}

/// Reports about all lines of the input, each as soon as it is read.
///
/// Nothing is read after the end of the input. A terminal would have to signal the end twice otherwise.
fn answer_lines<B: BufRead, W: Write>(
    rt: &HostRuntime,
    input: &mut B,
    output: &mut W,
    style: Style<'_, '_>,
    seen: &mut Seen,
) -> Result<(), RunError> {
    for _turn in 0..u64::MAX {
        let line = next_line(rt.alloc(), input, style.end.byte())?;
        let (bytes, is_ended) = style.end.split(line.as_slice());
        if bytes.is_empty() && !is_ended {
            break;
        }
        answer_line(rt, bytes, output, style, seen)?;
        if !is_ended || style.is_over(seen) {
            break;
        }
    }
    Ok(())
}

/// The bytes up to the end of the line, which is included if the line has one.
fn next_line<B: BufRead>(alloc: Global, input: &mut B, end: u8) -> Result<Vec<u8>, RunError> {
    let mut line = Vec::new(alloc);
    match input.read_until(end, &mut line) {
        Ok(_) => Ok(line),
        Err(error) => Err(RunError::Read(error)),
    }
}

/// Writes the report about a line, and records the findings in it.
fn answer_line<W: Write>(
    rt: &HostRuntime,
    line: &[u8],
    output: &mut W,
    style: Style<'_, '_>,
    seen: &mut Seen,
) -> Result<(), RunError> {
    seen.lines = seen.lines.saturating_add(1);
    seen.origin.count();
    let line = Line {
        number: seen.lines,
        bytes: line,
        origin: &seen.origin,
        style,
    };
    if let Layout::Summary = style.layout {
        let found = seen.summary.add(line.bytes, style.config)?;
        seen.found = seen.found.union(found);
        return Ok(());
    }
    if let Layout::Ssh = style.layout {
        let (found, is_missing) = commands::answer_line(rt, line, output)?;
        seen.found = seen.found.union(found);
        seen.lacks_command = seen.lacks_command || is_missing;
        return Ok(());
    }
    let (answer, found) = line.answer(rt.alloc(), &mut seen.page)?;
    seen.found = seen.found.union(found);
    seen.write(style, answer.as_str(), output)
}
