//! Reads locations, one per line, and writes an answer to each line.
//!
//! All of the input is answered, line by line. If an allocation or the reader fails, nothing is written; a
//! fault of the writer occurs only after all input was read. Allocates the input, a buffer as long as its
//! longest line, and the answers; no line allocates a buffer of its own.

ghost use Rattle.std.specs.Prelude.{◌≡◌, ℕ, ◌≤◌, ◌^◌, ◌++◌, List, None, Ok, codes, length, IfErr, IfOk, IfSome, OnOk};
ghost use Rattle.std.specs.Io.KnownBytes.{IsAtEnd};
ghost use Rattle.git_location.specs.Answers.{Answers, HasLinesWithin, fault_name, refusal_name, reported_line};
ghost use Rattle.git_location.specs.Answers.{AppendsAnswer, IsBeforeWriting, AppendsBytes, Ran, RanToEnd, AppendsReport, AppendsRefusal, fault_text, status_of};
ghost use Rattle.git_location.specs.Internal.Pieces.{pieces_text};
ghost use Rattle.git_syntax.specs.Schemes.{scheme_text};
ghost use Rattle.git_location.specs.Text.{text};

use crate::parse_error::ParseError;
use crate::read::read_any_in;
use crate::url_ref::UrlRef;
use crate::writer::piece::Pieces;
use crate::writer::sink::Output;
use git_refusals::reason::RefusalKind;
use git_refusals::refusal::Refusal;
use git_syntax::bytes;
use git_syntax::refusal::UrlFault;
use git_syntax::simple::is_simple_text;
use itoa::Buffer;
use std::alloc::{AllocError, Global};
use std::io::{self, ErrorKind, Read, Write};
use thiserror::Error as ThisError;

/// Why a run failed. [`run`] has an example.
#[derive(Debug, Drop, ThisError)]
pub enum RunError {
    /// An allocation failed. Nothing was written.
    #[error("out of memory")]
    Memory,
    /// The input couldn't be read to its end. Nothing was written.
    #[error("cannot read: {0}")]
    Read(io::Error),
    /// The answer couldn't be written. All of the input was read; how much of the answer was written is
    /// unspecified.
    #[error("cannot write: {0}")]
    Write(io::Error),
}

impl From<AllocError> for RunError {
    ghost use Rattle.git_location.specs.declared.lines.RunError.TheVariants.{Memory};

    ghost from_gives = { λ _ e. e ≡ Memory };

    fn from(_: AllocError) -> RunError {
        RunError::Memory
    }
}

/// The maximal number of reads. If a reader hasn't ended by then, the run fails.
const MOST_READS: u64 = 1 << 40;

/// The message of the program `locations` for a fault, without the line end, which goes to standard error.
/// Allocates nothing.
///
/// ```
/// /// What a program of one's own says of a run, and the status that it ends with.
/// fn ended(rt: &impl Eprint, outcome: &Result<bool, RunError>) -> u8 {
///     if let Err(fault) = outcome {
///         let _ = rt.eprintln(lines::fault_line(fault));
///     }
///     lines::status(outcome)
/// }
/// ```
pub fn fault_line(fault: &RunError) -> &'static str
    ensures { result.now ≡ fault_text fault.now }
{
    match fault {
        RunError::Memory => "locations: out of memory",
        RunError::Read(_) => "locations: cannot read",
        RunError::Write(_) => "locations: cannot write",
    }
}

/// The exit status of the program: 0 if every line was settled, 1 if one was not, 2 for a fault. Allocates
/// nothing. [`fault_line`] has an example.
pub fn status(outcome: &Result<bool, RunError>) -> u8
    ensures { result ≡ status_of outcome.now }
{
    match outcome {
        Ok(true) => 0,
        Ok(false) => 1,
        Err(_) => 2,
    }
}

/// Reads all of the input and writes an answer to each of its lines. Byte 10 ends a line and byte 13 has no
/// special meaning; a last line may lack its end, and counts unless it is empty.
///
/// The answer is `settled`, a tab and the location's text if the location is settled; `unsettled`, a tab and
/// its scheme if it isn't; `refused`, a tab and the error's name if the line is not a location. A location that
/// was read always has a text: [`law_closed`](git_laws::laws::law_closed). Each answer is one line, whatever
/// the location contains: [`law_lines`](git_laws::laws::law_lines).
///
/// `Ok(true)` means that every line was settled. The errors are those of [`RunError`]; a reader that hasn't
/// ended after 2^40 calls gives `Read`. Allocates the input, a buffer as long as the longest line, and the
/// whole answer, which is written at the end.
///
/// ```
/// /// The answers to lines in memory.
/// fn answers(alloc: Global, input: &[u8]) -> Result<Vec<u8>, RunError> {
///     let mut input = input;
///     let mut output = Vec::new(alloc);
///     lines::run(alloc, &mut input, &mut output)?;
///     Ok(output)
/// }
/// ```
pub fn run<R: Read, W: Write>(
    alloc: Global,
    input: &mut R,
    output: &mut W,
) -> Result<bool, RunError>
    ensures answered { Ran W.contents (R.remaining input.old) output.old output.new result }
    ensures read_to_end { RanToEnd (R.remaining input.new) result }
{
    let text = read_all(alloc, input)?;
    let (answer, all) = answers(alloc, text.as_slice())?;
    output
        .write_all(answer.as_slice())
        .map_err(RunError::Write)?;
    Ok(all)
}

/// All bytes of a reader.
fn read_all<R: Read>(alloc: Global, input: &mut R) -> Result<Vec<u8>, RunError>
    ensures bytes { IfOk result (λ all. IfSome (R.remaining input.old) (λ b. all.items ≡ b)) }
    ensures end { OnOk result (IsAtEnd (R.remaining input.new)) }
    ensures fault { IfErr result IsBeforeWriting }
{
    match read_to_end(alloc, input)? {
        Some(all) => Ok(all),
        None => Err(RunError::Read(io::Error::from(ErrorKind::Other))),
    }
}

/// All bytes of a reader, or `None` if it hasn't ended after the maximal number of reads, each of which
/// returned at least one byte. A contract of a caller can't say so: the faults of a reader of any type are
/// unspecified, so they can't be distinguished from giving up.
fn read_to_end<R: Read>(alloc: Global, input: &mut R) -> Result<Option<Vec<u8>>, RunError>
    ensures bytes { IfOk result
        (λ found. IfSome found (λ all. IfSome (R.remaining input.old) (λ b. all.items ≡ b))) }
    ensures end { IfOk result (λ found. IfSome found (λ _. IsAtEnd (R.remaining input.new))) }
    ensures given_up { IfOk result
        (λ found. found ≡ None → IfSome (R.remaining input.old) (λ b. 2 ^ 40 ≤ length b)) }
    ensures fault { IfErr result IsBeforeWriting }
{
    let mut all = Vec::new(alloc);
    let mut buffer = [0u8; 4096];
    for _turn in 0..MOST_READS {
        match input.read(&mut buffer) {
            Err(fault) => return Err(RunError::Read(fault)),
            Ok(0) => return Ok(Some(all)),
            Ok(count) => all.extend_from_slice(&buffer[..count])?,
        }
    }
    Ok(None)
}

/// The answers to all lines of a text, and whether each line is settled.
fn answers(alloc: Global, text: &[u8]) -> Result<(Vec<u8>, bool), RunError>
    ensures answered { IfOk result (λ found. Answers text.now found.0.items found.1) }
    ensures memory { IfErr result (λ fault. fault ≡ RunError.Memory) }
{
    let mut line_buffer = vec![in alloc; 0u8; longest_line(text)]?;
    answers_in(alloc, text, &mut line_buffer)
}

/// The length of the longest line of a text.
fn longest_line(text: &[u8]) -> usize
    ensures line_buffer { HasLinesWithin result text.now }
    ensures least { (most : ℕ) → HasLinesWithin most text.now → result ≤ most }
{
    let mut longest: usize = 0;
    let mut rest = text;
    while let Some((line, suffix)) = bytes::cut(rest, b'\n') {
        longest = longest.max(line.len());
        rest = suffix;
    }
    longest.max(rest.len())
}

/// The answers to all lines of a text, each of which is read into the buffer.
fn answers_in(
    alloc: Global,
    text: &[u8],
    line_buffer: &mut [u8],
) -> Result<(Vec<u8>, bool), RunError>
    requires { HasLinesWithin (length line_buffer.old) text.now }
    ensures answered { IfOk result (λ found. Answers text.now found.0.items found.1) }
    ensures memory { IfErr result (λ fault. fault ≡ RunError.Memory) }
{
    let mut out = Vec::new(alloc);
    let mut all = true;
    let mut rest = text;
    while let Some((line, suffix)) = bytes::cut(rest, b'\n') {
        let settled = answer(line, line_buffer, &mut out)?;
        all &= settled;
        rest = suffix;
    }
    if rest.is_empty() {
        return Ok((out, all));
    }
    let settled = answer(rest, line_buffer, &mut out)?;
    Ok((out, all & settled))
}

/// Appends the answer to a line, which is read into the buffer, and returns whether the line is settled. The
/// location of a simple text has this text.
fn answer(line: &[u8], line_buffer: &mut [u8], out: &mut Vec<u8>) -> Result<bool, RunError>
    requires { length line.now ≤ length line_buffer.old }
    ensures { AppendsAnswer line.now out.old.items out.new.items result }
{
    if is_simple_text(line) {
        append_settled(out, line)?;
        return Ok(true);
    }
    match read_any_in(line, line_buffer) {
        Ok(url) => report(url, out),
        Err(ParseError::Refused(refusal)) => refuse(&refusal, out),
        Err(ParseError::NoRoom) => unreachable!(),
    }
}

/// Appends the report on a location, and returns whether it is settled. Its text is laid out once.
fn report(url: UrlRef<'_>, out: &mut Vec<u8>) -> Result<bool, RunError>
    ensures { AppendsReport url.entry out.old.items out.new.items result }
{
    let mut digits = Buffer::new();
    match url.own_pieces(&mut digits) {
        Ok(pieces) => report_written(&url, &pieces, out),
        Err(_) => {
            append_scheme(out, "unwritable", &url)?;
            Ok(false)
        }
    }
}

/// Appends the report on a location whose text these pieces make up, and returns whether it is settled.
fn report_written(
    url: &UrlRef<'_>,
    pieces: &Pieces<'_>,
    out: &mut Vec<u8>,
) -> Result<bool, RunError>
    requires { text url.now ≡ Ok (pieces_text pieces.now) }
    ensures { AppendsReport url.now out.old.items out.new.items result }
{
    if url.is_settled_as(Some(pieces)) {
        append_text(out, pieces)?;
        return Ok(true);
    }
    append_scheme(out, "unsettled", url)?;
    Ok(false)
}

/// Appends the answer to a line that is refused.
fn refuse(refusal: &Refusal, out: &mut Vec<u8>) -> Result<bool, RunError>
    ensures { AppendsRefusal refusal.now out.old.items out.new.items result }
{
    append_line(out, "refused", refusal_name(refusal).as_bytes())?;
    Ok(false)
}

/// The name of the error of a refusal.
fn refusal_name(refusal: &Refusal) -> &'static str
    ensures { result.now ≡ refusal_name refusal.now }
{
    match refusal.reason.kind() {
        RefusalKind::EmptyLocal => "EmptyLocal",
        RefusalKind::MissingPath => "MissingPath",
        RefusalKind::NotUtf8 => "NotUtf8",
        RefusalKind::TooLong => "TooLong",
        RefusalKind::BadUrl(fault) => bad_url_name(fault),
    }
}

/// The name of the error for a fault of a URL.
fn bad_url_name(fault: UrlFault) -> &'static str
    ensures { result.now ≡ codes "BadUrl " ++ fault_name fault }
{
    match fault {
        UrlFault::NoScheme => "BadUrl NoScheme",
        UrlFault::BadPort => "BadUrl BadPort",
        UrlFault::BadCharacter => "BadUrl BadCharacter",
        UrlFault::HostRequired => "BadUrl HostRequired",
    }
}

/// Appends the line of a location that isn't settled: a word and the scheme.
fn append_scheme(out: &mut Vec<u8>, word: &str, url: &UrlRef<'_>) -> Result<(), RunError>
    ensures { AppendsBytes (reported_line word.now (scheme_text url.now.scheme)) out.old.items out.new.items
        result }
{
    append_line(out, word, url.scheme.as_str().as_bytes())
}

/// Appends a line: a word, a tab and a text.
fn append_line(out: &mut Vec<u8>, word: &str, of_what: &[u8]) -> Result<(), RunError>
    ensures { AppendsBytes (reported_line word.now of_what.now) out.old.items out.new.items result }
{
    out.extend_from_slice(word.as_bytes())?;
    out.extend_from_slice(b"\t")?;
    out.extend_from_slice(of_what)?;
    out.extend_from_slice(b"\n")?;
    Ok(())
}

/// Appends the line of a settled location with this text.
fn append_settled(out: &mut Vec<u8>, text: &[u8]) -> Result<(), RunError>
    ensures { AppendsBytes (reported_line (codes "settled") text.now) out.old.items out.new.items result }
{
    out.extend_from_slice(b"settled\t")?;
    out.extend_from_slice(text)?;
    out.extend_from_slice(b"\n")?;
    Ok(())
}

/// Appends the line of a settled location: the text that its pieces make up.
fn append_text(out: &mut Vec<u8>, pieces: &Pieces<'_>) -> Result<(), RunError>
    ensures { AppendsBytes (reported_line (codes "settled") (pieces_text pieces.now)) out.old.items
        out.new.items result }
{
    out.extend_from_slice(b"settled\t")?;
    match pieces.put::<Vec<u8>, Output>(out) {
        Ok(()) => {}
        Err(_) => return Err(RunError::Memory),
    }
    out.extend_from_slice(b"\n")?;
    Ok(())
}
