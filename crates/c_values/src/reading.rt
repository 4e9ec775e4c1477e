//! Locations that are read from bytes or built from parts, in the caller's buffer.
//!
//! With 102 only the numbers are reported. The problem is that of the error, and all 0 if the error has none.

ghost use Rattle.std.specs.Prelude.{◌≡◌, ◌≤◌, ◌⊎◌, Err, IfOk, length, option_map, string_bytes};
ghost use Rattle.gix_url.specs.FromParts.{BuiltFrom};
ghost use Rattle.gix_url.specs.Location.{fields};
ghost use Rattle.gix_url.specs.Views.{borrowed_scheme, owned_scheme};
ghost use Rattle.c_values.specs.Answers.{ReportsResult, ReportsRead};
ghost use Rattle.c_values.specs.Codes.{UnlessMemory, memory, no_problem};
ghost use Rattle.c_values.specs.Left.{LeavesLengths, LeavesProblem, LeavesBuffer};

use crate::codes::{
    MEMORY, NO_ROOM, Problem, error_code, no_problem, problem_of, problem_of_refusal, refusal_code,
};
use crate::output::{PartLengths, write_location};
use bstr::BString;
use gix_url::{Error, ParseError, Scheme, SchemeRef, Url, UrlRef};
use std::alloc::{AllocError, Global};

/// The length of the longest text that is read without an allocation.
const NEAR: usize = 256;

/// Reads the location that the bytes spell, and copies its parts to the buffer: `gix_url_c_read`. It allocates only if
/// there are more than 256 bytes.
pub fn read(
    alloc: Global,
    input: &[u8],
    built: &mut PartLengths,
    buffer: &mut [u8],
    reported: &mut Problem,
) -> u32
    ensures reported { UnlessMemory result (ReportsRead input.now built.new buffer.old buffer.new reported.new result) }
    ensures near { length input.now ≤ 256 → ¬ (result ≡ memory) }
    ensures buffer { LeavesBuffer result buffer.old buffer.new }
    ensures lengths { LeavesLengths result built.old built.new }
    ensures problem { LeavesProblem result no_problem reported.new }
{
    if input.len() <= NEAR {
        return read_in(input, &mut [0; NEAR], built, buffer, reported);
    }
    match vec![in alloc; 0u8; input.len()] {
        Ok(mut scratch) => read_in(input, scratch.as_mut_slice(), built, buffer, reported),
        Err(_) => {
            *reported = no_problem();
            MEMORY
        }
    }
}

/// Reads the bytes with a scratch buffer that is long enough, and copies the parts of the location to the buffer.
fn read_in(
    input: &[u8],
    scratch: &mut [u8],
    built: &mut PartLengths,
    buffer: &mut [u8],
    reported: &mut Problem,
) -> u32
    requires { length input.now ≤ length scratch.old }
    ensures reported { ReportsRead input.now built.new buffer.old buffer.new reported.new result }
    ensures buffer { LeavesBuffer result buffer.old buffer.new }
    ensures lengths { LeavesLengths result built.old built.new }
    ensures problem { LeavesProblem result no_problem reported.new }
    ensures no_memory { ¬ (result ≡ memory) }
{
    *reported = no_problem();
    match UrlRef::parse_in(input, scratch) {
        Ok(url) => write_location(&url, built, buffer),
        // The scratch buffer is long enough.
        Err(ParseError::NoRoom) => NO_ROOM,
        Err(ParseError::Refused(refusal)) => {
            *reported = problem_of_refusal(input, &refusal);
            refusal_code(&refusal)
        }
    }
}

/// The location that the text of these parts spells, or why there is none.
pub fn of_parts(alloc: Global, parts: &UrlRef<'_>) -> Result<Url, Error>
    ensures { (result ≡ Err Error.Memory) ⊎ BuiltFrom (fields parts.now) result }
{
    Url::from_parts(
        alloc,
        scheme(alloc, parts.scheme)?,
        text(alloc, parts.user)?,
        text(alloc, parts.password)?,
        text(alloc, parts.host)?,
        parts.port,
        BString::new(Vec::from_slice(alloc, parts.path)?),
        parts.serialize_alternative_form,
    )
}

/// A copy of the scheme.
fn scheme(alloc: Global, scheme: SchemeRef<'_>) -> Result<Scheme, AllocError>
    ensures { IfOk result (λ copy. owned_scheme copy ≡ borrowed_scheme scheme.entry) }
{
    match scheme {
        SchemeRef::File => Ok(Scheme::File),
        SchemeRef::Git => Ok(Scheme::Git),
        SchemeRef::Ssh => Ok(Scheme::Ssh),
        SchemeRef::Http => Ok(Scheme::Http),
        SchemeRef::Https => Ok(Scheme::Https),
        SchemeRef::Ext => Ok(Scheme::Ext),
        SchemeRef::Helper(name) => Ok(Scheme::Helper(String::from_str(alloc, name)?)),
        SchemeRef::HelperUrl(name) => Ok(Scheme::HelperUrl(String::from_str(alloc, name)?)),
    }
}

/// A copy of the text, if there is one.
fn text(alloc: Global, part: Option<&str>) -> Result<Option<String>, AllocError>
    ensures { IfOk result (λ copy. option_map string_bytes copy ≡ option_map (λ t. t.now) part.entry) }
{
    match part {
        None => Ok(None),
        Some(text) => Ok(Some(String::from_str(alloc, text)?)),
    }
}

/// Reports the location, or the error by its numbers.
pub fn report(
    answer: Result<Url, Error>,
    built: &mut PartLengths,
    buffer: &mut [u8],
    reported: &mut Problem,
) -> u32
    ensures reported { ReportsResult answer built.new buffer.old buffer.new reported.new result }
    ensures buffer { LeavesBuffer result buffer.old buffer.new }
    ensures lengths { LeavesLengths result built.old built.new }
    ensures problem { LeavesProblem result no_problem reported.new }
{
    match answer {
        Ok(url) => {
            *reported = no_problem();
            write_location(&url.as_ref(), built, buffer)
        }
        Err(error) => {
            *reported = problem_of(&error);
            error_code(&error)
        }
    }
}
