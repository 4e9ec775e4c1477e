//! The item at an offset of a text: white space, a comment, a header or a setting.
//!
//! The texts of an item are written to the front of the buffer, and the rest of the buffer is returned.

ghost use Rattle.std.specs.Prelude.{◌≡◌, ◌+◌, ◌<◌, ◌≤◌, length, take, true};
ghost use Rattle.git_syntax.specs.Bytes.{begins_by, lowercase};
ghost use Rattle.git_modules.specs.ConfigFileBytes as spec;
ghost use Rattle.git_modules.specs.ConfigFileHeaders.{header_of};
ghost use Rattle.git_modules.specs.ConfigFileItems as item;
ghost use Rattle.git_modules.specs.ConfigFileSteps as shown;

use crate::config_file::bytes::{byte_at, past_line};
use crate::config_file::flaw::Flaw;
use crate::config_file::header::read_header;
use crate::config_file::place::{Wrong, flaw_at};
use crate::config_file::value::read_value;
use crate::config_file::word::{Class, past_word, read_word};

/// The item at an offset.
#[derive(Clone, Copy)]
pub(super) enum Step<'a> {
    /// White space or a comment.
    Nothing,
    /// A header, with the prefix of the keys below it.
    Header(&'a [u8]),
    /// A name, and its value if it has one.
    Setting(&'a [u8], Option<&'a [u8]>),
}

/// Reads the item at an offset. Returns the item, the rest of the buffer, and the offset after the item.
pub(super) fn read_step<'a>(
    text: &[u8],
    at: usize,
    buffer: &'a mut [u8],
) -> Result<(Step<'a>, &'a mut [u8], usize), Wrong>
    requires start { at < length text.now }
    requires buffer { length text.now ≤ at + length buffer.old }
    ensures item { item.item_of (spec.left_at text.now at) ≡ shown.step_as text.now result }
    ensures within { shown.IsStepWithin text.now at result }
{
    let Some((byte, suffix)) = byte_at(text, at) else {
        return Ok((Step::Nothing, buffer, text.len()));
    };
    match byte {
        b' ' | b'\t' | b'\r' | b'\n' => Ok((Step::Nothing, buffer, suffix)),
        b'#' | b';' => Ok((Step::Nothing, buffer, past_line(text, suffix))),
        b'[' => read_stem(text, suffix, buffer),
        _ => {
            if !byte.is_ascii_alphabetic() {
                return Err(flaw_at(Flaw::NoStart, at));
            }
            read_setting(text, at, buffer)
        }
    }
}

/// Reads a header after its `[`.
fn read_stem<'a>(
    text: &[u8],
    start: usize,
    buffer: &'a mut [u8],
) -> Result<(Step<'a>, &'a mut [u8], usize), Wrong>
    requires start { start ≤ length text.now }
    requires buffer { length text.now ≤ start + length buffer.old }
    ensures item { item.as_header (header_of (spec.left_at text.now start))
        ≡ shown.step_as text.now result }
    ensures within { shown.IsReadWithin text.now start result }
{
    let (len, next) = read_header(text, start, buffer)?;
    let (stem, rest) = buffer.split_at_mut(len);
    Ok((Step::Header(stem), rest, next))
}

/// Reads a name and its value.
fn read_setting<'a>(
    text: &[u8],
    start: usize,
    buffer: &'a mut [u8],
) -> Result<(Step<'a>, &'a mut [u8], usize), Wrong>
    requires start { start ≤ length text.now }
    requires buffer { length text.now ≤ start + length buffer.old }
    requires letter { begins_by spec.is_key_byte (spec.left_at text.now start) ≡ true }
    ensures item { item.setting_of (spec.left_at text.now start) ≡ shown.step_as text.now result }
    ensures within { shown.IsStepWithin text.now start result }
{
    let (len, at) = read_name(text, start, buffer);
    let (name, rest) = buffer.split_at_mut(len);
    let at = past_word(text, at, Class::AfterName);
    match byte_at(text, at) {
        None => Ok((Step::Setting(name, None), rest, at)),
        Some((b'\n', suffix)) => Ok((Step::Setting(name, None), rest, suffix)),
        Some((b'=', suffix)) => {
            let (len, next) = read_value(text, suffix, rest)?;
            let (value, rest) = rest.split_at_mut(len);
            Ok((Step::Setting(name, Some(value)), rest, next))
        }
        Some(_) => Err(flaw_at(Flaw::NoEquals, at)),
    }
}

/// Writes a name in lower case to the front of the buffer. Returns its length, and the offset after it.
fn read_name(text: &[u8], start: usize, buffer: &mut [u8]) -> (usize, usize)
    requires start { start ≤ length text.now }
    requires buffer { length text.now ≤ start + length buffer.old }
    requires letter { begins_by spec.is_key_byte (spec.left_at text.now start) ≡ true }
    ensures bytes { take result.0 buffer.new
        ≡ lowercase (spec.word spec.is_key_byte (spec.left_at text.now start)) }
    ensures left { spec.left_at text.now result.1
        ≡ spec.past_word spec.is_key_byte (spec.left_at text.now start) }
    ensures size { result.0 + start ≤ result.1 }
    ensures least { start < result.1 }
    ensures most { result.1 ≤ length text.now }
{
    read_word(text, start, Class::Name, buffer)
}
