//! The dangers of a text and its location, by their numbers.

ghost use Rattle.std.specs.Prelude.{◌≡◌, IfOk, IfSome, None, map};
ghost use Rattle.c_values.specs.Codes.{HasNumber, UnlessMemory};
ghost use Rattle.c_values.specs.DangerNumbers.{ReportsDangers, danger_number};
ghost use Rattle.c_values.specs.Left.{LeavesLengths, LeavesBuffer};

use crate::buffer::write_text;
use crate::codes::MEMORY;
use crate::tables::{number_of, numbered};
use git_audit::danger::{Danger, dangers};
use gix_url::UrlRef;
use std::alloc::{AllocError, Global};

/// The numbers of dangers.
macro_rules! danger_numbers {
    ($direction:ident, $it:expr) => {
        $direction! {
            $it;
            1 => Danger::Command,
            2 => Danger::OptionLikeUser,
            3 => Danger::OptionLikeHost,
            4 => Danger::OptionLikePath,
            5 => Danger::Password,
            6 => Danger::Token,
            7 => Danger::HostCharacter,
            8 => Danger::LineEnd,
            9 => Danger::OtherHost,
            10 => Danger::MisreadHost,
        }
    };
}

/// Copies the numbers of the dangers to the buffer.
pub fn write_dangers(
    alloc: Global,
    text: &[u8],
    url: &UrlRef<'_>,
    buffer: &mut [u8],
    count: &mut usize,
) -> u32
    ensures reported { UnlessMemory result (ReportsDangers text.now url.now buffer.old buffer.new count.new result) }
    ensures buffer { LeavesBuffer result buffer.old buffer.new }
    ensures count { LeavesLengths result count.old count.new }
{
    let Ok(found) = dangers(alloc, text, url) else {
        return MEMORY;
    };
    match numbers_of(alloc, &found) {
        Ok(numbers) => write_text(&numbers, buffer, count),
        Err(_) => MEMORY,
    }
}

/// The numbers of the dangers.
fn numbers_of(alloc: Global, found: &[Danger]) -> Result<Vec<u8>, AllocError>
    ensures { IfOk result (λ numbers. numbers.items ≡ map danger_number found.now) }
{
    let mut numbers = Vec::with_capacity(alloc, found.len())?;
    for danger in found {
        numbers.push(danger_number(*danger))?;
    }
    Ok(numbers)
}

/// The number of a danger.
fn danger_number(danger: Danger) -> u8
    ensures { result ≡ danger_number danger }
{
    danger_numbers!(number_of, danger)
}

/// The danger with this number.
pub fn danger_numbered(number: u8) -> Option<Danger>
    ensures found { IfSome result (λ danger. danger_number danger ≡ number) }
    ensures none { result ≡ None → ¬ HasNumber danger_number number }
{
    danger_numbers!(numbered, number)
}
