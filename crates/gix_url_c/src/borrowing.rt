//! The export that reads and borrows. A part is a slice of the caller's buffer if an escape in it was decoded, and a
//! host also if it has a capital letter, brackets, or a colon without a port; any other is a slice of the text. A
//! caller who copies the parts copies them once.

ghost use Rattle.std.specs.Prelude.{◌≡◌, length};
ghost use Rattle.c_values.specs.Codes.{memory, no_problem};
ghost use Rattle.c_values.specs.Left.{LeavesProblem, LeavesBuffer};
ghost use Rattle.c_values.specs.Borrowed.{ReportsReadIn};

use c_values::borrowing::borrowed_of;
use c_values::codes::{NO_ROOM, OK, Problem, no_problem, problem_of_refusal, refusal_code};
use c_values::input::PartBytes;
use gix_url::{ParseError, UrlRef};

/// Reads the location that the bytes spell, by [`gix_url::UrlRef::parse_in`], and reports its parts. They borrow from
/// the bytes and the buffer. A buffer as long as the bytes always suffices. After the call, only the bytes of the
/// buffer in a returned part are meaningful.
///
/// Returns 0; 2 to 6 if the bytes spell no location, with the problem; 102 if they spell one and the buffer is shorter
/// than they are. After an error the parts are unchanged.
#[unsafe(no_mangle)]
pub extern "C" fn gix_url_c_read_in<'a>(
    input: &'a [u8],
    buffer: &'a mut [u8],
    borrowed: &mut PartBytes<'a>,
    reported: &mut Problem,
) -> u32
    ensures reported { ReportsReadIn input.now (length buffer.old) borrowed.new reported.new result }
    ensures left { LeavesBuffer result borrowed.old borrowed.new }
    ensures problem { LeavesProblem result no_problem reported.new }
    ensures no_memory { ¬ (result ≡ memory) }
{
    *reported = no_problem();
    match UrlRef::parse_in(input, buffer) {
        Ok(url) => {
            *borrowed = borrowed_of(&url);
            OK
        }
        Err(ParseError::NoRoom) => NO_ROOM,
        Err(ParseError::Refused(refusal)) => {
            *reported = problem_of_refusal(input, &refusal);
            refusal_code(&refusal)
        }
    }
}
