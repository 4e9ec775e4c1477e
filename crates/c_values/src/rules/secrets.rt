//! The pieces of a text, some of which may be secrets. The text is cut twice: first the pieces are counted.

ghost use Rattle.std.specs.Prelude.{◌≡◌, ◌≤◌, ◌++◌, drop, length};
ghost use Rattle.std.specs.List.{flat_map};
ghost use Rattle.git_audit.specs.Secrets.{parts_of, piece_part};
ghost use Rattle.c_values.specs.Answers.{reported_length};
ghost use Rattle.c_values.specs.Codes.{memory};
ghost use Rattle.c_values.specs.Left.{LeavesBuffer};
ghost use Rattle.c_values.specs.PieceNumbers.{ReportsPieces, part_numbers};

use crate::buffer::write_at;
use crate::codes::{NO_ROOM, OK};
use git_audit::secret::{Piece, secrets};

/// Copies the numbers of the pieces of a text, and reports how many pieces there are: `gix_url_c_secrets`.
pub fn write_secrets(text: &[u8], numbers: &mut [usize], count: &mut usize) -> u32
    ensures reported { ReportsPieces text.now numbers.old numbers.new count.new result }
    ensures numbers { LeavesBuffer result numbers.old numbers.new }
    ensures no_memory { ¬ (result ≡ memory) }
{
    *count = count_pieces(text);
    if numbers.len() / 2 < *count {
        return NO_ROOM;
    }
    write_pieces(text, numbers);
    OK
}

/// The number of pieces of the text.
fn count_pieces(text: &[u8]) -> usize
    ensures { result ≡ reported_length (length (parts_of text.now)) }
{
    let mut count: usize = 0;
    for _piece in secrets(text) {
        count = count.saturating_add(1);
    }
    count
}

/// Copies the numbers of all pieces to the front of `numbers`, which is long enough.
fn write_pieces(text: &[u8], numbers: &mut [usize])
    requires { length (flat_map part_numbers (parts_of text.now)) ≤ length numbers.old }
    ensures { let put = flat_map part_numbers (parts_of text.now) in
        numbers.new ≡ put ++ drop (length put) numbers.old }
{
    let mut at: usize = 0;
    for piece in secrets(text) {
        at = write_at(numbers, at, &numbers_of(piece));
    }
}

/// The numbers of a piece.
fn numbers_of(piece: Piece<'_>) -> [usize; 2]
    ensures { result ≡ part_numbers (piece_part piece.entry) }
{
    match piece {
        Piece::Shown(bytes) => [bytes.len(), 0],
        Piece::Hidden(bytes) => [bytes.len(), 1],
    }
}
