//! The export that cuts a text into pieces, some of which may be secrets. It cuts the text twice: first it counts.

ghost use Rattle.std.specs.Prelude.{◌≡◌};
ghost use Rattle.c_values.specs.Codes.{memory};
ghost use Rattle.c_values.specs.Left.{LeavesBuffer};
ghost use Rattle.c_values.specs.PieceNumbers.{ReportsPieces};

use c_values::rules::secrets::write_secrets;

/// Copies two numbers for each piece of a text to `numbers`: its length, and 1 if it may be a secret or 0 if not. It
/// also reports how many pieces there are. Joined, the pieces are the text. See [`git_audit::secret::secrets`].
///
/// Returns 0, or 102 if the numbers don't fit.
#[unsafe(no_mangle)]
pub extern "C" fn gix_url_c_secrets(text: &[u8], numbers: &mut [usize], count: &mut usize) -> u32
    ensures reported { ReportsPieces text.now numbers.old numbers.new count.new result }
    ensures numbers { LeavesBuffer result numbers.old numbers.new }
    ensures no_memory { ¬ (result ≡ memory) }
{
    write_secrets(text, numbers, count)
}
