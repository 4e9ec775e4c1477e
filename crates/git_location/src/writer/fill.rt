//! The sink that fills the front of a caller's buffer. The rest of the buffer is unchanged.

ghost use Rattle.std.specs.Prelude.{◌≡◌, ◌≤◌, ◌+◌, ◌++◌, drop, length, take};
ghost use Rattle.git_location.specs.Internal.Fills.{Fills, fills_joined, fills_nothing};
ghost use Rattle.git_location.specs.Internal.Pieces.{pieces_text};

use crate::writer::piece::Pieces;
use crate::writer::sink::Sink;
use std::convert::Infallible;

/// A caller's buffer, and the number of bytes at its front that are filled.
#[derive(Drop)]
pub(crate) struct Filled<'a> {
    /// The buffer.
    buffer: &'a mut [u8],
    /// The number of its bytes that are filled.
    at: usize,
}

/// Writes the text of the pieces to the front of the buffer, if it fits. Otherwise the contents of the buffer
/// are unspecified.
#[inline(always)]
pub fn fill(buffer: &mut [u8], pieces: &Pieces<'_>)
    ensures { length (pieces_text pieces.now) ≤ length buffer.old
        → buffer.new ≡ pieces_text pieces.now ++ drop (length (pieces_text pieces.now)) buffer.old }
{
    let mut place = Filled { buffer, at: 0 };
    let Ok(()) = pieces.put::<Filled<'_>, Front>(&mut place);
}

/// The sink for the front of a buffer that is long enough for the whole text. It never fails.
struct Front;

impl<'a> Sink<Filled<'a>> for Front {
    type Fault = Infallible;

    ghost takes = { Fills };

    ghost ends = { Fills };

    fn put(place: &mut Filled<'a>, slice: &str) -> Result<(), Infallible> {
        Front::write_end(place, slice.as_bytes())
    }

    fn write_end(place: &mut Filled<'a>, end: &[u8]) -> Result<(), Infallible> {
        // Nothing is promised if the buffer is too short.
        if place.at <= place.buffer.len() && end.len() <= place.buffer.len() - place.at {
            write_at(place.buffer, place.at, end);
            place.at += end.len();
        }
        Ok(())
    }

    ghost takes_nothing = { fills_nothing };

    ghost takes_joined = { fills_joined };

    ghost ends_joined = { fills_joined };
}

/// Writes the bytes at this index of the buffer.
fn write_at(buffer: &mut [u8], at: usize, bytes: &[u8])
    requires { at + length bytes.now ≤ length buffer.old }
    ensures { buffer.new ≡ take at buffer.old ++ (bytes.now ++ drop (length bytes.now) (drop at buffer.old)) }
{
    let (_, rest) = buffer.split_at_mut(at);
    let (place, _) = rest.split_at_mut(bytes.len());
    place.copy_from_slice(bytes);
}
