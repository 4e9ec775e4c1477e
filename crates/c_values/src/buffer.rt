//! Copies to the caller's buffer: all bytes to its front if they fit, otherwise none.

ghost use Rattle.std.specs.Prelude.{◌≡◌, ◌≤◌, ◌+◌, ◌++◌, ◌⊎◌, drop, length, take};
ghost use Rattle.c_values.specs.Answers.{PutsText};
ghost use Rattle.c_values.specs.Codes.{no_room, ok};
ghost use Rattle.c_values.specs.Output.{Puts, PutsBoth};
ghost use Rattle.c_values.specs.Left.{LeavesLengths, LeavesBuffer};

use crate::codes::{NO_ROOM, OK};

/// Copies the bytes to the front of the buffer, if they fit.
pub(crate) fn put<T: Copy>(bytes: &[T], buffer: &mut [T]) -> u32
    ensures put { Puts bytes.now buffer.old buffer.new result }
    ensures buffer { LeavesBuffer result buffer.old buffer.new }
    ensures code { (result ≡ ok) ⊎ (result ≡ no_room) }
{
    if buffer.len() < bytes.len() {
        return NO_ROOM;
    }
    let (front, _) = buffer.split_at_mut(bytes.len());
    front.copy_from_slice(bytes);
    OK
}

/// Copies the bytes to the front of the buffer, if they fit, and reports how many they are.
pub fn write_text(bytes: &[u8], buffer: &mut [u8], len: &mut usize) -> u32
    ensures put { PutsText bytes.now buffer.old buffer.new len.new result }
    ensures buffer { LeavesBuffer result buffer.old buffer.new }
    ensures length { LeavesLengths result len.old len.new }
{
    *len = bytes.len();
    put(bytes, buffer)
}

/// Copies bytes and lengths to the fronts of their buffers, if both fit.
pub(crate) fn write_both(
    bytes: &[u8],
    measured: &[usize],
    buffer: &mut [u8],
    lengths: &mut [usize],
) -> u32
    ensures put { PutsBoth bytes.now measured.now buffer.old buffer.new lengths.old lengths.new result }
    ensures buffer { LeavesBuffer result buffer.old buffer.new }
    ensures lengths { LeavesBuffer result lengths.old lengths.new }
    ensures code { (result ≡ ok) ⊎ (result ≡ no_room) }
{
    if buffer.len() < bytes.len() || lengths.len() < measured.len() {
        return NO_ROOM;
    }
    let (front, _) = buffer.split_at_mut(bytes.len());
    front.copy_from_slice(bytes);
    let (front, _) = lengths.split_at_mut(measured.len());
    front.copy_from_slice(measured);
    OK
}

/// Copies the bytes to a place in the buffer, and returns the place after them.
pub(crate) fn write_at<T: Copy>(buffer: &mut [T], at: usize, bytes: &[T]) -> usize
    requires { at + length bytes.now ≤ length buffer.old }
    ensures put { buffer.new ≡ take at buffer.old ++ (bytes.now ++ drop (length bytes.now) (drop at buffer.old)) }
    ensures size { length buffer.new ≡ length buffer.old }
    ensures end { result ≡ at + length bytes.now }
{
    let (_, rest) = buffer.split_at_mut(at);
    let (place, _) = rest.split_at_mut(bytes.len());
    place.copy_from_slice(bytes);
    at + bytes.len()
}
