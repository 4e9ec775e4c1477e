//! Converts bytes to JSON strings and back. A byte that isn't part of UTF-8 is the character U+EF00 plus the byte.

use crate::halt::Halt;
use crate::report::Out;
use bstr::ByteSlice;
use std::alloc::Global;
use std::io::{self, Write};

/// The character for byte 0. Adding a byte that isn't ASCII gives the character for that byte.
const FIRST: u32 = 0xEF00;

/// The bytes that a text encodes.
pub fn decode(alloc: Global, text: &str) -> Result<Vec<u8>, Halt> {
    let mut bytes = Vec::with_capacity(alloc, text.len())?;
    for character in text.chars() {
        push(&mut bytes, character)?;
    }
    Ok(bytes)
}

/// Appends the bytes that a character encodes.
fn push(bytes: &mut Vec<u8>, character: char) -> Result<(), Halt> {
    let code = u32::from(character);
    match u8::try_from(code.wrapping_sub(FIRST)) {
        Ok(byte) if !byte.is_ascii() => Ok(bytes.push(byte)?),
        _ => {
            let mut buffer = [0u8; 4];
            let text = character.encode_utf8(&mut buffer);
            Ok(bytes.extend_from_slice(text.as_bytes())?)
        }
    }
}

/// Writes bytes as a JSON string.
pub fn write_quoted(out: &mut Out, bytes: &[u8]) -> io::Result<()> {
    out.write_all(b"\"")?;
    write_inside(out, bytes)?;
    out.write_all(b"\"")
}

/// Writes bytes as the inside of a JSON string.
pub fn write_inside(out: &mut Out, bytes: &[u8]) -> io::Result<()> {
    for chunk in bytes.utf8_chunks() {
        for &byte in chunk.valid().as_bytes() {
            write_byte(out, byte)?;
        }
        for &byte in chunk.invalid() {
            write!(out, "\\u{:04x}", FIRST + u32::from(byte))?;
        }
    }
    Ok(())
}

/// Writes a byte of a UTF-8 text.
fn write_byte(out: &mut Out, byte: u8) -> io::Result<()> {
    match byte {
        b'"' => out.write_all(b"\\\""),
        b'\\' => out.write_all(b"\\\\"),
        0..=31 | 127 => write!(out, "\\u{byte:04x}"),
        _ => out.write_all(&[byte]),
    }
}
