//! Readers, writers and formatters that fail at one of their calls. Later calls succeed, so that a test notices a call
//! after a failure.
//!
//! None of them fails with `Interrupted`, which readers and writers may handle in any way.

use std::fmt;
use std::io::{self, ErrorKind, Read, Write};
use std::process::Abort;
use std::test::Fail;

/// An error of a stream: its kind and its words.
pub type Fault = (ErrorKind, &'static str);

/// The ways in which streams fail: with an error, and, for a writer alone, by accepting no byte.
pub static WAYS: [Option<Fault>; 5] = [
    Some((ErrorKind::Other, "the disk is gone")),
    Some((ErrorKind::BrokenPipe, "nobody reads")),
    Some((ErrorKind::WriteZero, "it takes no more")),
    Some((ErrorKind::OutOfMemory, "its memory is full")),
    None,
];

/// Checks that an error is the one that a stream failed with. For a writer that accepted no byte, only the kind is
/// compared.
pub fn is_own(
    rt: &(impl Abort + AllocGlobal),
    error: &io::Error,
    way: Option<Fault>,
) -> Result<(), Fail> {
    match way {
        None => assert!(rt; error.kind() == ErrorKind::WriteZero, "nothing was taken"),
        Some((kind, words)) => {
            assert!(rt; error.kind() == kind, "the kind of: {words}");
            assert_eq!(rt; error.to_string(rt.alloc())?.as_str(), words);
        }
    }
    Ok(())
}

/// A reader that returns a byte a call.
#[derive(Drop)]
pub struct FailingReader<'a> {
    pub bytes: &'a [u8],
    /// How many calls succeed before it fails.
    pub calls: usize,
    pub fault: Fault,
}

impl Read for FailingReader<'_> {
    fn read(&mut self, buf: &mut [u8]) -> io::Result<usize> {
        if self.calls == 0 {
            self.calls = usize::MAX;
            return Err(io::Error::new(self.fault.0, self.fault.1));
        }
        self.calls -= 1;
        match (self.bytes.split_first(), buf.first_mut()) {
            (Some((byte, left)), Some(place)) => {
                *place = *byte;
                self.bytes = left;
                Ok(1)
            }
            _ => Ok(0),
        }
    }
}

/// The rest of a text after a piece of it; `None` if the text doesn't begin with the piece.
fn suffix<'a>(left: Option<&'a [u8]>, piece: &[u8]) -> Option<&'a [u8]> {
    match left {
        None => None,
        Some(left) => left.strip_prefix(piece),
    }
}

/// A writer that accepts some bytes of a text a call.
#[derive(Drop)]
pub struct FailingWriter<'a> {
    /// The rest of the text that it hasn't accepted; `None` if it accepted something else.
    pub left: Option<&'a [u8]>,
    pub at_most: usize,
    /// How many calls succeed before it fails.
    pub calls: usize,
    pub way: Option<Fault>,
}

impl Write for FailingWriter<'_> {
    fn write(&mut self, buf: &[u8]) -> io::Result<usize> {
        if buf.is_empty() {
            return Ok(0);
        }
        if self.calls == 0 {
            self.calls = usize::MAX;
            return match self.way {
                Some((kind, words)) => Err(io::Error::new(kind, words)),
                None => Ok(0),
            };
        }
        self.calls -= 1;
        let part = &buf[..self.at_most.min(buf.len())];
        self.left = suffix(self.left, part);
        Ok(part.len())
    }

    fn flush(&mut self) -> io::Result<()> {
        Ok(())
    }
}

/// A formatter that also accepts the text of the call at which it fails.
#[derive(Drop)]
pub struct FailingFormatter<'a> {
    /// The rest of the text that it hasn't accepted; `None` if it accepted something else.
    pub left: Option<&'a [u8]>,
    /// How many calls succeed before it fails.
    pub calls: usize,
}

impl fmt::Write for FailingFormatter<'_> {
    fn write_str(&mut self, text: &str) -> fmt::Result {
        self.left = suffix(self.left, text.as_bytes());
        if self.calls == 0 {
            self.calls = usize::MAX;
            return Err(fmt::Error);
        }
        self.calls -= 1;
        Ok(())
    }
}
