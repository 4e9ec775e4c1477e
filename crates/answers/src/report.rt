//! Results as JSON: booleans, numbers, texts, optional values, pairs, and values as they are shown. Nothing here
//! allocates.

use crate::bytes::{write_inside, write_quoted};
use crate::halt::Halt;
use bstr::{BStr, BString};
use std::cmp::Ordering;
use std::io::{self, BufWriter, Stdout, Write};

/// The output for results.
pub type Out = BufWriter<Stdout>;

/// The types of results of calls.
pub trait Report {
    /// Reports the value as JSON.
    fn report(&self, out: &mut Out) -> io::Result<()>;
}

/// Reports an owned value, and drops it.
pub fn report_owned<T: Report + Drop>(out: &mut Out, value: T) -> Result<(), Halt> {
    let reported = value.report(out);
    drop(value);
    Ok(reported?)
}

/// Reports a borrowed value.
pub fn report_borrowed<T: Report>(out: &mut Out, value: &T) -> Result<(), Halt> {
    Ok(value.report(out)?)
}

impl Report for () {
    fn report(&self, out: &mut Out) -> io::Result<()> {
        out.write_all(b"null")
    }
}

impl Report for bool {
    fn report(&self, out: &mut Out) -> io::Result<()> {
        out.write_all(if *self { b"true" } else { b"false" })
    }
}

impl Report for u8 {
    fn report(&self, out: &mut Out) -> io::Result<()> {
        write!(out, "{self}")
    }
}

impl Report for u16 {
    fn report(&self, out: &mut Out) -> io::Result<()> {
        write!(out, "{self}")
    }
}

impl Report for usize {
    fn report(&self, out: &mut Out) -> io::Result<()> {
        write!(out, "{self}")
    }
}

impl Report for u128 {
    fn report(&self, out: &mut Out) -> io::Result<()> {
        write!(out, "{self}")
    }
}

impl Report for &str {
    fn report(&self, out: &mut Out) -> io::Result<()> {
        write_quoted(out, self.as_bytes())
    }
}

impl Report for String {
    fn report(&self, out: &mut Out) -> io::Result<()> {
        write_quoted(out, self.as_bytes())
    }
}

impl Report for BString {
    fn report(&self, out: &mut Out) -> io::Result<()> {
        write_quoted(out, self.as_bytes())
    }
}

impl Report for BStr<'_> {
    fn report(&self, out: &mut Out) -> io::Result<()> {
        write_quoted(out, self.as_bytes())
    }
}

impl Report for Ordering {
    fn report(&self, out: &mut Out) -> io::Result<()> {
        let name = match self {
            Ordering::Less => "Less",
            Ordering::Equal => "Equal",
            Ordering::Greater => "Greater",
        };
        name.report(out)
    }
}

impl<T: Report> Report for Option<T> {
    fn report(&self, out: &mut Out) -> io::Result<()> {
        match self {
            None => out.write_all(b"null"),
            Some(value) => value.report(out),
        }
    }
}

impl<T: Report, E: Report> Report for Result<T, E> {
    fn report(&self, out: &mut Out) -> io::Result<()> {
        match self {
            Ok(value) => value.report(out),
            Err(error) => error.report(out),
        }
    }
}

impl<A: Report, B: Report> Report for (A, B) {
    fn report(&self, out: &mut Out) -> io::Result<()> {
        report_pair(out, &self.0, &self.1)
    }
}

/// Reports two values, one after the other.
pub fn report_pair<A: Report, B: Report>(out: &mut Out, one: &A, other: &B) -> io::Result<()> {
    out.write_all(b"[")?;
    one.report(out)?;
    out.write_all(b",")?;
    other.report(out)?;
    out.write_all(b"]")
}

/// Reports the name of an object's member, and the `{` or `,` before it.
pub fn report_name(out: &mut Out, before: &str, name: &str) -> io::Result<()> {
    write!(out, "{before}\"{name}\":")
}

/// Reports a further member of an object, if there is a value for it.
pub fn report_member<T: Report>(out: &mut Out, name: &str, value: &Option<T>) -> io::Result<()> {
    match value {
        None => Ok(()),
        Some(value) => {
            report_name(out, ",", name)?;
            value.report(out)
        }
    }
}

/// A writer that reports its input as the inside of a JSON string.
#[derive(Drop)]
pub struct Taking<'a> {
    /// The output.
    pub out: &'a mut Out,
}

impl Write for Taking<'_> {
    fn write(&mut self, bytes: &[u8]) -> io::Result<usize> {
        write_inside(self.out, bytes)?;
        Ok(bytes.len())
    }

    fn flush(&mut self) -> io::Result<()> {
        Ok(())
    }
}
