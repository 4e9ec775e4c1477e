//! Tests of streams that fail at each of their calls in turn, which no contract specifies: the error is the stream's
//! own, and a writer or a formatter has received a prefix of the right text before it.

use std::alloc::Global;
use std::test::Fail;

mod runs;
mod showing;
mod streams;
mod writing;

/// A text of more than 2 MiB with this beginning.
fn long(alloc: Global, front: &str) -> Result<String, Fail> {
    let mut text = String::from_str(alloc, front)?;
    let path = "/a".repeat(alloc, 1_100_000)?;
    let outcome = text.push_str(path.as_str());
    drop(path);
    outcome?;
    Ok(text)
}

/// Whether a text was written completely, by the rest of it that is missing.
fn is_whole(left: Option<&[u8]>) -> bool {
    matches!(left, Some([]))
}
