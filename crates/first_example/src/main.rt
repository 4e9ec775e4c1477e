//! Prints the host of each line of standard input: the first example of README.md, and the program of docs/FIRST_HOUR.md.
#![tactic(auto)]

use gix_url::{Error, Url};
use std::alloc::Global;
use std::io::{self, BufRead, BufReader};

/// The host that a text names, if Git and other readers are known to find it in the text that is written.
fn host_of(alloc: Global, text: &str) -> Result<Option<String>, Error> {
    let url = Url::from_text(alloc, text)?;
    if !url.is_unambiguous() {
        return Ok(None); // of `ssh://github.com/@[evil.com]/a`, for which Git connects to `evil.com`
    }
    Ok(url.host)
}

fn main(rt: HostRuntime) -> io::Result<()> {
    for line in BufReader::new(rt.alloc(), rt.reader())?.lines(rt.alloc()) {
        match host_of(rt.alloc(), &line?) {
            Ok(Some(host)) => println!(rt; "{host}")?,
            Ok(None) => println!(rt; "no host to rely on")?,
            Err(error) => println!(rt; "refused: {error}")?,
        }
    }
    Ok(())
}
