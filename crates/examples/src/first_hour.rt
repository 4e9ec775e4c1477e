//! A program that reads arguments: an example of `docs/FIRST_HOUR.md`.

use gix_url::Url;
use std::{env, io};

fn main(rt: HostRuntime) -> io::Result<()> {
    for text in env::args(&rt)?.skip(1) {
        match Url::from_text(rt.alloc(), &text) {
            Ok(_) => println!(rt; "read")?,
            Err(error) => println!(rt; "refused: {error}")?,
        }
    }
    Ok(())
}
