//! A text to which a rule rewrites a line, with its location, its dangers and its findings.

use crate::finding::Findings;
use crate::memory::both;
use bstr::BString;
use git_audit::danger::{Danger, dangers};
use git_rules::rewrite::outcome::Rewritten;
use gix_url::parse::parse;
use gix_url::{Error, Url};
use std::alloc::{AllocError, Global};

/// A text to which a line is rewritten, and its location.
#[derive(Drop)]
pub(crate) struct Goal {
    pub(crate) text: BString,
    /// The location, unless the text is refused.
    pub(crate) url: Option<Url>,
}

impl Goal {
    /// The text to which a line is rewritten.
    pub(crate) fn of(alloc: Global, rewritten: &Rewritten<'_>) -> Result<Goal, AllocError> {
        let text = rewritten.to_bstring(alloc)?;
        let (text, url) = both_read(alloc, text)?;
        Ok(Goal { text, url })
    }

    /// The dangers of the text and of its location.
    pub(crate) fn dangers(&self, alloc: Global) -> Result<Vec<Danger>, AllocError> {
        match &self.url {
            Some(url) => dangers(alloc, self.text.as_bytes(), &url.as_ref()),
            None => Ok(Vec::new(alloc)),
        }
    }

    /// The findings about the text, which has these dangers.
    pub(crate) fn found(&self, dangers: &[Danger]) -> Findings {
        match &self.url {
            Some(url) => Findings::of_location(url, dangers),
            None => Findings::of_refused(),
        }
    }
}

/// The text, and its location unless it is refused.
fn both_read(alloc: Global, text: BString) -> Result<(BString, Option<Url>), AllocError> {
    let url = match parse(alloc, text.as_bstr()) {
        Ok(url) => Ok(Some(url)),
        Err(Error::Memory) => Err(AllocError),
        Err(error) => {
            drop(error);
            Ok(None)
        }
    };
    both(text, url)
}
