//! Locations rewritten by `url.<base>.insteadOf` and `pushInsteadOf` of git-config(1).
//!
//! The rule with the longest matching front wins; among equal fronts, the rule whose base comes first in its table.
//! If no rule applies, the text stays as it is. `table` stores the rules and finds the one that wins; `outcome`
//! represents the rewritten text.

ghost use Rattle.std.specs.Prelude.{◌≡◌, OnErr, OnOk};
ghost use Rattle.git_rules.specs.Rewrites.{IsRewritten, IsRewrittenToPush, no_rules, with_fetching, with_pushing};
ghost use Rattle.git_rules.specs.RewriteErrors.{AddsEntry, HasFront, IsFilled};

pub mod host;
pub mod law;
pub mod outcome;
mod table;

use crate::config::Entry;
use outcome::Rewritten;
use std::alloc::{AllocError, Global};
use std::marker::Model;
use table::Table;
use thiserror::Error;

/// An error in the rules. [`Rewrites::add_entry`] has an example.
#[derive(Debug, Drop, Error)]
pub enum RewriteError {
    /// An allocation failed.
    #[error("out of memory")]
    Memory,
    /// A rule has no value. Git stops there, whatever command was called.
    #[error("the rule at byte {at} has no value")]
    NoValue {
        /// The byte offset of the entry in the text of the configuration.
        at: usize,
    },
}

impl From<AllocError> for RewriteError {
    ghost use Rattle.git_rules.specs.declared.rewrite.RewriteError.TheVariants.{Memory};

    ghost from_gives = { λ _ e. e ≡ Memory };

    fn from(_: AllocError) -> RewriteError {
        RewriteError::Memory
    }
}

/// Rules that rewrite locations: pairs of a base and the front that it replaces, for fetching and for pushing. They
/// borrow their texts, and `'a` can't be shortened: a type that borrows rules needs two lifetimes, as in `&'r
/// Rewrites<'a>`.
///
/// A rule applies to a text that begins with its front, byte for byte. The rule with the longest front wins. Among
/// equal fronts the base that comes first in the table wins, even if it is first because of a rule with
/// another front: Git keeps all fronts of a base together. An empty front applies to every text, and an empty
/// base removes the front. The result is not rewritten again.
///
/// ```
/// /// The text that Git fetches from, by a configuration that `git config --list -z` wrote.
/// fn fetched_from(alloc: Global, text: &[u8], location: &[u8]) -> Result<BString, RewriteError> {
///     let entries = config::entries(alloc, text)?;
///     let rules = Rewrites::from_entries(alloc, &entries)?;
///     Ok(rules.rewrite_fetch(location).to_bstring(alloc)?)
/// }
/// ```
#[derive(Drop)]
pub struct Rewrites<'a> {
    fetch: Table<'a>,
    push: Table<'a>,
}

impl<'a> Model for Rewrites<'a> {
    ghost use Rattle.git_rules.specs.Rewrites.{Rules};

    ghost Value = { Rules };

    ghost use Rattle.git_rules.specs.RewriteViews.{rules};

    ghost view = { rules };
}

impl<'a> Rewrites<'a> {
    /// Returns an empty set of rules, which leaves every text unchanged. Allocates nothing.
    /// [`Rewrites::add_fetch`] has an example.
    pub fn new(alloc: Global) -> Rewrites<'a>
        ensures { result ≡ no_rules }
    {
        Rewrites {
            fetch: Table::new(alloc),
            push: Table::new(alloc),
        }
    }

    /// Returns the rules of a configuration: `url.<base>.insteadOf` for fetching and `url.<base>.pushInsteadOf`
    /// for pushing, in the order of the entries. As in Git, an entry without a subsection isn't a rule. Allocates
    /// as the tables grow. [`Rewrites`] has an example.
    ///
    /// # Errors
    ///
    /// [`RewriteError::NoValue`] names the first rule that has no value, at which Git stops; a program that
    /// continues without it can add the entries one by one with [`Rewrites::add_entry`]. [`RewriteError::Memory`]
    /// if an allocation for a rule fails; each rule before it then has a value.
    pub fn from_entries(alloc: Global, entries: &[Entry<'a>]) -> Result<Rewrites<'a>, RewriteError>
        ensures { IsFilled entries.now result }
    {
        let mut rules = Rewrites::new(alloc);
        for entry in entries {
            rules.add_entry(entry)?;
        }
        Ok(rules)
    }

    /// Appends the rule of an entry; an entry that isn't a rule changes nothing. Allocates if the table has to
    /// grow.
    ///
    /// ```
    /// /// The rules of a configuration, and how many of them have no value, which Git would have stopped at.
    /// fn lenient<'a>(
    ///     alloc: Global,
    ///     entries: &[Entry<'a>],
    /// ) -> Result<(Rewrites<'a>, usize), RewriteError> {
    ///     let mut rules = Rewrites::new(alloc);
    ///     let mut bad: usize = 0;
    ///     for entry in entries {
    ///         match rules.add_entry(entry) {
    ///             Ok(()) => {}
    ///             Err(RewriteError::NoValue { at: _ }) => bad = bad.saturating_add(1),
    ///             Err(error) => return Err(error),
    ///         }
    ///     }
    ///     Ok((rules, bad))
    /// }
    /// ```
    ///
    /// # Errors
    ///
    /// [`RewriteError::NoValue`] names the entry if it is a rule without a value. [`RewriteError::Memory`] if an
    /// allocation for a rule with a value fails. After an error the rules are unchanged.
    pub fn add_entry(&mut self, entry: &Entry<'a>) -> Result<(), RewriteError>
        ensures { AddsEntry entry.now self.old self.new result }
    {
        let Some(base) = entry.subsection else {
            return Ok(());
        };
        if entry.sets("url", "insteadof") {
            self.add_fetch(base, rule_front(entry)?)?;
            return Ok(());
        }
        if entry.sets("url", "pushinsteadof") {
            self.add_push(base, rule_front(entry)?)?;
        }
        Ok(())
    }

    /// Appends a rule for fetching: `url.<base>.insteadOf = <front>`. Allocates if the table has to grow.
    ///
    /// ```
    /// /// A rule by hand: GitHub over HTTPS in place of Secure Shell.
    /// fn over_https(alloc: Global) -> Result<Rewrites<'static>, AllocError> {
    ///     let mut rules = Rewrites::new(alloc);
    ///     rules.add_fetch(b"https://github.com/", b"git@github.com:")?;
    ///     Ok(rules)
    /// }
    /// ```
    ///
    /// # Errors
    ///
    /// Returns `AllocError` if an allocation fails; the rules are then unchanged.
    pub fn add_fetch(&mut self, base: &'a [u8], front: &'a [u8]) -> Result<(), AllocError>
        ensures added { OnOk result
            (self.new ≡ with_fetching self.old (record { base = base.now; front = front.now })) }
        ensures refused { OnErr result (self.new ≡ self.old) }
    {
        self.fetch.add(base, front)
    }

    /// Appends a rule for pushing: `url.<base>.pushInsteadOf = <front>`. Allocates if the table has to grow.
    /// [`Rewrites::add_fetch`] has a similar example.
    ///
    /// # Errors
    ///
    /// Returns `AllocError` if an allocation fails; the rules are then unchanged.
    pub fn add_push(&mut self, base: &'a [u8], front: &'a [u8]) -> Result<(), AllocError>
        ensures added { OnOk result
            (self.new ≡ with_pushing self.old (record { base = base.now; front = front.now })) }
        ensures refused { OnErr result (self.new ≡ self.old) }
    {
        self.push.add(base, front)
    }

    /// Rewrites a text that Git fetches from. [`Rewrites`] has an example.
    ///
    /// The rules aren't tested one by one: the text is looked up once for each length of a front that is at
    /// most its own. The time is at most proportional to the sum of these lengths, in bytes, times the
    /// logarithm of the number of rules.
    pub fn rewrite_fetch<'t>(&self, text: &'t [u8]) -> Rewritten<'t>
    where
        'a: 't,
        ensures { IsRewritten self.now.fetching text.now result }
    {
        self.fetch.rewrite(text)
    }

    /// Rewrites a text that Git pushes to. If the remote has a push URL, the text is that URL and is rewritten as
    /// for fetching. Otherwise it is the remote's URL: a rule for pushing that applies takes precedence over all
    /// rules for fetching, and if none applies the text is rewritten as for fetching. The time is that of
    /// [`Rewrites::rewrite_fetch`] for each of the two kinds of rules.
    ///
    /// ```
    /// /// The text that Git pushes to, for a remote with this URL and perhaps this push URL.
    /// fn pushed_to(
    ///     alloc: Global,
    ///     rules: &Rewrites<'_>,
    ///     url: &[u8],
    ///     push_url: Option<&[u8]>,
    /// ) -> Result<BString, AllocError> {
    ///     match push_url {
    ///         None => rules.rewrite_push(url, false).to_bstring(alloc),
    ///         Some(push_url) => rules.rewrite_push(push_url, true).to_bstring(alloc),
    ///     }
    /// }
    /// ```
    pub fn rewrite_push<'t>(&self, text: &'t [u8], has_push_url: bool) -> Rewritten<'t>
    where
        'a: 't,
        ensures { IsRewrittenToPush self.now has_push_url text.now result }
    {
        if has_push_url {
            return self.fetch.rewrite(text);
        }
        let pushed = self.push.rewrite(text);
        if pushed.is_rewritten() {
            return pushed;
        }
        self.fetch.rewrite(text)
    }

    /// Rewrites a text by the rules for pushing alone.
    pub(crate) fn rewrite_by_push_rules<'t>(&self, text: &'t [u8]) -> Rewritten<'t>
    where
        'a: 't,
        ensures { IsRewritten self.now.pushing text.now result }
    {
        self.push.rewrite(text)
    }
}

/// The value of an entry, which is the front of its rule.
fn rule_front<'a>(entry: &Entry<'a>) -> Result<&'a [u8], RewriteError>
    ensures { HasFront entry.now result }
{
    match entry.value {
        Some(front) => Ok(front),
        None => Err(RewriteError::NoValue { at: entry.at }),
    }
}
