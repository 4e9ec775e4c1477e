//! A table of rules, and the search for the one that wins.
//!
//! Besides the rules in their order a table records the rank of each base (the number of rules before the first one
//! with it), for each front the base with the lowest rank among its rules, and the lengths of the fronts. A text is
//! looked up once for each of these lengths that is at most its own, in ascending order, and the last front that is
//! found wins. This takes at most the sum of these lengths, each counted once, times the logarithm of the number of
//! rules. In contracts a table is a list of rules.

ghost use Rattle.std.specs.Prelude.{◌≡◌, ◌↔◌, ◌++◌, ◌∷◌, [], List, IfOk, IsTrue, OnErr, OnOk, map};
ghost use Rattle.std.specs.BTreeMap.{IsUnchanged};
ghost use Rattle.git_rules.specs.Rewrites.{IsRewritten, Rule};
ghost use Rattle.git_rules.specs.RuleTable.{HasBaseAt, HasNextRank, IsLowerOf, IsNoted, IsRankIn, NotesAlso, NotesFronts, NotesLengths, NotesLower, noted, rule_of};

use crate::rewrite::outcome::Rewritten;
use std::alloc::{AllocError, Global};
use std::collections::{BTreeMap, BTreeSet};
use std::marker::Model;

/// A rule.
#[derive(Clone, Copy)]
pub(crate) struct Kept<'a> {
    base: &'a [u8],
    front: &'a [u8],
}

/// A base with its rank: the number of rules before the first one with it.
#[derive(Clone, Copy)]
pub(crate) struct Ranked<'a> {
    base: &'a [u8],
    rank: usize,
}

/// A table of rules.
#[derive(Drop)]
pub(crate) struct Table<'a> {
    rules: Vec<Kept<'a>>,
    /// The rank of each base that a rule has. A recorded rank of any other base is meaningless: the allocation for
    /// its rule failed.
    ranks: BTreeMap<&'a [u8], usize>,
    /// For each front the base with the lowest rank, among the rules with that front.
    fronts: BTreeMap<&'a [u8], Ranked<'a>>,
    /// The length of each front in bytes. Additional lengths do no harm: they belong to rules for which an
    /// allocation failed.
    lengths: BTreeSet<usize>,
}

impl<'a> Model for Table<'a> {
    ghost use Rattle.std.specs.Prelude.{List};
    ghost use Rattle.git_rules.specs.Rewrites.{Rule};

    ghost Value = { List Rule };

    ghost use Rattle.git_rules.specs.RuleViews.{IsTable, table_rules};

    ghost view = { table_rules };

    ghost invariant = { IsTable };
}

impl<'a> Table<'a> {
    /// Returns a table without rules.
    pub(crate) fn new(alloc: Global) -> Table<'a>
        ensures { result ≡ [] }
    {
        Table {
            rules: Vec::new(alloc),
            ranks: BTreeMap::new(alloc),
            fronts: BTreeMap::new(alloc),
            lengths: BTreeSet::new(alloc),
        }
    }

    /// Appends a rule.
    pub(crate) fn add(&mut self, base: &'a [u8], front: &'a [u8]) -> Result<(), AllocError>
        ensures added { OnOk result
            (self.new ≡ self.old ++ record { base = base.now; front = front.now } ∷ []) }
        ensures refused { OnErr result (self.new ≡ self.old) }
    {
        // Memory for the rule is reserved first, so that no front is recorded without its rule.
        self.rules.reserve(1)?;
        self.lengths.insert(front.len())?;
        let rank = rank_of(self.rules.as_slice(), &mut self.ranks, base)?;
        note_front(&mut self.fronts, front, Ranked { base, rank })?;
        self.rules.push(Kept { base, front })?;
        Ok(())
    }

    /// Rewrites a text by the table.
    pub(crate) fn rewrite<'t>(&self, text: &'t [u8]) -> Rewritten<'t>
    where
        'a: 't,
        ensures { IsRewritten self.now text.now result }
    {
        rewritten(&self.fronts, &self.lengths, text)
    }
}

/// Returns the rank of a base among the rules and one more with this base, and records it.
fn rank_of<'a>(
    rules: &[Kept<'a>],
    ranks: &mut BTreeMap<&'a [u8], usize>,
    base: &'a [u8],
) -> Result<usize, AllocError>
    ensures rank { IsNoted (map rule_of rules.now) base.now (noted ranks.old base.now)
        → IfOk result (λ rank. HasNextRank (map rule_of rules.now) base.now rank) }
    ensures noted { IfOk result (λ rank. NotesAlso ranks.old base.now rank ranks.new) }
    ensures refused { OnErr result (IsUnchanged ranks.old ranks.new) }
{
    let rank = known_rank(rules, ranks, base).unwrap_or(rules.len());
    ranks.insert(base, rank)?;
    Ok(rank)
}

/// The rank of a base, if a rule has it.
fn known_rank(rules: &[Kept<'_>], ranks: &BTreeMap<&[u8], usize>, base: &[u8]) -> Option<usize>
    ensures { IsNoted (map rule_of rules.now) base.now (noted ranks.now base.now)
        → IsRankIn (map rule_of rules.now) base.now result }
{
    let rank = *ranks.get(base)?;
    if has_base_at(rules, rank, base) {
        Some(rank)
    } else {
        None
    }
}

/// Whether the rule at an index has the base.
fn has_base_at(rules: &[Kept<'_>], at: usize, base: &[u8]) -> bool
    ensures { IsTrue result ↔ HasBaseAt rules.now at base.now }
{
    match rules.get(at) {
        Some(rule) => rule.base == base,
        None => false,
    }
}

/// Records a base for a front, unless the recorded base has a rank that is no higher.
fn note_front<'a>(
    fronts: &mut BTreeMap<&'a [u8], Ranked<'a>>,
    front: &'a [u8],
    base: Ranked<'a>,
) -> Result<(), AllocError>
    ensures noted { OnOk result (NotesLower fronts.old front.now base.entry fronts.new) }
    ensures refused { OnErr result (IsUnchanged fronts.old fronts.new) }
{
    let lower = lower_of(fronts.get(front).copied(), base);
    fronts.insert(front, lower)?;
    Ok(())
}

/// The base, or the recorded one if its rank is no higher.
fn lower_of<'a>(noted: Option<Ranked<'a>>, base: Ranked<'a>) -> Ranked<'a>
    ensures { IsLowerOf noted.entry base.entry result }
{
    let Some(first) = noted else {
        return base;
    };
    if first.rank <= base.rank { first } else { base }
}

/// Rewrites a text by the recorded fronts. The lengths ascend, so the last front that is found is the longest; no
/// front longer than the text is looked up.
fn rewritten<'a, 't>(
    fronts: &BTreeMap<&'a [u8], Ranked<'a>>,
    lengths: &BTreeSet<usize>,
    text: &'t [u8],
) -> Rewritten<'t>
where
    'a: 't,
    ensures { (rules : List Rule) → NotesFronts rules fronts.now → NotesLengths rules lengths.now
        → IsRewritten rules text.now result }
{
    let mut outcome = Rewritten {
        base: None,
        rest: text,
    };
    for length in lengths {
        let Some((front, rest)) = text.split_at_checked(*length) else {
            return outcome;
        };
        if let Some(first) = fronts.get(front) {
            outcome = Rewritten {
                base: Some(first.base),
                rest,
            };
        }
    }
    outcome
}
