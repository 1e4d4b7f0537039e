//! What is known on a path of tests, and how tests are ranked.
ghost use Rattle.isle_trees.specs.Builds.{state};
ghost use Rattle.std.specs.Prelude.{◌≡◌, ◌<◌, length, map, slice_index_or, IfOk, None, true, false, slice_set, ℕ};
ghost use Rattle.isle_trees.specs.Scopes.{emit, join, release, nothing_known};
ghost use Rattle.isle_trees.specs.Ranking.{above, better, key_with, may_win};
ghost use Rattle.isle_trees.specs.Search.{IsClean, first_of, is_marked, all_marked};
ghost use Rattle.isle_blocks.specs.Rows.{numbers_of};
ghost use Rattle.isle_blocks.specs.RuleSets.{RulesOverSites};
ghost use Rattle.isle_blocks.specs.Inside.Trees.Builder.{IsFit, scope_of, test_shown, key_shown, ranked_shown, best_shown};
ghost use Rattle.isle_blocks.specs.Inside.Trees.Work.{IsCopy};

use crate::ids::BindingId;
use crate::serializer::table::Table;
use std::alloc::{AllocError, Global};

/// What a rule may need of its sites: a test of one, two that are equal, or one value of a multi call.
#[derive(Clone, Copy)]
pub(crate) enum Test {
    Match(BindingId),
    Equal(BindingId, BindingId),
    Loop(BindingId),
}

/// How a test is ranked among others: the greater key is better, but for the lesser sites.
#[derive(Clone, Copy)]
pub(crate) struct Key {
    pub(crate) count: usize,
    pub(crate) state: usize,
    pub(crate) kind: usize,
    pub(crate) first: usize,
    pub(crate) second: usize,
}

/// A test with its key.
#[derive(Clone, Copy)]
pub(crate) struct Ranked {
    pub(crate) test: Test,
    pub(crate) key: Key,
}

/// What a path knows of each site: a rule whose want of it was met, its label, which it has in common with the sites that
/// are known to be equal, and whether it is bound. A copy shares what it has in common.
#[derive(Drop)]
pub(crate) struct Known {
    pub(crate) passed: Table<Option<usize>>,
    pub(crate) labels: Table<usize>,
    pub(crate) emitted: Table<bool>,
}

/// Whether a site is marked.
pub(crate) fn is_set(marks: &Table<bool>, site: BindingId) -> bool
    ensures { result ≡ is_marked marks.now site.0 }
{
    marks.get_or(site.index(), false)
}

/// No site is marked.
pub(crate) fn no_marks(alloc: Global, count: usize) -> Result<Table<bool>, AllocError>
    ensures { IfOk result (IsClean count) }
{
    let none = vec![in alloc; false; count]?;
    let marks = Table::from_slice(alloc, &none)?;
    Ok(marks)
}

/// A site is marked.
pub(crate) fn set_mark(marks: &mut Table<bool>, site: BindingId) -> Result<(), AllocError>
    requires { site.0 < length marks.old }
    ensures { IfOk result (λ _. marks.new ≡ slice_set marks.old site.0 true) }
{
    marks.set(site.index(), true)?;
    Ok(())
}

/// Whether all of these sites are marked.
pub(crate) fn all_set(marks: &Table<bool>, sites: &[BindingId]) -> bool
    ensures { result ≡ all_marked marks.now (numbers_of sites.now) }
{
    for site in sites {
        if !is_set(marks, *site) {
            return false;
        }
    }
    true
}

impl Test {
    /// The site of a test, or the first of two.
    pub(crate) fn first(self) -> BindingId
        ensures { result.0 ≡ first_of (test_shown self) }
    {
        match self {
            Test::Match(site) => site,
            Test::Equal(a, _) => a,
            Test::Loop(site) => site,
        }
    }
}

/// Whether the first key is the greater.
fn is_above(a: &Key, b: &Key) -> bool
    ensures { result ≡ above (key_shown a.now) (key_shown b.now) }
{
    a.count > b.count
        || (a.count == b.count
            && (a.state > b.state
                || (a.state == b.state
                    && (a.kind > b.kind
                        || (a.kind == b.kind
                            && (a.first < b.first
                                || (b.first == a.first && a.second < b.second)))))))
}

/// The better of the best test so far and a new one; a test that counts no rule is none.
pub(crate) fn better(best: Option<Ranked>, new: Ranked) -> Option<Ranked>
    ensures { best_shown result ≡ better (best_shown best) (ranked_shown new) }
{
    match best {
        None => if new.key.count > 0 { Some(new) } else { None },
        Some(old) => if is_above(&new.key, &old.key) {
            Some(new)
        } else {
            Some(old)
        },
    }
}

impl Known {
    /// The rule whose want of the site was met.
    pub(crate) fn passed(&self, site: BindingId) -> Option<usize>
        ensures { result ≡ slice_index_or self.now.passed site.0 None }
    {
        self.passed.get_or(site.index(), None)
    }

    pub(crate) fn label(&self, site: BindingId) -> usize
        ensures { result ≡ slice_index_or self.now.labels site.0 site.0 }
    {
        self.labels.get_or(site.index(), site.index())
    }

    pub(crate) fn is_emitted(&self, site: BindingId) -> bool
        ensures { result ≡ slice_index_or self.now.emitted site.0 false }
    {
        is_set(&self.emitted, site)
    }

    /// A test of bound sites is ranked before others of its count.
    fn state(&self, test: Test) -> usize
        ensures { (set : RulesOverSites) → result ≡ state (scope_of set self.now) (test_shown test) }
    {
        match test {
            Test::Match(site) => if self.is_emitted(site) { 1 } else { 0 },
            Test::Equal(a, b) => if self.is_emitted(a) && self.is_emitted(b) {
                1
            } else {
                0
            },
            Test::Loop(site) => if self.is_emitted(site) { 1 } else { 0 },
        }
    }

    /// How a test is ranked that counts so many rules.
    pub(crate) fn key_with(&self, count: usize, test: Test) -> Key
        ensures { (set : RulesOverSites) → key_shown result ≡ key_with (scope_of set self.now) count (test_shown test) }
    {
        let state = self.state(test);
        let (kind, first, second) = match test {
            Test::Match(site) => (2, site, site),
            Test::Equal(a, b) => (1, a, b),
            Test::Loop(site) => (0, site, site),
        };
        Key {
            count,
            state,
            kind,
            first: first.index(),
            second: second.index(),
        }
    }

    /// Whether a test that counts at most so many rules may be better than the best so far.
    pub(crate) fn may_win(&self, best: Option<Ranked>, test: Test, most: usize) -> bool
        ensures { (set : RulesOverSites) → result ≡ may_win (scope_of set self.now) (best_shown best) (test_shown test) most }
    {
        match best {
            None => true,
            Some(old) => is_above(&self.key_with(most, test), &old.key),
        }
    }

    /// A site is bound.
    pub(crate) fn set_emitted(&mut self, site: BindingId) -> Result<(), AllocError>
        requires { site.0 < length self.old.emitted }
        ensures scope { IfOk result (λ _. (set : RulesOverSites) → scope_of set self.new ≡ emit (scope_of set self.old) site.0) }
        ensures others { (self.new.passed ≡ self.old.passed) × (self.new.labels ≡ self.old.labels) }
        ensures size { IfOk result (λ _. length self.new.emitted ≡ length self.old.emitted) }
    {
        self.emitted.set(site.index(), true)?;
        Ok(())
    }

    /// A multi call can be bound again.
    pub(crate) fn release(&mut self, site: BindingId) -> Result<(), AllocError>
        requires { site.0 < length self.old.emitted }
        ensures scope { IfOk result (λ _. (set : RulesOverSites) → scope_of set self.new ≡ release (scope_of set self.old) site.0) }
        ensures others { (self.new.passed ≡ self.old.passed) × (self.new.labels ≡ self.old.labels) }
        ensures size { IfOk result (λ _. length self.new.emitted ≡ length self.old.emitted) }
    {
        self.emitted.set(site.index(), false)?;
        Ok(())
    }

    /// A rule's want of a site is met.
    pub(crate) fn pass(&mut self, site: BindingId, rule: usize) -> Result<(), AllocError>
        requires { site.0 < length self.old.passed }
        ensures passed { IfOk result (λ _. self.new.passed ≡ slice_set self.old.passed site.0 (Some rule)) }
        ensures others { (self.new.labels ≡ self.old.labels) × (self.new.emitted ≡ self.old.emitted) }
    {
        self.passed.set(site.index(), Some(rule))?;
        Ok(())
    }

    /// Nothing is known: each site has a label of its own.
    pub(crate) fn start(alloc: Global, sites: usize) -> Result<Known, AllocError>
        ensures fit { IfOk result (λ k. (set : RulesOverSites) → IsFit set sites k) }
        ensures nothing { IfOk result (λ k. (set : RulesOverSites) → scope_of set k ≡ nothing_known) }
    {
        let mut passed = Vec::new(alloc);
        let mut labels = Vec::new(alloc);
        let mut emitted = Vec::new(alloc);
        for site in 0..sites {
            passed.push(None)?;
            labels.push(site)?;
            emitted.push(false)?;
        }
        Ok(Known {
            passed: Table::from_slice(alloc, &passed)?,
            labels: Table::from_slice(alloc, &labels)?,
            emitted: Table::from_slice(alloc, &emitted)?,
        })
    }

    /// Two sites are equal: those that have the label of the first get that of the second.
    pub(crate) fn join(
        &mut self,
        alloc: Global,
        a: BindingId,
        b: BindingId,
    ) -> Result<(), AllocError>
        requires a { a.0 < length self.old.labels }
        requires b { b.0 < length self.old.labels }
        requires below { (x : ℕ) → x < length self.old.labels → slice_index_or self.old.labels x x < length self.old.labels }
        ensures scope { IfOk result (λ _. (set : RulesOverSites) → scope_of set self.new ≡ join (scope_of set self.old) a.0 b.0) }
        ensures others { (self.new.passed ≡ self.old.passed) × (self.new.emitted ≡ self.old.emitted) }
        ensures size { length self.new.labels ≡ length self.old.labels }
        ensures below { (x : ℕ) → x < length self.new.labels → slice_index_or self.new.labels x x < length self.new.labels }
    {
        let labels = self.labels.relabeled(alloc, self.label(a), self.label(b))?;
        self.labels = labels;
        Ok(())
    }

    pub(crate) fn copy(&self) -> Result<Known, AllocError>
        ensures { IfOk result (λ k. IsCopy k self.now) }
    {
        let passed = self.passed.copy()?;
        let labels = self.labels.copy()?;
        let emitted = self.emitted.copy()?;
        Ok(Known {
            passed,
            labels,
            emitted,
        })
    }
}
