//! The best test of the rules left.
ghost use Rattle.isle_blocks.specs.Inside.Trees.Best.{AreClassesPassed, AreEqualitiesPassed, AreSitesPassed, IsClassPassed, IsPassed, IsRowPassed, IsSitePassed, IsStillRanked};
ghost use Rattle.std.specs.Prelude.{◌≡◌, ◌≤◌, ◌<◌, ◌&&◌, not, length, IfOk, MatchOption, ℕ, true};
ghost use Rattle.isle_trees.specs.Builds.{IsBest, HasNoTest, key};
ghost use Rattle.isle_trees.specs.Ranking.{IsNoBetter, IsRanked, AllBelow, may_win};
ghost use Rattle.isle_trees.specs.Rules.{Elem};
ghost use Rattle.isle_trees.specs.Scopes.{IsReady, Test as AnyTest, counted, others, on_match, on_loop, on_equal, IsAvailable};
ghost use Rattle.isle_trees.specs.Search.{AreMarked, AreSound, ArePartsFirst, IsInOrder, can_bind, is_made, is_open, is_ready, is_marked, first_of};
ghost use Rattle.isle_blocks.specs.Rows.{numbers_of};
ghost use Rattle.isle_blocks.specs.Inside.Trees.Builder.{IsFit, IsIndexOf, IsSerializable, best_shown, key_shown};
ghost use Rattle.isle_blocks.specs.Inside.Trees.Marking.{AreReady};
ghost use Rattle.isle_blocks.specs.Inside.Trees.Builder.{rules_in, scope_of, test_shown};

use crate::ids::BindingId;
use crate::rule_set::RuleSet;
use crate::serializer::index::Index;
use crate::serializer::known::{Key, Known, Ranked, Test, all_set, better, is_set};
use crate::serializer::table::Table;
use isle_ast::Seq;
use std::alloc::{AllocError, Global};

impl RuleSet {
    /// Whether the test that makes a site has passed; other sites are made by none.
    fn is_made(&self, index: &Index, known: &Known, site: BindingId) -> bool
        requires index { IsIndexOf self.now (length self.now.sites) index.now }
        requires site { site.0 < length self.now.sites }
        requires fit { IsFit self.now (length self.now.sites) known.now }
        ensures { result ≡ is_made (rules_in self.now).tests (scope_of self.now known.now) ((rules_in self.now).made site.0) }
    {
        let Some(source) = self.source(site) else {
            return true;
        };
        let Some(rule) = known.passed(source) else {
            return false;
        };
        match index.opener(site) {
            Some(opener) => self.same_want(opener, rule, source),
            None => false,
        }
    }

    fn can_bind(&self, index: &Index, known: &Known, marks: &Table<bool>, site: BindingId) -> bool
        requires index { IsIndexOf self.now (length self.now.sites) index.now }
        requires site { site.0 < length self.now.sites }
        requires fit { IsFit self.now (length self.now.sites) known.now }
        ensures { result ≡ can_bind (rules_in self.now) (scope_of self.now known.now) marks.now site.0 }
    {
        self.is_made(index, known, site) && all_set(marks, self.parts(site))
    }

    /// Whether a site that isn't marked can be bound.
    pub(crate) fn needs_mark(
        &self,
        index: &Index,
        known: &Known,
        marks: &Table<bool>,
        site: BindingId,
    ) -> bool
        requires index { IsIndexOf self.now (length self.now.sites) index.now }
        requires site { site.0 < length self.now.sites }
        requires fit { IsFit self.now (length self.now.sites) known.now }
        ensures { result ≡ (not (is_marked marks.now site.0) && can_bind (rules_in self.now) (scope_of self.now known.now) marks.now site.0) }
    {
        !is_set(marks, site) && self.can_bind(index, known, marks, site)
    }

    /// Marks the sites of a list that can be bound.
    fn mark(
        &self,
        index: &Index,
        sites: &[BindingId],
        known: &Known,
        marks: &mut Table<bool>,
    ) -> Result<(), AllocError>
        requires index { IsIndexOf self.now (length self.now.sites) index.now }
        requires fit { IsFit self.now (length self.now.sites) known.now }
        requires size { length marks.old ≡ length self.now.sites }
        requires below { AllBelow (numbers_of sites.now) (length self.now.sites) }
        requires first { ArePartsFirst (rules_in self.now) (numbers_of sites.now) }
        requires sound { AreSound (rules_in self.now) (scope_of self.now known.now) marks.old }
        ensures sound { IfOk result (λ _. AreSound (rules_in self.now) (scope_of self.now known.now) marks.new) }
        ensures full { IfOk result (λ _. (s : ℕ) → Elem s (numbers_of sites.now) → IsAvailable (rules_in self.now) (scope_of self.now known.now) s
            → is_marked marks.new s ≡ true) }
        ensures kept { IfOk result (λ _. (s : ℕ) → is_marked marks.old s ≡ true → is_marked marks.new s ≡ true) }
        ensures size { IfOk result (λ _. length marks.new ≡ length marks.old) }
    {
        for site in sites {
            if self.needs_mark(index, known, marks, *site) {
                marks.set(site.index(), true)?;
            }
        }
        Ok(())
    }

    /// The sites that the tests of the rules left ask, where they are available; those above stay so.
    pub(crate) fn available(
        &self,
        index: &Index,
        left: &[usize],
        known: &Known,
        above: &Table<bool>,
    ) -> Result<Table<bool>, AllocError>
        requires index { IsIndexOf self.now (length self.now.sites) index.now }
        requires fit { IsFit self.now (length self.now.sites) known.now }
        requires size { length above.now ≡ length self.now.sites }
        requires sound { AreSound (rules_in self.now) (scope_of self.now known.now) above.now }
        ensures size { IfOk result (λ v. length v ≡ length self.now.sites) }
        ensures marked { IfOk result (λ v. AreMarked (rules_in self.now) left.now (scope_of self.now known.now) v) }
    {
        let mut marks = above.copy()?;
        for rule in left {
            self.mark(index, index.asked(*rule), known, &mut marks)?;
        }
        Ok(marks)
    }

    /// Whether a site is available and not tested.
    pub(crate) fn is_open(&self, known: &Known, marks: &Table<bool>, site: BindingId) -> bool
        requires fit { IsFit self.now (length self.now.sites) known.now }
        ensures { result ≡ is_open (scope_of self.now known.now) marks.now site.0 }
    {
        is_set(marks, site) && known.passed(site).is_none()
    }

    /// Whether a test can be made.
    fn is_ready(&self, known: &Known, marks: &Table<bool>, test: Test) -> bool
        requires fit { IsFit self.now (length self.now.sites) known.now }
        ensures { result ≡ is_ready (scope_of self.now known.now) marks.now (test_shown test) }
    {
        match test {
            Test::Match(site) => self.is_open(known, marks, site),
            Test::Equal(a, b) => {
                a < b
                    && (self.is_open(known, marks, a)
                        && (self.is_open(known, marks, b) && known.label(a) != known.label(b)))
            }
            Test::Loop(site) => self.is_open(known, marks, site),
        }
    }

    /// How a test is ranked.
    fn key(&self, left: &[usize], known: &Known, test: Test) -> Key
        requires order { IsInOrder (rules_in self.now) left.now }
        ensures { key_shown result ≡ key (rules_in self.now) left.now (scope_of self.now known.now) (test_shown test) }
    {
        known.key_with(self.count(test, left), test)
    }

    /// The better of the best test so far and one more.
    fn consider(
        &self,
        left: &[usize],
        known: &Known,
        best: Option<Ranked>,
        test: Test,
        most: usize,
    ) -> Option<Ranked>
        requires order { IsInOrder (rules_in self.now) left.now }
        requires ready { IsReady (rules_in self.now) (scope_of self.now known.now) (test_shown test) }
        requires most { length (counted (rules_in self.now) (test_shown test) left.now) ≤ most }
        requires ranked { IsRanked (rules_in self.now) left.now (scope_of self.now known.now) (best_shown best) }
        ensures ranked { IsRanked (rules_in self.now) left.now (scope_of self.now known.now) (best_shown result) }
        ensures new { IsNoBetter (rules_in self.now) left.now (scope_of self.now known.now) (best_shown result) (test_shown test) }
        ensures old { (u : AnyTest) → IsNoBetter (rules_in self.now) left.now (scope_of self.now known.now) (best_shown best) u
            → IsNoBetter (rules_in self.now) left.now (scope_of self.now known.now) (best_shown result) u }
    {
        if !known.may_win(best, test, most) {
            return best;
        }
        let key = self.key(left, known, test);
        better(best, Ranked { test, key })
    }

    /// No test of a site counts more rules than are left, nor than there are that test it.
    fn most(&self, index: &Index, left: &[usize], site: BindingId) -> usize
        requires order { IsInOrder (rules_in self.now) left.now }
        requires index { IsIndexOf self.now (length self.now.sites) index.now }
        ensures { (t : AnyTest) → first_of t ≡ site.0 → length (counted (rules_in self.now) t left.now) ≤ result }
    {
        index.users(site).len().min(left.len())
    }

    /// The better of the best test so far and one more, where that can be made.
    fn consider_ready(
        &self,
        left: &[usize],
        known: &Known,
        marks: &Table<bool>,
        test: Test,
        most: usize,
        best: Option<Ranked>,
    ) -> Option<Ranked>
        requires fit { IsFit self.now (length self.now.sites) known.now }
        requires order { IsInOrder (rules_in self.now) left.now }
        requires sound { AreSound (rules_in self.now) (scope_of self.now known.now) marks.now }
        requires most { length (counted (rules_in self.now) (test_shown test) left.now) ≤ most }
        requires ranked { IsRanked (rules_in self.now) left.now (scope_of self.now known.now) (best_shown best) }
        ensures kept { IsStillRanked (rules_in self.now) left.now (scope_of self.now known.now) (best_shown best) (best_shown result) }
        ensures passed { IsPassed (rules_in self.now) left.now (scope_of self.now known.now) marks.now (best_shown result) (test_shown test) }
    {
        if !self.is_ready(known, marks, test) {
            return best;
        }
        self.consider(left, known, best, test, most)
    }

    /// The best test so far or one of a site, but for equalities, whichever is the best.
    fn consider_site(
        &self,
        index: &Index,
        left: &[usize],
        known: &Known,
        marks: &Table<bool>,
        site: BindingId,
        best: Option<Ranked>,
    ) -> Option<Ranked>
        requires index { IsIndexOf self.now (length self.now.sites) index.now }
        requires fit { IsFit self.now (length self.now.sites) known.now }
        requires order { IsInOrder (rules_in self.now) left.now }
        requires sound { AreSound (rules_in self.now) (scope_of self.now known.now) marks.now }
        requires ranked { IsRanked (rules_in self.now) left.now (scope_of self.now known.now) (best_shown best) }
        ensures kept { IsStillRanked (rules_in self.now) left.now (scope_of self.now known.now) (best_shown best) (best_shown result) }
        ensures passed { IsSitePassed (rules_in self.now) left.now (scope_of self.now known.now) marks.now (best_shown result) site }
    {
        let most = self.most(index, left, site);
        let first = self.consider_ready(left, known, marks, Test::Match(site), most, best);
        self.consider_ready(left, known, marks, Test::Loop(site), most, first)
    }

    /// The best test of some sites, but for equalities.
    fn best_of(
        &self,
        index: &Index,
        left: &[usize],
        known: &Known,
        marks: &Table<bool>,
        sites: &[BindingId],
    ) -> Option<Ranked>
        requires index { IsIndexOf self.now (length self.now.sites) index.now }
        requires fit { IsFit self.now (length self.now.sites) known.now }
        requires order { IsInOrder (rules_in self.now) left.now }
        requires sound { AreSound (rules_in self.now) (scope_of self.now known.now) marks.now }
        ensures ranked { IsRanked (rules_in self.now) left.now (scope_of self.now known.now) (best_shown result) }
        ensures passed { AreSitesPassed (rules_in self.now) left.now (scope_of self.now known.now) marks.now (best_shown result) sites.now }
    {
        let mut best = None;
        for site in sites {
            best = self.consider_site(index, left, known, marks, *site, best);
        }
        best
    }

    /// The best test so far or an equality of a site with one of a class, whichever is the best.
    fn consider_each(
        &self,
        left: &[usize],
        known: &Known,
        marks: &Table<bool>,
        class: &[BindingId],
        a: BindingId,
        most: usize,
        best: Option<Ranked>,
    ) -> Option<Ranked>
        requires fit { IsFit self.now (length self.now.sites) known.now }
        requires order { IsInOrder (rules_in self.now) left.now }
        requires sound { AreSound (rules_in self.now) (scope_of self.now known.now) marks.now }
        requires most { (b : ℕ) → length (counted (rules_in self.now) (on_equal a.0 b) left.now) ≤ most }
        requires ranked { IsRanked (rules_in self.now) left.now (scope_of self.now known.now) (best_shown best) }
        ensures kept { IsStillRanked (rules_in self.now) left.now (scope_of self.now known.now) (best_shown best) (best_shown result) }
        ensures passed { IsRowPassed (rules_in self.now) left.now (scope_of self.now known.now) marks.now class.now (best_shown result) a }
    {
        let mut best = best;
        for b in class {
            best = self.consider_ready(left, known, marks, Test::Equal(a, *b), most, best);
        }
        best
    }

    /// Whether an equality of a site with a later one may be better than the best test so far.
    fn may_join(
        &self,
        known: &Known,
        marks: &Table<bool>,
        a: BindingId,
        most: usize,
        best: Option<Ranked>,
    ) -> bool
        requires fit { IsFit self.now (length self.now.sites) known.now }
        ensures { result ≡ (is_open (scope_of self.now known.now) marks.now a.0 && may_win (scope_of self.now known.now)
            (best_shown best) (on_equal a.0 a.0) most) }
    {
        self.is_open(known, marks, a) && known.may_win(best, Test::Equal(a, a), most)
    }

    /// The same as `consider_each`, which is called only where an equality of the site may be better.
    fn consider_row(
        &self,
        index: &Index,
        left: &[usize],
        known: &Known,
        marks: &Table<bool>,
        class: &[BindingId],
        a: BindingId,
        best: Option<Ranked>,
    ) -> Option<Ranked>
        requires index { IsIndexOf self.now (length self.now.sites) index.now }
        requires fit { IsFit self.now (length self.now.sites) known.now }
        requires order { IsInOrder (rules_in self.now) left.now }
        requires sound { AreSound (rules_in self.now) (scope_of self.now known.now) marks.now }
        requires ranked { IsRanked (rules_in self.now) left.now (scope_of self.now known.now) (best_shown best) }
        ensures kept { IsStillRanked (rules_in self.now) left.now (scope_of self.now known.now) (best_shown best) (best_shown result) }
        ensures passed { IsRowPassed (rules_in self.now) left.now (scope_of self.now known.now) marks.now class.now (best_shown result) a }
    {
        let most = self.most(index, left, a);
        if !self.may_join(known, marks, a, most, best) {
            return best;
        }
        self.consider_each(left, known, marks, class, a, most, best)
    }

    /// The best test so far or an equality of a class, whichever is the best.
    fn consider_class(
        &self,
        index: &Index,
        left: &[usize],
        known: &Known,
        marks: &Table<bool>,
        class: &[BindingId],
        best: Option<Ranked>,
    ) -> Option<Ranked>
        requires index { IsIndexOf self.now (length self.now.sites) index.now }
        requires fit { IsFit self.now (length self.now.sites) known.now }
        requires order { IsInOrder (rules_in self.now) left.now }
        requires sound { AreSound (rules_in self.now) (scope_of self.now known.now) marks.now }
        requires ranked { IsRanked (rules_in self.now) left.now (scope_of self.now known.now) (best_shown best) }
        ensures kept { IsStillRanked (rules_in self.now) left.now (scope_of self.now known.now) (best_shown best) (best_shown result) }
        ensures passed { IsClassPassed (rules_in self.now) left.now (scope_of self.now known.now) marks.now (best_shown result) class.now }
    {
        let mut best = best;
        for a in class {
            best = self.consider_row(index, left, known, marks, class, *a, best);
        }
        best
    }

    fn consider_classes(
        &self,
        index: &Index,
        left: &[usize],
        known: &Known,
        marks: &Table<bool>,
        classes: &[Seq<BindingId>],
        best: Option<Ranked>,
    ) -> Option<Ranked>
        requires index { IsIndexOf self.now (length self.now.sites) index.now }
        requires fit { IsFit self.now (length self.now.sites) known.now }
        requires order { IsInOrder (rules_in self.now) left.now }
        requires sound { AreSound (rules_in self.now) (scope_of self.now known.now) marks.now }
        requires ranked { IsRanked (rules_in self.now) left.now (scope_of self.now known.now) (best_shown best) }
        ensures kept { IsStillRanked (rules_in self.now) left.now (scope_of self.now known.now) (best_shown best) (best_shown result) }
        ensures passed { AreClassesPassed (rules_in self.now) left.now (scope_of self.now known.now) marks.now (best_shown result) classes.now }
    {
        let mut best = best;
        for class in classes {
            best = self.consider_class(index, left, known, marks, class.as_slice(), best);
        }
        best
    }

    /// The best test so far or an equality of the top rules, whichever is the best.
    fn consider_equalities(
        &self,
        index: &Index,
        left: &[usize],
        known: &Known,
        marks: &Table<bool>,
        best: Option<Ranked>,
    ) -> Option<Ranked>
        requires index { IsIndexOf self.now (length self.now.sites) index.now }
        requires fit { IsFit self.now (length self.now.sites) known.now }
        requires order { IsInOrder (rules_in self.now) left.now }
        requires sound { AreSound (rules_in self.now) (scope_of self.now known.now) marks.now }
        requires ranked { IsRanked (rules_in self.now) left.now (scope_of self.now known.now) (best_shown best) }
        ensures kept { IsStillRanked (rules_in self.now) left.now (scope_of self.now known.now) (best_shown best) (best_shown result) }
        ensures passed { AreEqualitiesPassed (rules_in self.now) left.now (scope_of self.now known.now) marks.now (best_shown result) }
    {
        let top = self.top(left);
        let mut best = best;
        for rule in left {
            if self.priority(*rule) < top {
                return best;
            }
            best = self.consider_classes(index, left, known, marks, index.classes(*rule), best);
        }
        best
    }

    /// The best test, where one is left.
    pub(crate) fn best(
        &self,
        index: &Index,
        left: &[usize],
        known: &Known,
        marks: &Table<bool>,
        ready: &[BindingId],
    ) -> Option<Test>
        requires set { IsSerializable self.now }
        requires index { IsIndexOf self.now (length self.now.sites) index.now }
        requires fit { IsFit self.now (length self.now.sites) known.now }
        requires order { IsInOrder (rules_in self.now) left.now }
        requires marked { AreMarked (rules_in self.now) left.now (scope_of self.now known.now) marks.now }
        requires ready { AreReady (rules_in self.now) left.now (scope_of self.now known.now) marks.now (numbers_of ready.now) }
        ensures { MatchOption result (HasNoTest (rules_in self.now) left.now (scope_of self.now known.now))
            (λ t. IsBest (rules_in self.now) left.now (scope_of self.now known.now) (test_shown t)) }
    {
        let best = self.best_of(index, left, known, marks, ready);
        match self.consider_equalities(index, left, known, marks, best) {
            None => None,
            Some(ranked) => Some(ranked.test),
        }
    }

    /// The rules that a test counts, and the others, in order.
    pub(crate) fn split(
        &self,
        alloc: Global,
        test: Test,
        left: &[usize],
    ) -> Result<(Vec<usize>, Vec<usize>), AllocError>
        requires order { IsInOrder (rules_in self.now) left.now }
        ensures counted { IfOk result (λ p. p.0.items ≡ counted (rules_in self.now) (test_shown test) left.now) }
        ensures others { IfOk result (λ p. p.1.items ≡ others (rules_in self.now) (test_shown test) left.now) }
    {
        let floor = self.floor(test, left);
        let mut chosen = Vec::new(alloc);
        let mut rest = Vec::new(alloc);
        for rule in left {
            if self.picks(test, floor, *rule) {
                chosen.push(*rule)?;
            } else {
                rest.push(*rule)?;
            }
        }
        Ok((chosen, rest))
    }
}
