//! What can be bound past a test, marked step by step.
ghost use Rattle.std.specs.Prelude.{◌≡◌, ◌<◌, ◌∷◌, [], length, IfOk};
ghost use Rattle.isle_trees.specs.Ranking.{AllBelow};
ghost use Rattle.isle_trees.specs.Search.{AreSound};
ghost use Rattle.isle_blocks.specs.Rows.{numbers_of};
ghost use Rattle.isle_blocks.specs.Inside.Trees.Builder.{IsFit, IsIndexOf, rules_in, scope_of};
ghost use Rattle.isle_blocks.specs.Inside.Trees.Marking.{IsSpread, Spreads};

use crate::ids::BindingId;
use crate::rule_set::RuleSet;
use crate::serializer::index::Index;
use crate::serializer::known::{Known, set_mark};
use crate::serializer::table::Table;
use std::alloc::{AllocError, Global};

impl RuleSet {
    /// Marks a site that can be bound, and adds it to a list, where that isn't done.
    fn spread_one(
        &self,
        index: &Index,
        known: &Known,
        site: BindingId,
        marks: &mut Table<bool>,
        list: &mut Vec<BindingId>,
    ) -> Result<(), AllocError>
        requires index { IsIndexOf self.now (length self.now.sites) index.now }
        requires fit { IsFit self.now (length self.now.sites) known.now }
        requires size { length marks.old ≡ length self.now.sites }
        requires site { site.0 < length self.now.sites }
        ensures { IfOk result (λ _. Spreads (rules_in self.now) (scope_of self.now known.now) (site.0 ∷ []) marks.old marks.new
            (numbers_of list.old.items) (numbers_of list.new.items)) }
    {
        if !self.needs_mark(index, known, marks, site) {
            return Ok(());
        }
        list.push(site)?;
        set_mark(marks, site)?;
        Ok(())
    }

    /// The same of sites, one after another.
    fn spread_each(
        &self,
        index: &Index,
        known: &Known,
        sites: &[BindingId],
        marks: &mut Table<bool>,
        list: &mut Vec<BindingId>,
    ) -> Result<(), AllocError>
        requires index { IsIndexOf self.now (length self.now.sites) index.now }
        requires fit { IsFit self.now (length self.now.sites) known.now }
        requires size { length marks.old ≡ length self.now.sites }
        requires below { AllBelow (numbers_of sites.now) (length self.now.sites) }
        ensures { IfOk result (λ _. Spreads (rules_in self.now) (scope_of self.now known.now) (numbers_of sites.now) marks.old marks.new
            (numbers_of list.old.items) (numbers_of list.new.items)) }
    {
        for site in sites {
            self.spread_one(index, known, *site, marks, list)?;
        }
        Ok(())
    }

    /// Past a test of a site, marks what can be bound now and gives it: first what the test makes, then what is made of that.
    pub(crate) fn spread(
        &self,
        alloc: Global,
        index: &Index,
        known: &Known,
        site: BindingId,
        marks: &mut Table<bool>,
    ) -> Result<Vec<BindingId>, AllocError>
        requires index { IsIndexOf self.now (length self.now.sites) index.now }
        requires fit { IsFit self.now (length self.now.sites) known.now }
        requires size { length marks.old ≡ length self.now.sites }
        requires sound { AreSound (rules_in self.now) (scope_of self.now known.now) marks.old }
        ensures { IfOk result (λ v. IsSpread (rules_in self.now) (scope_of self.now known.now) site.0 marks.old marks.new (numbers_of v.items)) }
    {
        let mut list = Vec::new(alloc);
        self.spread_each(index, known, index.made_from(site), marks, &mut list)?;
        let mut at = 0;
        'spreading: while at < list.len() {
            self.spread_each(index, known, index.dependents(list[at]), marks, &mut list)?;
            at += 1;
        }
        Ok(list)
    }
}
