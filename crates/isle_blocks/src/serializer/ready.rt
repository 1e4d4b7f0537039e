//! Which sites can be tested, listed step by step.
ghost use Rattle.std.specs.Prelude.{◌≡◌, ◌≤◌, ◌++◌, ◌∷◌, [], length, IfOk};
ghost use Rattle.std.specs.List.{filter};
ghost use Rattle.isle_trees.specs.Rules.{below};
ghost use Rattle.isle_blocks.specs.Rows.{numbers_of};
ghost use Rattle.isle_blocks.specs.Inside.Trees.Builder.{IsFit, scope_of, users_at};
ghost use Rattle.isle_blocks.specs.Inside.Trees.Marking.{is_testable};

use crate::ids::BindingId;
use crate::rule_set::RuleSet;
use crate::serializer::index::Index;
use crate::serializer::known::Known;
use crate::serializer::table::Table;
use std::alloc::{AllocError, Global};

impl RuleSet {
    /// Whether a site can be tested now, and some rule tests it.
    fn is_testable(
        &self,
        index: &Index,
        known: &Known,
        marks: &Table<bool>,
        site: BindingId,
    ) -> bool
        requires fit { IsFit self.now (length self.now.sites) known.now }
        ensures { result ≡ is_testable (users_at index.now) (scope_of self.now known.now) marks.now site.0 }
    {
        self.is_open(known, marks, site) && index.users(site).len() > 0
    }

    /// Adds a site, where it can be tested.
    fn push_ready(
        &self,
        index: &Index,
        known: &Known,
        marks: &Table<bool>,
        site: BindingId,
        ready: &mut Vec<BindingId>,
    ) -> Result<(), AllocError>
        requires fit { IsFit self.now (length self.now.sites) known.now }
        ensures { IfOk result (λ _. numbers_of ready.new.items
            ≡ numbers_of ready.old.items ++ filter (is_testable (users_at index.now) (scope_of self.now known.now) marks.now) (site.0 ∷ [])) }
    {
        if self.is_testable(index, known, marks, site) {
            ready.push(site)?;
        }
        Ok(())
    }

    /// Adds those of some sites that can be tested.
    fn add_ready(
        &self,
        index: &Index,
        known: &Known,
        marks: &Table<bool>,
        sites: &[BindingId],
        ready: &mut Vec<BindingId>,
    ) -> Result<(), AllocError>
        requires fit { IsFit self.now (length self.now.sites) known.now }
        ensures { IfOk result (λ _. numbers_of ready.new.items
            ≡ numbers_of ready.old.items ++ filter (is_testable (users_at index.now) (scope_of self.now known.now) marks.now)
            (numbers_of sites.now)) }
    {
        for site in sites {
            self.push_ready(index, known, marks, *site, ready)?;
        }
        Ok(())
    }

    /// The sites that can be tested past a test: of those that could be before, and of those that were marked since.
    pub(crate) fn ready_past(
        &self,
        alloc: Global,
        index: &Index,
        known: &Known,
        marks: &Table<bool>,
        before: &[BindingId],
        more: &[BindingId],
    ) -> Result<Vec<BindingId>, AllocError>
        requires fit { IsFit self.now (length self.now.sites) known.now }
        ensures { IfOk result (λ v. numbers_of v.items
            ≡ filter (is_testable (users_at index.now) (scope_of self.now known.now) marks.now) (numbers_of before.now ++ numbers_of more.now)) }
    {
        let mut ready = Vec::new(alloc);
        self.add_ready(index, known, marks, before, &mut ready)?;
        self.add_ready(index, known, marks, more, &mut ready)?;
        Ok(ready)
    }

    /// All sites that can be tested.
    pub(crate) fn all_ready(
        &self,
        alloc: Global,
        index: &Index,
        known: &Known,
        marks: &Table<bool>,
    ) -> Result<Vec<BindingId>, AllocError>
        requires few { length self.now.sites ≤ 65536 }
        requires fit { IsFit self.now (length self.now.sites) known.now }
        ensures { IfOk result (λ v. numbers_of v.items
            ≡ filter (is_testable (users_at index.now) (scope_of self.now known.now) marks.now) (below (length self.now.sites))) }
    {
        let mut ready = Vec::new(alloc);
        for site in 0..self.site_count() {
            self.push_ready(index, known, marks, BindingId(site as u16), &mut ready)?;
        }
        Ok(ready)
    }
}
