//! What is bound before a test, in the arm of a test, and before a return.
ghost use Rattle.std.specs.Prelude.{◌≡◌, ◌<◌, ◌++◌, ◌∷◌, [], ℕ, Option, Some, length, sum_by, IfOk};
ghost use Rattle.std.specs.List.{filter};
ghost use Rattle.std.specs.Option.{option_map};
ghost use Rattle.isle_trees.specs.Bag.{IsAscending};
ghost use Rattle.isle_trees.specs.Builds.{BindsEach};
ghost use Rattle.isle_trees.specs.Inside.Gathering.{IsClosure, Gathers};
ghost use Rattle.isle_trees.specs.Ranking.{PartsAreLower, AllBelow, Emits, EmitsOne, EmitsEach};
ghost use Rattle.isle_trees.specs.Rules.{Want, has};
ghost use Rattle.isle_trees.specs.Scopes.{inside, is_source};
ghost use Rattle.isle_trees.specs.Search.{AreDistinct, with_made};
ghost use Rattle.isle_blocks.specs.Rows.{numbers_of};
ghost use Rattle.isle_blocks.specs.Inside.Trees.Builder.{IsFit, IsIndexOf, rules_in, scope_of};
ghost use Rattle.isle_blocks.specs.Trees.View.{call_at, keep};
ghost use Rattle.isle_blocks.specs.Inside.Trees.Work.{IsSameKnown, options_shown, rights_in};

use crate::binding::Binding;
use crate::constraint::Constraint;
use crate::ids::BindingId;
use crate::rule::Rule;
use crate::rule_set::RuleSet;
use crate::serializer::index::Index;
use crate::serializer::known::{Known, is_set};
use crate::serializer::table::Table;
use std::alloc::{AllocError, Global};

/// Adds the sites that aren't marked to a list, and marks them.
pub(crate) fn gather(
    sites: &[BindingId],
    marks: &mut Table<bool>,
    list: &mut Vec<BindingId>,
) -> Result<(), AllocError>
    requires { AllBelow (numbers_of sites.now) (length marks.old) }
    ensures { IfOk result (λ _. Gathers (numbers_of sites.now) marks.old marks.new (numbers_of list.old.items) (numbers_of list.new.items)) }
{
    for site in sites {
        gather_one(*site, marks, list)?;
    }
    Ok(())
}

fn gather_one(
    site: BindingId,
    marks: &mut Table<bool>,
    list: &mut Vec<BindingId>,
) -> Result<(), AllocError>
    requires { site.0 < length marks.old }
    ensures { IfOk result (λ _. Gathers (site.0 ∷ []) marks.old marks.new (numbers_of list.old.items) (numbers_of list.new.items)) }
{
    if is_set(marks, site) {
        return Ok(());
    }
    list.push(site)?;
    marks.set(site.index(), true)?;
    Ok(())
}

fn ascending(list: Vec<BindingId>) -> Vec<BindingId>
    requires { AreDistinct (numbers_of list.items) }
    ensures ascending { IsAscending (numbers_of result.items) }
    ensures same { (f : ℕ → ℕ) → sum_by f (numbers_of list.items) ≡ sum_by f (numbers_of result.items) }
{
    let mut list = list;
    list.sort_unstable();
    list
}

impl RuleSet {
    /// The sites that aren't marked, with what they are made of, ascending: so each stands after its parts. They are marked.
    pub(crate) fn closure(
        &self,
        alloc: Global,
        sites: &[BindingId],
        marks: &mut Table<bool>,
    ) -> Result<Vec<BindingId>, AllocError>
        requires lower { PartsAreLower (rules_in self.now) }
        requires size { length marks.old ≡ length self.now.sites }
        requires below { AllBelow (numbers_of sites.now) (length self.now.sites) }
        ensures { IfOk result (λ v. IsClosure (rules_in self.now) (numbers_of sites.now) marks.old marks.new (numbers_of v.items)) }
    {
        let mut list = Vec::new(alloc);
        gather(sites, marks, &mut list)?;
        let mut at = 0;
        'parts: while at < list.len() {
            gather(self.parts(list[at]), marks, &mut list)?;
            at += 1;
        }
        Ok(ascending(list))
    }

    /// Puts sites into an order, where they stand in one.
    fn push_each(&self, sites: &[BindingId], order: &mut Vec<BindingId>) -> Result<(), AllocError>
        ensures { IfOk result (λ _. numbers_of order.new.items ≡ numbers_of order.old.items ++ filter (rules_in self.now).stands
            (numbers_of sites.now)) }
    {
        for site in sites {
            self.push_own(*site, order)?;
        }
        Ok(())
    }

    /// Binds sites and what they are made of, where that isn't done, in ascending order.
    pub(crate) fn emit_each(
        &self,
        alloc: Global,
        sites: &[BindingId],
        known: &mut Known,
        order: &mut Vec<BindingId>,
    ) -> Result<(), AllocError>
        requires lower { PartsAreLower (rules_in self.now) }
        requires below { AllBelow (numbers_of sites.now) (length self.now.sites) }
        requires size { length known.old.emitted ≡ length self.now.sites }
        ensures emits { IfOk result (λ _. Emits (rules_in self.now) (scope_of self.now known.old) (numbers_of sites.now)
            (numbers_of order.old.items) (numbers_of order.new.items) (scope_of self.now known.new)) }
        ensures known { IfOk result (λ _. IsSameKnown known.old known.new) }
    {
        let list = self.closure(alloc, sites, &mut known.emitted)?;
        self.push_each(&list, order)?;
        Ok(())
    }

    /// Binds a site after what it is made of, where that isn't done.
    pub(crate) fn emit(
        &self,
        alloc: Global,
        site: BindingId,
        known: &mut Known,
        order: &mut Vec<BindingId>,
    ) -> Result<(), AllocError>
        requires lower { PartsAreLower (rules_in self.now) }
        requires site { site.0 < length self.now.sites }
        requires size { length known.old.emitted ≡ length self.now.sites }
        ensures emits { IfOk result (λ _. Emits (rules_in self.now) (scope_of self.now known.old) (site.0 ∷ [])
            (numbers_of order.old.items) (numbers_of order.new.items) (scope_of self.now known.new)) }
        ensures one { IfOk result (λ _. EmitsOne (rules_in self.now) (scope_of self.now known.old) site.0
            (numbers_of order.old.items) (numbers_of order.new.items) (scope_of self.now known.new)) }
        ensures known { IfOk result (λ _. IsSameKnown known.old known.new) }
    {
        if known.is_emitted(site) {
            return Ok(());
        }
        self.emit_each(alloc, self.parts(site), known, order)?;
        self.push_own(site, order)?;
        known.set_emitted(site)?;
        Ok(())
    }

    /// Binds sites one after another.
    fn emit_rights(
        &self,
        alloc: Global,
        sites: &[BindingId],
        known: &mut Known,
        order: &mut Vec<BindingId>,
    ) -> Result<(), AllocError>
        requires lower { PartsAreLower (rules_in self.now) }
        requires below { AllBelow (numbers_of sites.now) (length self.now.sites) }
        requires size { length known.old.emitted ≡ length self.now.sites }
        ensures each { IfOk result (λ _. EmitsEach (rules_in self.now) (scope_of self.now known.old) (numbers_of sites.now)
            (numbers_of order.old.items) (numbers_of order.new.items) (scope_of self.now known.new)) }
        ensures known { IfOk result (λ _. IsSameKnown known.old known.new) }
    {
        for site in sites {
            self.emit(alloc, *site, known, order)?;
        }
        Ok(())
    }

    /// An impure call's site, before it the option that it is the content of.
    fn push_call(&self, site: BindingId, all: &mut Vec<BindingId>) -> Result<(), AllocError>
        ensures { IfOk result (λ _. numbers_of all.new.items ≡ numbers_of all.old.items ++ call_at self.now.sites site) }
    {
        if let Some(option) = self.option_of(site) {
            all.push(option)?;
        }
        all.push(site)?;
        Ok(())
    }

    /// The impure calls of a rule with their contents, and its result.
    fn rights(&self, alloc: Global, rule: &Rule) -> Result<Vec<BindingId>, AllocError>
        ensures { IfOk result (λ v. numbers_of v.items ≡ rights_in self.now.sites rule.now) }
    {
        let mut all = Vec::new(alloc);
        for site in rule.impure.as_slice() {
            self.push_call(*site, &mut all)?;
        }
        all.push(rule.result)?;
        Ok(all)
    }

    /// The order in which a rule's right side is bound.
    pub(crate) fn return_order(
        &self,
        alloc: Global,
        rule: &Rule,
        known: &mut Known,
    ) -> Result<Vec<BindingId>, AllocError>
        requires lower { PartsAreLower (rules_in self.now) }
        requires below { AllBelow (rights_in self.now.sites rule.now) (length self.now.sites) }
        requires size { length known.old.emitted ≡ length self.now.sites }
        ensures each { IfOk result (λ v. BindsEach (rules_in self.now) (scope_of self.now known.old) (rights_in self.now.sites rule.now)
            (numbers_of v.items) (scope_of self.now known.new)) }
        ensures known { IfOk result (λ _. IsSameKnown known.old known.new) }
    {
        let rights = self.rights(alloc, rule)?;
        let mut order = Vec::new(alloc);
        self.emit_rights(alloc, &rights, known, &mut order)?;
        Ok(order)
    }

    /// Whether the want that a rule has of the source makes the site.
    fn makes(&self, index: &Index, source: BindingId, rule: usize, site: BindingId) -> bool
        requires index { IsIndexOf self.now (length self.now.sites) index.now }
        requires site { site.0 < length self.now.sites }
        ensures { (w : Want Constraint) → (rules_in self.now).at rule source.0 ≡ Some w
            → result ≡ is_source (rules_in self.now).tests source.0 w ((rules_in self.now).made site.0) }
    {
        let Some(own) = self.source(site) else {
            return false;
        };
        let Some(opener) = index.opener(site) else {
            return false;
        };
        own == source && self.same_want(opener, rule, source)
    }

    /// Binds a site where the want makes it.
    fn bind_made(
        &self,
        index: &Index,
        known: &mut Known,
        source: BindingId,
        rule: usize,
        site: BindingId,
    ) -> Result<(), AllocError>
        requires index { IsIndexOf self.now (length self.now.sites) index.now }
        requires site { site.0 < length self.now.sites }
        requires size { length known.old.emitted ≡ length self.now.sites }
        ensures scope { IfOk result (λ _. (w : Want Constraint) → (rules_in self.now).at rule source.0 ≡ Some w
            → scope_of self.now known.new ≡ with_made (rules_in self.now) source.0 w (scope_of self.now known.old) site.0) }
        ensures known { IfOk result (λ _. IsSameKnown known.old known.new) }
    {
        if self.makes(index, source, rule, site) {
            known.set_emitted(site)?;
        }
        Ok(())
    }

    /// Goes into the arm of a rule's want: it is met, and what it makes is bound.
    pub(crate) fn enter(
        &self,
        index: &Index,
        known: &mut Known,
        site: BindingId,
        rule: usize,
    ) -> Result<(), AllocError>
        requires index { IsIndexOf self.now (length self.now.sites) index.now }
        requires fit { IsFit self.now (length self.now.sites) known.old }
        requires site { site.0 < length self.now.sites }
        requires wants { (w : Want Constraint) × ((rules_in self.now).at rule site.0 ≡ Some w) }
        ensures scope { IfOk result (λ _. (w : Want Constraint) → (rules_in self.now).at rule site.0 ≡ Some w
            → scope_of self.now known.new ≡ inside (rules_in self.now) (scope_of self.now known.old) site.0 w) }
        ensures fit { IfOk result (λ _. IsFit self.now (length self.now.sites) known.new) }
    {
        known.pass(site, rule)?;
        for made in index.made_from(site) {
            self.bind_made(index, known, site, rule, *made)?;
        }
        Ok(())
    }

    /// The site, where a rule's want of the source makes it.
    fn keep_made(
        &self,
        index: &Index,
        source: BindingId,
        rule: usize,
        found: Option<BindingId>,
    ) -> Option<BindingId>
        requires index { IsIndexOf self.now (length self.now.sites) index.now }
        requires found { (x : BindingId) → found ≡ Some x → x.0 < length self.now.sites }
        ensures { (w : Want Constraint) → (rules_in self.now).at rule source.0 ≡ Some w
            → option_map (λ id. id.0) result ≡ keep (λ x. is_source (rules_in self.now).tests source.0 w ((rules_in self.now).made x))
            (option_map (λ id. id.0) found) }
    {
        match found {
            Some(site) => if self.makes(index, source, rule, site) {
                Some(site)
            } else {
                None
            },
            None => None,
        }
    }

    /// The sites of the fields that a rule's test of a site makes, where they are sites.
    pub(crate) fn fields(
        &self,
        alloc: Global,
        index: &Index,
        site: BindingId,
        rule: usize,
        test: Constraint,
    ) -> Result<Vec<Option<BindingId>>, AllocError>
        requires index { IsIndexOf self.now (length self.now.sites) index.now }
        requires wants { (rules_in self.now).at rule site.0 ≡ Some (has test) }
        ensures { IfOk result (λ v. options_shown v.items ≡ (rules_in self.now).fields site.0 test) }
    {
        let _count = self.site_count();
        let bindings = test.bindings_for(alloc, site)?;
        let mut all = Vec::new(alloc);
        for binding in bindings.as_slice() {
            let found = self.find_binding(binding);
            all.push(self.keep_made(index, site, rule, found))?;
        }
        Ok(all)
    }

    /// The site of a multi call's value.
    pub(crate) fn value(&self, site: BindingId) -> BindingId
        requires made { (x : ℕ) × ((rules_in self.now).value site.0 ≡ Some x) }
        ensures { (rules_in self.now).value site.0 ≡ Some result.0 }
    {
        let _count = self.site_count();
        match self.find_binding(&Binding::Iterator { source: site }) {
            Some(value) => value,
            None => BindingId(0),
        }
    }
}
