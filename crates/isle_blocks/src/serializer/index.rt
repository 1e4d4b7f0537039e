//! What the builder of trees looks up by rule and by site.
ghost use Rattle.isle_blocks.specs.Inside.Trees.Work.{AddsOnly, opener_among};
ghost use Rattle.std.specs.Prelude.{◌≡◌, ◌≤◌, ◌<◌, ◌++◌, ℕ, length, map, IfOk, true, None, [], ◌∷◌, slice_get, slice_index_or};
ghost use Rattle.std.specs.List.{flat_map};
ghost use Rattle.isle_trees.specs.Ranking.{PartsAreLower, AllBelow};
ghost use Rattle.isle_trees.specs.Rules.{Elem};
ghost use Rattle.isle_trees.specs.Search.{ArePartsFirst, AreMadeBelow, HasUsers, IsAskedBy, IsClean, added_at, is_marked, made_more};
ghost use Rattle.isle_blocks.specs.Rows.{numbers_of};
ghost use Rattle.isle_blocks.specs.Inside.Trees.Builder.{AreClasses, AreMembers, AreOpeners, IsIndexOf, IsRising, IsSerializable, asked_at, classes_at, dependents_at};
ghost use Rattle.isle_blocks.specs.Inside.Trees.Builder.{items_at, made_at, opener_at, opens_at, rules_in, source_in, tested_in, users_at};
ghost use Rattle.isle_blocks.specs.Inside.Trees.Marking.{AreDependents, ListsAt};
ghost use Rattle.isle_blocks.specs.Trees.View.{read_or};

use crate::ids::BindingId;
use crate::rule::Rule;
use crate::rule_set::RuleSet;
use crate::serializer::binding::gather;
use crate::serializer::known::no_marks;
use crate::serializer::table::Table;
use isle_ast::Seq;
use std::alloc::{AllocError, Global};

/// What is looked up by rule and by site.
#[derive(Drop)]
pub(crate) struct Index {
    /// For each rule its sets of equal sites.
    pub(crate) classes: Vec<Vec<Seq<BindingId>>>,
    /// For each rule the sites that its tests ask, with all their parts, parts first.
    pub(crate) asked: Vec<Vec<BindingId>>,
    /// For each site those sites that some rule's tests ask and that have it among their parts.
    pub(crate) dependents: Vec<Vec<BindingId>>,
    /// For each site the sites that its tests make, ascending.
    pub(crate) made: Vec<Vec<BindingId>>,
    /// For each site the rules whose tests have it, ascending.
    pub(crate) users: Vec<Vec<usize>>,
    /// For each site the first rule whose want makes it.
    pub(crate) openers: Vec<Option<usize>>,
}

impl Index {
    pub(crate) fn new(alloc: Global, set: &RuleSet) -> Result<Index, AllocError>
        requires set { IsSerializable set.now }
        requires few { length set.now.sites ≤ 65536 }
        ensures { IfOk result (λ index. IsIndexOf set.now (length set.now.sites) index) }
    {
        let classes = set.class_lists(alloc)?;
        let asked = set.asked_lists(alloc, &classes)?;
        let dependents = set.dependent_lists(alloc, &asked)?;
        let made = set.made_lists(alloc)?;
        let users = set.user_lists(alloc, &classes)?;
        let openers = set.openers(alloc, &users)?;
        Ok(Index {
            classes,
            asked,
            dependents,
            made,
            users,
            openers,
        })
    }

    pub(crate) fn classes(&self, rule: usize) -> &[Seq<BindingId>]
        ensures { result.now ≡ classes_at self.now rule }
    {
        match self.classes.get(rule) {
            Some(classes) => classes,
            None => &[],
        }
    }

    pub(crate) fn asked(&self, rule: usize) -> &[BindingId]
        ensures { numbers_of result.now ≡ asked_at self.now rule }
    {
        match self.asked.get(rule) {
            Some(sites) => sites,
            None => &[],
        }
    }

    pub(crate) fn dependents(&self, site: BindingId) -> &[BindingId]
        ensures { numbers_of result.now ≡ dependents_at self.now site.0 }
    {
        match self.dependents.get(site.index()) {
            Some(sites) => sites,
            None => &[],
        }
    }

    pub(crate) fn made_from(&self, site: BindingId) -> &[BindingId]
        ensures { numbers_of result.now ≡ made_at self.now site.0 }
    {
        match self.made.get(site.index()) {
            Some(sites) => sites,
            None => &[],
        }
    }

    pub(crate) fn users(&self, site: BindingId) -> &[usize]
        ensures { result.now ≡ users_at self.now site.0 }
    {
        match self.users.get(site.index()) {
            Some(rules) => rules,
            None => &[],
        }
    }

    pub(crate) fn opener(&self, site: BindingId) -> Option<usize>
        ensures { result ≡ opener_at self.now site.0 }
    {
        match self.openers.get(site.index()) {
            Some(rule) => *rule,
            None => None,
        }
    }
}

/// The sites of a rule's tests.
fn tested(
    alloc: Global,
    rule: &Rule,
    classes: &[Seq<BindingId>],
) -> Result<Vec<BindingId>, AllocError>
    ensures sites { IfOk result (λ v. numbers_of v.items ≡ tested_in rule.now classes.now) }
    ensures low { IfOk result (λ _. AllBelow (flat_map numbers_of classes.now) 65536) }
{
    let mut all = Vec::new(alloc);
    push_keys(rule, &mut all)?;
    all.extend_from_slice(rule.iterators.as_slice())?;
    push_members(classes, &mut all)?;
    Ok(all)
}

/// The sites that have tests.
fn push_keys(rule: &Rule, all: &mut Vec<BindingId>) -> Result<(), AllocError>
    ensures { IfOk result (λ _. numbers_of all.new.items ≡ numbers_of all.old.items ++ map (λ e. e.0.0) rule.now.constraints) }
{
    for place in 0..rule.constraints.len() {
        let (site, _) = rule.constraints.entry(place).unwrap();
        all.push(*site)?;
    }
    Ok(())
}

/// The sites of classes. Each has a number of 16 bits.
fn push_members(classes: &[Seq<BindingId>], all: &mut Vec<BindingId>) -> Result<(), AllocError>
    ensures added { IfOk result (λ _. numbers_of all.new.items ≡ numbers_of all.old.items ++ flat_map numbers_of classes.now) }
    ensures low { IfOk result (λ _. AllBelow (flat_map numbers_of classes.now) 65536) }
{
    for class in classes {
        push_sites(class.as_slice(), all)?;
    }
    Ok(())
}

fn push_sites(sites: &[BindingId], all: &mut Vec<BindingId>) -> Result<(), AllocError>
    ensures added { IfOk result (λ _. numbers_of all.new.items ≡ numbers_of all.old.items ++ numbers_of sites.now) }
    ensures low { IfOk result (λ _. AllBelow (numbers_of sites.now) 65536) }
{
    for site in sites {
        push_site(*site, all)?;
    }
    Ok(())
}

fn push_site(site: BindingId, all: &mut Vec<BindingId>) -> Result<(), AllocError>
    ensures added { IfOk result (λ _. all.new.items ≡ all.old.items ++ site ∷ []) }
    ensures low { site.0 < 65536 }
{
    all.push(site)?;
    Ok(())
}

fn classes_of(classes: &[Vec<Seq<BindingId>>], rule: usize) -> &[Seq<BindingId>]
    ensures { result.now ≡ items_at classes.now rule }
{
    match classes.get(rule) {
        Some(classes) => classes,
        None => &[],
    }
}

impl RuleSet {
    /// For each rule its sets of equal sites.
    fn class_lists(&self, alloc: Global) -> Result<Vec<Vec<Seq<BindingId>>>, AllocError>
        requires set { IsSerializable self.now }
        requires few { length self.now.sites ≤ 65536 }
        ensures classes { IfOk result (λ v. (i : ℕ) → AreClasses self.now i (items_at v.items i)) }
        ensures members { IfOk result (λ v. (i : ℕ) → AreMembers self.now i (items_at v.items i)) }
    {
        let mut lists = Vec::new(alloc);
        for rule in self.rules() {
            lists.push(rule.equal_sites(alloc)?)?;
        }
        Ok(lists)
    }

    /// For each rule what its tests ask.
    fn asked_lists(
        &self,
        alloc: Global,
        classes: &[Vec<Seq<BindingId>>],
    ) -> Result<Vec<Vec<BindingId>>, AllocError>
        requires set { IsSerializable self.now }
        requires classes { (i : ℕ) → AreClasses self.now i (items_at classes.now i) }
        requires members { (i : ℕ) → AreMembers self.now i (items_at classes.now i) }
        ensures { IfOk result (λ v. (i : ℕ) → IsAskedBy (rules_in self.now) (length self.now.sites) i (numbers_of (items_at v.items i))) }
    {
        let mut marks = no_marks(alloc, self.site_count())?;
        let mut lists = Vec::new(alloc);
        for rule in 0..self.rules().len() {
            let list = self.asked_by(
                alloc,
                &self.rules()[rule],
                classes_of(classes, rule),
                &mut marks,
            )?;
            lists.push(list)?;
        }
        Ok(lists)
    }

    /// The sites that a rule's tests ask, each after its parts. No mark is left.
    fn asked_by(
        &self,
        alloc: Global,
        rule: &Rule,
        classes: &[Seq<BindingId>],
        marks: &mut Table<bool>,
    ) -> Result<Vec<BindingId>, AllocError>
        requires lower { PartsAreLower (rules_in self.now) }
        requires below { AllBelow (flat_map numbers_of classes.now) 65536 → AllBelow (tested_in rule.now classes.now) (length self.now.sites) }
        requires clean { IsClean (length self.now.sites) marks.old }
        ensures clean { IfOk result (λ _. IsClean (length self.now.sites) marks.new) }
        ensures below { IfOk result (λ v. AllBelow (numbers_of v.items) (length self.now.sites)) }
        ensures first { IfOk result (λ v. ArePartsFirst (rules_in self.now) (numbers_of v.items)) }
        ensures full { IfOk result (λ v. (x : ℕ) → Elem x (tested_in rule.now classes.now) → Elem x (numbers_of v.items)) }
    {
        let sites = tested(alloc, rule, classes)?;
        let list = self.closure(alloc, &sites, marks)?;
        unmark(&list, marks)?;
        Ok(list)
    }

    /// For each site what is made of it and asked by some rule's tests.
    fn dependent_lists(
        &self,
        alloc: Global,
        asked: &[Vec<BindingId>],
    ) -> Result<Vec<Vec<BindingId>>, AllocError>
        requires lower { PartsAreLower (rules_in self.now) }
        requires asked { (i : ℕ) → IsAskedBy (rules_in self.now) (length self.now.sites) i (numbers_of (items_at asked.now i)) }
        ensures { IfOk result (λ v. AreDependents (rules_in self.now) (length self.now.sites) (λ p. numbers_of (items_at v.items p))) }
    {
        let sites = all_of(alloc, asked, self.site_count())?;
        let mut lists = empty_lists(alloc, self.site_count())?;
        for site in &sites {
            self.add_dependent(&mut lists, *site)?;
        }
        Ok(lists)
    }

    /// Adds a site to the lists of its parts.
    fn add_dependent(
        &self,
        lists: &mut Vec<Vec<BindingId>>,
        site: BindingId,
    ) -> Result<(), AllocError>
        requires lower { PartsAreLower (rules_in self.now) }
        requires site { site.0 < length lists.old.items }
        ensures size { IfOk result (λ _. length lists.new.items ≡ length lists.old.items) }
        ensures lists { IfOk result (λ _. ListsAt site.0 ((rules_in self.now).parts site.0)
            (λ p. numbers_of (items_at lists.old.items p)) (λ p. numbers_of (items_at lists.new.items p))) }
    {
        for part in self.parts(site) {
            add_site(lists, *part, site)?;
        }
        Ok(())
    }

    /// For each site what its tests make.
    fn made_lists(&self, alloc: Global) -> Result<Vec<Vec<BindingId>>, AllocError>
        requires lower { PartsAreLower (rules_in self.now) }
        requires few { length self.now.sites ≤ 65536 }
        ensures { IfOk result (λ v. (s : ℕ) → AreMadeBelow (rules_in self.now) (length self.now.sites) s (numbers_of (items_at v.items s))) }
    {
        let mut lists = empty_lists(alloc, self.site_count())?;
        for site in 0..self.site_count() {
            self.add_made(&mut lists, BindingId(site as u16))?;
        }
        Ok(lists)
    }

    /// Adds a site to the list of its source.
    fn add_made(&self, lists: &mut Vec<Vec<BindingId>>, site: BindingId) -> Result<(), AllocError>
        requires lower { PartsAreLower (rules_in self.now) }
        requires site { site.0 < length lists.old.items }
        ensures added { IfOk result (λ _. (s : ℕ) → numbers_of (items_at lists.new.items s)
            ≡ made_more (source_in (slice_get self.now.sites site.0)) (numbers_of (items_at lists.old.items s)) site.0 s) }
        ensures size { length lists.new.items ≡ length lists.old.items }
    {
        match self.source(site) {
            Some(source) => add_site(lists, source, site),
            None => Ok(()),
        }
    }

    /// For each site the rules whose tests have it.
    fn user_lists(
        &self,
        alloc: Global,
        classes: &[Vec<Seq<BindingId>>],
    ) -> Result<Vec<Vec<usize>>, AllocError>
        requires set { IsSerializable self.now }
        requires classes { (i : ℕ) → AreClasses self.now i (items_at classes.now i) }
        requires members { (i : ℕ) → AreMembers self.now i (items_at classes.now i) }
        ensures users { IfOk result (λ v. HasUsers (rules_in self.now) (items_at v.items)) }
        ensures rising { IfOk result (λ v. (s : ℕ) → IsRising (items_at v.items s)) }
    {
        let mut lists = empty_lists(alloc, self.site_count())?;
        for rule in 0..self.rules().len() {
            let sites = tested(alloc, &self.rules()[rule], classes_of(classes, rule))?;
            add_each(&mut lists, &sites, rule)?;
        }
        Ok(lists)
    }

    /// For each site the first rule whose want makes it.
    fn openers(&self, alloc: Global, users: &[Vec<usize>]) -> Result<Vec<Option<usize>>, AllocError>
        requires few { length self.now.sites ≤ 65536 }
        requires users { HasUsers (rules_in self.now) (items_at users.now) }
        requires rising { (s : ℕ) → IsRising (items_at users.now s) }
        ensures { IfOk result (λ v. AreOpeners self.now (length self.now.sites) (λ x. slice_index_or v.items x None)) }
    {
        let mut openers = Vec::new(alloc);
        for site in 0..self.site_count() {
            openers.push(self.opener(users, BindingId(site as u16)))?;
        }
        Ok(openers)
    }

    fn opener(&self, users: &[Vec<usize>], site: BindingId) -> Option<usize>
        ensures { result ≡ opener_among self.now (read_or [] (items_at users.now) (source_in (slice_get self.now.sites site.0))) site.0 }
    {
        match self.source(site) {
            Some(source) => match users.get(source.index()) {
                Some(rules) => self.first_opener(rules, site),
                None => None,
            },
            None => None,
        }
    }

    /// The first of the rules whose want of the source makes the site.
    fn first_opener(&self, rules: &[usize], site: BindingId) -> Option<usize>
        ensures { result ≡ opener_among self.now rules.now site.0 }
    {
        for rule in rules {
            if self.opens(*rule, site) {
                return Some(*rule);
            }
        }
        None
    }
}

fn empty_lists<T: Drop>(alloc: Global, count: usize) -> Result<Vec<Vec<T>>, AllocError>
    ensures empty { IfOk result (λ v. (s : ℕ) → items_at v.items s ≡ []) }
    ensures size { IfOk result (λ v. length v.items ≡ count) }
{
    let mut lists = Vec::new(alloc);
    'lists: while lists.len() < count {
        lists.push(Vec::new(alloc))?;
    }
    Ok(lists)
}

fn add_site(
    lists: &mut Vec<Vec<BindingId>>,
    at: BindingId,
    site: BindingId,
) -> Result<(), AllocError>
    requires { at.0 < length lists.old.items }
    ensures added { IfOk result (λ _. (s : ℕ) → numbers_of (items_at lists.new.items s)
        ≡ added_at (numbers_of (items_at lists.old.items s)) at.0 site.0 s) }
    ensures size { length lists.new.items ≡ length lists.old.items }
{
    lists[at.index()].push(site)?;
    Ok(())
}

fn add_rule(lists: &mut Vec<Vec<usize>>, at: BindingId, rule: usize) -> Result<(), AllocError>
    requires { at.0 < length lists.old.items }
    ensures added { IfOk result (λ _. (s : ℕ) → items_at lists.new.items s ≡ added_at (items_at lists.old.items s) at.0 rule s) }
    ensures size { length lists.new.items ≡ length lists.old.items }
{
    lists[at.index()].push(rule)?;
    Ok(())
}

/// The sites of some lists, each once.
fn all_of(
    alloc: Global,
    lists: &[Vec<BindingId>],
    count: usize,
) -> Result<Vec<BindingId>, AllocError>
    requires { (i : ℕ) → AllBelow (numbers_of (items_at lists.now i)) count }
    ensures below { IfOk result (λ v. AllBelow (numbers_of v.items) count) }
    ensures full { IfOk result (λ v. (i x : ℕ) → Elem x (numbers_of (items_at lists.now i)) → Elem x (numbers_of v.items)) }
{
    let mut marks = no_marks(alloc, count)?;
    let mut all = Vec::new(alloc);
    for list in lists {
        gather(list, &mut marks, &mut all)?;
    }
    Ok(all)
}

/// Adds a rule to the lists of sites.
fn add_each(lists: &mut Vec<Vec<usize>>, sites: &[BindingId], rule: usize) -> Result<(), AllocError>
    requires below { AllBelow (numbers_of sites.now) (length lists.old.items) }
    ensures size { IfOk result (λ _. length lists.new.items ≡ length lists.old.items) }
    ensures added { IfOk result (λ _. (s : ℕ) → AddsOnly rule (items_at lists.old.items s) (items_at lists.new.items s)) }
    ensures here { IfOk result (λ _. (s : ℕ) → Elem s (numbers_of sites.now) → Elem rule (items_at lists.new.items s)) }
{
    for site in sites {
        add_rule(lists, *site, rule)?;
    }
    Ok(())
}

fn unmark(sites: &[BindingId], marks: &mut Table<bool>) -> Result<(), AllocError>
    requires below { AllBelow (numbers_of sites.now) (length marks.old) }
    requires marked { (x : ℕ) → is_marked marks.old x ≡ true → Elem x (numbers_of sites.now) }
    ensures { IfOk result (λ _. IsClean (length marks.old) marks.new) }
{
    for site in sites {
        marks.set(site.index(), false)?;
    }
    Ok(())
}
