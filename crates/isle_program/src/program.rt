//! A compiled program: its types, terms, rules, rule sets and trees, and what it tells of its terms.
ghost use Rattle.std.specs.Prelude.{◌≡◌, ◌<◌, [], ℕ, All, IfOk, OnOk, Some, length, slice_get};
ghost use Rattle.isle_types.specs.TypeTables.{TypeTables};
ghost use Rattle.isle_rules.specs.declared.rules.Rule.{Rule as KnownRule};
ghost use Rattle.isle_program.specs.Plain.LaidOut.Rules.{AreListedInOrder, AreRulesLaidOut, AreByPriority, ListsRule};
ghost use Rattle.isle_program.specs.Facts.Asked.{AreNumbersOf};
ghost use Rattle.isle_program.specs.Inside.SoundTables.{AreSound};
ghost use Rattle.isle_types.specs.declared.ids.TermId.{TermId as TermNumber};
ghost use Rattle.isle_blocks.specs.RuleSets.{RulesOverSites};

use crate::facts::Numbers;
use crate::laid::LaidRule;
use isle_blocks::{Block, RuleSet};
use isle_rules::{ExtractorKind, Rule, TermEnv, TermKind};
use isle_types::{TermId, TypeEnv, TypeId};
use std::alloc::{AllocError, Global};
use std::cmp::Reverse;

/// A compiled list of texts.
#[derive(Drop)]
pub struct Program {
    tyenv: TypeEnv,
    termenv: TermEnv,
    /// The rule sets of the terms with rules, ascending by the term.
    rule_sets: Vec<(TermId, RuleSet)>,
    /// The tree of each rule set.
    trees: Vec<Block>,
    /// For each term the places of its rules, by descending priority, then in the order of the texts.
    rules_of: Vec<Vec<usize>>,
    /// The expressions of each rule laid out.
    laid: Vec<LaidRule>,
    numbers: Numbers,
    ghost numbered: { ∥ AreNumbersOf tyenv termenv rule_sets.items numbers ∥₁ },
    ghost ordered: { ∥ AreListedInOrder termenv.rules rules_of.items ∥₁ },
    ghost laid_out: { ∥ ((types : TypeTables) → AreRulesLaidOut types termenv laid.items) ∥₁ },
    ghost sound: { ∥ AreSound tyenv termenv ∥₁ },
}

impl Program {
    ghost use Rattle.std.specs.Prelude.{◌↔◌, ◌<◌, ℕ, List, All, IfOk, IsTrue, None, MatchOption, false, length, map, slice_get, slice_index_or};
    ghost use Rattle.isle_types.specs.TypeEnvs.{type_of_name};
    ghost use Rattle.isle_program.specs.Facts.Asked.{AreRoots};
    ghost use Rattle.isle_program.specs.Facts.Inhabited.{AreAllInhabited};
    ghost use Rattle.isle_program.specs.Facts.Steps.{steps_in};
    ghost use Rattle.isle_program.specs.Facts.Reach.{IsRunnable};
    ghost use Rattle.isle_program.specs.Programs.{types_of, terms_of, rules_in, rule_sets_of, set_trees_of, program_term, term_name, has_rules, number_of};
    ghost use Rattle.isle_program.specs.Programs.{types_taken};
    ghost use Rattle.isle_program.specs.Meanings.{checked};
    ghost use Rattle.isle_program.specs.Trees.{set_and_tree};
    ghost use Rattle.std.specs.Option.{option_map};
    ghost use Rattle.isle_meaning.specs.PlainRuns.{AreTriedInOrder};
    ghost use Rattle.isle_program.specs.Plain.Laid.{IsLaidRule};
    ghost use Rattle.isle_meaning.specs.Facts.{never_fails};
    ghost use Rattle.isle_rules.specs.Shown.ShownTerms.{form_shown};

    /// Lets a program go, here, so that a crate above has to prove none of what that does to its parts.
    pub fn release(self) {}

    /// The program of typed definitions, of the rule sets of their rules, and of the trees of these.
    pub(crate) fn new(
        alloc: Global,
        tyenv: TypeEnv,
        termenv: TermEnv,
        rule_sets: Vec<(TermId, RuleSet)>,
        trees: Vec<Block>,
    ) -> Result<Program, AllocError>
        requires rooted { All (λ rule. rule.root_term.0 < length termenv.terms) termenv.rules }
        requires within { All (λ (set : TermNumber × RulesOverSites). set.0.0 < length termenv.terms) rule_sets.items }
        requires sound { AreSound tyenv termenv }
        ensures types { IfOk result (λ program. types_of program ≡ tyenv) }
        ensures terms { IfOk result (λ program. terms_of program ≡ termenv) }
        ensures sets { IfOk result (λ program. rule_sets_of program ≡ rule_sets.items) }
        ensures trees { IfOk result (λ program. set_trees_of program ≡ trees.items) }
    {
        let known = Known::new(alloc, &tyenv, &termenv, rule_sets.as_slice())?;
        Ok(Program {
            tyenv,
            termenv,
            rule_sets,
            trees,
            rules_of: known.rules_of,
            laid: known.laid,
            numbers: known.numbers,
        })
    }

    /// The term of a name.
    pub fn term(&self, name: &str) -> Option<TermId>
        ensures { result ≡ program_term self.now name.now }
    {
        self.termenv.term_of_sym(self.tyenv.intern_name(name)?)
    }

    /// The name of a term; empty at an id that the program doesn't have.
    pub fn name(&self, term: TermId) -> &str
        ensures { result.now ≡ term_name self.now term }
    {
        match self.termenv.get_term(term) {
            Some(term) => self.tyenv.sym_name(term.name),
            None => "",
        }
    }

    /// The type of a name.
    pub fn type_named(&self, name: &str) -> Option<TypeId>
        ensures { result ≡ type_of_name (types_of self.now) name.now }
    {
        self.tyenv.type_named(name)
    }

    /// The types of a term's arguments; none at an id that the program doesn't have.
    pub fn arg_types(&self, term: TermId) -> &[TypeId]
        ensures { map number_of result.now ≡ types_taken self.now term }
    {
        match self.termenv.get_term(term) {
            Some(term) => term.arg_tys.as_slice(),
            None => &[],
        }
    }

    /// The terms with rules, each once, ascending.
    pub fn terms_with_rules(&self) -> &[TermId]
        ensures { AreRoots (terms_of self.now) result.now }
    {
        self.numbers.with_rules.as_slice()
    }

    /// How many steps the rules of a term take at most: one for each site that a rule tests or that must be equal to others,
    /// and one for each rule. 0 where the term has no rules.
    pub fn steps_at_most(&self, term: TermId) -> u128
        ensures { result ≡ steps_in (rule_sets_of self.now) term.0 }
    {
        match self.numbers.steps.get(term.index()) {
            Some(steps) => *steps,
            None => 0,
        }
    }

    /// Whether each type has a value.
    pub fn inhabited(&self) -> bool
        ensures { IsTrue result ↔ AreAllInhabited (types_of self.now).types }
    {
        self.numbers.inhabited
    }

    /// Whether a term can be run: it has rules, and neither it nor a term that it reaches is multi, has a rule that takes
    /// values apart by a multi term, or has one that names a constant of an enum or struct.
    pub fn runnable(&self, term: TermId) -> bool
        ensures { IsTrue result ↔ IsRunnable (types_of self.now) (terms_of self.now) term.0 }
    {
        self.has_rules(term) && !self.is_barred(term)
    }

    /// Whether a term can't be run, by itself or for a term that it reaches.
    fn is_barred(&self, term: TermId) -> bool
        ensures { result ≡ slice_index_or self.now.numbers.barred.items term.0 false }
    {
        match self.numbers.barred.get(term.index()) {
            Some(barred) => *barred,
            None => false,
        }
    }

    /// Whether the term is the root of a rule.
    pub fn has_rules(&self, term: TermId) -> bool
        ensures { result ≡ has_rules self.now term }
    {
        !self.rules_of(term).is_empty()
    }

    /// Whether the term may answer nothing.
    pub fn is_partial(&self, term: TermId) -> bool
        ensures { result ≡ (checked self.now).terms.partial term.0 }
    {
        match self.termenv.get_term(term) {
            Some(term) => term.is_partial(),
            None => false,
        }
    }

    /// The places of a term's rules, by descending priority, then in the order of the texts.
    pub fn rules_of(&self, term: TermId) -> &[usize]
        ensures { AreTriedInOrder (checked self.now) term.0 result.now }
    {
        match self.rules_of.get(term.index()) {
            Some(places) => places.as_slice(),
            None => &[],
        }
    }

    /// Whether the term's extractor never fails.
    pub fn never_fails(&self, term: TermId) -> bool
        ensures { result ≡ (checked self.now).terms.infallible term.0 }
    {
        match self.termenv.get_term(term) {
            Some(term) => Program::is_infallible(&term.kind),
            None => false,
        }
    }

    /// Whether a term of a kind has an extractor of the host that never fails.
    fn is_infallible(kind: &TermKind) -> bool
        ensures { (names : List (List ℕ)) → result ≡ never_fails (form_shown names kind.now) }
    {
        match kind {
            TermKind::EnumVariant { .. } | TermKind::Struct => false,
            TermKind::Decl { extractor_kind, .. } => match extractor_kind {
                Some(ExtractorKind::ExternalExtractor { infallible, .. }) => *infallible,
                Some(ExtractorKind::InternalExtractor { .. }) | None => false,
            },
        }
    }

    /// The type of a term.
    pub fn type_of(&self, term: TermId) -> TypeId
        ensures { result.0 ≡ (checked self.now).terms.type_of term.0 }
    {
        match self.termenv.get_term(term) {
            Some(term) => term.ret_ty,
            None => TypeId(0),
        }
    }

    /// The rule of a place, and its expressions laid out.
    pub fn laid_rule(&self, place: usize) -> Option<(&Rule, &LaidRule)>
        ensures { MatchOption result (slice_get (checked self.now).rules place ≡ None) (λ found. IsLaidRule self.now place found.0.now found.1.now) }
    {
        let rule = self.rules().get(place)?;
        let laid = self.laid.get(place)?;
        Some((rule, laid))
    }

    /// The types and the interned names.
    pub fn types(&self) -> &TypeEnv
        ensures { result.now ≡ types_of self.now }
    {
        &self.tyenv
    }

    /// The terms, converters and rules.
    pub fn terms(&self) -> &TermEnv
        ensures { result.now ≡ terms_of self.now }
    {
        &self.termenv
    }

    /// The rule sets of the terms with rules, ascending by the term.
    pub fn rule_sets(&self) -> &[(TermId, RuleSet)]
        ensures { result.now ≡ rule_sets_of self.now }
    {
        self.rule_sets.as_slice()
    }

    /// The trees of the rule sets, in their order.
    pub fn trees(&self) -> &[Block]
        ensures { result.now ≡ set_trees_of self.now }
    {
        self.trees.as_slice()
    }

    /// The rule set of a term and its tree, where the term has rules.
    pub fn tree_of(&self, term: TermId) -> Option<(&RuleSet, &Block)>
        ensures { option_map (λ found. (found.0.now, found.1.now)) result ≡ set_and_tree (rule_sets_of self.now) (set_trees_of self.now) term.0 }
    {
        let place = *self.numbers.places.get(term.index())?;
        let set = self.rule_sets.get(place)?;
        let tree = self.trees.get(place)?;
        Some((&set.1, tree))
    }

    /// The rules, in the order of the texts.
    pub fn rules(&self) -> &[Rule]
        ensures { result.now ≡ rules_in self.now }
    {
        self.termenv.rules()
    }
}

/// What is known of a program's rules before any is tried.
#[derive(Drop)]
struct Known {
    rules_of: Vec<Vec<usize>>,
    laid: Vec<LaidRule>,
    numbers: Numbers,
}

impl Known {
    fn new(
        alloc: Global,
        tyenv: &TypeEnv,
        termenv: &TermEnv,
        rule_sets: &[(TermId, RuleSet)],
    ) -> Result<Known, AllocError>
        requires rooted { All (λ rule. rule.root_term.0 < length termenv.now.terms) termenv.now.rules }
        requires within { All (λ (set : TermNumber × RulesOverSites). set.0.0 < length termenv.now.terms) rule_sets.now }
        ensures listed { IfOk result (λ known. AreListedInOrder termenv.now.rules known.rules_of.items) }
        ensures laid_out { IfOk result (λ known. (types : TypeTables) → AreRulesLaidOut types termenv.now known.laid.items) }
        ensures numbered { IfOk result (λ known. AreNumbersOf tyenv.now termenv.now rule_sets.now known.numbers) }
    {
        let rules_of = rules_by_term(alloc, termenv)?;
        let laid = lay_rules(alloc, termenv)?;
        let numbers = Numbers::new(alloc, tyenv, termenv, rule_sets)?;
        Ok(Known {
            rules_of,
            laid,
            numbers,
        })
    }
}

/// The expressions of each rule laid out.
fn lay_rules(alloc: Global, termenv: &TermEnv) -> Result<Vec<LaidRule>, AllocError>
    ensures { IfOk result (λ laid. (types : TypeTables) → AreRulesLaidOut types termenv.now laid.items) }
{
    let mut laid = Vec::new(alloc);
    for rule in termenv.rules() {
        laid.push(LaidRule::new(alloc, termenv, rule)?)?;
    }
    Ok(laid)
}

/// For each term the places of its rules, by descending priority, then in the order of the texts.
fn rules_by_term(alloc: Global, termenv: &TermEnv) -> Result<Vec<Vec<usize>>, AllocError>
    requires { All (λ rule. rule.root_term.0 < length termenv.now.terms) termenv.now.rules }
    ensures { IfOk result (λ lists. AreListedInOrder termenv.now.rules lists.items) }
{
    let mut lists = empty_lists(alloc, termenv.terms().len())?;
    let places = by_priority(alloc, termenv.rules())?;
    for place in &places {
        list_rule(termenv.rules(), *place, &mut lists)?;
    }
    Ok(lists)
}

/// Lists a rule's place behind those of its term.
fn list_rule(rules: &[Rule], place: usize, lists: &mut Vec<Vec<usize>>) -> Result<(), AllocError>
    ensures { OnOk result (ListsRule rules.now place lists.old.items lists.new.items) }
{
    if let Some(rule) = rules.get(place) {
        let term = rule.root_term.index();
        if term < lists.len() {
            lists[term].push(place)?;
        }
    }
    Ok(())
}

/// The places of rules, by descending priority, then in order.
fn by_priority(alloc: Global, rules: &[Rule]) -> Result<Vec<usize>, AllocError>
    ensures { IfOk result (λ places. AreByPriority rules.now places.items) }
{
    let mut keys = priority_keys(alloc, rules)?;
    keys.sort_unstable();
    let mut places = Vec::with_capacity(alloc, keys.len())?;
    for key in &keys {
        places.push(key.1)?;
    }
    Ok(places)
}

/// The priority of each rule, the greatest first in their order, with the rule's place.
fn priority_keys(alloc: Global, rules: &[Rule]) -> Result<Vec<(Reverse<i64>, usize)>, AllocError>
    ensures fits { IfOk result (λ keys. length keys.items ≡ length rules.now) }
    ensures keys { IfOk result (λ keys. (i : ℕ) (rule : KnownRule) → slice_get rules.now i ≡ Some rule
        → slice_get keys.items i ≡ Some (record { 0 = rule.prio }, i)) }
{
    let mut keys = Vec::with_capacity(alloc, rules.len())?;
    for place in 0..rules.len() {
        keys.push((Reverse(rules[place].prio), place))?;
    }
    Ok(keys)
}

/// So many empty lists.
fn empty_lists(alloc: Global, count: usize) -> Result<Vec<Vec<usize>>, AllocError>
    ensures fits { IfOk result (λ lists. length lists.items ≡ count) }
    ensures empty { IfOk result (λ lists. All (λ list. list.items ≡ []) lists.items) }
{
    let mut lists = Vec::with_capacity(alloc, count)?;
    for _ in 0..count {
        lists.push(Vec::new(alloc))?;
    }
    Ok(lists)
}
