//! The rule sets of all terms.
ghost use Rattle.std.specs.Prelude.{◌≡◌, ◌≤◌, ◌<◌, ◌↔◌, ◌++◌, [], ◌∷◌, ℕ, List, All, Vec, IfOk, IfErr, Some, true, length, slice_get, slice_set};
ghost use Rattle.std.specs.List.{AllZip};
ghost use Rattle.std.specs.Global.{Global};
ghost use Rattle.isle_ast.specs.Errors.{IfFault};
ghost use Rattle.isle_rules.specs.TypedRules.{TypedRule};
ghost use Rattle.isle_meaning.specs.Facts.{TermFacts};
ghost use Rattle.isle_blocks.specs.Inside.Building.Contents.{Marked};
ghost use Rattle.isle_blocks.specs.Tables.{IsTable};
ghost use Rattle.isle_blocks.specs.DefinedSets.{AreDefined, facts_by, rules_by, ListsNumbers, AreSetsOf};
ghost use Rattle.isle_blocks.specs.Inside.GatheredSets.{AreSetsBelow, AreRulesUpTo, GathersRules, IsOfTerm, MarksThose, AreLost, IsLostBelow};
ghost use Rattle.isle_blocks.specs.RuleFaults.{AreWithinSize, IsUnreachableAt, IsOneSizeFault, TellUnreachable, size_error_at, unreachable_error};
ghost use Rattle.isle_blocks.specs.RuleSets.{no_rules};

use crate::rule_set::RuleSet;
use crate::sites::SiteFault;
use isle_ast::error::{Error, Span};
use isle_ast::pos::Pos;
use isle_ast::{Refusal, Text};
use isle_rules::{Rule, TermEnv};
use isle_types::TermId;
use std::alloc::{AllocError, Global};

/// The rule sets of all terms with rules, ascending by the term, and the errors of rules that can't match.
#[derive(Drop)]
pub struct TermSets {
    pub sets: Vec<(TermId, RuleSet)>,
    pub unreachable: Vec<Error>,
}

/// The rule sets of an environment of terms. Rules with more than 65,536 sites are one size error alone, at the first rule, term
/// by term, that doesn't fit alone or beside its term's rules before it.
pub fn build(alloc: Global, termenv: &TermEnv) -> Result<TermSets, Refusal<Vec<Error>>>
    requires defined { AreDefined termenv.now }
    ensures sets { IfOk result (λ made. (d : AreDefined termenv.now) → AreSetsOf termenv.now d made.sets.items) }
    ensures unreachable { IfOk result (λ made. (d : AreDefined termenv.now)
        → TellUnreachable (facts_by termenv.now d) (rules_by termenv.now d) made.unreachable.items) }
    ensures within { IfOk result (λ _. (d : AreDefined termenv.now) (term : ℕ)
        → AreWithinSize (facts_by termenv.now d) (rules_by termenv.now d) term) }
    ensures full { IfErr result (λ r. IfFault r (λ errors. (d : AreDefined termenv.now)
        → IsOneSizeFault (facts_by termenv.now d) (rules_by termenv.now d) errors.items)) }
{
    let places = places_by_term(alloc, termenv.terms().len(), termenv.rules())?;
    let mut lost = vec![in alloc; false; termenv.rules().len()]?;
    let sets = rule_sets(alloc, termenv, places.as_slice(), &mut lost)?;
    let unreachable = unreachable_errors(alloc, termenv.rules(), lost.as_slice())?;
    Ok(TermSets { sets, unreachable })
}

/// For each term, by its number, the places of its rules, ascending.
fn places_by_term(
    alloc: Global,
    terms: usize,
    rules: &[Rule],
) -> Result<Vec<Vec<usize>>, AllocError>
    requires rooted { All (λ rule. rule.root_term.0 < terms) rules.now }
    ensures fits { IfOk result (λ places. length places.items ≡ terms) }
    ensures places { IfOk result (λ places. (term : ℕ) (own : Vec ℕ Global) → slice_get places.items term ≡ Some own
        → ListsNumbers (IsOfTerm rules.now term) own.items) }
{
    let mut places = no_places(alloc, terms)?;
    for place in 0..rules.len() {
        let term = rules[place].root_term.index();
        places[term].push(place)?;
    }
    Ok(places)
}

/// So many empty lists.
fn no_places(alloc: Global, count: usize) -> Result<Vec<Vec<usize>>, AllocError>
    ensures fits { IfOk result (λ places. length places.items ≡ count) }
    ensures empty { IfOk result (λ places. All (λ own. own.items ≡ []) places.items) }
{
    let mut places = Vec::new(alloc);
    for _ in 0..count {
        places.push(Vec::new(alloc))?;
    }
    Ok(places)
}

/// The rule sets of the terms that have rules at places; the rules that can't match are marked.
fn rule_sets(
    alloc: Global,
    termenv: &TermEnv,
    places: &[Vec<usize>],
    lost: &mut Vec<bool>,
) -> Result<Vec<(TermId, RuleSet)>, Refusal<Vec<Error>>>
    requires defined { AreDefined termenv.now }
    requires fits { length places.now ≡ length termenv.now.terms }
    requires listed { (term : ℕ) (own : Vec ℕ Global) → slice_get places.now term ≡ Some own
        → ListsNumbers (IsOfTerm termenv.now.rules term) own.items }
    requires lost_fits { length lost.old.items ≡ length termenv.now.rules }
    ensures sets { IfOk result (λ sets. (d : AreDefined termenv.now) → AreSetsBelow termenv.now d (length places.now) sets.items) }
    ensures lost { IfOk result (λ _. (d : AreDefined termenv.now)
        → MarksThose (IsLostBelow termenv.now d (length places.now)) lost.old.items lost.new.items) }
    ensures within { IfOk result (λ _. (d : AreDefined termenv.now) (term : ℕ) → term < length places.now
        → AreWithinSize (facts_by termenv.now d) (rules_by termenv.now d) term) }
    ensures full { IfErr result (λ r. IfFault r (λ errors. (d : AreDefined termenv.now)
        → IsOneSizeFault (facts_by termenv.now d) (rules_by termenv.now d) errors.items)) }
{
    let mut sets = Vec::new(alloc);
    for term in 0..places.len() {
        let own = places[term].as_slice();
        if own.is_empty() {
            continue;
        }
        let set = rule_set_of(alloc, termenv, own, lost)?;
        sets.push((TermId(term), set))?;
    }
    Ok(sets)
}

/// The rule set of the rules at places; those that can't match are marked.
fn rule_set_of(
    alloc: Global,
    termenv: &TermEnv,
    places: &[usize],
    lost: &mut Vec<bool>,
) -> Result<RuleSet, Refusal<Vec<Error>>>
    requires defined { AreDefined termenv.now }
    requires within { All (λ place. place < length termenv.now.rules) places.now }
    requires lost_fits { length lost.old.items ≡ length termenv.now.rules }
    ensures gathered { IfOk result (λ set. (d : AreDefined termenv.now) → GathersRules termenv.now d places.now set) }
    ensures table { IfOk result (λ set. IsTable set.sites) }
    ensures few { IfOk result (λ set. length set.sites ≤ 65536) }
    ensures lost { IfOk result (λ _. (d : AreDefined termenv.now)
        → MarksThose (AreLost termenv.now d places.now) lost.old.items lost.new.items) }
    ensures full { IfErr result (λ r. IfFault r (λ errors. (d : AreDefined termenv.now) (term : ℕ)
        → ListsNumbers (IsOfTerm termenv.now.rules term) places.now
        → ((lesser : ℕ) → lesser < term → AreWithinSize (facts_by termenv.now d) (rules_by termenv.now d) lesser)
        → IsOneSizeFault (facts_by termenv.now d) (rules_by termenv.now d) errors.items)) }
{
    let mut set = RuleSet::new(alloc);
    for place in places {
        add_at(alloc, termenv, *place, &mut set, lost)?;
    }
    Ok(set)
}

/// Adds the rule at a place to its term's rule set, or marks it where it can't match.
fn add_at(
    alloc: Global,
    termenv: &TermEnv,
    place: usize,
    set: &mut RuleSet,
    lost: &mut Vec<bool>,
) -> Result<(), Refusal<Vec<Error>>>
    requires defined { AreDefined termenv.now }
    requires within { place < length termenv.now.rules }
    requires lost_fits { length lost.old.items ≡ length termenv.now.rules }
    requires table { IsTable set.old.sites }
    requires fits { length set.old.sites ≤ 65536 }
    ensures gathered { IfOk result (λ _. (d : AreDefined termenv.now) (before : List ℕ) → GathersRules termenv.now d before set.old
        → GathersRules termenv.now d (before ++ place ∷ []) set.new) }
    ensures kept { IfOk result (λ _. IsTable set.new.sites) }
    ensures few { IfOk result (λ _. length set.new.sites ≤ 65536) }
    ensures lost { IfOk result (λ _. (d : AreDefined termenv.now)
        → MarksThose (AreLost termenv.now d (place ∷ [])) lost.old.items lost.new.items) }
    ensures full { IfErr result (λ r. IfFault r (λ errors. (d : AreDefined termenv.now) (before : List ℕ) (term : ℕ)
        → GathersRules termenv.now d before set.old → AreRulesUpTo termenv.now.rules term before place
        → ((lesser : ℕ) → lesser < term → AreWithinSize (facts_by termenv.now d) (rules_by termenv.now d) lesser)
        → IsOneSizeFault (facts_by termenv.now d) (rules_by termenv.now d) errors.items)) }
{
    let rule = &termenv.rules()[place];
    let partial = is_partial(termenv, rule.root_term);
    let added = match set.add(alloc, termenv, rule, partial) {
        Ok(added) => added,
        Err(fault) => return Err(site_error(alloc, rule.pos, fault)),
    };
    if !added {
        set_mark(lost, place);
    }
    Ok(())
}

/// Marks a place.
fn set_mark(marks: &mut Vec<bool>, place: usize)
    requires { place < length marks.old.items }
    ensures { marks.new.items ≡ slice_set marks.old.items place true }
{
    marks[place] = true;
}

/// Whether a term may answer nothing.
fn is_partial(termenv: &TermEnv, term: TermId) -> bool
    ensures { (d : AreDefined termenv.now) → term.0 < length termenv.now.terms → result ≡ (facts_by termenv.now d).partial term.0 }
{
    match termenv.get_term(term) {
        Some(term) => term.is_partial(),
        None => false,
    }
}

/// Why a rule can't be added.
fn site_error(alloc: Global, pos: Pos, fault: SiteFault) -> Refusal<Vec<Error>>
    ensures { IfFault result (λ errors. (fault ≡ SiteFault.Size) × (errors.items ≡ size_error_at pos ∷ [])) }
{
    match fault {
        SiteFault::Size => size_error(alloc, pos),
        SiteFault::Memory => Refusal::Memory(AllocError),
    }
}

/// The size error at a rule, alone.
fn size_error(alloc: Global, pos: Pos) -> Refusal<Vec<Error>>
    ensures { IfFault result (λ errors. errors.items ≡ size_error_at pos ∷ []) }
{
    let mut errors = Vec::new(alloc);
    match push_size_error(alloc, pos, &mut errors) {
        Ok(()) => Refusal::Fault(errors),
        Err(e) => Refusal::Memory(e),
    }
}

/// Adds the size error at a rule.
fn push_size_error(alloc: Global, pos: Pos, errors: &mut Vec<Error>) -> Result<(), AllocError>
    ensures { IfOk result (λ _. errors.new.items ≡ errors.old.items ++ size_error_at pos ∷ []) }
{
    let msg = Text::from_str(alloc, "the rules of this term have too many sites")?;
    errors.push(Error::SizeError {
        msg,
        span: Span::at(pos),
    })?;
    Ok(())
}

/// The errors of the marked rules, in order.
fn unreachable_errors(
    alloc: Global,
    rules: &[Rule],
    lost: &[bool],
) -> Result<Vec<Error>, AllocError>
    requires { length lost.now ≡ length rules.now }
    ensures { IfOk result (λ errors. (facts : TermFacts) (typed : List TypedRule) → AllZip (λ made rule. rule.pos ≡ made.pos) typed rules.now
        → ((i : ℕ) → Marked lost.now i ↔ IsUnreachableAt facts typed i) → TellUnreachable facts typed errors.items) }
{
    let mut errors = Vec::new(alloc);
    for place in 0..rules.len() {
        if lost[place] {
            errors.push(unreachable_at(alloc, rules[place].pos)?)?;
        }
    }
    Ok(errors)
}

/// The error of a rule that can't match.
fn unreachable_at(alloc: Global, pos: Pos) -> Result<Error, AllocError>
    ensures { IfOk result (λ error. error ≡ unreachable_error pos) }
{
    Ok(Error::UnreachableError {
        msg: Text::from_str(alloc, "no values meet all that this rule demands")?,
        span: Span::at(pos),
    })
}
