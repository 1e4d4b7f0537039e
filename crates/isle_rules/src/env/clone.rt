//! Copies of environments of terms. Their memory comes from where that of what they copy does.
ghost use Rattle.std.specs.Prelude.{◌≡◌, IfOk};

use crate::env::TermEnv;
use crate::rules::Rule;
use crate::terms::Term;
use isle_types::{RuleId, StableMap, Sym, TermId, TypeId};
use std::alloc::AllocError;

/// The same terms.
fn clone_terms(terms: &Vec<Term>) -> Result<Vec<Term>, AllocError>
    ensures { IfOk result (λ copy. copy.items ≡ terms.now.items) }
{
    terms.clone()
}

/// The same rules.
fn clone_rules(rules: &Vec<Rule>) -> Result<Vec<Rule>, AllocError>
    ensures { IfOk result (λ copy. copy.items ≡ rules.now.items) }
{
    rules.clone()
}

/// The same numbers.
fn clone_numbers(numbers: &Vec<usize>) -> Result<Vec<usize>, AllocError>
    ensures { IfOk result (λ copy. copy.items ≡ numbers.now.items) }
{
    numbers.clone()
}

/// The same table from symbols to terms.
fn clone_term_map(map: &StableMap<Sym, TermId>) -> Result<StableMap<Sym, TermId>, AllocError>
    ensures { IfOk result (λ copy. copy ≡ map.now) }
{
    map.clone()
}

/// The same table from symbols to rules.
fn clone_rule_map(map: &StableMap<Sym, RuleId>) -> Result<StableMap<Sym, RuleId>, AllocError>
    ensures { IfOk result (λ copy. copy ≡ map.now) }
{
    map.clone()
}

/// The same converters.
fn clone_converters(
    map: &StableMap<(TypeId, TypeId), TermId>,
) -> Result<StableMap<(TypeId, TypeId), TermId>, AllocError>
    ensures { IfOk result (λ copy. copy ≡ map.now) }
{
    map.clone()
}

/// An environment with the same tables, refused only out of memory.
impl Clone for TermEnv {
    ghost use Rattle.std.specs.Prelude.{◌≡◌};

    ghost is_clone = { λ x y. y ≡ x };

    fn clone(&self) -> Result<TermEnv, AllocError> {
        Ok(TermEnv {
            alloc: self.alloc,
            terms: clone_terms(&self.terms)?,
            needs: clone_numbers(&self.needs)?,
            term_map: clone_term_map(&self.term_map)?,
            rules: clone_rules(&self.rules)?,
            rule_map: clone_rule_map(&self.rule_map)?,
            converters: clone_converters(&self.converters)?,
            expand_internal_extractors: self.expand_internal_extractors,
        })
    }
}
