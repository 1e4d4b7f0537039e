//! The table from the symbols of terms' names to the ids of the terms.
ghost use Rattle.std.specs.Prelude.{◌≡◌, ℕ, List, IfOk};
ghost use Rattle.std.specs.List.{AllZip};
ghost use Rattle.std.specs.Option.{option_map};
ghost use Rattle.isle_types.specs.Names.{AreDistinct, position_of};
ghost use Rattle.isle_types.specs.TypeEnvs.{CountUp};
ghost use Rattle.isle_rules.specs.declared.terms.Term.{Term as TermValue};
ghost use Rattle.isle_rules.specs.Signatures.{Signature};
ghost use Rattle.isle_rules.specs.Definitions.{names_of_terms};
ghost use Rattle.isle_rules.specs.Shown.ShownTerms.{term_at};
ghost use Rattle.isle_terms.specs.Inside.Collecting.DeclaredTerms.{IsShownTerm, number_named};
ghost use Rattle.isle_terms.specs.Inside.Collecting.TermSymbols.{HasSymbolsOf};

use isle_rules::Term;
use isle_types::{StableMap, Sym, TermId};
use std::alloc::{AllocError, Global};

/// The table from the symbols of the names of terms to the numbers of the terms.
pub fn numbers(alloc: Global, terms: &[Term]) -> Result<StableMap<Sym, TermId>, AllocError>
    ensures numbered { (names : List (List ℕ)) (signatures : List Signature) → AllZip (IsShownTerm names) signatures terms.now → AreDistinct names
        → AreDistinct (names_of_terms signatures) → CountUp (λ (term : TermValue). term.id.0) 0 terms.now
        → IfOk result (λ numbers. (name : List ℕ) → number_named names numbers name
        ≡ option_map term_at (position_of (names_of_terms signatures) name)) }
    ensures known { IfOk result (HasSymbolsOf terms.now) }
{
    let mut numbers = StableMap::new(alloc);
    for term in terms {
        numbers.insert(term.name, term.id)?;
    }
    Ok(numbers)
}
