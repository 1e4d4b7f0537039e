//! For each term the terms whose rules make values by it.
ghost use Rattle.std.specs.Prelude.{◌≡◌, ◌∷◌, [], ℕ, List, IfOk, OnOk, All, length};
ghost use Rattle.isle_types.specs.TypeTables.{TypeTables};
ghost use Rattle.isle_program.specs.Facts.Reach.{terms_made_by};
ghost use Rattle.isle_program.specs.Inside.Facts.Callers.{AreCallers, ListsMore};

use crate::facts::made::push_made;
use isle_rules::{Rule, TermEnv};
use std::alloc::{AllocError, Global};

/// For each term the terms whose rules make values by it.
pub(super) fn callers(alloc: Global, termenv: &TermEnv) -> Result<Vec<Vec<usize>>, AllocError>
    ensures { IfOk result (λ lists. (names : List (List ℕ)) → AreCallers names (length termenv.now.terms) termenv.now.rules lists.items) }
{
    let mut lists = no_lists(alloc, termenv.terms().len())?;
    for rule in termenv.rules() {
        list_caller(alloc, rule, &mut lists)?;
    }
    Ok(lists)
}

/// So many empty lists.
fn no_lists(alloc: Global, count: usize) -> Result<Vec<Vec<usize>>, AllocError>
    ensures fits { IfOk result (λ lists. length lists.items ≡ count) }
    ensures empty { IfOk result (λ lists. All (λ own. own.items ≡ []) lists.items) }
{
    let mut lists = Vec::new(alloc);
    for _ in 0..count {
        lists.push(Vec::new(alloc))?;
    }
    Ok(lists)
}

/// Lists the term of a rule at those by which the rule makes values.
fn list_caller(alloc: Global, rule: &Rule, lists: &mut Vec<Vec<usize>>) -> Result<(), AllocError>
    ensures { OnOk result ((names : List (List ℕ))
        → ListsMore (terms_made_by names rule.now) rule.now.root_term.0 lists.old.items lists.new.items) }
{
    let mut made = Vec::new(alloc);
    push_made(rule, &mut made)?;
    list_at_each(made.as_slice(), rule.root_term.index(), lists)
}

/// Lists a number at places.
fn list_at_each(
    places: &[usize],
    number: usize,
    lists: &mut Vec<Vec<usize>>,
) -> Result<(), AllocError>
    ensures { OnOk result (ListsMore places.now number lists.old.items lists.new.items) }
{
    for i in 0..places.len() {
        list_at(places[i], number, lists)?;
    }
    Ok(())
}

/// Lists a number at a place, if there is a list.
fn list_at(place: usize, number: usize, lists: &mut Vec<Vec<usize>>) -> Result<(), AllocError>
    ensures { OnOk result (ListsMore (place ∷ []) number lists.old.items lists.new.items) }
{
    if place < lists.len() {
        lists[place].push(number)?;
    }
    Ok(())
}
