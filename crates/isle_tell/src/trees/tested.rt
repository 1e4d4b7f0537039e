//! The types of sites that tests of variants and structs tell.
ghost use Rattle.std.specs.Prelude.{◌≡◌, None, IfOk, length, replicate};
ghost use Rattle.std.specs.List.{fold};
ghost use Rattle.isle_tell.specs.TreeTexts.DotTypes.{type_asked, types_told, with_rule, with_test};

use isle_blocks::{Binding, BindingId, Constraint, Rule};
use isle_types::{SortedMap, TypeId};
use std::alloc::{AllocError, Global};

/// The types of sites that the tests of rules tell, each at its site's number.
pub(crate) fn types_told(
    alloc: Global,
    sites: &[Binding],
    rules: &[Rule],
) -> Result<Vec<Option<TypeId>>, AllocError>
    ensures { IfOk result (λ types. types.items ≡ types_told sites.now rules.now) }
{
    let mut types = no_types(alloc, sites.len())?;
    for rule in rules {
        add_rule(&rule.constraints, &mut types);
    }
    Ok(types)
}

/// No type of any site.
fn no_types(alloc: Global, count: usize) -> Result<Vec<Option<TypeId>>, AllocError>
    ensures { IfOk result (λ types. types.items ≡ replicate count None) }
{
    let mut types = Vec::new(alloc);
    for _ in 0..count {
        types.push(None)?;
    }
    Ok(types)
}

/// Adds what the tests of a rule tell.
fn add_rule(tests: &SortedMap<BindingId, Constraint>, types: &mut Vec<Option<TypeId>>)
    ensures { types.new.items ≡ fold with_test types.old.items tests.now }
{
    for place in 0..tests.len() {
        let (site, test) = tests.entry(place).unwrap();
        add_test(*site, test, types);
    }
}

/// Adds what a test tells.
fn add_test(site: BindingId, test: &Constraint, types: &mut Vec<Option<TypeId>>)
    ensures { types.new.items ≡ with_test types.old.items (site, test.now) }
{
    let Some(ty) = type_asked(test) else {
        return;
    };
    if site.index() < types.len() {
        types[site.index()] = Some(ty);
    }
}

/// The type whose variant or fields a test asks for.
fn type_asked(test: &Constraint) -> Option<TypeId>
    ensures { result ≡ type_asked test.now }
{
    match test {
        Constraint::Variant { ty, .. } => Some(*ty),
        Constraint::Struct { ty, .. } => Some(*ty),
        Constraint::ConstBool { .. } => None,
        Constraint::ConstInt { .. } => None,
        Constraint::ConstPrim { .. } => None,
        Constraint::Some => None,
    }
}
