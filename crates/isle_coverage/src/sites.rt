//! What is known of the tests of the sites of a rule set.
ghost use Rattle.std.specs.Prelude.{◌≡◌, ◌⊎◌, [], true, List, All, Contains, IfOk, IfSome, IsTrue, OnOk, None, Option, Some, slice_get};
ghost use Rattle.isle_types.specs.declared.ids.TypeId.{TypeId as TypeNumber};
ghost use Rattle.isle_blocks.specs.declared.constraint.Constraint.{Constraint as KnownTest};
ghost use Rattle.isle_blocks.specs.declared.rule.Rule.{Rule as KnownRule};
ghost use Rattle.isle_coverage.specs.Inside.Sites.{AreKnown, AreNumbers, AreNoted, AreOfType, AreSingles};
ghost use Rattle.isle_coverage.specs.Inside.Types.{IsKnownOf, IsSiteOf, IsTypeTests};
ghost use Rattle.isle_coverage.specs.Inside.Tests.{is_single_test as has_one_value};
ghost use Rattle.std.specs.List.{AllZip};
ghost use Rattle.isle_coverage.specs.Inside.Tables.{KeepsNumbers};

use crate::complete::complete_tests;
use crate::table::{TestTable, is_single_test, typed_test};
use isle_blocks::{Constraint, Rule, RuleSet};
use isle_missing::{Demand, Row, SiteTests, TestId};
use isle_program::Program;
use isle_types::TypeId;
use std::alloc::{AllocError, Global};

/// Nothing, so many times.
fn nothing_noted(alloc: Global, count: usize) -> Result<Vec<Option<TypeId>>, AllocError>
    ensures { IfOk result (λ noted. All (λ (at : Option TypeNumber). at ≡ None) noted.items) }
{
    let mut noted = Vec::with_capacity(alloc, count)?;
    for _ in 0..count {
        noted.push(None)?;
    }
    Ok(noted)
}

/// Notes the type of each site that a rule tests, where the test says so.
fn note_types(noted: &mut Vec<Option<TypeId>>, rule: &Rule)
    ensures { (rules : List KnownRule) → Contains rules rule.now → AreNoted rules noted.old.items → AreNoted rules noted.new.items }
{
    for place in 0..rule.constraints.len() {
        let (site, test) = rule.constraints.entry(place).unwrap();
        if site.index() < noted.len() {
            if let Some(ty) = typed_test(*test) {
                noted[site.index()] = Some(ty);
            }
        }
    }
}

/// The type of each site that a rule tests, where a test says so.
fn noted_types(alloc: Global, set: &RuleSet) -> Result<Vec<Option<TypeId>>, AllocError>
    ensures { IfOk result (λ noted. AreNoted set.now.rules noted.items) }
{
    let mut noted = nothing_noted(alloc, set.bindings().len())?;
    for rule in set.rules() {
        note_types(&mut noted, rule);
    }
    Ok(noted)
}

/// The numbers of tests, which they are given if they have none.
fn numbers_of(
    alloc: Global,
    table: &mut TestTable,
    tests: &[Constraint],
) -> Result<Vec<TestId>, AllocError>
    ensures numbers { IfOk result (λ numbers. AreNumbers table.new tests.now numbers.items) }
    ensures kept { OnOk result (KeepsNumbers table.old table.new) }
{
    let mut numbers = Vec::new(alloc);
    for test in tests {
        numbers.push(table.number(*test)?)?;
    }
    Ok(numbers)
}

/// A type, and the numbers of tests of which each of its values passes one, where these are few.
#[derive(Drop)]
struct TypeTests {
    ty: TypeId,
    tests: Option<Vec<TestId>>,
}

/// Those of a type.
fn type_tests(
    alloc: Global,
    program: &Program,
    table: &mut TestTable,
    ty: TypeId,
) -> Result<TypeTests, AllocError>
    ensures tests { IfOk result (IsTypeTests program.now table.new) }
    ensures kept { OnOk result (KeepsNumbers table.old table.new) }
{
    let Some(tests) = complete_tests(alloc, program, ty)? else {
        return Ok(TypeTests { ty, tests: None });
    };
    let numbers = numbers_of(alloc, table, tests.as_slice())?;
    Ok(TypeTests {
        ty,
        tests: Some(numbers),
    })
}

/// Those of each type that is noted.
fn tests_of_types(
    alloc: Global,
    program: &Program,
    table: &mut TestTable,
    noted: &[Option<TypeId>],
) -> Result<Vec<TypeTests>, AllocError>
    ensures tests { IfOk result (λ all. All (IsTypeTests program.now table.new) all.items) }
    ensures kept { OnOk result (KeepsNumbers table.old table.new) }
{
    let mut all: Vec<TypeTests> = Vec::new(alloc);
    for at in noted {
        if let Some(ty) = *at {
            if !all.iter().any(|known| known.ty == ty) {
                all.push(type_tests(alloc, program, table, ty)?)?;
            }
        }
    }
    Ok(all)
}

/// A copy of the numbers of tests of which each value of a noted type passes one, where these are known.
fn known_tests(
    alloc: Global,
    all: &[TypeTests],
    noted: Option<TypeId>,
) -> Result<Option<Vec<TestId>>, AllocError>
    ensures { IfOk result (λ found. IfSome found (λ tests. IsKnownOf all.now noted tests.items)) }
{
    let Some(ty) = noted else {
        return Ok(None);
    };
    let Some(known) = all.iter().find(|known| known.ty == ty) else {
        return Ok(None);
    };
    match &known.tests {
        Some(tests) => Ok(Some(tests.as_slice().to_vec(alloc)?)),
        None => Ok(None),
    }
}

/// Whether only one value passes the test of a number.
fn is_single_at(tests: &[Constraint], number: usize) -> bool
    ensures { IsTrue result → (c : KnownTest) × (slice_get tests.now number ≡ Some c) × (has_one_value c ≡ true) }
{
    match tests.get(number) {
        Some(test) => is_single_test(*test),
        None => false,
    }
}

/// The numbers of the tests that only one value passes.
fn singles_of(alloc: Global, table: &TestTable) -> Result<Vec<TestId>, AllocError>
    ensures { IfOk result (λ singles. AreSingles table.now singles.items) }
{
    let mut singles = Vec::new(alloc);
    let tests = table.as_slice();
    for number in 0..tests.len() {
        if is_single_at(tests, number) {
            singles.push(TestId(number))?;
        }
    }
    Ok(singles)
}

/// Marks the sites that a rule compares with others.
fn mark_compared(compared: &mut Vec<bool>, demands: &[Demand]) {
    for demand in demands {
        if let Demand::Same { first, .. } = demand {
            if first.0 < compared.len() {
                compared[first.0] = true;
            }
        }
    }
}

/// Of each site whether a rule compares it with others.
fn compared_sites(alloc: Global, rows: &[Row], count: usize) -> Result<Vec<bool>, AllocError> {
    let mut compared = vec![in alloc; false; count]?;
    for row in rows {
        mark_compared(&mut compared, row.demands());
    }
    Ok(compared)
}

/// Whether a site is marked.
fn is_marked(marks: &[bool], site: usize) -> bool {
    match marks.get(site) {
        Some(mark) => *mark,
        None => false,
    }
}

/// A copy of the tests that only one value passes, of a site that is compared with others.
fn single_tests(
    alloc: Global,
    singles: &[TestId],
    compared: bool,
) -> Result<Vec<TestId>, AllocError>
    ensures { IfOk result (λ own. (own.items ≡ singles.now) ⊎ (own.items ≡ [])) }
{
    if compared {
        Ok(singles.to_vec(alloc)?)
    } else {
        Ok(Vec::new(alloc))
    }
}

/// What is known of the tests of a site.
fn site_tests(
    alloc: Global,
    types: &[TypeTests],
    singles: &[TestId],
    noted: Option<TypeId>,
    compared: bool,
) -> Result<SiteTests, AllocError>
    ensures { IfOk result (IsSiteOf types.now singles.now noted) }
{
    let all = known_tests(alloc, types, noted)?;
    let single = single_tests(alloc, singles, compared)?;
    Ok(SiteTests::new(all, single))
}

/// What is known of the tests of each site, of which these types are noted.
fn sites_by(
    alloc: Global,
    types: &[TypeTests],
    singles: &[TestId],
    noted: &[Option<TypeId>],
    compared: &[bool],
) -> Result<Vec<SiteTests>, AllocError>
    ensures { IfOk result (λ sites. AllZip (IsSiteOf types.now singles.now) noted.now sites.items) }
{
    let mut sites = Vec::with_capacity(alloc, noted.len())?;
    for number in 0..noted.len() {
        let mark = is_marked(compared, number);
        sites.push(site_tests(alloc, types, singles, noted[number], mark)?)?;
    }
    Ok(sites)
}

/// What is known of the tests of each site.
pub(crate) fn sites_of(
    alloc: Global,
    program: &Program,
    set: &RuleSet,
    table: &mut TestTable,
    rows: &[Row],
) -> Result<Vec<SiteTests>, AllocError>
    ensures known { IfOk result (λ sites. AreKnown program.now set.now.rules table.new sites.items) }
    ensures kept { OnOk result (KeepsNumbers table.old table.new) }
{
    let noted = noted_types(alloc, set)?;
    let types = tests_of_types(alloc, program, table, noted.as_slice())?;
    let singles = singles_of(alloc, table)?;
    let compared = compared_sites(alloc, rows, noted.len())?;
    let sites = sites_by(
        alloc,
        types.as_slice(),
        singles.as_slice(),
        noted.as_slice(),
        compared.as_slice(),
    )?;
    Ok(sites)
}
