//! The site that tells most pairs of rules apart.
use crate::constraint::Constraint;
use crate::ids::BindingId;
use crate::rule::Rule;
use std::alloc::{AllocError, Global};

/// How many tests of a site were seen, how many of them are like the last, and how many pairs of them differ.
#[derive(Clone, Copy)]
struct Tally {
    seen: usize,
    like: usize,
    apart: usize,
}

/// The site at which most pairs of rules have different tests; the first where no pair has. Which site it is only makes
/// comparisons fewer.
pub(crate) fn parting_site(alloc: Global, rules: &[Rule]) -> Result<BindingId, AllocError> {
    let mut tests = tests_in(alloc, rules)?;
    tests.sort_unstable();
    Ok(most_apart(tests.as_slice()))
}

/// The tests of all rules.
fn tests_in(alloc: Global, rules: &[Rule]) -> Result<Vec<(BindingId, Constraint)>, AllocError> {
    let mut tests = Vec::new(alloc);
    for rule in rules {
        push_tests(rule, &mut tests)?;
    }
    Ok(tests)
}

/// Adds the tests of a rule.
fn push_tests(rule: &Rule, tests: &mut Vec<(BindingId, Constraint)>) -> Result<(), AllocError> {
    for place in 0..rule.constraints.len() {
        if let Some((site, test)) = rule.constraints.entry(place) {
            tests.push((*site, *test))?;
        }
    }
    Ok(())
}

/// The site of which most pairs of tests differ. The tests are sorted.
fn most_apart(tests: &[(BindingId, Constraint)]) -> BindingId {
    let (mut best, mut most) = (BindingId(0), 0);
    let mut last = None;
    let mut tally = Tally {
        seen: 0,
        like: 0,
        apart: 0,
    };
    for test in tests {
        tally = counted(tally, last, *test);
        last = Some(*test);
        if most < tally.apart {
            (best, most) = (test.0, tally.apart);
        }
    }
    best
}

/// One more test counted.
fn counted(
    tally: Tally,
    last: Option<(BindingId, Constraint)>,
    test: (BindingId, Constraint),
) -> Tally {
    match last {
        Some((site, before)) if site == test.0 => {
            let like = if before == test.1 { tally.like } else { 0 };
            Tally {
                seen: tally.seen.saturating_add(1),
                like: like.saturating_add(1),
                apart: tally.apart.saturating_add(tally.seen.saturating_sub(like)),
            }
        }
        _ => Tally {
            seen: 1,
            like: 1,
            apart: 0,
        },
    }
}
