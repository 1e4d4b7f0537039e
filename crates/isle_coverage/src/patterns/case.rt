//! What is told of calls that no rule matches, and the sites that this is about.
use crate::table::{plain_test, typed_test};
use crate::verdict::Told;
use isle_blocks::{Binding, BindingId, Constraint, RuleSet};
use isle_program::Program;
use isle_types::TypeId;
use std::alloc::{AllocError, Global};

/// What is told of calls that no rule of a term matches.
#[derive(Clone, Copy)]
pub(super) struct Case<'a> {
    pub program: &'a Program,
    /// The rules of the term.
    pub set: &'a RuleSet,
    pub told: &'a [Told],
    /// The sites of which something is told, and what they are made of, ascending.
    pub used: &'a [BindingId],
}

impl<'a> Case<'a> {
    /// The site of a number.
    pub fn binding(&self, site: BindingId) -> Option<&'a Binding> {
        self.set.bindings().get(site.index())
    }

    /// The test that a site is told to pass.
    pub fn passed_test(&self, site: BindingId) -> Option<Constraint> {
        for known in self.told {
            if let Told::Passes { site: own, test } = known {
                if *own == site {
                    return Some(*test);
                }
            }
        }
        None
    }

    /// The tests that a site is told to fail, of numbers and truth values without their types.
    pub fn failed_tests(
        &self,
        alloc: Global,
        site: BindingId,
    ) -> Result<Vec<Constraint>, AllocError> {
        let mut tests = Vec::new(alloc);
        for known in self.told {
            if let Told::Fails { site: own, test } = known {
                if *own == site {
                    tests.push(plain_test(*test))?;
                }
            }
        }
        Ok(tests)
    }

    /// The type of a site, where the rules' tests say so.
    pub fn type_of(&self, site: BindingId) -> Option<TypeId> {
        for rule in self.set.rules() {
            if let Some(test) = rule.get_constraint(site) {
                if let Some(ty) = typed_test(*test) {
                    return Some(ty);
                }
            }
        }
        None
    }

    /// A test of a site, of a number with its type.
    pub fn typed(&self, site: BindingId, test: Constraint) -> Constraint {
        match (test, self.type_of(site)) {
            (Constraint::ConstInt { val, .. }, Some(ty)) => Constraint::ConstInt { val, ty },
            _ => test,
        }
    }
}

/// The text of a site, and `_` where it has none.
pub(super) fn text_at(texts: &[Option<String>], site: BindingId) -> &str {
    match texts.get(site.index()) {
        Some(Some(text)) => text.as_str(),
        _ => "_",
    }
}

/// Gives a site a text.
pub(super) fn put_text(texts: &mut Vec<Option<String>>, site: BindingId, text: String) {
    if let Some(slot) = texts.get_mut(site.index()) {
        *slot = Some(text);
    }
}

/// No text, so many times.
pub(super) fn no_texts(alloc: Global, count: usize) -> Result<Vec<Option<String>>, AllocError> {
    let mut texts = Vec::with_capacity(alloc, count)?;
    for _ in 0..count {
        texts.push(None)?;
    }
    Ok(texts)
}

/// Marks a site.
pub(super) fn mark(marks: &mut Vec<bool>, site: BindingId) {
    if let Some(slot) = marks.get_mut(site.index()) {
        *slot = true;
    }
}

/// Marks sites.
pub(super) fn mark_all(marks: &mut Vec<bool>, sites: &[BindingId]) {
    for site in sites {
        mark(marks, *site);
    }
}

/// Whether a site is marked.
pub(super) fn is_marked(marks: &[bool], site: BindingId) -> bool {
    match marks.get(site.index()) {
        Some(marked) => *marked,
        None => false,
    }
}

/// The sites of which something is told, and what they are made of, ascending.
pub(super) fn used_sites(
    alloc: Global,
    sites: &[Binding],
    told: &[Told],
) -> Result<Vec<BindingId>, AllocError> {
    let marks = marks_of_used(alloc, sites, told)?;
    let mut used = Vec::new(alloc);
    for (number, marked) in marks.as_slice().iter().enumerate() {
        if *marked {
            if let Ok(site) = BindingId::try_from(number) {
                used.push(site)?;
            }
        }
    }
    Ok(used)
}

/// Of each site whether it is one of them. The parts of a site stand before it.
fn marks_of_used(alloc: Global, sites: &[Binding], told: &[Told]) -> Result<Vec<bool>, AllocError> {
    let mut marks = marks_of_told(alloc, sites.len(), told)?;
    for number in (0..sites.len()).rev() {
        if let (Some(true), Some(binding)) = (marks.get(number).copied(), sites.get(number)) {
            mark_all(&mut marks, binding.sources());
        }
    }
    Ok(marks)
}

/// Of each site whether something is told of it.
fn marks_of_told(alloc: Global, count: usize, told: &[Told]) -> Result<Vec<bool>, AllocError> {
    let mut marks = vec![in alloc; false; count]?;
    for known in told {
        match known {
            Told::Passes { site, .. } | Told::Fails { site, .. } => mark(&mut marks, *site),
            Told::Differ { first, second } => {
                mark(&mut marks, *first);
                mark(&mut marks, *second);
            }
        }
    }
    Ok(marks)
}
