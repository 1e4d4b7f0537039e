//! Rules in order, and by their tests of a site.
ghost use Rattle.std.specs.Prelude.{◌≡◌, ◌<◌, ℕ, Some, length, slice_index, sum_by, IfOk};
ghost use Rattle.isle_trees.specs.Rules.{has};
ghost use Rattle.isle_trees.specs.Scopes.{is_want};
ghost use Rattle.isle_trees.specs.Search.{AllWant, AreDistinct, AreGrouped, IsInOrder, IsRun, front};
ghost use Rattle.isle_trees.specs.Rules.{below};
ghost use Rattle.isle_blocks.specs.Inside.Trees.Builder.{IsSerializable, rules_in};

use crate::constraint::Constraint;
use crate::ids::BindingId;
use crate::rule_set::RuleSet;
use std::alloc::{AllocError, Global};

/// The rules of a group that want one test of a site, which end at a place in it.
#[derive(Drop)]
pub(crate) struct Run {
    pub(crate) rules: Vec<usize>,
    pub(crate) end: usize,
}

impl RuleSet {
    /// Rules by descending priority, then by number.
    pub(crate) fn in_order(&self, left: Vec<usize>) -> Result<Vec<usize>, AllocError>
        requires { AreDistinct left.items }
        ensures order { IfOk result (λ v. IsInOrder (rules_in self.now) v.items) }
        ensures same { IfOk result (λ v. (f : ℕ → ℕ) → sum_by f left.items ≡ sum_by f v.items) }
    {
        let mut left = left;
        left.sort_by(|a, b| self.compare(*a, *b))?;
        Ok(left)
    }

    /// Rules by the test that they want of the site, those of one test in order.
    pub(crate) fn by_test(
        &self,
        rules: Vec<usize>,
        site: BindingId,
    ) -> Result<Vec<usize>, AllocError>
        requires set { IsSerializable self.now }
        requires order { IsInOrder (rules_in self.now) rules.items }
        ensures grouped { IfOk result (λ v. AreGrouped (rules_in self.now) site.0 v.items) }
        ensures same { IfOk result (λ v. (f : ℕ → ℕ) → sum_by f rules.items ≡ sum_by f v.items) }
    {
        let mut rules = rules;
        rules.sort_by(|a, b| self.compare_at(site, *a, *b))?;
        Ok(rules)
    }

    /// Whether a rule wants this test of the site.
    fn wants(&self, rule: usize, site: BindingId, test: Constraint) -> bool
        ensures { result ≡ is_want (rules_in self.now).tests (has test) ((rules_in self.now).at rule site.0) }
    {
        match self.test_at(rule, site) {
            Some(wanted) => test == wanted,
            None => false,
        }
    }

    /// The rules at the front that want the test.
    fn front(
        &self,
        alloc: Global,
        rules: &[usize],
        site: BindingId,
        test: Constraint,
    ) -> Result<Vec<usize>, AllocError>
        ensures { IfOk result (λ v. v.items ≡ front (rules_in self.now) site.0 test rules.now) }
    {
        let mut front = Vec::new(alloc);
        for rule in rules {
            if !self.wants(*rule, site, test) {
                return Ok(front);
            }
            front.push(*rule)?;
        }
        Ok(front)
    }

    /// The rules from a place on that want the test of the first.
    pub(crate) fn run(
        &self,
        alloc: Global,
        group: &[usize],
        start: usize,
        site: BindingId,
        test: Constraint,
    ) -> Result<Run, AllocError>
        requires set { IsSerializable self.now }
        requires start { start < length group.now }
        requires grouped { AreGrouped (rules_in self.now) site.0 group.now }
        requires want { AllWant (rules_in self.now) group.now site.0 }
        requires test { (rules_in self.now).at (slice_index group.now start) site.0 ≡ Some (has test) }
        ensures { IfOk result (λ r. IsRun (rules_in self.now) site.0 start group.now test r.rules.items r.end) }
    {
        let rules = self.front(alloc, &group[start..], site, test)?;
        let end = start + rules.len();
        Ok(Run { rules, end })
    }
}

/// The numbers below a count.
pub(crate) fn numbers(alloc: Global, count: usize) -> Result<Vec<usize>, AllocError>
    ensures { IfOk result (λ v. v.items ≡ below count) }
{
    let mut all = Vec::new(alloc);
    for number in 0..count {
        all.push(number)?;
    }
    Ok(all)
}
