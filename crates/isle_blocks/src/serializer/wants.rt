//! What the rules of a set want of sites, by numbers.
ghost use Rattle.isle_blocks.specs.ClosedRules.{same_site};
ghost use Rattle.std.specs.Option.{option_map};
ghost use Rattle.std.specs.List.{list_any};
ghost use Rattle.std.specs.Prelude.{◌≡◌, ℕ, Some, is_some, length, slice_get, IfOk, option_copied, false, None, ◌++◌};
ghost use Rattle.std.specs.Ordering.{is_lt};
ghost use Rattle.isle_trees.specs.Builds.{own};
ghost use Rattle.isle_trees.specs.Scopes.{has_test, counted};
ghost use Rattle.isle_trees.specs.Search.{floor, reaches, picks, top, precedes, same_wants, lesser_want, comes_first, IsInOrder};
ghost use Rattle.isle_blocks.specs.Rows.{numbers_of};
ghost use Rattle.isle_blocks.specs.Inside.Trees.Builder.{rules_in, test_shown, source_in, loops_at, opens_at, opens_site};
ghost use Rattle.isle_blocks.specs.Trees.View.{test_at, is_bound, option_site, is_constructor, read_or};

use crate::binding::Binding;
use crate::constraint::Constraint;
use crate::ids::BindingId;
use crate::rule::Rule;
use crate::rule_set::RuleSet;
use crate::serializer::known::Test;
use std::alloc::AllocError;
use std::cmp::Ordering;

impl Rule {
    /// Whether the rule takes one value of the multi call.
    fn loops(&self, site: BindingId) -> bool
        ensures { result ≡ loops_at site.0 self.now }
    {
        self.get_constraint(site).is_none() && contains(self.iterators.as_slice(), site)
    }

    /// Whether the rule's test of the source makes the site, or its loop does.
    fn opens(&self, binding: &Binding) -> bool
        ensures { result ≡ opens_site self.now binding.now }
    {
        match binding {
            Binding::Iterator { source } => self.loops(*source),
            Binding::MatchVariant {
                source,
                variant,
                field,
            } => match self.get_constraint(*source) {
                Some(
                    Constraint::Variant {
                        variant: wanted,
                        fields,
                        ..
                    },
                ) => *wanted == *variant && field.0 < fields.0,
                _ => false,
            },
            Binding::ExtractStruct { source, field } => match self.get_constraint(*source) {
                Some(Constraint::Struct { fields, .. }) => field.0 < fields.0,
                _ => false,
            },
            Binding::MatchSome { source } => match self.get_constraint(*source) {
                Some(Constraint::Some) => true,
                _ => false,
            },
            _ => false,
        }
    }
}

/// Whether a site is one of these.
fn contains(sites: &[BindingId], site: BindingId) -> bool
    ensures { result ≡ list_any (same_site site) sites.now }
{
    sites.iter().any(|x| *x == site)
}

impl RuleSet {
    fn site(&self, site: BindingId) -> Option<&Binding>
        ensures { option_copied result ≡ slice_get self.now.sites site.0 }
    {
        self.bindings().get(site.index())
    }

    /// What a site is made of.
    pub(crate) fn parts(&self, site: BindingId) -> &[BindingId]
        ensures { numbers_of result.now ≡ (rules_in self.now).parts site.0 }
    {
        match self.site(site) {
            Some(binding) => binding.sources(),
            None => &[],
        }
    }

    /// The site whose test makes this one.
    pub(crate) fn source(&self, site: BindingId) -> Option<BindingId>
        ensures { option_map (λ id. id.0) result ≡ source_in (slice_get self.now.sites site.0) }
    {
        match self.site(site) {
            Some(Binding::Iterator { source }) => Some(*source),
            Some(Binding::MatchVariant { source, .. }) => Some(*source),
            Some(Binding::ExtractStruct { source, .. }) => Some(*source),
            Some(Binding::MatchSome { source }) => Some(*source),
            _ => None,
        }
    }

    /// Whether a site stands in the orders in which sites are bound.
    fn stands(&self, site: BindingId) -> bool
        ensures { result ≡ (rules_in self.now).stands site.0 }
    {
        match self.site(site) {
            Some(Binding::ConstInt { .. }) => false,
            Some(Binding::ConstPrim { .. }) => false,
            Some(Binding::Argument { .. }) => false,
            Some(Binding::MatchTuple { .. }) => false,
            Some(Binding::MakeVariant { fields, .. }) => !fields.as_slice().is_empty(),
            Some(Binding::MakeStruct { fields, .. }) => !fields.as_slice().is_empty(),
            Some(_) => true,
            None => false,
        }
    }

    /// The option that a site is the content of.
    pub(crate) fn option_of(&self, site: BindingId) -> Option<BindingId>
        ensures { option_map (λ id. id.0) result ≡ read_or None option_site (slice_get self.now.sites site.0) }
    {
        match self.site(site) {
            Some(Binding::MatchSome { source }) => Some(*source),
            _ => None,
        }
    }

    pub(crate) fn priority(&self, rule: usize) -> i64
        ensures { result ≡ (rules_in self.now).prio rule }
    {
        match self.rules().get(rule) {
            Some(r) => r.prio,
            None => 0,
        }
    }

    /// A rule's test of a site.
    pub(crate) fn test_at(&self, rule: usize, site: BindingId) -> Option<Constraint>
        ensures { result ≡ read_or None (test_at site.0) (slice_get self.now.rules rule) }
    {
        match self.rules().get(rule) {
            Some(r) => r.get_constraint(site).copied(),
            None => None,
        }
    }

    /// Whether a rule takes one value of a multi call.
    fn loops(&self, rule: usize, site: BindingId) -> bool
        ensures { result ≡ read_or false (loops_at site.0) (slice_get self.now.rules rule) }
    {
        match self.rules().get(rule) {
            Some(r) => r.loops(site),
            None => false,
        }
    }

    /// Whether a rule has two sites in one class.
    fn joins(&self, rule: usize, a: BindingId, b: BindingId) -> bool
        ensures { result ≡ (rules_in self.now).joins rule a.0 b.0 }
    {
        match self.rules().get(rule) {
            Some(r) => r.equals.in_same_set(a, b),
            None => false,
        }
    }

    /// Whether a rule has a test.
    pub(crate) fn has(&self, rule: usize, test: Test) -> bool
        ensures { result ≡ has_test (rules_in self.now) rule (test_shown test) }
    {
        match test {
            Test::Match(site) => self.test_at(rule, site).is_some(),
            Test::Equal(a, b) => self.joins(rule, a, b),
            Test::Loop(site) => self.loops(rule, site),
        }
    }

    /// Whether a rule's want of the source makes the site.
    pub(crate) fn opens(&self, rule: usize, site: BindingId) -> bool
        ensures { result ≡ opens_at self.now rule site.0 }
    {
        match (self.rules().get(rule), self.site(site)) {
            (Some(r), Some(binding)) => r.opens(binding),
            _ => false,
        }
    }

    /// Whether two rules want the same of a site.
    pub(crate) fn same_want(&self, a: usize, b: usize, site: BindingId) -> bool
        ensures { result ≡ same_wants (rules_in self.now).tests ((rules_in self.now).at a site.0) ((rules_in self.now).at b site.0) }
    {
        match (self.test_at(a, site), self.test_at(b, site)) {
            (Some(one), Some(other)) => other == one,
            (None, None) => self.loops(a, site) == self.loops(b, site),
            _ => false,
        }
    }

    /// The priority of the first rule that lacks the test.
    pub(crate) fn floor(&self, test: Test, left: &[usize]) -> Option<i64>
        ensures { result ≡ floor (rules_in self.now) (test_shown test) left.now }
    {
        for rule in left {
            if !self.has(*rule, test) {
                return Some(self.priority(*rule));
            }
        }
        None
    }

    /// Whether a rule's priority isn't below a floor.
    fn reaches(&self, floor: Option<i64>, rule: usize) -> bool
        ensures { result ≡ reaches (rules_in self.now) floor rule }
    {
        match floor {
            None => true,
            Some(priority) => priority <= self.priority(rule),
        }
    }

    /// Whether a rule is among those that the test counts, whose floor this is.
    pub(crate) fn picks(&self, test: Test, floor: Option<i64>, rule: usize) -> bool
        ensures { result ≡ picks (rules_in self.now) (test_shown test) floor rule }
    {
        self.reaches(floor, rule) && self.has(rule, test)
    }

    /// How many rules a test counts: those that have it, down to the priority of the first that lacks it.
    pub(crate) fn count(&self, test: Test, left: &[usize]) -> usize
        requires order { IsInOrder (rules_in self.now) left.now }
        ensures { result ≡ length (counted (rules_in self.now) (test_shown test) left.now) }
    {
        let floor = self.floor(test, left);
        let mut count = 0;
        for rule in left {
            if !self.reaches(floor, *rule) {
                return count;
            }
            if self.has(*rule, test) {
                count += 1;
            }
        }
        count
    }

    /// The greatest priority of rules in order.
    pub(crate) fn top(&self, left: &[usize]) -> i64
        ensures { result ≡ top (rules_in self.now) left.now }
    {
        match left {
            [] => 0,
            [first, ..] => self.priority(*first),
        }
    }

    /// Whether the first rule has the greater priority, or the same and stands before the other.
    fn precedes(&self, a: usize, b: usize) -> bool
        ensures { result ≡ precedes (rules_in self.now) a b }
    {
        self.priority(b) < self.priority(a) || (self.priority(a) == self.priority(b) && a < b)
    }

    /// The order of rules by descending priority, then by number.
    pub(crate) fn compare(&self, a: usize, b: usize) -> Ordering
        ensures { is_lt result ≡ precedes (rules_in self.now) a b }
    {
        if self.precedes(a, b) {
            Ordering::Less
        } else if self.precedes(b, a) {
            Ordering::Greater
        } else {
            Ordering::Equal
        }
    }

    /// Whether the first rule's want of a site is the lesser: none, then tests in their order, then one value.
    fn has_lesser(&self, site: BindingId, a: usize, b: usize) -> bool
        ensures { result ≡ lesser_want (rules_in self.now).tests ((rules_in self.now).at a site.0) ((rules_in self.now).at b site.0) }
    {
        match (self.test_at(a, site), self.test_at(b, site)) {
            (Some(one), Some(other)) => one < other,
            (Some(_), None) => self.loops(b, site),
            (None, Some(_)) => !self.loops(a, site),
            (None, None) => !self.loops(a, site) && self.loops(b, site),
        }
    }

    fn comes_first(&self, site: BindingId, a: usize, b: usize) -> bool
        ensures { result ≡ comes_first (rules_in self.now) site.0 a b }
    {
        self.has_lesser(site, a, b) || (self.same_want(a, b, site) && self.precedes(a, b))
    }

    /// The order of rules by their tests of a site, then as they precede each other.
    pub(crate) fn compare_at(&self, site: BindingId, a: usize, b: usize) -> Ordering
        ensures { is_lt result ≡ comes_first (rules_in self.now) site.0 a b }
    {
        if self.comes_first(site, a, b) {
            Ordering::Less
        } else if self.comes_first(site, b, a) {
            Ordering::Greater
        } else {
            Ordering::Equal
        }
    }

    /// Puts a site into an order, where it stands in one.
    pub(crate) fn push_own(
        &self,
        site: BindingId,
        order: &mut Vec<BindingId>,
    ) -> Result<(), AllocError>
        ensures { IfOk result (λ _. numbers_of order.new.items ≡ numbers_of order.old.items ++ own (rules_in self.now) site.0) }
    {
        if self.stands(site) {
            order.push(site)?;
        }
        Ok(())
    }
}
