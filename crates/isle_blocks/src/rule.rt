//! A rule of a rule set by what it demands of sites, and whether it overlaps or shadows another.
ghost use Rattle.std.specs.Prelude.{◌≡◌, ◌+◌, ◌↔◌, IfOk, IsTrue, MatchOption, length};
ghost use Rattle.std.specs.BTreeMap.{is_at};
ghost use Rattle.std.specs.Map.{lookup};
ghost use Rattle.std.specs.Option.{option_copied};
ghost use Rattle.std.specs.Ordering.{nat_cmp};
ghost use Rattle.isle_containers.specs.JoinedSets.{members};
ghost use Rattle.isle_blocks.specs.ListedSets.{ListsEqualSites};
ghost use Rattle.isle_blocks.specs.Rules.{AreApart, HaveInCommon, OverlapIs, Overlaps, Shadows, site_cmp};

use crate::constraint::Constraint;
use crate::ids::BindingId;
use isle_ast::Seq;
use isle_ast::pos::Pos;
use isle_types::{DisjointSets, RuleId, SortedMap, Sym, sets_are_disjoint};
use std::alloc::{AllocError, Global};
use std::cmp::Ordering;

/// A rule of a rule set, by what it demands of sites.
#[derive(Debug, Drop)]
pub struct Rule {
    pub id: RuleId,
    pub pos: Pos,
    /// The tests of sites, at most one of each.
    pub constraints: SortedMap<BindingId, Constraint>,
    /// The sites without a test whose values must be equal.
    pub equals: DisjointSets<BindingId>,
    /// The sites of multi calls, each once, ascending.
    pub iterators: Seq<BindingId>,
    pub prio: i64,
    pub name: Option<Sym>,
    /// The sites of impure calls, in the order of the calls.
    pub impure: Seq<BindingId>,
    /// The site of the rule's result.
    pub result: BindingId,
}

/// Whether some arguments may match two rules.
#[derive(Debug, Clone, Copy, PartialEq, Eq)]
pub enum Overlap {
    /// Some site has different tests in them.
    No,
    /// No site has. `subset` says that the one with fewer tests matches whatever the other does.
    Yes { subset: bool },
}

impl Rule {
    /// The test of a site.
    pub fn get_constraint(&self, site: BindingId) -> Option<&Constraint>
        ensures { option_copied result ≡ lookup (is_at (site_cmp site)) self.now.constraints }
    {
        self.constraints.get(&site)
    }

    /// The number of sites that are tested or must be equal to others.
    pub fn total_constraints(&self) -> usize
        ensures { result ≡ length self.now.constraints + length (members self.now.equals) }
    {
        self.constraints.len() + self.equals.len()
    }

    /// The sites that must be equal, set by set: each set once, its sites ascending, the set with the least site first.
    pub fn equal_sites(&self, alloc: Global) -> Result<Vec<Seq<BindingId>>, AllocError>
        ensures { IfOk result (λ sets. ListsEqualSites self.now.equals sets.items) }
    {
        let mut left = self.equals.clone()?;
        let mut sets = Vec::new(alloc);
        for number in 0..65536u32 {
            if left.is_empty() {
                break;
            }
            sets_are_disjoint(&left);
            let set = left.remove_set_of(BindingId(number as u16))?;
            if !set.is_empty() {
                sets.push(Seq::new(set))?;
            }
        }
        Ok(sets)
    }

    /// Whether some arguments may match both rules, which are of one rule set.
    pub fn may_overlap(&self, other: &Rule) -> Overlap
        ensures { OverlapIs self.now other.now result }
    {
        let Some(common) = common_tests(&self.constraints, &other.constraints) else {
            return Overlap::No;
        };
        let fewest = self.constraints.len().min(other.constraints.len());
        let free = self.equals.is_empty() && other.equals.is_empty();
        Overlap::Yes {
            subset: free && common == fewest,
        }
    }

    /// Whether the rules have one priority and may match together.
    pub(crate) fn overlaps(&self, other: &Rule) -> bool
        ensures { IsTrue result ↔ Overlaps self.now other.now }
    {
        self.prio == other.prio && self.may_overlap(other) != Overlap::No
    }

    /// Whether the rule, which is of higher priority, matches whatever the other does.
    pub(crate) fn shadows(&self, low: &Rule) -> bool
        ensures { IsTrue result ↔ Shadows self.now low.now }
    {
        if self.prio <= low.prio || low.constraints.len() < self.constraints.len() {
            return false;
        }
        match self.may_overlap(low) {
            Overlap::No => false,
            Overlap::Yes { subset } => subset,
        }
    }
}

/// The number of tests that both lists have, or `None` where a site has different tests in them.
fn common_tests(
    first: &SortedMap<BindingId, Constraint>,
    second: &SortedMap<BindingId, Constraint>,
) -> Option<usize>
    ensures { MatchOption result (AreApart first.now second.now) (HaveInCommon first.now second.now) }
{
    let (first_len, second_len) = (first.len(), second.len());
    let (mut common, mut i, mut j) = (0, 0, 0);
    'tests: while i < first_len && j < second_len {
        let (site, one) = first.entry(i).unwrap();
        let (other_site, other) = second.entry(j).unwrap();
        match site.cmp(other_site) {
            Ordering::Less => i += 1,
            Ordering::Greater => j += 1,
            Ordering::Equal => {
                if one != other {
                    return None;
                }
                common += 1;
                i += 1;
                j += 1;
            }
        }
    }
    Some(common)
}
