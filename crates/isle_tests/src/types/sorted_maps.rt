//! The comparisons that a sorted map makes and tells.
ghost use Rattle.std.proofs.Common.{rules};
ghost use Rattle.std.specs.Cmp.Rules.{comparing};
ghost use Rattle.std.specs.Cmp.{partial_equiv_from_equiv, partial_order_from_own_ties};
ghost use Rattle.std.specs.Ordering.{as_partial_cmp, nat_cmp, on};
ghost use Rattle.std.specs.Prelude.{◌==◌};

use isle_types::SortedMap;
use std::alloc::{AllocError, Global};
use std::cell::Cell;
use std::cmp::Ordering;
use std::test::Fail;

// A number that counts the comparisons in which it stands on the left.
#[derive(Clone, Copy)]
struct Counted<'a> {
    number: u32,
    calls: &'a Cell<u32>,
}

impl<'a> PartialEq for Counted<'a> {
    ghost eq = { on (λ it. it.number) ◌==◌ };

    ghost laws = { Prim.search (comparing, rules) };

    fn eq(&self, other: &Counted<'a>) -> bool {
        self.number == other.number
    }
}

impl<'a> Eq for Counted<'a> {
    ghost laws = { Prim.search (comparing, rules) };
}

impl<'a> PartialOrd for Counted<'a> {
    ghost partial_cmp = { as_partial_cmp (on (λ it. it.number) nat_cmp) };

    ghost laws = { partial_order_from_own_ties (Prim.search (comparing, rules)) (Prim.search (comparing, rules)) };

    fn partial_cmp(&self, other: &Counted<'a>) -> Option<Ordering> {
        Some(self.cmp(other))
    }
}

impl<'a> Ord for Counted<'a> {
    ghost cmp = { on (λ it. it.number) nat_cmp };

    ghost total = { Prim.search (comparing, rules) };

    ghost matches_partial_cmp = { Prim.search (comparing, rules) };

    ghost matches_eq = { Prim.search (comparing, rules) };

    fn cmp(&self, other: &Counted<'a>) -> Ordering {
        self.calls.set(self.calls.get().saturating_add(1));
        self.number.cmp(&other.number)
    }
}

// A map with these keys, which count their comparisons.
fn counted_map<'a>(
    alloc: Global,
    keys: &[u32],
    calls: &'a Cell<u32>,
) -> Result<SortedMap<Counted<'a>, ()>, Fail> {
    let mut map = SortedMap::new(alloc);
    for &number in keys {
        map.insert(Counted { number, calls }, ())?;
    }
    Ok(map)
}

// The most comparisons that it takes to look for one of 0, 1, .., 9 among the keys, or `None`
// where `find` tells of another number than the keys counted.
pub fn most_comparisons(alloc: Global, keys: &[u32]) -> Result<Option<u32>, Fail> {
    let calls = Cell::new(0);
    let map = counted_map(alloc, keys, &calls)?;
    let mut most = 0;
    for number in 0..10 {
        calls.set(0);
        let (_, comparisons) = map.find(&Counted {
            number,
            calls: &calls,
        });
        if comparisons != calls.get() {
            return Ok(None);
        }
        most = most.max(comparisons);
    }
    Ok(Some(most))
}
