//! What rules demand of a call.
ghost use Rattle.std.specs.Prelude.{◌≡◌};
ghost use Rattle.isle_missing.specs.Inside.Rows.{denies, same_demand};

use crate::ids::{SiteId, TestId};

/// What a rule demands of a call. A site passes at most one test.
#[derive(Clone, Copy)]
pub enum Demand {
    /// The site passes the test.
    Passes { site: SiteId, test: TestId },
    /// Two sites hold the same.
    Same { first: SiteId, second: SiteId },
}

impl Demand {
    /// Whether the demands are one.
    pub(crate) fn is(self, other: Demand) -> bool
        ensures { result ≡ same_demand self other }
    {
        match (self, other) {
            (
                Demand::Passes { site, test },
                Demand::Passes {
                    site: other_site,
                    test: other_test,
                },
            ) => { site.0 == other_site.0 && test.0 == other_test.0 }
            (
                Demand::Same { first, second },
                Demand::Same {
                    first: other_first,
                    second: other_second,
                },
            ) => { first.0 == other_first.0 && second.0 == other_second.0 }
            _ => false,
        }
    }

    /// Whether the other demand fails where this one holds: it asks another test of the same site.
    pub(crate) fn denies(self, other: Demand) -> bool
        ensures { result ≡ denies self other }
    {
        match (self, other) {
            (
                Demand::Passes { site, test },
                Demand::Passes {
                    site: other_site,
                    test: other_test,
                },
            ) => { site.0 == other_site.0 && test.0 != other_test.0 }
            _ => false,
        }
    }
}
