//! What is told of a term's rules.
ghost use Rattle.std.specs.Prelude.{◌≡◌, IsTrue};
ghost use Rattle.isle_coverage.specs.declared.verdict.Verdict.TheVariants as told;

use isle_blocks::{BindingId, Constraint};

/// What holds of a call.
#[derive(Clone, Copy)]
pub enum Told {
    /// What the site holds passes the test.
    Passes { site: BindingId, test: Constraint },
    /// What it holds, if anything, doesn't.
    Fails { site: BindingId, test: Constraint },
    /// Two sites don't hold the same.
    Differ { first: BindingId, second: BindingId },
}

/// Whether each call of a term has a rule, whatever the calls answer that its rules make.
#[derive(Drop)]
pub enum Verdict {
    /// Each has.
    Covered,
    /// None of which all this is so.
    Missing(Vec<Told>),
    /// It takes more steps than were allowed.
    Undecided,
}

impl Verdict {
    /// Whether each call has a rule.
    pub fn is_covered(&self) -> bool
        ensures { IsTrue result → self.now ≡ told.Covered }
    {
        match self {
            Verdict::Covered => true,
            Verdict::Missing(_) | Verdict::Undecided => false,
        }
    }
}
