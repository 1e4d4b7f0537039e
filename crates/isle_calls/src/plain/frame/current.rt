//! A rule of a call, as far as it has come.
ghost use Rattle.isle_program.specs.Plain.Laid.{AllStandBehind};

use crate::plain::evaluation::Evaluation;
use crate::plain::variables::Variables;
use isle_program::laid::LaidRule;
use isle_rules::Rule;

/// A rule that is being tried, or was chosen.
#[derive(Drop)]
pub struct Current<'a> {
    pub rule: &'a Rule,
    pub laid: &'a LaidRule,
    pub variables: Variables,
    pub evaluation: Evaluation,
    pub at: At,
    ghost behind: { AllStandBehind laid.now },
}

/// Where in a rule.
#[derive(Clone, Copy)]
pub enum At {
    /// The expression of the condition of this place is evaluated.
    IfLet(usize),
    /// The impure call of this place is prepared, or, past the last, the result.
    Right(usize),
    /// A call of a condition was answered none.
    Left,
    /// A call of the right side was answered none.
    Missed,
}
