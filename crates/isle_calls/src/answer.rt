//! Answers of calls with the steps that these took, and effects: impure calls of external constructors.
use isle_types::TermId;
use isle_values::Value;

/// How a call ended.
#[derive(Debug, Drop)]
pub enum Answer {
    /// The value of the chosen rule.
    Value(Value),
    /// A partial term answered nothing.
    None,
    /// No rule of this term, which isn't partial, matches these arguments.
    Stuck(TermId, Vec<Value>),
    /// The depth was used up.
    Spent,
    /// An external function answered this call in a way that its declaration doesn't allow.
    IllTyped(TermId, Vec<Value>),
}

/// An answer, and how many steps the call itself took.
#[derive(Debug, Drop)]
pub struct Called {
    pub answer: Answer,
    pub steps: u128,
}

/// A call of an external constructor that isn't pure, with its answer.
#[derive(Debug, Drop)]
pub struct Effect {
    pub term: String,
    pub args: Vec<Value>,
    pub answer: Option<Value>,
}
