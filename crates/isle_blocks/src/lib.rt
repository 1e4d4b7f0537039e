//! Rule sets: the sites that rules speak of, and what rules demand of them.
#![tactic(auto)]

mod adding;
mod assembly;
mod binding;
mod builder;
mod checking;
mod close;
mod constraint;
mod demands;
mod faults;
mod ids;
pub mod laws;
mod moving;
mod normal;
mod parting;
mod placing;
mod report;
mod rule;
mod rule_set;
mod serializer;
mod sites;
mod term_sets;

pub use binding::Binding;
pub use checking::check;
pub use constraint::Constraint;
pub use demands::{Demands, demands_of};
pub use faults::{FaultsBetween, faults_between};
pub use ids::{BindingId, TupleIndex};
pub use report::{RulePlace, report_faults};
pub use rule::{Overlap, Rule};
pub use rule_set::RuleSet;
pub use serializer::{Arms, Block, ControlFlow, EvalStep, MatchArm, Steps, serialize};
pub use term_sets::{TermSets, build};
