//! What a rule demands by itself.
ghost use Rattle.std.specs.Prelude.{◌≡◌, false, IfNone, IfOk, IfSome};
ghost use Rattle.isle_blocks.specs.AddedRules.{LacksRoomAlone};
ghost use Rattle.isle_blocks.specs.RuleDemands.{HasDemands};

use crate::adding::own_rule;
use crate::binding::Binding;
use crate::builder::BuiltRule;
use crate::constraint::Constraint;
use crate::ids::BindingId;
use crate::sites::SiteFault;
use isle_rules::TermEnv;
use std::alloc::{AllocError, Global};

/// The sites of a rule by itself, and what it demands of them, in the order of its text. Of a rule that can't match too.
#[derive(Debug, Drop)]
pub struct Demands {
    /// The sites, each once; a site's number is its place.
    pub sites: Vec<Binding>,
    /// The tests of sites, of one site as many as the text has.
    pub tests: Vec<(BindingId, Constraint)>,
    /// The sites whose values must be equal.
    pub equals: Vec<(BindingId, BindingId)>,
}

/// What a rule of the environment demands; nothing where it has more than 65,536 sites.
pub fn demands_of(
    alloc: Global,
    termenv: &TermEnv,
    rule: &isle_rules::Rule,
) -> Result<Option<Demands>, AllocError>
    ensures demands { IfOk result (λ made. IfSome made (HasDemands termenv.now rule.now)) }
    ensures too_many { IfOk result (λ made. IfNone made (LacksRoomAlone termenv.now rule.now false)) }
{
    match own_rule(alloc, termenv, rule, false) {
        Ok(built) => Ok(Some(demands_in(built))),
        Err(SiteFault::Size) => Ok(None),
        Err(SiteFault::Memory) => Err(AllocError),
    }
}

/// What a visit found that a rule demands.
fn demands_in(built: BuiltRule) -> Demands
    ensures sites { result.sites.items ≡ built.sites }
    ensures tests { result.tests.items ≡ built.has.items }
    ensures equals { result.equals.items ≡ built.same.items }
{
    let BuiltRule {
        sites,
        has,
        same,
        impure: _impure,
        result: _result,
    } = built;
    Demands {
        sites: sites.into_bindings(),
        tests: has,
        equals: same,
    }
}
